//! Laws of lines that are run one after the other. Each is a function with no parameters and an empty body,
//! whose contract is the theorem.

ghost use Rattle.std.specs.Prelude.{◌≡◌, ℕ, Bool, List, length, count_by};
ghost use Rattle.zf_cached.specs.Runs.{run_lines};
ghost use Rattle.zf_cached.specs.Steps.{Setting, Session};
ghost use Rattle.zf_commands.specs.Runs.{starved_lines};
ghost use Rattle.zf_commands.specs.Steps.{is_starved};

/// The lines that answer `! memory` are as many as the replies that say so.
pub fn starved_lines_are_counted()
    ensures { (setting : Setting (List Bool)) (starved : List ℕ) (k : ℕ) (lines : List (List ℕ))
        (s : Session (List Bool)) → length (starved_lines setting starved k lines s)
        ≡ count_by is_starved (run_lines setting starved k lines s).1 }
{}
