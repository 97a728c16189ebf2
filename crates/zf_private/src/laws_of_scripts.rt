//! Laws of private views in scripts.

ghost use Rattle.std.specs.Prelude.{◌≡◌, ◌≢◌, ℕ, List, length, filter, Some, None, false};
ghost use Rattle.std.specs.List.{AllByRecursion, flat_map};
ghost use Rattle.std.specs.Option.{option_to_list};
ghost use Rattle.zf_cached.specs.Commands.{Command};
ghost use Rattle.zf_cached.specs.Grammar.{read_line};
ghost use Rattle.zf_cached.specs.Steps.{Setting, Session, refusal, step};
ghost use Rattle.zf_cached.specs.Runs.{run_lines};
ghost use Rattle.zf_private.specs.Scripts.{Answered, answered_lines, is_on, without_others};

use zf_cached::coded::Coded;

/// From an accepted `split` on, in lines of which none is `join`: the accepted lines on view `i` answer the
/// same where the accepted lines on all other views are taken out, wherever it is out of memory. In d
/// dimensions.
pub fn replies_of_a_view_alone<C: Coded>()
    ensures { (setting : Setting C.Code) (start : Session C.Code) (views lines : ℕ) (starved others : List ℕ)
        (k m : ℕ)
        (script : List (List ℕ)) (i : ℕ)
        → refusal setting start (Command.split views lines) false ≡ None
        → let d = length start.shape in
        AllByRecursion (λ (line : List ℕ). read_line d line ≢ Some Command.join) script
        → let s = (step setting start (Command.split views lines) false).0 in
        let all = answered_lines setting starved k script s in
        filter (is_on d i) (answered_lines setting others m (without_others d i all) s)
        ≡ filter (is_on d i) all }
{}

/// The replies of a run are those of its lines, in order.
pub fn replies_of_lines<C: Coded>()
    ensures { (setting : Setting C.Code) (starved : List ℕ) (k : ℕ) (lines : List (List ℕ))
        (s : Session C.Code)
        → (run_lines setting starved k lines s).1
        ≡ flat_map (λ (x : Answered). option_to_list x.1) (answered_lines setting starved k lines s) }
{}
