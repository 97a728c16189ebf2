//! Laws of the language of scripts.

ghost use Rattle.std.specs.Prelude.{◌≡◌, ℕ, ◌≤◌, ◌↔◌, List, Some, IsTrue};
ghost use Rattle.zf_cached.specs.Commands.{Command};
ghost use Rattle.zf_cached.specs.Grammar.{space, cut_at, words_of, line_of, is_writable, read_line};

/// A line is read as a command exactly where the command is writable in that many dimensions and the line is
/// its text; and two commands that are writable there have different texts.
pub fn one_text_for_a_command()
    ensures read { (d : ℕ) (line : List ℕ) (c : Command) → 1 ≤ d
        → (read_line d line ≡ Some c) ↔ (IsTrue (is_writable d c) × (line ≡ line_of c)) }
    ensures different { (d : ℕ) (a b : Command) → 1 ≤ d → IsTrue (is_writable d a) → IsTrue (is_writable d b)
        → line_of a ≡ line_of b → a ≡ b }
{}

/// No word of a command has a space, so its text is cut at the spaces into its words.
pub fn words_of_a_text()
    ensures { (d : ℕ) (c : Command) → IsTrue (is_writable d c) → cut_at space (line_of c) ≡ words_of c }
{}
