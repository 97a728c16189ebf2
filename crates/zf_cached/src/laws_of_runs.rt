//! Laws of the steps of a script and of its run.

ghost use Rattle.std.specs.Prelude.{◌≡◌, ℕ, ◌+◌, ◌<◌, ◌≤◌, Bool, true, false, List, ◌++◌, map, length, Some, None};
ghost use Rattle.zf_base.specs.Formats.{Format};
ghost use Rattle.std.specs.Int.{Width};
ghost use Rattle.zf_spec.specs.Grid.{IsShape, blocks};
ghost use Rattle.zf_cached.specs.State.{State};
ghost use Rattle.zf_cached.specs.Touch.{touch_at};
ghost use Rattle.zf_cached.specs.Changes.{opened};
ghost use Rattle.zf_cached.specs.Arrays.{array_format, saved_file};
ghost use Rattle.zf_cached.specs.Commands.{Command};
ghost use Rattle.zf_cached.specs.Replies.{Refusal, Reply};
ghost use Rattle.zf_cached.specs.Grammar.{is_writable};
ghost use Rattle.zf_cached.specs.Steps.{Setting, Session, format_of, tests, refusal, step};
ghost use Rattle.zf_cached.specs.Placing.{direct};
ghost use Rattle.zf_cached.specs.Consistency.{every, IsConsistent, IsEmpty, IsCached, IsSound};
ghost use Rattle.zf_cached.specs.Runs.{lines_of, only_reads, run_lines, run_script, run, look, array_setting};
ghost use Rattle.zf_cached.specs.Unwritten.{IsUnwritten, ReadAlone};
ghost use Rattle.zf_cached.specs.Uncached.{uncached, but_counts, AreOnValues, HasOwnLines, HasEnoughLines, KeepsBlocks};
ghost use Rattle.zf_cached.specs.Uncached.{ShowTheSame, opened_session};

use crate::coded::Coded;
use crate::placing::Placing;

/// A refused command changes nothing; out of memory is only a command that takes some, and only after all
/// other tests.
pub fn refused_commands<C: Coded>()
    ensures unchanged { (setting : Setting C.Code) (s : Session C.Code) (c : Command) (starving : Bool)
        (why : Refusal)
        → refusal setting s c starving ≡ Some why → step setting s c starving
        ≡ (s, Some (Reply.refused why)) }
    ensures memory { (setting : Setting C.Code) (s : Session C.Code) (c : Command) (starving : Bool)
        → refusal setting s c starving ≡ Some Refusal.memory
        → ((tests setting s c).memory ≡ true) × (starving ≡ true) × (refusal setting s c false ≡ None) }
    ensures word { (setting : Setting C.Code) (s : Session C.Code) (c : Command) (starving : Bool)
        → refusal setting s c starving ≡ Some Refusal.word → ⊥ }
{}

/// Whatever the placing, each step of a script, and its whole run, keeps the array in a state that is reached
/// and the window in the array; nothing is dirty after a run.
pub fn scripts_keep_states_consistent<C: Coded, P: Placing>()
    ensures step { (setting : Setting C.Code) (s : Session C.Code) (c : Command) (starving : Bool)
        → is_writable (length s.shape) c ≡ true → IsCached P.line setting
        → IsSound P.line setting s → IsSound P.line setting (step setting s c starving).0 }
    ensures lines { (setting : Setting C.Code) (starved : List ℕ) (k : ℕ) (lines : List (List ℕ))
        (s : Session C.Code)
        → IsCached P.line setting → IsSound P.line setting s
        → IsSound P.line setting (run_lines setting starved k lines s).0 }
    ensures run { (setting : Setting C.Code) (starved shape : List ℕ) (s : State C.Code) (script : List ℕ)
        → IsCached P.line setting → IsShape shape →
        IsConsistent P.line every (array_format setting.coding shape) s
        → IsSound P.line setting (run setting starved shape s script).0 }
    ensures flushed { (setting : Setting C.Code) (starved shape : List ℕ) (s : State C.Code) (script : List ℕ)
        → IsCached P.line setting → IsShape shape →
        IsConsistent P.line every (array_format setting.coding shape) s
        → IsEmpty (run setting starved shape s script).0.state }
{}

/// Lines that only read, and a look of any lines, leave the sizes, the codes and the values as they are, and
/// nothing dirty, where nothing was.
pub fn reading_changes_nothing<C: Coded, P: Placing>()
    ensures run { (setting : Setting C.Code) (starved shape : List ℕ) (s : State C.Code) (script : List ℕ)
        → IsCached P.line setting → ((b : ℕ) → s.dirty b ≡ false)
        → ReadAlone setting (length shape) (lines_of script)
        → let t = (run setting starved shape s script).0 in (t.shape ≡ shape)
        × IsUnwritten s.codes s.values t.state }
    ensures look { (setting : Setting C.Code) (starved shape : List ℕ) (s : State C.Code) (script : List ℕ)
        → IsCached P.line setting → ((b : ℕ) → s.dirty b ≡ false)
        → ((c : Command) → setting.allows c ≡ true → only_reads c ≡ true)
        → let t = (look setting starved shape s script).0 in (t.shape ≡ shape)
        × IsUnwritten s.codes s.values t.state }
{}

/// A script of lines that only read saves the file of an array bit for bit.
pub fn reading_saves_the_file()
    ensures { (w : Width) (budget : ℕ) (starved shape : List ℕ) (s : State (List Bool)) (script : List ℕ)
        → ReadAlone (array_setting w budget) (length shape) (lines_of script) → ((b : ℕ) → s.dirty b ≡ false)
        → let t = (run (array_setting w budget) starved shape s script).0 in
        saved_file w budget t.shape t.state ≡ saved_file w budget shape s }
{}

/// Lines run one after the other: more lines run from where the first ones end, and their replies follow.
pub fn lines_in_order<C: Coded>()
    ensures { (setting : Setting C.Code) (starved : List ℕ) (k : ℕ) (lines more : List (List ℕ))
        (s : Session C.Code)
        → let first = run_lines setting starved k lines s in
        let rest = run_lines setting starved (k + length lines) more first.0 in
        run_lines setting starved k (lines ++ more) s ≡ (rest.0, first.1 ++ rest.1) }
{}

/// Where a cache has as many lines as there are blocks, or more, a script answers as over a plain array of
/// values, with no cache and no rounding: each reply is the same but for the counts of `stats`, and so are the
/// values afterwards. The lines of the script are on values: what is accepted is no flush, discard, new number
/// of lines, resize or split. A touch then puts a block into an empty line, its own, and changes no value.
pub fn enough_lines<C: Coded, P: Placing>()
    ensures opened { (format : Format C.Code) (codes : ℕ → C.Code) (lines : ℕ) → format.blocks ≤ lines
        → HasEnoughLines format (opened format codes lines) }
    ensures touch { (format : Format C.Code) (s : State C.Code) (b : ℕ) → HasOwnLines P.line
        → HasEnoughLines format s → b < format.blocks → KeepsBlocks format s (touch_at P.line format s b) }
    ensures lines { (setting : Setting C.Code) (starved : List ℕ) (k : ℕ) (lines : List (List ℕ))
        (s : Session C.Code)
        → HasOwnLines P.line → IsCached P.line setting → IsSound P.line setting s
        → HasEnoughLines (format_of setting s) s.state → AreOnValues setting starved k lines s
        → let r = run_lines setting starved k lines s in
        let plain = run_lines (uncached setting) starved k lines s in
        (map but_counts r.1 ≡ map but_counts plain.1) × ShowTheSame r.0 plain.0 }
    ensures script { (setting : Setting C.Code) (starved shape : List ℕ) (codes : ℕ → C.Code) (lines : ℕ)
        (script : List ℕ)
        → HasOwnLines P.line → IsCached P.line setting → IsShape shape → 1 ≤ lines → blocks shape ≤ lines
        → let start = opened_session setting shape codes lines in
        AreOnValues setting starved 0 (lines_of script) start
        → let r = run_script setting starved shape start.state script in
        let plain = run_script (uncached setting) starved shape start.state script in
        (map but_counts r.1 ≡ map but_counts plain.1) × ShowTheSame r.0 plain.0 }
{}

/// Where each block has one line alone, a block whose number is below the number of lines has the line of that
/// number.
pub fn own_lines()
    ensures { HasOwnLines direct }
{}

/// An array of a fixed rate has the touch of a cache with one line for a block, and a code of zeros.
pub fn settings_of_arrays()
    ensures { (w : Width) (budget : ℕ) → IsCached direct (array_setting w budget) }
{}
