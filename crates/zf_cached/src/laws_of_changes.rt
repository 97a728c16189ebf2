//! Laws of what changes an array as a whole.

ghost use Rattle.std.specs.Prelude.{◌≡◌, ℕ, ◌+◌, ◌*◌, ◌^◌, ◌≤◌, min, Bool, true, false};
ghost use Rattle.zf_base.specs.Formats.{Format, meant};
ghost use Rattle.zf_cached.specs.State.{State, most_counted};
ghost use Rattle.zf_cached.specs.Changes.{flush, discard, raised, default_lines, relined, opened, zeros, resized};
ghost use Rattle.zf_cached.specs.Consistency.{IsConsistent, IsEmpty};
ghost use Rattle.zf_cached.specs.Fates.{IsLeft, IsRounded};
ghost use Rattle.zf_cached.specs.Unwritten.{dirty_lines};

use crate::coded::Coded;
use crate::placing::Placing;

/// Whatever the placing, and whichever blocks are owned, what holds of every state that is reached holds of
/// an array that is opened, and is kept by a flush, a discard, a new number of lines and a resize.
pub fn changes_keep_states_consistent<C: Coded, P: Placing>()
    ensures opened { (owned : ℕ → Bool) (format : Format C.Code) (codes : ℕ → C.Code) (lines : ℕ)
        → 1 ≤ lines → IsConsistent P.line owned format (opened format codes lines) }
    ensures flush { (owned : ℕ → Bool) (format : Format C.Code) (s : State C.Code)
        → IsConsistent P.line owned format s → IsConsistent P.line owned format (flush format s) }
    ensures discard { (owned : ℕ → Bool) (format : Format C.Code) (s : State C.Code)
        → IsConsistent P.line owned format s → IsConsistent P.line owned format (discard format s) }
    ensures lines { (owned : ℕ → Bool) (format : Format C.Code) (s : State C.Code) (lines : ℕ)
        → 1 ≤ lines → IsConsistent P.line owned format s
        → IsConsistent P.line owned format (relined format s lines) }
    ensures resize { (owned : ℕ → Bool) (format new : Format C.Code) (zero : C.Code) (s : State C.Code)
        → ((b : ℕ) → meant new b zero ≡ zeros new)
        → IsConsistent P.line owned format s → IsConsistent P.line owned new (resized new zero s) }
{}

/// A flush writes each dirty block back, leaves each clean one as it is, and then nothing is dirty or in any
/// line; the writes rise by one for each line with a dirty block, and stay at the most; two flushes are one.
pub fn flushes<C: Coded, P: Placing>()
    ensures dirty { (owned : ℕ → Bool) (format : Format C.Code) (s : State C.Code) (b : ℕ)
        → IsConsistent P.line owned format s → s.dirty b ≡ true → IsRounded format s (flush format s) b }
    ensures clean { (owned : ℕ → Bool) (format : Format C.Code) (s : State C.Code) (b : ℕ)
        → IsConsistent P.line owned format s → s.dirty b ≡ false → IsLeft s (flush format s) b }
    ensures empty { (owned : ℕ → Bool) (format : Format C.Code) (s : State C.Code)
        → IsConsistent P.line owned format s → IsEmpty (flush format s) }
    ensures writes { (owned : ℕ → Bool) (format : Format C.Code) (s : State C.Code)
        → IsConsistent P.line owned format s → s.counts.writes ≤ most_counted
        → (flush format s).counts.writes ≡ min (s.counts.writes + dirty_lines s s.lines) most_counted }
    ensures twice { (format : Format C.Code) (s : State C.Code) → flush format (flush format s)
        ≡ flush format s }
    ensures lines { (format : Format C.Code) (s : State C.Code) → (flush format s).lines ≡ s.lines }
    ensures touches { (format : Format C.Code) (s : State C.Code)
        → ((flush format s).counts.hits ≡ s.counts.hits)
        × ((flush format s).counts.misses ≡ s.counts.misses) }
{}

/// A discard gives each owned block the values that its code means, writes nothing back and counts nothing;
/// two discards are one.
pub fn discards<C: Coded, P: Placing>()
    ensures values { (owned : ℕ → Bool) (format : Format C.Code) (s : State C.Code) (b : ℕ) → owned b ≡ true
        → IsConsistent P.line owned format s → (discard format s).values b ≡ meant format b (s.codes b) }
    ensures empty { (format : Format C.Code) (s : State C.Code) → IsEmpty (discard format s) }
    ensures kept { (format : Format C.Code) (s : State C.Code) → ((discard format s).codes ≡ s.codes)
        × ((discard format s).counts ≡ s.counts) × ((discard format s).lines ≡ s.lines) }
    ensures twice { (format : Format C.Code) (s : State C.Code) → discard format (discard format s)
        ≡ discard format s }
{}

/// A number of lines is raised to the least power of two that is at least as great; an array has by itself
/// the least power of two whose square is at least its number of blocks.
pub fn numbers_of_lines()
    ensures raised_power { (n : ℕ) → (k : ℕ) × (raised n ≡ 2 ^ k) }
    ensures raised_enough { (n : ℕ) → n ≤ 65536 → n ≤ raised n }
    ensures raised_least { (n k : ℕ) → n ≤ 2 ^ k → raised n ≤ 2 ^ k }
    ensures default_power { (n : ℕ) → (k : ℕ) × (default_lines n ≡ 2 ^ k) }
    ensures default_enough { (n : ℕ) → n ≤ 2 ^ 32 → n ≤ default_lines n * default_lines n }
    ensures default_least { (n k : ℕ) → n ≤ 2 ^ k * 2 ^ k → default_lines n ≤ 2 ^ k }
{}
