//! Laws of touches, of write-back and of the counts.

ghost use Rattle.std.specs.Prelude.{◌≡◌, ℕ, ◌+◌, ◌<◌, ◌≤◌, Bool, true, false, List, ℤ, Some};
ghost use Rattle.std.specs.Prelude.{if◌then◌else◌};
ghost use Rattle.zf_base.specs.Formats.{Format, existing_of};
ghost use Rattle.zf_cached.specs.State.{State, most_counted, risen, own_line, is_here};
ghost use Rattle.zf_cached.specs.Touch.{hit, miss, touch_at, touch_for_writing_at, touch, write_back, with_values};
ghost use Rattle.zf_cached.specs.Placing.{line_in, is_at, direct};
ghost use Rattle.zf_cached.specs.Consistency.{every, IsConsistent};
ghost use Rattle.zf_cached.specs.Passes.{HasLastBlocks, touched_below};
ghost use Rattle.zf_cached.specs.Fates.{IsLeft, IsRounded};

use crate::coded::Coded;
use crate::placing::Placing;

/// Whatever the placing, and whichever blocks are owned, what holds of every state that is reached is kept by
/// a touch of an owned block, by one for writing, by what is then written, and by a write-back.
pub fn touches_keep_states_consistent<C: Coded, P: Placing>()
    ensures touch { (owned : ℕ → Bool) (format : Format C.Code) (s : State C.Code) (b : ℕ) → owned b ≡ true
        → IsConsistent P.line owned format s → IsConsistent P.line owned format (touch_at P.line format s b) }
    ensures for_writing { (owned : ℕ → Bool) (format : Format C.Code) (s : State C.Code) (b : ℕ) → owned b
        ≡ true
        → IsConsistent P.line owned format s → IsConsistent P.line owned format
        (touch_for_writing_at P.line format s b) }
    ensures written { (owned : ℕ → Bool) (format : Format C.Code) (s : State C.Code) (b : ℕ) (values : List ℤ)
        → s.dirty b ≡ true → existing_of format b values ≡ values
        → IsConsistent P.line owned format s → IsConsistent P.line owned format (with_values s b values) }
    ensures write_back { (owned : ℕ → Bool) (format : Format C.Code) (s : State C.Code) (b : ℕ)
        → IsConsistent P.line owned format s → IsConsistent P.line owned format (write_back format s b) }
{}

/// Whatever the placing, a touched block is in its line, with the values, the code and the mark that it had:
/// where it was there, only the hits rise. In a state that is reached, touching it again is a hit.
pub fn touched_blocks<C: Coded, P: Placing>()
    ensures here { (format : Format C.Code) (s : State C.Code) (b : ℕ)
        → (touch_at P.line format s b).held (line_in P.line s b) ≡ Some b }
    ensures same { (format : Format C.Code) (s : State C.Code) (b : ℕ)
        → IsLeft s (touch_at P.line format s b) b }
    ensures hit { (format : Format C.Code) (s : State C.Code) (b : ℕ) → is_at P.line s b ≡ true
        → touch_at P.line format s b ≡ hit s }
    ensures again { (owned : ℕ → Bool) (format : Format C.Code) (s : State C.Code) (b : ℕ) → owned b ≡ true
        → IsConsistent P.line owned format s
        → let t = touch_at P.line format s b in touch_at P.line format t b ≡ hit t }
    ensures dirty { (format : Format C.Code) (s : State C.Code) (b : ℕ)
        → (touch_for_writing_at P.line format s b).dirty b ≡ true }
{}

/// Whatever the placing, what a touch of one block makes of another: a clean block is never written back; a
/// dirty one is, exactly where its line is taken.
pub fn other_blocks<C: Coded, P: Placing>()
    ensures clean { (format : Format C.Code) (s : State C.Code) (a b : ℕ)
        → s.dirty b ≡ false → IsLeft s (touch_at P.line format s a) b }
    ensures evicted { (format : Format C.Code) (s : State C.Code) (a b : ℕ)
        → is_at P.line s a ≡ false → s.held (line_in P.line s a) ≡ Some b → s.dirty b ≡ true
        → IsRounded format s (touch_at P.line format s a) b }
    ensures away { (format : Format C.Code) (s : State C.Code) (a b : ℕ)
        → (s.held (line_in P.line s a) ≡ Some b → ⊥) → IsLeft s (touch_at P.line format s a) b }
{}

/// Where each block has one line alone, a touch puts a block that is not here into its own line, and touching
/// it again is a hit, whatever the state. In a state that is reached a block in a line is in its own, and a
/// dirty block is in its line.
pub fn direct_touches<C: Coded>()
    ensures touch { (format : Format C.Code) (s : State C.Code) (b : ℕ) → touch format s b
        ≡ (if is_here s b then hit s else miss format s (own_line s b) b) }
    ensures here { (format : Format C.Code) (s : State C.Code) (b : ℕ) → is_here (touch format s b) b ≡ true }
    ensures again { (format : Format C.Code) (s : State C.Code) (b : ℕ)
        → touch format (touch format s b) b ≡ hit (touch format s b) }
    ensures own { (owned : ℕ → Bool) (format : Format C.Code) (s : State C.Code) (l b : ℕ)
        → IsConsistent direct owned format s → s.held l ≡ Some b → l ≡ own_line s b }
    ensures dirty { (owned : ℕ → Bool) (format : Format C.Code) (s : State C.Code) (b : ℕ)
        → IsConsistent direct owned format s → s.dirty b ≡ true → s.held (own_line s b) ≡ Some b }
{}

/// A pass over n blocks in order, where each line has two or more of them, misses each of them and hits none,
/// and so does the next pass.
pub fn passes_over_all_blocks<C: Coded>()
    ensures { (format : Format C.Code) (s : State C.Code) (n : ℕ)
        → IsConsistent direct every format s → HasLastBlocks n s → s.counts.misses + n ≤ most_counted
        → let t = touched_below format s n in
        (t.counts.hits ≡ s.counts.hits) × (t.counts.misses ≡ s.counts.misses + n) × HasLastBlocks n t }
{}

/// A count rises by one, and stays at its most.
pub fn counts()
    ensures rises { (n : ℕ) → n < most_counted → risen n ≡ n + 1 }
    ensures stays { risen most_counted ≡ most_counted }
    ensures bound { (n : ℕ) → risen n ≤ most_counted }
{}
