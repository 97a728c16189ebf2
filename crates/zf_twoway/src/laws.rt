//! Laws of two-way caches over any backing. Each is a function with no parameters and an empty body, whose
//! contract is the theorem.

ghost use Rattle.std.specs.Prelude.{◌≡◌, ℕ, ◌==◌, ◌||◌, false, length};
ghost use Rattle.zf_base.specs.Formats.{meant};
ghost use Rattle.zf_cached.specs.State.{no_counts};
ghost use Rattle.zf_cached.specs.Changes.{discard, opened};
ghost use Rattle.zf_cache.specs.Kept.{Kept, IsEmpty, IsIn, IsAway, tag_at, dirty_tag};
ghost use Rattle.zf_cache.specs.Standing.{line_values};
ghost use Rattle.zf_twoway.specs.Placing.{first_line, second_line};
ghost use Rattle.zf_twoway.specs.Standing.{is_dirty, state_of, Fits, HasTwoLines};

use zf_base::{Lane, Reading};

/// A cache and a backing fit where each line that is not empty holds a block that has it as its first or its
/// second line, and that the backing has, where no block is in two lines, and where a clean line has the
/// values that the block's code means; and then alone.
pub fn two_lines_fit<T: Lane, B: Reading<T>>()
    ensures fits { (c : Kept T) (back : B) → HasTwoLines T.value c (B.format back) (B.codes back)
        → Fits T.value c (B.format back) (B.codes back) }
    ensures lines { (c : Kept T) (back : B) → Fits T.value c (B.format back) (B.codes back)
        → HasTwoLines T.value c (B.format back) (B.codes back) }
{}

/// An empty cache fits every backing.
pub fn empty_caches_fit<T: Lane, B: Reading<T>>()
    ensures { (c : Kept T) (n : ℕ) (back : B) → IsEmpty c n
        → Fits T.value c (B.format back) (B.codes back) }
{}

/// An empty cache, with counts of 0, stands with its backing for an array as it is opened.
pub fn empty_caches_open<T: Lane, B: Reading<T>>()
    ensures { (c : Kept T) (n : ℕ) (back : B) → IsEmpty c n → c.counts ≡ no_counts
        → state_of T.value c (B.format back) (B.codes back) ≡ opened (B.format back) (B.codes back) n }
{}

/// What `discard` does is the discard of the state that cache and backing stand for, and the two fit
/// afterwards.
pub fn discards<T: Lane, B: Reading<T>>()
    ensures state { (c d : Kept T) (back : B) → Fits T.value c (B.format back) (B.codes back)
        → IsEmpty d (length c.tags) → d.counts ≡ c.counts
        → state_of T.value d (B.format back) (B.codes back)
        ≡ discard (B.format back) (state_of T.value c (B.format back) (B.codes back)) }
    ensures fits { (c d : Kept T) (back : B) → Fits T.value c (B.format back) (B.codes back)
        → IsEmpty d (length c.tags)
        → Fits T.value d (B.format back) (B.codes back) }
{}

/// In the state of a cache that fits, a block that is in a line has the values there, and is dirty where the
/// tag says so; one that is in no line has the values that its code means, and is clean. A block is dirty
/// where it is so in one of its two lines.
pub fn lines_tell_of_blocks<T: Lane, B: Reading<T>>()
    ensures in_line { (c : Kept T) (back : B) (l b : ℕ) → Fits T.value c (B.format back) (B.codes back)
        → IsIn c.tags l b
        → ((state_of T.value c (B.format back) (B.codes back)).values b
        ≡ line_values T.value c (B.format back) l b)
        × ((state_of T.value c (B.format back) (B.codes back)).dirty b ≡ (tag_at c.tags l == dirty_tag b)) }
    ensures away { (c : Kept T) (back : B) (b : ℕ) → IsAway c.tags b
        → ((state_of T.value c (B.format back) (B.codes back)).values b
        ≡ meant (B.format back) b (B.codes back b))
        × ((state_of T.value c (B.format back) (B.codes back)).dirty b ≡ false) }
    ensures dirty { (c : Kept T) (back : B) (b : ℕ) → Fits T.value c (B.format back) (B.codes back)
        → is_dirty c b ≡ ((tag_at c.tags (first_line (length c.tags) b) == dirty_tag b)
        || (tag_at c.tags (second_line (length c.tags) b) == dirty_tag b)) }
{}
