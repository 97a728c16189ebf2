//! Laws of caches over any backing. Each is a function with no parameters and an empty body, whose contract
//! is the theorem.

ghost use Rattle.std.specs.Prelude.{◌≡◌, ◌<◌, ℕ, List, length, map};
ghost use Rattle.zf_base.specs.Formats.{existing_of};
ghost use Rattle.zf_cached.specs.Touch.{with_values};
ghost use Rattle.zf_cached.specs.Changes.{discard, relined};
ghost use Rattle.zf_lines.specs.Rows.{line_at, over_part, with_part};
ghost use Rattle.zf_cache.specs.Kept.{Kept, IsClean, IsDirty, IsEmpty, line_of};
ghost use Rattle.zf_cache.specs.Standing.{state_of, Fits};
ghost use Rattle.zf_cache.specs.Loans.{StandsFor};

use zf_base::{Lane, Reading};

/// An empty cache fits every backing.
pub fn empty_caches_fit<T: Lane, B: Reading<T>>()
    ensures { (c : Kept T) (n : ℕ) (back : B) → IsEmpty c n
        → Fits T.value c (B.format back) (B.codes back) }
{}

/// What `discard` does is the discard of the state that cache and backing stand for, and the two fit
/// afterwards.
pub fn discards<T: Lane, B: Reading<T>>()
    ensures state { (c d : Kept T) (back : B) → Fits T.value c (B.format back) (B.codes back)
        → IsEmpty d (length c.tags) → d.counts ≡ c.counts
        → state_of T.value d (B.format back) (B.codes back)
        ≡ discard (B.format back) (state_of T.value c (B.format back) (B.codes back)) }
    ensures fits { (c d : Kept T) (back : B) → Fits T.value c (B.format back) (B.codes back)
        → IsEmpty d (length c.tags)
        → Fits T.value d (B.format back) (B.codes back) }
{}

/// What `relined_read` does is a new number of lines, where nothing is dirty.
pub fn relines_what_is_clean<T: Lane, B: Reading<T>>()
    ensures { (c d : Kept T) (n : ℕ) (back : B) → IsClean c → Fits T.value c (B.format back) (B.codes back)
        → IsEmpty d n → d.counts ≡ c.counts
        → state_of T.value d (B.format back) (B.codes back)
        ≡ relined (B.format back) (state_of T.value c (B.format back) (B.codes back)) n }
{}

/// What is written through `part_mut` is the block's value there afterwards; all others stay.
pub fn writes_parts<T: Lane, B: Reading<T>>()
    ensures { (c : Kept T) (b a n : ℕ) (ws : List T) (back : B)
        → Fits T.value c (B.format back) (B.codes back)
        → IsDirty c b → line_of c b < length c.lines
        → StandsFor T.value (record c { lines = with_part c.lines (line_of c b) a n ws }) (B.format back)
        (B.codes back)
        (with_values (state_of T.value c (B.format back) (B.codes back)) b
        (existing_of (B.format back) b (map T.value (over_part (line_at c.lines (line_of c b)) a n ws)))) }
{}
