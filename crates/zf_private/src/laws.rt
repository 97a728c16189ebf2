//! Laws of private views. Each is a function with no parameters and an empty body, whose contract is the
//! theorem.

ghost use Rattle.std.specs.Prelude.{◌≡◌, ◌≢◌, ℕ, ◌+◌, ◌<◌, ◌≤◌, length, List};
ghost use Rattle.std.specs.Int.{Width};
ghost use Rattle.zf_base.specs.Formats.{Format};
ghost use Rattle.zf_cached.specs.State.{State};
ghost use Rattle.zf_cache.specs.Kept.{IsEmpty};
ghost use Rattle.zf_cache.specs.Standing.{Fits};
ghost use Rattle.zf_cached.specs.Acts.{Act};
ghost use Rattle.zf_cached.specs.Views.{Step, Views, acted, answered, state_of_view, stepped, ran, answers};
ghost use Rattle.zf_cached.specs.Views.{steps_of, NoneShared, IsUnowned, IsWithin, AreWithin, HasOwn};
ghost use Rattle.zf_cached.specs.Views.{AreAlike};
ghost use Rattle.zf_cached.specs.Ownership.{Owns, OwnsPart, first_of, count_of};
ghost use Rattle.zf_private.specs.Standing.{Held, Own, IsSameView, IsWhole, state};
ghost use Rattle.zf_private.specs.Several.{AreReady, StandFor};

use zf_base::{Lane, Reading};
use zf_cached::coded::Coded;

/// However the steps of several views are mixed, each view answers as in a run of its own steps alone from
/// the same start, and ends with the same lines, counts, and values and codes of its blocks. The code of a
/// block that no view owns stays. View `i` owns the `count i` blocks from `first i` on.
pub fn views_run_as_if_alone<C: Coded>()
    ensures answers { (w : Width) (format : Format C.Code)
        (first count : ℕ → ℕ) (s : Views C.Code) (steps : List Step) (i : ℕ)
        → let owns : ℕ → ℕ → Type 0 = λ j. Owns (first j) (count j) in
        NoneShared owns → AreWithin owns steps → ((j : ℕ) → HasOwn (owns j) (state_of_view s j))
        → answers w format i s steps ≡ answers w format i s (steps_of i steps) }
    ensures ends { (w : Width) (format : Format C.Code)
        (first count : ℕ → ℕ) (s : Views C.Code) (steps : List Step) (i : ℕ)
        → let owns : ℕ → ℕ → Type 0 = λ j. Owns (first j) (count j) in
        NoneShared owns → AreWithin owns steps → ((j : ℕ) → HasOwn (owns j) (state_of_view s j))
        → AreAlike (owns i) (state_of_view (ran w format s steps) i)
        (state_of_view (ran w format s (steps_of i steps)) i) }
    ensures unowned { (w : Width) (format : Format C.Code)
        (first count : ℕ → ℕ) (s : Views C.Code) (steps : List Step) (b : ℕ)
        → let owns : ℕ → ℕ → Type 0 = λ j. Owns (first j) (count j) in
        IsUnowned owns b → AreWithin owns steps → ((j : ℕ) → HasOwn (owns j) (state_of_view s j))
        → (ran w format s steps).codes b ≡ s.codes b }
    ensures own { (w : Width) (format : Format C.Code)
        (first count : ℕ → ℕ) (s : Views C.Code) (steps : List Step)
        → let owns : ℕ → ℕ → Type 0 = λ j. Owns (first j) (count j) in
        AreWithin owns steps → ((j : ℕ) → HasOwn (owns j) (state_of_view s j))
        → (j : ℕ) → HasOwn (owns j) (state_of_view (ran w format s steps) j) }
{}

/// An act on a block of one's own needs nothing of other blocks: two states that are alike in the owned
/// blocks stay so, and give the same answer.
pub fn acts_need_no_other_block<C: Coded>()
    ensures { (w : Width) (format : Format C.Code) (first count : ℕ) (s t : State C.Code) (a : Act)
        → let owned : ℕ → Type 0 = Owns first count in
        IsWithin owned a → HasOwn owned s → AreAlike owned s t
        → AreAlike owned (acted w format s a) (acted w format t a)
        × (answered (acted w format s a) a ≡ answered (acted w format t a) a) }
{}

/// Whether a view fits, and what it stands for in its own blocks, depends on the codes of its own blocks
/// alone: a call of another view keeps it.
pub fn other_views_keep_it<T: Lane, const D: usize, B: Reading<T>>()
    ensures fits { (v : Held T) (back new : B) → IsWhole D v → B.format new ≡ B.format back
        → ((b : ℕ) → Own v b → B.codes new b ≡ B.codes back b)
        → Fits T.value v.cache (B.format back) (B.codes back)
        → Fits T.value v.cache (B.format new) (B.codes new) }
    ensures state { (v : Held T) (back new : B) → IsWhole D v → B.format new ≡ B.format back
        → ((b : ℕ) → Own v b → B.codes new b ≡ B.codes back b)
        → AreAlike (Own v) (state T.value v (B.format back) (B.codes back))
        (state T.value v (B.format new) (B.codes new)) }
    ensures own { (v : Held T) (back : B) → IsWhole D v
        → HasOwn (Own v) (state T.value v (B.format back) (B.codes back)) }
{}

/// A call of view `i` of several that are over one backing is a step of the definition: the views are ready
/// for the next call, whichever it is, stand for what the step leaves, and the answer is the step's. The
/// clauses of a call are the premises; what it says of the other views follows.
pub fn calls_are_steps<T: Lane, const D: usize, B: Reading<T>>()
    ensures ready { (w : Width) (views news : ℕ → Held T) (back new : B) (i : ℕ) (a : Act)
        → AreReady T.value D views (B.format back) (B.codes back)
        → B.format new ≡ B.format back → ((m : ℕ) → m ≢ i → news m ≡ views m) → IsSameView (views i) (news i)
        → IsWithin (Own (views i)) a
        → state T.value (news i) (B.format new) (B.codes new)
        ≡ acted w (B.format back) (state T.value (views i) (B.format back) (B.codes back)) a
        → IsWhole D (news i) → Fits T.value (news i).cache (B.format new) (B.codes new)
        → AreReady T.value D news (B.format new) (B.codes new) }
    ensures step { (w : Width) (views news : ℕ → Held T) (back new : B) (i : ℕ) (a : Act) (s : Views B.Code)
        → AreReady T.value D views (B.format back) (B.codes back)
        → StandFor T.value views (B.format back) (B.codes back) s
        → B.format new ≡ B.format back → ((m : ℕ) → m ≢ i → news m ≡ views m) → IsSameView (views i) (news i)
        → IsWithin (Own (views i)) a
        → state T.value (news i) (B.format new) (B.codes new)
        ≡ acted w (B.format back) (state T.value (views i) (B.format back) (B.codes back)) a
        → let t = stepped w (B.format back) s (record { view = i; act = a }) in
        StandFor T.value news (B.format new) (B.codes new) t
        × (answered (state T.value (news i) (B.format new) (B.codes new)) a
        ≡ answered (state_of_view t i) a) }
{}

/// An empty view fits every backing. What `discard` does is the discard of the state
/// that it stands for, and it fits afterwards.
pub fn empty_views<T: Lane, B: Reading<T>>()
    ensures fits { (v : Held T) (n : ℕ) (back : B) → IsEmpty v.cache n
        → Fits T.value v.cache (B.format back) (B.codes back) }
    ensures emptied { (v new : Held T) (back : B) → Fits T.value v.cache (B.format back) (B.codes back)
        → IsEmpty new.cache (length v.cache.tags)
        → Fits T.value new.cache (B.format back) (B.codes back) }
    ensures discards { (v new : Held T) (back : B) → Fits T.value v.cache (B.format back) (B.codes back)
        → IsEmpty new.cache (length v.cache.tags) → new.cache.counts ≡ v.cache.counts
        → state T.value new (B.format back) (B.codes back)
        ≡ acted T.width (B.format back) (state T.value v (B.format back) (B.codes back)) Act.discard }
{}

/// Of n views of an array, no two share a block, each block has a view, and where there are at least n blocks
/// each view has one.
pub fn parts_of_an_array()
    ensures shared { (blocks n : ℕ) → 1 ≤ n → NoneShared (OwnsPart blocks n) }
    ensures all { (blocks n b : ℕ) → 1 ≤ n → b < blocks → (i : ℕ) × (i < n) × OwnsPart blocks n i b }
    ensures some { (blocks n i : ℕ) → 1 ≤ n → n ≤ blocks → 1 ≤ count_of blocks n i }
    ensures inside { (blocks n i : ℕ) → i < n → first_of blocks n i + count_of blocks n i ≤ blocks }
    ensures begins { (blocks n : ℕ) → first_of blocks n 0 ≡ 0 }
    ensures ends { (blocks n : ℕ) → 1 ≤ n → first_of blocks n n ≡ blocks }
{}
