//! Laws of private views, and of the end of a split.

ghost use Rattle.std.specs.Prelude.{◌≡◌, ℕ, ◌<◌, Bool, true, false, length};
ghost use Rattle.std.specs.Int.{Width};
ghost use Rattle.zf_base.specs.Formats.{Format, meant};
ghost use Rattle.zf_cached.specs.State.{State};
ghost use Rattle.zf_cached.specs.Placing.{direct};
ghost use Rattle.zf_cached.specs.Acts.{Act};
ghost use Rattle.zf_cached.specs.Views.{acted};
ghost use Rattle.zf_cached.specs.Steps.{Setting, Session, format_of, is_split, views_of, state_of_view, joined};
ghost use Rattle.zf_cached.specs.Consistency.{IsPossible, IsConsistent, IsEmpty, IsSound};
ghost use Rattle.zf_cached.specs.Fates.{IsRounded};

use crate::coded::Coded;
use crate::placing::Placing;

/// An act keeps what holds of every state of a view of its own blocks, and leaves the code of each block that
/// isn't dirty.
pub fn acts_keep_views_consistent<C: Coded>()
    ensures consistent { (w : Width) (format : Format C.Code) (owned : ℕ → Bool) (s : State C.Code) (a : Act)
        → IsPossible owned format a
        → IsConsistent direct owned format s → IsConsistent direct owned format (acted w format s a) }
    ensures codes { (w : Width) (format : Format C.Code) (s : State C.Code) (a : Act) (b : ℕ) → s.dirty b
        ≡ false
        → (acted w format s a).codes b ≡ s.codes b }
{}

/// The end of a split rounds each block that is dirty in a view, and leaves the code of each that is dirty in
/// none. Then the array stands for its codes: nothing is dirty or in any line, and each block has the values
/// that its code means.
pub fn joins<C: Coded, P: Placing>()
    ensures rounded { (setting : Setting C.Code) (s : Session C.Code) (i b : ℕ) → IsSound P.line setting s → i
        < length (views_of s)
        → (state_of_view s i).dirty b ≡ true → IsRounded (format_of setting s) (state_of_view s i)
        (joined setting s).state b }
    ensures kept { (setting : Setting C.Code) (s : Session C.Code) (b : ℕ) → IsSound P.line setting s
        → ((i : ℕ) → i < length (views_of s) → (state_of_view s i).dirty b ≡ false)
        → (joined setting s).state.codes b ≡ s.state.codes b }
    ensures empty { (setting : Setting C.Code) (s : Session C.Code) → IsSound P.line setting s → is_split s
        ≡ true
        → IsEmpty (joined setting s).state }
    ensures values { (setting : Setting C.Code) (s : Session C.Code) (b : ℕ) → IsSound P.line setting s
        → is_split s ≡ true
        → (joined setting s).state.values b ≡ meant (format_of setting s) b ((joined setting s).state.codes b) }
{}
