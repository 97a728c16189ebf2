//! Laws of touches of a two-way cache, over the definitions alone. A touch is that of a placing, `Skewed`: so
//! what `zf_cached` says of touches, of changes and of whole scripts holds of it.

ghost use Rattle.std.specs.Prelude.{◌≡◌, ℕ, ◌⊎◌, true, false, Some, if◌then◌else◌};
ghost use Rattle.std.specs.Int.{Width};
ghost use Rattle.zf_base.specs.Formats.{Format};
ghost use Rattle.zf_cached.specs.State.{State};
ghost use Rattle.zf_cached.specs.Touch.{hit, miss};
ghost use Rattle.zf_cached.specs.Fates.{IsLeft, IsRounded};
ghost use Rattle.zf_cached.specs.Consistency.{IsCached};
ghost use Rattle.zf_cached.specs.Uncached.{HasOwnLines};
ghost use Rattle.zf_twoway.specs.Placing.{first_line, second_line, two_lines};
ghost use Rattle.zf_twoway.specs.Touch.{is_clean_line, is_here, goes_to, touch};
ghost use Rattle.zf_twoway.specs.Runs.{twoway_setting};

use zf_cached::coded::Coded;

/// A touch of a block that is in one of its two lines is a hit; another block goes into one of them, by the
/// first case that holds. Runs of scripts have this touch.
pub fn touches_are_placed<C: Coded>()
    ensures touch { (format : Format C.Code) (s : State C.Code) (b : ℕ) → touch format s b
        ≡ (if is_here s b then hit s else miss format s (goes_to s b) b) }
    ensures setting { (w : Width) (budget : ℕ) → IsCached two_lines (twoway_setting w budget) }
{}

/// A block whose number is below the number of lines has the line of that number, as both of its lines are it. So
/// what `zf_cached` says of scripts over enough lines holds of a two-way cache.
pub fn own_lines()
    ensures { HasOwnLines two_lines }
{}

/// A touched block is here: where it was, only the hits rise, and touching it again is a hit.
pub fn touched_blocks<C: Coded>()
    ensures here { (format : Format C.Code) (s : State C.Code) (b : ℕ) → is_here (touch format s b) b ≡ true }
    ensures hit { (format : Format C.Code) (s : State C.Code) (b : ℕ) → is_here s b ≡ true → touch format s b
        ≡ hit s }
    ensures again { (format : Format C.Code) (s : State C.Code) (b : ℕ)
        → touch format (touch format s b) b ≡ hit (touch format s b) }
{}

/// What a touch of one block makes of another: a dirty one is written back where its line is taken, and no
/// block is where one of the two lines has no dirty block.
pub fn other_blocks<C: Coded>()
    ensures evicted { (format : Format C.Code) (s : State C.Code) (a b : ℕ)
        → is_here s a ≡ false → s.held (goes_to s a) ≡ Some b → s.dirty b ≡ true
        → IsRounded format s (touch format s a) b }
    ensures spared { (format : Format C.Code) (s : State C.Code) (a b : ℕ)
        → (is_clean_line s (first_line s.lines a) ≡ true) ⊎ (is_clean_line s (second_line s.lines a) ≡ true)
        → IsLeft s (touch format s a) b }
{}
