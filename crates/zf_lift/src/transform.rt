//! The transform of a block: a pass along each axis.

ghost use Rattle.std.specs.Prelude.{◌≡◌, ◌↔◌, ℕ, ◌-◌, ◌^◌, IsTrue, pos, ◌*ℤ◌, ◌∷◌, map, replicate};
ghost use Rattle.zf_spec.specs.Lift.{lift, unlift};
ghost use Rattle.zf_base.specs.WholeBlocks.{IsBlockOf};

use crate::line::{Lift, LiftBeside, Unlift};
use zf_axes::{fill, passes, passes_back};
use zf_base::Lane;

/// Makes the coefficients of a block: halved sums and differences along x, then along y, z and w.
///
/// `block` has `4^d` values, x fastest, each of which has been given a value (a partial block is padded
/// first); d is 1 to 4. Halves are rounded down and sums wrap, so [`inverse`] does not undo this. The
/// decorrelating transform of the zfp 1.0 documentation, chapter Algorithm.
#[inline(always)]
pub fn forward<T: Lane>(d: u8, block: &mut [T])
    requires block { IsBlockOf d block.old }
    ensures { map T.value block.new ≡ lift T.width d (map T.value block.old) }
{
    // The words of a lone line are not worth their making.
    if d == 1 {
        passes(&Lift, d, block);
    } else {
        passes(&LiftBeside, d, block);
    }
}

/// Makes values of the coefficients of a block: the steps of [`forward`] turned round, along the last axis
/// first. `block` has `4^d` values, x fastest; d is 1 to 4.
#[inline(always)]
pub fn inverse<T: Lane>(d: u8, block: &mut [T])
    requires block { IsBlockOf d block.old }
    ensures { map T.value block.new ≡ unlift T.width d (map T.value block.old) }
{
    passes_back(&Unlift, d, block);
}

/// Whether the coefficients of a block of this value everywhere are the value and then zeros: where twice the
/// value is no overflow.
#[inline(always)]
pub fn keeps_first<T: Lane>(value: T) -> bool
    ensures exactly { IsTrue result ↔ T.in_range (pos 2 *ℤ T.value value) }
    ensures coefficients { IsTrue result → (d : ℕ) → lift T.width d (replicate (4 ^ d) (T.value value))
        ≡ T.value value ∷ replicate (4 ^ d - 1) (pos 0) }
{
    value.add(value).halve() == value
}

/// The inverse of coefficients of which all but the first are zero: each value is the first coefficient.
#[inline(always)]
pub fn inverse_of_first<T: Lane>(d: u8, first: T, block: &mut [T])
    requires block { IsBlockOf d block.old }
    ensures { map T.value block.new ≡ unlift T.width d (T.value first ∷ replicate (4 ^ d - 1) (pos 0)) }
{
    fill(first, block);
}
