//! The transform of a block: a pass along each axis.

ghost use Rattle.std.specs.Prelude.{◌≡◌, ℕ, ◌-◌, ◌^◌, IsTrue, pos, ◌∷◌, map, replicate};
ghost use Rattle.zf_spec.specs.Grid.{IsDimension};
ghost use Rattle.zf_spec.specs.Numbers.{AreValues};
ghost use Rattle.zf_spec.specs.Lorenzo.{lorenzo, unlorenzo};
ghost use Rattle.zf_base.specs.WholeBlocks.{IsBlockOf};

use crate::line::{Differences, Sums};
use zf_axes::{fill, passes};
use zf_base::Lane;

/// Makes the coefficients of a block: the block becomes its signed binomial sums, wrapped.
///
/// `block` has `4^d` values, x fastest, each of which has been given a value (a partial block is padded
/// first); d is 1 to 4. The reversible transform of the zfp 1.0 documentation, chapter Algorithm.
pub fn forward<T: Lane>(d: u8, block: &mut [T])
    requires block { IsBlockOf d block.old }
    ensures sums { map T.value block.new ≡ lorenzo T.width d (map T.value block.old) }
    ensures undone { AreValues T.width (map T.value block.old)
        → unlorenzo T.width d (map T.value block.new) ≡ map T.value block.old }
{
    passes(&Differences, d, block);
}

/// Undoes [`forward`]: the coefficients become the block again. `block` has `4^d` values, x fastest; d is 1
/// to 4.
#[inline(always)]
pub fn inverse<T: Lane>(d: u8, block: &mut [T])
    requires block { IsBlockOf d block.old }
    ensures { map T.value block.new ≡ unlorenzo T.width d (map T.value block.old) }
{
    // Passes of binomial sums may come in any order of axes, so this way too begins with x.
    passes(&Sums, d, block);
}

/// Whether the coefficients of a block of this value everywhere are the value and then zeros. They always
/// are.
#[inline(always)]
pub fn keeps_first<T: Lane>(value: T) -> bool
    ensures always { IsTrue result }
    ensures coefficients { (d : ℕ) → IsDimension d → lorenzo T.width d (replicate (4 ^ d) (T.value value))
        ≡ T.value value ∷ replicate (4 ^ d - 1) (pos 0) }
{
    // Known by this call: the number is one of the type's.
    let _word = value.to_word();
    true
}

/// The inverse of coefficients of which all but the first are zero: each value is the first coefficient.
#[inline(always)]
pub fn inverse_of_first<T: Lane>(d: u8, first: T, block: &mut [T])
    requires block { IsBlockOf d block.old }
    ensures { map T.value block.new ≡ unlorenzo T.width d (T.value first ∷ replicate (4 ^ d - 1) (pos 0)) }
{
    fill(first, block);
}
