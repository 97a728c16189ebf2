//! The digits and bit planes of the coefficients of a block.

ghost use Rattle.std.specs.Prelude.{◌≡◌, ◌≤◌, ◌-◌, ◌*◌, ◌^◌, pos, ◌∷◌, ◌%◌, IsTrue, map, length};
ghost use Rattle.std.specs.Prelude.{replicate};
ghost use Rattle.zf_spec.specs.Grid.{IsDimension};
ghost use Rattle.zf_spec.specs.Codes as codes;
ghost use Rattle.zf_spec.specs.Codes.{coefficients_of};
ghost use Rattle.zf_spec.specs.HeldPlanes.{planes_held};
ghost use Rattle.zf_spec.specs.Planes.{planes_of};
ghost use Rattle.zf_coef.specs.HeldDigits.{digits_in};
ghost use Rattle.zf_base.specs.WholeBlocks.{IsBlockOf};
ghost use Rattle.zf_block.specs.Held.{IsWorkRoom, HoldPlanes};

use zf_base::Lane;
use zf_bits::Plane;
use zf_pad::is_row_of;

/// Whether all values, which are whole rows of four, are this one.
#[inline(always)]
pub(crate) fn is_all<T: Lane>(value: T, values: &[T]) -> bool
    requires rows { length values.now % 4 ≡ 0 }
    ensures { IsTrue result → map T.value values.now ≡ replicate (length values.now) (T.value value) }
{
    for row in 0..values.len() / 4 {
        if !is_row_of(value, values, 4 * row) {
            return false;
        }
    }
    true
}

/// Makes the planes of coefficients of which all but the first are zero.
#[inline(always)]
pub(crate) fn to_planes_of_first<T: Lane, P: Plane>(
    d: u8,
    first: T,
    digits: &mut [u64],
    planes: &mut [P],
)
    requires dimension { IsDimension d }
    requires room { IsWorkRoom (4 ^ d) P.word_count T.WIDTH digits.old planes.old }
    ensures { HoldPlanes (4 ^ d) T.WIDTH (map P.words planes.new) digits.new
        (codes.planes T.width d (T.value first ∷ replicate (4 ^ d - 1) (pos 0))) }
{
    zf_coef::planes_of_first(zf_coef::to_digits(first), digits, planes);
}

/// Makes the digits of coefficients, which are their planes too.
#[inline(always)]
pub(crate) fn to_digits<T: Lane>(d: u8, coefficients: &[T], digits: &mut [u64])
    requires coefficients { IsBlockOf d coefficients.now }
    requires digits { length digits.old ≡ 4 ^ d }
    ensures { planes_of T.WIDTH (digits_in T.WIDTH digits.new)
        ≡ codes.planes T.width d (map T.value coefficients.now) }
{
    zf_coef::ranked(d, coefficients, digits);
}

/// Makes the coefficients that have these digits.
#[inline(always)]
pub(crate) fn from_digits<T: Lane>(d: u8, digits: &[u64], coefficients: &mut [T])
    requires digits { length digits.now ≡ 4 ^ d }
    requires coefficients { IsBlockOf d coefficients.old }
    ensures { map T.value coefficients.new
        ≡ coefficients_of T.width d (planes_of T.WIDTH (digits_in T.WIDTH digits.now)) }
{
    zf_coef::unranked(d, digits, coefficients);
}

/// Makes the coefficients of which these are the planes, by way of their digits.
#[inline(always)]
pub(crate) fn from_planes<T: Lane, P: Plane>(
    d: u8,
    planes: &[P],
    digits: &mut [u64],
    coefficients: &mut [T],
)
    requires room { IsWorkRoom (4 ^ d) P.word_count T.WIDTH digits.old planes.now }
    requires coefficients { IsBlockOf d coefficients.old }
    ensures { map T.value coefficients.new
        ≡ coefficients_of T.width d (planes_held (4 ^ d) (map P.words planes.now)) }
{
    zf_coef::digits_of_planes(planes, digits);
    zf_coef::unranked(d, digits, coefficients);
}
