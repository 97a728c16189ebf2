//! The code of planes of which few are turned: those from the first that has a one down to the last that is
//! reached.

ghost use Rattle.std.specs.Prelude.{◌≡◌, ◌≤◌, ◌<◌, ◌+◌, ◌*◌, ◌/◌, ◌^◌, ℕ, IsTrue, false, min, length};
ghost use Rattle.std.specs.Prelude.{take, replicate, slice_index_or};
ghost use Rattle.zf_spec.specs.Planes.{planes_of};
ghost use Rattle.zf_coef.specs.HeldDigits.{digits_in};
ghost use Rattle.zf_bits.specs.Writer.{Appends};
ghost use Rattle.zf_block.specs.Held.{top_code};

use zf_base::Lane;
use zf_bits::{BitWriter, Plane};

/// Whether the code of the upper `count` planes has so many bits, as the digits of the last rank
/// tell: below their first one each plane takes a bit for each rank.
#[inline(always)]
pub(crate) fn reaches_upper<T: Lane>(bits: u64, count: u32, digits: &[u64]) -> bool
    requires some { 0 < length digits.now }
    requires few { length digits.now ≤ 256 }
    requires planes { (0 < count) × (count ≤ T.WIDTH) }
    ensures { IsTrue result → bits ≤ length (top_code count T.WIDTH digits.now) }
{
    let size = digits.len();
    let width = T::WIDTH;
    let above = (digits[size - 1] << (64 - width)).leading_zeros();
    above < count && bits <= size as u64 * u64::from(count - 1 - above)
}

/// Appends the code of the top `prec` planes, or its first `budget` bits where it is longer, by way of `count`
/// planes. The top `zeros` planes have no one; they are not turned where as many below are. Digits and planes
/// become anything.
#[inline(always)]
pub(crate) fn write_upper<T: Lane, P: Plane>(
    zeros: u32,
    budget: u64,
    prec: u32,
    count: u32,
    digits: &mut [u64],
    planes: &mut [P],
    out: &mut BitWriter,
)
    requires some { 0 < length digits.old }
    requires words { length digits.old ≤ 64 * P.word_count }
    requires upper { (0 < count) × (count ≤ T.WIDTH) }
    requires planes { count ≤ length planes.old }
    requires order { (zeros ≤ prec) × (prec ≤ T.WIDTH) }
    requires reach { prec ≤ zeros + count }
    requires zeros { take zeros (planes_of T.WIDTH (digits_in T.WIDTH digits.old))
        ≡ replicate zeros (replicate (length digits.old) false) }
    requires fits { min budget (length digits.old * prec + length digits.old) ≤ out.old.room }
    ensures { Appends out.old out.new (take budget (top_code prec T.WIDTH digits.old)) }
{
    let size = digits.len();
    let below = T::WIDTH - count;
    let above = zeros.min(below);
    keep_upper(below - above, digits);
    let turned = &mut planes[..count as usize];
    zf_coef::planes_of_digits(digits, turned);
    let passed = budget.min(u64::from(above));
    out.write_zeros_reserved(passed);
    zf_planes::write_planes_below(
        zeros - above,
        budget - passed,
        prec - above,
        size,
        turned,
        out,
    );
}

/// Drops the lowest `count` binary digits of each word.
#[inline(always)]
fn keep_upper(count: u32, digits: &mut [u64])
    requires { count < 64 }
    ensures { (r : ℕ) → r < length digits.new
        → slice_index_or digits.new r 0 ≡ slice_index_or digits.old r 0 / 2 ^ count }
{
    for r in 0..digits.len() {
        digits[r] >>= count;
    }
}
