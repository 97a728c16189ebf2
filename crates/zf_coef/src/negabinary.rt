//! Whole numbers and their digits to the base -2.

ghost use Rattle.std.specs.Prelude.{◌≡◌, ◌^◌, ◌<◌};
ghost use mir.Val.{bits};
ghost use Rattle.zf_spec.specs.Numbers.{field, digits, value_of};

use zf_base::Lane;

/// The digits that stand for a negative power of two, which are the odd ones.
const NEGATIVE: u64 = 0xaaaa_aaaa_aaaa_aaaa;

/// The negabinary digits of a value, digit i as bit i (zfp 1.0 documentation, chapter Algorithm).
#[inline]
pub fn to_digits<T: Lane>(v: T) -> u64
    ensures digits { field (bits T.width) result ≡ digits (bits T.width) (T.value v) }
    ensures below { result < 2 ^ T.WIDTH }
    ensures undone { value_of T.width (field (bits T.width) result) ≡ T.value v }
{
    T::from_word(v.to_word().wrapping_add(NEGATIVE) ^ NEGATIVE).to_word()
}

/// The value that the lowest `WIDTH` bits of `u` stand for as negabinary digits.
#[inline]
pub fn from_digits<T: Lane>(u: u64) -> T
    ensures value { T.value result ≡ value_of T.width (field (bits T.width) u) }
    ensures in_type { T.in_range (T.value result) }
    ensures undone { digits (bits T.width) (T.value result) ≡ field (bits T.width) u }
{
    T::from_word((u ^ NEGATIVE).wrapping_sub(NEGATIVE))
}
