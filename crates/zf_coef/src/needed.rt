//! Which digits any coefficient has, and so which planes are needed.

ghost use Rattle.std.specs.Prelude.{◌≡◌, ℕ, ◌-◌, ◌/◌, ◌^◌, ◌<◌, ◌≤◌, true, false, length, take, replicate};
ghost use Rattle.zf_spec.specs.Numbers.{is_odd};
ghost use Rattle.zf_spec.specs.Planes as planes;
ghost use Rattle.zf_spec.specs.Planes.{plane, planes_of, has_one};
ghost use Rattle.zf_coef.specs.HeldDigits.{digits_in};

/// The digits that any of these coefficients has: digit k is one where plane k has a one.
#[inline]
pub fn any_digits(digits: &[u64]) -> u64
    ensures { (n k : ℕ) → k < n → is_odd (result / 2 ^ k) ≡ has_one (plane k (digits_in n digits.now)) }
{
    let mut any = 0;
    for digit in digits {
        any |= digit;
    }
    any
}

/// How many of the `width` planes of these digits are needed: those from the greatest down to the lowest that
/// has a one. `width` is at most 64.
#[inline]
pub fn needed_planes(digits: &[u64], width: u32) -> u32
    requires { width ≤ 64 }
    ensures { result ≡ planes.needed_planes (planes_of width (digits_in width digits.now)) }
{
    width.saturating_sub(any_digits(digits).trailing_zeros())
}

/// How many of the top `width` planes of these digits have no one, down to the first one that has; `width`,
/// which is 1 to 64, where none has.
#[tactic(auto, using(crate::proofs::AnyDigits::leading_zero_planes, crate::proofs::AnyDigits::next_has_one))]
#[inline]
pub fn zero_planes(digits: &[u64], width: u32) -> u32
    requires some { 0 < width }
    requires in_word { width ≤ 64 }
    ensures within { result ≤ width }
    ensures zeros { take result (planes_of width (digits_in width digits.now))
        ≡ replicate result (replicate (length digits.now) false) }
    ensures next { result < width → has_one (plane (width - 1 - result) (digits_in width digits.now)) ≡ true }
{
    (any_digits(digits) << (64 - width))
        .leading_zeros()
        .min(width)
}
