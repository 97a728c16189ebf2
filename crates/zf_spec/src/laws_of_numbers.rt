//! Laws of numbers, digits and bits.

ghost use Rattle.std.specs.Prelude.{◌≡◌, ℕ, ◌+◌, ◌%◌, ◌/◌, ◌^◌, ◌<◌, ℤ, pos, ◌+ℤ◌, ◌*ℤ◌, ◌≤ℤ◌, ◌<ℤ◌, Bool, List, ◌++◌, length, FitsSigned};
ghost use Rattle.std.specs.Int.{Width};
ghost use mir.Val.{bits};
ghost use Rattle.zf_spec.specs.Numbers.{wrap, IsSameModulo, floor_half, digits_sum, digits, value_of, field, number};

/// A wrapped number is the only value of the type that differs from the number by a multiple of 2^w.
pub fn wrapped_numbers()
    ensures fits { (w : Width) (n : ℤ) → FitsSigned w (wrap w n) }
    ensures same { (w : Width) (n : ℤ) → IsSameModulo (bits w) (wrap w n) n }
    ensures value { (w : Width) (v : ℤ) → FitsSigned w v → wrap w v ≡ v }
    ensures only { (w : Width) (n v : ℤ) → FitsSigned w v → IsSameModulo (bits w) v n → v ≡ wrap w n }
{}

/// The half of a number is the only whole number that is at most its half and more than that less one.
pub fn halves()
    ensures at_most { (v : ℤ) → (pos 2 *ℤ floor_half v) ≤ℤ v }
    ensures above { (v : ℤ) → v <ℤ (pos 2 *ℤ (floor_half v +ℤ pos 1)) }
    ensures only { (v h : ℤ) → (pos 2 *ℤ h) ≤ℤ v → v <ℤ (pos 2 *ℤ (h +ℤ pos 1)) → h ≡ floor_half v }
{}

/// The k lowest digits of a number are the only k digits whose sum is that number modulo 2^k.
pub fn negabinary_digits()
    ensures length { (k : ℕ) (v : ℤ) → length (digits k v) ≡ k }
    ensures sum { (k : ℕ) (v : ℤ) → IsSameModulo k (digits_sum (digits k v)) v }
    ensures only { (k : ℕ) (ds : List Bool) (v : ℤ) → length ds ≡ k → IsSameModulo k (digits_sum ds) v → ds
        ≡ digits k v }
{}

/// A value of the type and its digits determine one another.
pub fn values_and_digits()
    ensures value { (w : Width) (v : ℤ) → FitsSigned w v → value_of w (digits (bits w) v) ≡ v }
    ensures digits { (w : Width) (ds : List Bool) → length ds ≡ bits w → digits (bits w) (value_of w ds)
        ≡ ds }
    ensures fits { (w : Width) (ds : List Bool) → FitsSigned w (value_of w ds) }
{}

/// The n lowest bits of a number are its number modulo 2^n, the only n bits of that number, and a shorter
/// field begins a longer one.
pub fn fields()
    ensures length { (n v : ℕ) → length (field n v) ≡ n }
    ensures number { (n v : ℕ) → number (field n v) ≡ v % 2 ^ n }
    ensures only { (n : ℕ) (bits : List Bool) → length bits ≡ n → field n (number bits) ≡ bits }
    ensures parts { (m n v : ℕ) → field (m + n) v ≡ field m v ++ field n (v / 2 ^ m) }
{}
