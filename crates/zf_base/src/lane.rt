//! The types of values, `i32` and `i64`, as whole numbers with wrapping arithmetic.

ghost use Rattle.std.specs.Prelude.{◌≡◌, ℕ, ◌+◌, ◌-◌, ◌^◌, ◌<◌, ◌↔◌, ◌⊎◌, ℤ, pos, neg_ℤ, ◌+ℤ◌, ◌-ℤ◌, ◌*ℤ◌, ◌≤ℤ◌, ◌<ℤ◌, true, IsSome, IfSome, FitsSigned, refl};
ghost use Rattle.std.specs.Int.{Width, w32, w64, cast_unsigned};
ghost use Rattle.std.proofs.Common.{inl, inr};
ghost use Rattle.std.proofs.lemmas.Bool.Decides.{Decides-int_eq};
ghost use mir.Val.{bits};
ghost use Rattle.zf_spec.specs.Numbers.{wrap, floor_half};
ghost use Rattle.zf_base.specs.declared.lane.Ty.{Ty};
ghost use Rattle.zf_base.specs.Widths.{width_of, IsSigned};
ghost use Rattle.zf_base.specs.Lemmas.{FitsSigned-bounds};

/// The type of the values of an array.
#[derive(Clone, Copy, Debug, PartialEq, Eq)]
pub enum Ty {
    I32,
    I64,
}

/// A type of values: `i32` or `i64`, seen as the whole number that it holds.
///
/// Sums, differences and doublings wrap, which is this project's own choice: zfp leaves them to C, where an
/// overflow is undefined. Each call that takes a value tells that its number is one of the type's.
pub trait Lane: Copy + Eq {
    /// How many bits the type has: 32 or 64.
    const WIDTH: u32;

    /// Which of the two types it is.
    const TY: Ty;

    ghost width: { Width };

    ghost WIDTH: { ℕ };

    ghost TY: { Ty };

    // The whole number that a value is.
    ghost value: { Self → ℤ };

    // Which whole numbers are values of the type.
    ghost in_range: { ℤ → Type 0 };

    /// Zero.
    fn zero() -> Self
        ensures value { value result ≡ pos 0 }
        ensures in_type { in_range (value result) };

    /// The wrapped sum.
    fn add(self, other: Self) -> Self
        ensures value { value result ≡ wrap width (value self +ℤ value other) }
        ensures in_type { in_range (value result) }
        ensures operands { in_range (value self) × in_range (value other) };

    /// The wrapped difference.
    fn sub(self, other: Self) -> Self
        ensures value { value result ≡ wrap width (value self -ℤ value other) }
        ensures in_type { in_range (value result) }
        ensures operands { in_range (value self) × in_range (value other) };

    /// Twice the value, wrapped.
    fn double(self) -> Self
        ensures value { value result ≡ wrap width (pos 2 *ℤ value self) }
        ensures in_type { in_range (value result) }
        ensures operand { in_range (value self) };

    /// Half of the value, rounded down.
    fn halve(self) -> Self
        ensures value { value result ≡ floor_half (value self) }
        ensures in_type { in_range (value result) }
        ensures operand { in_range (value self) };

    /// The value modulo 2^WIDTH, its two's complement.
    fn to_word(self) -> u64
        ensures value { result ≡ cast_unsigned width (value self) }
        ensures bound { result < 2 ^ WIDTH }
        ensures operand { in_range (value self) };

    /// The number of the type that differs from `v` by a multiple of 2^WIDTH.
    fn from_word(v: u64) -> Self
        ensures value { value result ≡ wrap width (pos v) }
        ensures in_type { in_range (value result) };

    /// The value itself.
    fn to_wide(self) -> i128
        ensures value { result ≡ value self }
        ensures operand { in_range (value self) };

    /// The number `v`. `None`: it is no value of the type.
    fn from_wide(v: i128) -> Option<Self>
        ensures taken { IsSome result ↔ in_range v }
        ensures value { IfSome result (λ a. value a ≡ v) }
        ensures in_type { IfSome result (λ a. in_range (value a)) };

    // Laws. There are two widths, which the constants say too.
    ghost two_widths: { (width ≡ w32) ⊎ (width ≡ w64) };

    ghost bits_of_width: { WIDTH ≡ bits width };

    ghost width_of_type: { width ≡ width_of TY };

    // A value is its number, and `==` compares the numbers.
    ghost same_value: { (a b : Self) → value a ≡ value b → a ≡ b };

    ghost equal_values: { (a b : Self) → (Self.eq a b ≡ true) ↔ (value a ≡ value b) };

    // The numbers of the type are those of its width, from -2^(WIDTH - 1) to 2^(WIDTH - 1) - 1.
    ghost in_range_fits: { (n : ℤ) → in_range n ↔ FitsSigned width n };

    ghost in_range_bounds: { (n : ℤ) → in_range n ↔ IsSigned WIDTH n };
}

#[tactic(auto, using(std::proofs::lemmas::Int::wraps))]
impl Lane for i32 {
    const WIDTH: u32 = 32;

    const TY: Ty = Ty::I32;

    ghost width = { w32 };

    ghost WIDTH = { 32 };

    ghost TY = { Ty.I32 };

    ghost value = { λ n. n };

    ghost in_range = { FitsSigned w32 };

    ghost two_widths = { inl refl };

    ghost bits_of_width = { refl };

    ghost width_of_type = { refl };

    ghost same_value = { λ a b h. h };

    ghost equal_values = { Decides-int_eq };

    ghost in_range_fits = { λ n. (λ h. h, λ h. h) };

    ghost in_range_bounds = { FitsSigned-bounds w32 };

    fn zero() -> i32 {
        0
    }

    fn add(self, other: i32) -> i32 {
        self.wrapping_add(other)
    }

    fn sub(self, other: i32) -> i32 {
        self.wrapping_sub(other)
    }

    fn double(self) -> i32 {
        self.wrapping_add(self)
    }

    fn halve(self) -> i32 {
        self >> 1
    }

    fn to_word(self) -> u64 {
        u64::from(self.cast_unsigned())
    }

    #[tactic(auto, using(crate::proofs::Wrapping::cast_signed_low))]
    fn from_word(v: u64) -> i32 {
        ((v % (1 << 32)) as u32).cast_signed()
    }

    fn to_wide(self) -> i128 {
        i128::from(self)
    }

    fn from_wide(v: i128) -> Option<i32> {
        i32::try_from(v).ok()
    }
}

#[tactic(auto, using(std::proofs::lemmas::Int::wraps))]
impl Lane for i64 {
    const WIDTH: u32 = 64;

    const TY: Ty = Ty::I64;

    ghost width = { w64 };

    ghost WIDTH = { 64 };

    ghost TY = { Ty.I64 };

    ghost value = { λ n. n };

    ghost in_range = { FitsSigned w64 };

    ghost two_widths = { inr refl };

    ghost bits_of_width = { refl };

    ghost width_of_type = { refl };

    ghost same_value = { λ a b h. h };

    ghost equal_values = { Decides-int_eq };

    ghost in_range_fits = { λ n. (λ h. h, λ h. h) };

    ghost in_range_bounds = { FitsSigned-bounds w64 };

    fn zero() -> i64 {
        0
    }

    fn add(self, other: i64) -> i64 {
        self.wrapping_add(other)
    }

    fn sub(self, other: i64) -> i64 {
        self.wrapping_sub(other)
    }

    fn double(self) -> i64 {
        self.wrapping_add(self)
    }

    fn halve(self) -> i64 {
        self >> 1
    }

    fn to_word(self) -> u64 {
        self.cast_unsigned()
    }

    #[tactic(auto, using(crate::proofs::Wrapping::cast_signed_low))]
    fn from_word(v: u64) -> i64 {
        v.cast_signed()
    }

    fn to_wide(self) -> i128 {
        i128::from(self)
    }

    fn from_wide(v: i128) -> Option<i64> {
        i64::try_from(v).ok()
    }
}
