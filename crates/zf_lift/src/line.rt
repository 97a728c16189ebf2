//! The transform of one line of four values, each way.
//!
//! The steps and their names are those of zfp: a sum that is halved, and a difference from the half.

ghost use Rattle.std.specs.Prelude.{◌≡◌, ℕ, [], ◌∷◌, pos};
ghost use Rattle.std.specs.Int.{w64};
ghost use Rattle.zf_spec.specs.Numbers.{wrap};
ghost use Rattle.zf_spec.specs.Lift.{lift_line, unlift_line};

use zf_axes::LineMap;
use zf_base::Lane;

/// The four values of a line become four coefficients.
pub(crate) struct Lift;

/// [`Lift`] for lines beside one another, which the compiler maps together in lanes. Lanes of 64 bits have no
/// shift that keeps the sign, so the halves are taken of words.
pub(crate) struct LiftBeside;

/// The four coefficients of a line become four values.
pub(crate) struct Unlift;

impl<T: Lane> LineMap<T> for Lift {
    ghost line = { λ _. lift_line T.width };

    #[inline(always)]
    fn apply(&self, x: T, y: T, z: T, w: T) -> (T, T, T, T) {
        let x = x.add(w).halve();
        let w = w.sub(x);
        let z = z.add(y).halve();
        let y = y.sub(z);
        let x = x.add(z).halve();
        let z = z.sub(x);
        let w = w.add(y).halve();
        let y = y.sub(w);
        let w = w.add(y.halve());
        let y = y.sub(w.halve());
        (x, y, z, w)
    }
}

impl<T: Lane> LineMap<T> for LiftBeside {
    ghost line = { λ _. lift_line T.width };

    #[inline(always)]
    fn apply(&self, x: T, y: T, z: T, w: T) -> (T, T, T, T) {
        if T::WIDTH != 64 {
            return Lift.apply(x, y, z, w);
        }
        let (x, y, z, w) = lift_words(x.to_word(), y.to_word(), z.to_word(), w.to_word());
        (
            T::from_word(x),
            T::from_word(y),
            T::from_word(z),
            T::from_word(w),
        )
    }
}

/// [`Lift`] on words, each of which stands for the number that it is modulo 2^64.
///
/// A sum that is to be halved carries 2^63, so that a shift halves it, rounded down, and leaves 2^62.
#[inline(always)]
fn lift_words(x: u64, y: u64, z: u64, w: u64) -> (u64, u64, u64, u64)
    ensures { let number = λ (word : ℕ). wrap w64 (pos word) in
        number result.0 ∷ number result.1 ∷ number result.2 ∷ number result.3 ∷ []
        ≡ lift_line w64 (number x) (number y) (number z) (number w) }
{
    let y = y.wrapping_add(1 << 63);
    let w = w.wrapping_add(1 << 63);
    let x = x.wrapping_add(w) >> 1;
    let w = w.wrapping_sub(x);
    let z = z.wrapping_add(y) >> 1;
    let y = y.wrapping_sub(z);
    let x = x.wrapping_add(z) >> 1;
    let z = z.wrapping_sub(x);
    let w = w.wrapping_add(y) >> 1;
    let y = y.wrapping_sub(w);
    let w = w.wrapping_add(y.wrapping_add(1 << 63) >> 1);
    let y = y.wrapping_sub(w >> 1);
    (
        x.wrapping_sub(1 << 62),
        y.wrapping_add(1 << 62),
        z,
        w.wrapping_sub(1 << 63),
    )
}

impl<T: Lane> LineMap<T> for Unlift {
    ghost line = { λ _. unlift_line T.width };

    #[inline(always)]
    fn apply(&self, x: T, y: T, z: T, w: T) -> (T, T, T, T) {
        let y = y.add(w.halve());
        let w = w.sub(y.halve());
        let y = y.add(w);
        let w = w.double().sub(y);
        let z = z.add(x);
        let x = x.double().sub(z);
        let y = y.add(z);
        let z = z.double().sub(y);
        let w = w.add(x);
        let x = x.double().sub(w);
        (x, y, z, w)
    }
}
