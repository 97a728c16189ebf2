//! A bit plane in words: a digit for each rank.

ghost use Rattle.std.specs.Prelude.{◌≡◌, ℕ, ◌<◌, ◌≤◌, List, [], ◌∷◌, length, replicate, slice_index_or, slice_set, refl};
ghost use Rattle.std.proofs.Common.{lit≤, lit<};

/// A plane in words: rank r is bit `r % 64` of word `r / 64`.
///
/// One word holds the planes of up to 64 coefficients, four words those of up to 256.
pub trait Plane: Copy {
    // The words that a plane is.
    ghost words: { Self → List ℕ };

    // How many words a plane has.
    ghost word_count: { ℕ };

    /// How many words a plane has.
    fn word_count() -> usize
        ensures { result ≡ word_count };

    /// The plane of which each digit is zero.
    fn zero() -> Self
        ensures { words result ≡ replicate word_count 0 };

    /// The word of this number.
    fn word(&self, number: usize) -> u64
        requires { number < word_count }
        ensures { result ≡ slice_index_or (words self.now) number 0 };

    /// Puts another word in the place of the one of this number.
    fn set_word(&mut self, number: usize, word: u64)
        requires { number < word_count }
        ensures { words self.new ≡ slice_set (words self.old) number word };

    ghost long: { (plane : Self) → length (words plane) ≡ word_count };

    ghost some: { 0 < word_count };

    ghost few: { word_count ≤ 4 };
}

impl Plane for u64 {
    ghost words = { λ plane. plane ∷ [] };

    ghost word_count = { 1 };

    ghost long = { λ plane. refl };

    ghost some = { lit< tt };

    ghost few = { lit≤ tt };

    #[inline]
    fn word_count() -> usize {
        1
    }

    #[inline]
    fn zero() -> Self {
        0
    }

    #[inline]
    fn word(&self, _number: usize) -> u64 {
        *self
    }

    #[inline]
    fn set_word(&mut self, _number: usize, word: u64) {
        *self = word;
    }
}

impl Plane for [u64; 4] {
    ghost words = { λ plane. slice_index_or plane 0 0 ∷ slice_index_or plane 1 0 ∷ slice_index_or plane 2 0
        ∷ slice_index_or plane 3 0 ∷ [] };

    ghost word_count = { 4 };

    ghost long = { λ plane. refl };

    ghost some = { lit< tt };

    ghost few = { lit≤ tt };

    #[inline]
    fn word_count() -> usize {
        4
    }

    #[inline]
    fn zero() -> Self {
        [0; 4]
    }

    #[inline]
    fn word(&self, number: usize) -> u64 {
        self[number]
    }

    #[inline]
    fn set_word(&mut self, number: usize, word: u64) {
        self[number] = word;
    }
}
