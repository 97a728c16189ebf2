//! Where the ones of a plane in words are.

ghost use Rattle.std.specs.Prelude.{◌≡◌, ◌+◌, ◌*◌, ◌^◌, ◌<◌, ◌≤◌, IsTrue, true, false, ◌∷◌, ◌++◌, count_by, length, map, drop, replicate};
ghost use Rattle.zf_spec.specs.{Numbers.{field}, Planes.{reach, has_one}, HeldPlanes.{digits_held}};
ghost use Rattle.zf_planes.specs.Sizes.{IsWordSize};

use zf_bits::Plane;

/// The digits of a plane that lies in one word, as a number.
#[inline]
#[tactic(auto, using(crate::proofs::Gathering::first_digits))]
pub(crate) fn first_word<P: Plane>(plane: &P, size: usize) -> u64
    requires size { IsWordSize size }
    ensures digits { field size result ≡ digits_held size (P.words plane.now) }
    ensures small { result < 2 ^ size }
{
    plane.word(0) & u64::MAX >> (64 - size)
}

/// How many zeros follow from rank `n` on before the next one.
#[inline]
#[tactic(auto, using(crate::proofs::Digits::zeros_of_word))]
pub(crate) fn zeros_from<P: Plane>(plane: &P, n: usize, size: usize) -> usize
    requires words { size ≤ 64 * P.word_count }
    requires one { IsTrue (has_one (drop n (digits_held size (P.words plane.now)))) }
    ensures bound { n + result < size }
    ensures split { drop n (digits_held size (P.words plane.now))
        ≡ replicate result false ++ true ∷ drop (result + 1) (drop n (digits_held size (P.words plane.now))) }
{
    let mut at = n;
    while at < size {
        let word = plane.word(at / 64) >> (at % 64);
        if word != 0 {
            return at - n + word.trailing_zeros() as usize;
        }
        at += 64 - at % 64;
    }
    unreachable!()
}

/// One more than the greatest rank that has a one, or 0.
#[inline]
#[tactic(auto, using(crate::proofs::Digits::from_the_end))]
pub(crate) fn reach_in<P: Plane>(plane: &P, size: usize) -> usize
    requires words { size ≤ 64 * P.word_count }
    ensures value { result ≡ reach (digits_held size (P.words plane.now)) }
    ensures bound { result ≤ size }
{
    let mut end = size;
    while end > 0 {
        let last = end - 1;
        // The digits from the last one on that lie in its word, the last one highest.
        let word = plane.word(last / 64) << (63 - last % 64);
        if word != 0 {
            return end - word.leading_zeros() as usize;
        }
        end = last - last % 64;
    }
    0
}

/// How many of the ranks from `n` on have a one.
#[inline]
#[tactic(auto, using(crate::proofs::Lengths::plane_lengths))]
pub(crate) fn ones_from<P: Plane>(plane: &P, n: usize, size: usize) -> usize
    requires words { size ≤ 64 * P.word_count }
    requires in_plane { n ≤ size }
    ensures { result ≡ count_by (λ digit. digit) (drop n (digits_held size (P.words plane.now))) }
{
    let mut ones = 0;
    let mut at = n;
    while at < size {
        // As many as one word has.
        let count = (64 - at % 64).min(size - at);
        let digits = plane.word(at / 64) >> (at % 64) & u64::MAX >> (64 - count);
        ones += digits.count_ones() as usize;
        at += count;
    }
    ones
}

/// Makes all planes zero.
pub fn clear<P: Plane>(planes: &mut [P])
    ensures { map P.words planes.new ≡ replicate (length planes.old) (replicate P.word_count 0) }
{
    for plane in planes.iter_mut() {
        *plane = P::zero();
    }
}
