//! The digits of coefficients become bit planes.

ghost use Rattle.std.specs.Prelude.{◌≡◌, ℕ, ◌+◌, ◌-◌, ◌*◌, ◌/◌, ◌%◌, ◌^◌, ◌<◌, ◌≤◌, All, length, map};
ghost use Rattle.std.specs.Prelude.{slice_index_or, [], IsTrue};
ghost use Rattle.zf_spec.specs.Planes.{planes_of};
ghost use Rattle.zf_spec.specs.HeldPlanes.{planes_held, IsClearFrom};
ghost use Rattle.zf_coef.specs.HeldDigits.{digits_in};
ghost use Rattle.zf_coef.specs.Groups.{word_of, HasWord, HasWordBelow, IsHalfAt, IsGroup, PutsGroup};
ghost use Rattle.zf_coef.specs.Groups.{PutsHalf, PutsNone, KeepsOthers, HoldsFrom, HoldsFolded};
ghost use Rattle.zf_coef.specs.Turned.{bit_of};

use crate::needed::any_digits;
use crate::turning::{turn_16, turn_32, turn_folded};
use zf_bits::Plane;

/// How many ranks a word of a plane has.
pub(crate) const WORD_BITS: usize = 64;

/// Writes the digits of coefficients by rank as bit planes: plane `k` has digit `k` of each. Digits that have
/// no plane are left out. There are at most 256 coefficients and 64 planes.
///
/// The digit of rank r is bit `r % 64` of word `r / 64` of a plane; bits past the digits are 0.
pub fn to_planes(digits: &[u64], planes: &mut [[u64; 4]])
    requires digits { length digits.now ≤ 256 }
    requires planes { length planes.old ≤ 64 }
    ensures digits { let n = length planes.new in
        planes_held (length digits.now) planes.new ≡ planes_of n (digits_in n digits.now) }
    ensures clear { All (IsClearFrom (length digits.now)) planes.new }
{
    planes_of_digits(digits, planes);
    have_four_words(planes);
}

/// Says that each plane has four words, for proofs that know of planes as lists alone.
#[inline(always)]
pub(crate) fn have_four_words(planes: &[[u64; 4]])
    ensures { (k : ℕ) → k < length planes.now → length (slice_index_or planes.now k []) ≡ 4 }
{
    let _known = planes.len();
}

/// Writes planes of any number of words, so that blocks of up to 64 coefficients have one word a plane.
#[inline(always)]
pub fn planes_of_digits<P: Plane>(digits: &[u64], planes: &mut [P])
    requires digits { length digits.now ≤ 64 * P.word_count }
    requires planes { length planes.old ≤ 64 }
    ensures digits { let n = length planes.new in
        planes_held (length digits.now) (map P.words planes.new) ≡ planes_of n (digits_in n digits.now) }
    ensures clear { All (IsClearFrom (length digits.now)) (map P.words planes.new) }
{
    let mut rest = digits;
    for number in 0..P::word_count() {
        let (group, behind) = rest.split_at(rest.len().min(WORD_BITS));
        put_group(group, number, planes);
        rest = behind;
    }
}

/// The words of this number of all planes, from the digits of their ranks.
#[tactic(auto, using(crate::proofs::Halves::of_planes))]
#[inline(always)]
fn put_group<P: Plane>(digits: &[u64], number: usize, planes: &mut [P])
    requires word { HasWord number P.word_count planes.old }
    requires digits { length digits.now ≤ 64 }
    ensures { PutsGroup number digits.now (map P.words planes.old) (map P.words planes.new) }
{
    match digits.len() {
        0 => put_none(0, number, planes),
        16 => put_16(digits, number, planes),
        64 => put_64(digits, number, planes),
        _ => put_64(&padded(digits), number, planes),
    }
}

/// The words of the planes from `from` on where no digit has a one there, which are zero.
#[inline(always)]
fn put_none<P: Plane>(from: usize, number: usize, planes: &mut [P])
    requires word { HasWord number P.word_count planes.old }
    requires from { from ≤ length planes.old }
    ensures { PutsNone number from (map P.words planes.old) (map P.words planes.new) }
{
    put_words(&[0; WORD_BITS], planes.len() - from, from, number, planes);
}

/// 64 digits, of which those past the given ones are zero.
#[tactic(auto, using(crate::proofs::Prefixes::filling, crate::proofs::Halves::no_word))]
fn padded(digits: &[u64]) -> [u64; WORD_BITS]
    requires { length digits.now ≤ 64 }
    ensures { (r : ℕ) → slice_index_or result r 0 ≡ slice_index_or digits.now r 0 }
{
    let mut whole = [0; WORD_BITS];
    for r in 0..digits.len() {
        whole[r] = digits[r];
    }
    whole
}

/// Puts sixteen digits.
#[inline(never)]
fn put_16<P: Plane>(digits: &[u64], number: usize, planes: &mut [P])
    requires word { HasWord number P.word_count planes.old }
    requires digits { length digits.now ≡ 16 }
    ensures { PutsGroup number digits.now (map P.words planes.old) (map P.words planes.new) }
{
    // A number of planes that is known needs no loop.
    match planes.len() {
        16 => put_halves(16, digits, number, planes),
        32 => put_halves(16, digits, number, planes),
        64 => put_halves(16, digits, number, planes),
        _ => put_halves(16, digits, number, planes),
    }
}

/// Puts 64 digits. With at most sixteen planes four of them fit in a word, and there are fewer rows to turn.
#[inline(never)]
fn put_64<P: Plane>(digits: &[u64], number: usize, planes: &mut [P])
    requires word { HasWord number P.word_count planes.old }
    requires digits { length digits.now ≡ 64 }
    ensures { PutsGroup number digits.now (map P.words planes.old) (map P.words planes.new) }
{
    if planes.len() <= 16 {
        put_few_of_64(digits, number, planes);
    } else {
        put_halves(64, digits, number, planes);
    }
}

/// Puts so many digits, 32 planes at a time.
#[tactic(auto, using(crate::proofs::Halves::of_planes))]
#[inline(always)]
fn put_halves<P: Plane>(size: usize, digits: &[u64], number: usize, planes: &mut [P])
    requires word { HasWord number P.word_count planes.old }
    requires digits { IsGroup size digits.now }
    ensures { PutsGroup number digits.now (map P.words planes.old) (map P.words planes.new) }
{
    put_half(size, digits, 0, number, planes);
    if planes.len() > 32 {
        // The later groups of a block, which have the high frequencies, are mostly small; then there is nothing
        // more to turn.
        if number > 0 && are_low(digits) {
            put_none(32, number, planes);
        } else {
            put_half(size, digits, 32, number, planes);
        }
    }
}

/// Whether no digit has a one from place 32 on. Where one has, mostly the first does, as the ranks begin with
/// the lowest frequencies.
#[inline(always)]
fn are_low(digits: &[u64]) -> bool
    requires some { 0 < length digits.now }
    ensures { IsTrue result → (r k : ℕ) → 32 ≤ k → k < 64 → bit_of digits.now r k ≡ 0 }
{
    digits[0] >> 32 == 0 && any_digits(digits) >> 32 == 0
}

/// The 32 planes from `from` on.
#[inline(always)]
fn put_half<P: Plane>(size: usize, digits: &[u64], from: usize, number: usize, planes: &mut [P])
    requires digits { IsGroup size digits.now }
    requires half { IsHalfAt number P.word_count from planes.old }
    ensures { PutsHalf number from digits.now (map P.words planes.old) (map P.words planes.new) }
{
    if size == 16 {
        put_half_of_16(digits, from, number, planes);
    } else {
        put_half_of_64(digits, from, number, planes);
    }
}

/// The 32 planes from `from` on of sixteen digits.
#[tactic(auto, using(crate::proofs::Folded::planes_of_folded))]
#[inline(always)]
fn put_half_of_16<P: Plane>(digits: &[u64], from: usize, number: usize, planes: &mut [P])
    requires digits { length digits.now ≡ 16 }
    requires half { IsHalfAt number P.word_count from planes.old }
    ensures { PutsHalf number from digits.now (map P.words planes.old) (map P.words planes.new) }
{
    let mut words = fold(digits, from);
    turn_folded(&mut words);
    put_folded(&words, from, number, planes);
}

/// The planes from `from` on of turned rows that lie folded, eight at a time.
#[tactic(auto, using(crate::proofs::Folded::of_folded))]
#[inline(always)]
fn put_folded<P: Plane>(words: &[u64; 8], from: usize, number: usize, planes: &mut [P])
    requires half { IsHalfAt number P.word_count from planes.old }
    ensures bits { HoldsFolded number from 32 words.now (map P.words planes.new) }
    ensures below { (k : ℕ) → k < from → word_of (map P.words planes.new) number k
        ≡ word_of (map P.words planes.old) number k }
    ensures others { KeepsOthers number (map P.words planes.old) (map P.words planes.new) }
{
    for eight in 0..4 {
        let first = from + 8 * eight;
        if first < planes.len() {
            put_from(
                &sixteen_bits(words, place_of_eight(eight)),
                first,
                number,
                planes,
            );
        }
    }
}

/// Where the rows of eight planes begin in folded words: planes 0 to 7 and 16 to 23 are in the lower halves,
/// side by side, and the others above them.
#[inline(always)]
pub(crate) fn place_of_eight(eight: usize) -> usize
    requires { eight < 4 }
    ensures value { result ≡ eight % 2 * 32 + eight / 2 * 16 }
    ensures bound { result ≤ 48 }
{
    eight % 2 * 32 + eight / 2 * 16
}

/// Sixteen bits of each word, those from `place` on.
#[inline(always)]
fn sixteen_bits(words: &[u64; 8], place: usize) -> [u64; 8]
    requires place { place < 64 }
    ensures cut { (j : ℕ) → j < 8 → slice_index_or result j 0
        ≡ slice_index_or words.now j 0 / 2 ^ place % 2 ^ 16 }
    ensures long { length result ≡ 8 }
{
    let mut cut = [0; 8];
    for j in 0..8 {
        cut[j] = (words[j] >> place) & 0xffff;
    }
    cut
}

/// Puts words into the planes from `from` on, as far as there are any.
#[inline(always)]
fn put_from<P: Plane, const N: usize>(
    words: &[u64; N],
    from: usize,
    number: usize,
    planes: &mut [P],
)
    requires planes { HasWordBelow number P.word_count from planes.old }
    ensures words { HoldsFrom N number from words.now (map P.words planes.old) (map P.words planes.new) }
    ensures others { KeepsOthers number (map P.words planes.old) (map P.words planes.new) }
{
    let count = planes.len() - from;
    if count < N {
        put_words(words, count, from, number, planes);
    } else {
        put_words(words, N, from, number, planes);
    }
}

/// Puts so many words into the planes from `from` on.
#[tactic(auto, using(crate::proofs::Putting::putting))]
#[inline(always)]
fn put_words<P: Plane>(words: &[u64], count: usize, from: usize, number: usize, planes: &mut [P])
    requires words { count ≤ length words.now }
    requires planes { HasWordBelow number P.word_count (from + count) planes.old }
    ensures words { HoldsFrom count number from words.now (map P.words planes.old) (map P.words planes.new) }
    ensures others { KeepsOthers number (map P.words planes.old) (map P.words planes.new) }
{
    for j in 0..count {
        planes[from + j].set_word(number, words[j]);
    }
}

/// The 32 planes from `from` on of 64 digits.
#[tactic(auto, using(crate::proofs::Halves::of_planes))]
#[inline(always)]
fn put_half_of_64<P: Plane>(digits: &[u64], from: usize, number: usize, planes: &mut [P])
    requires digits { length digits.now ≡ 64 }
    requires half { IsHalfAt number P.word_count from planes.old }
    ensures { PutsHalf number from digits.now (map P.words planes.old) (map P.words planes.new) }
{
    let mut words = fold(digits, from);
    turn_32(&mut words);
    put_from(&words, from, number, planes);
}

/// 32 digits of each of `2 N` coefficients, from this one on: word r has those of rank r, and then those of
/// the rank `N` above it.
#[inline(always)]
fn fold<const N: usize>(digits: &[u64], from: usize) -> [u64; N]
    requires few { N ≤ 32 }
    requires digits { length digits.now ≡ 2 * N }
    requires from { from ≤ 32 }
    ensures { (r i : ℕ) → r < N → i < 64 → bit_of result r i
        ≡ bit_of digits.now (i / 32 * N + r) (from + i % 32) }
{
    let mut words = [0; N];
    for r in 0..N {
        words[r] = ((digits[r] >> from) & 0xffff_ffff) | (digits[r + N] >> from) << 32;
    }
    words
}

/// All planes of 64 digits, where there are at most sixteen.
#[tactic(auto, using(crate::proofs::Halves::of_planes))]
#[inline(always)]
fn put_few_of_64<P: Plane>(digits: &[u64], number: usize, planes: &mut [P])
    requires number { number < P.word_count }
    requires digits { length digits.now ≡ 64 }
    requires few { length planes.old ≤ 16 }
    ensures { PutsGroup number digits.now (map P.words planes.old) (map P.words planes.new) }
{
    let mut words = fold_four(digits);
    turn_16(&mut words);
    put_from(&words, 0, number, planes);
}

/// The sixteen lowest digits of each of 64 coefficients: word r has those of rank r, and then those of the
/// ranks 16, 32 and 48 above it.
#[inline(always)]
fn fold_four(digits: &[u64]) -> [u64; 16]
    requires { length digits.now ≡ 64 }
    ensures { (r i : ℕ) → r < 16 → i < 64 → bit_of result r i ≡ bit_of digits.now (i / 16 * 16 + r) (i % 16) }
{
    let mut words = [0; 16];
    for r in 0..16 {
        let low = (digits[r] & 0xffff) | digits[r + 16] << 16;
        let high = (digits[r + 32] & 0xffff) | digits[r + 48] << 16;
        words[r] = (low & 0xffff_ffff) | high << 32;
    }
    words
}
