//! Bit planes become the digits of coefficients.

ghost use Rattle.std.specs.Prelude.{◌≡◌, ℕ, ◌+◌, ◌-◌, ◌*◌, ◌%◌, ◌^◌, ◌<◌, ◌≤◌, All, IsTrue, length, map};
ghost use Rattle.std.specs.Prelude.{slice_index_or};
ghost use Rattle.std.specs.Int.RustNames.{bit_or};
ghost use Rattle.zf_spec.specs.Planes.{digits_in_planes};
ghost use Rattle.zf_spec.specs.HeldPlanes.{planes_held};
ghost use Rattle.zf_coef.specs.HeldDigits.{digits_in};
ghost use Rattle.zf_coef.specs.Groups.{word_of, HasWord, HasWordOfAll, HasWordBelow, IsHalfAt, IsOfGroup};
ghost use Rattle.zf_coef.specs.Groups.{AreHalf, IsFoldOf, AreUnfolded, AreMoved};

use crate::planes::{WORD_BITS, have_four_words, place_of_eight};
use crate::turning::{turn_16_of_32, turn_32, turn_folded};
use zf_bits::Plane;

/// The way back: writes the digits of as many coefficients as `digits` has words, at most 256, of at most 64
/// planes. Bits of later ranks are not looked at.
pub fn from_planes(planes: &[[u64; 4]], digits: &mut [u64])
    requires planes { length planes.now ≤ 64 }
    requires digits { length digits.old ≤ 256 }
    ensures digits { let n = length planes.now in
        let size = length digits.new in
        digits_in n digits.new ≡ digits_in_planes n size (planes_held size planes.now) }
    ensures below { All (λ u. u < 2 ^ length planes.now) digits.new }
{
    have_four_words(planes);
    digits_of_planes(planes, digits);
}

/// Writes the digits of planes of any number of words, so that blocks of up to 64 coefficients have one word
/// a plane.
#[tactic(auto, using(crate::proofs::Transposed::group_written))]
#[inline(always)]
pub fn digits_of_planes<P: Plane>(planes: &[P], digits: &mut [u64])
    requires planes { length planes.now ≤ 64 }
    requires digits { length digits.old ≤ 64 * P.word_count }
    ensures digits { let n = length planes.now in
        let size = length digits.new in
        digits_in n digits.new ≡ digits_in_planes n size (planes_held size (map P.words planes.now)) }
    ensures below { All (λ u. u < 2 ^ length planes.now) digits.new }
{
    let size = digits.len();
    for number in 0..size.div_ceil(WORD_BITS) {
        let from = number * WORD_BITS;
        let to = (from + WORD_BITS).min(size);
        take_group(planes, number, &mut digits[from..to]);
    }
    are_words(digits);
}

/// Says that each of these words is one, for proofs that know of lists of numbers alone.
#[inline(always)]
fn are_words(words: &[u64])
    ensures { All (λ u. u < 2 ^ 64) words.now }
{
    let _known = words.len();
}

/// The digits of which planes have one each in their words of this number.
#[tactic(auto, using(crate::proofs::Halves::group_of_prefix))]
#[inline(always)]
fn take_group<P: Plane>(planes: &[P], number: usize, digits: &mut [u64])
    requires word { HasWord number P.word_count planes.now }
    requires digits { length digits.old ≤ 64 }
    ensures { IsOfGroup number (map P.words planes.now) digits.new }
{
    match digits.len() {
        16 => take_16(planes, number, digits),
        64 => take_64(planes, number, digits),
        _ => {
            let mut whole = [0; WORD_BITS];
            take_64(planes, number, &mut whole);
            copy_prefix(&whole, digits);
        }
    }
}

/// Copies as many words as there are digits.
fn copy_prefix(words: &[u64], digits: &mut [u64])
    requires { length digits.old ≤ length words.now }
    ensures { (r : ℕ) → r < length digits.new → slice_index_or digits.new r 0 ≡ slice_index_or words.now r 0 }
{
    for r in 0..digits.len() {
        digits[r] = words[r];
    }
}

/// Takes sixteen digits. Where this is compiled into its caller, their words stay in registers.
#[tactic(auto, using(crate::proofs::Halves::of_digits))]
#[inline(always)]
fn take_16<P: Plane>(planes: &[P], number: usize, digits: &mut [u64])
    requires word { HasWord number P.word_count planes.now }
    requires digits { length digits.old ≡ 16 }
    ensures { IsOfGroup number (map P.words planes.now) digits.new }
{
    // A number of planes that is known needs no loop.
    match planes.len() {
        32 => unfold_from::<8>(&half_of_16(planes, 0, number), 0, digits),
        64 => take_16_of_64(planes, number, digits),
        _ => take_16_of(planes, number, digits),
    }
}

/// Takes sixteen digits of 64 planes. Where 32 planes from a multiple of sixteen on have all the ones, as a
/// budget mostly leaves it, no others are turned. Planes are asked by sixteens, since so few digits are turned
/// in little time: to ask plane by plane would cost as much as it saves.
#[tactic(auto, using(crate::proofs::Halves::of_digits))]
#[inline(always)]
fn take_16_of_64<P: Plane>(planes: &[P], number: usize, digits: &mut [u64])
    requires planes { HasWordOfAll number P.word_count 64 planes.now }
    requires digits { length digits.old ≡ 16 }
    ensures { IsOfGroup number (map P.words planes.now) digits.new }
{
    let from = zeros_below_by_16(planes, number);
    if are_zeros_by_16(planes, from + 32, number) {
        unfold_from::<8>(&half_of_16(planes, from, number), from, digits);
    } else {
        unfold::<8>(
            &half_of_16(planes, 0, number),
            &half_of_16(planes, 32, number),
            digits,
        );
    }
}

/// How many of the lowest 32 planes have no one, up to the first sixteen of which one has.
#[inline(always)]
fn zeros_below_by_16<P: Plane>(planes: &[P], number: usize) -> usize
    requires planes { HasWordBelow number P.word_count 32 planes.now }
    ensures within { result ≤ 32 }
    ensures zeros { (k : ℕ) → k < result → word_of (map P.words planes.now) number k ≡ 0 }
{
    if !are_16_zeros(planes, 0, number) {
        0
    } else if !are_16_zeros(planes, 16, number) {
        16
    } else {
        32
    }
}

/// Whether none of 64 planes has a one from this one on, which is one of the upper 32 or their end. Those
/// before it that are of the same sixteen are asked too.
#[inline(always)]
fn are_zeros_by_16<P: Plane>(planes: &[P], from: usize, number: usize) -> bool
    requires planes { HasWordOfAll number P.word_count 64 planes.now }
    requires from { 32 ≤ from }
    ensures { IsTrue result → (k : ℕ) → from ≤ k → word_of (map P.words planes.now) number k ≡ 0 }
{
    (from >= 48 || are_16_zeros(planes, 32, number))
        && (from >= 64 || are_16_zeros(planes, 48, number))
}

/// Whether none of the sixteen planes from this one on has a one. Its loop has no way out, so that it is
/// compiled to lanes.
#[inline(always)]
fn are_16_zeros<P: Plane>(planes: &[P], from: usize, number: usize) -> bool
    requires planes { HasWordBelow number P.word_count (from + 16) planes.now }
    ensures { IsTrue result
        → (k : ℕ) → from ≤ k → k < from + 16 → word_of (map P.words planes.now) number k ≡ 0 }
{
    let mut any = 0;
    for k in from..from + 16 {
        any |= planes[k].word(number);
    }
    any == 0
}

/// Takes sixteen digits of planes of any number.
#[tactic(auto, using(crate::proofs::Halves::of_digits))]
#[cold]
#[inline(never)]
fn take_16_of<P: Plane>(planes: &[P], number: usize, digits: &mut [u64])
    requires word { HasWord number P.word_count planes.now }
    requires digits { length digits.old ≡ 16 }
    ensures { IsOfGroup number (map P.words planes.now) digits.new }
{
    let low = half_of_16(planes, 0, number);
    if planes.len() > 32 {
        unfold::<8>(&low, &half_of_16(planes, 32, number), digits);
    } else {
        unfold_from::<8>(&low, 0, digits);
    }
}

/// The 32 planes from `from` on, turned, of sixteen digits each. Planes past the end are zero.
#[tactic(auto, using(crate::proofs::Folded::fold_turned))]
#[inline(always)]
fn half_of_16<P: Plane>(planes: &[P], from: usize, number: usize) -> [u64; 8]
    requires half { IsHalfAt number P.word_count from planes.now }
    ensures { AreHalf 8 number from (map P.words planes.now) result }
{
    let mut words = folded_planes(planes, from, number);
    turn_folded(&mut words);
    words
}

/// The first sixteen digits of the 32 planes from `from` on, folded. Planes past the end are zero.
#[tactic(auto, using(crate::proofs::Folded::of_folded))]
#[inline(always)]
fn folded_planes<P: Plane>(planes: &[P], from: usize, number: usize) -> [u64; 8]
    requires half { IsHalfAt number P.word_count from planes.now }
    ensures { IsFoldOf number from (map P.words planes.now) result }
{
    let mut words = [0; 8];
    for eight in 0..4 {
        let first = from + 8 * eight;
        if first < planes.len() {
            let more = words_from(planes, first, number);
            put_sixteen_bits(&mut words, &more, place_of_eight(eight));
        }
    }
    words
}

/// Puts the first sixteen bits of each word of a tile into other words, at a place where these have none.
#[inline(always)]
fn put_sixteen_bits(words: &mut [u64; 8], tile: &[u64; 8], place: usize)
    requires place { place ≤ 48 }
    ensures { (j : ℕ) → j < 8 → slice_index_or words.new j 0
        ≡ bit_or (slice_index_or words.old j 0) (slice_index_or tile.now j 0 % 2 ^ 16 * 2 ^ place % 2 ^ 64) }
{
    for j in 0..8 {
        words[j] |= (tile[j] & 0xffff) << place;
    }
}

/// The words of the planes from `from` on, and zeros past their end.
#[inline(always)]
fn words_from<P: Plane, const N: usize>(planes: &[P], from: usize, number: usize) -> [u64; N]
    requires planes { HasWordBelow number P.word_count from planes.now }
    ensures { (j : ℕ) → j < N → slice_index_or result j 0
        ≡ word_of (map P.words planes.now) number (from + j) }
{
    let mut words = [0; N];
    let count = planes.len() - from;
    if count < N {
        copy_words(planes, from, count, number, &mut words);
    } else {
        copy_words(planes, from, N, number, &mut words);
    }
    words
}

/// Copies the words of so many planes from `from` on.
#[inline(always)]
fn copy_words<P: Plane>(planes: &[P], from: usize, count: usize, number: usize, words: &mut [u64])
    requires planes { HasWordBelow number P.word_count (from + count) planes.now }
    requires words { count ≤ length words.old }
    ensures copied { (j : ℕ) → j < count → slice_index_or words.new j 0
        ≡ word_of (map P.words planes.now) number (from + j) }
    ensures others { (j : ℕ) → count ≤ j → slice_index_or words.new j 0 ≡ slice_index_or words.old j 0 }
{
    for j in 0..count {
        words[j] = planes[from + j].word(number);
    }
}

/// Takes 64 digits, 32 planes at a time.
#[tactic(auto, using(crate::proofs::Halves::of_digits))]
#[inline(never)]
fn take_64<P: Plane>(planes: &[P], number: usize, digits: &mut [u64])
    requires word { HasWord number P.word_count planes.now }
    requires digits { length digits.old ≡ 64 }
    ensures { IsOfGroup number (map P.words planes.now) digits.new }
{
    // A number of planes that is known needs no loop.
    match planes.len() {
        32 => take_64_of_32(planes, number, digits),
        64 => take_64_of_64(planes, number, digits),
        _ => take_64_of(planes, number, digits),
    }
}

/// Takes 64 digits of 32 planes. Where sixteen planes beside one another have all the ones, no others are
/// turned.
#[tactic(auto, using(crate::proofs::Halves::of_digits))]
#[inline(always)]
fn take_64_of_32<P: Plane>(planes: &[P], number: usize, digits: &mut [u64])
    requires planes { HasWordOfAll number P.word_count 32 planes.now }
    requires digits { length digits.old ≡ 64 }
    ensures { IsOfGroup number (map P.words planes.now) digits.new }
{
    let from = zeros_below(planes, 16, number);
    if are_zeros(planes, from + 16, number) {
        unfold_from::<32>(&few_of_half(planes, from, number), from, digits);
    } else {
        unfold_from::<32>(&half(planes, 0, number), 0, digits);
    }
}

/// Takes 64 digits of 64 planes. Where sixteen planes beside one another have all the ones, or 32, as a
/// budget mostly leaves it, no others are turned.
#[tactic(auto, using(crate::proofs::Halves::of_digits))]
#[inline(always)]
fn take_64_of_64<P: Plane>(planes: &[P], number: usize, digits: &mut [u64])
    requires planes { HasWordOfAll number P.word_count 64 planes.now }
    requires digits { length digits.old ≡ 64 }
    ensures { IsOfGroup number (map P.words planes.now) digits.new }
{
    let from = zeros_below(planes, 32, number);
    if are_zeros(planes, from + 16, number) {
        unfold_from::<32>(&few_of_half(planes, from, number), from, digits);
    } else if are_zeros(planes, from + 32, number) {
        unfold_from::<32>(&half(planes, from, number), from, digits);
    } else {
        unfold::<32>(&half(planes, 0, number), &half(planes, 32, number), digits);
    }
}

/// How many of the lowest planes, so many at most, have no one, up to the first that has.
#[inline(always)]
fn zeros_below<P: Plane>(planes: &[P], most: usize, number: usize) -> usize
    requires planes { HasWordBelow number P.word_count most planes.now }
    ensures within { result ≤ most }
    ensures zeros { (k : ℕ) → k < result → word_of (map P.words planes.now) number k ≡ 0 }
{
    for k in 0..most {
        if planes[k].word(number) != 0 {
            return k;
        }
    }
    most
}

/// Whether no plane from this one on has a one.
#[inline(always)]
fn are_zeros<P: Plane>(planes: &[P], from: usize, number: usize) -> bool
    requires planes { HasWordBelow number P.word_count from planes.now }
    ensures { IsTrue result → (k : ℕ) → from ≤ k → word_of (map P.words planes.now) number k ≡ 0 }
{
    for k in from..planes.len() {
        if planes[k].word(number) != 0 {
            return false;
        }
    }
    true
}

/// Takes 64 digits of planes of any number.
#[tactic(auto, using(crate::proofs::Halves::of_digits))]
#[cold]
#[inline(never)]
fn take_64_of<P: Plane>(planes: &[P], number: usize, digits: &mut [u64])
    requires word { HasWord number P.word_count planes.now }
    requires digits { length digits.old ≡ 64 }
    ensures { IsOfGroup number (map P.words planes.now) digits.new }
{
    let low = half(planes, 0, number);
    if planes.len() > 32 {
        unfold::<32>(&low, &half(planes, 32, number), digits);
    } else {
        unfold_from::<32>(&low, 0, digits);
    }
}

/// The 32 planes from `from` on, turned, of which only the first sixteen have ones.
#[tactic(auto, using(crate::proofs::Halves::half_of_few))]
#[inline(always)]
fn few_of_half<P: Plane>(planes: &[P], from: usize, number: usize) -> [u64; 32]
    requires half { IsHalfAt number P.word_count from planes.now }
    requires zeros { (k : ℕ) → from + 16 ≤ k → word_of (map P.words planes.now) number k ≡ 0 }
    ensures { AreHalf 32 number from (map P.words planes.now) result }
{
    let mut words = words_from(planes, from, number);
    turn_16_of_32(&mut words)
}

/// The 32 planes from `from` on, turned. Planes past the end are zero.
#[tactic(auto, using(crate::proofs::Halves::half_of_planes))]
#[inline(always)]
fn half<P: Plane>(planes: &[P], from: usize, number: usize) -> [u64; 32]
    requires half { IsHalfAt number P.word_count from planes.now }
    ensures { AreHalf 32 number from (map P.words planes.now) result }
{
    let mut words = words_from(planes, from, number);
    turn_32(&mut words);
    words
}

/// Each word has 32 digits of a rank below `N`, and then those of the rank `N` above it.
#[inline(always)]
fn unfold<const N: usize>(low: &[u64], high: &[u64], digits: &mut [u64])
    requires halves { length low.now ≡ N }
    requires others { length high.now ≡ N }
    requires digits { length digits.old ≡ 2 * N }
    ensures { AreUnfolded N N low.now high.now digits.new }
{
    for r in 0..N {
        digits[r] = (low[r] & 0xffff_ffff) | high[r] << 32;
        digits[r + N] = (low[r] >> 32) | (high[r] >> 32) << 32;
    }
}

/// Each word has 32 digits of a rank below `N`, and then those of the rank `N` above it; the digits stand
/// behind `from` zeros.
#[inline(always)]
fn unfold_from<const N: usize>(words: &[u64], from: usize, digits: &mut [u64])
    requires words { length words.now ≡ N }
    requires from { from ≤ 32 }
    requires digits { length digits.old ≡ 2 * N }
    ensures { AreMoved N N from words.now digits.new }
{
    for r in 0..N {
        digits[r] = (words[r] & 0xffff_ffff) << from;
        digits[r + N] = (words[r] >> 32) << from;
    }
}
