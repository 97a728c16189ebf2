//! The bits at a place in words.
ghost use Rattle.std.specs.Prelude.{◌≡◌, ◌+◌, ◌*◌, ◌/◌, ◌%◌, ◌^◌, ◌<◌, ◌≤◌, ◌++◌, false, length, take, drop, replicate, slice_index};
ghost use Rattle.zf_spec.specs.Numbers.{field, number, word_bits};

/// The `n` bits from place `at` on as a number, the first bit lowest. They are at most 64, and lie in the
/// words.
///
/// Bit i of words is bit `i % 64` of word `i / 64`, least significant first (zfp 1.0 documentation).
#[inline]
pub fn get_bits(words: &[u64], at: u64, n: u32) -> u64
    requires width { n ≤ 64 }
    requires within { at + n ≤ 64 * length words.now }
    ensures { result ≡ number (take n (drop at (word_bits words.now))) }
{
    low_bits(bits_from(words, at), n)
}

/// Makes the `n` bits from place `at` on the `n` lowest bits of `v`, the lowest first. They are at most 64,
/// and lie in the words. All other bits stay.
pub fn put_bits(words: &mut [u64], at: u64, v: u64, n: u32)
    requires width { n ≤ 64 }
    requires within { at + n ≤ 64 * length words.old }
    ensures bits { word_bits words.new ≡ take at (word_bits words.old) ++ field n v
        ++ drop (at + n) (word_bits words.old) }
    ensures len { length words.new ≡ length words.old }
{
    let place = (at / 64) as usize;
    let shift = (at % 64) as u32;
    let here = 64 - shift;
    if n <= here {
        put_in_word(words, place, shift, v, n);
    } else {
        put_in_word(words, place, shift, v, here);
        put_in_word(words, place + 1, 0, v >> here, n - here);
    }
}

// `put_bits` in one word, from bit `shift` on.
fn put_in_word(words: &mut [u64], place: usize, shift: u32, v: u64, n: u32)
    requires in_word { shift + n ≤ 64 }
    requires within { 64 * place + shift + n ≤ 64 * length words.old }
    ensures bits { word_bits words.new
        ≡ take (64 * place + shift) (word_bits words.old) ++ field n v
        ++ drop (64 * place + shift + n) (word_bits words.old) }
    ensures len { length words.new ≡ length words.old }
{
    if n > 0 {
        words[place] = with_bits(words[place], shift, v, n);
    }
}

// A word with other bits from `shift` on.
fn with_bits(word: u64, shift: u32, v: u64, n: u32) -> u64
    requires some { 0 < n }
    requires within { shift + n ≤ 64 }
    ensures { field 64 result ≡ field shift word ++ field n v ++ drop (shift + n) (field 64 word) }
{
    let old = low_bits(word >> shift, n);
    let new = low_bits(v, n);
    word - (old << shift) + (new << shift)
}

// The 64 bits from a place on, with zeros behind the end.
#[inline]
pub(crate) fn bits_from(words: &[u64], at: u64) -> u64
    requires { at ≤ 64 * length words.now }
    ensures { field 64 result ≡ take 64 (drop at (word_bits words.now) ++ replicate 64 false) }
{
    let place = (at / 64) as usize;
    let shift = at % 64;
    // Two tests of the end in one, as most places are far before it.
    if place + 1 < words.len() {
        return word(words, place) >> shift | word(words, place + 1) << (63 - shift) << 1;
    }
    word_at(words, place) >> shift | word_at(words, place + 1) << (63 - shift) << 1
}

// Makes the first words zeros.
pub(crate) fn blank(words: &mut [u64], count: usize)
    requires { count ≤ length words.old }
    ensures { words.new ≡ replicate count 0 ++ drop count words.old }
{
    words[..count].fill(0);
}

// The word at a place.
#[inline]
pub(crate) fn word(words: &[u64], place: usize) -> u64
    requires { place < length words.now }
    ensures { result ≡ slice_index words.now place }
{
    words[place]
}

// A word, or 0 behind the end.
#[inline]
fn word_at(words: &[u64], place: usize) -> u64
    ensures { result ≡ slice_index words.now place }
{
    if place < words.len() { words[place] } else { 0 }
}

// The `n` lowest bits.
#[inline]
pub(crate) fn low_bits(v: u64, n: u32) -> u64
    requires { n ≤ 64 }
    ensures { result ≡ v % 2 ^ n }
{
    if n == 0 { 0 } else { v & u64::MAX >> (64 - n) }
}
