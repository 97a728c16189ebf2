//! A place in the bits of words.
ghost use Rattle.std.specs.Prelude.{◌≡◌, ◌+◌, ◌-◌, ◌*◌, ◌%◌, ◌^◌, ◌<◌, ◌≤◌, [], ◌∷◌, length, take, drop, IfSome, IfNone};
ghost use Rattle.zf_spec.specs.Numbers.{field, number, word_bits};
ghost use Rattle.zf_spec.specs.Stream.{to_bits};
ghost use Rattle.zf_bits.specs.Reader.{rest, Reads};

use crate::packing::take_words;
use crate::slots::{bits_from, get_bits};
use std::marker::Model;

/// Reads the bits of words from a place on. Contracts see all the bits and the place.
///
/// Bit i of words is bit `i % 64` of word `i / 64`, least significant first (zfp 1.0 documentation).
#[derive(Debug, Drop)]
pub struct BitReader<'a> {
    words: &'a [u64],
    bits: u64,
    at: u64,
}

impl<'a> Model for BitReader<'a> {
    ghost use Rattle.std.specs.Prelude.{◌*◌, ◌≤◌, length, take};
    ghost use Rattle.zf_spec.specs.Numbers.{word_bits};
    ghost use Rattle.zf_bits.specs.Reader.{Reader};

    ghost Value = { Reader };

    ghost view = { λ r. record { all = take r.bits (word_bits r.words.now); at = r.at } };

    ghost invariant = { λ r. (r.bits ≤ 64 * length r.words.now) × (r.at ≤ r.bits) };
}

impl<'a> BitReader<'a> {
    /// A reader that stands before the first of `bits` bits, from the first word on; the words have so many.
    pub fn new(words: &'a [u64], bits: u64) -> BitReader<'a>
        requires { bits ≤ 64 * length words.now }
        ensures { result ≡ record { all = take bits (word_bits words.now); at = 0 } }
    {
        BitReader { words, bits, at: 0 }
    }

    /// A reader of the bits of a file from bit `at` on, as many as there is room for in these words, which
    /// they are put into.
    pub fn of_file(file: &[u8], at: u64, words: &'a mut [u64]) -> BitReader<'a>
        requires within { at ≤ 8 * length file.now }
        requires some { 1 ≤ length words.old }
        requires few { 64 * length words.old < 2 ^ 64 }
        ensures bits { rest result ≡ take (64 * length words.old - at % 64) (drop at (to_bits file.now)) }
        ensures place { result.at ≡ at % 64 }
    {
        let bits = take_words(file, at, words);
        BitReader {
            words,
            bits,
            at: at % 64,
        }
    }

    /// Another reader of the same bits, at the same place.
    #[inline(always)]
    pub fn another(&self) -> BitReader<'a>
        ensures { result ≡ self.now }
    {
        BitReader {
            words: self.words,
            bits: self.bits,
            at: self.at,
        }
    }

    /// The number of bits before the place.
    pub fn at(&self) -> u64
        ensures { result ≡ self.now.at }
    {
        self.at
    }

    /// The number of bits that are left.
    #[inline]
    pub fn left(&self) -> u64
        ensures count { result ≡ length (rest self.now) }
        ensures within { self.now.at + result ≡ length self.now.all }
        ensures fits { length self.now.all < 2 ^ 64 }
    {
        self.bits - self.at
    }

    /// Goes to a place, also back; at most to the end.
    pub fn seek(&mut self, at: u64)
        requires { at ≤ length self.old.all }
        ensures { self.new ≡ record self.old { at = at } }
    {
        self.at = at;
    }

    /// The next bit. `None`: there is none, and the reader stays.
    #[inline]
    pub fn read_bit(&mut self) -> Option<bool>
        ensures reads { IfSome result (λ bit. Reads self.old self.new (bit ∷ [])) }
        ensures none { IfNone result (self.new ≡ self.old) }
        ensures at_end { IfNone result (rest self.old ≡ []) }
    {
        if self.left() == 0 {
            return None;
        }
        Some(self.next_bit())
    }

    /// The next `n` bits, at most 64, as a number, the least significant first. `None`: fewer are left, and
    /// the reader stays.
    #[inline]
    pub fn read(&mut self, n: u32) -> Option<u64>
        requires { n ≤ 64 }
        ensures reads { IfSome result (λ v. Reads self.old self.new (field n v)) }
        ensures value { IfSome result (λ v. v ≡ number (take n (rest self.old))) }
        ensures none { IfNone result (self.new ≡ self.old) }
        ensures short { IfNone result (length (rest self.old) < n) }
    {
        if self.left() < u64::from(n) {
            return None;
        }
        let value = get_bits(self.words, self.at, n);
        self.at += u64::from(n);
        Some(value)
    }

    /// The next 64 bits as a number, the first one lowest. Where fewer are left, the others are anything.
    #[inline]
    pub fn peek(&self) -> u64
        ensures { take (length (take 64 (rest self.now))) (field 64 result) ≡ take 64 (rest self.now) }
    {
        bits_from(self.words, self.at)
    }

    /// Goes on behind the next `n` bits, which are there.
    #[inline]
    pub fn skip(&mut self, n: u64)
        requires { n ≤ length (rest self.old) }
        ensures { Reads self.old self.new (take n (rest self.old)) }
    {
        self.at += n;
    }

    // The bit at the place, which is not the end.
    #[inline]
    fn next_bit(&mut self) -> bool
        requires { 0 < length (rest self.old) }
        ensures { Reads self.old self.new (result ∷ []) }
    {
        let word = self.words[self.at as usize / 64];
        let bit = (word >> (self.at % 64)) % 2 == 1;
        self.at += 1;
        bit
    }
}
