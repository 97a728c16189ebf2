//! A list of bits that grows at its end.
ghost use Rattle.std.specs.Prelude.{◌≡◌, ◌+◌, ◌%◌, ◌^◌, ◌<◌, ◌≤◌, ◌↔◌, IsTrue, [], ◌∷◌, ◌++◌, false, length, replicate};
ghost use Rattle.std.specs.Prelude.{OnOk, OnErr};
ghost use Rattle.std.specs.Int.{div_ceil};
ghost use Rattle.zf_spec.specs.Numbers.{field, word_bits};
ghost use Rattle.zf_spec.specs.Stream.{fill, with_fill};
ghost use Rattle.zf_bits.specs.Writer.{Appends};

use crate::slots::{blank, low_bits, word};
use std::alloc::{AllocError, Global};
use std::marker::Model;

/// Bits, appended at the end. Contracts see the bits written and the spare room, both counted in bits.
///
/// A field is appended least significant bit first (zfp 1.0 documentation). Only
/// [`BitWriter::reserve`] and [`BitWriter::write`] ask for memory; where there is none they answer
/// `AllocError`, and the writer may be used on. Reserve first, and the other calls cannot fail.
#[derive(Debug, Drop)]
pub struct BitWriter {
    // the bits, then zeros; behind the spare room one word more, so that a field always has two
    words: Vec<u64>,
    len: u64,
}

impl Model for BitWriter {
    ghost use Rattle.std.specs.Prelude.{take};
    ghost use Rattle.zf_spec.specs.Numbers.{word_bits};
    ghost use Rattle.zf_bits.specs.Writer.{Writer, room, IsWritten};

    ghost Value = { Writer };

    ghost view = { λ w. record {
      bits = take w.len (word_bits w.words.items);
      room =
          room w.words.items w.len;
    } };

    ghost invariant = { λ w. IsWritten w.words.items w.len };
}

// So many words are never held, so that bits are counted in 63 binary digits.
const MOST_WORDS: u64 = 1 << 57;

impl BitWriter {
    /// A writer that holds no bits and no memory.
    pub fn new(alloc: Global) -> Self
        ensures { result ≡ record { bits = []; room = 0 } }
    {
        BitWriter {
            words: Vec::new(alloc),
            len: 0,
        }
    }

    /// The number of bits written.
    #[inline]
    pub fn len(&self) -> u64
        ensures count { result ≡ length self.now.bits }
        ensures small { result + self.now.room < 2 ^ 63 }
    {
        self.len
    }

    /// Whether no bit was written.
    pub fn is_empty(&self) -> bool
        ensures { IsTrue result ↔ (self.now.bits ≡ []) }
    {
        self.len == 0
    }

    /// The bits in words of 64, bit i as bit `i % 64` of word `i / 64`. The last word is filled with zeros.
    pub fn words(&self) -> &[u64]
        ensures bits { word_bits result.now ≡ with_fill self.now.bits }
        ensures len { length result.now ≡ div_ceil (length self.now.bits) 64 }
    {
        &self.words[..self.len.div_ceil(64) as usize]
    }

    /// Makes room for `n` more bits, at most 2^40. `AllocError`: there was less room and no memory; nothing
    /// has changed.
    pub fn reserve(&mut self, n: u64) -> Result<(), AllocError>
        requires { n ≤ 2 ^ 40 }
        ensures bits { self.new.bits ≡ self.old.bits }
        ensures no_less { self.old.room ≤ self.new.room }
        ensures ok { OnOk result (n ≤ self.new.room) }
        ensures err { OnErr result (self.new ≡ self.old) }
        ensures full { OnErr result (self.old.room < n) }
    {
        if n <= self.room() {
            return Ok(());
        }
        let count = (self.len + n).div_ceil(64) + 1;
        if count >= MOST_WORDS {
            return Err(AllocError);
        }
        self.words.resize(count as usize, 0)?;
        Ok(())
    }

    // How many more bits fit.
    #[inline]
    fn room(&self) -> u64
        ensures { result ≡ self.now.room }
    {
        (64 * self.words.len() as u64).saturating_sub(64 + self.len)
    }

    /// Appends the `n` lowest bits of `v`, at most 64, the least significant first. `AllocError`: there was
    /// less room and no memory; nothing was appended.
    #[inline]
    pub fn write(&mut self, v: u64, n: u32) -> Result<(), AllocError>
        requires { n ≤ 64 }
        ensures ok { OnOk result (Appends self.old self.new (field n v)) }
        ensures err { OnErr result (self.new ≡ self.old) }
        ensures full { OnErr result (self.old.room < n) }
    {
        self.reserve(u64::from(n))?;
        self.write_reserved(v, n);
        Ok(())
    }

    /// Appends the `n` lowest bits of `v`, the least significant first, in room that is there already. `n` is
    /// at most 64.
    #[inline]
    pub fn write_reserved(&mut self, v: u64, n: u32)
        requires width { n ≤ 64 }
        requires fits { n ≤ self.old.room }
        ensures bits { Appends self.old self.new (field n v) }
        ensures room { self.new.room + n ≡ self.old.room }
    {
        if n > 0 {
            self.put(low_bits(v, n), n);
        }
    }

    // Appends a number in as many bits, which lie in at most two words.
    #[inline]
    fn put(&mut self, v: u64, n: u32)
        requires some { 0 < n }
        requires width { n ≤ 64 }
        requires in_bits { v < 2 ^ n }
        requires fits { n ≤ self.old.room }
        ensures bits { self.new.bits ≡ self.old.bits ++ field n v }
        ensures room { self.new.room + n ≡ self.old.room }
    {
        let place = (self.len / 64) as usize;
        let shift = self.len % 64;
        self.words[place] = word(&self.words, place) | v << shift;
        self.words[place + 1] = v >> (63 - shift) >> 1;
        self.len += u64::from(n);
    }

    /// Appends one bit in room that is there already.
    #[inline]
    pub fn write_bit_reserved(&mut self, bit: bool)
        requires { 0 < self.old.room }
        ensures bits { Appends self.old self.new (bit ∷ []) }
        ensures room { self.new.room + 1 ≡ self.old.room }
    {
        self.write_reserved(u64::from(bit), 1);
    }

    /// Appends so many zero bits in room that is there already. There are zeros behind the bits, so nothing is
    /// written.
    #[inline]
    pub fn write_zeros_reserved(&mut self, count: u64)
        requires { count ≤ self.old.room }
        ensures bits { Appends self.old self.new (replicate count false) }
        ensures room { self.new.room + count ≡ self.old.room }
    {
        self.len += count;
    }

    /// Appends zero bits up to the next multiple of 64, and none where the length is a multiple already. The
    /// room for them is there.
    pub fn pad_to_word(&mut self)
        requires { length (fill self.old.bits) ≤ self.old.room }
        ensures bits { Appends self.old self.new (fill self.old.bits) }
        ensures room { self.new.room + length (fill self.old.bits) ≡ self.old.room }
        ensures whole { length self.new.bits % 64 ≡ 0 }
        ensures least { length self.new.bits < length self.old.bits + 64 }
    {
        let missing = (64 - self.len() % 64) % 64;
        self.write_zeros_reserved(missing);
    }

    /// Forgets all bits and keeps the memory.
    pub fn clear(&mut self)
        ensures bits { self.new.bits ≡ [] }
        ensures room { length self.old.bits + self.old.room ≤ self.new.room }
    {
        let used = self.len.div_ceil(64) as usize;
        blank(&mut self.words, used);
        self.len = 0;
    }
}
