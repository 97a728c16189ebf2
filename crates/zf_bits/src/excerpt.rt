//! A few of the bits of a file, in words.

ghost use Rattle.std.specs.Prelude.{◌≡◌, ◌+◌, ◌-◌, ◌*◌, ◌%◌, ◌^◌, ◌≤◌, length, take, drop, IfOk};
ghost use Rattle.zf_spec.specs.Stream.{to_bits};
ghost use Rattle.zf_bits.specs.Reader.{rest};

use crate::BitReader;
use crate::packing::take_words;
use std::alloc::{AllocError, Global};
use std::marker::Model;

/// Words with some of the bits of a file, from the word on in which a place lies: what is read there needs no
/// copy of the whole file. It is seen as a reader at the place, and its room in words.
#[derive(Drop)]
pub struct Excerpt {
    words: Vec<u64>,
    bits: u64,
    at: u64,
}

impl Model for Excerpt {
    ghost use Rattle.std.specs.Prelude.{length, take};
    ghost use Rattle.zf_spec.specs.Numbers.{word_bits};
    ghost use Rattle.zf_bits.specs.Excerpts.{Excerpt, IsTaken};

    ghost Value = { Excerpt };

    ghost view = { λ e. record {
      reader = record { all = take e.bits (word_bits e.words.items); at = e.at };
      room = length e.words.items;
    } };

    ghost invariant = { λ e. IsTaken e.words.items e.bits e.at };
}

impl Excerpt {
    /// An empty one, with room for `most` bits behind any place.
    pub fn new(alloc: Global, most: u64) -> Result<Excerpt, AllocError>
        requires { most ≤ 2 ^ 16 }
        ensures { IfOk result (λ e. most + 128 ≤ 64 * e.room) }
    {
        let words = vec![in alloc; 0; most.div_ceil(64) as usize + 2]?;
        Ok(Excerpt {
            words,
            bits: 0,
            at: 0,
        })
    }

    /// Takes the bits of a file from bit `at` on, as many as there is room for.
    pub fn take(&mut self, file: &[u8], at: u64)
        requires within { at ≤ 8 * length file.now }
        requires room { 1 ≤ self.old.room }
        ensures bits { rest self.new.reader ≡ take (64 * self.old.room - at % 64) (drop at (to_bits file.now)) }
        ensures place { self.new.reader.at ≡ at % 64 }
        ensures room { self.new.room ≡ self.old.room }
    {
        self.bits = take_words(file, at, &mut self.words);
        self.at = at % 64;
    }

    /// The bits that were taken last.
    pub fn reader(&self) -> BitReader<'_>
        ensures { result ≡ self.now.reader }
    {
        let mut reader = BitReader::new(&self.words, self.bits);
        reader.seek(self.at);
        reader
    }
}
