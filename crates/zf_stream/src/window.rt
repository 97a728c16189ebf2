//! A window of a stream's words, which is filled from a source.

ghost use Rattle.std.specs.Prelude.{◌≡◌, ◌≢◌, ◌≤◌, ◌<◌, ◌+◌, ◌*◌, ◌^◌, ◌%◌, true, false, [], length, IsTrue};
ghost use Rattle.std.specs.Prelude.{Err, IfOk, IfErr, OnOk, OnErr};
ghost use Rattle.std.specs.Int.{div_ceil};
ghost use Rattle.zf_spec.specs.Stream.{to_bits};
ghost use Rattle.zf_stream.specs.Windows.{left_of, KnowsEnd, Reaches};
ghost use Rattle.zf_parse.specs.declared.fault.StreamFault.TheVariants.{Read};

use crate::StreamFault;
use crate::reading::read_into;
use std::alloc::{AllocError, Global};
use std::marker::Model;
use zf_bits::{BitReader, put_words_at};
use zf_dev::Source;

/// How many bytes are taken from a source before its window is made: whole words, and the longest header lies
/// in them.
pub(crate) const PREFIX: usize = 24;

// The words of the prefix, and one that may have been read in part.
const SPARE: usize = 4;

/// Bits of a stream that are held, of which some were read. Contracts see them with the place, and whether
/// the source is known to be at its end.
#[derive(Drop)]
pub(crate) struct Window {
    words: Vec<u64>,
    bits: u64,
    at: u64,
    ended: bool,
}

impl Model for Window {
    ghost use Rattle.std.specs.Prelude.{◌≡◌, ◌*◌, ◌<◌, ◌≤◌, ◌%◌, ◌^◌, false, length, take};
    ghost use Rattle.zf_spec.specs.Numbers.{word_bits};
    ghost use Rattle.zf_stream.specs.Windows.{Window, IsHeld};

    ghost Value = { Window };

    ghost view = { λ w. record {
      reader = record {
        all = take w.bits
            (word_bits w.words.items);
        at = w.at;
      };
      room = length w.words.items;
      ended = w.ended;
    } };

    ghost invariant = { λ w. IsHeld w.words.items w.bits w.at w.ended };
}

impl Window {
    /// A window that holds the first bytes of a source, all of them where there are fewer than 24, and stands
    /// at bit `at`.
    /// It has room for `most` bits and those before them.
    pub(crate) fn new(
        alloc: Global,
        most: u64,
        prefix: &[u8],
        at: u64,
    ) -> Result<Window, AllocError>
        requires few { length prefix.now ≤ 24 }
        requires within { at ≤ 8 * length prefix.now }
        requires small { most ≤ 2 ^ 40 }
        ensures bits { IfOk result (λ w. w.reader.all ≡ to_bits prefix.now) }
        ensures place { IfOk result (λ w. w.reader.at ≡ at) }
        ensures room { IfOk result (λ w. most + 64 ≤ 64 * w.room) }
        ensures ended { IfOk result (λ w. w.ended ≡ true → length prefix.now < 24) }
        ensures told { IfOk result (λ w. length prefix.now < 24 → w.ended ≡ true) }
    {
        let count = most.div_ceil(64) as usize + SPARE;
        let mut words = vec![in alloc; 0; count]?;
        put_words_at(prefix, &mut words, 0);
        Ok(Window {
            words,
            bits: 8 * prefix.len() as u64,
            at,
            ended: prefix.len() < PREFIX,
        })
    }

    /// The bits that are held, at the place.
    pub(crate) fn reader(&self) -> BitReader<'_>
        ensures { result ≡ self.now.reader }
    {
        let mut reader = BitReader::new(&self.words, self.bits);
        reader.seek(self.at);
        reader
    }

    /// Goes to a place.
    pub(crate) fn go_to(&mut self, at: u64)
        requires { at ≤ length self.old.reader.all }
        ensures { self.new ≡ record self.old { reader = record self.old.reader { at = at } } }
    {
        self.at = at;
    }

    /// Sees to it that `need` bits are held that are not read yet, or all that the source still gives.
    #[inline]
    pub(crate) fn reach<S: Source>(
        &mut self,
        need: u64,
        piece: &mut [u8],
        src: &mut S,
    ) -> Result<(), StreamFault>
        requires room { need + 64 ≤ 64 * self.old.room }
        requires piece { 8 ≤ length piece.old }
        requires ended { KnowsEnd S.Source self.old src.old }
        ensures reaches { Reaches S.Source result src.old src.new self.old self.new }
        ensures enough { OnOk result (self.new.ended ≡ false → need ≤ length (left_of self.new)) }
    {
        if self.left() < need && !self.ended {
            self.refill(need, piece, src)?;
        }
        Ok(())
    }

    // The same where the source may still give some. This happens once in many blocks, and stands apart so
    // that the test before it costs no call.
    #[cold]
    #[inline(never)]
    fn refill<S: Source>(
        &mut self,
        need: u64,
        piece: &mut [u8],
        src: &mut S,
    ) -> Result<(), StreamFault>
        requires going { self.old.ended ≡ false }
        requires room { need + 64 ≤ 64 * self.old.room }
        requires piece { 8 ≤ length piece.old }
        requires ended { KnowsEnd S.Source self.old src.old }
        ensures reaches { Reaches S.Source result src.old src.new self.old self.new }
        ensures enough { OnOk result (self.new.ended ≡ false → need ≤ length (left_of self.new)) }
    {
        self.move_down();
        while self.left() < need && !self.ended {
            self.append(piece, src)?;
        }
        Ok(())
    }

    /// How many bits are held that are not read yet.
    pub(crate) fn left(&self) -> u64
        ensures count { result ≡ length (left_of self.now) }
        ensures within { self.now.reader.at + result ≡ length self.now.reader.all }
    {
        self.bits - self.at
    }

    // Moves the words that are not read yet to the front.
    fn move_down(&mut self)
        requires { self.old.ended ≡ false }
        ensures bits { left_of self.new ≡ left_of self.old }
        ensures room { self.new.room ≡ self.old.room }
        ensures ended { self.new.ended ≡ self.old.ended }
        ensures place { self.new.reader.at ≡ self.old.reader.at % 64 }
    {
        let first = self.at / 64;
        let end = self.bits / 64;
        self.words.copy_within(first as usize..end as usize, 0);
        self.bits -= 64 * first;
        self.at -= 64 * first;
    }

    // Appends a piece of what the source still gives, as far as there is room.
    fn append<S: Source>(&mut self, piece: &mut [u8], src: &mut S) -> Result<(), StreamFault>
        requires going { self.old.ended ≡ false }
        requires room { length self.old.reader.all < 64 * self.old.room }
        requires piece { 8 ≤ length piece.old }
        ensures reaches { Reaches S.Source result src.old src.new self.old self.new }
        ensures place { OnOk result (self.new.reader.at ≡ self.old.reader.at) }
        ensures more { OnOk result (self.new.ended ≡ false → length (left_of self.old) < length
            (left_of self.new)) }
    {
        let held = (self.bits / 64) as usize;
        let most = 8 * (self.words.len() - held).min(piece.len() / 8);
        let count = read_into(src, &mut piece[..most])?;
        put_words_at(&piece[..count], &mut self.words, held);
        self.bits += 8 * count as u64;
        self.ended = count < most;
        Ok(())
    }
}
