//! The store.

ghost use Rattle.std.specs.Prelude.{◌≡◌, ◌-◌, ◌*◌, false, length, drop, replicate, vec_len, IfOk, IfErr};
ghost use Rattle.std.specs.List.{flat_map};
ghost use Rattle.std.specs.Int.{div_ceil};
ghost use Rattle.zf_spec.specs.Numbers.{word_bits};
ghost use Rattle.zf_spec.specs.Stream.{with_fill};
ghost use Rattle.zf_base.specs.Widths.{width_of};
ghost use Rattle.zf_header.specs.HeaderBits.{IsRate, rate_bytes_of};
ghost use Rattle.zf_parse.specs.Parsing.{parse};
ghost use Rattle.zf_parse.specs.ReadStreams.{IsFault};
ghost use Rattle.zf_store.specs.Stored.{IsStore, file_of, zeros};
ghost use Rattle.zf_index.specs.Files.{stream_fault};
ghost use Rattle.zf_store.specs.Files.{HasHeader, IsOpened};
ghost use Rattle.zf_store.specs.Words.{IsWholeFile, all_bits, with_codes};

use crate::StoreFault;
use crate::file::{check_file, code_bits, code_place, rate, words_of_file, write_bytes};
use crate::words::put_run;
use std::alloc::{AllocError, Global};
use std::marker::Model;
use zf_base::{Backing, Lane, Reading, Shape, block_len};
use zf_bits::{BitReader, BitWriter};
use zf_block::{Dims, Scratch};
use zf_header::{Header, LONG_HEADER_BITS, Mode};

/// The codes of the blocks of an array of `D` dimensions, each of as many bits, seen as the header of their
/// file and the list of the codes.
///
/// It is a [`Backing`] of blocks of `4^D` values: a load gives what a code means, and a store makes one code
/// anew and leaves every other bit. Work room and the header's bits are taken when a store is made, so loads,
/// stores and the file take no memory.
#[derive(Drop)]
pub struct Store<T: Lane, const D: usize> {
    header: Header,
    // the codes in order, then zeros up to the whole word
    words: Vec<u64>,
    // for one block, and for its code
    room: Scratch<T>,
    code: BitWriter,
    // the header's bits
    head: BitWriter,
}

impl<T: Lane, const D: usize> Model for Store<T, D> {
    ghost use Rattle.zf_store.specs.Stored.{Stored};

    ghost Value = { Stored };

    ghost use Rattle.zf_spec.specs.Grid.{blocks};
    ghost use Rattle.zf_spec.specs.Numbers.{word_bits};
    ghost use Rattle.zf_header.specs.HeaderBits.{block_bits};
    ghost use Rattle.zf_store.specs.Words.{codes_in, IsKept};

    ghost view = { λ s. record {
      header = s.header;
      codes = codes_in (block_bits s.header.mode) (blocks s.header.shape) (word_bits s.words.items);
    } };

    ghost invariant = { λ s. IsKept T.width D s.header s.words.items s.code s.head };
}

impl<T: Lane, const D: usize> Store<T, D> {
    /// The codes of zeros: all bits are 0. A block has `bits` bits, 1 to 32768. `AllocError`: there was no
    /// memory.
    pub fn zeros(alloc: Global, shape: Shape, bits: u32) -> Result<Store<T, D>, AllocError>
        requires dims { length shape ≡ D }
        requires rate { IsRate (Mode.Rate bits) }
        ensures { IfOk result (λ s. s ≡ zeros T.TY shape bits) }
    {
        let header = Header {
            ty: T::TY,
            shape,
            mode: Mode::Rate(bits),
        };
        let count = code_bits(&header).div_ceil(64) as usize;
        let words = vec![in alloc; 0; count]?;
        Store::with_words(alloc, header, words)
    }

    /// The codes of a file that begins with the header `h`, of values of `T` in `D` dimensions at a rate.
    /// Each code is kept bit for bit, bits that no value needs included.
    ///
    /// `h` is what `zf_header::read` gives for the file. `Truncated(b)`: the code of block b is the first
    /// that ends too early; b is the number of blocks where only fill bits are missing. `Pad`: a bit of the
    /// fill is one. `Trailing`: a byte follows the fill. The first that holds, in this order; or `Memory`:
    /// there was no memory.
    pub fn from_file(alloc: Global, h: &Header, file: &[u8]) -> Result<Store<T, D>, StoreFault>
        requires header { HasHeader file.now h.now }
        requires same_type { T.width ≡ width_of h.now.ty }
        requires dims { length h.now.shape ≡ D }
        ensures ok { IfOk result (IsOpened file.now h.now) }
        ensures fault { IfErr result (λ e. IsFault (parse file.now) (stream_fault e)) }
    {
        check_file(h, file)?;
        let store = Store::of_whole_file(alloc, h, file)?;
        Ok(store)
    }

    // The codes of a whole file.
    fn of_whole_file(alloc: Global, h: &Header, file: &[u8]) -> Result<Store<T, D>, AllocError>
        requires header { HasHeader file.now h.now }
        requires whole { IsWholeFile file.now h.now }
        requires same_type { T.width ≡ width_of h.now.ty }
        requires dims { length h.now.shape ≡ D }
        ensures { IfOk result (IsOpened file.now h.now) }
    {
        let words = words_of_file(alloc, h, file)?;
        Store::with_words(alloc, *h, words)
    }

    // The store of these words, with its room and the header's bits.
    fn with_words(alloc: Global, header: Header, words: Vec<u64>) -> Result<Store<T, D>, AllocError>
        requires same_type { T.width ≡ width_of header.ty }
        requires dims { length header.shape ≡ D }
        requires rate { IsRate header.mode }
        requires count { vec_len words ≡ div_ceil (all_bits header) 64 }
        requires blank { drop (all_bits header) (word_bits words.items)
            ≡ replicate (64 * vec_len words - all_bits header) false }
        ensures { IfOk result (λ s. s ≡ with_codes header (word_bits words.items)) }
    {
        let room = Scratch::new(alloc)?;
        let mut code = BitWriter::new(alloc);
        code.reserve(u64::from(rate(&header)))?;
        let mut head = BitWriter::new(alloc);
        head.reserve(u64::from(LONG_HEADER_BITS))?;
        zf_header::write(&header, &mut head);
        Ok(Store {
            header,
            words,
            room,
            code,
            head,
        })
    }

    /// The words of the codes: code `b` from bit `b * B` on, `B` being the bits of a block, and zeros to the
    /// whole word.
    pub fn words(&self) -> &[u64]
        ensures bits { word_bits result.now ≡ with_fill (flat_map (λ c. c) self.now.codes) }
        ensures whole { IsStore T.width D self.now }
    {
        &self.words
    }

    /// The header of the file.
    #[inline]
    pub fn header(&self) -> Header
        ensures value { result ≡ self.now.header }
        ensures whole { IsStore T.width D self.now }
    {
        self.header
    }

    /// Writes the file: the header, the codes and the fill. `out` has as many bytes as `rate_bytes` of the
    /// header says.
    pub fn write_file(&self, out: &mut [u8])
        requires { length out.old ≡ rate_bytes_of self.now.header }
        ensures { out.new ≡ file_of self.now }
    {
        write_bytes(
            self.head.words(),
            self.head.len(),
            &self.words,
            code_bits(&self.header),
            out,
        );
    }
}

impl<T: Lane, const D: usize> Reading<T> for Store<T, D> {
    ghost use Rattle.std.specs.Prelude.{List, Bool};
    ghost use Rattle.zf_store.specs.Stored.{Frame, format_of, code_at, frame_of};

    ghost Code = { List Bool };

    ghost Kept = { Frame };

    ghost format = { λ s. format_of s };

    ghost codes = { λ s b. code_at s b };

    ghost kept = { λ s. frame_of s };

    fn blocks(&self) -> u64 {
        self.header.shape.blocks()
    }

    fn block_len(&self) -> usize {
        block_len(self.header.shape.dims())
    }

    fn load(&mut self, b: u64, line: &mut [T]) {
        let bits = rate(&self.header);
        let mut reader = BitReader::new(&self.words, code_bits(&self.header));
        reader.seek(code_place(&self.header, b));
        zf_block::decode_rate(Dims::new(D as u8), bits, &mut reader, line);
    }
}

impl<T: Lane, const D: usize> Backing<T> for Store<T, D> {
    fn store(&mut self, b: u64, line: &[T]) {
        let bits = rate(&self.header);
        let e = self.header.shape.extent(b);
        self.code.clear();
        let d = Dims::new(D as u8);
        zf_block::encode_rate(d, &e, bits, line, &mut self.room, &mut self.code);
        put_run(
            &mut self.words,
            code_place(&self.header, b),
            self.code.words(),
            u64::from(bits),
        );
    }
}

#[cfg(test)]
mod tests {
    use super::*;
    use std::test::Fail;

    // No copy of the values stands beside the codes: after each block was stored, the words are as long as
    // the codes, and what else a store holds is as long as a header, a code and one block.
    #[test]
    fn store_fields(rt: HostRuntime) -> Result<(), Fail> {
        let shape = Shape::new(1, 64, 1, 1, 1).ok().ok_or("a shape")?;
        assert_eq!(rt; shape.dims(), 1);
        let mut store = Store::<i32, 1>::zeros(rt.alloc(), shape, 64)?;
        for b in 0..16 {
            assert_eq!(rt; store.blocks(), 16);
            assert_eq!(rt; store.block_len(), 4);
            store.store(b, &[1, 2, 3, 4]);
        }
        let Store {
            header,
            words,
            room,
            code,
            head,
        } = store;
        let header: Header = header;
        let words: Vec<u64> = words;
        let _room: Scratch<i32> = room;
        let code: BitWriter = code;
        let head: BitWriter = head;
        assert_eq!(rt; header.shape.blocks(), 16);
        assert!(rt; words.len() <= 16);
        assert!(rt; head.len() <= 96);
        assert!(rt; code.len() <= 64);
        Ok(())
    }
}
