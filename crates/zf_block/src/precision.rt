//! The code of a block at a fixed precision: its top planes are kept whole, and its values come back rounded.

ghost use Rattle.std.specs.Prelude.{◌≡◌, ◌≤◌, ◌<◌, ◌+◌, ◌*◌, ◌^◌, ◌↔◌, min, map, length, take, OnOk, OnErr};
ghost use Rattle.std.specs.Prelude.{IfNone, OnSome, IsTrue, false, pos, replicate};
ghost use Rattle.zf_spec.specs.Grid.{fours};
ghost use Rattle.zf_spec.specs.Codes as codes;
ghost use Rattle.zf_spec.specs.Lift.{lift, unlift};
ghost use Rattle.zf_spec.specs.Planes.{code};
ghost use Rattle.zf_base.specs.Positions.{used_axes, IsExtent};
ghost use Rattle.zf_bits.specs.Writer.{Appends};
ghost use Rattle.zf_bits.specs.Reader.{rest};
ghost use Rattle.zf_lift.proofs.FirstAlone.{lift-zeros, unlift-zeros};
ghost use Rattle.zf_block.specs.Room.{longest_prec};
ghost use Rattle.zf_block.specs.Decoding.{ZerosNext, MovesIf};
ghost use Rattle.zf_block.specs.ReadBlocks.{ReadsPrec, LacksPrec, prec_planes, prec_len};

use crate::block_code::BlockCode;
use crate::codec::{decode, encode, encode_part, len_of_zeros, pass_zeros};
use crate::first_code::first_code;
use crate::uncut::{
    read_uncut, read_uncut_four, write_uncut, write_uncut_digits, write_uncut_four, zeros_above,
};
use crate::zero_block::are_zeros;
use crate::{Dims, Scratch};
use std::alloc::AllocError;
use zf_base::{Extent, Lane};
use zf_bits::{BitReader, BitWriter, Plane};

/// Appends the code of the block's top `prec` planes, or of all where its type has fewer.
///
/// `block` has `4^d` values, x fastest; those outside `e` are not looked at. `s` is work room. The precisions
/// of the format are 1 to 128. `AllocError` means that there was no memory for the longest code; room for it
/// can be reserved before. zfp's fixed precision (zfp 1.0 documentation).
#[inline(always)]
pub fn encode_prec<T: Lane>(
    d: Dims,
    e: &Extent,
    prec: u32,
    block: &[T],
    s: &mut Scratch<T>,
    out: &mut BitWriter,
) -> Result<(), AllocError>
    requires extent { IsExtent d.count e.now }
    requires block { length block.now ≡ 4 ^ d.count }
    ensures ok { OnOk result (Appends out.old out.new
        (codes.prec T.width prec (used_axes d.count e.now.size) (map T.value block.now))) }
    ensures err { OnErr result (out.new ≡ out.old) }
    ensures full { OnErr result (out.old.room < longest_prec T.WIDTH d.count) }
{
    let size = block.len() as u64;
    out.reserve(size * u64::from(T::WIDTH + 1))?;
    encode_part(&Precision { prec }, d, e, block, s, out);
    Ok(())
}

/// [`encode_prec`] of a block that is padded, so that all its values exist, and becomes anything.
#[inline(always)]
pub fn encode_prec_padded<T: Lane>(
    d: Dims,
    prec: u32,
    block: &mut [T],
    s: &mut Scratch<T>,
    out: &mut BitWriter,
) -> Result<(), AllocError>
    requires block { length block.old ≡ 4 ^ d.count }
    ensures ok { OnOk result (Appends out.old out.new
        (codes.prec T.width prec (fours d.count) (map T.value block.old))) }
    ensures err { OnErr result (out.new ≡ out.old) }
    ensures full { OnErr result (out.old.room < longest_prec T.WIDTH d.count) }
{
    let size = block.len() as u64;
    out.reserve(size * u64::from(T::WIDTH + 1))?;
    encode(&Precision { prec }, d, block, s, out);
    Ok(())
}

/// How many bits the code of a block of zeros of `d` dimensions has at this precision: one a plane. All are
/// zero.
#[inline(always)]
pub fn prec_len_of_zeros<T: Lane>(d: Dims, prec: u32) -> u64
    ensures code { codes.prec T.width prec (fours d.count) (replicate (4 ^ d.count) (pos 0))
        ≡ replicate result false }
    ensures fits { result ≤ longest_prec T.WIDTH d.count }
{
    len_of_zeros::<Precision, T>(&Precision { prec }, d)
}

/// Passes the code of a block of zeros of `d` dimensions at this precision, where one is next, and says so:
/// a bit of each plane is zero.
#[inline(always)]
pub fn pass_prec_zeros<T: Lane>(d: Dims, prec: u32, reader: &mut BitReader<'_>) -> bool
    ensures seen { IsTrue result
        ↔ ZerosNext (min prec T.WIDTH) (min prec T.WIDTH) (rest reader.old) }
    ensures reads { MovesIf result reader.old reader.new
        (ReadsPrec T.width d.count prec reader.old reader.new (replicate (4 ^ d.count) (pos 0))) }
{
    pass_zeros::<Precision, T>(&Precision { prec }, d, reader)
}

/// Reads the code of a block of `prec` planes, or of all where its type has fewer. `None` means that the bits
/// end before the code does; then the reader stands where it stood, and the block holds anything.
///
/// `block` gets `4^d` values, x fastest. A code does not tell which of them exist; at places that do not, the
/// values mean nothing.
#[inline(always)]
pub fn decode_prec<T: Lane>(
    d: Dims,
    prec: u32,
    reader: &mut BitReader<'_>,
    block: &mut [T],
) -> Option<()>
    requires block { length block.old ≡ 4 ^ d.count }
    ensures short { IfNone result (LacksPrec T.width d.count prec reader.old) }
    ensures unread { IfNone result (reader.new ≡ reader.old) }
    ensures reads { OnSome result
        (ReadsPrec T.width d.count prec reader.old reader.new (map T.value block.new)) }
{
    decode(&Precision { prec }, d, reader, block)
}

/// So many planes from the top, or all.
#[derive(Clone, Copy)]
struct Precision {
    prec: u32,
}

impl<T: Lane> BlockCode<T> for Precision {
    ghost forth = { λ d block. lift T.width d block };

    ghost back = { λ d block. unlift T.width d block };

    ghost code_of = { λ self planes. code (take (min self.prec T.WIDTH) planes) };

    ghost keeps_zeros = { λ d dims. lift-zeros T.width d };

    ghost gives_zeros = { λ d dims. unlift-zeros T.width d };

    ghost longest = { λ self size. size * (T.WIDTH + 1) };

    ghost planes_at = { λ self size s. prec_planes T.width self.prec size s };

    ghost len_at = { λ self size s. prec_len T.width self.prec size s };

    ghost zeros_next = { λ self s. ZerosNext (min self.prec T.WIDTH) (min self.prec T.WIDTH) s };

    #[inline(always)]
    fn forward(d: u8, block: &mut [T]) {
        zf_lift::forward(d, block);
    }

    #[inline(always)]
    fn inverse(d: u8, block: &mut [T]) {
        zf_lift::inverse(d, block);
    }

    fn keeps_first(value: T) -> bool {
        zf_lift::keeps_first(value)
    }

    fn inverse_of_first(d: u8, first: T, block: &mut [T]) {
        zf_lift::inverse_of_first(d, first, block);
    }

    #[inline(always)]
    fn write<P: Plane>(&self, size: usize, digits: &[u64], planes: &[P], out: &mut BitWriter) {
        let prec = self.prec.min(T::WIDTH);
        let zeros = zeros_above::<T>(prec, digits);
        write_uncut(zeros, prec, size, planes, out);
    }

    #[inline(always)]
    fn write_digits<P: Plane>(
        &self,
        size: usize,
        digits: &mut [u64],
        planes: &mut [P],
        out: &mut BitWriter,
    ) {
        let prec = self.prec.min(T::WIDTH);
        let zeros = zeros_above::<T>(prec, digits);
        write_uncut_digits::<T, P>(zeros, prec, size, digits, planes, out);
    }

    fn read<P: Plane>(
        &self,
        size: usize,
        word: u64,
        reader: &mut BitReader<'_>,
        planes: &mut [P],
    ) -> Option<()> {
        read_uncut(self.prec.min(T::WIDTH), size, reader, planes)
    }

    fn write_four(&self, digits: &[u64; 4], out: &mut BitWriter) {
        let prec = self.prec.min(T::WIDTH);
        let zeros = zeros_above::<T>(prec, digits);
        write_uncut_four::<T>(zeros, prec, digits, out);
    }

    fn read_four(
        &self,
        word: u64,
        reader: &mut BitReader<'_>,
        digits: &mut [u64; 4],
    ) -> Option<()> {
        read_uncut_four::<T>(self.prec.min(T::WIDTH), reader, digits)
    }

    fn pass_zeros(&self, d: Dims, word: u64, reader: &mut BitReader<'_>) -> bool {
        let prec = self.prec.min(T::WIDTH);
        if are_zeros(prec, word, reader) {
            reader.skip(u64::from(prec));
            return true;
        }
        false
    }

    #[inline(always)]
    fn read_first(&self, d: Dims, word: u64, reader: &mut BitReader<'_>) -> Option<u64> {
        let width = T::WIDTH;
        let prec = self.prec.min(width);
        let first = first_code(prec, word, reader)?;
        reader.skip(first.len);
        Some(first.digits << (width - prec))
    }

    fn len_of_zeros(&self, d: Dims) -> u64 {
        u64::from(self.prec.min(T::WIDTH))
    }
}
