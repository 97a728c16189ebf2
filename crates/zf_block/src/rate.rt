//! The code of a block at a fixed rate: each block has as many bits, and its values come back rounded.

ghost use Rattle.std.specs.Prelude.{◌≡◌, ◌≤◌, ◌<◌, ◌^◌, ◌↔◌, min, map, length, take};
ghost use Rattle.std.specs.Prelude.{IsTrue, false, pos, replicate};
ghost use Rattle.zf_spec.specs.Grid.{fours};
ghost use Rattle.zf_spec.specs.Codes.{rate};
ghost use Rattle.zf_spec.specs.Lift.{lift, unlift};
ghost use Rattle.zf_spec.specs.HeldPlanes.{planes_held};
ghost use Rattle.zf_spec.specs.Planes.{code};
ghost use Rattle.zf_spec.specs.Kept.{kept_planes};
ghost use Rattle.zf_spec.specs.ReadPlanes.{first_bits, planes_in};
ghost use Rattle.zf_base.specs.Positions.{used_axes, IsExtent};
ghost use Rattle.zf_bits.specs.Writer.{Appends};
ghost use Rattle.zf_bits.specs.Reader.{rest};
ghost use Rattle.zf_lift.proofs.FirstAlone.{lift-zeros, unlift-zeros};
ghost use Rattle.zf_block.specs.Decoding.{ZerosNext, MovesIf};
ghost use Rattle.zf_block.specs.Block.{AreTopZeros};
ghost use Rattle.zf_block.specs.Held.{IsHeldSize};
ghost use Rattle.zf_block.specs.ReadBlocks.{ReadsRate};

use crate::block_code::BlockCode;
use crate::codec::{decode, encode, encode_part, len_of_zeros, pass_zeros};
use crate::first_code::first_code;
use crate::upper::{reaches_upper, write_upper};
use crate::zero_block::are_zeros;
use crate::{Dims, Scratch};
use zf_base::{Extent, Lane};
use zf_bits::{BitReader, BitWriter, Plane};

/// Appends the first `bits` bits of the block's code, filled with zeros, so that each block takes the same
/// room.
///
/// `block` has `4^d` values, x fastest; those outside `e` are not looked at. `s` is work room. The rates of the
/// format are 1 to 32768. Fixed rate as in Lindstrom 2014.
#[inline(always)]
pub fn encode_rate<T: Lane>(
    d: Dims,
    e: &Extent,
    bits: u32,
    block: &[T],
    s: &mut Scratch<T>,
    out: &mut BitWriter,
)
    requires extent { IsExtent d.count e.now }
    requires block { length block.now ≡ 4 ^ d.count }
    requires fits { bits ≤ out.old.room }
    ensures code { Appends out.old out.new
        (rate T.width bits (used_axes d.count e.now.size) (map T.value block.now)) }
{
    encode_part(&Rate { bits }, d, e, block, s, out);
}

/// [`encode_rate`] of a block that is padded, so that all its values exist, and becomes anything.
#[inline(always)]
pub fn encode_rate_padded<T: Lane>(
    d: Dims,
    bits: u32,
    block: &mut [T],
    s: &mut Scratch<T>,
    out: &mut BitWriter,
)
    requires block { length block.old ≡ 4 ^ d.count }
    requires fits { bits ≤ out.old.room }
    ensures code { Appends out.old out.new (rate T.width bits (fours d.count) (map T.value block.old)) }
{
    encode(&Rate { bits }, d, block, s, out);
}

/// How many bits the code of a block of zeros of `d` dimensions has at this rate: as many as each. All are
/// zero.
#[inline(always)]
pub fn rate_len_of_zeros<T: Lane>(d: Dims, bits: u32) -> u64
    ensures code { rate T.width bits (fours d.count) (replicate (4 ^ d.count) (pos 0))
        ≡ replicate result false }
    ensures fits { result ≤ bits }
{
    len_of_zeros::<Rate, T>(&Rate { bits }, d)
}

/// Passes the code of a block of zeros of `d` dimensions at this rate, where it is seen that one is next, and
/// says so: a bit of each plane is zero, as far as the rate reaches. What fills the code is not looked at.
#[inline(always)]
pub fn pass_rate_zeros<T: Lane>(d: Dims, bits: u32, reader: &mut BitReader<'_>) -> bool
    ensures seen { IsTrue result ↔ ZerosNext bits (min bits T.WIDTH) (rest reader.old) }
    ensures there { IsTrue result → bits ≤ length (rest reader.old) }
    ensures reads { MovesIf result reader.old reader.new
        (ReadsRate T.width d.count bits reader.old reader.new (replicate (4 ^ d.count) (pos 0))) }
{
    pass_zeros::<Rate, T>(&Rate { bits }, d, reader)
}

/// Reads the code of a block of `bits` bits, whatever they are.
///
/// `block` gets `4^d` values, x fastest. A code does not tell which of them exist; at places that do not, the
/// values mean nothing.
#[inline(always)]
pub fn decode_rate<T: Lane>(d: Dims, bits: u32, reader: &mut BitReader<'_>, block: &mut [T])
    requires block { length block.old ≡ 4 ^ d.count }
    requires enough { bits ≤ length (rest reader.old) }
    ensures { ReadsRate T.width d.count bits reader.old reader.new (map T.value block.new) }
{
    decode(&Rate { bits }, d, reader, block).unwrap();
}

/// All planes, as far as so many bits reach.
#[derive(Clone, Copy)]
pub(crate) struct Rate {
    pub(crate) bits: u32,
}

impl<T: Lane> BlockCode<T> for Rate {
    ghost forth = { λ d block. lift T.width d block };

    ghost back = { λ d block. unlift T.width d block };

    ghost code_of = { λ self planes. first_bits self.bits (code planes) };

    ghost keeps_zeros = { λ d dims. lift-zeros T.width d };

    ghost gives_zeros = { λ d dims. unlift-zeros T.width d };

    ghost longest = { λ self size. self.bits };

    ghost planes_at = { λ self size s. kept_planes self.bits (planes_in T.WIDTH size (take self.bits s)) };

    ghost len_at = { λ self size s. self.bits };

    ghost zeros_next = { λ self s. ZerosNext self.bits (min self.bits T.WIDTH) s };

    #[inline(always)]
    fn forward(d: u8, block: &mut [T]) {
        zf_lift::forward(d, block);
    }

    #[inline(always)]
    fn inverse(d: u8, block: &mut [T]) {
        zf_lift::inverse(d, block);
    }

    fn keeps_first(value: T) -> bool {
        zf_lift::keeps_first(value)
    }

    fn inverse_of_first(d: u8, first: T, block: &mut [T]) {
        zf_lift::inverse_of_first(d, first, block);
    }

    fn write<P: Plane>(&self, size: usize, digits: &[u64], planes: &[P], out: &mut BitWriter) {
        // The digits tell at once how many planes at the top are zero.
        let zeros = zf_coef::zero_planes(digits, T::WIDTH);
        write_first(zeros, self.bits, T::WIDTH, size, planes, out);
    }

    #[inline(always)]
    fn write_digits<P: Plane>(
        &self,
        size: usize,
        digits: &mut [u64],
        planes: &mut [P],
        out: &mut BitWriter,
    ) {
        let bits = u64::from(self.bits);
        let width = T::WIDTH;
        let zeros = zf_coef::zero_planes(digits, width);
        // Half as many planes are turned in half the time, and sixteen of many digits in a quarter. Of sixteen
        // digits all 32 planes are turned at once, so that fewer of those save nothing.
        let few = (zeros + 16).min(width);
        if (size > 16 || width == 64) && reaches_upper::<T>(bits, few, digits) {
            write_upper::<T, P>(zeros, bits, few, 16, digits, planes, out);
            return;
        }
        let half = (zeros + 32).min(width);
        if width == 64 && reaches_upper::<T>(bits, half, digits) {
            write_upper::<T, P>(zeros, bits, half, 32, digits, planes, out);
            return;
        }
        zf_coef::planes_of_digits(digits, planes);
        write_first(zeros, self.bits, width, size, planes, out);
    }

    fn read<P: Plane>(
        &self,
        size: usize,
        word: u64,
        reader: &mut BitReader<'_>,
        planes: &mut [P],
    ) -> Option<()> {
        let bits = u64::from(self.bits);
        if reader.left() < bits {
            return None;
        }
        let used = zf_planes::read_planes(bits, T::WIDTH, size, reader, planes)?;
        // Bits that the code of the planes leaves are passed too.
        reader.skip(bits - used);
        Some(())
    }

    fn write_four(&self, digits: &[u64; 4], out: &mut BitWriter) {
        let bits = u64::from(self.bits);
        let width = T::WIDTH;
        let zeros = zf_coef::zero_planes(digits, width);
        let used = zf_planes::write_four(zeros, bits, width, width, digits, out);
        out.write_zeros_reserved(bits - used);
    }

    fn read_four(
        &self,
        word: u64,
        reader: &mut BitReader<'_>,
        digits: &mut [u64; 4],
    ) -> Option<()> {
        let bits = u64::from(self.bits);
        if reader.left() < bits {
            return None;
        }
        let width = T::WIDTH;
        let used = zf_planes::read_four(bits, width, width, reader, digits)?;
        reader.skip(bits - used);
        Some(())
    }

    fn pass_zeros(&self, d: Dims, word: u64, reader: &mut BitReader<'_>) -> bool {
        let bits = u64::from(self.bits);
        if bits <= reader.left() && are_zeros(self.bits.min(T::WIDTH), word, reader) {
            reader.skip(bits);
            return true;
        }
        false
    }

    #[inline(always)]
    fn read_first(&self, d: Dims, word: u64, reader: &mut BitReader<'_>) -> Option<u64> {
        let bits = u64::from(self.bits);
        let first = first_code(T::WIDTH, word, reader)?;
        if bits < first.len || reader.left() < bits {
            return None;
        }
        reader.skip(bits);
        Some(first.digits)
    }

    fn len_of_zeros(&self, d: Dims) -> u64 {
        u64::from(self.bits)
    }
}

/// Appends the first `bits` bits of the code of planes, filled with zeros. The top `zeros` planes have no one.
#[inline(always)]
fn write_first<P: Plane>(
    zeros: u32,
    bits: u32,
    count: u32,
    size: usize,
    planes: &[P],
    out: &mut BitWriter,
)
    requires size { IsHeldSize size P.word_count }
    requires planes { length planes.now ≡ count }
    requires few { count ≤ 64 }
    requires fits { bits ≤ out.old.room }
    requires zeros { AreTopZeros zeros count size (planes_held size (map P.words planes.now)) }
    ensures { Appends out.old out.new (first_bits bits (code (planes_held size (map P.words planes.now)))) }
{
    let bits = u64::from(bits);
    let written = zf_planes::write_planes_below(zeros, bits, count, size, planes, out);
    out.write_zeros_reserved(bits - written);
}
