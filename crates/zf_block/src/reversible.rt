//! The reversible code of a block: its values come back exactly.

ghost use Rattle.std.specs.Prelude.{◌≡◌, ◌≤◌, ◌<◌, ◌+◌, ◌-◌, ◌*◌, ◌^◌, ◌↔◌, max, map, length, take, OnOk};
ghost use Rattle.std.specs.Prelude.{OnErr, IsTrue, false, pos, replicate};
ghost use Rattle.std.specs.Prelude.{◌∷◌, IfNone, IfSome, OnSome};
ghost use Rattle.zf_spec.specs.Grid.{fours};
ghost use Rattle.zf_spec.specs.Numbers.{field, number};
ghost use Rattle.zf_spec.specs.Planes.{planes_of, needed_planes};
ghost use Rattle.zf_coef.specs.HeldDigits.{digits_in};
ghost use Rattle.zf_spec.specs.Codes.{count_bits, rev_of_planes, rev};
ghost use Rattle.zf_spec.specs.Lorenzo.{lorenzo, unlorenzo};
ghost use Rattle.zf_base.specs.Positions.{used_axes, IsExtent};
ghost use Rattle.zf_bits.specs.Writer.{Appends};
ghost use Rattle.zf_bits.specs.Reader.{rest, Reads};
ghost use Rattle.zf_block.specs.Decoding.{LacksBits, ZerosNext, MovesIf, FindsFirst};
ghost use Rattle.zf_block.specs.Passing.{HasNext};
ghost use Rattle.zf_block.specs.Room.{longest_rev};
ghost use Rattle.zf_lorenzo.proofs.FirstAlone.{lorenzo-zeros, unlorenzo-zeros};
ghost use Rattle.zf_block.specs.ReadBlocks.{ReadsRev, LacksRev, rev_planes, rev_len};

use crate::ahead::look;
use crate::block_code::BlockCode;
use crate::codec::{decode, encode, encode_part, len_of_zeros, pass_zeros};
use crate::first_code::{first_code, may_be_counted};
use crate::uncut::{
    read_uncut, read_uncut_four, write_uncut, write_uncut_digits, write_uncut_four, zeros_above,
};
use crate::zero_block::are_zeros;
use crate::{Dims, Scratch};
use std::alloc::AllocError;
use zf_base::{Extent, Lane};
use zf_bits::{BitReader, BitWriter, Plane};

/// Appends the reversible code of a block, from which exactly its values come back.
///
/// `block` has `4^d` values, x fastest; those outside `e` are not looked at. `s` is work room. `AllocError`
/// means that there was no memory for the longest code; room for it can be reserved before. The layout of the
/// code, a count of planes and then the planes, is this project's own.
#[inline(always)]
pub fn encode_rev<T: Lane>(
    d: Dims,
    e: &Extent,
    block: &[T],
    s: &mut Scratch<T>,
    out: &mut BitWriter,
) -> Result<(), AllocError>
    requires extent { IsExtent d.count e.now }
    requires block { length block.now ≡ 4 ^ d.count }
    ensures ok { OnOk result (Appends out.old out.new
        (rev T.width (used_axes d.count e.now.size) (map T.value block.now))) }
    ensures err { OnErr result (out.new ≡ out.old) }
    ensures full { OnErr result (out.old.room < longest_rev T.WIDTH d.count) }
{
    let size = block.len() as u64;
    out.reserve(6 + size * u64::from(T::WIDTH + 1))?;
    encode_part(&Reversible, d, e, block, s, out);
    Ok(())
}

/// [`encode_rev`] of a block that is padded, so that all its values exist, and becomes anything.
#[inline(always)]
pub fn encode_rev_padded<T: Lane>(
    d: Dims,
    block: &mut [T],
    s: &mut Scratch<T>,
    out: &mut BitWriter,
) -> Result<(), AllocError>
    requires block { length block.old ≡ 4 ^ d.count }
    ensures ok { OnOk result (Appends out.old out.new (rev T.width (fours d.count) (map T.value block.old))) }
    ensures err { OnErr result (out.new ≡ out.old) }
    ensures full { OnErr result (out.old.room < longest_rev T.WIDTH d.count) }
{
    let size = block.len() as u64;
    out.reserve(6 + size * u64::from(T::WIDTH + 1))?;
    encode(&Reversible, d, block, s, out);
    Ok(())
}

/// How many bits the reversible code of a block of zeros of `d` dimensions has. All are zero.
#[inline(always)]
pub fn rev_len_of_zeros<T: Lane>(d: Dims) -> u64
    ensures code { rev T.width (fours d.count) (replicate (4 ^ d.count) (pos 0)) ≡ replicate result false }
    ensures fits { result ≤ longest_rev T.WIDTH d.count }
{
    len_of_zeros::<Reversible, T>(&Reversible, d)
}

/// Passes the reversible code of a block of zeros of `d` dimensions, where one is next, and says so: the
/// count of planes less one and the bit of one plane are zero.
#[inline(always)]
pub fn pass_rev_zeros<T: Lane>(d: Dims, reader: &mut BitReader<'_>) -> bool
    ensures seen { IsTrue result
        ↔ ZerosNext (count_bits T.width + 1) (count_bits T.width + 1) (rest reader.old) }
    ensures reads { MovesIf result reader.old reader.new
        (ReadsRev T.width d.count reader.old reader.new (replicate (4 ^ d.count) (pos 0))) }
{
    pass_zeros::<Reversible, T>(&Reversible, d, reader)
}

/// Reads the reversible code of a block. `None` means that the bits end before the code does; then the reader
/// stands where it stood, and the block holds anything.
///
/// `block` gets `4^d` values, x fastest. A code does not tell which of them exist; at places that do not, the
/// values mean nothing.
#[inline(always)]
pub fn decode_rev<T: Lane>(d: Dims, reader: &mut BitReader<'_>, block: &mut [T]) -> Option<()>
    requires block { length block.old ≡ 4 ^ d.count }
    ensures short { IfNone result (LacksRev T.width d.count reader.old) }
    ensures unread { IfNone result (reader.new ≡ reader.old) }
    ensures reads { OnSome result (ReadsRev T.width d.count reader.old reader.new (map T.value block.new)) }
{
    decode(&Reversible, d, reader, block)
}

/// The planes down to the lowest that has a one, behind their count.
#[derive(Clone, Copy)]
struct Reversible;

impl<T: Lane> BlockCode<T> for Reversible {
    ghost forth = { λ d block. lorenzo T.width d block };

    ghost back = { λ d block. unlorenzo T.width d block };

    ghost code_of = { λ self planes. rev_of_planes T.width planes };

    ghost keeps_zeros = { λ d dims. lorenzo-zeros T.width d dims };

    ghost gives_zeros = { λ d dims. unlorenzo-zeros T.width d };

    ghost longest = { λ self size. 6 + size * (T.WIDTH + 1) };

    ghost planes_at = { λ self size s. rev_planes T.width size s };

    ghost len_at = { λ self size s. rev_len T.width size s };

    ghost zeros_next = { λ self s. ZerosNext (count_bits T.width + 1) (count_bits T.width + 1) s };

    #[inline(always)]
    fn forward(d: u8, block: &mut [T]) {
        zf_lorenzo::forward(d, block);
    }

    #[inline(always)]
    fn inverse(d: u8, block: &mut [T]) {
        zf_lorenzo::inverse(d, block);
    }

    fn keeps_first(value: T) -> bool {
        zf_lorenzo::keeps_first(value)
    }

    fn inverse_of_first(d: u8, first: T, block: &mut [T]) {
        zf_lorenzo::inverse_of_first(d, first, block);
    }

    #[inline(always)]
    fn write<P: Plane>(&self, size: usize, digits: &[u64], planes: &[P], out: &mut BitWriter) {
        let prec = write_count::<T>(digits, out);
        let zeros = zeros_above::<T>(prec, digits);
        write_uncut(zeros, prec, size, planes, out);
    }

    #[inline(always)]
    fn write_digits<P: Plane>(
        &self,
        size: usize,
        digits: &mut [u64],
        planes: &mut [P],
        out: &mut BitWriter,
    ) {
        let zeros = zf_coef::zero_planes(digits, T::WIDTH);
        let prec = write_count::<T>(digits, out);
        write_uncut_digits::<T, P>(zeros.min(prec), prec, size, digits, planes, out);
    }

    fn read<P: Plane>(
        &self,
        size: usize,
        word: u64,
        reader: &mut BitReader<'_>,
        planes: &mut [P],
    ) -> Option<()> {
        let start = reader.at();
        // Known by this call: the start is within the bits, so that the reader can go back.
        let _left = reader.left();
        let prec = read_count::<T>(word, reader)?;
        match read_uncut(prec, size, reader, planes) {
            Some(()) => Some(()),
            None => {
                reader.seek(start);
                None
            }
        }
    }

    fn write_four(&self, digits: &[u64; 4], out: &mut BitWriter) {
        let prec = write_count::<T>(digits, out);
        let zeros = zeros_above::<T>(prec, digits);
        write_uncut_four::<T>(zeros, prec, digits, out);
    }

    fn read_four(
        &self,
        word: u64,
        reader: &mut BitReader<'_>,
        digits: &mut [u64; 4],
    ) -> Option<()> {
        let start = reader.at();
        // Known by this call: the start is within the bits, so that the reader can go back.
        let _left = reader.left();
        let prec = read_count::<T>(word, reader)?;
        match read_uncut_four::<T>(prec, reader, digits) {
            Some(()) => Some(()),
            None => {
                reader.seek(start);
                None
            }
        }
    }

    // The count of planes less one, and the bit of one plane.
    fn pass_zeros(&self, d: Dims, word: u64, reader: &mut BitReader<'_>) -> bool {
        let count = count_bits::<T>() + 1;
        if are_zeros(count, word, reader) {
            reader.skip(u64::from(count));
            return true;
        }
        false
    }

    #[inline(always)]
    fn read_first(&self, d: Dims, word: u64, reader: &mut BitReader<'_>) -> Option<u64> {
        if !may_be_counted(count_bits::<T>(), word) {
            return None;
        }
        read_counted::<T>(d, reader)
    }

    // The count of planes less one, and the bit of one plane.
    fn len_of_zeros(&self, d: Dims) -> u64 {
        u64::from(count_bits::<T>() + 1)
    }
}

/// Appends the count of the planes that are needed, at least one, and answers it.
#[inline(always)]
fn write_count<T: Lane>(digits: &[u64], out: &mut BitWriter) -> u32
    requires fits { 6 ≤ out.old.room }
    ensures bits { Appends out.old out.new (field (count_bits T.width) (result - 1)) }
    ensures room { out.old.room ≤ out.new.room + 6 }
    ensures value { result ≡ max 1 (needed_planes (planes_of T.WIDTH (digits_in T.WIDTH digits.now))) }
    ensures within { result ≤ T.WIDTH }
{
    let prec = zf_coef::needed_planes(digits, T::WIDTH).max(1);
    out.write_reserved(u64::from(prec - 1), count_bits::<T>());
    prec
}

/// Reads the count of planes and their code, where the first rank alone has ones in them, and has some. The
/// answer is its digits. It stands apart, so that other blocks do not enter it.
#[inline(never)]
fn read_counted<T: Lane>(d: Dims, reader: &mut BitReader<'_>) -> Option<u64>
    ensures { FindsFirst T.WIDTH (4 ^ d.count) (rev_len T.width (4 ^ d.count))
        (rev_planes T.width (4 ^ d.count)) result reader.old reader.new }
{
    let mut place = reader.another();
    let prec = read_count::<T>(look(&place), &mut place)?;
    let first = first_code(prec, look(&place), &place)?;
    place.skip(first.len);
    *reader = place;
    Some(first.digits << (T::WIDTH - prec))
}

/// Reads the count of planes, or answers `None` where the bits end before it does. The next bits are those of
/// `word`.
#[inline(always)]
fn read_count<T: Lane>(word: u64, reader: &mut BitReader<'_>) -> Option<u32>
    requires next { HasNext word (rest reader.old) }
    ensures none { IfNone result (LacksBits (count_bits T.width) reader.old reader.new) }
    ensures value { IfSome result (λ prec. prec ≡ number (take (count_bits T.width) (rest reader.old)) + 1) }
    ensures within { IfSome result (λ prec. prec ≤ T.WIDTH) }
    ensures reads { IfSome result
        (λ prec. Reads reader.old reader.new (field (count_bits T.width) (prec - 1))) }
{
    let bits = count_bits::<T>();
    if reader.left() < u64::from(bits) {
        return None;
    }
    reader.skip(u64::from(bits));
    Some((word % (1 << bits)) as u32 + 1)
}

/// How many bits hold the count of planes.
fn count_bits<T: Lane>() -> u32
    ensures value { result ≡ count_bits T.width }
    ensures bound { result ≤ 6 }
{
    if T::WIDTH > 32 { 6 } else { 5 }
}
