//! The one way from a block to its code and back, whichever code it is.

ghost use Rattle.std.specs.Prelude.{◌≡◌, ◌≤◌, ◌^◌, ◌↔◌, IsTrue, false, pos, map, length, replicate};
ghost use Rattle.zf_spec.specs.Codes as codes;
ghost use Rattle.zf_bits.specs.Writer.{Appends};
ghost use Rattle.zf_spec.specs.Padding.{pad};
ghost use Rattle.zf_base.specs.Positions.{used_axes};
ghost use Rattle.zf_base.specs.WholeBlocks.{IsBlockOf};
ghost use Rattle.zf_block.specs.Block.{IsPart, IsWide};
ghost use Rattle.zf_block.specs.Held.{IsHeldSize, IsWorkRoom, AreBlank};
ghost use Rattle.zf_bits.specs.Reader.{rest};
ghost use Rattle.zf_block.specs.Passing.{HasNext};
ghost use Rattle.zf_block.specs.Decoding.{Decodes, PassesCode, MovesIf, StandsFor};

use crate::ahead::look;
use crate::block_code::BlockCode;
use crate::coefficients::{from_digits, from_planes, is_all, to_digits, to_planes_of_first};
use crate::{Dims, Scratch};
use zf_base::{Extent, Lane};
use zf_bits::{BitReader, BitWriter, Plane};

/// Appends the code of a block in room that is there already. The block is padded, and becomes anything.
#[inline(always)]
pub(crate) fn encode<C: BlockCode<T>, T: Lane>(
    code: &C,
    d: Dims,
    block: &mut [T],
    s: &mut Scratch<T>,
    out: &mut BitWriter,
)
    requires block { length block.old ≡ 4 ^ d.count }
    requires fits { C.longest code.now (4 ^ d.count) ≤ out.old.room }
    ensures { Appends out.old out.new
        (C.code_of code.now (codes.planes T.width d.count (C.forth d.count (map T.value block.old)))) }
{
    if is_all(T::zero(), block) {
        out.write_zeros_reserved(len_of_zeros::<C, T>(code, d));
    } else if d.count == 1 {
        write_row(code, &mut block[..4], out);
    } else {
        encode_any(code, d, block, s, out);
    }
}

/// Appends the code of a block of which the extent `e` exists, by way of a padded copy.
#[inline(always)]
pub(crate) fn encode_part<C: BlockCode<T>, T: Lane>(
    code: &C,
    d: Dims,
    e: &Extent,
    block: &[T],
    s: &mut Scratch<T>,
    out: &mut BitWriter,
)
    requires part { IsPart d.count e.now block.now }
    requires fits { C.longest code.now (4 ^ d.count) ≤ out.old.room }
    ensures { Appends out.old out.new (C.code_of code.now (codes.planes T.width d.count
        (C.forth d.count (pad (used_axes d.count e.now.size) (map T.value block.now))))) }
{
    // Each arm has room of a known size, which is faster where it is small.
    match d.count {
        1 => encode_copy(code, d, e, block, &mut [T::zero(); 4], s, out),
        2 => encode_copy(code, d, e, block, &mut [T::zero(); 16], s, out),
        3 => encode_copy(code, d, e, block, &mut [T::zero(); 64], s, out),
        _ => encode_copy(code, d, e, block, &mut [T::zero(); 256], s, out),
    }
}

/// Appends that code by way of this room for the copy.
#[inline(always)]
fn encode_copy<C: BlockCode<T>, T: Lane>(
    code: &C,
    d: Dims,
    e: &Extent,
    block: &[T],
    padded: &mut [T],
    s: &mut Scratch<T>,
    out: &mut BitWriter,
)
    requires part { IsPart d.count e.now block.now }
    requires copy { length padded.old ≡ 4 ^ d.count }
    requires fits { C.longest code.now (4 ^ d.count) ≤ out.old.room }
    ensures { Appends out.old out.new (C.code_of code.now (codes.planes T.width d.count
        (C.forth d.count (pad (used_axes d.count e.now.size) (map T.value block.now))))) }
{
    // As many as there is room for, so that a copy into an array of a known length needs no call.
    let size = padded.len();
    padded.copy_from_slice(&block[..size]);
    zf_pad::pad(e, d.count, padded);
    encode(code, d, padded, s, out);
}

/// Appends the code of a block of more than one dimension without a look for zeros. It stands apart, so that
/// a block of zeros enters no large function.
#[inline(never)]
fn encode_any<C: BlockCode<T>, T: Lane>(
    code: &C,
    d: Dims,
    block: &mut [T],
    s: &mut Scratch<T>,
    out: &mut BitWriter,
)
    requires block { IsWide d.count block.old }
    requires fits { C.longest code.now (4 ^ d.count) ≤ out.old.room }
    ensures { Appends out.old out.new
        (C.code_of code.now (codes.planes T.width d.count (C.forth d.count (map T.value block.old)))) }
{
    // Planes of up to 64 coefficients lie in one word each. Each arm says its number of dimensions and of
    // values as numbers, so that what it calls is compiled for these.
    match d.count {
        2 => write_block(code, 2, &mut block[..16], &mut [0; 16], &mut s.planes, out),
        3 => write_block(code, 3, &mut block[..64], &mut s.digits, &mut s.planes, out),
        _ => write_block(
            code,
            4,
            &mut block[..256],
            &mut s.wide_digits,
            &mut s.wide_planes,
            out,
        ),
    }
}

/// Appends the code of a block of one dimension, straight from the digits of its coefficients.
#[inline(never)]
fn write_row<C: BlockCode<T>, T: Lane>(code: &C, block: &mut [T], out: &mut BitWriter)
    requires block { IsBlockOf 1 block.old }
    requires fits { C.longest code.now 4 ≤ out.old.room }
    ensures { Appends out.old out.new
        (C.code_of code.now (codes.planes T.width 1 (C.forth 1 (map T.value block.old)))) }
{
    let mut digits = [0; 4];
    C::forward(1, block);
    to_digits(1, block, &mut digits);
    code.write_four(&digits, out);
}

/// Appends the code of a block, in whose place its coefficients come, by way of these digits and planes.
#[inline(always)]
fn write_block<C: BlockCode<T>, T: Lane, P: Plane>(
    code: &C,
    d: u8,
    block: &mut [T],
    digits: &mut [u64],
    planes: &mut [P],
    out: &mut BitWriter,
)
    requires block { IsBlockOf d block.old }
    requires room { IsWorkRoom (4 ^ d) P.word_count T.WIDTH digits.old planes.old }
    requires fits { C.longest code.now (4 ^ d) ≤ out.old.room }
    ensures { Appends out.old out.new
        (C.code_of code.now (codes.planes T.width d (C.forth d (map T.value block.old)))) }
{
    let size = block.len();
    let first = block[0];
    // A block of one value needs no transform.
    if is_all(first, block) && C::keeps_first(first) {
        to_planes_of_first(d, first, digits, planes);
        code.write(size, digits, planes, out);
        return;
    }
    C::forward(d, block);
    to_digits(d, block, digits);
    code.write_digits(size, digits, planes, out);
}

/// How many bits the code of a block of zeros has, as where a field is empty. All are zero.
#[inline(always)]
pub(crate) fn len_of_zeros<C: BlockCode<T>, T: Lane>(code: &C, d: Dims) -> u64
    ensures code { C.code_of code.now (codes.planes T.width d.count
        (C.forth d.count (replicate (4 ^ d.count) (pos 0)))) ≡ replicate result false }
    ensures fits { result ≤ C.longest code.now (4 ^ d.count) }
{
    code.len_of_zeros(d)
}

/// Passes the code of a block of zeros, where it is seen that one is next, and says so.
#[inline(always)]
pub(crate) fn pass_zeros<C: BlockCode<T>, T: Lane>(
    code: &C,
    d: Dims,
    reader: &mut BitReader<'_>,
) -> bool
    ensures seen { IsTrue result ↔ C.zeros_next code.now (rest reader.old) }
    ensures passes { MovesIf result reader.old reader.new
        (PassesCode (C.len_at code.now (4 ^ d.count) (rest reader.old)) reader.old reader.new) }
    ensures zeros { IsTrue result → StandsFor T.width d.count (C.back d.count)
        (C.planes_at code.now (4 ^ d.count)) (replicate (4 ^ d.count) (pos 0)) (rest reader.old) }
{
    code.pass_zeros(d, look(reader), reader)
}

/// Reads the code of a block, or answers `None` where the bits end before it does.
#[inline(always)]
pub(crate) fn decode<C: BlockCode<T>, T: Lane>(
    code: &C,
    d: Dims,
    reader: &mut BitReader<'_>,
    block: &mut [T],
) -> Option<()>
    requires block { length block.old ≡ 4 ^ d.count }
    ensures { Decodes (C.len_at code.now (4 ^ d.count))
        (StandsFor T.width d.count (C.back d.count) (C.planes_at code.now (4 ^ d.count))
        (map T.value block.new)) result reader.old reader.new }
{
    // One look tells which kind of block is next.
    let word = look(reader);
    if d.count == 1 {
        return read_row(code, d, word, reader, block);
    }
    if code.pass_zeros(d, word, reader) {
        C::inverse_of_first(d.count, T::zero(), block);
        return Some(());
    }
    // A block of one value needs neither planes nor a transform.
    if let Some(digits) = code.read_first(d, word, reader) {
        C::inverse_of_first(d.count, zf_coef::from_digits(digits), block);
        return Some(());
    }
    read_any(code, d, word, reader, block)
}

/// Reads the code of a block of more than one dimension, whatever its planes are.
#[inline(always)]
fn read_any<C: BlockCode<T>, T: Lane>(
    code: &C,
    d: Dims,
    word: u64,
    reader: &mut BitReader<'_>,
    block: &mut [T],
) -> Option<()>
    requires next { HasNext word (rest reader.old) }
    requires block { IsWide d.count block.old }
    ensures { Decodes (C.len_at code.now (4 ^ d.count))
        (StandsFor T.width d.count (C.back d.count) (C.planes_at code.now (4 ^ d.count))
        (map T.value block.new)) result reader.old reader.new }
{
    // Planes of up to 64 coefficients lie in one word each, and no more are cleared than the values have
    // digits. Each arm says its number of dimensions.
    let width = T::WIDTH;
    if width == 32 {
        match d.count {
            2 => read_block::<C, T, u64, 16>(code, 2, word, reader, block, &mut [0; 32]),
            3 => read_block::<C, T, u64, 64>(code, 3, word, reader, block, &mut [0; 32]),
            _ => read_block::<C, T, [u64; 4], 256>(code, 4, word, reader, block, &mut [[0; 4]; 32]),
        }
    } else {
        match d.count {
            2 => read_block::<C, T, u64, 16>(code, 2, word, reader, block, &mut [0; 64]),
            3 => read_block::<C, T, u64, 64>(code, 3, word, reader, block, &mut [0; 64]),
            _ => read_block::<C, T, [u64; 4], 256>(code, 4, word, reader, block, &mut [[0; 4]; 64]),
        }
    }
}

/// Reads the code of a block of one dimension, straight into the digits of its coefficients.
#[inline(always)]
fn read_row<C: BlockCode<T>, T: Lane>(
    code: &C,
    d: Dims,
    word: u64,
    reader: &mut BitReader<'_>,
    block: &mut [T],
) -> Option<()>
    requires size { 4 ≡ 4 ^ d.count }
    requires next { HasNext word (rest reader.old) }
    requires block { length block.old ≡ 4 ^ d.count }
    ensures { Decodes (C.len_at code.now (4 ^ d.count))
        (StandsFor T.width d.count (C.back d.count) (C.planes_at code.now (4 ^ d.count))
        (map T.value block.new)) result reader.old reader.new }
{
    if code.pass_zeros(d, word, reader) {
        let mut zeros = [T::zero(); 4];
        C::inverse_of_first(d.count, T::zero(), &mut zeros);
        put_four(&zeros, block);
        return Some(());
    }
    let mut digits = [0; 4];
    code.read_four(word, reader, &mut digits)?;
    from_digits(d.count, &digits, block);
    C::inverse(d.count, block);
    Some(())
}

/// Copies four values, which are a whole block. Their number is known, so it needs no call.
#[inline(always)]
fn put_four<T: Lane>(four: &[T; 4], block: &mut [T])
    requires { length block.old ≡ 4 }
    ensures { block.new ≡ four.now }
{
    block[..4].copy_from_slice(four);
}

/// Reads the code of a block by way of these planes, which are zero.
#[inline(always)]
fn read_block<C: BlockCode<T>, T: Lane, P: Plane, const N: usize>(
    code: &C,
    d: u8,
    word: u64,
    reader: &mut BitReader<'_>,
    block: &mut [T],
    planes: &mut [P],
) -> Option<()>
    requires size { N ≡ 4 ^ d }
    requires held { IsHeldSize N P.word_count }
    requires next { HasNext word (rest reader.old) }
    requires block { IsBlockOf d block.old }
    requires blank { AreBlank T.WIDTH P.word_count P.words planes.old }
    ensures { Decodes (C.len_at code.now (4 ^ d))
        (StandsFor T.width d (C.back d) (C.planes_at code.now (4 ^ d)) (map T.value block.new))
        result reader.old reader.new }
{
    code.read(N, word, reader, planes)?;
    // They stand here, behind the reading, so that no block clears those of another size.
    let mut digits = [0; N];
    from_planes(d, planes, &mut digits, block);
    C::inverse(d, block);
    Some(())
}
