//! Blocks there and back, in each mode: the format's worked rows, and blocks of both types.

ghost use Rattle.std.specs.Prelude.{◌≡◌, ◌^◌, vec_len};

use crate::rows::{Code, FOURS, Line, NARROW, ROWS, Row, WIDE, WIDE_FOURS};
use std::alloc::{AllocError, Global};
use std::marker::Model;
use std::process::Abort;
use std::test::Fail;
use zf_base::{Extent, Lane, Shape, block_len};
use zf_bits::{BitReader, BitWriter};
use zf_block::{
    Dims, Scratch, decode_prec, decode_rate, decode_rev, encode_prec, encode_prec_padded,
    encode_rate, encode_rate_padded, encode_rev, encode_rev_padded, plane_from, whole_planes,
};
use zf_pad::pad;

/// One number that depends on each word and its place; of one word, that word.
fn digest(words: &[u64]) -> u64 {
    let mut sum = 0u64;
    for i in 0..words.len() {
        sum = sum
            .wrapping_mul(31)
            .wrapping_add(words[words.len() - 1 - i]);
    }
    sum
}

/// The same of values.
fn digest_of<T: Lane>(block: &[T]) -> u64 {
    let mut sum = 0u64;
    for i in 0..block.len() {
        let value = block[block.len() - 1 - i];
        sum = sum.wrapping_mul(31).wrapping_add(value.to_word());
    }
    sum
}

fn clear<T: Lane>(block: &mut [T]) {
    for value in block.iter_mut() {
        *value = T::zero();
    }
}

/// The part that exists of the block of an array of one block. Contracts see of how many dimensions.
#[derive(Drop)]
struct Part {
    d: u8,
    e: Extent,
}

impl Model for Part {
    ghost use Rattle.std.specs.Prelude.{ℕ, ◌≤◌};
    ghost use Rattle.zf_base.specs.Positions.{IsExtent};

    ghost Value = { ℕ };

    ghost view = { λ p. p.d };

    ghost invariant = { λ p. (1 ≤ p.d) × (p.d ≤ 4) × IsExtent p.d p.e };
}

/// The part that exists of the block of an array of these sizes.
fn part_of(rt: &impl Abort, dims: u8, sizes: &[u64; 4]) -> Part {
    assert!(rt; 1 <= dims && dims <= 4);
    let [x, y, z, w] = *sizes;
    let Ok(shape) = Shape::new(dims, x, y, z, w) else {
        panic!(rt; "no shape");
    };
    assert!(rt; shape.blocks() == 1);
    Part {
        d: dims,
        e: shape.extent(0),
    }
}

/// A block: the part of it that exists, the values at all places, and the room for its code.
#[derive(Drop)]
struct Block<T: Lane> {
    part: Part,
    values: Vec<T>,
    scratch: Scratch<T>,
    ghost whole: { vec_len values ≡ 4 ^ part },
}

/// A block of zeros, of which this part exists.
fn block_of<T: Lane>(alloc: Global, part: Part) -> Result<Block<T>, AllocError> {
    let values = vec![in alloc; T::zero(); block_len(part.d)]?;
    let scratch = Scratch::new(alloc)?;
    Ok(Block {
        part,
        values,
        scratch,
    })
}

/// Writes the code of a block.
fn write<T: Lane>(
    block: &mut Block<T>,
    code: &Code,
    out: &mut BitWriter,
) -> Result<(), AllocError> {
    match *code {
        Code::Reversible => {
            let Part { d, e } = &block.part;
            encode_rev(Dims::new(*d), e, &block.values, &mut block.scratch, out)
        }
        Code::Rate(bits, _) => {
            // Before the block is touched: where there is no memory, it is as it was.
            out.reserve(u64::from(bits))?;
            let Part { d, e } = &block.part;
            let d = Dims::new(*d);
            encode_rate(d, e, bits, &block.values, &mut block.scratch, out);
            Ok(())
        }
        Code::Precision(prec) => {
            let Part { d, e } = &block.part;
            let d = Dims::new(*d);
            encode_prec(d, e, prec, &block.values, &mut block.scratch, out)
        }
    }
}

/// Writes the code of a block that is padded before, whose values then are anything.
fn write_padded<T: Lane>(
    block: &mut Block<T>,
    code: &Code,
    out: &mut BitWriter,
) -> Result<(), AllocError> {
    let Part { d, e } = block.part;
    pad(&e, d, &mut block.values);
    let d = Dims::new(d);
    match *code {
        Code::Reversible => encode_rev_padded(d, &mut block.values, &mut block.scratch, out),
        Code::Rate(bits, _) => {
            out.reserve(u64::from(bits))?;
            encode_rate_padded(d, bits, &mut block.values, &mut block.scratch, out);
            Ok(())
        }
        Code::Precision(prec) => {
            encode_prec_padded(d, prec, &mut block.values, &mut block.scratch, out)
        }
    }
}

/// Reads the block of a code of so many bits. The answer is whether they were there, and the planes from this
/// one on are whole and no others.
fn read_at_rate<T: Lane>(
    block: &mut Block<T>,
    bits: u32,
    plane: u32,
    reader: &mut BitReader<'_>,
) -> bool {
    if reader.left() < u64::from(bits) {
        return false;
    }
    let d = Dims::new(block.part.d);
    let mut again = reader.another();
    decode_rate(d, bits, reader, &mut block.values);
    has_whole_from::<T>(d, bits, plane, &again)
        && whole_planes(d, bits, &mut again, &mut block.scratch) == plane
        && again.left() == 0
}

/// Whether it is seen of the next bits that the planes from this one on are whole and no others, and no plane
/// is told below the least that is asked for.
fn has_whole_from<T: Lane>(d: Dims, bits: u32, plane: u32, reader: &BitReader<'_>) -> bool {
    if reader.left() < u64::from(bits) {
        return false;
    }
    let above = T::WIDTH.min(plane.saturating_add(1));
    plane_from::<T>(d, 0, bits, reader) == plane && plane_from::<T>(d, above, bits, reader) == above
}

/// Reads the block of a code. The answer is whether the code was there, and no more.
fn read<T: Lane>(block: &mut Block<T>, code: &Code, bits: &BitWriter) -> bool {
    let mut reader = BitReader::new(bits.words(), bits.len());
    let d = Dims::new(block.part.d);
    let found = match *code {
        Code::Reversible => decode_rev(d, &mut reader, &mut block.values).is_some(),
        Code::Rate(bits, plane) => read_at_rate(block, bits, plane, &mut reader),
        Code::Precision(prec) => { decode_prec(d, prec, &mut reader, &mut block.values).is_some() }
    };
    found && reader.left() == 0
}

/// Whether a code has this length and this digest.
fn is_code(out: &BitWriter, len: u64, sum: u64) -> bool {
    out.len() == len && digest(out.words()) == sum
}

/// Whether a block has this code, padded by the call and padded before, and the code is read again.
fn both_ways<T: Lane>(
    alloc: Global,
    block: &mut Block<T>,
    code: &Code,
    len: u64,
    sum: u64,
) -> Result<bool, AllocError> {
    let mut out = BitWriter::new(alloc);
    let mut padded = BitWriter::new(alloc);
    write(block, code, &mut out)?;
    write_padded(block, code, &mut padded)?;
    clear(&mut block.values);
    let same = read(block, code, &out) && is_code(&out, len, sum) && is_code(&padded, len, sum);
    drop(padded);
    drop(out);
    Ok(same)
}

/// Gives a block these values. The answer is whether they are as many as it has.
fn put<T: Lane>(block: &mut Block<T>, values: &[T]) -> bool {
    if block.values.len() != values.len() {
        return false;
    }
    block.values.copy_from_slice(values);
    true
}

/// Whether the block of a line has its code, and comes back as the line says.
fn comes_back<T: Lane>(
    alloc: Global,
    block: &mut Block<T>,
    line: &Line<T>,
) -> Result<bool, AllocError> {
    let (_, values, code, len, sum, back) = line;
    let same = put(block, values) && both_ways(alloc, block, code, *len, *sum)?;
    Ok(same && block.values.as_slice() == back.as_slice())
}

/// The same in a block of its own, of which this part exists.
fn line_is_as_in<T: Lane>(alloc: Global, part: Part, line: &Line<T>) -> Result<bool, AllocError> {
    let mut block = block_of(alloc, part)?;
    let same = comes_back(alloc, &mut block, line);
    drop(block);
    same
}

fn lines_are<T: Lane>(rt: &impl Abort, alloc: Global, rows: &[Line<T>]) -> Result<(), AllocError> {
    for line in rows {
        let part = part_of(rt, 1, &[line.0, 1, 1, 1]);
        assert!(rt; line_is_as_in(alloc, part, line)?);
    }
    Ok(())
}

#[test]
fn rows_of_the_format(rt: HostRuntime) -> Result<(), Fail> {
    lines_are::<i32>(&rt, rt.alloc(), &ROWS)?;
    Ok(())
}

#[test]
fn lines_of_both_types(rt: HostRuntime) -> Result<(), Fail> {
    lines_are::<i32>(&rt, rt.alloc(), &FOURS)?;
    lines_are::<i64>(&rt, rt.alloc(), &WIDE_FOURS)?;
    Ok(())
}

/// Values that follow no rule, the same each time, some of them at the ends of `i32` and near those of `i64`.
fn fill<T: Lane>(block: &mut [T]) {
    let mut word: u64 = 1;
    for value in block.iter_mut() {
        word = word
            .wrapping_mul(6_364_136_223_846_793_005)
            .wrapping_add(1_442_695_040_888_963_407);
        *value = T::from_word(match word >> 61 {
            0 => 0x8000_0000_8000_0000,
            1 => 0x7fff_ffff_7fff_ffff,
            _ => word.rotate_left(32),
        });
    }
}

/// Whether a block has these codes, each length, digest and block that comes back.
fn has_codes<T: Lane>(
    alloc: Global,
    block: &mut Block<T>,
    codes: &[(Code, u64, u64, u64)],
) -> Result<bool, AllocError> {
    for (code, len, sum, back) in codes {
        fill(&mut block.values);
        if !both_ways(alloc, block, code, *len, *sum)? || digest_of(&block.values) != *back {
            return Ok(false);
        }
    }
    Ok(true)
}

/// The same of a block of its own, of which this part exists.
fn is_as_in<T: Lane>(
    alloc: Global,
    part: Part,
    codes: &[(Code, u64, u64, u64)],
) -> Result<bool, AllocError> {
    let mut block = block_of::<T>(alloc, part)?;
    let same = has_codes(alloc, &mut block, codes);
    drop(block);
    same
}

fn are_as_in<T: Lane>(rt: &impl Abort, alloc: Global, rows: &[Row]) -> Result<(), AllocError> {
    for row in rows {
        let part = part_of(rt, row.dims, &row.sizes);
        assert!(rt; is_as_in::<T>(alloc, part, row.codes)?);
    }
    Ok(())
}

#[test]
fn blocks_of_both_types(rt: HostRuntime) -> Result<(), Fail> {
    are_as_in::<i32>(&rt, rt.alloc(), &NARROW)?;
    are_as_in::<i64>(&rt, rt.alloc(), &WIDE)?;
    Ok(())
}
