//! The values of an array in the order of blocks: of each block those that exist, and the blocks in order.
//! They grow block by block, so no room is written for blocks that are not there yet.

ghost use Rattle.std.specs.Prelude.{◌≡◌, ◌⊎◌, ◌+◌, ◌-◌, ◌*◌, ◌/◌, ◌%◌, ◌^◌, ◌<◌, ◌≤◌, ◌++◌, min, ℕ, true};
ghost use Rattle.std.specs.Prelude.{pos, length, map, take, drop, replicate, slice_index_or, vec_len};
ghost use Rattle.std.specs.Prelude.{vec_capacity, IfSome};
ghost use Rattle.std.specs.Int.{byte_len};
ghost use Rattle.zf_spec.specs.Grid.{product, blocks, extent_of, max_values};
ghost use Rattle.zf_spec.specs.Stream.{raw};
ghost use Rattle.zf_base.specs.Positions.{used_axes, IsExtent};
ghost use Rattle.zf_pad.specs.Stored.{HasWholeBlocks, AppendsBlock, raster_of, line_len, other_sizes};
ghost use Rattle.zf_pad.specs.Copies.{IsRunCopied};
ghost use Rattle.zf_pad.specs.Stored.{IsFirst, IsKnown, LinePart, PartFits, AreFourLines, FourFit};
ghost use Rattle.zf_pad.specs.Stored.{StayBefore, values_in};

use crate::array_block::part_of;
use crate::copies::scatter;
use crate::layout::Layout;
use crate::padding::is_whole;
use crate::raw::{put_raw_at, put_row, value_len};
use zf_base::{Extent, Lane, Pos, Shape};

/// Whether no size of an array cuts a block.
#[tactic(auto, using(crate::proofs::Appended::all_divide, crate::proofs::Appended::divides_at))]
pub fn has_whole_blocks(shape: &Shape) -> bool
    ensures whole { result ≡ true → HasWholeBlocks shape.now }
    ensures cut { HasWholeBlocks shape.now → result ≡ true }
{
    for axis in 0..shape.dims() {
        if shape.size(axis) % 4 != 0 {
            return false;
        }
    }
    true
}

/// Puts the values that exist of block `b` behind those of the blocks before it.
///
/// `block` has `4^d` values, x fastest; those at places that do not exist are not looked at. The room was
/// taken before, so there is no want of memory.
pub fn append_block<T: Lane>(shape: &Shape, b: u64, block: &[T], stored: &mut Vec<T>)
    requires in_array { b < blocks shape.now }
    requires whole { length block.now ≡ 4 ^ length shape.now }
    requires room { vec_len stored.old + product (extent_of shape.now b) ≤ vec_capacity stored.old }
    ensures block { AppendsBlock (extent_of shape.now b)
        (map T.value block.now) (map T.value stored.old.items) (map T.value stored.new.items) }
    ensures capacity { vec_capacity stored.old ≤ vec_capacity stored.new }
{
    let d = shape.dims();
    let e = part_of(shape, b);
    if is_whole(&e.size, d) {
        append_whole(d, block, stored);
    } else {
        append_part(&e, d, block, stored);
    }
}

// Appends all values of a block.
#[inline(always)]
fn append_whole<T: Lane>(d: u8, block: &[T], stored: &mut Vec<T>)
    requires whole { length block.now ≡ 4 ^ d }
    requires room { vec_len stored.old + length block.now ≤ vec_capacity stored.old }
    ensures items { stored.new.items ≡ stored.old.items ++ block.now }
    ensures capacity { vec_capacity stored.old ≤ vec_capacity stored.new }
{
    // Where there are few, their number is said, so that the copy needs no call.
    match d {
        1 => append(&block[..4], stored),
        2 => append(&block[..16], stored),
        _ => append(block, stored),
    }
}

// Appends values to a list that has room for them.
#[inline(always)]
fn append<T: Lane>(values: &[T], stored: &mut Vec<T>)
    requires room { vec_len stored.old + length values.now ≤ vec_capacity stored.old }
    ensures items { stored.new.items ≡ stored.old.items ++ values.now }
    ensures capacity { vec_capacity stored.old ≤ vec_capacity stored.new }
{
    match stored.extend_from_slice(values) {
        Ok(()) => {}
        Err(_) => unreachable!(),
    }
}

// Appends the values of a block that exist, x fastest.
fn append_part<T: Lane>(e: &Extent, d: u8, block: &[T], stored: &mut Vec<T>)
    requires four_at_most { d ≤ 4 }
    requires extent { IsExtent d e.now }
    requires whole { length block.now ≡ 4 ^ d }
    requires room { vec_len stored.old + product (used_axes d e.now.size) ≤ vec_capacity stored.old }
    ensures block { AppendsBlock (used_axes d e.now.size)
        (map T.value block.now) (map T.value stored.old.items) (map T.value stored.new.items) }
    ensures capacity { vec_capacity stored.old ≤ vec_capacity stored.new }
{
    let Pos { x, y, z, w } = e.size;
    // The box of the values that exist, behind those that are there.
    let layout = Layout {
        start: stored.len() as u64,
        step: Pos {
            x: 1,
            y: x,
            z: x * y,
            w: x * y * z,
        },
    };
    let part = Extent {
        origin: Pos {
            x: 0,
            y: 0,
            z: 0,
            w: 0,
        },
        size: e.size,
    };
    grow((x * y * z * w) as usize, stored);
    scatter(&layout, &part, d, block, stored);
}

// Appends so many zeros to a list that has room for them.
fn grow<T: Lane>(count: usize, stored: &mut Vec<T>)
    requires room { vec_len stored.old + count ≤ vec_capacity stored.old }
    ensures len { vec_len stored.new ≡ vec_len stored.old + count }
    ensures prefix { take (vec_len stored.old) stored.new.items ≡ stored.old.items }
    ensures capacity { vec_capacity stored.old ≤ vec_capacity stored.new }
{
    let all = stored.len() + count;
    match stored.resize(all, T::zero()) {
        Ok(()) => {}
        Err(_) => unreachable!(),
    }
}

/// Copies values of an array that are kept in the order of blocks to the start of `piece`, as raw bytes in
/// raster order, from raster number `from` on, and answers how many values. At least one is copied, and as
/// many as fit, but for three at most.
///
/// `stored` are all of the array's. `from` is the first of its block along x, and so is what comes next.
pub fn copy_lines<T: Lane>(shape: &Shape, stored: &[T], from: u64, piece: &mut [u8]) -> usize
    requires all { product shape.now ≤ length stored.now }
    requires within { from < product shape.now }
    requires first { IsFirst shape.now from }
    requires room { 4 * byte_len T.width ≤ length piece.old }
    ensures some { 1 ≤ result }
    ensures most { (from + result ≡ product shape.now) ⊎ (length piece.old / byte_len T.width < result + 4) }
    ensures room { result * byte_len T.width ≤ length piece.new }
    ensures within { from + result ≤ product shape.now }
    ensures first { IsFirst shape.now (from + result) }
    ensures values { take (result * byte_len T.width) piece.new
        ≡ raw T.width (take result (drop from (raster_of shape.now (map T.value stored.now)))) }
{
    // tells that the sizes are a shape's, so lines end within the values
    let _dims = shape.dims();
    let n = shape.size(0);
    let left = (shape.values() - from) as usize;
    let room = piece.len() / value_len::<T>();
    let mut known = known_line(shape, from / n);
    let mut held = 0;
    while held < left && held + 4 <= room {
        held += copy_next(shape, stored, from + held as u64, held, &mut known, piece);
    }
    held
}

// Copies what comes next to the places from `to` on, and answers how many: four whole lines of one layer of
// blocks, where there are and no block of theirs is cut, or else values of one line.
fn copy_next<T: Lane>(
    shape: &Shape,
    stored: &[T],
    from: u64,
    to: usize,
    known: &mut Known,
    piece: &mut [u8],
) -> usize
    requires all { product shape.now ≤ length stored.now }
    requires known { IsKnown (other_sizes shape.now) known.old }
    requires within { from < product shape.now }
    requires first { IsFirst shape.now from }
    requires room { to + 4 ≤ length piece.old / byte_len T.width }
    ensures some { 1 ≤ result }
    ensures room { to + result ≤ length piece.new / byte_len T.width }
    ensures within { from + result ≤ product shape.now }
    ensures first { IsFirst shape.now (from + result) }
    ensures before { StayBefore to (values_in T.width piece.old) (values_in T.width piece.new) }
    ensures values { (i : ℕ) → i < result → slice_index_or (values_in T.width piece.new) (to + i) (pos 0)
        ≡ slice_index_or (raster_of shape.now (map T.value stored.now)) (from + i) (pos 0) }
    ensures known { IsKnown (other_sizes shape.now) known.new }
{
    // tells that the sizes are a shape's, so lines end within the values
    let _dims = shape.dims();
    let n = shape.size(0);
    let room = piece.len() / value_len::<T>() - to;
    if n <= (room / 4) as u64 {
        if let Some(Line { first, lines, line }) = four_lines(shape, n, from, known) {
            let start = n * first + 4 * line;
            copy_four(
                stored,
                start as usize,
                4 * lines as usize,
                to,
                n as usize,
                piece,
            );
            return 4 * n as usize;
        }
    }
    let count = next_count(n - from % n, room);
    copy_line(shape, stored, from, to, count, known, piece);
    count
}

// The first line of a layer of blocks that has four, where this value is its first, and no block of theirs is
// cut. Their values are `n`. `known` becomes that line, if any.
#[tactic(auto, using(crate::proofs::StoredLines::line_below))]
#[inline]
fn four_lines(shape: &Shape, n: u64, from: u64, known: &mut Known) -> Option<Line>
    requires size { n ≡ line_len shape.now }
    requires known { IsKnown (other_sizes shape.now) known.old }
    requires within { from < product shape.now }
    ensures four { IfSome result (λ l. AreFourLines shape.now from n l.first l.lines l.line) }
    ensures fits { IfSome result (λ l. FourFit shape.now from n l.first l.lines l.line) }
    ensures known { IsKnown (other_sizes shape.now) known.new }
{
    if from % n != 0 || n % 4 != 0 {
        return None;
    }
    // tells that the sizes are a shape's, so their products fit
    let _dims = shape.dims();
    *known = line_after(shape, known, from / n);
    if known.left < 3 {
        return None;
    }
    Some(known.line)
}

// Copies four whole lines of so many values, of which each block has the first values of four beside one
// another, and the blocks so far behind one another.
#[inline]
fn copy_four<T: Lane>(stored: &[T], from: usize, step: usize, to: usize, n: usize, piece: &mut [u8])
    requires whole { n % 4 ≡ 0 }
    requires there { (b : ℕ) → b < n / 4 → from + b * step + 16 ≤ length stored.now }
    requires small { from + n / 4 * step < 2 ^ 64 }
    requires room { to + 4 * n ≤ length piece.old / byte_len T.width }
    ensures before { StayBefore to (values_in T.width piece.old) (values_in T.width piece.new) }
    ensures rows { (j b k : ℕ) → j < 4 → b < n / 4 → k < 4
        → slice_index_or (values_in T.width piece.new) (to + (j * n + (4 * b + k))) (pos 0)
        ≡ slice_index_or (map T.value stored.now) (from + 4 * j + b * step + k) (pos 0) }
{
    let mut at = from;
    for b in 0..n / 4 {
        let to = to + 4 * b;
        put_row(stored, at, piece, to);
        put_row(stored, at + 4, piece, to + n);
        put_row(stored, at + 8, piece, to + 2 * n);
        put_row(stored, at + 12, piece, to + 3 * n);
        at += step;
    }
}

// How many values of a line are copied at once: all that are left of it, or as many whole blocks as there is
// room for.
fn next_count(left: u64, room: usize) -> usize
    requires some { 1 ≤ left }
    requires room { 4 ≤ room }
    ensures some { 1 ≤ result }
    ensures left { result ≤ left }
    ensures room { result ≤ room }
    ensures whole { (result % 4 ≡ 0) ⊎ (result ≡ left) }
{
    let whole = room / 4 * 4;
    if left <= whole as u64 {
        left as usize
    } else {
        whole
    }
}

// Copies values of one line to the places from `to` on: those from raster number `from` on. `known` is a line
// before, and then this one.
fn copy_line<T: Lane>(
    shape: &Shape,
    stored: &[T],
    from: u64,
    to: usize,
    count: usize,
    known: &mut Known,
    piece: &mut [u8],
)
    requires all { product shape.now ≤ length stored.now }
    requires known { IsKnown (other_sizes shape.now) known.old }
    requires within { from < product shape.now }
    requires line { from % line_len shape.now + count ≤ line_len shape.now }
    requires first { IsFirst shape.now from }
    requires whole { (count % 4 ≡ 0) ⊎ (from % line_len shape.now + count ≡ line_len shape.now) }
    requires room { to + count ≤ length piece.old / byte_len T.width }
    ensures before { StayBefore to (values_in T.width piece.old) (values_in T.width piece.new) }
    ensures values { (i : ℕ) → i < count → slice_index_or (values_in T.width piece.new) (to + i) (pos 0)
        ≡ slice_index_or (raster_of shape.now (map T.value stored.now)) (from + i) (pos 0) }
    ensures known { IsKnown (other_sizes shape.now) known.new }
{
    let n = line_at(shape, from, count, known);
    let x = from % n;
    let Line { first, lines, line } = known.line;
    let start = n * first + x * lines;
    let blocks = count / 4;
    let rest = count % 4;
    copy_blocks(
        stored,
        (start + 4 * line) as usize,
        4 * lines as usize,
        to,
        blocks,
        piece,
    );
    // What is left of the line's last block, in which lines are shorter.
    let last = start + (4 * blocks) as u64 * lines + rest as u64 * line;
    put_rest(stored, last as usize, rest, piece, to + 4 * blocks);
}

// Copies so many rows of four, each so far behind the one before, to places beside one another.
#[inline]
fn copy_blocks<T: Lane>(
    stored: &[T],
    from: usize,
    step: usize,
    to: usize,
    blocks: usize,
    piece: &mut [u8],
)
    requires there { (b : ℕ) → b < blocks → from + b * step + 4 ≤ length stored.now }
    requires small { from + blocks * step < 2 ^ 64 }
    requires room { to + 4 * blocks ≤ length piece.old / byte_len T.width }
    ensures before { StayBefore to (values_in T.width piece.old) (values_in T.width piece.new) }
    ensures rows { (b k : ℕ) → b < blocks → k < 4
        → slice_index_or (values_in T.width piece.new) (to + (4 * b + k)) (pos 0)
        ≡ slice_index_or (map T.value stored.now) (from + b * step + k) (pos 0) }
{
    let mut at = from;
    for b in 0..blocks {
        put_row(stored, at, piece, to + 4 * b);
        at += step;
    }
}

// Puts so many values. Mostly there are none, which needs no call.
#[inline]
fn put_rest<T: Lane>(stored: &[T], from: usize, count: usize, piece: &mut [u8], to: usize)
    requires there { from + count ≤ length stored.now }
    requires room { to + count ≤ length piece.old / byte_len T.width }
    ensures { IsRunCopied count from to (map T.value stored.now)
        (values_in T.width piece.old) (values_in T.width piece.new) }
{
    if count == 0 {
        return;
    }
    put_raw_at(stored, from, count, piece, to);
}

// Of a line, the values that differ in x alone: how many lines the layers of blocks before its own have, how
// many its own layer has, and which of them it is.
#[derive(Clone, Copy)]
pub(crate) struct Line {
    pub(crate) first: u64,
    pub(crate) lines: u64,
    pub(crate) line: u64,
}

/// A line with its number, and how many lines behind it lie in the same layer of blocks.
#[derive(Clone, Copy)]
pub(crate) struct Known {
    pub(crate) number: u64,
    pub(crate) line: Line,
    pub(crate) left: u64,
}

// How many values a line has. `known` becomes the line of the value with raster number `from`, of which
// `count` are wanted.
#[tactic(auto, using(crate::proofs::StoredLines::line_below))]
#[inline]
fn line_at(shape: &Shape, from: u64, count: usize, known: &mut Known) -> u64
    requires known { IsKnown (other_sizes shape.now) known.old }
    requires within { from < product shape.now }
    requires line { from % line_len shape.now + count ≤ line_len shape.now }
    requires first { IsFirst shape.now from }
    requires whole { (count % 4 ≡ 0) ⊎ (from % line_len shape.now + count ≡ line_len shape.now) }
    ensures part { LinePart shape.now from count result
        known.new.line.first known.new.line.lines known.new.line.line }
    ensures fits { PartFits (from % result) count result
        known.new.line.first known.new.line.lines known.new.line.line (product shape.now) }
    ensures known { IsKnown (other_sizes shape.now) known.new }
{
    // tells that the sizes are a shape's, so their products fit
    let _dims = shape.dims();
    let n = shape.size(0);
    *known = line_after(shape, known, from / n);
    n
}

// The line with this number. Mostly it is the one behind the line that is known, in the same layer of blocks;
// then nothing is divided out.
#[tactic(auto, using(crate::proofs::StoredLines::others_fit))]
#[inline]
fn line_after(shape: &Shape, known: &Known, number: u64) -> Known
    requires known { IsKnown (other_sizes shape.now) known.now }
    requires below { number < product (other_sizes shape.now) }
    ensures known { IsKnown (other_sizes shape.now) result }
    ensures number { result.number ≡ number }
{
    // tells that the sizes are a shape's, so their products fit
    let _dims = shape.dims();
    if known.number == number {
        return *known;
    }
    if known.left == 0 || known.number + 1 != number {
        return known_line(shape, number);
    }
    let Line { first, lines, line } = known.line;
    Known {
        number,
        line: Line {
            first,
            lines,
            line: line + 1,
        },
        left: known.left - 1,
    }
}

// The line with this number, from nothing.
fn known_line(shape: &Shape, number: u64) -> Known
    requires { number < product (other_sizes shape.now) }
    ensures known { IsKnown (other_sizes shape.now) result }
    ensures number { result.number ≡ number }
{
    // tells that the sizes are a shape's, so their products fit
    let _dims = shape.dims();
    let (ny, nz, nw) = (shape.size(1), shape.size(2), shape.size(3));
    let all = Line {
        first: 0,
        lines: 1,
        line: 0,
    };
    let y = number % ny;
    let z = number / ny % nz;
    let w = number / ny / nz % nw;
    Known {
        number,
        line: along(along(along(all, nw, w), nz, z), ny, y),
        left: (ny - 1 - y).min(3 - y % 4),
    }
}

// The line along one axis more, of `n` positions, at `p`.
fn along(inner: Line, n: u64, p: u64) -> Line
    requires inside { p < n }
    requires below { inner.line < inner.lines }
    requires fits { n * (inner.first + inner.lines) ≤ max_values }
    ensures first { result.first ≡ 4 * (p / 4) * inner.lines + n * inner.first }
    ensures lines { result.lines ≡ min 4 (n - 4 * (p / 4)) * inner.lines }
    ensures line { result.line ≡ p % 4 + min 4 (n - 4 * (p / 4)) * inner.line }
    ensures below { result.line < result.lines }
    ensures fits { result.first + result.lines ≤ n * (inner.first + inner.lines) }
{
    let start = 4 * (p / 4);
    let here = (n - start).min(4);
    Line {
        first: start * inner.lines + n * inner.first,
        lines: here * inner.lines,
        line: p % 4 + here * inner.line,
    }
}
