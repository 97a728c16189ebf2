//! Block b of an array, out of its raw values.

ghost use Rattle.std.specs.Prelude.{◌↔◌, ◌≡◌, ◌<◌, ◌≤◌, ◌+◌, ◌-◌, ◌*◌, ◌^◌, ◌++◌, min, slice_index_or, length, map, take, drop};
ghost use Rattle.std.specs.Prelude.{IsTrue, pos, replicate};
ghost use Rattle.zf_spec.specs.Grid.{product, grid, blocks, coordinates, extent_of, block_of, fours};
ghost use Rattle.zf_spec.specs.Codes.{existing_values};
ghost use Rattle.zf_spec.specs.Padding.{pad};
ghost use Rattle.zf_base.specs.Positions.{used_axes, with_unused, IsExtent};
ghost use Rattle.zf_pad.specs.Rasters.{IsRaster};

use crate::copies::gather;
use crate::layout::Layout;
use crate::padding::pad;
use zf_base::{Extent, Lane, Pos, Shape};

/// Copies block `b` out of the values of an array, whose layout is at hand, pads it, and answers which part
/// of it exists.
///
/// `layout` is the raw layout of the shape, `values` are all of the array's, and `b` is below the number of
/// blocks. `block` has `4^d` values, x fastest.
#[inline(always)]
pub fn gather_block<T: Lane>(
    layout: &Layout,
    shape: &Shape,
    b: u64,
    values: &[T],
    block: &mut [T],
) -> Extent
    requires raster { IsRaster shape.now layout.now }
    requires in_array { b < blocks shape.now }
    requires all { length values.now ≡ product shape.now }
    requires whole { length block.old ≡ 4 ^ length shape.now }
    ensures block { existing_values (extent_of shape.now b) (map T.value block.new)
        ≡ block_of shape.now (map T.value values.now) b }
    ensures padded { map T.value block.new
        ≡ pad (extent_of shape.now b) (block_of shape.now (map T.value values.now) b) }
    ensures extent { IsExtent (length shape.now) result }
    ensures size { used_axes (length shape.now) result.size ≡ extent_of shape.now b }
{
    let e = part_of(shape, b);
    if shape.dims() == 1 && e.size.x == 4 {
        take_row(values, e.origin.x as usize, block);
        return e;
    }
    // A copy, so that the extent that is answered need not lie in memory.
    let part = e;
    gather(layout, &part, shape.dims(), values, block);
    pad(&part, shape.dims(), block);
    e
}

/// Whether block `b` is whole, of one dimension, and all zeros, without a copy of it.
///
/// `values` are all of the array's, and `b` is below the number of blocks.
#[inline(always)]
pub fn is_row_of_zeros<T: Lane>(shape: &Shape, b: u64, values: &[T]) -> bool
    requires in_array { b < blocks shape.now }
    requires all { length values.now ≡ product shape.now }
    ensures whole { IsTrue result → extent_of shape.now b ≡ fours (length shape.now) }
    ensures zeros { IsTrue result → block_of shape.now (map T.value values.now) b
        ≡ replicate (4 ^ length shape.now) (pos 0) }
    ensures seen { length shape.now ≡ 1 → extent_of shape.now b ≡ fours 1
        → block_of shape.now (map T.value values.now) b ≡ replicate 4 (pos 0) → IsTrue result }
{
    if shape.dims() != 1 {
        return false;
    }
    b < shape.size(0) / 4 && is_row_of(T::zero(), values, (4 * b) as usize)
}

/// Whether the four values from `first` on are this one. All are read before any is looked at, so that they are
/// looked at together.
#[inline(always)]
pub fn is_row_of<T: Lane>(value: T, values: &[T], first: usize) -> bool
    requires within { first + 4 ≤ length values.now }
    ensures { IsTrue result
        ↔ map T.value (take 4 (drop first values.now)) ≡ replicate 4 (T.value value) }
{
    let a = values[first];
    let b = values[first + 1];
    let c = values[first + 2];
    let d = values[first + 3];
    a == value && b == value && c == value && d == value
}

/// Copies the four values from `first` on, which are a whole block of one dimension.
#[inline(always)]
fn take_row<T: Lane>(values: &[T], first: usize, block: &mut [T])
    requires within { first + 4 ≤ length values.now }
    requires whole { length block.old ≡ 4 }
    ensures { block.new ≡ take 4 (drop first values.now) }
{
    // four, so that the copy needs no call
    block[..4].copy_from_slice(&values[first..first + 4]);
}

/// The part of block `b` that lies in the array. Of a block of the first row along x, which all are in one
/// dimension and in a slab of two, no coordinates are divided out.
#[inline(always)]
pub(crate) fn part_of(shape: &Shape, b: u64) -> Extent
    requires { b < blocks shape.now }
    ensures origin { result.origin ≡ with_unused 0 (map (λ c. 4 * c) (coordinates (grid shape.now) b)) }
    ensures size { result.size ≡ with_unused 1 (extent_of shape.now b) }
    ensures extent { IsExtent (length shape.now) result }
    ensures used_size { used_axes (length shape.now) result.size ≡ extent_of shape.now b }
{
    // Known by this call: there are one to four axes.
    let _dims = shape.dims();
    if b < shape.size(0).div_ceil(4) {
        part_of_first_row(shape, b)
    } else {
        shape.extent(b)
    }
}

/// The part of block `b`, which is one of the first row along x.
#[inline(always)]
fn part_of_first_row(shape: &Shape, b: u64) -> Extent
    requires { 4 * b < slice_index_or shape.now 0 1 }
    ensures origin { result.origin ≡ record { x = 4 * b; y = 0; z = 0; w = 0 } }
    ensures size { result.size ≡ record {
      x = min 4 (slice_index_or shape.now 0 1 - 4 * b);
      y = min 4 (slice_index_or shape.now 1 1);
      z = min 4 (slice_index_or shape.now 2 1);
      w = min 4 (slice_index_or shape.now 3 1);
    } }
{
    let row = shape.size(0);
    let first = 4 * b;
    Extent {
        origin: Pos {
            x: first,
            y: 0,
            z: 0,
            w: 0,
        },
        size: Pos {
            x: (row - first).min(4),
            y: shape.size(1).min(4),
            z: shape.size(2).min(4),
            w: shape.size(3).min(4),
        },
    }
}
