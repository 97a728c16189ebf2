//! The shape of an array: its sizes, and how it is cut into blocks.

ghost use Rattle.std.specs.Prelude.{◌≡◌, ℕ, ◌+◌, ◌-◌, ◌*◌, ◌/◌, ◌%◌, ◌^◌, ◌<◌, ◌≤◌, ◌↔◌, min, List, [], ◌∷◌, length, take, map, slice_index_or, IsTrue, IsOk, IfOk};
ghost use Rattle.std.specs.Result.{result_err};
ghost use Rattle.zf_spec.specs.Grid.{IsShape, max_values, product, grid, blocks, coordinates, extent_of};
ghost use Rattle.zf_base.specs.Positions.{used_axes, with_unused, IsPosition, IsExtent};
ghost use Rattle.zf_base.specs.Shapes.{shape_fault};
ghost use Rattle.zf_base.specs.Places.{block_number, place_of, IsAt};

use crate::position::{Extent, Pos};
use std::marker::Model;
use thiserror::Error;

/// The most values of an array, 1 GiB of int64.
const MAX_VALUES: u64 = 1 << 27;

// The sizes of a block.
const BLOCK: Pos = Pos {
    x: 4,
    y: 4,
    z: 4,
    w: 4,
};

/// Why sizes are no shape.
#[derive(Clone, Copy, Debug, PartialEq, Eq, Error)]
pub enum ShapeFault {
    /// A size is zero.
    #[error("a size is zero")]
    Zero,
    /// A size is more than its field of the header holds: 2^48, 2^24, 2^16 or 2^12 in one to four dimensions.
    #[error("a size is more than its field of a header holds")]
    Field,
    /// There are more than 2^27 values.
    #[error("there are more than 2^27 values")]
    TooLarge,
}

/// The shape of an array of one to four dimensions, seen as the list of its sizes, x first.
#[derive(Clone, Copy, Debug, PartialEq, Eq)]
pub struct Shape {
    dims: u8,
    // those along unused axes are 1
    sizes: Pos,
}

impl Model for Shape {
    ghost use Rattle.std.specs.Prelude.{ℕ, List, length};
    ghost use Rattle.zf_base.specs.Positions.{used_axes, with_unused, IsShapeOf};
    ghost use Rattle.zf_base.specs.Lemmas.{same_from_parts};

    ghost Value = { List ℕ };

    ghost view = { λ s. used_axes s.dims s.sizes };

    ghost invariant = { λ s. IsShapeOf s.dims s.sizes };

    ghost inverse = { λ ns. record { dims = length ns; sizes = with_unused 1 ns } };

    ghost inverse_ok = { λ a h. same_from_parts (λ d sizes. record { dims = d; sizes = sizes }) _ _ _ _
        h.dimension h.unused };
}

impl Shape {
    /// The shape with the first `dims` of these sizes, `dims` from 1 to 4; the others are not looked at.
    ///
    /// `Zero`: one of them is 0. `Field`: one is more than 2^48, 2^24, 2^16 or 2^12 in 1, 2, 3 or 4
    /// dimensions. `TooLarge`: their product is more than 2^27. The first that holds, in this order.
    pub fn new(dims: u8, nx: u64, ny: u64, nz: u64, nw: u64) -> Result<Shape, ShapeFault>
        requires one_at_least { 1 ≤ dims }
        requires four_at_most { dims ≤ 4 }
        ensures shape { IsOk result ↔ IsShape (take dims (nx ∷ ny ∷ nz ∷ nw ∷ [])) }
        ensures sizes { IfOk result (λ shape. shape ≡ take dims (nx ∷ ny ∷ nz ∷ nw ∷ [])) }
        ensures fault { result_err result ≡ shape_fault (take dims (nx ∷ ny ∷ nz ∷ nw ∷ [])) }
    {
        let sizes = Pos {
            x: nx,
            y: ny,
            z: nz,
            w: nw,
        }
        .first_axes(dims, 1);
        if sizes.any_zero() {
            return Err(ShapeFault::Zero);
        }
        if sizes.any_above(most_along_axis(dims)) {
            return Err(ShapeFault::Field);
        }
        if sizes.product() > MAX_VALUES {
            return Err(ShapeFault::TooLarge);
        }
        Ok(Shape { dims, sizes })
    }

    /// The number of dimensions.
    pub fn dims(&self) -> u8
        ensures value { result ≡ length self.now }
        ensures shape { IsShape self.now }
    {
        self.dims
    }

    /// The size along an axis below 4, x being axis 0; 1 along an unused one.
    pub fn size(&self, axis: u8) -> u64
        requires { axis < 4 }
        ensures { result ≡ slice_index_or self.now axis 1 }
    {
        match axis {
            0 => self.sizes.x,
            1 => self.sizes.y,
            2 => self.sizes.z,
            _ => self.sizes.w,
        }
    }

    /// The number of values.
    pub fn values(&self) -> u64
        ensures value { result ≡ product self.now }
        ensures not_zero { 1 ≤ result }
        ensures bound { result ≤ max_values }
    {
        self.sizes.product()
    }

    /// The number of blocks.
    pub fn blocks(&self) -> u64
        ensures value { result ≡ blocks self.now }
        ensures not_zero { 1 ≤ result }
        ensures bound { result ≤ max_values }
    {
        self.grid().product()
    }

    /// Whether a position is one of the array's.
    pub fn contains(&self, p: Pos) -> bool
        ensures { IsTrue result ↔ IsPosition self.now p }
    {
        p.x < self.sizes.x && p.y < self.sizes.y && p.z < self.sizes.z && p.w < self.sizes.w
    }

    /// The number of the block that a position lies in, and its place there. The position is one of the
    /// array's, as `contains` tells.
    ///
    /// Blocks are numbered x fastest, and so are the `4^d` places of a block (Lindstrom 2014).
    #[inline(always)]
    pub fn place(&self, p: Pos) -> (u64, usize)
        requires { IsPosition self.now p }
        ensures block { result.0 ≡ block_number self.now (used_axes (length self.now) p) }
        ensures place { result.1 ≡ place_of (used_axes (length self.now) p) }
        ensures at { IsAt self.now (used_axes (length self.now) p) result.0 result.1 }
    {
        let block = self.grid().raster(&p.block());
        let place = BLOCK.raster(&p.indices());
        (block, place as usize)
    }

    /// As `place`, in an array of `D` dimensions: axes that it does not use cost nothing.
    #[inline(always)]
    pub fn place_in<const D: usize>(&self, p: Pos) -> (u64, usize)
        requires dims { length self.now ≡ D }
        requires position { IsPosition self.now p }
        ensures block { result.0 ≡ block_number self.now (used_axes (length self.now) p) }
        ensures place { result.1 ≡ place_of (used_axes (length self.now) p) }
        ensures at { IsAt self.now (used_axes (length self.now) p) result.0 result.1 }
    {
        let sizes = self.sizes;
        let dims = D as u8;
        let shape = Shape {
            dims,
            sizes: sizes.first_axes(dims, 1),
        };
        shape.place(p.first_axes(dims, 0))
    }

    /// The part of block `b` that lies in the array; `b` is below `blocks`.
    #[inline(always)]
    pub fn extent(&self, b: u64) -> Extent
        requires { b < blocks self.now }
        ensures origin { result.origin
            ≡ with_unused 0 (map (λ c. 4 * c) (coordinates (grid self.now) b)) }
        ensures size { result.size ≡ with_unused 1 (extent_of self.now b) }
        ensures extent { IsExtent (length self.now) result }
        ensures used_size { used_axes (length self.now) result.size ≡ extent_of self.now b }
    {
        let block = self.grid().coordinates(b);
        let origin = Pos {
            x: 4 * block.x,
            y: 4 * block.y,
            z: 4 * block.z,
            w: 4 * block.w,
        };
        let size = Pos {
            x: extent_along(self.sizes.x, origin.x),
            y: extent_along(self.sizes.y, origin.y),
            z: extent_along(self.sizes.z, origin.z),
            w: extent_along(self.sizes.w, origin.w),
        };
        Extent { origin, size }
    }

    // How many blocks there are along each axis.
    #[inline(always)]
    fn grid(&self) -> Pos
        ensures value { result ≡ with_unused 1 (grid self.now) }
        ensures shape { IsShape self.now }
    {
        Pos {
            x: blocks_along(self.sizes.x),
            y: blocks_along(self.sizes.y),
            z: blocks_along(self.sizes.z),
            w: blocks_along(self.sizes.w),
        }
    }
}

// The greatest size that a field of the header holds.
fn most_along_axis(dims: u8) -> u64
    requires one_at_least { 1 ≤ dims }
    requires four_at_most { dims ≤ 4 }
    ensures { result ≡ 2 ^ (48 / dims) }
{
    1 << (48 / dims)
}

// How many blocks there are along an axis of this size.
#[inline(always)]
fn blocks_along(size: u64) -> u64
    ensures { result ≡ (size + 3) / 4 }
{
    size.div_ceil(4)
}

// How many values of a block that begins at `origin` exist along an axis of this size.
#[inline(always)]
fn extent_along(size: u64, origin: u64) -> u64
    requires { origin ≤ size }
    ensures { result ≡ min 4 (size - origin) }
{
    (size - origin).min(4)
}
