//! How an array is cut into slabs: some rows along its last axis, which are an array of their own.

ghost use Rattle.std.specs.Prelude.{◌≡◌, ◌≢◌, ◌≤◌, ◌%◌, ◌<◌, length, slice_index_or};
ghost use Rattle.zf_pad.specs.Slabs.{rows_of, with_rows};

use zf_base::Shape;

// The rows of a slab, which are those of one block along the last axis; in one dimension a row is one value.
const ROWS: u64 = 4;

const VALUES: u64 = 4096;

/// The most rows of a slab.
pub(crate) fn most_rows(shape: &Shape) -> u64
    ensures whole { result % 4 ≡ 0 }
    ensures some { 4 ≤ result }
    ensures bound { result ≤ 4096 }
    // More would be held, and of a large shape much more.
    ensures few { length shape.now ≢ 1 → result ≡ 4 }
{
    if shape.dims() == 1 { VALUES } else { ROWS }
}

/// The rows of an array: its size along the last axis.
pub(crate) fn rows_of(shape: &Shape) -> u64
    ensures { result ≡ rows_of shape.now }
{
    shape.size(shape.dims() - 1)
}

/// The shape of so many rows of an array.
pub(crate) fn with_rows(shape: &Shape, rows: u64) -> Shape
    requires some { 1 ≤ rows }
    requires few { rows ≤ rows_of shape.now }
    ensures { result ≡ with_rows rows shape.now }
{
    let found = Shape::new(
        shape.dims(),
        size_with_rows(shape, rows, 0),
        size_with_rows(shape, rows, 1),
        size_with_rows(shape, rows, 2),
        size_with_rows(shape, rows, 3),
    );
    match found {
        Ok(slab) => slab,
        Err(_) => unreachable!(),
    }
}

// Its size along an axis.
fn size_with_rows(shape: &Shape, rows: u64, axis: u8) -> u64
    requires { axis < 4 }
    ensures { result ≡ slice_index_or (with_rows rows shape.now) axis 1 }
{
    if axis + 1 == shape.dims() {
        rows
    } else {
        shape.size(axis)
    }
}
