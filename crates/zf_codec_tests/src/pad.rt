//! Values from a program that was written from the definitions alone.

ghost use Rattle.std.specs.Prelude.{◌≡◌, ◌<◌, ◌^◌, length};
ghost use Rattle.zf_spec.specs.Grid.{product, blocks};

use std::alloc::{AllocError, Global};
use std::process::Abort;
use std::test::Fail;
use zf_base::{Lane, Shape, block_len};
use zf_pad::{Layout, gather, gather_block, pad, scatter};

// A number that tells lists of values apart.
fn fingerprint<T: Lane>(values: &[T]) -> u64 {
    let mut number = 0u64;
    for value in values {
        number = number.wrapping_mul(31).wrapping_add(value.to_word());
    }
    number
}

// Makes the values 1, 2, 3 and so on.
fn count_up<T: Lane>(values: &mut [T]) {
    let mut next = 1;
    for value in values.iter_mut() {
        *value = T::from_word(next);
        next = next.wrapping_add(1);
    }
}

fn clear<T: Lane>(values: &mut [T]) {
    for value in values.iter_mut() {
        *value = T::zero();
    }
}

// Of the values 1, 2, 3 and so on: the fingerprints of a block that is gathered and then padded, of the block
// that one call gathers and pads, and of the array that has only this block.
fn read_and_write<T: Lane>(
    shape: &Shape,
    b: u64,
    values: &mut [T],
    block: &mut [T],
) -> (u64, u64, u64)
    requires in_array { b < blocks shape.now }
    requires all { length values.old ≡ product shape.now }
    requires whole { length block.old ≡ 4 ^ length shape.now }
{
    count_up(values);
    let layout = Layout::raster(shape);
    let e = shape.extent(b);
    gather(&layout, &e, shape.dims(), values, block);
    pad(&e, shape.dims(), block);
    let padded = fingerprint(block);
    clear(block);
    let _part = gather_block(&layout, shape, b, values, block);
    clear(values);
    scatter(&layout, &e, shape.dims(), block, values);
    (padded, fingerprint(block), fingerprint(values))
}

// Dimensions and sizes, a block, and its two fingerprints.
static ROWS: [(u8, [u64; 4], u64, (u64, u64)); 5] = [
    (1, [7, 0, 0, 0], 1, (154943, 4998)),
    (2, [6, 5, 0, 0], 3, (10846086369289120896, 929)),
    (
        3,
        [5, 6, 7, 0],
        7,
        (5982492492223064064, 4960290229875241967),
    ),
    (
        4,
        [3, 5, 2, 2],
        1,
        (6263765449728665536, 6887019888090080478),
    ),
    (
        4,
        [5, 6, 3, 2],
        3,
        (6170715016839032832, 7533390554244184542),
    ),
];

// The fingerprints of a block of an array.
fn fingerprints_of<T: Lane>(
    alloc: Global,
    shape: &Shape,
    b: u64,
) -> Result<(u64, u64, u64), AllocError>
    requires { b < blocks shape.now }
{
    let mut values = vec![in alloc; T::zero(); shape.values() as usize]?;
    let mut block = vec![in alloc; T::zero(); block_len(shape.dims())]?;
    let found = read_and_write::<T>(shape, b, &mut values, &mut block);
    drop(block);
    drop(values);
    Ok(found)
}

// The shape of an array.
fn shape_of(rt: &impl Abort, dims: u8, [x, y, z, w]: [u64; 4]) -> Shape {
    assert!(rt; 1 <= dims && dims <= 4);
    let Ok(shape) = Shape::new(dims, x, y, z, w) else {
        panic!(rt; "no shape");
    };
    shape
}

fn fingerprints_are<T: Lane>(
    rt: &impl Abort,
    alloc: Global,
    rows: &[(u8, [u64; 4], u64, (u64, u64))],
) -> Result<(), AllocError> {
    for (dims, sizes, b, fingerprints) in rows {
        let shape = shape_of(rt, *dims, *sizes);
        assert!(rt; *b < shape.blocks());
        let (block, values) = *fingerprints;
        assert!(rt; fingerprints_of::<T>(alloc, &shape, *b)? == (block, block, values));
    }
    Ok(())
}

#[test]
fn blocks_are_read_padded_and_written(rt: HostRuntime) -> Result<(), Fail> {
    fingerprints_are::<i32>(&rt, rt.alloc(), &ROWS)?;
    fingerprints_are::<i64>(&rt, rt.alloc(), &ROWS)?;
    Ok(())
}
