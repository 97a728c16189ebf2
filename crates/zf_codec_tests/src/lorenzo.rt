//! Coefficients that another program computed, and blocks that come back.

ghost use Rattle.std.specs.Prelude.{◌≡◌, ◌≤◌, ◌^◌, length};

use std::alloc::{AllocError, Global};
use std::process::Abort;
use std::test::Fail;
use zf_base::{Lane, block_len};
use zf_lorenzo::{forward, inverse};

// Dimensions, and three coefficients of a block, each by its place.
type Row = (u8, &'static [(usize, i128)]);

static NARROW: [Row; 4] = [
    (1, &[(1, 386351693), (2, 1138644992), (3, -714080593)]),
    (2, &[(1, 386351693), (8, -862626888), (15, 1271876612)]),
    (3, &[(1, 386351693), (32, 1400600175), (63, -428081137)]),
    (4, &[(1, 386351693), (128, 513500364), (255, -107)]),
];

static WIDE: [Row; 4] = [
    (
        1,
        &[
            (1, 24262656606797),
            (2, 14848840587264),
            (3, -128690819170641),
        ],
    ),
    (
        2,
        &[
            (1, 24262656606797),
            (8, -92312594719816),
            (15, 1072639289281540),
        ],
    ),
    (
        3,
        &[
            (1, 24262656606797),
            (32, -29582334134673),
            (63, -708201880485873),
        ],
    ),
    (
        4,
        &[
            (1, 24262656606797),
            (128, -207424932059956),
            (255, 11923104091602837),
        ],
    ),
];

// Values that follow no rule, the same each time.
fn fill<T: Lane>(block: &mut [T]) {
    let mut word: u64 = 1;
    for value in block.iter_mut() {
        word = word
            .wrapping_mul(6_364_136_223_846_793_005)
            .wrapping_add(1_442_695_040_888_963_407);
        *value = T::from_word(word >> 16);
    }
}

// Whether a block has these values at these places.
fn has<T: Lane>(block: &[T], expected: &[(usize, i128)]) -> bool {
    for (place, value) in expected {
        if *place >= block.len() || block[*place].to_wide() != *value {
            return false;
        }
    }
    true
}

// Whether the block has these coefficients, and comes back of them.
fn is_there_and_back<T: Lane>(
    d: u8,
    expected: &[(usize, i128)],
    block: &mut [T],
    values: &mut [T],
) -> bool
    requires { (1 ≤ d) × (d ≤ 4) × (length block.old ≡ 4 ^ d) }
{
    fill(block);
    fill(values);
    forward(d, block);
    let found = has(block, expected);
    inverse(d, block);
    found && &*block == &*values
}

fn has_coefficients<T: Lane>(
    alloc: Global,
    d: u8,
    expected: &[(usize, i128)],
) -> Result<bool, AllocError>
    requires { (1 ≤ d) × (d ≤ 4) }
{
    let mut block = vec![in alloc; T::zero(); block_len(d)]?;
    let mut values = vec![in alloc; T::zero(); block_len(d)]?;
    let same = is_there_and_back::<T>(d, expected, &mut block, &mut values);
    drop(values);
    drop(block);
    Ok(same)
}

fn coefficients_are<T: Lane>(
    rt: &impl Abort,
    alloc: Global,
    rows: &[Row],
) -> Result<(), AllocError> {
    for (d, expected) in rows {
        assert!(rt; 1 <= *d && *d <= 4);
        assert!(rt; has_coefficients::<T>(alloc, *d, expected)?);
    }
    Ok(())
}

#[test]
fn coefficients_of_both_types(rt: HostRuntime) -> Result<(), Fail> {
    coefficients_are::<i32>(&rt, rt.alloc(), &NARROW)?;
    coefficients_are::<i64>(&rt, rt.alloc(), &WIDE)?;
    Ok(())
}
