//! The format's table of lines, and whole blocks against a program that was written from the definitions
//! alone.

ghost use Rattle.std.specs.Prelude.{◌≡◌, ◌≤◌, ◌^◌, length};

use std::alloc::{AllocError, Global};
use std::process::Abort;
use std::test::Fail;
use zf_base::{Lane, block_len};
use zf_lift::{forward, inverse};

// Lines, their coefficients, and the lines that come back.
static LINES: [([i32; 4], [i32; 4], [i32; 4]); 3] = [
    ([1, 0, 0, 0], [0, 0, 0, 0], [0, 0, 0, 0]),
    ([1, 2, 3, 4], [2, -1, 0, 0], [0, 2, 2, 4]),
    ([3, 3, 3, 3], [3, 0, 0, 0], [3, 3, 3, 3]),
];

fn forth(mut line: [i32; 4]) -> [i32; 4] {
    forward(1, &mut line);
    line
}

fn back(mut line: [i32; 4]) -> [i32; 4] {
    inverse(1, &mut line);
    line
}

fn lines_are(rt: &impl Abort, rows: &[([i32; 4], [i32; 4], [i32; 4])]) {
    for (line, coefficients, again) in rows {
        assert!(rt; forth(*line) == *coefficients && back(*coefficients) == *again);
    }
}

#[test]
fn lines_of_the_table(rt: HostRuntime) {
    lines_are(&rt, &LINES);
}

// Values that follow no rule, the same each time, some of them at the ends of `i32` and near those of `i64`.
fn fill<T: Lane>(block: &mut [T]) {
    let mut word: u64 = 1;
    for value in block.iter_mut() {
        word = word
            .wrapping_mul(6_364_136_223_846_793_005)
            .wrapping_add(1_442_695_040_888_963_407);
        *value = T::from_word(match word >> 61 {
            0 => 0x8000_0000_8000_0000,
            1 => 0x7fff_ffff_7fff_ffff,
            _ => word.rotate_left(32),
        });
    }
}

// One number that depends on each value and its place.
fn digest<T: Lane>(block: &[T]) -> u64 {
    let mut sum = 0u64;
    for value in block {
        sum = sum.wrapping_mul(31).wrapping_add(value.to_word());
    }
    sum
}

// Dimensions, and the digests of the block after each way.
static NARROW: [(u8, u64, u64); 4] = [
    (1, 128_371_199_025_199, 122_061_983_533_508),
    (2, 6_908_656_796_595_547_827, 7_693_631_283_423_445_640),
    (3, 13_639_487_891_803_905_035, 504_049_293_128_796_652),
    (4, 11_908_312_305_496_788_509, 9_591_817_008_223_034_392),
];

static WIDE: [(u8, u64, u64); 4] = [
    (1, 18_354_587_802_784_997_423, 13_021_602_853_434_378_692),
    (2, 6_828_868_286_674_529_971, 15_198_572_632_972_296_840),
    (3, 7_308_456_863_750_069_259, 2_859_999_465_286_830_572),
    (4, 17_642_578_726_467_636_765, 18_368_542_163_172_531_224),
];

// The digests of a block after each way.
fn digests<T: Lane>(d: u8, block: &mut [T]) -> (u64, u64)
    requires { (1 ≤ d) × (d ≤ 4) × (length block.old ≡ 4 ^ d) }
{
    fill(block);
    forward(d, block);
    let lifted = digest(block);
    fill(block);
    inverse(d, block);
    (lifted, digest(block))
}

// The same of a block in so many dimensions.
fn digests_of<T: Lane>(alloc: Global, d: u8) -> Result<(u64, u64), AllocError>
    requires { (1 ≤ d) × (d ≤ 4) }
{
    let mut block = vec![in alloc; T::zero(); block_len(d)]?;
    let found = digests::<T>(d, &mut block);
    drop(block);
    Ok(found)
}

fn digests_are<T: Lane>(
    rt: &impl Abort,
    alloc: Global,
    rows: &[(u8, u64, u64)],
) -> Result<(), AllocError> {
    for (d, lifted, unlifted) in rows {
        assert!(rt; 1 <= *d && *d <= 4);
        assert!(rt; digests_of::<T>(alloc, *d)? == (*lifted, *unlifted));
    }
    Ok(())
}

#[test]
fn blocks_of_both_types(rt: HostRuntime) -> Result<(), Fail> {
    digests_are::<i32>(&rt, rt.alloc(), &NARROW)?;
    digests_are::<i64>(&rt, rt.alloc(), &WIDE)?;
    Ok(())
}
