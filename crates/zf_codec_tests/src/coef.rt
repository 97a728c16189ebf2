//! Values of the format's tables, and of a program that computes the definitions digit by digit.

ghost use Rattle.std.specs.Prelude.{◌≤◌, length};

use std::process::Abort;
use zf_base::Lane;
use zf_coef::{
    digits_of_planes, from_digits, from_planes, needed_planes, order, planes_of_digits, ranked,
    to_digits, to_planes, unranked, zero_planes,
};

// Dimensions, and the places of the first 16 ranks.
static ORDERS: [(u8, &[u8]); 4] = [
    (1, &[0, 1, 2, 3]),
    (2, &[0, 1, 4, 5, 2, 8, 6, 9, 3, 12, 10, 7, 13, 11, 14, 15]),
    (3, &[0, 1, 4, 16, 5, 17, 20, 2, 8, 32, 21, 6, 18, 9, 33, 24]),
    (
        4,
        &[0, 1, 4, 16, 64, 5, 17, 65, 20, 68, 80, 2, 8, 32, 128, 21],
    ),
];

fn have_places(rt: &impl Abort, rows: &[(u8, &[u8])]) {
    for (d, places) in rows {
        assert!(rt; 1 <= *d && *d <= 4);
        let all = order(*d);
        assert!(rt; &all[..all.len().min(16)] == *places);
    }
}

#[test]
fn ranks_have_their_places(rt: HostRuntime) {
    have_places(&rt, &ORDERS);
}

// Values and their digits.
static NARROW: [(i32, u64); 6] = [
    (1, 1),
    (-1, 3),
    (2, 6),
    (3, 7),
    (i32::MIN, 0x8000_0000),
    (-1073741824, 0xc000_0000),
];

static WIDE: [(i64, u64); 4] = [
    (1, 1),
    (-1, 3),
    (i64::MIN, 0x8000_0000_0000_0000),
    (i64::MAX, 0x8000_0000_0000_0003),
];

fn digits_are<T: Lane>(rt: &impl Abort, rows: &[(T, u64)]) {
    for (v, digits) in rows {
        assert!(rt; to_digits(*v) == *digits && from_digits::<T>(*digits) == *v);
    }
}

#[test]
fn values_have_their_digits(rt: HostRuntime) {
    digits_are(&rt, &NARROW);
    digits_are(&rt, &WIDE);
}

// A block of two dimensions, its digits by rank, and its lowest six planes, each in a word.
static BLOCK: [i32; 16] = [-8, -7, -6, -5, -4, -3, -2, -1, 0, 1, 2, 3, 4, 5, 6, 7];

static DIGITS: [u64; 16] = [8, 9, 12, 13, 14, 0, 2, 1, 15, 4, 6, 3, 5, 7, 26, 27];

static LOW_PLANES: [[u64; 4]; 6] = [
    [47498, 0, 0, 0],
    [60752, 0, 0, 0],
    [14108, 0, 0, 0],
    [49439, 0, 0, 0],
    [49152, 0, 0, 0],
    [0, 0, 0, 0],
];

fn ranked_digits(block: &[i32; 16]) -> [u64; 16] {
    let mut digits = [0; 16];
    ranked::<i32>(2, block, &mut digits);
    digits
}

fn unranked_values(digits: &[u64; 16]) -> [i32; 16] {
    let mut block = [0; 16];
    unranked::<i32>(2, digits, &mut block);
    block
}

fn planes_of(digits: &[u64; 16]) -> [[u64; 4]; 32] {
    let mut planes = [[1; 4]; 32];
    to_planes(digits, &mut planes);
    planes
}

fn digits_in(planes: &[[u64; 4]; 32]) -> [u64; 16] {
    let mut digits = [1; 16];
    from_planes(planes, &mut digits);
    digits
}

#[test]
fn planes_hold_a_block(rt: HostRuntime) {
    let digits = ranked_digits(&BLOCK);
    assert!(rt; digits == DIGITS && unranked_values(&digits) == BLOCK);
    let planes = planes_of(&digits);
    assert!(rt; digits_in(&planes) == digits && &planes[..6] == LOW_PLANES.as_slice());
}

// The definitions' plain program: the planes by their digits.
fn planes_by_digits(digits: &[u64]) -> [[u64; 4]; 64] {
    let mut planes = [[0; 4]; 64];
    for (rank, digit) in digits.iter().enumerate() {
        for k in 0..64 {
            if rank < 256 {
                planes[k][rank / 64] |= ((digit >> k) % 2) << (rank % 64);
            }
        }
    }
    planes
}

// Digits that follow no rule, the same each time, of the planes that the mask has.
fn digits_of(planes: usize, mask: u64) -> [u64; 256] {
    let mut digits = [0; 256];
    let mut word: u64 = 1;
    for digit in digits.iter_mut() {
        word = word
            .wrapping_mul(6_364_136_223_846_793_005)
            .wrapping_add(1_442_695_040_888_963_407);
        let all = if planes == 64 {
            word.rotate_left(32)
        } else {
            word >> 32
        };
        *digit = all & mask;
    }
    digits
}

// Whether the digits of so many planes are transposed as the plain program does it, and come back.
fn are_as_the_plain(count: usize, size: usize) -> bool
    requires { (count ≤ 64) × (size ≤ 256) }
{
    let all = digits_of(count, u64::MAX);
    let digits = &all[..size];
    let plain = planes_by_digits(digits);
    let mut planes = [[7; 4]; 64];
    to_planes(digits, &mut planes[..count]);
    let mut again = [7; 256];
    from_planes(&planes[..count], &mut again[..size]);
    &planes[..count] == &plain[..count] && &again[..size] == digits
}

// How many planes there are, and how many digits.
static PLANE_COUNTS: [usize; 2] = [32, 64];

static SIZES: [usize; 8] = [0, 1, 3, 4, 15, 16, 17, 64];

static LARGE_SIZES: [usize; 2] = [255, 256];

// The same for each number of planes and of digits.
fn all_are_as_the_plain(rt: &impl Abort, counts: &[usize], sizes: &[usize]) {
    for count in counts {
        for size in sizes {
            assert!(rt; *count <= 64 && *size <= 256 && are_as_the_plain(*count, *size));
        }
    }
}

#[test]
fn kernels_are_the_plain_program(rt: HostRuntime) {
    all_are_as_the_plain(&rt, &PLANE_COUNTS, &SIZES);
    all_are_as_the_plain(&rt, &PLANE_COUNTS, &LARGE_SIZES);
}

// Whether planes are the first words of others.
fn are_first_words(planes: &[u64], others: &[[u64; 4]; 64]) -> bool
    requires { length planes.now ≤ 64 }
{
    let mut same = true;
    for k in 0..planes.len() {
        same &= planes[k] == others[k][0];
    }
    same
}

// The same as `are_as_the_plain`, where one word a plane is enough, and only the planes of a mask have ones.
fn words_are_as_the_plain(count: usize, size: usize, mask: u64) -> bool
    requires { (count ≤ 64) × (size ≤ 64) }
{
    let all = digits_of(count, mask);
    let digits = &all[..size];
    let plain = planes_by_digits(digits);
    let mut planes = [7; 64];
    planes_of_digits(digits, &mut planes[..count]);
    let mut again = [7; 64];
    digits_of_planes(&planes[..count], &mut again[..size]);
    are_first_words(&planes[..count], &plain) && &again[..size] == digits
}

// Masks: all planes, none, 32 from a multiple of sixteen on, and two that no 32 beside one another have.
static WITH_ONES: [u64; 6] = [
    u64::MAX,
    0,
    0x0000_0000_ffff_ffff,
    0x0000_ffff_ffff_0000,
    0xffff_ffff_0000_0000,
    0x0000_8000_0000_8000,
];

fn all_words_are_as_the_plain(rt: &impl Abort, counts: &[usize], sizes: &[usize], masks: &[u64]) {
    for count in counts {
        for size in sizes {
            for mask in masks {
                assert!(rt;
                    *count <= 64 && *size <= 64 && words_are_as_the_plain(*count, *size, *mask)
                );
            }
        }
    }
}

#[test]
fn kernels_of_a_word_are_the_plain_program(rt: HostRuntime) {
    all_words_are_as_the_plain(&rt, &PLANE_COUNTS, &SIZES, &WITH_ONES);
}

// Digits, the width, how many planes are needed, those above the lowest digit that any coefficient has, and
// how many are zero above the greatest one.
static NEEDED: [(&[u64], u32, u32, u32); 6] = [
    (&[], 32, 0, 32),
    (&[0, 0, 0, 0], 32, 0, 32),
    (&[0, 1, 0, 0], 32, 32, 31),
    (&[0x8000_0000, 0, 0xc000_0000, 0], 32, 2, 0),
    (&[0x8000_0000_0000_0000, 0, 0, 0], 64, 1, 0),
    (&[12, 8, 0, 24], 64, 62, 59),
];

fn are_needed(rt: &impl Abort, rows: &[(&[u64], u32, u32, u32)]) {
    for (digits, width, needed, zeros) in rows {
        assert!(rt; 0 < *width && *width <= 64);
        assert!(rt;
            zero_planes(digits, *width) == *zeros && needed_planes(digits, *width) == *needed
        );
    }
}

#[test]
fn planes_are_needed_down_to_the_lowest_digit(rt: HostRuntime) {
    are_needed(&rt, &NEEDED);
}
