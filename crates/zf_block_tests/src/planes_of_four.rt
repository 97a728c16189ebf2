//! Codes of four coefficients by a program that computes the definitions digit by digit, what budgets keep of
//! them, and the same by way of planes in words.

ghost use Rattle.std.specs.Prelude.{◌≤◌};

use crate::support::with_room;
use std::alloc::{AllocError, Global};
use std::process::Abort;
use std::test::Fail;
use zf_bits::{BitReader, BitWriter};
use zf_planes::{read_four, read_planes, write_four, write_planes_below};

// The digits of four coefficients, of `width` planes, and the code of the top `prec` planes.
struct Case {
    width: u32,
    prec: u32,
    digits: [u64; 4],
    len: u64,
    code: &'static [u64],
}

static CASES: [Case; 5] = [
    // Small coefficients.
    Case {
        width: 32,
        prec: 32,
        digits: [0x3a51, 0x0c27, 0x0113, 0x001e],
        len: 70,
        code: &[0xaa34_8418_53ac_0000, 0x1f],
    },
    // The last rank never has a one.
    Case {
        width: 32,
        prec: 32,
        digits: [0x9e37_79b9, 0x7f4a_7c15, 0xf39c_c060, 0],
        len: 130,
        code: &[0x4d59_4491_9ccd_d997, 0xc084_d504_408c_cdd0, 0],
    },
    // Bits above the planes, and an odd number of planes.
    Case {
        width: 32,
        prec: 23,
        digits: [
            0xffff_ffff_0000_0700,
            0x0012_0000_0400,
            0x0300,
            0x8000_0000_0000_4200,
        ],
        len: 41,
        code: &[0x01a6_0002_0000],
    },
    // Ones from the top.
    Case {
        width: 64,
        prec: 64,
        digits: [
            0x9e37_79b9_7f4a_7c15,
            0xbf58_476d_1ce4_e5b9,
            0x94d0_49bb_1331_11eb,
            0x2545_f491_4f6c_dd1d,
        ],
        len: 259,
        code: &[
            0x8c93_8f25_1f9b_d03f,
            0xa13e_b96b_952c_cfc4,
            0x0d4a_7596_eddb_8c87,
            0xa4f5_b237_05ce_9dd2,
            7,
        ],
    },
    // More planes than two strings have, and not all.
    Case {
        width: 64,
        prec: 37,
        digits: [0x02b9_92dd_fa23, 0x0001_4d3c_77f0, 0x3100_0000, 0x08a0_0000],
        len: 64,
        code: &[0xa562_2e0a_88c0_0000],
    },
];

// A case whose planes a digit has, and whose code has no more of them.
#[derive(Drop)]
struct Four<'a> {
    case: &'a Case,
    ghost in_word: { case.now.width ≤ 64 },
    ghost planes: { case.now.prec ≤ case.now.width },
}

// The planes that the digits of ranks 0 to 3 make.
fn planes_by_digits(digits: &[u64; 4]) -> [u64; 64] {
    let mut planes = [0; 64];
    for k in 0..64 {
        for r in 0..4 {
            planes[k] |= (digits[r] >> k & 1) << r;
        }
    }
    planes
}

// Writes the code of the case, as far as a budget reaches. The answer is whether as many bits were written as
// it says.
fn write(budget: u64, four: &Four<'_>, out: &mut BitWriter) -> bool
    requires room { 512 ≤ out.old.room }
{
    let case = four.case;
    write_four(0, budget, case.prec, case.width, &case.digits, out) == out.len()
}

// The same by way of planes in words.
fn write_as_planes(budget: u64, four: &Four<'_>, out: &mut BitWriter) -> bool
    requires room { 512 ≤ out.old.room }
{
    let case = four.case;
    let planes = planes_by_digits(&case.digits);
    let used = &planes[..case.width as usize];
    write_planes_below(0, budget, case.prec, 4, used, out) == out.len()
}

// Whether a code is the first bits of another.
fn begins(part: &BitWriter, whole: &BitWriter) -> bool {
    let mut read = BitReader::new(part.words(), part.len());
    let mut all = BitReader::new(whole.words(), whole.len());
    let mut same = true;
    for _ in 0..part.len() {
        same &= read.read_bit() == all.read_bit();
    }
    same
}

static BUDGETS: [u64; 12] = [0, 1, 17, 31, 40, 63, 64, 65, 129, 200, 258, 259];

// Whether a budget keeps the first bits of the whole code, and the same by way of planes.
fn keeps_a_part(
    alloc: Global,
    budget: u64,
    four: &Four<'_>,
    all: &BitWriter,
) -> Result<bool, AllocError> {
    let mut part = with_room(alloc, 512)?;
    let mut by_planes = with_room(alloc, 512)?;
    let same = write(budget, four, &mut part)
        && write_as_planes(budget, four, &mut by_planes)
        && begins(&part, all)
        && part.len() == all.len().min(budget)
        && by_planes.words() == part.words();
    drop(by_planes);
    drop(part);
    Ok(same)
}

// The same of each budget.
fn all_keep_a_part(alloc: Global, four: &Four<'_>, all: &BitWriter) -> Result<bool, AllocError> {
    let mut same = true;
    for budget in BUDGETS.iter() {
        same &= keeps_a_part(alloc, *budget, four, all)?;
    }
    Ok(same)
}

// Whether a digit has so many planes, the digits have their code, and each budget keeps what it reaches.
fn have_their_code(alloc: Global, case: &Case) -> Result<bool, AllocError> {
    if case.width > 64 || case.prec > case.width {
        return Ok(false);
    }
    let four = Four { case };
    let mut all = with_room(alloc, 512)?;
    let same = write(400, &four, &mut all) && all.len() == case.len && all.words() == case.code;
    let parts = all_keep_a_part(alloc, &four, &all);
    drop(all);
    Ok(same && parts?)
}

fn all_have_their_code(rt: &impl Abort, alloc: Global, cases: &[Case]) -> Result<(), AllocError> {
    for case in cases {
        assert!(rt; have_their_code(alloc, case)?);
    }
    Ok(())
}

#[test]
fn digits_have_the_code_of_their_planes(rt: HostRuntime) -> Result<(), Fail> {
    all_have_their_code(&rt, rt.alloc(), &CASES)?;
    Ok(())
}

// Of digits whose top 28 planes are zeros: budgets, and the length and the bits of the code.
static BELOW_ZEROS: [(u64, u64, u64); 3] = [
    (100, 45, 0x1314_7000_0000),
    (40, 40, 0x0014_7000_0000),
    (20, 20, 0),
];

// Whether the code of the digits has so many bits, and these.
fn has_bits(alloc: Global, budget: u64, len: u64, bits: u64) -> Result<bool, AllocError> {
    let mut code = with_room(alloc, 512)?;
    let count = write_four(28, budget, 32, 32, &[9, 4, 0, 15], &mut code);
    let same = count == len && code.words() == [bits].as_slice();
    drop(code);
    Ok(same)
}

#[test]
fn planes_of_zeros_are_known(rt: HostRuntime) -> Result<(), Fail> {
    for (budget, len, bits) in BELOW_ZEROS.iter() {
        assert!(rt; has_bits(rt.alloc(), *budget, *len, *bits)?);
    }
    Ok(())
}

// The digits of four coefficients in twelve planes, and their code.
const CODE: u64 = 0x006d_b07a_2e83;

const CODE_LEN: u64 = 40;

// What budgets keep of them.
static KEPT: [(u64, [u64; 4]); 12] = [
    (0, [0, 0, 0, 0]),
    (1, [0x800, 0, 0, 0]),
    (4, [0x800, 0, 0, 0]),
    (9, [0x900, 0, 0, 0]),
    (15, [0x9c0, 0x080, 0, 0]),
    (18, [0x9c0, 0x0a0, 0, 0]),
    (22, [0x9d0, 0x0b0, 0x010, 0]),
    (30, [0x9d4, 0x0b4, 0x010, 0]),
    (33, [0x9d6, 0x0b4, 0x010, 4]),
    (36, [0x9d6, 0x0b4, 0x012, 6]),
    (40, [0x9d6, 0x0b5, 0x013, 6]),
    (50, [0x9d6, 0x0b5, 0x013, 6]),
];

// Whether these digits come back in so many planes, the twelve and more below them.
fn come_back(budget: u64, width: u32, digits: &[u64; 4]) -> bool
    requires { (12 ≤ width) × (width ≤ 64) }
{
    let mut reader = BitReader::new(&[CODE], CODE_LEN);
    let mut again = [u64::MAX; 4];
    let count = read_four(budget, 12, width, &mut reader, &mut again);
    let [a, b, c, d] = *digits;
    let low = width - 12;
    count == Some(reader.at())
        && reader.at() == budget.min(CODE_LEN)
        && again == [a << low, b << low, c << low, d << low]
}

#[test]
fn budgets_keep_digits(rt: HostRuntime) {
    for (budget, digits) in KEPT.iter() {
        assert!(rt; come_back(*budget, 12, digits) && come_back(*budget, 64, digits));
    }
}

// Each list of bits is a code. These begin with many zeros, with ones, and with both.
static CODES: [[u64; 3]; 4] = [
    [0, 0x9e37_79b9_7f4a_7c15, 0xf39c_c060_5ced_c834],
    [u64::MAX, 0x0000_ffff_0000_1248, 0],
    [
        0x1082_7636_3b0d_e2c4,
        0x2f5a_9c01_8d3e_7b46,
        0x60c1_d2e3_f405_1627,
    ],
    [
        0x8000_0000_0400_0080,
        0x0123_4567_89ab_cdef,
        0x5555_aaaa_3333_cccc,
    ],
];

// The digits of ranks 0 to 3 that 32 planes hold.
fn digits_in(planes: &[u64; 32]) -> [u64; 4] {
    let mut digits = [0; 4];
    for k in 0..32 {
        for r in 0..4 {
            digits[r] |= (planes[k] >> r & 1) << k;
        }
    }
    digits
}

// Whether a code of which so many bits are there is read into digits as it is into planes.
fn is_read_as_planes(budget: u64, prec: u32, code: &[u64; 3], bits: u64) -> bool
    requires planes { prec ≤ 32 }
    requires bits { bits ≤ 192 }
{
    let mut reader = BitReader::new(code, bits);
    let mut planes = [0; 32];
    let count = read_planes(budget, prec, 4, &mut reader, &mut planes);
    let mut again = BitReader::new(code, bits);
    let mut digits = [u64::MAX; 4];
    let found = read_four(budget, prec, 32, &mut again, &mut digits);
    let same = if count.is_some() {
        digits == digits_in(&planes)
    } else {
        again.at() == 0
    };
    same && found == count && again.at() == reader.at()
}

#[test]
fn digits_are_those_of_planes(rt: HostRuntime) {
    for code in CODES.iter() {
        for prec in [0, 1, 5, 17, 32] {
            for budget in 0..170 {
                assert!(rt; is_read_as_planes(budget, prec, code, 192));
            }
        }
        for bits in 0..150 {
            assert!(rt; is_read_as_planes(64, 32, code, bits));
            assert!(rt; is_read_as_planes(1000, 32, code, bits));
        }
    }
}
