//! Values of the format's table of plane codes, and of a program that computes the definitions digit by
//! digit.

ghost use Rattle.std.specs.Prelude.{◌<◌, ◌≤◌};

use crate::support::with_room;
use std::alloc::{AllocError, Global};
use std::marker::Model;
use std::process::Abort;
use std::test::Fail;
use zf_bits::{BitReader, BitWriter};
use zf_planes::{
    code_len, decode, encode, planes_len, planes_within, read_planes, write_planes_below,
};

// Three planes of a size, each one by plane and rank; where the ones of their code are, of so many bits; the
// ones that each budget keeps; and budgets, and how many whole planes they reach.
struct Case {
    size: usize,
    ones: &'static [(usize, usize)],
    code_len: u64,
    code: &'static [u64],
    kept: &'static [(u64, &'static [(usize, usize)])],
    within: &'static [(u64, u32)],
}

// The codes of the planes of four digits have 5, 4 and 4 bits, and those of the planes of 256 digits 133, 132
// and 203.
static CASES: [Case; 3] = [
    Case {
        size: 4,
        ones: &[(2, 2), (1, 0), (0, 1), (0, 3)],
        code_len: 13,
        code: &[0, 3, 5, 10, 12],
        kept: &[
            (0, &[]),
            (1, &[(2, 0)]),
            (2, &[(2, 1)]),
            (3, &[(2, 2)]),
            (4, &[(2, 2)]),
            (5, &[(2, 2)]),
            (6, &[(2, 2), (1, 0)]),
            (7, &[(2, 2), (1, 0)]),
            (8, &[(2, 2), (1, 0)]),
            (9, &[(2, 2), (1, 0)]),
            (10, &[(2, 2), (1, 0)]),
            (11, &[(2, 2), (1, 0), (0, 1)]),
            (12, &[(2, 2), (1, 0), (0, 1)]),
            (13, &[(2, 2), (1, 0), (0, 1), (0, 3)]),
        ],
        within: &[(0, 0), (4, 0), (5, 1), (8, 1), (9, 2), (12, 2), (13, 3)],
    },
    Case {
        size: 16,
        ones: &[(2, 9), (1, 0), (1, 15), (0, 1), (0, 2), (0, 10)],
        code_len: 44,
        code: &[0, 10, 12, 22, 29, 30, 38],
        kept: &[
            (9, &[(2, 8)]),
            (10, &[(2, 9)]),
            (11, &[(2, 9)]),
            (13, &[(2, 9), (1, 0)]),
            (26, &[(2, 9), (1, 0), (1, 13)]),
            (28, &[(2, 9), (1, 0), (1, 15)]),
            (29, &[(2, 9), (1, 0), (1, 15)]),
            (31, &[(2, 9), (1, 0), (1, 15), (0, 1), (0, 2)]),
            (44, &[(2, 9), (1, 0), (1, 15), (0, 1), (0, 2), (0, 10)]),
        ],
        within: &[],
    },
    Case {
        size: 64,
        ones: &[(1, 40), (0, 0), (0, 1), (0, 2)],
        code_len: 86,
        code: &[1, 42, 44, 45, 46],
        kept: &[
            (1, &[]),
            (2, &[(1, 0)]),
            (41, &[(1, 39)]),
            (42, &[(1, 40)]),
            (43, &[(1, 40)]),
            (46, &[(1, 40), (0, 0), (0, 1)]),
            (85, &[(1, 40), (0, 0), (0, 1), (0, 2)]),
            (86, &[(1, 40), (0, 0), (0, 1), (0, 2)]),
            (90, &[(1, 40), (0, 0), (0, 1), (0, 2)]),
        ],
        within: &[],
    },
];

// Planes of more than a word each.
static LARGE: [Case; 1] = [Case {
    size: 256,
    ones: &[(2, 130), (0, 0), (0, 200)],
    code_len: 468,
    code: &[0, 131, 265, 396, 466],
    kept: &[
        (1, &[(2, 0)]),
        (64, &[(2, 63)]),
        (65, &[(2, 64)]),
        (66, &[(2, 65)]),
        (128, &[(2, 127)]),
        (130, &[(2, 129)]),
        (131, &[(2, 130)]),
        (132, &[(2, 130)]),
        (264, &[(2, 130)]),
        (265, &[(2, 130)]),
        (266, &[(2, 130), (0, 0)]),
        (396, &[(2, 130), (0, 0)]),
        (397, &[(2, 130), (0, 0), (0, 131)]),
        (398, &[(2, 130), (0, 0), (0, 132)]),
        (468, &[(2, 130), (0, 0), (0, 200)]),
    ],
    within: &[
        (132, 0),
        (133, 1),
        (264, 1),
        (265, 2),
        (467, 2),
        (u64::MAX, 3),
    ],
}];

// Each table is named here alone: what a function says of it is proved with each byte, in each of its steps.
fn cases() -> &'static [Case] {
    &CASES
}

fn large_cases() -> &'static [Case] {
    &LARGE
}

fn planes_with(rt: &impl Abort, ones: &[(usize, usize)]) -> [[u64; 4]; 3] {
    let mut planes = [[0; 4]; 3];
    for (k, rank) in ones {
        assert!(rt; *k < 3 && *rank < 256);
        planes[*k][*rank / 64] |= 1 << (*rank % 64);
    }
    planes
}

// Whether the ones of bits are at these places.
fn has_ones(bits: &BitWriter, ones: &[u64]) -> bool {
    let mut reader = BitReader::new(bits.words(), bits.len());
    let mut all = true;
    for at in 0..bits.len() {
        all &= reader.read_bit() == Some(ones.contains(&at));
    }
    all
}

// The planes of a case whose size is one that a block can have.
#[derive(Drop)]
struct Planes<'a> {
    case: &'a Case,
    words: [[u64; 4]; 3],
}

impl<'a> Model for Planes<'a> {
    ghost use Rattle.std.specs.Prelude.{ℕ, ◌≡◌, ◌⊎◌};

    ghost Value = { ℕ };

    ghost view = { λ p. p.case.now.size };

    ghost invariant = { λ p. (p.case.now.size ≡ 4) ⊎ (p.case.now.size ≡ 16) ⊎ (p.case.now.size ≡ 64)
        ⊎ (p.case.now.size ≡ 256) };
}

// The planes of a case; its size is one that a block can have, and their code has as many bits as it says.
fn planes_of<'a>(rt: &impl Abort, case: &'a Case) -> Planes<'a> {
    let words = planes_with(rt, case.ones);
    match case.size {
        4 | 16 | 64 | 256 if code_len(3, case.size, &words) == case.code_len => {
            Planes { case, words }
        }
        _ => panic!(rt; "no size of a block, or a code of another length"),
    }
}

// Whether a code gives back these planes.
fn gives_back(budget: u64, planes: &Planes<'_>, code: &BitWriter, kept: &[[u64; 4]; 3]) -> bool {
    let len = code.len();
    let mut reader = BitReader::new(code.words(), len);
    let mut again = [[u64::MAX; 4]; 4];
    let count = decode(budget, 3, planes.case.size, &mut reader, &mut again);
    count == Some(len) && reader.at() == len && again == [[0; 4], kept[0], kept[1], kept[2]]
}

// Whether a code gives nothing where its last bit is not there.
fn wants_its_last_bit(budget: u64, planes: &Planes<'_>, code: &BitWriter) -> bool {
    let len = code.len();
    if len == 0 {
        return true;
    }
    let mut short = BitReader::new(code.words(), len - 1);
    let mut again = [[0; 4]; 4];
    decode(budget, 3, planes.case.size, &mut short, &mut again).is_none() && short.at() == 0
}

// Whether the planes have their code, as far as a budget reaches, and it gives back what is kept.
fn is_kept(
    alloc: Global,
    budget: u64,
    planes: &Planes<'_>,
    kept: &[[u64; 4]; 3],
) -> Result<bool, AllocError> {
    let case = planes.case;
    let mut code = with_room(alloc, 1024)?;
    let count = encode(budget, 3, case.size, &planes.words, &mut code);
    let is_same = count == case.code_len.min(budget)
        && code.len() == count
        && has_ones(&code, case.code)
        && gives_back(budget, planes, &code, kept)
        && wants_its_last_bit(budget, planes, &code);
    drop(code);
    Ok(is_same)
}

// Writes the planes and reads them again at each budget.
fn are_kept(rt: &impl Abort, alloc: Global, planes: &Planes<'_>) -> Result<(), AllocError> {
    for (budget, ones_kept) in planes.case.kept {
        let kept = planes_with(rt, ones_kept);
        assert!(rt; is_kept(alloc, *budget, planes, &kept)?);
    }
    Ok(())
}

fn all_are_kept(rt: &impl Abort, alloc: Global, cases: &[Case]) -> Result<(), AllocError> {
    for case in cases {
        are_kept(rt, alloc, &planes_of(rt, case))?;
    }
    Ok(())
}

#[test]
fn budgets_keep_what_they_reach(rt: HostRuntime) -> Result<(), Fail> {
    all_are_kept(&rt, rt.alloc(), cases())?;
    all_are_kept(&rt, rt.alloc(), large_cases())?;
    Ok(())
}

// Planes of four digits, and the bits of their codes.
static CODES: [(u64, &[u8]); 5] = [
    (0, b"0"),
    (1, b"110"),
    (4, b"10010"),
    (8, b"1000"),
    (9, b"11100"),
];

// Whether bits are these digits.
fn are_digits(bits: &BitWriter, digits: &[u8]) -> bool {
    let mut reader = BitReader::new(bits.words(), bits.len());
    let mut all = true;
    for digit in digits {
        all &= reader.read_bit() == Some(*digit == b'1');
    }
    all && reader.left() == 0
}

// Whether a plane of four digits has this code.
fn has_code(alloc: Global, digits: u64, bits: &[u8]) -> Result<bool, AllocError> {
    let mut code = with_room(alloc, 64)?;
    let count = encode(64, 1, 4, &[[digits, 0, 0, 0]], &mut code);
    let is_same = count == bits.len() as u64 && are_digits(&code, bits);
    drop(code);
    Ok(is_same)
}

fn have_codes(rt: &impl Abort, alloc: Global, rows: &[(u64, &[u8])]) -> Result<(), AllocError> {
    for (digits, bits) in rows {
        assert!(rt; has_code(alloc, *digits, bits)?);
    }
    Ok(())
}

#[test]
fn planes_have_their_codes(rt: HostRuntime) -> Result<(), Fail> {
    have_codes(&rt, rt.alloc(), &CODES)?;
    Ok(())
}

// The first words of three planes.
fn first_words(planes: &[[u64; 4]; 3]) -> [u64; 3] {
    [planes[0][0], planes[1][0], planes[2][0]]
}

// The planes of a case of a size that goes into a word, one word each.
#[derive(Drop)]
struct Words<'a> {
    case: &'a Case,
    planes: [u64; 3],
    ghost some: { 0 < case.now.size },
    ghost in_word: { case.now.size ≤ 64 },
}

// The planes of a case as words; its size goes into one, and their code has as many bits as it says.
fn words_of<'a>(rt: &impl Abort, case: &'a Case) -> Words<'a> {
    let planes = first_words(&planes_with(rt, case.ones));
    assert!(rt; 0 < case.size && case.size <= 64);
    assert!(rt; planes_len(3, case.size, &planes) == case.code_len);
    Words { case, planes }
}

// Whether a code gives back these planes of one word each.
fn gives_back_words(budget: u64, words: &Words<'_>, code: &BitWriter, kept: &[u64; 3]) -> bool {
    let mut reader = BitReader::new(code.words(), code.len());
    let mut again = [0; 4];
    let count = read_planes(budget, 3, words.case.size, &mut reader, &mut again);
    count == Some(code.len()) && again == [0, kept[0], kept[1], kept[2]]
}

// Whether planes of one word each have their code, as far as a budget reaches, and it gives back what is
// kept.
fn words_are_kept(
    alloc: Global,
    budget: u64,
    words: &Words<'_>,
    kept: &[u64; 3],
) -> Result<bool, AllocError> {
    let case = words.case;
    let mut code = with_room(alloc, 256)?;
    let count = write_planes_below(0, budget, 3, case.size, &words.planes, &mut code);
    let is_same = count == case.code_len.min(budget)
        && code.len() == count
        && has_ones(&code, case.code)
        && gives_back_words(budget, words, &code, kept);
    drop(code);
    Ok(is_same)
}

// Writes the planes and reads them again at each budget.
fn words_are_kept_at_each(
    rt: &impl Abort,
    alloc: Global,
    words: &Words<'_>,
) -> Result<(), AllocError> {
    for (budget, ones_kept) in words.case.kept {
        let kept = first_words(&planes_with(rt, ones_kept));
        assert!(rt; words_are_kept(alloc, *budget, words, &kept)?);
    }
    Ok(())
}

fn all_words_are_kept(rt: &impl Abort, alloc: Global, cases: &[Case]) -> Result<(), AllocError> {
    for case in cases {
        words_are_kept_at_each(rt, alloc, &words_of(rt, case))?;
    }
    Ok(())
}

#[test]
fn one_word_a_plane_does_the_same(rt: HostRuntime) -> Result<(), Fail> {
    all_words_are_kept(&rt, rt.alloc(), cases())?;
    Ok(())
}

// Eight planes of a size, the lowest first, their code as a number, and what budgets keep of them.
struct Several {
    size: usize,
    planes: [u64; 8],
    len: u64,
    code: u64,
    kept: &'static [(u64, [u64; 8])],
}

static SEVERAL: [Several; 2] = [
    Several {
        size: 4,
        planes: [13, 6, 11, 3, 1, 0, 2, 1],
        len: 28,
        code: 0x0d67_6433,
        kept: &[
            (10, [0, 0, 0, 0, 0, 0, 2, 1]),
            (17, [0, 0, 1, 3, 1, 0, 2, 1]),
            (23, [0, 6, 11, 3, 1, 0, 2, 1]),
            (28, [13, 6, 11, 3, 1, 0, 2, 1]),
            (40, [13, 6, 11, 3, 1, 0, 2, 1]),
        ],
    },
    Several {
        size: 16,
        planes: [0x8a41, 0x1303, 0x0207, 0x0105, 3, 0, 0, 0],
        len: 63,
        code: 0x1520_a703_6074_1d78,
        kept: &[
            (20, [0, 0, 0, 0x0105, 3, 0, 0, 0]),
            (37, [0, 3, 0x0207, 0x0105, 3, 0, 0, 0]),
            (52, [1, 0x1303, 0x0207, 0x0105, 3, 0, 0, 0]),
            (63, [0x8a41, 0x1303, 0x0207, 0x0105, 3, 0, 0, 0]),
            (200, [0x8a41, 0x1303, 0x0207, 0x0105, 3, 0, 0, 0]),
        ],
    },
];

// A case of eight planes whose size is 1 to 16.
#[derive(Drop)]
struct Eight<'a> {
    case: &'a Several,
    ghost some: { 0 < case.now.size },
    ghost small: { case.now.size ≤ 16 },
}

// Whether eight planes have their code, as far as a budget reaches, and it gives back what is kept.
fn have_one_code(
    alloc: Global,
    budget: u64,
    eight: &Eight<'_>,
    kept: &[u64; 8],
) -> Result<bool, AllocError> {
    let case = eight.case;
    let mut code = with_room(alloc, 256)?;
    let count = write_planes_below(0, budget, 8, case.size, &case.planes, &mut code);
    let is_same = count == case.len.min(budget)
        && code.len() == count
        && has_low_bits(&code, count, case.code)
        && gives_back_eight(budget, eight, &code, kept);
    drop(code);
    Ok(is_same)
}

// Whether bits are so many of the lowest of a number, at least one and at most 64.
fn has_low_bits(bits: &BitWriter, count: u64, number: u64) -> bool {
    0 < count && count <= 64 && bits.words() == [number & u64::MAX >> (64 - count)].as_slice()
}

// Whether a code gives back these eight planes.
fn gives_back_eight(budget: u64, eight: &Eight<'_>, code: &BitWriter, kept: &[u64; 8]) -> bool {
    let mut reader = BitReader::new(code.words(), code.len());
    let mut again = [0; 8];
    let count = read_planes(budget, 8, eight.case.size, &mut reader, &mut again);
    count == Some(code.len()) && again == *kept
}

// Writes eight planes and reads them again at each budget.
fn have_one_code_at_each(
    rt: &impl Abort,
    alloc: Global,
    eight: &Eight<'_>,
) -> Result<(), AllocError> {
    for (budget, kept) in eight.case.kept {
        assert!(rt; have_one_code(alloc, *budget, eight, kept)?);
    }
    Ok(())
}

fn all_have_one_code(rt: &impl Abort, alloc: Global, cases: &[Several]) -> Result<(), AllocError> {
    for case in cases {
        assert!(rt; 0 < case.size && case.size <= 16 && case.len <= 64);
        have_one_code_at_each(rt, alloc, &Eight { case })?;
    }
    Ok(())
}

#[test]
fn several_planes_have_one_code(rt: HostRuntime) -> Result<(), Fail> {
    all_have_one_code(&rt, rt.alloc(), &SEVERAL)?;
    Ok(())
}

// Whether budgets reach so many whole planes.
fn reach(rt: &impl Abort, planes: &Planes<'_>) {
    for (budget, count) in planes.case.within {
        assert!(rt; planes_within(*budget, planes.case.size, &planes.words) == *count);
    }
}

fn fit_whole(rt: &impl Abort, cases: &[Case]) {
    for case in cases {
        reach(rt, &planes_of(rt, case));
    }
}

#[test]
fn planes_that_fit_whole(rt: HostRuntime) {
    fit_whole(&rt, cases());
    fit_whole(&rt, large_cases());
}
