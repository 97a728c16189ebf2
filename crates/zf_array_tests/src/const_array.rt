//! The values of streams in each mode, for several numbers of lines, and every fault of a file.

ghost use Rattle.std.specs.Prelude.{◌≡◌, length};
ghost use Rattle.zf_base.specs.Widths.{width_of};
ghost use Rattle.zf_index.specs.Files.{HasHeader};

use std::alloc::Global;
use std::process::Abort;
use std::test::Fail;
use zf_base::{Lane, Pos};
use zf_bits::{bytes_of_words, put_bits};
use zf_const::ConstArray;
use zf_header::Header;
use zf_index::IndexFault;
use zf_script::Stats;

// Eight values of int32 without loss: seven zeros and a one.
const ONE: [u8; 24] = [
    0x7a, 0x66, 0x70, 0x05, 0x70, 0, 0, 0, 0, 0, 0, 0x88, 0xc0, 0x07, 0, 0, 0, 0x04, 0, 0, 0, 0, 0,
    0,
];

// The values 1 to 5 of int32 without loss, and at a precision of 32 planes.
const FIVE: [u8; 24] = [
    0x7a, 0x66, 0x70, 0x05, 0x40, 0, 0, 0, 0, 0, 0, 0x88, 0x1f, 0, 0, 0, 0xf0, 0x3e, 0, 0, 0, 0x18,
    0x01, 0,
];

const FIVE_PRECISE: [u8; 24] = [
    0x7a, 0x66, 0x70, 0x05, 0x40, 0, 0, 0, 0, 0, 0xf0, 0x81, 0, 0, 0, 0x60, 0x27, 0, 0, 0, 0x30,
    0x02, 0, 0,
];

// Zeros and 1 2 3 4 of int32 at 64 bits a block.
const RATE: [u8; 32] = [
    0x7a, 0x66, 0x70, 0x05, 0x70, 0, 0, 0, 0, 0, 0xf0, 0x03, 0, 0, 0, 0, 0, 0, 0, 0, 0, 0, 0, 0x60,
    0x27, 0, 0, 0, 0, 0, 0, 0,
];

// The values 1 to 10 of int64 in 5x2 without loss.
const SHEET: [u8; 40] = [
    0x7a, 0x66, 0x70, 0x05, 0x45, 0, 0, 0x10, 0, 0, 0, 0x88, 0x3f, 0, 0, 0, 0, 0, 0, 0, 0x04, 0x91,
    0x40, 0xa7, 0x1f, 0, 0, 0, 0, 0, 0, 0, 0x82, 0x4a, 0xa0, 0x12, 0, 0, 0, 0,
];

// A position in two dimensions.
fn at(x: u64, y: u64) -> Pos {
    Pos { x, y, z: 0, w: 0 }
}

// The header of a file of this type and number of dimensions.
fn header_of<T: Lane, const D: usize>(rt: &impl Abort, file: &[u8]) -> Header
    ensures header { HasHeader file.now result }
    ensures same_type { T.width ≡ width_of result.ty }
    ensures dims { length result.shape ≡ D }
{
    let Ok((h, _)) = zf_header::read(file) else {
        panic!(rt; "no header");
    };
    assert!(rt; h.ty == T::TY);
    assert!(rt; usize::from(h.shape.dims()) == D);
    h
}

// The array of a file, or its fault.
fn open<T: Lane, const D: usize>(
    rt: &impl Abort,
    alloc: Global,
    file: &[u8],
    lines: u32,
) -> Result<ConstArray<T, D>, IndexFault> {
    let h = header_of::<T, D>(rt, file);
    assert!(rt; 0 < lines && lines <= 65536);
    let Ok(bytes) = file.to_vec(alloc) else {
        return Err(IndexFault::Memory);
    };
    ConstArray::from_file(alloc, &h, bytes, lines)
}

fn get(rt: &impl Abort, a: &mut ConstArray<i32, 1>, x: u64) -> i32 {
    let p = at(x, 0);
    assert!(rt; a.shape().contains(p));
    a.get(p)
}

// A call of an array, with what it answers; or what then holds.
enum Step {
    Get(u64, i32),
    Block(u64, [i32; 4]),
    Lines(u32),
    HasLines(u32),
    HasBlocks(u64),
    Counts(u64, u64),
}

// Whether a call goes as its step says.
fn goes(rt: &impl Abort, a: &mut ConstArray<i32, 1>, step: &Step) -> Result<bool, Fail> {
    match step {
        Step::Get(x, v) => return Ok(get(rt, a, *x) == *v),
        Step::Block(b, values) => {
            assert!(rt; *b < a.shape().blocks());
            return Ok(a.block(*b) == values.as_slice());
        }
        Step::Lines(lines) => {
            assert!(rt; 0 < *lines && *lines <= 65536);
            a.set_lines(*lines)?;
        }
        Step::HasLines(lines) => return Ok(a.lines() == *lines),
        Step::HasBlocks(blocks) => return Ok(a.shape().blocks() == *blocks),
        Step::Counts(hits, misses) => {
            let stats = a.stats();
            return Ok((stats.hits, stats.misses, stats.writes) == (*hits, *misses, 0));
        }
    }
    Ok(true)
}

// Whether all calls go as their steps say.
fn all_go(rt: &impl Abort, a: &mut ConstArray<i32, 1>, steps: &[Step]) -> Result<bool, Fail> {
    for step in steps {
        if !goes(rt, a, step)? {
            return Ok(false);
        }
    }
    Ok(true)
}

// The same of the array of a file. It is dropped in one place, and by a call: the end of a scope would be
// proved with each part that is given back.
fn file_goes(
    rt: &impl Abort,
    alloc: Global,
    file: &[u8],
    lines: u32,
    steps: &[Step],
) -> Result<bool, Fail> {
    let mut a = open::<i32, 1>(rt, alloc, file, lines)?;
    let went = all_go(rt, &mut a, steps);
    drop(a);
    went
}

// What a script shows, a file, the lines of its array, and the steps.
static SCRIPTS: [(&str, &[u8], u32, &[Step]); 3] = [
    (
        "a value in each block",
        &ONE,
        2,
        &[
            Step::HasLines(2),
            Step::Get(0, 0),
            Step::Get(7, 1),
            Step::Counts(0, 2),
            Step::Get(6, 0),
            Step::Get(1, 0),
            Step::Counts(2, 2),
        ],
    ),
    (
        "counts go on where lines change",
        &FIVE,
        3,
        &[
            Step::HasLines(4),
            Step::Get(4, 5),
            Step::Get(4, 5),
            Step::Lines(1),
            Step::Counts(1, 1),
            Step::Get(4, 5),
            Step::Get(3, 4),
            Step::Get(4, 5),
            Step::Counts(1, 4),
        ],
    ),
    (
        "blocks are shown",
        &RATE,
        1,
        &[
            Step::HasBlocks(2),
            Step::Block(1, [0, 2, 2, 4]),
            Step::HasBlocks(2),
            Step::Block(0, [0, 0, 0, 0]),
            Step::Counts(0, 2),
        ],
    ),
];

#[test]
fn calls_go_as_their_steps_say(rt: HostRuntime) -> Result<(), Fail> {
    for (shows, file, lines, steps) in SCRIPTS.iter() {
        assert!(rt; file_goes(&rt, rt.alloc(), file, *lines, steps)?, "{shows}");
    }
    Ok(())
}

// The positions at which values are read, with the lines that an array was opened with and then with one.
const FIRST: [usize; 6] = [4, 0, 3, 4, 1, 2];

const THEN: [usize; 5] = [0, 1, 2, 3, 4];

// Whether the array has these values at these positions.
fn has(rt: &impl Abort, a: &mut ConstArray<i32, 1>, at: &[usize], values: &[i32; 5]) -> bool {
    for x in at {
        if *x >= 5 || get(rt, a, *x as u64) != values[*x] {
            return false;
        }
    }
    true
}

// Whether the array of a file has these values, with so many lines and then with one.
fn keeps(
    rt: &impl Abort,
    alloc: Global,
    file: &[u8],
    lines: u32,
    values: &[i32; 5],
) -> Result<bool, Fail> {
    let mut a = open::<i32, 1>(rt, alloc, file, lines)?;
    let first = has(rt, &mut a, &FIRST, values);
    let relined = a.set_lines(1).is_ok();
    let goes = first && relined && a.lines() == 1 && has(rt, &mut a, &THEN, values);
    drop(a);
    Ok(goes)
}

// A file of five values, and these.
static FILES: [(&[u8; 24], [i32; 5]); 2] = [
    (&FIVE, [1, 2, 3, 4, 5]),
    (&FIVE_PRECISE, [0, 2, 2, 4, 5]),
];

#[test]
fn the_same_values_for_every_number_of_lines(rt: HostRuntime) -> Result<(), Fail> {
    for (file, values) in FILES.iter() {
        for lines in [1, 2, 3, 65536] {
            assert!(rt; keeps(&rt, rt.alloc(), *file, lines, values)?);
        }
    }
    Ok(())
}

// A position along x and y, and its value.
static OF_SHEET: [(u64, u64, i64); 5] = [(4, 1, 10), (0, 0, 1), (4, 0, 5), (3, 1, 9), (0, 1, 6)];

fn value(rt: &impl Abort, a: &mut ConstArray<i64, 2>, x: u64, y: u64) -> i64 {
    let p = at(x, y);
    assert!(rt; a.shape().contains(p));
    a.get(p)
}

#[test]
fn two_dimensions_and_wide_values(rt: HostRuntime) -> Result<(), Fail> {
    let mut a = open::<i64, 2>(&rt, rt.alloc(), &SHEET, 1)?;
    for (x, y, wanted) in OF_SHEET.iter() {
        assert!(rt; value(&rt, &mut a, *x, *y) == *wanted);
    }
    drop(a);
    Ok(())
}

// Of 4100 blocks.
static MANY: [Step; 6] = [
    Step::HasBlocks(4100),
    Step::Get(16399, 1),
    Step::Get(0, 0),
    Step::Get(16398, 0),
    Step::Get(8191, 0),
    Step::Get(16399, 1),
];

// The file of 4100 blocks of zeros but for the last value, which is 1.
fn file_of_many(alloc: Global) -> Result<Vec<u8>, Fail> {
    let mut words = vec![in alloc; 0; 387]?;
    // the header of 16400 values without loss: all codes but the last have 6 bits, which are 0
    put_bits(&mut words, 0, 0x0570667a, 32);
    put_bits(&mut words, 36, 16399, 48);
    put_bits(&mut words, 84, 2176, 12);
    // the last code, as the one of eight values
    put_bits(&mut words, 96 + 6 * 4099, 0x10_0000_001f, 40);
    Ok(bytes_of_words(alloc, &words)?)
}

// They are more than an index keeps a place for.
#[test]
fn many_blocks(rt: HostRuntime) -> Result<(), Fail> {
    let file = file_of_many(rt.alloc())?;
    assert!(rt; file_goes(&rt, rt.alloc(), &file, 16, &MANY)?);
    Ok(())
}

// How many of the bytes of the five values there are, the byte that is changed, and the fault.
static FAULTS: [(usize, usize, u8, Option<IndexFault>); 6] = [
    (24, 23, 0x00, None),
    (17, 11, 0x88, Some(IndexFault::Truncated(0))),
    (18, 11, 0x88, Some(IndexFault::Truncated(1))),
    (23, 11, 0x88, Some(IndexFault::Truncated(2))),
    (24, 23, 0x80, Some(IndexFault::Pad)),
    (25, 23, 0x00, Some(IndexFault::Trailing)),
];

// The fault of a file of int32 in one dimension.
fn fault_of(rt: &impl Abort, alloc: Global, file: &[u8]) -> Option<IndexFault> {
    open::<i32, 1>(rt, alloc, file, 1).err()
}

#[test]
fn each_fault_of_a_file(rt: HostRuntime) -> Result<(), Fail> {
    for (count, at, byte, fault) in FAULTS.iter() {
        let mut file = [0; 40];
        file[..24].copy_from_slice(&FIVE);
        assert!(rt; *at < 40 && *count <= 40);
        file[*at] = *byte;
        assert!(rt; fault_of(&rt, rt.alloc(), &file[..*count]) == *fault);
    }
    Ok(())
}
