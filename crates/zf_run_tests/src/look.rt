//! Scripts on arrays that are only read, with values from a program that was written from the definitions
//! alone.

use std::alloc::Global;
use std::process::Abort;
use std::test::Fail;
use zf_base::Lane;
use zf_const::ConstArray;
use zf_dev::MemSink;
use zf_run::{RunEnd, look};

// The array of a file.
fn open<T: Lane, const D: usize>(
    rt: &impl Abort,
    alloc: Global,
    file: &[u8],
    lines: u32,
) -> Result<ConstArray<T, D>, Fail> {
    let (h, _) = zf_header::read(file)?;
    assert!(rt; h.ty == T::TY);
    assert!(rt; usize::from(h.shape.dims()) == D);
    assert!(rt; 0 < lines && lines <= 65536);
    Ok(ConstArray::from_file(alloc, &h, file.to_vec(alloc)?, lines)?)
}

// A file, the number of lines, a script, what it writes, and how it ends.
type Row = (&'static [u8], u32, &'static [u8], &'static [u8], RunEnd);

// Runs the script of each row over the array of its file.
fn all_look<T: Lane, const D: usize>(
    rt: &impl Abort,
    alloc: Global,
    rows: &[Row],
) -> Result<(), Fail> {
    for (file, lines, script, text, end) in rows {
        let mut array = open::<T, D>(rt, alloc, file, *lines)?;
        let mut out = MemSink::new(alloc, Vec::new(alloc), 1 << 20);
        assert!(rt; look(&mut array, script, &mut out) == *end && out.bytes() == *text);
        // Said as a call: the end of a scope would be proved with each part that is given back.
        drop(array);
    }
    Ok(())
}

// Eight values of int32 without loss: seven zeros and a one.
const ONE: [u8; 24] = [
    0x7a, 0x66, 0x70, 0x05, 0x70, 0, 0, 0, 0, 0, 0, 0x88, 0xc0, 0x07, 0, 0, 0, 0x04, 0, 0, 0, 0, 0,
    0,
];

// The values 1 and 2 without loss.
const PAIR: [u8; 24] = [
    0x7a, 0x66, 0x70, 0x05, 0x10, 0, 0, 0, 0, 0, 0, 0x88, 0x1f, 0, 0, 0, 0x48, 0x07, 0, 0, 0, 0, 0,
    0,
];

// 1 2 3 4 at a precision of 32 planes.
const PRECISE: [u8; 24] = [
    0x7a, 0x66, 0x70, 0x05, 0x30, 0, 0, 0, 0, 0, 0xf0, 0x81, 0, 0, 0, 0x60, 0x27, 0, 0, 0, 0, 0, 0,
    0,
];

// Zeros and 1 2 3 4 at 64 bits a block.
const RATE: [u8; 32] = [
    0x7a, 0x66, 0x70, 0x05, 0x70, 0, 0, 0, 0, 0, 0xf0, 0x03, 0, 0, 0, 0, 0, 0, 0, 0, 0, 0, 0, 0x60,
    0x27, 0, 0, 0, 0, 0, 0, 0,
];

// The values 1 to 10 of int64 in 5x2 without loss.
const SHEET: [u8; 40] = [
    0x7a, 0x66, 0x70, 0x05, 0x45, 0, 0, 0x10, 0, 0, 0, 0x88, 0x3f, 0, 0, 0, 0, 0, 0, 0, 0x04, 0x91,
    0x40, 0xa7, 0x1f, 0, 0, 0, 0, 0, 0, 0, 0x82, 0x4a, 0xa0, 0x12, 0, 0, 0, 0,
];

// Streams of int32 in one dimension.
static LINES: [Row; 6] = [
    (
        &ONE,
        2,
        b"get 0\nget 7\nstats\n",
        b"0\n1\nhits 0 misses 2 writes 0\n",
        RunEnd::Done,
    ),
    (
        &ONE,
        1,
        b"get 7\nget 0\nget 7\nget 4\nstats\nsum\nstats\n",
        b"1\n0\n1\n0\nhits 1 misses 3 writes 0\n1\nhits 1 misses 5 writes 0\n",
        RunEnd::Done,
    ),
    (
        &PAIR,
        1,
        b"get 1\nsum\nset 0 1\nlines 2\nview 1 1 1\nvget 0\n",
        b"2\n3\n! word\n2\n",
        RunEnd::Lines(1),
    ),
    (&PRECISE, 1, b"get 3\nsum\n", b"4\n8\n", RunEnd::Done),
    (
        &RATE,
        1,
        b"sum\nget 5\nview 4 4 1\nvsum\nvget 3\nstats\n\nlines 2\nget 7\nstats\n",
        b"8\n2\n8\n4\nhits 6 misses 2 writes 0\n4\nhits 6 misses 3 writes 0\n",
        RunEnd::Done,
    ),
    (
        &RATE,
        2,
        b"set 0 1\nadd 0 1\nfill 1\nvset 0 1\nflush\ndiscard\nresize 4\nget 7\nsum\nstats",
        b"! word\n! word\n! word\n! word\n! word\n! word\n! word\n4\n8\nhits 1 misses 2 writes 0\n",
        RunEnd::Lines(7),
    ),
];

// A stream of int64 in two dimensions.
static SHEETS: [Row; 1] = [(
    &SHEET,
    1,
    b"sum\nview 1,0 2x2 2,1\nvget 1,1\nvsum\nslice 1 1\nvget 1,0\nvget 0,1\nget 5,0\n\
        view 0,0 6x1 1,1\nlines 0\nslice 2 0\nvset 0,0 3\nstats\n",
    b"55\n9\n22\n9\n! range\n! range\n! size\n! size\n! range\n! word\nhits 5 misses 3 writes 0\n",
    RunEnd::Lines(6),
)];

#[test]
fn looks_at_streams_of_each_mode(rt: HostRuntime) -> Result<(), Fail> {
    all_look::<i32, 1>(&rt, rt.alloc(), &LINES)?;
    all_look::<i64, 2>(&rt, rt.alloc(), &SHEETS)
}

#[test]
fn a_look_ends_at_a_write_fault(rt: HostRuntime) -> Result<(), Fail> {
    let mut out = MemSink::new(rt.alloc(), [1].to_vec(rt.alloc())?, 1 << 20);
    let mut array = open::<i32, 1>(&rt, rt.alloc(), &ONE, 2)?;
    let end = look(&mut array, b"get 7\nget 0\nget 4\n", &mut out);
    drop(array);
    assert!(rt; end == RunEnd::Write && out.bytes() == b"1\n".as_slice());
    Ok(())
}
