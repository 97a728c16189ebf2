//! Scripts and what they write, with values from a program that was written from the definitions alone.

ghost use Rattle.std.specs.Prelude.{IsTrue};
ghost use Rattle.zf_header.specs.HeaderBits.{IsRate};

use std::alloc::Global;
use std::process::Abort;
use std::test::Fail;
use zf_array::Array;
use zf_base::{Lane, Shape, Ty};
use zf_dev::MemSink;
use zf_header::{Header, Mode};
use zf_run::{RunEnd, run};

// A sink that takes large pieces and never fails.
fn sink(alloc: Global) -> MemSink {
    MemSink::new(alloc, Vec::new(alloc), 1 << 20)
}

// The sizes of an array of zeros, its bits of a block and its lines, a script, what it writes, how it ends,
// and the file that is then saved, where one is compared.
type Row = (
    [u64; 4],
    (u32, u32),
    &'static [u8],
    &'static [u8],
    RunEnd,
    &'static [u8],
);

// An array of zeros.
fn zeros<T: Lane, const D: usize>(
    rt: &impl Abort,
    alloc: Global,
    dims: u8,
    sizes: [u64; 4],
    rate: (u32, u32),
) -> Result<Array<T, D>, Fail> {
    assert!(rt; 1 <= dims && dims <= 4);
    let shape = Shape::new(dims, sizes[0], sizes[1], sizes[2], sizes[3])?;
    assert!(rt; usize::from(shape.dims()) == D);
    let (bits, lines) = rate;
    assert!(rt; 1 <= bits && bits <= 32768 && 0 < lines && lines <= 65536);
    Ok(Array::new(alloc, shape, bits, lines)?)
}

// Whether a script writes a text and ends so.
fn runs<T: Lane, const D: usize>(
    alloc: Global,
    array: &mut Array<T, D>,
    script: &[u8],
    text: &[u8],
    end: RunEnd,
) -> bool {
    let mut out = sink(alloc);
    run(alloc, array, script, &mut out) == end && out.bytes() == text
}

// Runs the script of each row over zeros in so many dimensions.
fn all_run<T: Lane, const D: usize>(
    rt: &impl Abort,
    alloc: Global,
    dims: u8,
    rows: &[Row],
) -> Result<(), Fail> {
    for (sizes, rate, script, text, end, file) in rows {
        let mut array = zeros::<T, D>(rt, alloc, dims, *sizes, *rate)?;
        assert!(rt; runs(alloc, &mut array, script, text, *end));
        assert!(rt; file.is_empty() || array.save_bytes() == *file);
        // Said as a call: the end of a scope would be proved with each part that is given back.
        drop(array);
    }
    Ok(())
}

const EIGHT: [u64; 4] = [8, 1, 1, 1];

// Files of eight values of int32 at 64 bits a block, as they begin, and with a block of 0 2 2 4; and of
// four values of zero.
const EMPTY: [u8; 32] = [
    0x7a, 0x66, 0x70, 0x05, 0x70, 0, 0, 0, 0, 0, 0xf0, 0x03, 0, 0, 0, 0, 0, 0, 0, 0, 0, 0, 0, 0, 0,
    0, 0, 0, 0, 0, 0, 0,
];

const WRITTEN: [u8; 32] = [
    0x7a, 0x66, 0x70, 0x05, 0x70, 0, 0, 0, 0, 0, 0xf0, 0x03, 0, 0, 0, 0x60, 0x27, 0, 0, 0, 0, 0, 0,
    0, 0, 0, 0, 0, 0, 0, 0, 0,
];

const SHORT: [u8; 24] = [
    0x7a, 0x66, 0x70, 0x05, 0x30, 0, 0, 0, 0, 0, 0xf0, 0x03, 0, 0, 0, 0, 0, 0, 0, 0, 0, 0, 0, 0,
];

// Arrays of int32 in one dimension.
static LINES: [Row; 18] = [
    (
        EIGHT,
        (64, 1),
        b"set 0 1\nget 0\nflush\nget 0\nstats\n",
        b"1\n0\nhits 1 misses 2 writes 1\n",
        RunEnd::Done,
        &EMPTY,
    ),
    (
        EIGHT,
        (64, 1),
        b"set 0 1\nget 4\nget 0\n",
        b"0\n0\n",
        RunEnd::Done,
        &[],
    ),
    (
        EIGHT,
        (64, 2),
        b"set 0 1\nget 4\nget 0\n",
        b"0\n1\n",
        RunEnd::Done,
        &[],
    ),
    (
        EIGHT,
        (64, 2),
        b"set 0 1\nset 1 2\nset 2 3\nset 3 4\nget 0\nflush\nget 0\nget 1\nget 2\nget 3\n",
        b"1\n0\n2\n2\n4\n",
        RunEnd::Done,
        &WRITTEN,
    ),
    (
        EIGHT,
        (64, 2),
        b"set 0 1\nset 1 2\nset 2 3\nset 3 4\nlines 1\nget 3\nstats\n",
        b"4\nhits 3 misses 2 writes 1\n",
        RunEnd::Done,
        &WRITTEN,
    ),
    (
        EIGHT,
        (64, 2),
        b"set 0 1\nset 1 2\nset 2 3\nset 3 4",
        b"",
        RunEnd::Done,
        &WRITTEN,
    ),
    (
        EIGHT,
        (64, 2),
        b"set 0 7\ndiscard\nget 0\n",
        b"0\n",
        RunEnd::Done,
        &EMPTY,
    ),
    (
        EIGHT,
        (64, 2),
        b"view 4 4 1\nvset 0 5\nget 4\nview 6 4 1\nvget 0\nslice 0 1\nvset 0 9\nget 5\nvsum\n",
        b"5\n! size\n5\n9\n9\n",
        RunEnd::Lines(1),
        &[],
    ),
    (
        EIGHT,
        (64, 2),
        b"get 8\nset 0 2147483648\nset 0\nlines 0\nresize 4x4\n\nadd 0 -1\nget 0\n",
        b"! range\n! value\n! word\n! size\n! size\n-1\n",
        RunEnd::Lines(5),
        &[],
    ),
    (
        EIGHT,
        (64, 2),
        b"set 8 2147483648\nadd 0 -2147483649\nset 0 -2147483648\nstats",
        b"! range\n! value\nhits 0 misses 1 writes 0\n",
        RunEnd::Lines(2),
        &[],
    ),
    (
        EIGHT,
        (64, 2),
        b"split 2 1\n@0 get 0\njoin\nget 0\n@ 0 get 0\n@0 sum\n",
        b"0\n0\n! word\n! word\n",
        RunEnd::Lines(2),
        &[],
    ),
    (
        EIGHT,
        (64, 2),
        b"set 0 100\nresize 4\nget 0\nget 4\nlines 3\n",
        b"0\n! range\n",
        RunEnd::Lines(1),
        &SHORT,
    ),
    (
        EIGHT,
        (64, 2),
        b"view 0 0 1\nview 0 1 0\nview 0 8 1\nview 0 9 1\nview 1 4 2\nview 7 1 9\nlines 65536\n\
          lines 65537\nslice 1 0\n",
        b"! size\n! size\n! size\n! size\n! range\n",
        RunEnd::Lines(5),
        &[],
    ),
    (EIGHT, (64, 2), b"", b"", RunEnd::Done, &EMPTY),
    (EIGHT, (64, 2), b"\n\n\n", b"", RunEnd::Done, &EMPTY),
    (EIGHT, (64, 2), b"get 0", b"0\n", RunEnd::Done, &[]),
    (
        EIGHT,
        (1, 2),
        b"set 4 -1073741824\nset 5 -1073741824\nset 6 -1073741824\nset 7 -1073741824\nflush\nget 4\nget 0\n",
        b"-2147483648\n0\n",
        RunEnd::Done,
        &[
            0x7a, 0x66, 0x70, 0x05, 0x70, 0, 0, 0, 0, 0, 0, 0, 0x02, 0, 0, 0,
        ],
    ),
    (
        EIGHT,
        (3, 2),
        b"fill -1073741824\nflush\nsum\n",
        b"-17179869184\n",
        RunEnd::Done,
        &[
            0x7a, 0x66, 0x70, 0x05, 0x70, 0, 0, 0, 0, 0, 0x20, 0, 0x1b, 0, 0, 0,
        ],
    ),
];

// Arrays of int32 in one dimension, and what is done in a split.
static SPLITS: [Row; 7] = [
    (
        EIGHT,
        (64, 2),
        b"split 2 1\n@0 set 0 1\n@1 get 4\n@0 get 4\nget 0\n@1 set 4 7\n@0 flush\n@0 get 0\n@1 get 4\n\
          @0 stats\njoin\nget 4\n",
        b"0\n! range\n! split\n0\n7\nhits 0 misses 2 writes 1\n6\n",
        RunEnd::Lines(2),
        &[
            0x7a, 0x66, 0x70, 0x05, 0x70, 0, 0, 0, 0, 0, 0xf0, 0x03, 0, 0, 0, 0, 0, 0, 0, 0, 0, 0,
            0, 0xa0, 0xfc, 0x03, 0, 0, 0, 0, 0, 0,
        ],
    ),
    (
        EIGHT,
        (64, 2),
        b"split 3 1\n@0 get 0\njoin\n",
        b"! size\n! split\n! split\n",
        RunEnd::Lines(3),
        &[
            0x7a, 0x66, 0x70, 0x05, 0x70, 0, 0, 0, 0, 0, 0xf0, 0x03, 0, 0, 0, 0, 0, 0, 0, 0, 0, 0,
            0, 0, 0, 0, 0, 0, 0, 0, 0, 0,
        ],
    ),
    (
        EIGHT,
        (64, 1),
        b"set 0 1\nget 4\nsplit 2 1\nsplit 2 1\nsplit 0 0\n@2 stats\n@2 set 9 9999999999\n\
          @0 set 4 9999999999\n@0 set 3 9999999999\n@1 stats\n@0 get 0\njoin\nstats\n",
        b"0\n! split\n! split\n! range\n! range\n! range\n! value\nhits 0 misses 0 writes 0\n0\n\
          hits 0 misses 2 writes 1\n",
        RunEnd::Lines(6),
        &[
            0x7a, 0x66, 0x70, 0x05, 0x70, 0, 0, 0, 0, 0, 0xf0, 0x03, 0, 0, 0, 0, 0, 0, 0, 0, 0, 0,
            0, 0, 0, 0, 0, 0, 0, 0, 0, 0,
        ],
    ),
    (
        EIGHT,
        (64, 1),
        b"join\n@0 flush\nsplit 2 0\nsplit 2 65537\nsplit 0 1\nsplit 17 1\nset 4 9\n\
          split 3 1\nstats\nget 4\n",
        b"! split\n! split\n! size\n! size\n! size\n! size\n! size\nhits 0 misses 1 writes 0\n9\n",
        RunEnd::Lines(7),
        &[
            0x7a, 0x66, 0x70, 0x05, 0x70, 0, 0, 0, 0, 0, 0xf0, 0x03, 0, 0, 0, 0, 0, 0, 0, 0, 0, 0,
            0, 0xe0, 0x7d, 0x05, 0, 0, 0, 0, 0, 0,
        ],
    ),
    (
        EIGHT,
        (64, 1),
        b"split 1 1\n@0 set 4 7\n@0 discard\n@0 get 4\n@0 set 4 7\nflush\nlines 0\nstats\n@0 stats\n",
        b"0\n! split\n! split\n! split\nhits 1 misses 2 writes 0\n",
        RunEnd::Lines(3),
        &[
            0x7a, 0x66, 0x70, 0x05, 0x70, 0, 0, 0, 0, 0, 0xf0, 0x03, 0, 0, 0, 0, 0, 0, 0, 0, 0, 0,
            0, 0xa0, 0xfc, 0x03, 0, 0, 0, 0, 0, 0,
        ],
    ),
    (
        EIGHT,
        (64, 2),
        b"set 0 8\nsplit 2 2\n@1 add 7 -3\n@1 add 7 -3\n@0 discard\n@1 get 7\n@0 get 0\njoin\nget 7\nstats",
        b"-6\n8\n-8\nhits 0 misses 2 writes 1\n",
        RunEnd::Done,
        &[
            0x7a, 0x66, 0x70, 0x05, 0x70, 0, 0, 0, 0, 0, 0xf0, 0x03, 0, 0, 0, 0xe0, 0x7d, 0x05, 0,
            0, 0, 0, 0, 0xa0, 0x7b, 0x05, 0, 0, 0, 0, 0, 0,
        ],
    ),
    (
        [20, 1, 1, 1],
        (64, 4),
        b"split 3 1\n@0 get 3\n@0 get 4\n@1 get 3\n@1 set 4 1\n@1 set 8 2\n@1 get 4\n@1 get 12\n@2 set 12 5\n\
          @2 set 16 9\n@2 add 16 2147483647\n@2 get 16\n@1 discard\n@2 stats\njoin\nsum\nstats\n",
        b"0\n! range\n! range\n0\n! range\n-2147483640\nhits 2 misses 2 writes 1\n-2147483644\n\
          hits 0 misses 5 writes 0\n",
        RunEnd::Lines(3),
        &[
            0x7a, 0x66, 0x70, 0x05, 0x30, 0x01, 0, 0, 0, 0, 0xf0, 0x03, 0, 0, 0, 0, 0, 0, 0, 0, 0,
            0, 0, 0, 0, 0, 0, 0, 0, 0, 0, 0xa0, 0x0c, 0x01, 0, 0, 0, 0, 0, 0xa0, 0x7c, 0x03, 0, 0,
            0xd2, 0xa1, 0, 0, 0, 0, 0, 0, 0, 0, 0, 0,
        ],
    ),
];

// Arrays of int32 in two dimensions.
static SHEETS: [Row; 3] = [
    (
        [4, 4, 1, 1],
        (128, 1),
        b"set 1,1 5\nview 1,1 2x2 2,2\nvget 0,0\nvset 1,1 9\nget 3,3\nvsum\nslice 1 1\nvget 1,0\nvget 0,1\n",
        b"5\n9\n14\n9\n! range\n",
        RunEnd::Lines(1),
        &[],
    ),
    (
        [256, 256, 1, 1],
        (512, 64),
        b"fill 3\nsum\nstats\nset 255,255 -5\nget 255,255\nstats\n",
        b"196608\nhits 0 misses 8192 writes 4096\n-5\nhits 2 misses 8192 writes 4096\n",
        RunEnd::Done,
        &[],
    ),
    (
        [9, 7, 1, 1],
        (300, 1),
        b"fill -5\nsplit 5 2\n@4 set 8,6 100\n@0 add 0,0 2147483647\n@3 get 1,5\n@4 stats\n@2 get 4,4\n\
          @5 flush\n@1 add 4,0 7\n@1 flush\n@1 get 4,0\n@0 get 0,0\njoin\nview 0,0 9x7 1,1\nvsum\nsplit 6 1\n\
          @5 get 8,6\n@0 get 0,0",
        b"-5\nhits 0 misses 1 writes 0\n! range\n! range\n0\n2147483642\n-2147483779\n99\n-2147483648\n",
        RunEnd::Lines(2),
        &[],
    ),
];

// Arrays of int32 in four dimensions.
static FOUR: [Row; 1] = [(
    [5, 3, 2, 6],
    (1500, 3),
    b"vset 3,0,3,2 1138864728\nvset 2,0,1,0 1317061808\nvset 2,2,1,7 25571273\nadd 2,4,3,2 35959074\n\
        view 3,2,1,3 1x1x1x1 2,1,1,2\nslice 2 0\nsum\nadd 1,3,1,2 50\nsum\nlines 1\nsum\n\
        set 1,2,0,1 -94\nset 0,1,1,7 -61\nview 4,2,0,2 1x1x1x3 1,2,2,1\nstats\nget 3,1,0,1\n\
        view 1,0,0,0 4x3x1x3 1,1,1,1\nset 4,1,0,1 25\nset 3,1,1,0 -38\ndiscard\nvget 3,0,0,2\n\
        view 0,1,1,0 2x2x1x2 2,1,1,2\ndiscard\nvget 1,1,0,1\nvget 2,1,0,1\nstats\nsum\nstats",
    b"! range\n! range\n! range\n1317061808\n! range\n1317061808\n1375731712\n! range\n\
        hits 5 misses 9 writes 1\n-7340032\n0\n-2359296\n! range\nhits 6 misses 13 writes 3\n\
        1375731710\nhits 7 misses 16 writes 3\n",
    RunEnd::Lines(6),
    &[],
)];

// Arrays of int64 in one dimension.
static WIDE: [Row; 1] = [(
    [5, 1, 1, 1],
    (100, 2),
    b"add 0 26\nslice 0 1\nset 3 95\nget 2\nvset 0 9223372036854775808\nget 5\nview 1 1 2\ndiscard\n\
        vset 0 4813636180488882345\nvsum\nget 4\nset 2 -15\ndiscard\nview 4 1 1\nvsum\nstats\nflush\n\
        discard\nview 4 1 1\nvset 0 -56\nfill 4394299721970817643\nset 4 -59\ndiscard\nview 2 1 2\n\
        flush\nset 4 2714552201870766819\nsum\nstats",
    b"0\n! value\n! range\n4813636180488882345\n0\n0\nhits 4 misses 4 writes 0\n2714552201870766819\n\
        hits 7 misses 8 writes 0\n",
    RunEnd::Lines(2),
    &[
        0x7a, 0x66, 0x70, 0x05, 0x41, 0, 0, 0, 0, 0, 0x30, 0x06, 0, 0, 0, 0, 0, 0, 0, 0, 0, 0, 0,
        0, 0x60, 0x15, 0x51, 0x55, 0, 0x14, 0x05, 0x11, 0x14, 0x41, 0x54, 0x40, 0x05, 0, 0, 0,
    ],
)];

// Arrays of int64 in three dimensions.
static ROOMS: [Row; 1] = [(
    [3, 5, 6, 1],
    (700, 2),
    b"vset 0,4,4 -97\nflush\nvset 0,3,4 63\nadd 0,4,0 1680490732736907042\nvsum\nget 1,3,3\n\
        view 2,4,3 1x1x2 1,2,1\nvget 0,0,1\nstats\nfill -41\nsum\nget 2,1,2\nlines 4\nstats\n\
        set 0,4,0 63\nflush\nset 0,1,7 -7029736337285732127\nset 2,2,0 -81\nset 0,3,2 -90\nsum\nsum\n\
        fill -2273538741786719311\ndiscard\nview 2,4,5 1x1x1 1,2,2\nvset 0,2,0 57\nstats\nsum\nstats",
    b"1680490732736906980\n0\n-2\nhits 88 misses 7 writes 3\n-3690\n-41\nhits 89 misses 15 writes 7\n\
        ! range\n-3675\n-3675\n! range\nhits 99 misses 20 writes 8\n-3586\nhits 99 misses 24 writes 8\n",
    RunEnd::Lines(2),
    &[],
)];

#[test]
fn scripts_write_and_end_so(rt: HostRuntime) -> Result<(), Fail> {
    all_run::<i32, 1>(&rt, rt.alloc(), 1, &LINES)?;
    all_run::<i32, 1>(&rt, rt.alloc(), 1, &SPLITS)?;
    all_run::<i32, 2>(&rt, rt.alloc(), 2, &SHEETS)?;
    all_run::<i32, 4>(&rt, rt.alloc(), 4, &FOUR)?;
    all_run::<i64, 1>(&rt, rt.alloc(), 1, &WIDE)?;
    all_run::<i64, 3>(&rt, rt.alloc(), 3, &ROOMS)
}

// The longest line is refused as a word, and does not end the script.
#[test]
fn a_long_line(rt: HostRuntime) -> Result<(), Fail> {
    let mut script = vec![in rt.alloc(); b'1'; 100_000]?;
    script.extend_from_slice(b"\nget 0")?;
    let mut array = zeros::<i32, 1>(&rt, rt.alloc(), 1, EIGHT, (64, 2))?;
    assert!(rt;
        runs(
            rt.alloc(),
            &mut array,
            &script,
            b"! word\n0\n",
            RunEnd::Lines(1)
        )
    );
    drop(array);
    Ok(())
}

// Whether the header states a rate.
fn is_rate(h: &Header) -> bool
    ensures { IsTrue result → IsRate h.now.mode }
{
    match h.mode {
        Mode::Rate(bits) => 1 <= bits && bits <= 32768,
        Mode::Reversible | Mode::Precision(_) => false,
    }
}

// The array of a file, with one line.
fn opened(rt: &impl Abort, alloc: Global, file: &[u8]) -> Result<Array<i32, 1>, Fail> {
    let (h, _) = zf_header::read(file)?;
    assert!(rt; is_rate(&h));
    assert!(rt; h.ty == Ty::I32);
    assert!(rt; h.shape.dims() == 1);
    Ok(Array::from_file(alloc, &h, file.to_vec(alloc)?, 1)?)
}

#[test]
fn a_file_with_bits_that_no_value_needs_stays(rt: HostRuntime) -> Result<(), Fail> {
    let mut file = EMPTY;
    for i in 16..20 {
        file[i] = 0xff;
    }
    let mut array = opened(&rt, rt.alloc(), &file)?;
    assert!(rt;
        runs(
            rt.alloc(),
            &mut array,
            b"get 0\nget 4\n",
            b"0\n0\n",
            RunEnd::Done
        )
    );
    assert!(rt; array.save_bytes() == file.as_slice());
    drop(array);
    Ok(())
}

// A sink of which a call fails, and which takes so many bytes at most at once.
fn failing(rt: &impl Abort, alloc: Global, call: u64, piece: usize) -> Result<MemSink, Fail> {
    assert!(rt; 0 < piece);
    Ok(MemSink::new(alloc, [call].to_vec(alloc)?, piece))
}

// Whether a script ends at such a sink, after it wrote a text. A sink is made before the array, so that an
// array is dropped in one place: where it is, costs a proof.
fn fails(
    alloc: Global,
    array: &mut Array<i32, 1>,
    script: &[u8],
    out: &mut MemSink,
    text: &[u8],
) -> bool {
    run(alloc, array, script, out) == RunEnd::Write && out.bytes() == text
}

// The call that fails, the most bytes of a call, what is written, and the write-backs: no later line was
// run, and nothing is flushed.
static FAILING: [(u64, usize, &[u8], u64); 3] = [
    (1, 100, b"1\n", 1),
    (0, 100, b"", 0),
    (3, 1, b"1\n0", 1),
];

#[test]
fn a_sink_fails(rt: HostRuntime) -> Result<(), Fail> {
    let script = b"set 0 1\nget 0\nflush\nget 0\nset 4 9\nstats\n";
    for (call, piece, text, writes) in FAILING.iter() {
        let mut out = failing(&rt, rt.alloc(), *call, *piece)?;
        let mut array = zeros::<i32, 1>(&rt, rt.alloc(), 1, EIGHT, (64, 1))?;
        assert!(rt; fails(rt.alloc(), &mut array, script, &mut out, text));
        let stats = array.stats();
        assert!(rt; stats.writes == *writes && stats.misses <= 2);
        drop(array);
    }
    Ok(())
}

// The call that fails, what is written, and whether something was written back before. The views are
// dropped as they are.
static FAILING_SPLITS: [(u64, &[u8], bool); 3] = [
    (0, b"", false),
    (1, b"1\n", false),
    (2, b"1\n7\n", true),
];

#[test]
fn a_sink_fails_in_a_split(rt: HostRuntime) -> Result<(), Fail> {
    let script =
        b"split 2 1\n@0 set 0 1\n@0 get 0\n@1 set 4 7\n@1 get 4\n@1 flush\n@1 get 4\njoin\n";
    let then = b"0\nhits 0 misses 1 writes 0\n";
    for (call, text, kept) in FAILING_SPLITS.iter() {
        let mut out = failing(&rt, rt.alloc(), *call, 100)?;
        let mut array = zeros::<i32, 1>(&rt, rt.alloc(), 1, EIGHT, (64, 1))?;
        assert!(rt; fails(rt.alloc(), &mut array, script, &mut out, text));
        // what was not written back is gone, and what was is there
        assert!(rt; (array.save_bytes() != EMPTY.as_slice()) == *kept);
        assert!(rt;
            runs(
                rt.alloc(),
                &mut array,
                b"get 0\nstats\n",
                then,
                RunEnd::Done
            )
        );
        drop(array);
    }
    Ok(())
}
