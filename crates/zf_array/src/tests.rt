//! The rows of arrays, each call once, and the files that are saved.

ghost use Rattle.std.specs.Prelude.{◌≡◌, IsTrue, IfOk, length, map};
ghost use Rattle.zf_header.specs.HeaderBits.{IsRate};
ghost use Rattle.zf_cache.specs.Kept.{HasBlocks};
ghost use Rattle.zf_cache.specs.Standing.{Fits};
ghost use Rattle.zf_array.specs.Standing.{format, state};
ghost use Rattle.zf_array.specs.Coded.{HasEmptyLines, coded};

use super::*;
use std::alloc::Global;
use std::process::Abort;
use std::test::Fail;
use zf_base::{Lane, Pos, Reading, Shape, Stats, Ty};
use zf_cache::Cache;
use zf_cache::laws::empty_caches_fit;
use zf_header::{Header, Mode};
use zf_store::StoreFault;

// A position in one dimension.
fn at(x: u64) -> Pos
    ensures { result ≡ record { x = x; y = 0; z = 0; w = 0 } }
{
    Pos {
        x,
        y: 0,
        z: 0,
        w: 0,
    }
}

// The shape of so many values in one dimension.
fn line(rt: &impl Abort, values: u64) -> Result<Shape, Fail>
    ensures { IfOk result (λ shape. length shape ≡ 1) }
{
    let shape = Shape::new(1, values, 1, 1, 1).ok().ok_or("a shape")?;
    assert!(rt; shape.dims() == 1);
    Ok(shape)
}

// Zeros of int32, 8 values at 64 bits a block, with so many lines.
fn zeros(rt: &impl Abort, alloc: Global, lines: u32) -> Result<Array<i32, 1>, Fail> {
    assert!(rt; 0 < lines && lines <= 65536);
    Ok(Array::new(alloc, line(rt, 8)?, 64, lines)?)
}

fn get(rt: &impl Abort, a: &mut Array<i32, 1>, x: u64) -> i32 {
    let p = at(x);
    assert!(rt; a.shape().contains(p));
    a.get(p)
}

fn set(rt: &impl Abort, a: &mut Array<i32, 1>, x: u64, v: i32) {
    let p = at(x);
    assert!(rt; a.shape().contains(p));
    a.set(p, v);
}

fn add(rt: &impl Abort, a: &mut Array<i32, 1>, x: u64, v: i32) {
    let p = at(x);
    assert!(rt; a.shape().contains(p));
    a.add(p, v);
}

// Writes the first and the last value of a block through a loan of it.
fn write_ends(rt: &impl Abort, a: &mut Array<i32, 1>, b: u64, first: i32, last: i32) {
    assert!(rt; b < a.shape().blocks());
    let block = a.block_mut(b);
    block[0] = first;
    block[3] = last;
}

// Touches a block, and writes one of its values through a loan of a part of two values.
fn write_part(rt: &impl Abort, a: &mut Array<i32, 1>, b: u64, from: usize, v: i32) {
    assert!(rt; b < a.shape().blocks() && from <= 2);
    a.touch_mut(b);
    let part = a.part_mut(b, from, 2);
    part[1] = v;
}

fn block_is(rt: &impl Abort, a: &mut Array<i32, 1>, b: u64, values: &[i32; 4]) -> bool {
    assert!(rt; b < a.shape().blocks());
    a.block(b) == values.as_slice()
}

fn stats_are(a: &Array<i32, 1>, hits: u64, misses: u64, writes: u64) -> bool {
    a.stats()
        == Stats {
            hits,
            misses,
            writes,
        }
}

fn words_are(a: &Array<i32, 1>, words: &[u64; 2]) -> bool {
    a.words() == words.as_slice()
}

fn saves(a: &mut Array<i32, 1>, file: &[u8]) -> bool {
    a.save_bytes() == file
}

// A call of an array, with what it answers; or what then holds.
enum Step {
    Set(u64, i32),
    Get(u64, i32),
    Add(u64, i32),
    Ends(u64, i32, i32),
    Part(u64, usize, i32),
    Block(u64, [i32; 4]),
    Flush,
    Discard,
    Lines(u32),
    Size(u64),
    HasLines(u32),
    HasBits(u32),
    Counts(u64, u64, u64),
    Words([u64; 2]),
    Saves(&'static [u8]),
}

// Whether what a step says holds, where it says that something does.
fn holds(rt: &impl Abort, a: &mut Array<i32, 1>, step: &Step) -> bool {
    match step {
        Step::Get(x, v) => get(rt, a, *x) == *v,
        Step::Block(b, values) => block_is(rt, a, *b, values),
        Step::HasLines(lines) => a.lines() == *lines,
        Step::HasBits(bits) => a.bits() == *bits,
        Step::Counts(hits, misses, writes) => stats_are(a, *hits, *misses, *writes),
        Step::Words(words) => words_are(a, words),
        Step::Saves(file) => saves(a, file),
        _ => true,
    }
}

// Makes the call of a step, where it is one that changes an array.
fn change(rt: &impl Abort, a: &mut Array<i32, 1>, step: &Step) -> Result<(), Fail> {
    match step {
        Step::Set(x, v) => set(rt, a, *x, *v),
        Step::Add(x, v) => add(rt, a, *x, *v),
        Step::Ends(b, first, last) => write_ends(rt, a, *b, *first, *last),
        Step::Part(b, from, v) => write_part(rt, a, *b, *from, *v),
        Step::Flush => a.flush(),
        Step::Discard => a.discard(),
        Step::Lines(lines) => {
            assert!(rt; 0 < *lines && *lines <= 65536);
            a.set_lines(*lines)?;
        }
        Step::Size(values) => a.resize(line(rt, *values)?)?,
        _ => {}
    }
    Ok(())
}

// Whether all calls go as their steps say.
fn all_go(rt: &impl Abort, a: &mut Array<i32, 1>, steps: &[Step]) -> Result<bool, Fail> {
    for step in steps {
        change(rt, a, step)?;
        if !holds(rt, a, step) {
            return Ok(false);
        }
    }
    Ok(true)
}

// Calls of an array of 8 zeros at 64 bits a block with so many lines, and what they show.
struct Script {
    shows: &'static str,
    lines: u32,
    steps: &'static [Step],
}

const SAVED: &[u8] = b"zfp\x05\x70\0\0\0\0\0\xf0\x03\0\0\0\x60\x27\0\0\0\0\0\0\0\0\0\0\0\0\0\0\0";

const ZEROS: &[u8] = b"zfp\x05\x70\0\0\0\0\0\xf0\x03\0\0\0\0\0\0\0\0\0\0\0\0\0\0\0\0\0\0\0\0";

// Zeros with ones among the bits of the first code that its values do not need.
const UNUSED: &[u8] =
    b"zfp\x05\x70\0\0\0\0\0\xf0\x03\0\0\0\0\xff\xff\xff\xff\0\0\0\0\0\0\0\0\0\0\0\0";

// The file of four zeros.
const HALF: &[u8] = b"zfp\x05\x30\0\0\0\0\0\xf0\x03\0\0\0\0\0\0\0\0\0\0\0\0";

const SCRIPTS: [Script; 9] = [
    Script {
        shows: "a value stays until its block is written back",
        lines: 1,
        steps: &[
            Step::Set(0, 1),
            Step::Get(0, 1),
            Step::Flush,
            Step::Get(0, 0),
            Step::Counts(1, 2, 1),
        ],
    },
    Script {
        shows: "a block makes room in one line",
        lines: 1,
        steps: &[
            Step::HasLines(1),
            Step::Set(0, 1),
            Step::Get(4, 0),
            Step::Get(0, 0),
        ],
    },
    Script {
        shows: "two lines hold two blocks",
        lines: 2,
        steps: &[
            Step::HasLines(2),
            Step::Set(0, 1),
            Step::Get(4, 0),
            Step::Get(0, 1),
        ],
    },
    Script {
        shows: "three lines are four",
        lines: 3,
        steps: &[
            Step::HasLines(4),
            Step::Set(0, 1),
            Step::Get(4, 0),
            Step::Get(0, 1),
        ],
    },
    Script {
        shows: "what is saved is what was written back",
        lines: 2,
        steps: &[
            Step::Set(0, 1),
            Step::Set(1, 2),
            Step::Set(2, 3),
            Step::Set(3, 4),
            Step::Get(0, 1),
            Step::Saves(ZEROS),
            Step::Words([0, 0]),
            Step::Flush,
            Step::Get(0, 0),
            Step::Get(1, 2),
            Step::Get(2, 2),
            Step::Get(3, 4),
            Step::Words([0x0000_0027_6000_0000, 0]),
            Step::Saves(SAVED),
        ],
    },
    Script {
        shows: "a new number of lines flushes",
        lines: 2,
        steps: &[
            Step::Set(0, 1),
            Step::Set(1, 2),
            Step::Set(2, 3),
            Step::Set(3, 4),
            Step::Lines(1),
            Step::HasLines(1),
            Step::Get(3, 4),
            Step::Counts(3, 2, 1),
        ],
    },
    Script {
        shows: "discarded changes are gone",
        lines: 2,
        steps: &[
            Step::Set(0, 7),
            Step::Discard,
            Step::Get(0, 0),
            Step::Saves(ZEROS),
        ],
    },
    Script {
        shows: "a resized array has zeros and keeps its counts",
        lines: 2,
        steps: &[
            Step::Set(0, 100),
            Step::Size(4),
            Step::HasBits(64),
            Step::HasLines(2),
            Step::Get(0, 0),
            Step::Counts(0, 2, 0),
            Step::Saves(HALF),
        ],
    },
    Script {
        shows: "blocks and parts are lent",
        lines: 2,
        steps: &[
            Step::Ends(1, 5, -6),
            Step::Part(0, 1, 9),
            Step::Add(2, i32::MAX),
            Step::Block(0, [0, 0, -2147483640, 0]),
            Step::Block(1, [5, 0, 0, -6]),
            Step::Counts(3, 2, 0),
        ],
    },
];

// Whether all calls of a script go as its steps say. The array is dropped in one place: where it is, costs a
// proof.
fn script_goes(rt: &impl Abort, alloc: Global, script: &Script) -> Result<bool, Fail> {
    let mut a = zeros(rt, alloc, script.lines)?;
    all_go(rt, &mut a, script.steps)
}

#[test]
fn calls_go_as_their_steps_say(rt: HostRuntime) -> Result<(), Fail> {
    for script in SCRIPTS.iter() {
        assert!(rt; script_goes(&rt, rt.alloc(), script)?, "{}", script.shows);
    }
    Ok(())
}

// Whether the header states a rate.
fn is_rate(h: &Header) -> bool
    ensures { IsTrue result → IsRate h.now.mode }
{
    match h.mode {
        Mode::Rate(bits) => 1 <= bits && bits <= 32768,
        Mode::Reversible | Mode::Precision(_) => false,
    }
}

// The array of a file, or its fault.
fn open(
    rt: &impl Abort,
    alloc: Global,
    file: &[u8],
) -> Result<Result<Array<i32, 1>, StoreFault>, Fail> {
    let bytes = file.to_vec(alloc)?;
    let (h, _) = zf_header::read(&bytes).ok().ok_or("a header")?;
    assert!(rt; is_rate(&h));
    assert!(rt; h.ty == Ty::I32);
    assert!(rt; h.shape.dims() == 1);
    Ok(Array::from_file(alloc, &h, bytes, 1))
}

const KEPT: [Step; 3] = [Step::Get(0, 0), Step::Get(4, 0), Step::Saves(UNUSED)];

// Whether all calls of the array of a file go as the steps say.
fn file_goes(rt: &impl Abort, alloc: Global, file: &[u8], steps: &[Step]) -> Result<bool, Fail> {
    let mut a = open(rt, alloc, file)?.ok().ok_or("an array")?;
    all_go(rt, &mut a, steps)
}

#[test]
fn an_opened_array_keeps_the_bits_that_no_value_needs(rt: HostRuntime) -> Result<(), Fail> {
    assert!(rt; file_goes(&rt, rt.alloc(), UNUSED, &KEPT)?);
    Ok(())
}

#[test]
fn a_file_that_ends_early_is_no_array(rt: HostRuntime) -> Result<(), Fail> {
    let fault = open(&rt, rt.alloc(), &UNUSED[..31])?.err();
    assert!(rt; fault == Some(StoreFault::Truncated(2)));
    Ok(())
}

const CODED: &[u8] = b"zfp\x05\x70\0\0\0\0\0\xf0\x03\0\0\0\0\0\0\0\0\0\0\0\xa0\xfc\x03\0\0\0\0\0\0";

// What a caller knows of its array when another cache has written its blocks back.
fn flush_through<T: Lane, const D: usize>(other: &mut Cache<T, D>, a: &mut Array<T, D>)
    requires empty { HasEmptyLines a.old }
    requires fits { Fits T.value other.old (format a.old) (state a.old).codes }
    requires blocks { HasBlocks (format a.old) D }
    ensures state { state a.new ≡ coded (format a.old) (state a.old) (state a.new).codes }
    ensures header { a.new.header ≡ a.old.header }
{
    let mut codes = Codes::bind(a);
    other.flush(&mut codes);
}

const AFTERWARDS: [Step; 5] = [
    Step::Counts(0, 1, 1),
    Step::Saves(CODED),
    Step::Get(4, 6),
    Step::Get(7, -2),
    Step::Counts(1, 2, 1),
];

// Whether another cache of one line keeps a value, and has it rounded once it was given up for another block.
fn other_rounds(rt: &impl Abort, alloc: Global, a: &mut Array<i32, 1>) -> Result<bool, Fail> {
    a.flush();
    let mut other = Cache::<i32, 1>::new(alloc, 1)?;
    let mut codes = Codes::bind(a);
    empty_caches_fit::<i32, Codes<'_, i32, 1>>();
    assert!(rt; codes.blocks() == 2 && codes.block_len() == 4);
    other.set(&mut codes, 1, 0, 7);
    let kept = other.get(&mut codes, 1, 0);
    let zero = other.get(&mut codes, 0, 0);
    let rounded = other.get(&mut codes, 1, 0);
    Ok(kept == 7 && zero == 0 && rounded == 6)
}

// What another cache writes through the codes is the array's, in code and in value; the array counts its own
// touches alone.
fn other_stands(rt: &impl Abort, alloc: Global, a: &mut Array<i32, 1>) -> Result<bool, Fail> {
    set(rt, a, 0, 1);
    let rounds = other_rounds(rt, alloc, a)?;
    Ok(all_go(rt, a, &AFTERWARDS)? && rounds)
}

fn stands_on_codes(rt: &impl Abort, alloc: Global) -> Result<bool, Fail> {
    let mut a = zeros(rt, alloc, 2)?;
    other_stands(rt, alloc, &mut a)
}

#[test]
fn another_cache_stands_on_the_codes(rt: HostRuntime) -> Result<(), Fail> {
    assert!(rt; stands_on_codes(&rt, rt.alloc())?);
    Ok(())
}
