//! Scripts over a store and a two-way cache.

use std::alloc::Global;
use std::process::Abort;
use std::test::Fail;
use zf_base::Shape;
use zf_cache::raised;
use zf_dev::MemSink;
use zf_run::{RunEnd, run_two};
use zf_store::Store;
use zf_twoway::TwoWay;

// A script over zeros of int32 16 at 64 bits a block and an empty cache of two lines, what it writes, and
// how it ends. Blocks 0 and 1 have the first line and the second one alone, block 2 has both.
static ROWS: [(&[u8], &[u8], RunEnd); 4] = [
    (
        b"set 0 1\nget 8\nget 0\nstats\n",
        b"0\n1\nhits 1 misses 2 writes 0\n",
        RunEnd::Done,
    ),
    (
        b"set 0 1\nset 4 5\nget 8\nget 0\nget 4\nstats\n",
        b"0\n0\n5\nhits 1 misses 4 writes 1\n",
        RunEnd::Done,
    ),
    (
        b"set 0 1\nget 4\nget 8\nget 0\nstats\n",
        b"0\n0\n1\nhits 1 misses 3 writes 0\n",
        RunEnd::Done,
    ),
    (
        b"vsum\nadd 15 7\nadd 15 -9\nget 15\nfill 3\nsum\ndiscard\nlines 3\nlines 0\nsum\n",
        b"! word\n-2\n48\n! size\n48\n",
        RunEnd::Lines(2),
    ),
];

// Runs the script of a row.
fn ends_so(
    rt: &impl Abort,
    alloc: Global,
    script: &[u8],
    text: &[u8],
    end: RunEnd,
) -> Result<(), Fail> {
    let shape = Shape::new(1, 16, 1, 1, 1)?;
    assert!(rt; usize::from(shape.dims()) == 1);
    // Behind the cache: what is made last is dropped in one place, and each costs a proof.
    let mut cache = TwoWay::<i32, 1>::new(alloc, raised(2))?;
    let mut store = Store::<i32, 1>::zeros(alloc, shape, 64)?;
    let mut out = MemSink::new(alloc, Vec::new(alloc), 1 << 20);
    assert!(rt; run_two(&mut store, &mut cache, script, &mut out) == end);
    assert!(rt; out.bytes() == text);
    // Said as calls: the end of a scope would be proved with each part that is given back.
    drop(store);
    drop(cache);
    Ok(())
}

#[test]
fn scripts_on_three_blocks(rt: HostRuntime) -> Result<(), Fail> {
    for (script, text, end) in ROWS.iter() {
        ends_so(&rt, rt.alloc(), script, text, *end)?;
    }
    Ok(())
}
