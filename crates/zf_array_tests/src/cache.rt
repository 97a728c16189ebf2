//! The rows of a cache over a backing that rounds to even numbers, and how often it calls the backing.

ghost use Rattle.std.specs.Prelude.{◌≡◌};
ghost use Rattle.zf_array_tests.specs.EvenValues.{evens_format};
ghost use Rattle.zf_cache.specs.Standing.{Fits};

use crate::counted::Counted;
use std::alloc::Global;
use std::process::Abort;
use std::test::Fail;
use zf_base::{Lane, Reading, Shape};
use zf_cache::laws::empty_caches_fit;
use zf_cache::{Cache, default_lines, raised};
use zf_script::Stats;

fn stats(hits: u64, misses: u64, writes: u64) -> Stats {
    Stats {
        hits,
        misses,
        writes,
    }
}

// A call of a cache with its answer, or what then holds.
enum Act {
    Set(u64, usize, i32),
    Get(u64, usize, i32),
    // a loan of a block, of which nothing is written
    Lend(u64),
    // a loan of two values of a block, from a place on, which are made so
    Part(u64, usize, i32),
    Flush,
    Discard,
    Lines(u32),
    HasLines(u32),
    IsDirty(u64, bool),
    // hits, misses and writes
    Counts(u64, u64, u64),
    // loads and stores of the backing
    Calls(u32, u32),
}

// Whether a call goes as it says. The cache and its backing of eight blocks fit.
fn goes(rt: &impl Abort, cache: &mut Cache<i32, 1>, back: &mut Counted, act: &Act) -> bool
    requires fits { Fits ⟦<i32 as Lane>⟧.value cache.old
        (⟦<Counted as Reading<i32>>⟧.format back.old) (⟦<Counted as Reading<i32>>⟧.codes back.old) }
    requires format { ⟦<Counted as Reading<i32>>⟧.format back.old ≡ evens_format 8 }
    ensures fits { Fits ⟦<i32 as Lane>⟧.value cache.new
        (⟦<Counted as Reading<i32>>⟧.format back.new) (⟦<Counted as Reading<i32>>⟧.codes back.new) }
    ensures format { ⟦<Counted as Reading<i32>>⟧.format back.new ≡ evens_format 8 }
{
    match act {
        Act::Set(b, p, v) => {
            assert!(rt; *b < 8 && *p < 4);
            cache.set(back, *b, *p, *v);
            true
        }
        Act::Get(b, p, v) => {
            assert!(rt; *b < 8 && *p < 4);
            cache.get(back, *b, *p) == *v
        }
        Act::Lend(b) => {
            assert!(rt; *b < 8);
            cache.block_mut(back, *b).len() == 4
        }
        Act::Part(b, from, v) => {
            assert!(rt; *b < 8 && *from <= 2);
            cache.touch_mut(back, *b);
            for value in cache.part_mut(*b, *from, 2) {
                *value = *v;
            }
            true
        }
        Act::Flush => {
            cache.flush(back);
            true
        }
        Act::Discard => {
            cache.discard();
            true
        }
        Act::Lines(lines) => {
            assert!(rt; 0 < *lines && *lines <= 65536);
            cache.relined(back, raised(*lines)).is_ok()
        }
        Act::HasLines(lines) => cache.lines() == *lines,
        Act::IsDirty(b, dirty) => cache.is_dirty(*b) == *dirty,
        Act::Counts(hits, misses, writes) => cache.stats() == stats(*hits, *misses, *writes),
        Act::Calls(loads, stores) => (back.loads, back.stores) == (*loads, *stores),
    }
}

// Whether all calls of a cache of so many lines go as they say.
fn all_go(rt: &impl Abort, alloc: Global, lines: u32, acts: &[Act]) -> Result<bool, Fail> {
    let mut back = Counted::new(alloc, 8)?;
    assert!(rt; 0 < lines && lines <= 65536);
    let mut cache = Cache::<i32, 1>::new(alloc, raised(lines))?;
    empty_caches_fit::<i32, Counted>();
    let mut all = true;
    for act in acts {
        all &= goes(rt, &mut cache, &mut back, act);
    }
    // Said as calls: the end of a scope would be proved with each part that is given back.
    drop(cache);
    drop(back);
    Ok(all)
}

// What the calls show, the number of lines, and the calls.
static ROWS: [(&str, u32, &[Act]); 5] = [
    (
        "a value is rounded when its block makes room",
        1,
        &[
            Act::Set(0, 0, 3),
            Act::Get(0, 0, 3),
            Act::Get(1, 0, 0),
            Act::Get(0, 0, 2),
            Act::Counts(1, 3, 1),
            Act::Calls(3, 1),
        ],
    ),
    (
        "a loan that nothing is written to is written back",
        1,
        &[
            Act::Lend(0),
            Act::IsDirty(0, true),
            Act::IsDirty(1, false),
            Act::Get(1, 0, 0),
            Act::IsDirty(0, false),
            Act::Counts(0, 2, 1),
        ],
    ),
    (
        "a hit calls nothing, a miss loads once and stores at most once, and a clean block is never stored",
        2,
        &[
            Act::Get(0, 0, 0),
            Act::Get(0, 3, 0),
            Act::Set(0, 1, 5),
            Act::Calls(1, 0),
            Act::Get(2, 0, 0),
            Act::Calls(2, 1),
            Act::Get(4, 0, 0),
            Act::Calls(3, 1),
            Act::Set(1, 0, 8),
            Act::Flush,
            Act::Calls(4, 2),
            Act::Flush,
            Act::Calls(4, 2),
            Act::Counts(2, 4, 2),
        ],
    ),
    (
        "a block of which a part is lent is dirty",
        2,
        &[Act::Part(3, 1, 7), Act::IsDirty(3, true)],
    ),
    (
        "discarded changes are gone, and new lines are a flush",
        2,
        &[
            Act::Set(0, 0, 9),
            Act::Discard,
            Act::Get(0, 0, 0),
            Act::Set(0, 0, 9),
            Act::Lines(4),
            Act::Get(0, 0, 8),
            Act::HasLines(4),
            Act::Counts(1, 3, 1),
            Act::Calls(3, 1),
        ],
    ),
];

#[test]
fn calls_go_as_they_say(rt: HostRuntime) -> Result<(), Fail> {
    for (shows, lines, acts) in ROWS.iter() {
        assert!(rt; all_go(&rt, rt.alloc(), *lines, acts)?, "{shows}");
    }
    Ok(())
}

#[test]
fn a_cache_that_only_reads(rt: HostRuntime) -> Result<(), Fail> {
    let mut back = Counted::new(rt.alloc(), 8)?;
    let mut cache = Cache::<i32, 1>::new(rt.alloc(), 2)?;
    empty_caches_fit::<i32, Counted>();
    let first = cache.get_read(&mut back, 1, 2);
    let again = cache.get_read(&mut back, 1, 3);
    let other = cache.get_read(&mut back, 3, 0);
    let counts = cache.stats();
    let whole = cache.block_read(&mut back, 3).len();
    let relined = cache.relined_read(8).is_ok();
    assert!(rt; (first, again, other, whole, relined) == (0, 0, 0, 4, true));
    assert!(rt; (counts, cache.stats(), cache.lines()) == (stats(1, 2, 0), stats(2, 2, 0), 8));
    drop(cache);
    drop(back);
    Ok(())
}

// The second line is never written to, as there is one block.
#[test]
fn a_cache_of_more_lines_than_blocks(rt: HostRuntime) -> Result<(), Fail> {
    let mut back = Counted::new(rt.alloc(), 1)?;
    let mut cache = Cache::<i32, 1>::new(rt.alloc(), 2)?;
    empty_caches_fit::<i32, Counted>();
    cache.set(&mut back, 0, 2, 7);
    let kept = cache.get(&mut back, 0, 2);
    cache.flush(&mut back);
    let rounded = cache.get(&mut back, 0, 2);
    assert!(rt; (kept, rounded, cache.lines()) == (7, 6, 2));
    assert!(rt; cache.stats() == stats(1, 2, 1));
    drop(cache);
    drop(back);
    Ok(())
}

// A number of lines, and what it is raised to.
static RAISED: [(u32, u32); 8] = [
    (1, 1),
    (2, 2),
    (3, 4),
    (5, 8),
    (256, 256),
    (257, 512),
    (65535, 65536),
    (65536, 65536),
];

// A number of values in one dimension, and the lines that they have by themselves: blocks 1, 2, 4, 5, 16,
// 17, and 2^25, as many as there can be.
static BY_THEMSELVES: [(u64, u32); 7] = [
    (4, 1),
    (8, 2),
    (16, 2),
    (17, 4),
    (64, 4),
    (65, 8),
    (134217728, 8192),
];

#[test]
fn numbers_of_lines(rt: HostRuntime) -> Result<(), Fail> {
    for (lines, least) in RAISED.iter() {
        assert!(rt; 0 < *lines && *lines <= 65536);
        assert!(rt; raised(*lines) == *least);
    }
    for (values, least) in BY_THEMSELVES.iter() {
        let shape = Shape::new(1, *values, 1, 1, 1)?;
        assert!(rt; default_lines(&shape) == *least);
    }
    Ok(())
}
