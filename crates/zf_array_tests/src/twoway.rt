//! Rows and walks of a two-way cache over a backing that rounds to even numbers, and how often it calls the
//! backing.

ghost use Rattle.std.specs.Prelude.{◌≡◌};
ghost use Rattle.zf_array_tests.specs.EvenValues.{evens_format};
ghost use Rattle.zf_twoway.specs.Standing.{Fits};

use crate::counted::Counted;
use std::alloc::Global;
use std::process::Abort;
use std::test::Fail;
use zf_base::{Lane, Reading};
use zf_cache::raised;
use zf_twoway::TwoWay;
use zf_twoway::laws::{discards, empty_caches_fit};

// A call of a cache with its answer, or what then holds.
enum Act {
    Set(u64, usize, i32),
    Get(u64, usize, i32),
    // a loan of a block whose values are made so, and its last value after another touch
    Lend(u64, i32),
    Flush,
    Discard,
    Lines(u32),
    HasLines(u32),
    IsDirty(u64, bool),
    // hits, misses and writes
    Counts(u64, u64, u64),
    // loads and stores of the backing
    Calls(u32, u32),
}

// Whether a call goes as it says. The cache and its backing of sixteen blocks fit.
fn goes(rt: &impl Abort, cache: &mut TwoWay<i32, 1>, back: &mut Counted, act: &Act) -> bool
    requires fits { Fits ⟦<i32 as Lane>⟧.value cache.old
        (⟦<Counted as Reading<i32>>⟧.format back.old) (⟦<Counted as Reading<i32>>⟧.codes back.old) }
    requires format { ⟦<Counted as Reading<i32>>⟧.format back.old ≡ evens_format 16 }
    ensures fits { Fits ⟦<i32 as Lane>⟧.value cache.new
        (⟦<Counted as Reading<i32>>⟧.format back.new) (⟦<Counted as Reading<i32>>⟧.codes back.new) }
    ensures format { ⟦<Counted as Reading<i32>>⟧.format back.new ≡ evens_format 16 }
{
    match act {
        Act::Set(b, p, v) => {
            assert!(rt; *b < 16 && *p < 4);
            cache.set(back, *b, *p, *v);
            true
        }
        Act::Get(b, p, v) => {
            assert!(rt; *b < 16 && *p < 4);
            cache.get(back, *b, *p) == *v
        }
        Act::Lend(b, v) => {
            assert!(rt; *b < 16);
            for value in cache.block_mut(back, *b) {
                *value = *v;
            }
            cache.block(back, *b)[3] == *v
        }
        Act::Flush => {
            cache.flush(back);
            true
        }
        Act::Discard => {
            discards::<i32, Counted>();
            cache.discard();
            true
        }
        Act::Lines(lines) => {
            assert!(rt; 0 < *lines && *lines <= 65536);
            cache.relined(back, raised(*lines)).is_ok()
        }
        Act::HasLines(lines) => cache.lines() == *lines,
        Act::IsDirty(b, dirty) => cache.is_dirty(*b) == *dirty,
        Act::Counts(hits, misses, writes) => {
            let stats = cache.stats();
            (stats.hits, stats.misses, stats.writes) == (*hits, *misses, *writes)
        }
        Act::Calls(loads, stores) => (back.loads, back.stores) == (*loads, *stores),
    }
}

// Whether all calls of a cache of so many lines go as they say.
fn all_go(rt: &impl Abort, alloc: Global, lines: u32, acts: &[Act]) -> Result<bool, Fail> {
    let mut back = Counted::new(alloc, 16)?;
    assert!(rt; 0 < lines && lines <= 65536);
    let mut cache = TwoWay::<i32, 1>::new(alloc, raised(lines))?;
    empty_caches_fit::<i32, Counted>();
    let mut all = true;
    for act in acts {
        all &= goes(rt, &mut cache, &mut back, act);
    }
    // Said as calls: the end of a scope would be proved with each part that is given back.
    drop(cache);
    drop(back);
    Ok(all)
}

// What the calls show, the number of lines, and the calls. Of two lines, blocks 0 and 1 have the first and
// the second one alone, block 2 has both.
static ROWS: [(&str, u32, &[Act]); 5] = [
    (
        "an empty second line is taken",
        2,
        &[
            Act::Set(0, 0, 1),
            Act::Get(2, 0, 0),
            Act::Get(0, 0, 1),
            Act::Counts(1, 2, 0),
            Act::HasLines(2),
            Act::IsDirty(0, true),
            Act::IsDirty(2, false),
            Act::Calls(2, 0),
        ],
    ),
    (
        "of two dirty lines the first is taken",
        2,
        &[
            Act::Set(0, 0, 1),
            Act::Set(1, 0, 5),
            Act::Get(2, 0, 0),
            Act::Get(0, 0, 0),
            Act::Get(1, 0, 5),
            Act::Counts(1, 4, 1),
            Act::Calls(4, 1),
        ],
    ),
    (
        "a clean second line is taken before a dirty first one",
        2,
        &[
            Act::Set(0, 0, 1),
            Act::Get(1, 0, 0),
            Act::Get(2, 0, 0),
            Act::Get(0, 0, 1),
            Act::Counts(1, 3, 0),
            Act::Calls(3, 0),
        ],
    ),
    // four blocks with one first line among four: with a line each they would be missed each time
    (
        "a walk with the step of the lines",
        4,
        &[
            Act::Set(0, 0, 8),
            Act::Set(4, 0, 8),
            Act::Set(8, 0, 8),
            Act::Set(12, 0, 8),
            Act::Set(0, 0, 8),
            Act::Set(4, 0, 8),
            Act::Set(8, 0, 8),
            Act::Set(12, 0, 8),
            Act::Counts(4, 4, 0),
            Act::Calls(4, 0),
            Act::Flush,
            Act::Counts(4, 4, 4),
            Act::Flush,
            Act::Calls(4, 4),
        ],
    ),
    (
        "loans, a discard and new lines",
        2,
        &[
            Act::Lend(2, 7),
            Act::IsDirty(2, true),
            Act::Lines(1),
            Act::Get(2, 3, 6),
            Act::HasLines(1),
            Act::Set(2, 3, 1),
            Act::Discard,
            Act::IsDirty(2, false),
            Act::Counts(2, 2, 1),
            Act::Calls(2, 1),
        ],
    ),
];

#[test]
fn calls_go_as_they_say(rt: HostRuntime) -> Result<(), Fail> {
    for (shows, lines, acts) in ROWS.iter() {
        assert!(rt; all_go(&rt, rt.alloc(), *lines, acts)?, "{shows}");
    }
    Ok(())
}
