//! The shelves: files in memory, and files of the folder that a test runs in.

ghost use Rattle.std.specs.Prelude.{◌<◌};

use std::alloc::Global;
use std::fs;
use std::test::Fail;
use zf_dev::{Failed, LoadError, MemShelf, MemSource, RealShelf, Shelf, TakeError, take_all};

// A call of a shelf, and its answer: the first three bytes are looked at of a file that has so many at most, or it
// is loaded, or bytes are saved.
enum Step {
    Front(&'static str, u64, Result<&'static [u8], LoadError>),
    Load(&'static str, u64, Result<&'static [u8], LoadError>),
    Save(&'static str, &'static [u8], Result<(), Failed>),
}

// Whether this is the answer.
fn is_answer(answer: &Result<&'static [u8], LoadError>, seen: Result<Vec<u8>, LoadError>) -> bool {
    match seen {
        Ok(bytes) => *answer == Ok(bytes.as_slice()),
        Err(e) => *answer == Err(e),
    }
}

// Whether a call has its answer.
fn is_answered<S: Shelf>(alloc: Global, shelf: &mut S, step: &Step) -> bool {
    match step {
        Step::Front(name, max, answer) => is_answer(answer, shelf.front(alloc, name, *max, 3)),
        Step::Load(name, max, answer) => is_answer(answer, shelf.load(alloc, name, *max)),
        Step::Save(name, bytes, answer) => shelf.save(name, bytes) == *answer,
    }
}

// Whether each of these calls has its answer.
fn are_answered<S: Shelf>(alloc: Global, shelf: &mut S, steps: &[Step]) -> bool {
    for step in steps {
        if !is_answered(alloc, shelf, step) {
            return false;
        }
    }
    true
}

// Calls of a shelf whose calls 2 and 5 fail, and then a file and what it holds.
static IN_MEMORY: [(&[Step], &str, Option<&[u8]>); 4] = [
    (
        &[
            Step::Load("a", 9, Err(LoadError::Missing)),
            Step::Save("a", b"first", Ok(())),
            Step::Load("a", 9, Err(LoadError::Failed)),
            Step::Load("a", 5, Ok(b"first")),
            Step::Load("a", 4, Err(LoadError::Long)),
            Step::Save("a", b"second", Err(Failed)),
        ],
        "a",
        Some(b"first"),
    ),
    (
        &[
            // It is no call with a number.
            Step::Front("a", 5, Ok(b"fir")),
            Step::Front("a", 4, Err(LoadError::Long)),
            Step::Front("b", 9, Err(LoadError::Missing)),
            Step::Save("b", b"", Ok(())),
            Step::Front("b", 0, Ok(b"")),
            Step::Save("a", b"third", Ok(())),
        ],
        "a",
        Some(b"third"),
    ),
    (&[], "b", Some(b"")),
    (&[], "c", None),
];

#[test]
fn a_shelf_in_memory_keeps_files_and_counts_calls(rt: HostRuntime) -> Result<(), Fail> {
    let mut shelf = MemShelf::new(rt.alloc(), [2, 5].to_vec(rt.alloc())?);
    for (steps, name, held) in IN_MEMORY.iter() {
        assert!(rt; are_answered(rt.alloc(), &mut shelf, steps));
        assert!(rt; shelf.file(name) == *held);
    }
    assert!(rt; shelf.faults() == 2 && shelf.starved() == 0);
    Ok(())
}

// Where memory is refused, a save is a fault of its own kind and leaves the file, and a load says that there
// was none.
#[test]
fn out_of_memory_is_told_apart(rt: HostRuntime) -> Result<(), Fail> {
    let alloc = rt.alloc();
    let mut shelf = MemShelf::new(alloc, Vec::new(alloc));
    let is_saved = shelf.save("a", b"first").is_ok();
    let (held, error) = if is_saved {
        (Some(b"first".as_slice()), LoadError::Memory)
    } else {
        (None, LoadError::Missing)
    };
    assert!(rt; shelf.file("a") == held && shelf.faults() == shelf.starved());
    let is_told = match shelf.load(alloc, "a", 9) {
        Ok(bytes) => bytes.as_slice() == b"first".as_slice(),
        Err(e) => e == error,
    };
    assert!(rt; is_told && shelf.faults() == shelf.starved());
    Ok(())
}

// In a folder of its own, which can be removed where nothing is left in it.
static SAVED: [Step; 10] = [
    Step::Front("shelf-a/a", 9, Err(LoadError::Missing)),
    Step::Load("shelf-a/a", 9, Err(LoadError::Missing)),
    Step::Save("shelf-a/a", b"first", Ok(())),
    Step::Load("shelf-a/a", 5, Ok(b"first")),
    Step::Load("shelf-a/a", 4, Err(LoadError::Long)),
    Step::Load("shelf-a/a", u64::MAX, Ok(b"first")),
    Step::Front("shelf-a/a", 5, Ok(b"fir")),
    Step::Front("shelf-a/a", 4, Err(LoadError::Long)),
    Step::Save("shelf-a/a", b"next", Ok(())),
    Step::Load("shelf-a/a", 9, Ok(b"next")),
];

#[test]
fn a_real_shelf_loads_and_saves_files(rt: HostRuntime) -> Result<(), Fail> {
    fs::create_dir(&rt, "shelf-a")?;
    let mut shelf = RealShelf::new(rt.alloc(), &rt);
    assert!(rt; are_answered(rt.alloc(), &mut shelf, &SAVED));
    assert!(rt; shelf.faults() == 0);
    fs::remove_file(&rt, "shelf-a/a")?;
    fs::remove_dir(&rt, "shelf-a")?;
    Ok(())
}

// The calls, and the faults from the first one on. No file can be put in the place of a folder, nor into a
// folder that is not there.
static NO_FILES: [(&[Step], u64); 2] = [
    (
        &[
            Step::Front("shelf-c", 9, Err(LoadError::Failed)),
            Step::Load("shelf-c", 9, Err(LoadError::Failed)),
            Step::Load("a\0b", 9, Err(LoadError::Failed)),
            Step::Load("shelf-c/none/a", 9, Err(LoadError::Missing)),
        ],
        3,
    ),
    (
        &[
            Step::Save("shelf-c", b"new", Err(Failed)),
            Step::Save("none/a", b"new", Err(Failed)),
        ],
        5,
    ),
];

#[test]
fn what_is_no_file_is_a_fault(rt: HostRuntime) -> Result<(), Fail> {
    let mut shelf = RealShelf::new(rt.alloc(), &rt);
    let _ = fs::create_dir(&rt, "shelf-c");
    for (steps, faults) in NO_FILES.iter() {
        assert!(rt; are_answered(rt.alloc(), &mut shelf, steps) && shelf.faults() == *faults);
    }
    fs::remove_dir(&rt, "shelf-c")?;
    Ok(())
}

// How many bytes are taken of 10,000, in pieces, where there may be so many.
fn taken(alloc: Global, piece: usize, max: u64, fail: &[u64]) -> Result<usize, TakeError>
    requires { 0 < piece }
{
    let text = vec![in alloc; 7; 10_000].map_err(|_| TakeError::Memory)?;
    let fail = Vec::from_slice(alloc, fail).map_err(|_| TakeError::Memory)?;
    let mut src = MemSource::new(text, fail, piece);
    Ok(take_all(alloc, &mut src, max)?.len())
}

// The most bytes of a call, how many bytes there may be, the calls that fail, and the answer.
static TAKEN: [(usize, u64, &[u64], Result<usize, TakeError>); 7] = [
    (1, 10_000, &[], Ok(10_000)),
    (5_000, 10_000, &[], Ok(10_000)),
    (5_000, u64::MAX, &[], Ok(10_000)),
    (1, 9_999, &[], Err(TakeError::Long)),
    (5_000, 9_999, &[], Err(TakeError::Long)),
    (5_000, 10_000, &[1], Err(TakeError::Failed)),
    (5_000, 10_000, &[9], Ok(10_000)),
];

#[test]
fn a_source_is_taken_to_its_end(rt: HostRuntime) {
    for (piece, max, fail, answer) in TAKEN.iter() {
        assert!(rt; *piece > 0 && taken(rt.alloc(), *piece, *max, fail) == *answer);
    }
}
