//! Large work, which is done where there is memory, and scripts and files that are too long.

ghost use Rattle.std.specs.Prelude.{None};

use super::calls::{WHOLE, call, padded, words_of};
use super::known::{LONG, OTHER, TWO, ZEROS};
use std::alloc::{AllocError, Global};
use std::test::Fail;
use zf_dev::{Failed, LoadError, MemSink, MemSource, Shelf};
use zf_program::{Status, zfpi};

// Words, whether the values are zeros in place of squares, what the stream begins with, its length, and
// whether the values come back as they were. Behind a beginning that is named all is zero.
type Large = (&'static str, bool, &'static [u8], usize, bool);

static LARGE: [Large; 5] = [
    ("compress int64 3x5x7x11 reversible", false, b"", 2552, true),
    ("compress int64 3x5x7x11 rate 4096", false, b"", 6168, false),
    ("compress int64 33x35 reversible", false, b"", 1816, true),
    ("compress int32 2310 rate 256", false, b"", 18512, false),
    ("compress int32 4x4x4x4 rate 4096", true, LONG, 536, true),
];

// The raw values: zeros, or squares.
fn values(alloc: Global, zeros: bool) -> Result<Vec<u8>, AllocError> {
    if zeros {
        return padded(alloc, b"", 1024);
    }
    let mut raw = Vec::new(alloc);
    for k in 0..1155i64 {
        raw.extend_from_slice(&k.wrapping_mul(k).to_le_bytes())?;
    }
    Ok(raw)
}

// A program that always said that there is no memory would meet the clauses.
fn goes_there_and_back(alloc: Global, row: &Large) -> Result<bool, AllocError> {
    let raw = values(alloc, row.1)?;
    let goes = is_made_and_comes_back(alloc, row, &raw);
    drop(raw);
    goes
}

// The same with the raw values.
fn is_made_and_comes_back(alloc: Global, row: &Large, raw: &[u8]) -> Result<bool, AllocError> {
    let (words, _, prefix, len, exact) = *row;
    let stream = padded(alloc, prefix, len)?;
    let made = call(alloc, words, raw, OTHER, &WHOLE)?;
    let is_made = made.status == Status::Done
        && made.out.bytes().len() == len
        && (prefix.is_empty() || made.out.bytes() == stream.as_slice());
    let back = comes_back(alloc, made.out.bytes(), raw, exact);
    drop(made);
    drop(stream);
    Ok(is_made && back?)
}

// Whether a stream is restored as so many bytes, or as exactly these.
fn comes_back(alloc: Global, stream: &[u8], raw: &[u8], exact: bool) -> Result<bool, AllocError> {
    let back = call(alloc, "restore", stream, OTHER, &WHOLE)?;
    let comes = back.status == Status::Done
        && back.out.bytes().len() == raw.len()
        && (!exact || back.out.bytes() == raw);
    drop(back);
    Ok(comes)
}

#[test]
fn large_values_go_there_and_back(rt: HostRuntime) -> Result<(), Fail> {
    for row in LARGE.iter() {
        assert!(rt; goes_there_and_back(rt.alloc(), row)?);
    }
    Ok(())
}

const REPLIES: &[u8] =
    b"196608\nhits 0 misses 8192 writes 4096\n-5\nhits 2 misses 8192 writes 4096\n";

// Whether a script is run on such a file.
fn is_run(alloc: Global, file: &[u8]) -> Result<bool, AllocError> {
    let script = b"fill 3\nsum\nstats\nset 255,255 -5\nget 255,255\nstats\n";
    let ended = call(alloc, "run a", script, file, &WHOLE)?;
    let so = ended.status == Status::Done && ended.out.bytes() == REPLIES;
    drop(ended);
    Ok(so)
}

#[test]
fn a_large_array_is_made_and_run(rt: HostRuntime) -> Result<(), Fail> {
    let made = call(rt.alloc(), "new a int32 256x256 512", b"", b"", &WHOLE)?;
    let is_made = made.status == Status::Done;
    let ran = match made.shelf.file("a") {
        Some(file) => is_run(rt.alloc(), file),
        None => Ok(false),
    };
    drop(made);
    assert!(rt; is_made && ran?);
    Ok(())
}

static TOO_LONG: [(&str, &[u8]); 2] = [("run a", ZEROS), ("look a", TWO)];

#[test]
fn a_script_that_is_too_long_is_told(rt: HostRuntime) -> Result<(), Fail> {
    let script = vec![in rt.alloc(); b'\n'; 16_777_217]?;
    for (words, file) in TOO_LONG.iter() {
        let ended = call(rt.alloc(), words, &script, file, &WHOLE)?;
        assert!(rt;
            ended.status == Status::ScriptLong
                && ended.err.bytes() == b"zfpi: script too long\n".as_slice()
                && ended.holds(file)
        );
        drop(ended);
    }
    Ok(())
}

// A shelf whose files are all too long. It exposes nothing of them.
#[derive(Drop)]
struct Overlong;

impl Shelf for Overlong {
    ghost files = { λ s. None };

    ghost faults = { λ s. 0 };

    ghost fronts = { λ old name count answer new. Unit {0} };

    ghost loads = { λ old name answer new. Unit {0} };

    ghost saves = { λ old name bytes ok new. Unit {0} };

    ghost never_fails = { λ s. Unit {0} };

    ghost always_saves = { λ s. Unit {0} };

    fn front(
        &mut self,
        _alloc: Global,
        _name: &str,
        _max: u64,
        _count: usize,
    ) -> Result<Vec<u8>, LoadError> {
        Err(LoadError::Long)
    }

    fn load(&mut self, _alloc: Global, _name: &str, _max: u64) -> Result<Vec<u8>, LoadError> {
        Err(LoadError::Long)
    }

    fn save(&mut self, _name: &str, _bytes: &[u8]) -> Result<(), Failed> {
        Ok(())
    }
}

#[test]
fn a_file_that_is_too_long_is_told(rt: HostRuntime) -> Result<(), Fail> {
    let alloc = rt.alloc();
    let words = words_of(alloc, "run a")?;
    let mut src = MemSource::new([b'x'].to_vec(alloc)?, Vec::new(alloc), 1);
    let mut out = MemSink::new(alloc, Vec::new(alloc), 1000);
    let mut err = MemSink::new(alloc, Vec::new(alloc), 1000);
    let status = zfpi(alloc, &words, &mut src, &mut out, &mut err, &mut Overlong);
    assert!(rt;
        status == Status::FileLong
            && err.bytes() == b"zfpi: file too long\n".as_slice()
            && src.left().len() == 1
            && out.bytes().is_empty()
    );
    Ok(())
}

static CODES: [(Status, u8); 4] = [
    (Status::Missing, 7),
    (Status::ScriptLong, 8),
    (Status::FileLong, 9),
    (Status::SaveFault, 12),
];

#[test]
fn a_status_has_its_code(rt: HostRuntime) {
    for (status, code) in CODES.iter() {
        assert!(rt; status.code() == *code);
    }
}
