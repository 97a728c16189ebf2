//! Calls of the program over devices in memory.

use std::alloc::{AllocError, Global};
use zf_dev::{MemShelf, MemSink, MemSource, Shelf};
use zf_program::{Status, zfpi};

/// How many bytes the devices move at once, and the number of the call of each that fails. The two files of
/// the shelf are saved by its calls 0 and 1.
#[derive(Clone, Copy)]
pub struct Devices {
    pub piece: usize,
    pub read: u64,
    pub write: u64,
    pub error: u64,
    pub shelf: u64,
}

/// The number of a call that is never made.
pub const NEVER: u64 = u64::MAX;

/// Devices that never fail and move all at once; and byte by byte; and such that no byte can be read.
pub const WHOLE: Devices = Devices {
    piece: 1 << 20,
    read: NEVER,
    write: NEVER,
    error: NEVER,
    shelf: NEVER,
};

pub const BYTES: Devices = Devices { piece: 1, ..WHOLE };

const UNREADABLE: Devices = Devices { read: 0, ..WHOLE };

/// Both kinds of devices that never fail, for calls that do the same on each.
///
/// Tables are statics: a constant's rows can become steps of the test that names it, and be proved as such.
pub static BOTH: [Devices; 2] = [WHOLE, BYTES];

/// Devices on which no byte can be read, for one call and for two.
pub static NO_INPUT: [Devices; 1] = [UNREADABLE];

pub static NO_INPUT_TWICE: [Devices; 2] = [UNREADABLE, UNREADABLE];

/// A call of the program on a shelf that holds `file` as `a`, and how it ends: the status, what is written,
/// the error line, and the file `a` then.
#[derive(Clone, Copy)]
pub struct Row {
    pub file: &'static [u8],
    pub words: &'static str,
    pub input: &'static [u8],
    pub status: Status,
    pub out: &'static [u8],
    pub line: &'static [u8],
    pub after: &'static [u8],
}

/// How a call ended, and what its devices hold then.
#[derive(Drop)]
pub struct Ended {
    pub status: Status,
    pub src: MemSource,
    pub out: MemSink,
    pub err: MemSink,
    pub shelf: MemShelf,
}

impl Ended {
    /// Whether the shelf holds this file as `a`, and the other one as it was.
    pub fn holds(&self, file: &[u8]) -> bool {
        self.shelf.file("a") == Some(file) && self.shelf.file("kept") == Some(KEPT)
    }

    /// Whether the call ended as its row says, but for what is written, and saw the end of its input once at
    /// most.
    pub fn is_as_said(&self, row: &Row) -> bool {
        self.status == row.status
            && self.err.bytes() == row.line
            && self.holds(row.after)
            && self.src.ends() <= 1
    }

    /// Whether the work was done, with no line on the error output.
    pub fn is_quiet(&self) -> bool {
        self.status == Status::Done && self.err.bytes().is_empty()
    }

    /// How many calls of the devices failed.
    pub fn faults(&self) -> u64 {
        let streams = self.src.faults().saturating_add(self.out.faults());
        let others = self.err.faults().saturating_add(self.shelf.faults());
        streams.saturating_add(others)
    }
}

// The other file of the shelf, which no command is to touch.
const KEPT: &[u8] = b"abc";

/// The words of a line.
pub fn words_of(alloc: Global, line: &str) -> Result<Vec<String>, AllocError> {
    let mut all = Vec::new(alloc);
    for word in line.split_whitespace() {
        all.push(String::from_str(alloc, word)?)?;
    }
    Ok(all)
}

/// Calls the program on a shelf that holds this file as `a`.
pub fn call(
    alloc: Global,
    words: &str,
    input: &[u8],
    file: &[u8],
    devices: &Devices,
) -> Result<Ended, AllocError> {
    let all = words_of(alloc, words)?;
    let ended = called(alloc, &all, input, file, devices);
    drop(all);
    ended
}

// The same with the words one by one. What may find no memory is made before the devices are.
fn called(
    alloc: Global,
    words: &[String],
    input: &[u8],
    file: &[u8],
    devices: &Devices,
) -> Result<Ended, AllocError> {
    let bytes = Vec::from_slice(alloc, input)?;
    let read = [devices.read].to_vec(alloc)?;
    let write = [devices.write].to_vec(alloc)?;
    let error = [devices.error].to_vec(alloc)?;
    let fail = [devices.shelf].to_vec(alloc)?;
    let piece = devices.piece.max(1);
    let mut src = MemSource::new(bytes, read, piece);
    let mut out = MemSink::new(alloc, write, piece);
    let mut err = MemSink::new(alloc, error, piece);
    let mut shelf = shelf_with(alloc, fail, file);
    let status = zfpi(alloc, words, &mut src, &mut out, &mut err, &mut shelf);
    Ok(Ended {
        status,
        src,
        out,
        err,
        shelf,
    })
}

// A shelf that holds this file as `a`, and the other one.
fn shelf_with(alloc: Global, fail: Vec<u64>, file: &[u8]) -> MemShelf {
    let mut shelf = MemShelf::new(alloc, fail);
    let _ = shelf.save("a", file);
    let _ = shelf.save("kept", KEPT);
    shelf
}

/// These bytes, and zeros behind them up to this length.
pub fn padded(alloc: Global, prefix: &[u8], len: usize) -> Result<Vec<u8>, AllocError> {
    let mut bytes = Vec::from_slice(alloc, prefix)?;
    bytes.resize(len, 0)?;
    Ok(bytes)
}

/// Whether a call ends as its row says, on these devices.
pub fn ends_so(alloc: Global, row: &Row, devices: &Devices) -> Result<bool, AllocError> {
    let ended = call(alloc, row.words, row.input, row.file, devices)?;
    let so = ended.is_as_said(row) && ended.out.bytes() == row.out;
    // Said as a call: the end of a scope would be proved with each part that is given back.
    drop(ended);
    Ok(so)
}

/// Whether all calls end as their rows say, on each of these devices.
///
/// A test hands its table on: what a function says of a table is proved with each byte of it, wherever the
/// function goes on.
pub fn all_end_so(alloc: Global, rows: &[Row], on: &[Devices]) -> Result<bool, AllocError> {
    let mut all = true;
    for row in rows {
        for devices in on {
            all &= ends_so(alloc, row, devices)?;
        }
    }
    Ok(all)
}
