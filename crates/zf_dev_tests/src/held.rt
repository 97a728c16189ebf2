//! What the devices over streams hold: how many bytes they move at a time, and in which order.

use std::alloc::{AllocError, Global};
use std::io;
use std::io::{ErrorKind, Read, Write};
use std::test::Fail;
use zf_dev::{RealSink, RealSource, Sink, Source, write_all};

// How many bytes each call of a stream moved, how often it was flushed, and whether each byte was one more
// than the one before.
#[derive(Drop)]
struct Log {
    sizes: [usize; 4],
    calls: usize,
    flushes: usize,
    next: u8,
    in_order: bool,
}

impl Log {
    fn new() -> Log {
        Log {
            sizes: [0; 4],
            calls: 0,
            flushes: 0,
            next: 0,
            in_order: true,
        }
    }

    // One more call, which moved these bytes.
    fn note(&mut self, bytes: &[u8]) {
        if self.calls < 4 {
            self.sizes[self.calls] = bytes.len();
        }
        self.calls = self.calls.saturating_add(1);
        for byte in bytes {
            self.in_order = self.in_order && *byte == self.next;
            self.next = byte.wrapping_add(1);
        }
    }
}

// A stream that takes at most so many bytes a call, and fails at one call.
#[derive(Drop)]
struct Taking<'a> {
    log: &'a mut Log,
    most: usize,
    fail: usize,
}

impl Write for Taking<'_> {
    fn write(&mut self, buf: &[u8]) -> io::Result<usize> {
        if self.log.calls == self.fail {
            self.log.note(&[]);
            return Err(ErrorKind::Other.into());
        }
        let count = buf.len().min(self.most);
        self.log.note(&buf[..count]);
        Ok(count)
    }

    fn flush(&mut self) -> io::Result<()> {
        self.log.flushes = self.log.flushes.saturating_add(1);
        Ok(())
    }
}

// A stream that gives so many bytes in all, as many a call as it is asked for.
#[derive(Drop)]
struct Giving<'a> {
    log: &'a mut Log,
    left: usize,
}

impl Read for Giving<'_> {
    fn read(&mut self, buf: &mut [u8]) -> io::Result<usize> {
        let count = buf.len().min(self.left);
        self.left -= count;
        let mut byte = self.log.next;
        for b in buf[..count].iter_mut() {
            *b = byte;
            byte = byte.wrapping_add(1);
        }
        self.log.note(&buf[..count]);
        Ok(count)
    }
}

const NEVER: usize = usize::MAX;

// The most bytes that the stream takes a call, and which call of it fails; pieces of so many bytes that are
// written, and a flush at each 0; how many of these steps fail, how many bytes each call of the stream moves,
// and how often it is flushed: once by each flush that does not fail.
static WRITES: [(usize, usize, [usize; 4], u64, [usize; 4], usize); 7] = [
    // Small pieces are held, up to 65,536 bytes.
    (
        NEVER,
        NEVER,
        [30_000, 30_000, 30_000, 0],
        0,
        [65_536, 24_464, 0, 0],
        1,
    ),
    (NEVER, NEVER, [1, 2, 3, 4], 0, [0, 0, 0, 0], 0),
    // A large one is handed on as it is, behind what was held.
    (
        NEVER,
        NEVER,
        [100, 65_536, 100_000, 0],
        0,
        [100, 65_536, 100_000, 0],
        1,
    ),
    (
        40_000,
        NEVER,
        [65_535, 1, 0, 0],
        0,
        [40_000, 25_536, 0, 0],
        2,
    ),
    // What was not handed on is held still.
    (NEVER, 0, [5, 0, 3, 0], 1, [0, 8, 0, 0], 1),
    (40_000, 1, [65_535, 0, 1, 0], 1, [40_000, 0, 25_536, 0], 1),
    // There is no room for the last byte.
    (NEVER, 0, [65_535, 2, 0, 0], 1, [0, 65_536, 0, 0], 2),
];

// Writes pieces of so many of these bytes, and flushes at each 0; says how many steps fail.
fn play<O: Sink>(out: &mut O, bytes: &[u8], steps: &[usize]) -> u64 {
    let mut rest = bytes;
    let mut failed = 0u64;
    for step in steps {
        let (piece, behind) = rest.split_at((*step).min(rest.len()));
        rest = behind;
        let done = if *step == 0 {
            out.flush()
        } else {
            write_all(out, piece)
        };
        if done.is_err() {
            failed = failed.saturating_add(1);
        }
    }
    failed
}

#[test]
fn a_sink_hands_on_large_pieces(rt: HostRuntime) -> Result<(), Fail> {
    let mut bytes = Vec::new(rt.alloc());
    for k in 0..200_000u32 {
        bytes.push((k % 256) as u8)?;
    }
    for row in WRITES.iter() {
        let (most, fail, steps, failed, sizes, flushes) = *row;
        let mut log = Log::new();
        let mut out = RealSink::new(Taking {
            log: &mut log,
            most,
            fail,
        });
        assert!(rt; play(&mut out, &bytes, &steps) == failed && out.faults() == failed);
        assert!(rt; log.sizes == sizes && log.in_order && log.flushes == flushes);
    }
    Ok(())
}

// Whether the source is told that it will be read to its end; for how many bytes it is asked, how many it
// gives, how many each call of the stream moves, and how many calls these are. At the end, too, the stream is
// asked once where the source is.
static READS: [(bool, [usize; 4], [usize; 4], [usize; 4], usize); 4] = [
    (
        false,
        [3, 10, 70_000, 5],
        [3, 10, 65_536, 5],
        [3, 10, 65_536, 5],
        4,
    ),
    (
        true,
        [3, 10, 70_000, 70_000],
        [3, 10, 65_523, 34_464],
        [65_536, 34_464, 0, 0],
        2,
    ),
    (
        false,
        [70_000, 70_000, 5, 5],
        [65_536, 34_464, 0, 0],
        [65_536, 34_464, 0, 0],
        4,
    ),
    (
        true,
        [70_000, 70_000, 5, 5],
        [65_536, 34_464, 0, 0],
        [65_536, 34_464, 0, 0],
        4,
    ),
];

// Room for so many bytes.
fn zeros(alloc: Global, len: usize) -> Result<Vec<u8>, AllocError> {
    vec![in alloc; 0; len]
}

// Asks a source for so many bytes, and notes those that it gives. Whether they are as many as wanted.
fn gives<S: Source>(
    src: &mut S,
    buf: &mut [u8],
    asked: usize,
    wanted: usize,
    seen: &mut Log,
) -> bool {
    let room = asked.min(buf.len());
    if room == 0 || src.read(&mut buf[..room]) != Ok(wanted) || wanted > buf.len() {
        return false;
    }
    seen.note(&buf[..wanted]);
    true
}

#[test]
fn a_source_reads_ahead_where_it_is_told(rt: HostRuntime) -> Result<(), Fail> {
    let mut buf = zeros(rt.alloc(), 70_000)?;
    for row in READS.iter() {
        let (ahead, asked, given, sizes, calls) = *row;
        let mut log = Log::new();
        let mut src = RealSource::new(Giving {
            log: &mut log,
            left: 100_000,
        });
        if ahead {
            src.read_ahead();
        }
        let mut seen = Log::new();
        for (count, wanted) in asked.iter().zip(given.iter()) {
            assert!(rt; gives(&mut src, &mut buf, *count, *wanted, &mut seen));
        }
        assert!(rt; seen.in_order && log.sizes == sizes && log.calls == calls);
    }
    Ok(())
}
