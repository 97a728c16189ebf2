//! What the tests share: headers, devices in memory, and the two ways of a stream between them.

ghost use Rattle.std.specs.Prelude.{◌≡◌, IsTrue, IfOk};
ghost use Rattle.zf_header.specs.HeaderBits.{IsMode};

use std::alloc::Global;
use std::process::Abort;
use std::test::Fail;
use zf_base::{Shape, Ty};
use zf_dev::{Failed, MemSink, MemSource, Source};
use zf_header::{Header, MAX_PRECISION, MAX_RATE, Mode};
use zf_stream::{StreamFault, compress, restore};

/// An array: its type, its number of dimensions, its sizes and the mode of its stream.
pub(crate) type Kind = (Ty, u8, [u64; 4], Mode);

/// Whether a header can state the mode.
pub(crate) fn can_state(mode: &Mode) -> bool
    ensures { IsTrue result → IsMode mode.now }
{
    match *mode {
        Mode::Reversible => true,
        Mode::Rate(bits) => 1 <= bits && bits <= MAX_RATE,
        Mode::Precision(planes) => 1 <= planes && planes <= MAX_PRECISION,
    }
}

/// The header of an array.
pub(crate) fn header_of(rt: &impl Abort, kind: &Kind) -> Result<Header, Fail>
    ensures ty { IfOk result (λ h. h.ty ≡ kind.now.0) }
    ensures mode { IfOk result (λ h. IsMode h.mode) }
{
    let (ty, dims, [nx, ny, nz, nw], mode) = *kind;
    assert!(rt; 1 <= dims && dims <= 4 && can_state(&mode));
    let shape = Shape::new(dims, nx, ny, nz, nw).ok().ok_or("a shape")?;
    Ok(Header { ty, shape, mode })
}

/// How many bytes the source and the sink move at a time, and which call of each fails.
#[derive(Clone, Copy)]
pub(crate) struct Moves {
    pub reads: usize,
    pub writes: usize,
    pub read_fault: u64,
    pub write_fault: u64,
}

pub(crate) const NEVER: u64 = u64::MAX;

/// Devices that move a byte at a time, and that move many.
pub(crate) const PIECES: [Moves; 2] = [
    Moves {
        reads: 1,
        writes: 1,
        read_fault: NEVER,
        write_fault: NEVER,
    },
    Moves {
        reads: 1000,
        writes: 1000,
        read_fault: NEVER,
        write_fault: NEVER,
    },
];

/// A source that keeps how much it was asked for at a time, at most.
#[derive(Debug, Drop)]
pub(crate) struct Asked {
    inner: MemSource,
    pub most: usize,
}

impl Source for Asked {
    ghost use Rattle.std.specs.Prelude.{◌≡◌, [], Some};

    ghost Kept = { Unit {0} };

    ghost contents = { λ s. Some s.inner.left };

    ghost faults = { λ s. s.inner.faults };

    ghost never_fails = { λ s. s.inner.fail ≡ [] };

    ghost kept = { λ _. tt };

    fn read(&mut self, buf: &mut [u8]) -> Result<usize, Failed> {
        self.most = self.most.max(buf.len());
        self.inner.read(buf)
    }
}

/// A source of these bytes, and a sink.
pub(crate) fn devices(
    rt: &impl Abort,
    alloc: Global,
    bytes: &[u8],
    moves: &Moves,
) -> Result<(Asked, MemSink), Fail> {
    assert!(rt; moves.reads > 0 && moves.writes > 0);
    let inner = MemSource::new(
        bytes.to_vec(alloc)?,
        [moves.read_fault].to_vec(alloc)?,
        moves.reads,
    );
    let out = MemSink::new(alloc, [moves.write_fault].to_vec(alloc)?, moves.writes);
    Ok((Asked { inner, most: 0 }, out))
}

/// What is written where raw values are compressed, with this answer.
pub(crate) fn compressed(
    rt: &impl Abort,
    alloc: Global,
    kind: &Kind,
    raw: &[u8],
    moves: &Moves,
    answer: &Result<(), StreamFault>,
) -> Result<MemSink, Fail> {
    let h = header_of(rt, kind)?;
    let (mut src, mut out) = devices(rt, alloc, raw, moves)?;
    assert!(rt; compress(alloc, &h, &mut src, &mut out) == *answer);
    assert!(rt; src.most <= 262144);
    Ok(out)
}

/// What is written where a stream is restored, with this answer.
pub(crate) fn restored(
    rt: &impl Abort,
    alloc: Global,
    stream: &[u8],
    moves: &Moves,
    answer: &Result<(), StreamFault>,
) -> Result<MemSink, Fail> {
    let (mut src, mut out) = devices(rt, alloc, stream, moves)?;
    assert!(rt; restore(alloc, &mut src, &mut out) == *answer);
    assert!(rt; src.most <= 262144);
    Ok(out)
}

/// The first bytes, or all where there are fewer.
pub(crate) fn prefix(bytes: &[u8], len: usize) -> &[u8] {
    &bytes[..len.min(bytes.len())]
}

/// Whether all bytes are zero.
pub(crate) fn are_zeros(bytes: &[u8]) -> bool {
    for byte in bytes {
        if *byte != 0 {
            return false;
        }
    }
    true
}
