//! Values of 8 and 16 bits, and their streams, each way.

use crate::support::{Kind, Moves, NEVER, PIECES, compressed, devices, header_of, prefix};
use std::alloc::Global;
use std::process::Abort;
use std::test::Fail;
use zf_base::Ty;
use zf_dev::MemSink;
use zf_header::{HeaderFault, Mode};
use zf_narrow::{Narrow, NarrowFault, compress_narrow, demote, promote, restore_narrow};
use zf_stream::StreamFault;

// Values, the numbers that they stand for, and the values of these numbers: on a step, between two, and
// beyond the type.
const STANDS: [(Narrow, i32, i32, i32); 15] = [
    (Narrow::I8, 8388608, 1, 8388608),
    (Narrow::I8, 8388607, 0, 0),
    (Narrow::I8, -1, -1, -8388608),
    (Narrow::I8, i32::MIN, -128, -1073741824),
    (Narrow::I8, i32::MAX, 127, 1065353216),
    (Narrow::U8, 0, 128, 0),
    (Narrow::U8, i32::MIN, 0, -1073741824),
    (Narrow::U8, i32::MAX, 255, 1065353216),
    (Narrow::I16, 65536, 2, 65536),
    (Narrow::I16, i32::MIN, -32768, -1073741824),
    (Narrow::I16, i32::MAX, 32767, 1073709056),
    (Narrow::U16, -32768, 32767, -32768),
    (Narrow::U16, 0, 32768, 0),
    (Narrow::U16, i32::MIN, 0, -1073741824),
    (Narrow::U16, i32::MAX, 65535, 1073709056),
];

#[test]
fn values_stand_for_numbers(rt: HostRuntime) {
    for (n, value, number, stands) in STANDS.iter() {
        let found = demote(*n, *value);
        assert!(rt; found == *number && promote(*n, found) == *stands);
    }
}

/// What is written where narrow values are compressed, with this answer.
fn compressed_narrow(
    rt: &impl Abort,
    alloc: Global,
    n: Narrow,
    kind: &Kind,
    raw: &[u8],
    moves: &Moves,
    answer: &Result<(), StreamFault>,
) -> Result<MemSink, Fail> {
    let h = header_of(rt, kind)?;
    let (mut src, mut out) = devices(rt, alloc, raw, moves)?;
    assert!(rt; h.ty == Ty::I32);
    assert!(rt; compress_narrow(alloc, n, &h, &mut src, &mut out) == *answer);
    Ok(out)
}

/// What is written where a stream is restored as narrow values, with this answer.
fn restored_narrow(
    rt: &impl Abort,
    alloc: Global,
    n: Narrow,
    stream: &[u8],
    moves: &Moves,
    answer: &Result<(), NarrowFault>,
) -> Result<MemSink, Fail> {
    let (mut src, mut out) = devices(rt, alloc, stream, moves)?;
    assert!(rt; restore_narrow(alloc, n, &mut src, &mut out) == *answer);
    Ok(out)
}

/// Narrow values, their stream, and what comes back of it.
struct Row {
    n: Narrow,
    kind: Kind,
    raw: &'static [u8],
    stream: &'static [u8],
    back: &'static [u8],
}

// Those of one value stand for 2^23, -2^30 and 0; of the last one a value comes back beyond the type.
const ROWS: [Row; 6] = [
    Row {
        n: Narrow::I8,
        kind: (Ty::I32, 1, [1, 1, 1, 1], Mode::Reversible),
        raw: b"\x01",
        stream: b"\x7a\x66\x70\x05\0\0\0\0\0\0\0\x88\x08\xb0\0\0",
        back: b"\x01",
    },
    Row {
        n: Narrow::I8,
        kind: (Ty::I32, 1, [1, 1, 1, 1], Mode::Reversible),
        raw: b"\x80",
        stream: b"\x7a\x66\x70\x05\0\0\0\0\0\0\0\x88\x61\x01\0\0",
        back: b"\x80",
    },
    Row {
        n: Narrow::U8,
        kind: (Ty::I32, 1, [1, 1, 1, 1], Mode::Reversible),
        raw: b"\x80",
        stream: b"\x7a\x66\x70\x05\0\0\0\0\0\0\0\x88\0\0\0\0",
        back: b"\x80",
    },
    Row {
        n: Narrow::U16,
        kind: (Ty::I32, 1, [1, 1, 1, 1], Mode::Reversible),
        raw: b"\0\x80",
        stream: b"\x7a\x66\x70\x05\0\0\0\0\0\0\0\x88\0\0\0\0",
        back: b"\0\x80",
    },
    Row {
        n: Narrow::I8,
        kind: (Ty::I32, 1, [4, 1, 1, 1], Mode::Rate(16)),
        raw: b"\x01\xff\x03\x80",
        stream: b"\x7a\x66\x70\x05\x30\0\0\0\0\0\xf0\0\xec\x43\0\0",
        back: b"\xf4\xfc\x04\x8c",
    },
    Row {
        n: Narrow::U16,
        kind: (Ty::I32, 1, [4, 1, 1, 1], Mode::Precision(8)),
        raw: b"\x01\0\xff\xff\0\x80\x34\x12",
        stream: b"\x7a\x66\x70\x05\x30\0\0\0\0\0\x70\x80\x72\x17\x46\x29",
        back: b"\0\0\x80\xff\x80\x80\x80\x11",
    },
];

#[test]
fn narrow_values_become_a_stream_and_come_back(rt: HostRuntime) -> Result<(), Fail> {
    for row in ROWS.iter() {
        for moves in PIECES.iter() {
            let (n, raw) = (row.n, row.raw);
            let out = compressed_narrow(&rt, rt.alloc(), n, &row.kind, raw, moves, &Ok(()))?;
            let back = restored_narrow(&rt, rt.alloc(), n, row.stream, moves, &Ok(()))?;
            assert!(rt; out.bytes() == row.stream && back.bytes() == row.back);
        }
    }
    Ok(())
}

/// So many values of 32 bits without loss.
fn lossless(count: u64) -> Kind {
    (Ty::I32, 1, [count, 1, 1, 1], Mode::Reversible)
}

// How many bytes there are for two values, the call of the source and the call of the sink that fail, the
// answer, and how many bytes are written.
const LENGTHS: [(Narrow, usize, u64, u64, Result<(), StreamFault>, usize); 7] = [
    (
        Narrow::I16,
        3,
        NEVER,
        NEVER,
        Err(StreamFault::RawShort(3)),
        8,
    ),
    (Narrow::I16, 5, NEVER, NEVER, Err(StreamFault::RawLong), 8),
    (Narrow::I16, 6, NEVER, NEVER, Err(StreamFault::RawLong), 8),
    (
        Narrow::U8,
        1,
        NEVER,
        NEVER,
        Err(StreamFault::RawShort(1)),
        8,
    ),
    (Narrow::U8, 3, NEVER, NEVER, Err(StreamFault::RawLong), 8),
    (Narrow::I16, 4, 1, NEVER, Err(StreamFault::Read), 8),
    (Narrow::I16, 4, NEVER, 1, Err(StreamFault::Write), 3),
];

#[test]
fn narrow_values_are_as_many_as_the_shape_has(rt: HostRuntime) -> Result<(), Fail> {
    let kind = lossless(2);
    for (n, count, read_fault, write_fault, answer, written) in LENGTHS.iter() {
        let moves = Moves {
            reads: 3,
            writes: 3,
            read_fault: *read_fault,
            write_fault: *write_fault,
        };
        let raw = prefix(ROWS[0].stream, *count);
        let out = compressed_narrow(&rt, rt.alloc(), *n, &kind, raw, &moves, answer)?;
        assert!(rt; out.bytes().len() == *written);
    }
    Ok(())
}

// A value and a half of int16, and what stands for them: for the half a zero byte is given.
const HALF: &[u8] = b"\x01\0\x02";

const HALF_GIVES: &[u8] = b"\0\x80\0\0\0";

// How many values the array has, of how many bytes of each, and the answers to both.
const HALVES: [(
    u64,
    usize,
    Result<(), StreamFault>,
    usize,
    Result<(), StreamFault>,
); 3] = [
    (1, 2, Ok(()), 4, Ok(())),
    (
        1,
        3,
        Err(StreamFault::RawLong),
        5,
        Err(StreamFault::RawLong),
    ),
    (
        2,
        3,
        Err(StreamFault::RawShort(3)),
        5,
        Err(StreamFault::RawShort(5)),
    ),
];

// The source gives a byte at a time.
#[test]
fn half_a_value_gives_a_byte(rt: HostRuntime) -> Result<(), Fail> {
    for (count, narrow, answer, full, same) in HALVES.iter() {
        let (kind, moves) = (lossless(*count), &PIECES[0]);
        let raw = prefix(HALF, *narrow);
        let out = compressed_narrow(&rt, rt.alloc(), Narrow::I16, &kind, raw, moves, answer)?;
        let raw = prefix(HALF_GIVES, *full);
        let as_full = compressed(&rt, rt.alloc(), &kind, raw, moves, same)?;
        assert!(rt; out.bytes() == as_full.bytes());
    }
    Ok(())
}

// The streams of the least value of 32 bits, and of five by seven zeros of 64 bits.
const LEAST: &[u8] = b"\x7a\x66\x70\x05\0\0\0\0\0\0\0\x88\x60\0\0\0";

const WIDE: &[u8] = b"\x7a\x66\x70\x05\x45\0\0\x60\0\0\0\x88\0\0\0\0";

const SHORT: NarrowFault = NarrowFault::Stream(StreamFault::Header(HeaderFault::Short));

// The bytes of a stream and how many there are, the call of the sink that fails, the answer, and what is
// written.
const RESTORED: [(Narrow, &[u8], usize, u64, Result<(), NarrowFault>, &[u8]); 10] = [
    (Narrow::I8, LEAST, 16, NEVER, Ok(()), b"\x80"),
    (Narrow::U8, LEAST, 16, NEVER, Ok(()), b"\0"),
    (Narrow::I16, LEAST, 16, NEVER, Ok(()), b"\0\x80"),
    (Narrow::U16, LEAST, 16, NEVER, Ok(()), b"\0\0"),
    (
        Narrow::I8,
        WIDE,
        16,
        NEVER,
        Err(NarrowFault::NotNarrow),
        b"",
    ),
    (
        Narrow::U16,
        WIDE,
        12,
        NEVER,
        Err(NarrowFault::NotNarrow),
        b"",
    ),
    (Narrow::I8, WIDE, 11, NEVER, Err(SHORT), b""),
    (
        Narrow::I8,
        LEAST,
        12,
        NEVER,
        Err(NarrowFault::Stream(StreamFault::Truncated(0))),
        b"",
    ),
    (
        Narrow::I16,
        LEAST,
        14,
        NEVER,
        Err(NarrowFault::Stream(StreamFault::Truncated(1))),
        b"\0",
    ),
    (
        Narrow::I16,
        LEAST,
        16,
        1,
        Err(NarrowFault::Stream(StreamFault::Write)),
        b"\0",
    ),
];

// The sink takes a byte at a time, and a byte that is owed is not written after a fault.
#[test]
fn streams_are_restored_as_narrow_values(rt: HostRuntime) -> Result<(), Fail> {
    for (n, stream, count, write_fault, answer, written) in RESTORED.iter() {
        let moves = Moves {
            reads: 5,
            writes: 1,
            read_fault: NEVER,
            write_fault: *write_fault,
        };
        let stream = prefix(stream, *count);
        let out = restored_narrow(&rt, rt.alloc(), *n, stream, &moves, answer)?;
        assert!(rt; out.bytes() == *written);
    }
    Ok(())
}

// The call of the sink that fails, the answer, and what is written of two values of int16.
const OWED: [(u64, Result<(), NarrowFault>, &[u8]); 4] = [
    (1, Err(NarrowFault::Stream(StreamFault::Write)), b"\x01"),
    (2, Err(NarrowFault::Stream(StreamFault::Write)), b"\x01\0"),
    (
        3,
        Err(NarrowFault::Stream(StreamFault::Write)),
        b"\x01\0\x02",
    ),
    (NEVER, Ok(()), b"\x01\0\x02\0"),
];

// The sink takes a byte at a time.
#[test]
fn a_byte_is_owed(rt: HostRuntime) -> Result<(), Fail> {
    let values = b"\0\x80\0\0\0\0\x01\0";
    let stream = compressed(&rt, rt.alloc(), &lossless(2), values, &PIECES[1], &Ok(()))?;
    for (write_fault, answer, written) in OWED.iter() {
        let moves = Moves {
            write_fault: *write_fault,
            ..PIECES[0]
        };
        let stream = stream.bytes();
        let out = restored_narrow(&rt, rt.alloc(), Narrow::I16, stream, &moves, answer)?;
        assert!(rt; out.bytes() == *written);
    }
    Ok(())
}

#[test]
fn every_value_of_8_bits_comes_back(rt: HostRuntime) -> Result<(), Fail> {
    let alloc = rt.alloc();
    let mut all = Vec::new(alloc);
    for byte in 0..=255u8 {
        all.push(byte)?;
    }
    let moves = Moves {
        reads: 100,
        writes: 100,
        ..PIECES[1]
    };
    for n in [Narrow::I8, Narrow::U8] {
        let out = compressed_narrow(&rt, alloc, n, &lossless(256), &all, &moves, &Ok(()))?;
        let back = restored_narrow(&rt, alloc, n, out.bytes(), &moves, &Ok(()))?;
        assert!(rt; back.bytes() == all.as_slice());
    }
    Ok(())
}
