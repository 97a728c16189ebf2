//! Raw values and their streams, each way, and what is answered of bytes that are none.

use crate::support::{Kind, Moves, NEVER, PIECES, compressed, devices, prefix, restored};
use std::test::Fail;
use zf_base::Ty;
use zf_header::{HeaderFault, Mode};
use zf_stream::{StreamFault, restore_where};

/// Raw values, their stream, and what comes back of it: the values, or what the rate or the precision leaves
/// of them.
struct Row {
    kind: Kind,
    raw: &'static [u8],
    stream: &'static [u8],
    back: &'static [u8],
}

// Five values of 32 bits: 1, -2, 3, -4 and the greatest. The second block is partial.
const LINE: &[u8] = b"\x01\0\0\0\xfe\xff\xff\xff\x03\0\0\0\xfc\xff\xff\xff\xff\xff\xff\x7f";

// Three by two values of 64 bits: 1, 2, 3, 4, 5 and -6.
const SHEET: &[u8] = b"\x01\0\0\0\0\0\0\0\x02\0\0\0\0\0\0\0\x03\0\0\0\0\0\0\0\x04\0\0\0\0\0\0\0\
      \x05\0\0\0\0\0\0\0\xfa\xff\xff\xff\xff\xff\xff\xff";

// Four values of 32 bits, of which two bits are kept: both are one, and more is cut off.
const CUT: &[u8] = b"\0\0\0\x30\0\0\0\xd0\0\0\0\xd0\0\0\0\x30";

// The last two: 1 to 4, whose planes are all kept, and four times -2^30, of which one is.
const ROWS: [Row; 5] = [
    Row {
        kind: (Ty::I32, 1, [5, 1, 1, 1], Mode::Reversible),
        raw: LINE,
        stream: b"\x7a\x66\x70\x05\x40\0\0\0\0\0\0\x88\x1f\0\0\x80\x60\x57\x98\x3f\0\0\0\0\0\0\0\x0a\0\0\0\0",
        back: LINE,
    },
    Row {
        kind: (Ty::I64, 2, [3, 2, 1, 1], Mode::Reversible),
        raw: SHEET,
        stream: b"\x7a\x66\x70\x05\x25\0\0\x10\0\0\0\x88\x3f\0\0\0\0\0\0\x80\0\x08\x08\x0b\x88\0\x52\x22\
                  \x6b\x11\0\x4e\x02\0\0\0\0\0\0\0",
        back: SHEET,
    },
    Row {
        kind: (Ty::I32, 1, [4, 1, 1, 1], Mode::Rate(2)),
        raw: CUT,
        stream: b"\x7a\x66\x70\x05\x30\0\0\0\0\0\x10\0\x01\0\0\0",
        back: b"\0\0\0\x40\0\0\0\xc0\0\0\0\x40\0\0\0\xc0",
    },
    Row {
        kind: (Ty::I32, 1, [4, 1, 1, 1], Mode::Precision(32)),
        raw: b"\x01\0\0\0\x02\0\0\0\x03\0\0\0\x04\0\0\0",
        stream: b"\x7a\x66\x70\x05\x30\0\0\0\0\0\xf0\x81\0\0\0\x60\x27\0\0\0\0\0\0\0",
        back: b"\0\0\0\0\x02\0\0\0\x02\0\0\0\x04\0\0\0",
    },
    Row {
        kind: (Ty::I32, 1, [4, 1, 1, 1], Mode::Precision(1)),
        raw: b"\0\0\0\xc0\0\0\0\xc0\0\0\0\xc0\0\0\0\xc0",
        stream: b"\x7a\x66\x70\x05\x30\0\0\0\0\0\0\x80\x03\0\0\0",
        back: b"\0\0\0\x80\0\0\0\x80\0\0\0\x80\0\0\0\x80",
    },
];

#[test]
fn raw_values_become_a_stream_and_come_back(rt: HostRuntime) -> Result<(), Fail> {
    for row in ROWS.iter() {
        for moves in PIECES.iter() {
            let out = compressed(&rt, rt.alloc(), &row.kind, row.raw, moves, &Ok(()))?;
            let back = restored(&rt, rt.alloc(), row.stream, moves, &Ok(()))?;
            assert!(rt; out.bytes() == row.stream && back.bytes() == row.back);
        }
    }
    Ok(())
}

// The bytes for four values and how many there are, the call of the source and the call of the sink that
// fail, the answer, and how many bytes are written.
const LENGTHS: [(&[u8], usize, u64, u64, Result<(), StreamFault>, usize); 5] = [
    (CUT, 16, NEVER, NEVER, Ok(()), 16),
    (CUT, 15, NEVER, NEVER, Err(StreamFault::RawShort(15)), 8),
    (LINE, 17, NEVER, NEVER, Err(StreamFault::RawLong), 8),
    (CUT, 16, 1, NEVER, Err(StreamFault::Read), 8),
    (CUT, 16, NEVER, 1, Err(StreamFault::Write), 7),
];

#[test]
fn raw_values_are_as_many_as_the_shape_has(rt: HostRuntime) -> Result<(), Fail> {
    let kind = (Ty::I32, 1, [4, 1, 1, 1], Mode::Reversible);
    for (raw, count, read_fault, write_fault, answer, written) in LENGTHS.iter() {
        let moves = Moves {
            reads: 7,
            writes: 7,
            read_fault: *read_fault,
            write_fault: *write_fault,
        };
        let out = compressed(&rt, rt.alloc(), &kind, prefix(raw, *count), &moves, answer)?;
        assert!(rt; out.bytes().len() == *written);
    }
    Ok(())
}

// The stream of one value of 32 bits, 1, with a byte behind it; and with a one in the fill.
const ONE: &[u8] = b"\x7a\x66\x70\x05\0\0\0\0\0\0\0\x88\x1f\0\0\0\x30\0\0\0\0\0\0\0\0";

const FILLED: &[u8] = b"\x7a\x66\x70\x05\0\0\0\0\0\0\0\x88\x1f\0\0\0\x30\0\0\0\0\0\0\x01";

// The bytes and how many there are, the answer, and how many bytes of the value are written.
const JUDGED: [(&[u8], usize, Result<(), StreamFault>, usize); 7] = [
    (ONE, 24, Ok(()), 4),
    (ONE, 11, Err(StreamFault::Header(HeaderFault::Short)), 0),
    (ONE, 16, Err(StreamFault::Truncated(0)), 0),
    (ONE, 20, Err(StreamFault::Truncated(1)), 4),
    (ONE, 25, Err(StreamFault::Trailing), 4),
    (FILLED, 24, Err(StreamFault::Pad), 4),
    (ONE, 0, Err(StreamFault::Header(HeaderFault::Short)), 0),
];

#[test]
fn a_stream_is_judged_to_its_end(rt: HostRuntime) -> Result<(), Fail> {
    for (stream, count, answer, written) in JUDGED.iter() {
        for moves in PIECES.iter() {
            let out = restored(&rt, rt.alloc(), prefix(stream, *count), moves, answer)?;
            assert!(rt; out.bytes() == prefix(&[1, 0, 0, 0], *written));
        }
    }
    Ok(())
}

// How many bytes of the stream there are, the type wanted, the answer, and how many bytes of the value are
// written.
const WANTED: [(usize, Ty, Result<bool, StreamFault>, usize); 8] = [
    (24, Ty::I32, Ok(true), 4),
    (24, Ty::I64, Ok(false), 0),
    (16, Ty::I32, Err(StreamFault::Truncated(0)), 0),
    (16, Ty::I64, Ok(false), 0),
    (20, Ty::I32, Err(StreamFault::Truncated(1)), 4),
    (25, Ty::I32, Err(StreamFault::Trailing), 4),
    (25, Ty::I64, Ok(false), 0),
    (11, Ty::I64, Err(StreamFault::Header(HeaderFault::Short)), 0),
];

#[test]
fn a_stream_of_another_type_is_left(rt: HostRuntime) -> Result<(), Fail> {
    for (count, wanted, answer, written) in WANTED.iter() {
        for moves in PIECES.iter() {
            let (mut src, mut out) = devices(&rt, rt.alloc(), prefix(ONE, *count), moves)?;
            assert!(rt; restore_where(rt.alloc(), *wanted, &mut src, &mut out) == *answer);
            assert!(rt; out.bytes() == prefix(&[1, 0, 0, 0], *written));
        }
    }
    Ok(())
}
