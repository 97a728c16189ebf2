//! The spans of streams in each mode, from indexes of three steps, and every fault of a file.

ghost use Rattle.std.specs.Prelude.{◌<◌};

use std::alloc::Global;
use std::process::Abort;
use std::test::Fail;
use zf_index::{Chunked, IndexFault, Span, Spans, Verbatim};

// Eight values of int32 without loss: seven zeros and a one.
const ONE: [u8; 24] = [
    0x7a, 0x66, 0x70, 0x05, 0x70, 0, 0, 0, 0, 0, 0, 0x88, 0xc0, 0x07, 0, 0, 0, 0x04, 0, 0, 0, 0, 0,
    0,
];

// The values 1 to 5 of int32 without loss, at a precision of 32 planes, and of int64 in 30 bits a block.
const FIVE: [u8; 24] = [
    0x7a, 0x66, 0x70, 0x05, 0x40, 0, 0, 0, 0, 0, 0, 0x88, 0x1f, 0, 0, 0, 0xf0, 0x3e, 0, 0, 0, 0x18,
    0x01, 0,
];

const FIVE_PRECISE: [u8; 24] = [
    0x7a, 0x66, 0x70, 0x05, 0x40, 0, 0, 0, 0, 0, 0xf0, 0x81, 0, 0, 0, 0x60, 0x27, 0, 0, 0, 0x30,
    0x02, 0, 0,
];

const FIVE_RATE: [u8; 24] = [
    0x7a, 0x66, 0x70, 0x05, 0x41, 0, 0, 0, 0, 0, 0xd0, 0x01, 0, 0, 0, 0, 0, 0, 0, 0, 0, 0, 0, 0,
];

// The values 1 to 10 of int64 in 5x2 without loss.
const SHEET: [u8; 40] = [
    0x7a, 0x66, 0x70, 0x05, 0x45, 0, 0, 0x10, 0, 0, 0, 0x88, 0x3f, 0, 0, 0, 0, 0, 0, 0, 0x04, 0x91,
    0x40, 0xa7, 0x1f, 0, 0, 0, 0, 0, 0, 0, 0x82, 0x4a, 0xa0, 0x12, 0, 0, 0, 0,
];

// 70 values of int32 without loss, k squared at each k that four divides and zeros between them: more than 16
// blocks.
const SQUARES: [u8; 120] = [
    0x7a, 0x66, 0x70, 0x05, 0x50, 0x04, 0x00, 0x00, 0x00, 0x00, 0x00, 0x88, 0xc0, 0x06, 0x00, 0x00,
    0xa0, 0x7d, 0x06, 0x00, 0x00, 0x68, 0xbf, 0x01, 0x00, 0x00, 0xd7, 0x83, 0xfe, 0x05, 0x00, 0x00,
    0xda, 0x6f, 0x00, 0x00, 0x70, 0xbd, 0x3e, 0xe8, 0x67, 0x00, 0x00, 0x70, 0x3d, 0xe8, 0x6f, 0x00,
    0x00, 0x68, 0x5f, 0x0f, 0xa0, 0x5f, 0x01, 0x00, 0xa0, 0xfd, 0x06, 0x00, 0x80, 0xf6, 0xfa, 0x00,
    0xfa, 0x19, 0x00, 0x00, 0xd7, 0xeb, 0x83, 0xfe, 0x06, 0x00, 0xc0, 0xf5, 0x00, 0xfa, 0xa0, 0x7f,
    0x01, 0x00, 0x70, 0x3d, 0xe8, 0x6f, 0x00, 0x00, 0x5c, 0x5f, 0x5f, 0x0f, 0xfa, 0x19, 0x00, 0x80,
    0xf6, 0xf5, 0x00, 0xfa, 0x1b, 0x00, 0x80, 0xf6, 0xa0, 0x0f, 0x00, 0xfa, 0x13, 0x00, 0x80, 0xf6,
    0x1b, 0x00, 0x80, 0x7a, 0x50, 0x07, 0x00, 0x72,
];

// The spans of a stream: where the code of each block begins, and how many bits it has.
const SPANS: [(&[u8], &[(u64, u64)]); 6] = [
    (&ONE, &[(96, 6), (102, 40)]),
    (&FIVE, &[(96, 41), (137, 41)]),
    (&FIVE_PRECISE, &[(96, 39), (135, 36)]),
    (&FIVE_RATE, &[(96, 30), (126, 30)]),
    (&SHEET, &[(96, 95), (191, 95)]),
    (
        &SQUARES,
        &[
            (96, 6),
            (102, 40),
            (142, 38),
            (180, 50),
            (230, 36),
            (266, 56),
            (322, 48),
            (370, 58),
            (428, 34),
            (462, 58),
            (520, 54),
            (574, 62),
            (636, 46),
            (682, 62),
            (744, 56),
            (800, 64),
            (864, 32),
            (896, 64),
        ],
    ),
];

// Whether an index with a place for each `STEP` blocks has these spans, and no others.
fn has_spans<const STEP: usize>(
    rt: &impl Abort,
    alloc: Global,
    file: &[u8],
    spans: &[(u64, u64)],
) -> Result<bool, Fail>
    requires { 0 < STEP }
{
    let (h, _) = zf_header::read(file)?;
    let index = Spans::<STEP>::build(alloc, &h, file)?;
    assert!(rt; h.shape.blocks() == spans.len() as u64);
    for b in 0..spans.len() {
        let (at, len) = spans[b];
        if index.span(b as u64) != (Span { at, len }) {
            return Ok(false);
        }
    }
    Ok(true)
}

#[test]
fn spans_are_those_of_the_stream(rt: HostRuntime) -> Result<(), Fail> {
    for (file, spans) in SPANS.iter() {
        assert!(rt; has_spans::<1>(&rt, rt.alloc(), file, spans)?);
        assert!(rt; has_spans::<5>(&rt, rt.alloc(), file, spans)?);
        assert!(rt; has_spans::<16>(&rt, rt.alloc(), file, spans)?);
    }
    Ok(())
}

// How many there are of the bytes of FIVE and zeros behind them, the place of one and what is put there, and
// the fault.
const FAULTS: [(usize, usize, u8, Option<IndexFault>); 11] = [
    (24, 23, 0x00, None),
    (12, 11, 0x88, Some(IndexFault::Truncated(0))),
    (17, 11, 0x88, Some(IndexFault::Truncated(0))),
    (18, 11, 0x88, Some(IndexFault::Truncated(1))),
    (22, 11, 0x88, Some(IndexFault::Truncated(1))),
    (23, 11, 0x88, Some(IndexFault::Truncated(2))),
    (24, 23, 0x80, Some(IndexFault::Pad)),
    (24, 22, 0x05, Some(IndexFault::Pad)),
    (25, 23, 0x80, Some(IndexFault::Pad)),
    (25, 23, 0x00, Some(IndexFault::Trailing)),
    (32, 30, 0x01, Some(IndexFault::Trailing)),
];

#[test]
fn each_fault_of_a_file(rt: HostRuntime) -> Result<(), Fail> {
    for (count, at, byte, fault) in FAULTS.iter() {
        let mut bytes = [0; 40];
        bytes[..24].copy_from_slice(&FIVE);
        assert!(rt; *at < 40 && *count <= 40);
        bytes[*at] = *byte;
        let file = &bytes[..*count];
        let (h, _) = zf_header::read(file)?;
        assert!(rt; Verbatim::build(rt.alloc(), &h, file).err() == *fault);
        assert!(rt; Chunked::build(rt.alloc(), &h, file).err() == *fault);
    }
    Ok(())
}
