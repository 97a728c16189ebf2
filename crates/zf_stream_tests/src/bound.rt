//! What is certified of streams in one to four dimensions, the edge of the premise, and each fault of a file.

ghost use Rattle.std.specs.Prelude.{IsTrue};
ghost use Rattle.zf_header.specs.HeaderBits.{IsRate};

use crate::support::prefix;
use std::alloc::Global;
use std::process::Abort;
use std::test::Fail;
use zf_base::Ty;
use zf_bound::{Certified, bound};
use zf_header::{Header, MAX_RATE, Mode};
use zf_index::IndexFault;

// The line 1, 0, 0, 0 of int32 at 64 bits a block: all bits of its code are zero.
const ZEROS: [u8; 24] = [
    0x7a, 0x66, 0x70, 0x05, 0x30, 0, 0, 0, 0, 0, 0xf0, 0x03, 0, 0, 0, 0, 0, 0, 0, 0, 0, 0, 0, 0,
];

// Sixteen times 3 in 4 x 4 of int32 at 128 bits a block.
const THREES: [u8; 32] = [
    0x7a, 0x66, 0x70, 0x05, 0x34, 0, 0, 0x30, 0, 0, 0xf0, 0x07, 0, 0, 0, 0x60, 0x05, 0, 0, 0, 0, 0,
    0, 0, 0, 0, 0, 0, 0, 0, 0, 0,
];

// Four times -1073741824 of int32 at 1 bit a block: not even the top plane is whole.
const ONE_BIT: [u8; 16] = [
    0x7a, 0x66, 0x70, 0x05, 0x30, 0, 0, 0, 0, 0, 0, 0, 0x01, 0, 0, 0,
];

// The line 1, 2, 3, 4 of int32 at 39 bits a block, which the codes of all planes fill.
const ALL_PLANES: [u8; 24] = [
    0x7a, 0x66, 0x70, 0x05, 0x30, 0, 0, 0, 0, 0, 0x60, 0x02, 0, 0, 0, 0x60, 0x27, 0, 0, 0, 0, 0, 0,
    0,
];

// The same at 38 bits, one too few for the lowest plane.
const ONE_BIT_LESS: [u8; 24] = [
    0x7a, 0x66, 0x70, 0x05, 0x30, 0, 0, 0, 0, 0, 0x50, 0x02, 0, 0, 0, 0x60, 0x27, 0, 0, 0, 0, 0, 0,
    0,
];

// Two lines of int32 at 40 bits a block, 0, 0, 0, 0 and 100, -200, 300, -400.
const LAST_IS_COARSE: [u8; 24] = [
    0x7a, 0x66, 0x70, 0x05, 0x70, 0, 0, 0, 0, 0, 0x70, 0x02, 0, 0, 0, 0, 0, 0, 0, 0x40, 0xf8, 0x05,
    0, 0,
];

// The same, the other way round.
const FIRST_IS_COARSE: [u8; 24] = [
    0x7a, 0x66, 0x70, 0x05, 0x70, 0, 0, 0, 0, 0, 0x70, 0x02, 0, 0, 0x40, 0xf8, 0x05, 0, 0, 0, 0, 0,
    0, 0,
];

// The line 1, 2, 3, 4 of int64 at 80 bits a block.
const WIDE: [u8; 24] = [
    0x7a, 0x66, 0x70, 0x05, 0x31, 0, 0, 0, 0, 0, 0xf0, 0x04, 0, 0, 0, 0, 0, 0, 0, 0x60, 0x27, 0, 0,
    0,
];

// The zeros of 4 x 4 x 4 of int32 at 31 bits a block, one too few for the lowest plane.
const CUBE: [u8; 16] = [
    0x7a, 0x66, 0x70, 0x45, 0x38, 0, 0x30, 0, 0x30, 0, 0xe0, 0x01, 0, 0, 0, 0,
];

// The zeros of 4 x 4 x 4 x 4 of int32 at 32 bits a block, and of int64 at 1 bit.
const FOUR_AXES: [u8; 16] = [
    0x7a, 0x66, 0x70, 0x45, 0x3c, 0, 0x03, 0x30, 0, 0x03, 0xf0, 0x01, 0, 0, 0, 0,
];

const FOUR_WIDE_AXES: [u8; 16] = [
    0x7a, 0x66, 0x70, 0x45, 0x3d, 0, 0x03, 0x30, 0, 0x03, 0, 0, 0, 0, 0, 0,
];

// LAST_IS_COARSE with a one in the fill, and ZEROS with a byte behind it.
const PAD: [u8; 24] = [
    0x7a, 0x66, 0x70, 0x05, 0x70, 0, 0, 0, 0, 0, 0x70, 0x02, 0, 0, 0, 0, 0, 0, 0, 0x40, 0xf8, 0x05,
    0, 0x80,
];

const TRAILING: [u8; 25] = [
    0x7a, 0x66, 0x70, 0x05, 0x30, 0, 0, 0, 0, 0, 0xf0, 0x03, 0, 0, 0, 0, 0, 0, 0, 0, 0, 0, 0, 0, 0,
];

// Whether the header states a rate.
fn is_rate(h: &Header) -> bool
    ensures { IsTrue result → IsRate h.now.mode }
{
    match h.mode {
        Mode::Rate(bits) => 1 <= bits && bits <= MAX_RATE,
        Mode::Reversible | Mode::Precision(_) => false,
    }
}

// What is certified of a stream, or its fault.
fn certify(
    rt: &impl Abort,
    alloc: Global,
    file: &[u8],
    m: u64,
) -> Result<Result<Certified, IndexFault>, Fail> {
    let (h, _) = zf_header::read(file)?;
    assert!(rt; is_rate(&h));
    Ok(match h.ty {
        Ty::I32 => bound::<i32>(alloc, &h, file, m),
        Ty::I64 => bound::<i64>(alloc, &h, file, m),
    })
}

// The stream, the greatest magnitude of what was stored, the plane, the error, and whether it holds.
const BOUNDS: [(&[u8], u64, u32, u128, bool); 17] = [
    (&ZEROS, 100, 0, 4, true),
    (&THREES, 3, 0, 20, true),
    // The edge of the premise, in one dimension and in two.
    (&ZEROS, 268435434, 0, 4, true),
    (&ZEROS, 268435435, 0, 4, false),
    (&THREES, 268435418, 0, 20, true),
    (&THREES, 268435419, 0, 20, false),
    (&ONE_BIT, 0, 32, 17179869184, false),
    // At most so many bits, and not fewer.
    (&ALL_PLANES, 4, 0, 4, true),
    (&ONE_BIT_LESS, 4, 1, 8, true),
    // The greatest plane over the blocks.
    (&LAST_IS_COARSE, 400, 6, 256, true),
    (&FIRST_IS_COARSE, 400, 6, 256, true),
    (&CUBE, 5, 1, 148, true),
    (&FOUR_AXES, 5, 0, 340, true),
    (&FOUR_WIDE_AXES, 5, 63, 2361183241434822606932, false),
    (&WIDE, 4, 0, 4, true),
    (&WIDE, 1152921504606846954, 0, 4, true),
    (&WIDE, u64::MAX, 0, 4, false),
];

#[test]
fn streams_have_a_plane_and_a_bound(rt: HostRuntime) -> Result<(), Fail> {
    for (file, m, plane, error, holds) in BOUNDS {
        let certified = Certified {
            plane,
            error,
            holds,
        };
        assert!(rt; certify(&rt, rt.alloc(), file, m)? == Ok(certified));
    }
    Ok(())
}

// A stream, how many of its bytes there are, and the fault.
const FAULTS: [(&[u8], usize, IndexFault); 4] = [
    (&ZEROS, 13, IndexFault::Truncated(0)),
    (&ZEROS, 23, IndexFault::Truncated(1)),
    (&PAD, 24, IndexFault::Pad),
    (&TRAILING, 25, IndexFault::Trailing),
];

#[test]
fn faults_are_those_of_the_stream(rt: HostRuntime) -> Result<(), Fail> {
    for (file, count, fault) in FAULTS {
        assert!(rt; certify(&rt, rt.alloc(), prefix(file, count), 0)? == Err(fault));
    }
    Ok(())
}
