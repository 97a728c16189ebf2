//! Headers, both ways, and each fault of the bytes of one.

ghost use Rattle.std.specs.Prelude.{IsTrue};
ghost use Rattle.zf_header.specs.HeaderBits.{IsRate};

use crate::support::{Kind, header_of};
use std::test::Fail;
use zf_base::Ty;
use zf_bits::{BitWriter, bytes_of_words};
use zf_header::{
    FULL_HEADER_BYTES, Header, HeaderFault, LONG_HEADER_BITS, MAX_RATE, Mode, mode_number,
    rate_bytes, read, write,
};

fn is_rate(m: &Mode) -> bool
    ensures { IsTrue result → IsRate m.now }
{
    match *m {
        Mode::Reversible | Mode::Precision(_) => false,
        Mode::Rate(rate) => 1 <= rate && rate <= MAX_RATE,
    }
}

// The bytes of a stream with a rate; 0 of any other.
fn bytes_at_a_rate(h: &Header) -> u64 {
    if is_rate(&h.mode) { rate_bytes(h) } else { 0 }
}

// The array, the mode's number, the bytes of a stream with a rate, and the bytes of the header. The last
// three: four values at three precisions.
const HEADERS: [(Kind, u16, u64, &[u8]); 10] = [
    (
        (Ty::I32, 1, [1, 0, 0, 0], Mode::Reversible),
        2176,
        0,
        b"zfp\x05\x00\x00\x00\x00\x00\x00\x00\x88",
    ),
    (
        (Ty::I64, 2, [5, 7, 0, 0], Mode::Reversible),
        2176,
        0,
        b"zfp\x05\x45\x00\x00\x60\x00\x00\x00\x88",
    ),
    (
        (Ty::I32, 1, [4, 0, 0, 0], Mode::Rate(2)),
        1,
        16,
        b"zfp\x05\x30\x00\x00\x00\x00\x00\x10\x00",
    ),
    (
        (Ty::I64, 3, [3, 1, 8192, 0], Mode::Rate(2048)),
        2047,
        524304,
        b"zfp\x45\x29\x00\x00\x00\xf0\xff\xf1\x7f",
    ),
    (
        (Ty::I64, 1, [134217728, 0, 0, 0], Mode::Rate(2049)),
        4095,
        8594128920,
        b"zfp\x05\xf1\xff\xff\x7f\x00\x00\xf0\xff\x00\x08\x00\xc4\xaf\x87\x07",
    ),
    (
        (Ty::I32, 4, [4, 4, 4, 4], Mode::Rate(4096)),
        4095,
        536,
        b"zfp\x45\x3c\x00\x03\x30\x00\x03\xf0\xff\xff\x8f\xff\xc7\xaf\x87\x07",
    ),
    (
        (Ty::I64, 4, [9, 8, 7, 6], Mode::Rate(32768)),
        4095,
        98328,
        b"zfp\x45\x8d\x00\x07\x60\x00\x05\xf0\xff\xff\xff\xff\xff\xaf\x87\x07",
    ),
    (
        (Ty::I32, 1, [4, 0, 0, 0], Mode::Precision(1)),
        2048,
        0,
        b"zfp\x05\x30\x00\x00\x00\x00\x00\x00\x80",
    ),
    (
        (Ty::I32, 1, [4, 0, 0, 0], Mode::Precision(32)),
        2079,
        0,
        b"zfp\x05\x30\x00\x00\x00\x00\x00\xf0\x81",
    ),
    (
        (Ty::I32, 1, [4, 0, 0, 0], Mode::Precision(128)),
        2175,
        0,
        b"zfp\x05\x30\x00\x00\x00\x00\x00\xf0\x87",
    ),
];

#[test]
fn headers_are_written_and_read(rt: HostRuntime) -> Result<(), Fail> {
    let mut out = BitWriter::new(rt.alloc());
    for (kind, number, stream, bytes) in HEADERS.iter() {
        let header = header_of(&rt, kind)?;
        assert!(rt; mode_number(&header.mode) == *number && bytes_at_a_rate(&header) == *stream);
        let bits = if bytes.len() == FULL_HEADER_BYTES {
            148
        } else {
            96
        };
        out.clear();
        out.reserve(u64::from(LONG_HEADER_BITS))?;
        write(&header, &mut out);
        let written = bytes_of_words(rt.alloc(), out.words())?;
        assert!(rt; out.len() == u64::from(bits) && written.starts_with(bytes));
        assert!(rt; read(bytes) == Ok((header, bits)));
    }
    Ok(())
}

// The header of one int32 value without loss, with bytes behind it.
const ONE: [u8; 19] = *b"zfp\x05\0\0\0\0\0\0\0\x88\0\0\0\0\0\0\0";

// A long form for blocks of 64 bits.
const LONG: [u8; 19] = *b"zfp\x05\0\0\0\0\0\0\xf0\xff\x3f\x80\x1f\xc0\xaf\x87\x07";

// The bytes, how many of them there are, the place of one and what is put there, and the fault.
const FAULTS: [(&[u8; 19], usize, usize, u8, Option<HeaderFault>); 11] = [
    (&ONE, 12, 0, 0x7a, None),
    (&ONE, 11, 0, 0x7a, Some(HeaderFault::Short)),
    (&ONE, 16, 2, 0x71, Some(HeaderFault::Magic)),
    (&ONE, 16, 3, 0x04, Some(HeaderFault::Codec)),
    (&ONE, 16, 3, 0x45, Some(HeaderFault::Order)),
    (&ONE, 16, 4, 0x02, Some(HeaderFault::Scalar)),
    (&ONE, 16, 7, 0x80, Some(HeaderFault::TooLarge)),
    (&ONE, 16, 10, 0x10, Some(HeaderFault::Mode(2177))),
    (&ONE, 16, 11, 0x80, None),
    (&LONG, 19, 0, 0x7a, Some(HeaderFault::Mode(4095))),
    (&LONG, 18, 0, 0x7a, Some(HeaderFault::Short)),
];

#[test]
fn the_first_fault_is_answered(rt: HostRuntime) {
    for (file, count, at, byte, fault) in FAULTS.iter() {
        let mut bytes = **file;
        assert!(rt; *at < 19 && *count <= 19);
        bytes[*at] = *byte;
        assert!(rt; read(&bytes[..*count]).err() == *fault);
    }
}
