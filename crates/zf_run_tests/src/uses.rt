//! Sums and files, with values from a program that was written from the definitions alone.

use std::alloc::{AllocError, Global};
use std::test::Fail;
use zf_array::OpenFault;
use zf_base::{Shape, Ty};
use zf_header::{Header, HeaderFault, Mode};
use zf_store::StoreFault;
use zf_view::ViewFault;
use zfpi_uses::{Fault, packed, sum_and_mark, there_and_back, unpacked};

// An array of ten values of int32 at 40 bits a block: 100 -4 20 44, 56 8 -88 24, 0 1024.
const FILE: [u8; 32] = [
    122, 102, 112, 5, 144, 0, 0, 0, 0, 0, 112, 2, 0, 0, 0, 182, 55, 0, 0, 0, 130, 133, 0, 0, 224,
    42, 0, 0, 0, 0, 0, 0,
];

// The same file with other bytes for its codes, from byte 15 on.
fn with_codes(alloc: Global, codes: &[u8]) -> Result<Vec<u8>, AllocError> {
    let mut file = FILE[..15].to_vec(alloc)?;
    file.extend_from_slice(codes)?;
    file.extend_from_slice(&[0, 0, 0, 0, 0, 0])?;
    Ok(file)
}

// The first place and the number of places, what is written, the sum, and the codes that are saved.
static SUMS: [(u64, u64, i32, i64, [u8; 11]); 5] = [
    // the run ends with its block
    (2, 6, 77, 64, [166, 137, 0, 0, 0, 130, 133, 0, 0, 224, 42]),
    (0, 10, -1, 1184, [192, 2, 0, 0, 0, 130, 133, 0, 0, 224, 42]),
    // or with the window
    (5, 1, 500, 8, [182, 55, 0, 0, 128, 19, 166, 0, 0, 224, 42]),
    (4, 4, 0, 0, [182, 55, 0, 0, 0, 0, 0, 0, 0, 224, 42]),
    (
        9,
        1,
        i32::MIN,
        1024,
        [182, 55, 0, 0, 0, 130, 133, 129, 42, 0, 0],
    ),
];

#[test]
fn sums_and_marks(rt: HostRuntime) -> Result<(), Fail> {
    for (first, count, v, sum, codes) in SUMS.iter() {
        let file = FILE.to_vec(rt.alloc())?;
        let done = sum_and_mark(rt.alloc(), file, *first, *count, *v);
        let (found, saved) = done.ok().ok_or("a sum")?;
        assert!(rt; found == i128::from(*sum) && saved == with_codes(rt.alloc(), codes)?);
    }
    Ok(())
}

// The file with a byte behind it, and with the mode without loss.
const LONGER: [u8; 33] = [
    122, 102, 112, 5, 144, 0, 0, 0, 0, 0, 112, 2, 0, 0, 0, 182, 55, 0, 0, 0, 130, 133, 0, 0, 224,
    42, 0, 0, 0, 0, 0, 0, 0,
];

const OTHER: [u8; 32] = [
    122, 102, 112, 5, 144, 0, 0, 0, 0, 0, 0, 0x88, 0, 0, 0, 182, 55, 0, 0, 0, 130, 133, 0, 0, 224,
    42, 0, 0, 0, 0, 0, 0,
];

// A file, of which so many bytes are there, the first place and the number of places, and the fault.
static FAULTS: [(&[u8], usize, u64, u64, Fault); 6] = [
    (
        &FILE,
        11,
        0,
        1,
        Fault::Open(OpenFault::Header(HeaderFault::Short)),
    ),
    (
        &OTHER,
        32,
        0,
        1,
        Fault::Open(OpenFault::Mode(Mode::Reversible)),
    ),
    (&FILE, 32, 0, 0, Fault::View(ViewFault::Zero)),
    (&FILE, 32, 9, 2, Fault::View(ViewFault::Outside)),
    (
        &FILE,
        24,
        0,
        1,
        Fault::Open(OpenFault::Codes(StoreFault::Truncated(2))),
    ),
    (
        &LONGER,
        33,
        0,
        1,
        Fault::Open(OpenFault::Codes(StoreFault::Trailing)),
    ),
];

#[test]
fn has_its_faults(rt: HostRuntime) -> Result<(), Fail> {
    for (file, len, first, count, fault) in FAULTS.iter() {
        let bytes = file.get(..*len).unwrap_or(&[]).to_vec(rt.alloc())?;
        let found = sum_and_mark(rt.alloc(), bytes, *first, *count, 1).err();
        assert!(rt; found == Some(*fault));
    }
    Ok(())
}

#[test]
fn values_go_there_and_back(rt: HostRuntime) -> Result<(), Fail> {
    let alloc = rt.alloc();
    let Ok(shape) = Shape::new(1, 2, 1, 1, 1) else {
        return Err("two values are a shape")?;
    };
    let header = Header {
        ty: Ty::I32,
        shape,
        mode: Mode::Reversible,
    };
    let raw = [1, 0, 0, 0, 2, 0, 0, 0];
    let stream = b"zfp\x05\x10\0\0\0\0\0\0\x88\x1f\0\0\0\x48\x07\0\0\0\0\0\0";
    let Ok(packed) = packed(alloc, &header, &raw) else {
        return Err("two values have a stream")?;
    };
    assert!(rt; packed.bytes() == stream.as_slice());
    let Ok(back) = there_and_back(alloc, &header, &raw) else {
        return Err("the stream has two values")?;
    };
    assert!(rt; back.bytes() == raw.as_slice());
    assert!(rt; unpacked(alloc, &stream[..23]).is_err());
    Ok(())
}
