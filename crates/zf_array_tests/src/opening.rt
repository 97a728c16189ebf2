//! Files that are opened as arrays, and what is wrong with others.

use std::alloc::{AllocError, Global};
use std::process::Abort;
use std::test::Fail;
use zf_array::{Array, OpenFault};
use zf_base::{Pos, Ty};
use zf_const::ConstArray;
use zf_header::{HeaderFault, Mode};
use zf_index::IndexFault;
use zf_view::{ConstView, Window};

// An array of int32 at 64 bits a block, whose values are 0 2 2 4, 0 0 0 0.
static FILE: [u8; 32] = [
    0x7a, 0x66, 0x70, 0x05, 0x70, 0, 0, 0, 0, 0, 0xf0, 0x03, 0, 0, 0, 0x60, 0x27, 0, 0, 0, 0, 0, 0,
    0, 0, 0, 0, 0, 0, 0, 0, 0,
];

// How many bytes the file has, which of them is another, and what is wrong then.
static FAULTS: [(usize, usize, u8, Option<OpenFault>); 9] = [
    (32, 4, 0x70, None),
    (11, 4, 0x70, Some(OpenFault::Header(HeaderFault::Short))),
    (32, 0, 0x00, Some(OpenFault::Header(HeaderFault::Magic))),
    (32, 4, 0x71, Some(OpenFault::Ty(Ty::I64))),
    (32, 4, 0x74, Some(OpenFault::Dims(2))),
    (12, 4, 0x75, Some(OpenFault::Ty(Ty::I64))),
    (31, 4, 0x74, Some(OpenFault::Dims(2))),
    (
        31,
        4,
        0x70,
        Some(OpenFault::Codes(IndexFault::Truncated(2))),
    ),
    (32, 31, 0x80, Some(OpenFault::Codes(IndexFault::Pad))),
];

// The first bytes of the file, one of them another.
fn changed(alloc: Global, len: usize, at: usize, byte: u8) -> Result<Vec<u8>, AllocError> {
    let mut file = FILE.get(..len).unwrap_or(&[]).to_vec(alloc)?;
    if let Some(place) = file.get_mut(at) {
        *place = byte;
    }
    Ok(file)
}

// What is wrong with a file where it is opened as an array, and where as one that is only read.
fn fault_of(alloc: Global, file: Vec<u8>) -> Option<OpenFault> {
    Array::<i32, 1>::open(alloc, file, 2).err()
}

fn const_fault_of(alloc: Global, file: Vec<u8>) -> Option<OpenFault> {
    ConstArray::<i32, 1>::open(alloc, file, 2).err()
}

#[test]
fn arrays_are_opened(rt: HostRuntime) -> Result<(), Fail> {
    for (len, at, byte, fault) in FAULTS.iter() {
        let file = changed(rt.alloc(), *len, *at, *byte)?;
        assert!(rt; fault_of(rt.alloc(), file) == *fault);
    }
    Ok(())
}

#[test]
fn read_only_arrays_are_opened(rt: HostRuntime) -> Result<(), Fail> {
    for (len, at, byte, fault) in FAULTS.iter() {
        let file = changed(rt.alloc(), *len, *at, *byte)?;
        assert!(rt; const_fault_of(rt.alloc(), file) == *fault);
    }
    Ok(())
}

// At a precision of 32 planes.
#[test]
fn an_array_has_a_rate(rt: HostRuntime) -> Result<(), Fail> {
    let file = changed(rt.alloc(), 32, 11, 0x81)?;
    let fault = OpenFault::Mode(Mode::Precision(32));
    assert!(rt; fault_of(rt.alloc(), file) == Some(fault));
    Ok(())
}

// Whether a view of the whole shows the fourth value, and the sum.
fn is_viewed(rt: &impl Abort, array: &mut ConstArray<i32, 1>) -> bool {
    let part = Window::whole(&array.shape());
    let last = Pos {
        x: 3,
        y: 0,
        z: 0,
        w: 0,
    };
    assert!(rt; part.contains(last));
    let mut view = ConstView::bind(array, part);
    view.get(last) == 4 && view.sum() == 8
}

#[test]
fn a_read_only_array_is_viewed(rt: HostRuntime) -> Result<(), Fail> {
    let file = FILE.to_vec(rt.alloc())?;
    let mut array = ConstArray::<i32, 1>::open(rt.alloc(), file, 2)?;
    assert!(rt; is_viewed(&rt, &mut array));
    drop(array);
    Ok(())
}
