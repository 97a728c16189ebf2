//! Streams of several slabs, and how much is out before the end is known.

use crate::support::{Kind, Moves, NEVER, PIECES, are_zeros, compressed, prefix, restored};
use std::alloc::{AllocError, Global};
use std::test::Fail;
use zf_base::Ty;
use zf_header::Mode;
use zf_stream::StreamFault;

// Of several slabs and windows in each number of dimensions, type and mode, the last slab with fewer rows; of
// the last three arrays the other slabs have whole blocks. The hashes of the stream and of what comes back.
const SLABS: [(Kind, u64, u64); 27] = [
    (
        (Ty::I32, 1, [4101, 1, 1, 1], Mode::Reversible),
        0x6aedad11554e78a1,
        0x211d18a65a67a448,
    ),
    (
        (Ty::I32, 1, [4101, 1, 1, 1], Mode::Rate(77)),
        0xc4808f16da6d2272,
        0x4f85d253123d26ef,
    ),
    (
        (Ty::I32, 1, [4101, 1, 1, 1], Mode::Precision(20)),
        0x0fe901e76a53004f,
        0x5a457ca726d70cc6,
    ),
    (
        (Ty::I64, 1, [4099, 1, 1, 1], Mode::Reversible),
        0x28f60512cee4730d,
        0x4f594689f93d0311,
    ),
    (
        (Ty::I64, 1, [4099, 1, 1, 1], Mode::Rate(77)),
        0x41fd07ab941e2fa2,
        0xbd86a57d3dda0384,
    ),
    (
        (Ty::I64, 1, [4099, 1, 1, 1], Mode::Precision(20)),
        0xc23f89b912a99587,
        0x6adea674ab268b5e,
    ),
    (
        (Ty::I32, 2, [5, 9, 1, 1], Mode::Reversible),
        0xf6c4164f1770c3de,
        0xbfba4ebb0b28a30e,
    ),
    (
        (Ty::I32, 2, [5, 9, 1, 1], Mode::Rate(308)),
        0xba456d478dfd914a,
        0x41b58b96d4577718,
    ),
    (
        (Ty::I32, 2, [5, 9, 1, 1], Mode::Precision(20)),
        0x277ed8c3aa400a98,
        0x21a2ea56d25c774b,
    ),
    (
        (Ty::I64, 2, [6, 11, 1, 1], Mode::Reversible),
        0xb4ff8b818d7ee2fa,
        0x104f12266267eac2,
    ),
    (
        (Ty::I64, 2, [6, 11, 1, 1], Mode::Rate(308)),
        0x86ee490e2997a4c1,
        0xb5120816337b9812,
    ),
    (
        (Ty::I64, 2, [6, 11, 1, 1], Mode::Precision(20)),
        0x6c562dd222f317f8,
        0x077fd440f6d9e155,
    ),
    (
        (Ty::I32, 3, [5, 3, 9, 1], Mode::Reversible),
        0x03f0048d87b7fc4f,
        0x9f502aa81723472c,
    ),
    (
        (Ty::I32, 3, [5, 3, 9, 1], Mode::Rate(1232)),
        0x4b2e367f51499973,
        0xd058075582841397,
    ),
    (
        (Ty::I32, 3, [5, 3, 9, 1], Mode::Precision(20)),
        0x37ba0cfa21908f07,
        0x5b72696534ea7106,
    ),
    (
        (Ty::I64, 3, [4, 5, 7, 1], Mode::Reversible),
        0x05875ada9af8afe1,
        0xc86380f6c45b22ac,
    ),
    (
        (Ty::I64, 3, [4, 5, 7, 1], Mode::Rate(1232)),
        0xe0c21b3920bf33b5,
        0x258470c1427669b7,
    ),
    (
        (Ty::I64, 3, [4, 5, 7, 1], Mode::Precision(20)),
        0x3063d972d77a5110,
        0xf43f004f21d739e9,
    ),
    (
        (Ty::I32, 4, [3, 5, 2, 11], Mode::Reversible),
        0xd51cdd57019b6103,
        0x81f1d27e6be94fe3,
    ),
    (
        (Ty::I32, 4, [3, 5, 2, 11], Mode::Rate(4928)),
        0xe2f3710714248867,
        0xde2ecb4d4f44789e,
    ),
    (
        (Ty::I32, 4, [3, 5, 2, 11], Mode::Precision(20)),
        0x57eeb2cf9920d2e7,
        0x4714614aa189d166,
    ),
    (
        (Ty::I64, 4, [3, 2, 5, 8], Mode::Reversible),
        0x1508167479fb0772,
        0xedab144629e5e5de,
    ),
    (
        (Ty::I64, 4, [3, 2, 5, 8], Mode::Rate(4928)),
        0xf7015f54e840f76a,
        0xe99ee0233bdc4f91,
    ),
    (
        (Ty::I64, 4, [3, 2, 5, 8], Mode::Precision(20)),
        0x9b7ca03caefdd60e,
        0x510564f51d844331,
    ),
    (
        (Ty::I64, 2, [8, 10, 1, 1], Mode::Reversible),
        0xd41faca41996c981,
        0x0c95f933284914d8,
    ),
    (
        (Ty::I32, 3, [4, 8, 9, 1], Mode::Rate(1232)),
        0x8e81d0695a722340,
        0xa08e7a6d3c8a1512,
    ),
    (
        (Ty::I64, 4, [4, 4, 4, 10], Mode::Precision(20)),
        0x96e2033da2466919,
        0xabce88ad7c9914ba,
    ),
];

/// Bytes that look like any, for so many values as the array has.
fn some_values(alloc: Global, kind: &Kind) -> Result<Vec<u8>, AllocError> {
    let (ty, _, [nx, ny, nz, nw], _) = *kind;
    let len = if ty == Ty::I32 { 4 } else { 8 };
    let mut raw = Vec::new(alloc);
    let mut word: u64 = 1;
    for _ in 0..nx.wrapping_mul(ny).wrapping_mul(nz).wrapping_mul(nw) {
        word = word.wrapping_mul(6_364_136_223_846_793_005).wrapping_add(1);
        raw.extend_from_slice(&word.rotate_left(32).to_le_bytes()[..len])?;
    }
    Ok(raw)
}

/// The hash FNV-1a of 64 bits.
fn hash(bytes: &[u8]) -> u64 {
    let mut hash: u64 = 0xcbf2_9ce4_8422_2325;
    for byte in bytes {
        hash = (hash ^ u64::from(*byte)).wrapping_mul(0x100_0000_01b3);
    }
    hash
}

#[test]
fn arrays_of_several_slabs_come_back(rt: HostRuntime) -> Result<(), Fail> {
    for (kind, stream, back) in SLABS.iter() {
        let raw = some_values(rt.alloc(), kind)?;
        let out = compressed(&rt, rt.alloc(), kind, &raw, &PIECES[1], &Ok(()))?;
        let values = restored(&rt, rt.alloc(), out.bytes(), &PIECES[1], &Ok(()))?;
        assert!(rt; hash(out.bytes()) == *stream && hash(values.bytes()) == *back);
    }
    Ok(())
}

// In one to four dimensions, of which the second and the fourth have a size that cuts blocks.
const EMPTY: [Kind; 6] = [
    (Ty::I64, 1, [4128, 1, 1, 1], Mode::Reversible),
    (Ty::I32, 1, [4130, 1, 1, 1], Mode::Reversible),
    (Ty::I32, 2, [8, 48, 1, 1], Mode::Reversible),
    (Ty::I64, 2, [9, 24, 1, 1], Mode::Reversible),
    (Ty::I32, 3, [8, 8, 12, 1], Mode::Reversible),
    (Ty::I64, 4, [4, 8, 4, 8], Mode::Reversible),
];

/// Bytes of zeros, but for one value in 97, for so many values as the array has.
fn mostly_zeros(alloc: Global, kind: &Kind) -> Result<Vec<u8>, AllocError> {
    let (ty, _, [nx, ny, nz, nw], _) = *kind;
    let len = if ty == Ty::I32 { 4 } else { 8 };
    let mut raw = Vec::new(alloc);
    for at in 0..nx.wrapping_mul(ny).wrapping_mul(nz).wrapping_mul(nw) {
        let value: u64 = if at % 97 == 50 { at } else { 0 };
        raw.extend_from_slice(&value.to_le_bytes()[..len])?;
    }
    Ok(raw)
}

#[test]
fn fields_of_zeros_come_back(rt: HostRuntime) -> Result<(), Fail> {
    for kind in EMPTY.iter() {
        let raw = mostly_zeros(rt.alloc(), kind)?;
        let out = compressed(&rt, rt.alloc(), kind, &raw, &PIECES[1], &Ok(()))?;
        let values = restored(&rt, rt.alloc(), out.bytes(), &PIECES[1], &Ok(()))?;
        assert!(rt; hash(values.bytes()) == hash(&raw));
    }
    Ok(())
}

// How many bytes of a stream of 784 there are, of which the last one is so, the answer, and how many bytes of
// zeros are written at least.
const CUTS: [(usize, u8, Result<(), StreamFault>, usize); 7] = [
    (784, 0, Ok(()), 16388),
    (16, 0, Err(StreamFault::Truncated(5)), 0),
    (700, 0, Err(StreamFault::Truncated(917)), 0),
    (780, 0, Err(StreamFault::Truncated(1024)), 16384),
    (783, 0, Err(StreamFault::Truncated(1025)), 16384),
    (784, 1, Err(StreamFault::Pad), 16384),
    (785, 0, Err(StreamFault::Trailing), 16384),
];

#[test]
fn a_slab_is_written_before_the_end_is_known(rt: HostRuntime) -> Result<(), Fail> {
    let alloc = rt.alloc();
    let kind = (Ty::I32, 1, [4097, 1, 1, 1], Mode::Reversible);
    let zeros = vec![in alloc; 0u8; 16388]?;
    let whole = compressed(&rt, alloc, &kind, &zeros, &PIECES[1], &Ok(()))?;
    let moves = Moves {
        reads: 1,
        ..PIECES[1]
    };
    for (count, last, answer, least) in CUTS.iter() {
        let mut stream = prefix(whole.bytes(), count.saturating_sub(1)).to_vec(alloc)?;
        stream.push(*last)?;
        let out = restored(&rt, alloc, &stream, &moves, answer)?;
        assert!(rt; *least <= out.bytes().len() && are_zeros(out.bytes()));
    }
    Ok(())
}

// The read of the last byte fails; so much has gone out by then that neither the input nor the stream can
// have been held whole.
#[test]
fn a_part_is_out_before_the_last_byte_is_read(rt: HostRuntime) -> Result<(), Fail> {
    let alloc = rt.alloc();
    let kind = (Ty::I32, 1, [65536, 1, 1, 1], Mode::Rate(1024));
    let zeros = vec![in alloc; 0u8; 262144]?;
    let whole = Moves {
        reads: 262144,
        writes: 262144,
        read_fault: NEVER,
        write_fault: NEVER,
    };
    let stream = compressed(&rt, alloc, &kind, &zeros, &whole, &Ok(()))?;
    assert!(rt; stream.bytes().len() == 2097168);

    let raw = Moves {
        reads: 1,
        read_fault: 262143,
        ..whole
    };
    let out = compressed(&rt, alloc, &kind, &zeros, &raw, &Err(StreamFault::Read))?;
    assert!(rt; 1000000 <= out.bytes().len());

    let codes = Moves {
        read_fault: 2097163,
        ..raw
    };
    let out = restored(&rt, alloc, stream.bytes(), &codes, &Err(StreamFault::Read))?;
    assert!(rt; 100000 <= out.bytes().len() && are_zeros(out.bytes()));
    Ok(())
}
