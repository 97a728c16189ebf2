//! What a stream costs: how many calls, and no room for values that cannot come.

use crate::support::{Kind, Moves, PIECES, are_zeros, compressed, prefix, restored};
use std::test::Fail;
use zf_base::Ty;
use zf_header::Mode;
use zf_stream::StreamFault;

// Raw values of a MiB at 8 bits a value, in 64, 128, 16 and 8 slabs, and a number of calls that is not
// reached: half as many again as slabs, and four.
const CALLS: [(Kind, u64); 4] = [
    ((Ty::I32, 1, [262144, 1, 1, 1], Mode::Rate(32)), 100),
    ((Ty::I32, 2, [512, 512, 1, 1], Mode::Rate(128)), 196),
    ((Ty::I32, 3, [64, 64, 64, 1], Mode::Rate(512)), 28),
    ((Ty::I32, 4, [16, 16, 32, 32], Mode::Rate(2048)), 16),
];

// The call of that number would fail, of the source and of the sink.
#[test]
fn calls_are_few(rt: HostRuntime) -> Result<(), Fail> {
    let alloc = rt.alloc();
    let zeros = vec![in alloc; 0u8; 1048576]?;
    for (kind, calls) in CALLS.iter() {
        let moves = Moves {
            reads: 1048576,
            writes: 1048576,
            read_fault: *calls,
            write_fault: *calls,
        };
        let stream = compressed(&rt, alloc, kind, &zeros, &moves, &Ok(()))?;
        let back = restored(&rt, alloc, stream.bytes(), &moves, &Ok(()))?;
        assert!(rt; back.bytes().len() == 1048576 && are_zeros(back.bytes()));
    }
    Ok(())
}

const ZEROS: [u8; 1000] = [0; 1000];

// The header of an array, how many zero bytes are behind it, and the block whose code they cut. In all but
// the last one, a slab of four rows has at least 256 MiB: int64 of 8192x4096x4, 16777216x8 at 77 bits a block
// and 4096x4096x2x4 of int32 at 20 planes; then int32 of 4096x4096x8, and int64 of 134217728 at 128 planes.
const CUTS: [(&[u8], usize, u64); 7] = [
    (b"zfp\x45\xf9\xff\xf1\xff\x30\0\0\x88", 0, 0),
    (b"zfp\x45\xf9\xff\xf1\xff\x30\0\0\x88", 1000, 1142),
    (b"zfp\x05\xf5\xff\xff\x7f\0\0\xc0\x04", 0, 0),
    (b"zfp\x05\xf5\xff\xff\x7f\0\0\xc0\x04", 1000, 103),
    (b"zfp\x45\xfc\xff\xff\x1f\0\x03\x30\x81", 1000, 400),
    (b"zfp\x45\xf8\xff\xf0\xff\x70\0\0\x88", 1000, 1333),
    (b"zfp\x05\xf1\xff\xff\x7f\0\0\xf0\x87", 1000, 125),
];

// So many times that a test would take minutes, more than it is given, where each time a slab were made.
const ROUNDS: u64 = 80;

#[test]
fn no_room_is_taken_for_values_that_cannot_come(rt: HostRuntime) -> Result<(), Fail> {
    for (header, zeros, block) in CUTS.iter() {
        let mut stream = header.to_vec(rt.alloc())?;
        stream.extend_from_slice(prefix(&ZEROS, *zeros))?;
        for _ in 0..ROUNDS {
            let answer = Err(StreamFault::Truncated(*block));
            let out = restored(&rt, rt.alloc(), &stream, &PIECES[1], &answer)?;
            assert!(rt; out.bytes().is_empty());
        }
    }
    Ok(())
}
