//! The rows of a store, and every fault of a file.

ghost use Rattle.std.specs.Prelude.{◌≡◌, IsTrue, length};
ghost use Rattle.zf_header.specs.HeaderBits.{IsRate};
ghost use Rattle.zf_store.specs.Files.{HasHeader};

use std::alloc::{AllocError, Global};
use std::process::Abort;
use std::test::Fail;
use zf_base::{Backing, Lane, Reading, Shape, Ty};
use zf_header::{Header, Mode, rate_bytes};
use zf_store::{Store, StoreFault};

// The file of 8 zeros of int32 at 64 bits a block.
const ZEROS: &[u8] = b"zfp\x05\x70\0\0\0\0\0\xf0\x03\0\0\0\0\0\0\0\0\0\0\0\0\0\0\0\0\0\0\0\0";

// The same with ones among the bits of the first code that its values do not need.
const UNUSED: &[u8] =
    b"zfp\x05\x70\0\0\0\0\0\xf0\x03\0\0\0\0\xff\xff\xff\xff\0\0\0\0\0\0\0\0\0\0\0\0";

// Whether the header states a rate.
fn is_rate(h: &Header) -> bool
    ensures { IsTrue result → IsRate h.now.mode }
{
    match h.mode {
        Mode::Rate(bits) => 1 <= bits && bits <= 32768,
        Mode::Reversible | Mode::Precision(_) => false,
    }
}

// The header of a file of int32 in one dimension, at a rate.
fn header_of(rt: &impl Abort, file: &[u8]) -> Header
    ensures header { HasHeader file.now result }
    ensures ty { result.ty ≡ Ty.I32 }
    ensures dims { length result.shape ≡ 1 }
{
    let Ok((h, _)) = zf_header::read(file) else {
        panic!(rt; "no header");
    };
    assert!(rt; is_rate(&h));
    assert!(rt; h.ty == Ty::I32);
    assert!(rt; h.shape.dims() == 1);
    h
}

// The store of a file of int32 in one dimension, or its fault.
fn open(rt: &impl Abort, alloc: Global, file: &[u8]) -> Result<Store<i32, 1>, StoreFault> {
    let h = header_of(rt, file);
    Store::from_file(alloc, &h, file)
}

// A new store in one dimension or two.
fn zeros<T: Lane, const D: usize>(
    rt: &impl Abort,
    alloc: Global,
    dims: u8,
    sizes: [u64; 2],
    bits: u32,
) -> Result<Store<T, D>, Fail> {
    assert!(rt; 1 <= dims && dims <= 2 && 1 <= bits && bits <= 32768);
    let shape = Shape::new(dims, sizes[0], sizes[1], 1, 1)?;
    assert!(rt; usize::from(shape.dims()) == D);
    Ok(Store::zeros(alloc, shape, bits)?)
}

fn put<T: Lane, const D: usize>(rt: &impl Abort, store: &mut Store<T, D>, b: u64, values: &[T]) {
    assert!(rt; b < store.blocks() && values.len() == store.block_len());
    store.store(b, values);
}

// Whether a block of int32 in one dimension has these values.
fn has(rt: &impl Abort, store: &mut Store<i32, 1>, b: u64, values: [i32; 4]) -> bool {
    assert!(rt; b < store.blocks() && store.block_len() == 4);
    let mut line = [7; 4];
    store.load(b, &mut line);
    line == values
}

// Whether the file of a store has these bytes.
fn saves<T: Lane, const D: usize>(
    alloc: Global,
    store: &Store<T, D>,
    file: &[u8],
) -> Result<bool, AllocError> {
    let mut out = vec![in alloc; 1; rate_bytes(&store.header()) as usize]?;
    store.write_file(&mut out);
    Ok(out.as_slice() == file)
}

#[test]
fn a_new_store_has_zeros(rt: HostRuntime) -> Result<(), Fail> {
    let mut store = zeros::<i32, 1>(&rt, rt.alloc(), 1, [8, 1], 64)?;
    let saved = saves(rt.alloc(), &store, ZEROS);
    assert!(rt; has(&rt, &mut store, 1, [0; 4]));
    drop(store);
    assert!(rt; saved?);
    Ok(())
}

#[test]
fn an_opened_file_keeps_each_bit(rt: HostRuntime) -> Result<(), Fail> {
    let mut store = open(&rt, rt.alloc(), UNUSED)?;
    assert!(rt; has(&rt, &mut store, 0, [0; 4]));
    let saved = saves(rt.alloc(), &store, UNUSED);
    put(&rt, &mut store, 0, &[1, 2, 3, 4]);
    assert!(rt; store.words() == [0x0000_0027_6000_0000, 0].as_slice());
    assert!(rt; has(&rt, &mut store, 0, [0, 2, 2, 4]));
    drop(store);
    assert!(rt; saved?);
    Ok(())
}

// Bits of a block, and the file of two blocks, of which the second is stored as one value, or some. The
// file is the reference program's.
static SHARED: [(u32, &[u8]); 2] = [
    (1, b"zfp\x05\x70\0\0\0\0\0\0\0\x02\0\0\0"),
    (3, b"zfp\x05\x70\0\0\0\0\0\x20\0\x18\0\0\0"),
];

#[test]
fn blocks_share_words(rt: HostRuntime) -> Result<(), Fail> {
    for (bits, file) in SHARED.iter() {
        let mut store = zeros::<i32, 1>(&rt, rt.alloc(), 1, [8, 1], *bits)?;
        put(&rt, &mut store, 1, &[-1073741824; 4]);
        let saved = saves(rt.alloc(), &store, file);
        assert!(rt; has(&rt, &mut store, 1, [-2147483648; 4]));
        assert!(rt; has(&rt, &mut store, 0, [0; 4]));
        drop(store);
        assert!(rt; saved?);
    }
    Ok(())
}

const SHEET: &[u8] = b"zfp\x05\x84\0\0\x40\0\0\x20\0\xdb\xb6\x01\0";

#[test]
fn blocks_of_a_sheet_share_words(rt: HostRuntime) -> Result<(), Fail> {
    let mut store = zeros::<i32, 2>(&rt, rt.alloc(), 2, [9, 5], 3)?;
    for b in 0..6 {
        put(&rt, &mut store, b, &[-1073741824; 16]);
    }
    let saved = saves(rt.alloc(), &store, SHEET);
    drop(store);
    assert!(rt; saved?);
    Ok(())
}

const OVER_WORDS: &[u8] =
    b"zfp\x05\x51\0\0\0\0\0\x50\x04\0\0\0\x78\x1f\xe3\xb9\xb2\x15\0\0\xc0\x05\x50\x55\x50\0\0\0\0";

#[test]
fn a_code_over_two_words(rt: HostRuntime) -> Result<(), Fail> {
    let mut store = zeros::<i64, 1>(&rt, rt.alloc(), 1, [6, 1], 70)?;
    put(&rt, &mut store, 1, &[0, -987654321987, 0, 0]);
    put(&rt, &mut store, 0, &[123456789012, 5, 0, 0]);
    let saved = saves(rt.alloc(), &store, OVER_WORDS);
    drop(store);
    assert!(rt; saved?);
    Ok(())
}

// How many bytes there are, the byte that is changed, and the fault.
static FAULTS: [(usize, usize, u8, Option<StoreFault>); 12] = [
    (32, 31, 0x00, None),
    (12, 11, 0x03, Some(StoreFault::Truncated(0))),
    (19, 11, 0x03, Some(StoreFault::Truncated(0))),
    (20, 11, 0x03, Some(StoreFault::Truncated(1))),
    (27, 11, 0x03, Some(StoreFault::Truncated(1))),
    (28, 11, 0x03, Some(StoreFault::Truncated(2))),
    (31, 28, 0x80, Some(StoreFault::Truncated(2))),
    (32, 28, 0x01, Some(StoreFault::Pad)),
    (32, 31, 0x80, Some(StoreFault::Pad)),
    (33, 31, 0x80, Some(StoreFault::Pad)),
    (33, 27, 0x80, Some(StoreFault::Trailing)),
    (40, 33, 0x01, Some(StoreFault::Trailing)),
];

#[test]
fn each_fault_of_a_file(rt: HostRuntime) -> Result<(), Fail> {
    for (count, at, byte, fault) in FAULTS.iter() {
        let mut file = ZEROS.to_vec(rt.alloc())?;
        file.resize(*count, 0)?;
        assert!(rt; *at < file.len());
        file[*at] = *byte;
        assert!(rt; open(&rt, rt.alloc(), &file).err() == *fault);
    }
    Ok(())
}
