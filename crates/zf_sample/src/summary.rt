//! A sample: an array that is made, compressed and restored in memory.

ghost use Rattle.std.specs.Prelude.{◌≡◌, IfOk};
ghost use Rattle.std.specs.Int.{byte_len};
ghost use Rattle.zf_base.specs.Widths.{width_of};
ghost use Rattle.zf_header.specs.HeaderBits.{IsMode};
ghost use Rattle.zf_parse.specs.Raw.{stream_text};
ghost use Rattle.zf_parse.specs.Parsing.{restored_text};
ghost use Rattle.zf_sample.specs.Summaries.{made_bytes, summary_of};

use crate::changes::count_changes;
use crate::values::raw_values;
use std::alloc::{AllocError, Global};
use zf_base::Ty;
use zf_dev::{MemSink, MemSource};
use zf_header::Header;

/// What is said of a sample.
#[derive(Clone, Copy, Debug, PartialEq, Eq)]
pub struct Summary {
    /// How many values the array has.
    pub values: u64,
    /// How many blocks.
    pub blocks: u64,
    /// How many bytes its stream has.
    pub bytes: u64,
    /// How many values are others when the stream is restored: none of a reversible one.
    pub changed: u64,
}

// The most bytes that pass at once from one device in memory to another.
const PIECE: usize = 1 << 16;

/// Makes an array of the header's type and shape from a number, compresses it in the header's mode, restores
/// the stream, and says what became of
/// it. `AllocError`: there was no memory.
pub fn sample(alloc: Global, h: &Header, seed: u64) -> Result<Summary, AllocError>
    requires { IsMode h.now.mode }
    ensures { IfOk result (λ summary. summary ≡ summary_of h.now seed) }
{
    let before = array_bytes(alloc, h, seed)?;
    let stream = compressed(alloc, h, &before)?;
    let after = restored(alloc, &stream)?;
    Ok(Summary {
        values: h.shape.values(),
        blocks: h.shape.blocks(),
        bytes: stream.bytes().len() as u64,
        changed: count_changes(value_len(h.ty), h.shape.values(), &before, after.bytes()),
    })
}

// The raw values of the array.
fn array_bytes(alloc: Global, h: &Header, seed: u64) -> Result<Vec<u8>, AllocError>
    ensures { IfOk result (λ bytes. bytes.items ≡ made_bytes h.now seed) }
{
    match h.ty {
        Ty::I32 => raw_values::<i32>(alloc, h.shape.values(), seed),
        Ty::I64 => raw_values::<i64>(alloc, h.shape.values(), seed),
    }
}

// How many bytes a value has.
fn value_len(ty: Ty) -> usize
    ensures { result ≡ byte_len (width_of ty) }
{
    match ty {
        Ty::I32 => 4,
        Ty::I64 => 8,
    }
}

// The stream of raw values. Of devices in memory that are not to fail, a fault is out of memory.
fn compressed(alloc: Global, h: &Header, raw: &[u8]) -> Result<MemSink, AllocError>
    requires { IsMode h.now.mode }
    ensures { IfOk result (λ sink. sink.written ≡ stream_text h.now raw.now) }
{
    let mut src = MemSource::new(Vec::from_slice(alloc, raw)?, Vec::new(alloc), PIECE);
    let mut out = MemSink::new(alloc, Vec::new(alloc), PIECE);
    match zf_stream::compress(alloc, h, &mut src, &mut out) {
        Ok(()) => Ok(out),
        Err(_) => Err(AllocError),
    }
}

// The raw values of a stream.
fn restored(alloc: Global, stream: &MemSink) -> Result<MemSink, AllocError>
    ensures { IfOk result (λ sink. sink.written ≡ restored_text stream.now.written) }
{
    let mut src = MemSource::new(
        Vec::from_slice(alloc, stream.bytes())?,
        Vec::new(alloc),
        PIECE,
    );
    let mut out = MemSink::new(alloc, Vec::new(alloc), PIECE);
    match zf_stream::restore(alloc, &mut src, &mut out) {
        Ok(()) => Ok(out),
        Err(_) => Err(AllocError),
    }
}
