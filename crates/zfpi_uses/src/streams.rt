//! Raw values to their stream and back, from a source in memory to a sink in memory.

ghost use Rattle.std.specs.Prelude.{◌≡◌, length, IfOk, OnOk};
ghost use Rattle.zf_header.specs.declared.header.Mode.TheVariants.{Reversible};
ghost use Rattle.zf_header.specs.HeaderBits.{IsMode};
ghost use Rattle.zf_parse.specs.Raw.{raw_len, stream_text};
ghost use Rattle.zf_parse.specs.Parsing.{restored_text};

use std::alloc::Global;
use zf_dev::{MemSink, MemSource};
use zf_header::Header;
use zf_stream::StreamFault;

// The most bytes that pass at once.
const PIECE: usize = 1 << 16;

/// The stream that has this header, of raw values: little-endian, x fastest, as many as its shape has.
pub fn packed(alloc: Global, header: &Header, raw: &[u8]) -> Result<MemSink, StreamFault>
    requires { IsMode header.now.mode }
    ensures stream { IfOk result (λ sink. sink.written ≡ stream_text header.now raw.now) }
    ensures whole { OnOk result (length raw.now ≡ raw_len header.now) }
{
    let mut source = MemSource::new(raw.to_vec(alloc)?, Vec::new(alloc), PIECE);
    let mut sink = MemSink::new(alloc, Vec::new(alloc), PIECE);
    zf_stream::compress(alloc, header, &mut source, &mut sink)?;
    Ok(sink)
}

/// The raw values of a stream.
pub fn unpacked(alloc: Global, stream: &[u8]) -> Result<MemSink, StreamFault>
    ensures { IfOk result (λ sink. sink.written ≡ restored_text stream.now) }
{
    let mut source = MemSource::new(stream.to_vec(alloc)?, Vec::new(alloc), PIECE);
    let mut sink = MemSink::new(alloc, Vec::new(alloc), PIECE);
    zf_stream::restore(alloc, &mut source, &mut sink)?;
    Ok(sink)
}

/// What goes into a reversible stream comes out of it.
pub fn there_and_back(alloc: Global, header: &Header, raw: &[u8]) -> Result<MemSink, StreamFault>
    requires { header.now.mode ≡ Reversible }
    ensures back { IfOk result (λ sink. sink.written ≡ raw.now) }
{
    // Known by this call: the sizes are those of a shape.
    let _dims = header.shape.dims();
    let stream = packed(alloc, header, raw)?;
    unpacked(alloc, stream.bytes())
}
