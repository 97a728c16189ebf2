//! Raw values to their stream and back, from bytes that are lent into bytes that are lent.

ghost use Rattle.zf_header.specs.HeaderBits.{IsMode};
ghost use Rattle.zf_parse.specs.Raw.{stream_text, compress_answer};
ghost use Rattle.zf_parse.specs.Parsing.{restore_answer, restored_text};
ghost use Rattle.zf_parse.specs.declared.fault.StreamFault.TheVariants.{Memory};
ghost use Rattle.zf_stream.specs.Outcomes.{IsBeforeWriting};
ghost use Rattle.zf_lent.specs.Lent.{Lent};

use crate::slice_sink::SliceSink;
use crate::slice_source::SliceSource;
use std::alloc::Global;
use zf_header::Header;
use zf_stream::{StreamFault, most_bytes};

/// Writes the stream of raw values over the start of `out`, as much of it as there is room for, and says how
/// many bytes it has. All behind them stays. `zf_stream::compress` says how much is held at a time.
///
/// A rate of `h` is 1 to 32768, a precision 1 to 128. `RawShort(m)`: there are m bytes, fewer than the shape
/// needs. `RawLong`: there are more. `Memory`: there was no memory, and `out` is as before. After the other
/// errors it has a prefix of the stream of the values that were read over its start, maybe nothing.
pub fn compress_into(
    alloc: Global,
    h: &Header,
    raw: &[u8],
    out: &mut [u8],
) -> Result<u64, StreamFault>
    requires { IsMode h.now.mode }
    ensures { Lent (compress_answer h.now) (stream_text h.now) Memory IsBeforeWriting result
        raw.now out.old out.new }
{
    // Known by this call: a stream has fewer bytes than a `u64` counts.
    let _most = most_bytes(h);
    let mut source = SliceSource::new(raw);
    let mut sink = SliceSink::new(out);
    zf_stream::compress(alloc, h, &mut source, &mut sink)?;
    Ok(sink.len)
}

/// Writes the raw values of a stream over the start of `out`, as many bytes as there is room for, and says
/// how many they have. All behind them stays.
///
/// The errors are those of `zf_stream::restore`, but no device fails. After `Header` and `Memory` `out` is as
/// before, and after the others it has a prefix of the values over its start, maybe nothing.
pub fn restore_into(alloc: Global, stream: &[u8], out: &mut [u8]) -> Result<u64, StreamFault>
    ensures { Lent restore_answer restored_text Memory IsBeforeWriting result stream.now out.old out.new }
{
    let mut source = SliceSource::new(stream);
    let mut sink = SliceSink::new(out);
    zf_stream::restore(alloc, &mut source, &mut sink)?;
    Ok(sink.len)
}
