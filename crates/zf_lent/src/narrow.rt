//! Values of 8 and 16 bits, from bytes that are lent into bytes that are lent.

ghost use Rattle.std.specs.Prelude.{◌≡◌};
ghost use Rattle.zf_base.specs.declared.lane.Ty.TheVariants as types;
ghost use Rattle.zf_header.specs.HeaderBits.{IsMode};
ghost use Rattle.zf_narrow.specs.Texts.{narrow_text, compress_narrow_answer, restore_narrow_answer};
ghost use Rattle.zf_narrow.specs.Texts.{narrow_restored, IsBeforeWriting};
ghost use Rattle.zf_narrow.specs.declared.fault.NarrowFault.TheVariants as narrow_faults;
ghost use Rattle.zf_parse.specs.declared.fault.StreamFault.TheVariants.{Memory};
ghost use Rattle.zf_stream.specs.Outcomes as outcomes;
ghost use Rattle.zf_lent.specs.Lent.{Lent};

use crate::slice_sink::SliceSink;
use crate::slice_source::SliceSource;
use std::alloc::Global;
use zf_header::Header;
use zf_narrow::{Narrow, NarrowFault};
use zf_stream::{StreamFault, most_bytes};

/// As [`compress_into`](crate::compress_into), of values of 8 or 16 bits. `h` says int32.
pub fn compress_narrow_into(
    alloc: Global,
    n: Narrow,
    h: &Header,
    raw: &[u8],
    out: &mut [u8],
) -> Result<u64, StreamFault>
    requires mode { IsMode h.now.mode }
    requires int32 { h.now.ty ≡ types.I32 }
    ensures { Lent (compress_narrow_answer n h.now) (narrow_text n h.now) Memory outcomes.IsBeforeWriting result
        raw.now out.old out.new }
{
    // Known by this call: a stream has fewer bytes than a `u64` counts.
    let _most = most_bytes(h);
    let mut source = SliceSource::new(raw);
    let mut sink = SliceSink::new(out);
    zf_narrow::compress_narrow(alloc, n, h, &mut source, &mut sink)?;
    Ok(sink.len)
}

/// As [`restore_into`](crate::restore_into), of values of 8 or 16 bits. `NotNarrow`: the stream's values are
/// int64, and `out` is as before.
pub fn restore_narrow_into(
    alloc: Global,
    n: Narrow,
    stream: &[u8],
    out: &mut [u8],
) -> Result<u64, NarrowFault>
    ensures { Lent restore_narrow_answer (narrow_restored n) (narrow_faults.Stream Memory) IsBeforeWriting
        result stream.now out.old out.new }
{
    let mut source = SliceSource::new(stream);
    let mut sink = SliceSink::new(out);
    zf_narrow::restore_narrow(alloc, n, &mut source, &mut sink)?;
    Ok(sink.len)
}
