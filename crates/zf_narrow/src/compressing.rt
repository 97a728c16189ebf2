//! From raw narrow values to a stream.

ghost use Rattle.std.specs.Prelude.{◌≡◌, ◌≤◌, ◌+◌, true, [], Err, OnOk};
ghost use Rattle.zf_base.specs.declared.lane.Ty.TheVariants as types;
ghost use Rattle.zf_header.specs.HeaderBits.{IsMode};
ghost use Rattle.zf_dev.specs.Devices.{Reads, Writes};
ghost use Rattle.zf_dev.specs.Source.{Gives};
ghost use Rattle.zf_stream.specs.Outcomes.{Compressed, CompressedGiven};
ghost use Rattle.zf_parse.specs.declared.fault.StreamFault.TheVariants.{Read, Write};
ghost use Rattle.zf_narrow.specs.Texts.{narrow_len, narrow_count, narrow_fault, compress_narrow_answer};
ghost use Rattle.zf_narrow.specs.Texts.{narrow_text};

use crate::Narrow;
use crate::begun::Begun;
use crate::promoted::Promoted;
use crate::promotion::Promotion;
use crate::raw::size;
use std::alloc::Global;
use std::marker::{Brand, PhantomData};
use zf_dev::{Sink, Source, UntilEnd};
use zf_header::Header;
use zf_stream::StreamFault;

/// Reads raw narrow values, each little-endian in 1 or 2 bytes, x fastest, and writes the stream of the int32
/// values that stand for them.
///
/// The source is to give exactly the values of the header's shape: it is read to its end. `h` says int32; a
/// rate is 1 to 32768, a precision 1 to 128. `zf_stream::compress` says how much is held at a time.
///
/// `RawShort(m)`: the source ended after m narrow bytes, fewer than the shape needs. `RawLong`: it gave a
/// byte more than the shape needs. `Read`, `Write`: that device failed. `Memory`: there was no memory, and
/// nothing was written.
pub fn compress_narrow<S: Source, O: Sink>(
    alloc: Global,
    n: Narrow,
    h: &Header,
    src: &mut S,
    out: &mut O,
) -> Result<(), StreamFault>
    requires mode { IsMode h.now.mode }
    requires int32 { h.now.ty ≡ types.I32 }
    ensures outcome { Compressed (compress_narrow_answer n h.now) (narrow_text n h.now)
        (narrow_len n h.now) result
        (S.contents src.old) (S.contents src.new) (O.contents out.old) (O.contents out.new) }
    // Of every source, also of one that exposes nothing: of what it says that it gave.
    ensures given { CompressedGiven (compress_narrow_answer n h.now) (narrow_text n h.now) result
        (Gives (S.gave src.old) (S.gave src.new)) (O.contents out.old) (O.contents out.new) }
    ensures ended { OnOk result (S.ended src.new ≡ true) }
    // It reads no more once it saw the end.
    ensures seen { S.ends_seen src.new ≤ S.ends_seen src.old + 1 }
    ensures source { Reads S.Source (result ≡ Err Read) src.old src.new }
    ensures sink { Writes O.Sink (result ≡ Err Write) out.old out.new }
{
    compress_begun::<S, O, Brand, Brand>(alloc, n, h, src, out)
}

// Compresses what a source gives that the call began with.
fn compress_begun<S: Source, O: Sink, K: Begun, E: zf_dev::Begun>(
    alloc: Global,
    n: Narrow,
    h: &Header,
    src: &mut S,
    out: &mut O,
) -> Result<(), StreamFault>
    requires narrow { K.narrow ≡ n }
    requires start { K.start ≡ S.contents src.old }
    requires gave { Gives K.gave (S.gave src.old) [] }
    requires from { Gives (S.gave src.old) K.gave [] }
    requires ends { E.ends_seen ≡ S.ends_seen src.old }
    requires mode { IsMode h.now.mode }
    requires int32 { h.now.ty ≡ types.I32 }
    ensures outcome { Compressed (compress_narrow_answer n h.now) (narrow_text n h.now)
        (narrow_len n h.now) result
        (S.contents src.old) (S.contents src.new) (O.contents out.old) (O.contents out.new) }
    // Of every source, also of one that exposes nothing: of what it says that it gave.
    ensures given { CompressedGiven (compress_narrow_answer n h.now) (narrow_text n h.now) result
        (Gives (S.gave src.old) (S.gave src.new)) (O.contents out.old) (O.contents out.new) }
    ensures ended { OnOk result (S.ended src.new ≡ true) }
    ensures seen { S.ends_seen src.new ≤ S.ends_seen src.old + 1 }
    ensures source { Reads S.Source (result ≡ Err Read) src.old src.new }
    ensures sink { Writes O.Sink (result ≡ Err Write) out.old out.new }
{
    let mut source = Promoted::<S, K, E> {
        src: UntilEnd {
            src,
            ended: false,
            begun: PhantomData,
        },
        promotion: Promotion::new(n),
        begun: PhantomData,
    };
    let answer = zf_stream::compress(alloc, h, &mut source, out);
    // Known by this call: a value has four bytes.
    let _pending = source.promotion.pending();
    match answer {
        Ok(()) => Ok(()),
        Err(fault) => Err(in_narrow_bytes(n, fault)),
    }
}

// A refusal of int32 bytes as one of the narrow bytes.
fn in_narrow_bytes(n: Narrow, fault: StreamFault) -> StreamFault
    ensures { result ≡ narrow_fault n fault }
{
    match fault {
        StreamFault::RawShort(bytes) => StreamFault::RawShort(narrow_count(n, bytes)),
        other => other,
    }
}

// How many narrow bytes these are, of so many int32 bytes and a byte more where half a value is left over.
fn narrow_count(n: Narrow, bytes: u64) -> u64
    ensures { result ≡ narrow_count n bytes }
{
    let len = size(n) as u64;
    bytes / 4 * len + (bytes % 4).min(len - 1)
}
