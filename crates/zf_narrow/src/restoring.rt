//! From a stream to raw narrow values.

ghost use Rattle.std.specs.Prelude.{◌≡◌, ◌≤◌, ◌+◌, true, Err, OnOk};
ghost use Rattle.zf_dev.specs.Devices.{Reads, Writes};
ghost use Rattle.zf_dev.specs.Source.{Gives};
ghost use Rattle.zf_parse.specs.declared.fault.StreamFault.TheVariants.{Read, Write};
ghost use Rattle.zf_narrow.specs.declared.fault.NarrowFault.TheVariants.{NotNarrow, Stream};
ghost use Rattle.zf_narrow.specs.Texts.{RestoredNarrow, RestoredNarrowGiven};

use crate::begun::Begun;
use crate::demoted::Demoted;
use crate::demotion::Demotion;
use crate::{Narrow, NarrowFault};
use std::alloc::Global;
use std::marker::{Brand, PhantomData};
use zf_base::Ty;
use zf_dev::{Sink, Source};
use zf_stream::StreamFault;

/// Reads a stream of int32 to the end of the source, and writes the raw narrow values that its values stand
/// for, each little-endian in 1 or 2 bytes, x fastest.
///
/// Values beyond the type become its last ones; of a stream of int64 24 bytes are read at most.
/// `zf_stream::restore` says how much is held at a time, and when values are written.
///
/// `NotNarrow`: the header is good and its values are int64; nothing was written. `Stream(f)`: f is a fault
/// as of `zf_stream::restore`.
pub fn restore_narrow<S: Source, O: Sink>(
    alloc: Global,
    n: Narrow,
    src: &mut S,
    out: &mut O,
) -> Result<(), NarrowFault>
    ensures outcome { RestoredNarrow n result
        (S.contents src.old) (S.contents src.new) (O.contents out.old) (O.contents out.new) }
    // Of every source, also of one that exposes nothing: of what it says that it gave.
    ensures given { RestoredNarrowGiven n result (Gives (S.gave src.old) (S.gave src.new))
        (O.contents out.old) (O.contents out.new) }
    ensures ended { OnOk result (S.ended src.new ≡ true) }
    // It reads no more once it saw the end.
    ensures seen { S.ends_seen src.new ≤ S.ends_seen src.old + 1 }
    ensures still_exact { result ≡ Err NotNarrow → S.is_exact src.old → S.is_exact src.new }
    ensures source { Reads S.Source (result ≡ Err (Stream Read)) src.old src.new }
    ensures sink { Writes O.Sink (result ≡ Err (Stream Write)) out.old out.new }
{
    restore_begun::<S, O, Brand>(alloc, n, src, out)
}

// Restores to a sink that the call began with.
fn restore_begun<S: Source, O: Sink, K: Begun>(
    alloc: Global,
    n: Narrow,
    src: &mut S,
    out: &mut O,
) -> Result<(), NarrowFault>
    requires narrow { K.narrow ≡ n }
    requires start { K.start ≡ O.contents out.old }
    ensures outcome { RestoredNarrow n result
        (S.contents src.old) (S.contents src.new) (O.contents out.old) (O.contents out.new) }
    ensures given { RestoredNarrowGiven n result (Gives (S.gave src.old) (S.gave src.new))
        (O.contents out.old) (O.contents out.new) }
    ensures ended { OnOk result (S.ended src.new ≡ true) }
    ensures seen { S.ends_seen src.new ≤ S.ends_seen src.old + 1 }
    ensures still_exact { result ≡ Err NotNarrow → S.is_exact src.old → S.is_exact src.new }
    ensures source { Reads S.Source (result ≡ Err (Stream Read)) src.old src.new }
    ensures sink { Writes O.Sink (result ≡ Err (Stream Write)) out.old out.new }
{
    let mut sink = Demoted::<O, K> {
        out,
        demotion: Demotion::new(n),
        begun: PhantomData,
    };
    match zf_stream::restore_where(alloc, Ty::I32, src, &mut sink) {
        Ok(true) => match sink.settle() {
            Ok(()) => Ok(()),
            Err(_) => Err(NarrowFault::Stream(StreamFault::Write)),
        },
        Ok(false) => Err(NarrowFault::NotNarrow),
        Err(fault) => Err(NarrowFault::Stream(fault)),
    }
}
