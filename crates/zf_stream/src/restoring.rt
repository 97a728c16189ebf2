//! From a stream to raw values.

ghost use Rattle.std.specs.Prelude.{◌≡◌, ◌≤◌, ◌<◌, ◌+◌, length, true, false, IfOk, IfErr, OnOk, OnErr, Err};
ghost use Rattle.zf_pad.specs.Slabs.{rows_of};
ghost use Rattle.zf_base.specs.Widths.{width_of};
ghost use Rattle.zf_dev.specs.Devices.{Reads, Writes};
ghost use Rattle.zf_dev.specs.Source.{Gives, SeesEnd};
ghost use Rattle.zf_stream.specs.Outcomes.{Restored, RestoredGiven};
ghost use Rattle.zf_stream.specs.Typed.{RestoredWhere, RestoredWhereGiven};
ghost use Rattle.zf_stream.specs.Rooms.{CanRestoreAll, Stays};
ghost use Rattle.zf_stream.specs.Windows.{KnowsEnd};
ghost use Rattle.zf_stream.specs.Restoring.{RestoringBehind, IsBegun, Restores, LeavesRows, Refuses};
ghost use Rattle.zf_stream.specs.Restoring.{RestoresAll};
ghost use Rattle.zf_parse.specs.declared.fault.StreamFault.TheVariants.{Read, Write};

use crate::StreamFault;
use crate::decoding::read_slab;
use crate::header::header_at_prefix;
use crate::reading::read_into;
use crate::restore_room::{RestoreRoom, restore_room};
use crate::slabs::{rows_of, with_rows};
use crate::window::PREFIX;
use crate::writing::write_stored;
use std::alloc::Global;
use std::marker::{Brand, PhantomData};
use zf_base::{Lane, Ty};
use zf_dev::{Begun, Sink, Source, UntilEnd};
use zf_header::Header;
use zf_parse::check_fill;

/// Reads a stream to the end of the source, and writes its raw values, each little-endian in 4 or 8 bytes, x
/// fastest.
///
/// A slab of values is held at a time, up to four rows of the last axis or 4096 values of one dimension; all
/// memory is taken before anything is written. A slab is written once all its codes were read, so a stream
/// that ends early, is damaged or goes on leaves the values before on `out`.
///
/// `Header(f)`: f is the first fault of the header. `Truncated(b)`: the code of block b is the first that
/// ends too early; b is the number of blocks where only fill bits are missing. `Pad`: a bit of the fill is
/// one. `Trailing`: a byte follows the stream. `Read`, `Write`: that device failed. `Memory`: the header is
/// good, and there was no memory. After `Header` and `Memory` nothing was written, and after the others a
/// prefix of the values, maybe nothing.
pub fn restore<S: Source, O: Sink>(
    alloc: Global,
    src: &mut S,
    out: &mut O,
) -> Result<(), StreamFault>
    ensures outcome { Restored result
        (S.contents src.old) (S.contents src.new) (O.contents out.old) (O.contents out.new) }
    // Of every source, also of one that exposes nothing: of what it says that it gave.
    ensures given { RestoredGiven result (Gives (S.gave src.old) (S.gave src.new))
        (O.contents out.old) (O.contents out.new) }
    ensures ended { OnOk result (S.ended src.new ≡ true) }
    // It reads no more once it saw the end.
    ensures seen { S.ends_seen src.new ≤ S.ends_seen src.old + 1 }
    ensures source { Reads S.Source (result ≡ Err Read) src.old src.new }
    ensures sink { Writes O.Sink (result ≡ Err Write) out.old out.new }
{
    let mut prefix = [0; PREFIX];
    let count = read_into(src, &mut prefix)?;
    let (h, header_len) = header_at_prefix(&prefix[..count])?;
    restore_behind::<S, O, Brand>(alloc, &h, header_len, &prefix[..count], src, out)
}

/// Restores a stream whose values are of this type, as [`restore`] does, and answers true. Of another type it
/// answers false: the header was read, with 24 bytes taken at most, and nothing was written. Its errors are
/// those of [`restore`].
pub fn restore_where<S: Source, O: Sink>(
    alloc: Global,
    wanted: Ty,
    src: &mut S,
    out: &mut O,
) -> Result<bool, StreamFault>
    ensures outcome { RestoredWhere wanted result
        (S.contents src.old) (S.contents src.new) (O.contents out.old) (O.contents out.new) }
    // Of every source, also of one that exposes nothing: of what it says that it gave.
    ensures given { RestoredWhereGiven wanted result (Gives (S.gave src.old) (S.gave src.new))
        (O.contents out.old) (O.contents out.new) }
    ensures ended { IfOk result (λ is. is ≡ true → S.ended src.new ≡ true) }
    ensures seen { S.ends_seen src.new ≤ S.ends_seen src.old + 1 }
    ensures still_exact { IfOk result (λ is. is ≡ false → S.is_exact src.old → S.is_exact src.new) }
    ensures source { Reads S.Source (result ≡ Err Read) src.old src.new }
    ensures sink { Writes O.Sink (result ≡ Err Write) out.old out.new }
{
    let mut prefix = [0; PREFIX];
    let read = read_into(src, &mut prefix)?;
    let (header, len) = header_at_prefix(&prefix[..read])?;
    if header.ty != wanted {
        return Ok(false);
    }
    restore_behind::<S, O, Brand>(alloc, &header, len, &prefix[..read], src, out)?;
    Ok(true)
}

/// Restores what stands behind a header, where these bytes were read, with the header. Where they are fewer
/// than were asked for, the end was seen with them; the source is not read behind its end.
fn restore_behind<S: Source, O: Sink, K: Begun>(
    alloc: Global,
    h: &Header,
    header_len: u32,
    prefix: &[u8],
    src: &mut S,
    out: &mut O,
) -> Result<(), StreamFault>
    requires begun { IsBegun prefix.now h.now header_len S.Source src.old }
    requires seen { SeesEnd (length prefix.now < 24) K.ends_seen (S.ends_seen src.old) }
    ensures ends { RestoringBehind S.Source O.Sink prefix.now result src.old src.new out.old out.new }
    ensures seen { S.ends_seen src.new ≤ K.ends_seen + 1 }
{
    let mut source = UntilEnd::<S, K> {
        src,
        ended: prefix.len() < PREFIX,
        begun: PhantomData,
    };
    match h.ty {
        Ty::I32 => restore_as::<i32, _, O>(alloc, h, header_len, prefix, &mut source, out),
        Ty::I64 => restore_as::<i64, _, O>(alloc, h, header_len, prefix, &mut source, out),
    }
}

/// Restores values of this type.
fn restore_as<T: Lane, S: Source, O: Sink>(
    alloc: Global,
    h: &Header,
    header_len: u32,
    prefix: &[u8],
    src: &mut S,
    out: &mut O,
) -> Result<(), StreamFault>
    requires begun { IsBegun prefix.now h.now header_len S.Source src.old }
    requires same_type { T.width ≡ width_of h.now.ty }
    ensures { RestoringBehind S.Source O.Sink prefix.now result src.old src.new out.old out.new }
{
    src.read_ahead();
    let mut room = restore_room::<T>(alloc, h, header_len, prefix)?;
    restore_rows(h, &mut room, src, out)
}

/// Restores what the codes behind the header say, in room that is there already, and judges what stands
/// behind them.
fn restore_rows<T: Lane, S: Source, O: Sink>(
    h: &Header,
    room: &mut RestoreRoom<T>,
    src: &mut S,
    out: &mut O,
) -> Result<(), StreamFault>
    requires room { CanRestoreAll T.width h.now S.Source src.old room.old }
    ensures ok { OnOk result (RestoresAll h.now
        S.Source src.old src.new (O.contents out.old) (O.contents out.new) room.old.window) }
    ensures err { OnErr result (LeavesRows h.now
        S.Source src.old src.new (O.contents out.old) (O.contents out.new) room.old.window) }
    ensures refused { IfErr result (Refuses h.now S.Source src.old src.new room.old.window) }
    ensures source { Reads S.Source (result ≡ Err Read) src.old src.new }
    ensures sink { Writes O.Sink (result ≡ Err Write) out.old out.new }
{
    restore_slabs(h, room, src, out)?;
    // The fill has less than a word, so what is told of 64 bits is told of all that follow.
    room.window.reach(64, &mut room.piece, src)?;
    check_fill(h, &mut room.window.reader())
}

/// Restores the slabs, one after another.
fn restore_slabs<T: Lane, S: Source, O: Sink>(
    h: &Header,
    room: &mut RestoreRoom<T>,
    src: &mut S,
    out: &mut O,
) -> Result<(), StreamFault>
    requires room { CanRestoreAll T.width h.now S.Source src.old room.old }
    ensures ok { OnOk result (Restores h.now (rows_of h.now.shape)
        S.Source src.old src.new (O.contents out.old) (O.contents out.new)
        room.old.window room.new.window) }
    ensures err { OnErr result (LeavesRows h.now
        S.Source src.old src.new (O.contents out.old) (O.contents out.new) room.old.window) }
    ensures refused { IfErr result (Refuses h.now S.Source src.old src.new room.old.window) }
    ensures stays { OnOk result (Stays room.old room.new) }
    ensures ended { OnOk result (KnowsEnd S.Source room.new.window src.new) }
    ensures source { Reads S.Source (result ≡ Err Read) src.old src.new }
    ensures sink { Writes O.Sink (result ≡ Err Write) out.old out.new }
{
    // Known by these calls: there is an axis, and blocks are counted in a word.
    let _dims = h.shape.dims();
    let _blocks = h.shape.blocks();
    let all = rows_of(&h.shape);
    let mut row = 0;
    let mut first = 0;
    while row < all {
        let here = room.rows.min(all - row);
        let part = Header {
            ty: h.ty,
            shape: with_rows(&h.shape, here),
            mode: h.mode,
        };
        read_slab(&part, first, room, src)?;
        write_stored(&part.shape, room.stored.values(), &mut room.piece, out)?;
        first += part.shape.blocks();
        row += here;
    }
    Ok(())
}
