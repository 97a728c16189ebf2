//! From raw values to a stream.

ghost use Rattle.std.specs.Prelude.{◌≡◌, true, ◌<◌, ◌≤◌, ◌*◌, ◌+◌, ◌^◌, length, IfErr, OnOk, OnErr, Err};
ghost use Rattle.std.specs.Int.{byte_len};
ghost use Rattle.zf_spec.specs.Grid.{product};
ghost use Rattle.zf_pad.specs.Rasters.{IsRaster};
ghost use Rattle.zf_pad.specs.Slabs.{rows_of};
ghost use Rattle.zf_base.specs.Widths.{width_of};
ghost use Rattle.zf_header.specs.HeaderBits.{IsMode, header_bits};
ghost use Rattle.zf_parse.specs.Raw.{raw_len, compress_answer, stream_text};
ghost use Rattle.zf_dev.specs.Devices.{Reads, Writes};
ghost use Rattle.zf_dev.specs.Source.{Gives, GivesSome};
ghost use Rattle.zf_stream.specs.Outcomes.{Compressed, CompressedGiven, RefusesRaw};
ghost use Rattle.zf_stream.specs.Rooms.{IsRoomFor, IsRoomOf, Keeps};
ghost use Rattle.zf_stream.specs.Rows.{Compresses, Compressing, Stops, Ends, WritesSlab, BreaksSlab};
ghost use Rattle.zf_parse.specs.declared.fault.StreamFault.TheVariants.{Read, Write};

use crate::StreamFault;
use crate::encoding::write_codes;
use crate::reading::{read_end, read_values};
use crate::room::{Room, room_for};
use crate::slabs::{rows_of, with_rows};
use crate::writing::write_whole_words;
use std::alloc::Global;
use std::marker::{Brand, PhantomData};
use zf_base::{Lane, Ty};
use zf_dev::{Begun, Sink, Source, UntilEnd};
use zf_header::Header;
use zf_pad::{Layout, value_len};

/// Reads raw values, each little-endian in 4 or 8 bytes, x fastest, and writes their stream.
///
/// The source is to give exactly the values of the header's shape: it is read to its end. A rate of `h` is 1
/// to 32768, a precision 1 to 128. A slab of values is held at a time, up to four rows of the last axis or
/// 4096 values of one dimension; all memory is taken before anything is written.
///
/// `RawShort(m)`: the source ended after m bytes, fewer than the shape needs. `RawLong`: it gave a byte more
/// than the shape needs. `Read`, `Write`: that device failed. `Memory`: there was no memory, and nothing was
/// written. After the others a prefix of the stream of the values that came is written, maybe nothing.
pub fn compress<S: Source, O: Sink>(
    alloc: Global,
    h: &Header,
    src: &mut S,
    out: &mut O,
) -> Result<(), StreamFault>
    requires { IsMode h.now.mode }
    ensures outcome { Compressed (compress_answer h.now) (stream_text h.now) (raw_len h.now) result
        (S.contents src.old) (S.contents src.new) (O.contents out.old) (O.contents out.new) }
    // Of every source, also of one that exposes nothing: of what it says that it gave.
    ensures given { CompressedGiven (compress_answer h.now) (stream_text h.now) result
        (Gives (S.gave src.old) (S.gave src.new)) (O.contents out.old) (O.contents out.new) }
    ensures ended { OnOk result (S.ended src.new ≡ true) }
    // It reads no more once it saw the end.
    ensures seen { S.ends_seen src.new ≤ S.ends_seen src.old + 1 }
    ensures source { Reads S.Source (result ≡ Err Read) src.old src.new }
    ensures sink { Writes O.Sink (result ≡ Err Write) out.old out.new }
{
    match h.ty {
        Ty::I32 => compress_as::<i32, S, O, Brand>(alloc, h, src, out),
        Ty::I64 => compress_as::<i64, S, O, Brand>(alloc, h, src, out),
    }
}

/// Reads and writes values of this type. The call began with this source, which is not read behind its end.
fn compress_as<T: Lane, S: Source, O: Sink, K: Begun>(
    alloc: Global,
    h: &Header,
    src: &mut S,
    out: &mut O,
) -> Result<(), StreamFault>
    requires begun { K.ends_seen ≡ S.ends_seen src.old }
    requires mode { IsMode h.now.mode }
    requires same_type { T.width ≡ width_of h.now.ty }
    ensures ends { Compressing S.Source O.Sink h.now result src.old src.new out.old out.new }
    ensures seen { S.ends_seen src.new ≤ S.ends_seen src.old + 1 }
{
    src.read_ahead();
    let (mut values, mut room) = room_for::<T>(alloc, h)?;
    let mut source = UntilEnd::<S, K> {
        src,
        ended: false,
        begun: PhantomData,
    };
    write_stream(h, &mut values, &mut room, &mut source, out)
}

/// Writes the stream, whose header is at hand, in room that is there already.
fn write_stream<T: Lane, S: Source, O: Sink>(
    h: &Header,
    values: &mut [T],
    room: &mut Room<T>,
    src: &mut S,
    out: &mut O,
) -> Result<(), StreamFault>
    requires room { IsRoomOf T.width h.now (length values.old) room.old }
    requires header { room.old.codes.bits ≡ header_bits h.now }
    ensures ends { Ends h.now result (S.contents src.old) (S.contents src.new)
        (Gives (S.gave src.old) (S.gave src.new)) (O.contents out.old) (O.contents out.new) }
    ensures ended { OnOk result (S.ended src.new ≡ true) }
    ensures source { Reads S.Source (result ≡ Err Read) src.old src.new }
    ensures sink { Writes O.Sink (result ≡ Err Write) out.old out.new }
{
    // Known by this call: there is an axis.
    let _dims = h.shape.dims();
    write_whole_words(&mut room.codes, &mut room.piece, out)?;
    write_slabs(h, values, room, src, out)?;
    read_end(src)?;
    room.codes.pad_to_word();
    write_whole_words(&mut room.codes, &mut room.piece, out)
}

/// Reads the slabs and writes their codes.
fn write_slabs<T: Lane, S: Source, O: Sink>(
    h: &Header,
    values: &mut [T],
    room: &mut Room<T>,
    src: &mut S,
    out: &mut O,
) -> Result<(), StreamFault>
    requires room { IsRoomOf T.width h.now (length values.old) room.old }
    requires few { length room.old.codes.bits < room.old.most }
    ensures ok { OnOk result (Compresses h.now (rows_of h.now.shape) (S.contents src.old) (S.contents src.new)
        (Gives (S.gave src.old) (S.gave src.new)) (O.contents out.old) (O.contents out.new)
        room.old.codes.bits room.new.codes.bits) }
    ensures err { OnErr result (Stops h.now (S.contents src.old) (S.contents src.new)
        (Gives (S.gave src.old) (S.gave src.new))
        (O.contents out.old) (O.contents out.new) room.old.codes.bits) }
    ensures refused { IfErr result (RefusesRaw (compress_answer h.now) (raw_len h.now)
        (S.contents src.old) (S.contents src.new)) }
    ensures few { OnOk result (length room.new.codes.bits < room.new.most) }
    ensures keeps { Keeps room.old room.new }
    ensures source { Reads S.Source (result ≡ Err Read) src.old src.new }
    ensures sink { Writes O.Sink (result ≡ Err Write) out.old out.new }
{
    // Known by this call: the array has no more values than there may be.
    let _dims = h.shape.dims();
    let layout = Layout::raster(&h.shape);
    let all = rows_of(&h.shape);
    let mut row = 0;
    let mut taken = 0;
    while row < all {
        let here = room.rows.min(all - row);
        let part = Header {
            ty: h.ty,
            shape: with_rows(&h.shape, here),
            mode: h.mode,
        };
        let count = part.shape.values() as usize;
        let len = count * value_len::<T>();
        write_slab(&layout, &part, taken, &mut values[..count], room, src, out)?;
        row += here;
        taken += len as u64;
    }
    Ok(())
}

/// Reads one slab, an array of its own behind so many bytes, and writes its codes. The array's layout serves
/// it.
fn write_slab<T: Lane, S: Source, O: Sink>(
    layout: &Layout,
    part: &Header,
    taken: u64,
    values: &mut [T],
    room: &mut Room<T>,
    src: &mut S,
    out: &mut O,
) -> Result<(), StreamFault>
    requires same_type { T.width ≡ width_of part.now.ty }
    requires raster { IsRaster part.now.shape layout.now }
    requires values { length values.old ≡ product part.now.shape }
    requires room { IsRoomFor part.now room.old }
    requires few { length room.old.codes.bits < room.old.most }
    requires taken { taken + product part.now.shape * byte_len (width_of part.now.ty) < 2 ^ 64 }
    ensures ok { OnOk result (WritesSlab part.now (S.contents src.old) (S.contents src.new)
        (Gives (S.gave src.old) (S.gave src.new)) (O.contents out.old) (O.contents out.new)
        room.old.codes.bits room.new.codes.bits) }
    ensures err { IfErr result (BreaksSlab part.now taken (S.contents src.old) (S.contents src.new)
        (Gives (S.gave src.old) (S.gave src.new))
        (O.contents out.old) (O.contents out.new) room.old.codes.bits) }
    ensures gave_some { GivesSome (S.gave src.old) (S.gave src.new) }
    ensures few { OnOk result (length room.new.codes.bits < room.new.most) }
    ensures keeps { Keeps room.old room.new }
    ensures source { Reads S.Source (result ≡ Err Read) src.old src.new }
    ensures sink { Writes O.Sink (result ≡ Err Write) out.old out.new }
{
    read_values(taken, values, &mut room.piece, src)?;
    write_codes(layout, part, values, room, out)
}
