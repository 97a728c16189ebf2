//! The calls on parts of a stream over an index, which tells where its codes begin.

ghost use Rattle.std.specs.Prelude.{◌≡◌, ◌*◌, ◌<◌, ◌≤◌, All, length, OnOk, IfErr};
ghost use Rattle.zf_spec.specs.Grid.{blocks};
ghost use Rattle.zf_base.specs.Widths.{width_of};
ghost use Rattle.zf_cached.specs.Windows.{LiesIn};
ghost use Rattle.zf_parse.specs.Parsing.{header_of};
ghost use Rattle.zf_index.specs.Files.{HasHeader};
ghost use Rattle.zfpi_c.specs.Parts.{EndsPart, Wrote, Lacks, WritesIndex, asked};
ghost use Rattle.zfpi_c.specs.Parts.{ReadsBlocksAt, LacksBlocksAt, ReadsWindowAt, LacksWindowAt};

use crate::parts::{Axes, has_all, has_room, window_of};
use crate::status::Status;
use crate::values::put_over;
use std::alloc::Global;
use zf_base::{Lane, Ty, block_len};
use zf_header::Header;
use zf_pad::value_len;
use zf_part::{read_blocks_at, read_window_at, write_places};
use zf_window::Window;

/// Writes the bit of the stream at which the code of each block begins to the start of `places`. All behind
/// them stays.
#[unsafe(no_mangle)]
pub extern "C" fn zfpi_index(alloc: Global, stream: &[u8], places: &mut [u64]) -> u32
    ensures { EndsPart (WritesIndex (header_of stream.now) stream.now)
        (Lacks stream.now ⊥ (blocks (header_of stream.now).shape) (length places.old))
        places.old places.new result }
{
    match index(alloc, stream, places) {
        Ok(()) => 0,
        Err(status) => status.code(),
    }
}

fn index(alloc: Global, stream: &[u8], places: &mut [u64]) -> Result<(), Status>
    ensures ok { OnOk result (Wrote (WritesIndex (header_of stream.now) stream.now) places.old places.new) }
    ensures err { IfErr result (Lacks stream.now ⊥ (blocks (header_of stream.now).shape)
        (length places.old)) }
    ensures stays { IfErr result (λ status. places.new ≡ places.old) }
{
    let Ok((h, _)) = zf_header::read(stream) else {
        return Err(Status::Header);
    };
    let count = h.shape.blocks();
    if count > places.len() as u64 {
        return Err(Status::Room);
    }
    write_places(alloc, &h, stream, &mut places[..count as usize])?;
    Ok(())
}

/// Reads the blocks of a list as `zfpi_read_blocks`, over the places that `zfpi_index` wrote for this stream.
#[unsafe(no_mangle)]
pub extern "C" fn zfpi_read_blocks_at(
    alloc: Global,
    stream: &[u8],
    places: &[u64],
    list: &[u64],
    out: &mut [u8],
) -> u32
    ensures { EndsPart (ReadsBlocksAt (header_of stream.now) stream.now places.now list.now)
        (LacksBlocksAt (header_of stream.now) stream.now places.now list.now (length out.old))
        out.old out.new result }
{
    match read_list_at(alloc, stream, places, list, out) {
        Ok(()) => 0,
        Err(status) => status.code(),
    }
}

fn read_list_at(
    alloc: Global,
    stream: &[u8],
    places: &[u64],
    list: &[u64],
    out: &mut [u8],
) -> Result<(), Status>
    ensures ok { OnOk result (Wrote (ReadsBlocksAt (header_of stream.now) stream.now places.now list.now)
        out.old out.new) }
    ensures err { IfErr result (LacksBlocksAt (header_of stream.now) stream.now places.now list.now
        (length out.old)) }
    ensures stays { IfErr result (λ status. out.new ≡ out.old) }
{
    let Ok((h, _)) = zf_header::read(stream) else {
        return Err(Status::Header);
    };
    if !has_all(&h.shape, list) {
        return Err(Status::Part);
    }
    match h.ty {
        Ty::I32 => list_at::<i32>(alloc, &h, stream, places, list, out),
        Ty::I64 => list_at::<i64>(alloc, &h, stream, places, list, out),
    }
}

// The blocks of a list, of values of one type.
fn list_at<T: Lane>(
    alloc: Global,
    h: &Header,
    stream: &[u8],
    places: &[u64],
    list: &[u64],
    out: &mut [u8],
) -> Result<(), Status>
    requires header { HasHeader stream.now h.now }
    requires same_type { T.width ≡ width_of h.now.ty }
    requires in_array { All (λ b. b < blocks h.now.shape) list.now }
    ensures ok { OnOk result (Wrote (ReadsBlocksAt h.now stream.now places.now list.now) out.old out.new) }
    ensures err { IfErr result (LacksBlocksAt h.now stream.now places.now list.now (length out.old)) }
    ensures stays { IfErr result (λ status. out.new ≡ out.old) }
{
    let size = block_len(h.shape.dims());
    let bytes = size * value_len::<T>();
    if !has_room(list.len(), bytes, out.len()) {
        return Err(Status::Room);
    }
    let mut values = vec![in alloc; T::zero(); list.len() * size]?;
    read_blocks_at(alloc, h, stream, places, list, &mut values)?;
    put_over(&values, out);
    Ok(())
}

/// Reads a window as `zfpi_read`, over the places that `zfpi_index` wrote for this stream.
#[unsafe(no_mangle)]
pub extern "C" fn zfpi_read_at(
    alloc: Global,
    stream: &[u8],
    places: &[u64],
    origin: &Axes,
    size: &Axes,
    out: &mut [u8],
) -> u32
    ensures { EndsPart
        (ReadsWindowAt (header_of stream.now) stream.now places.now
        (asked (header_of stream.now).shape origin.now size.now))
        (LacksWindowAt (header_of stream.now) stream.now places.now
        (asked (header_of stream.now).shape origin.now size.now) (length out.old))
        out.old out.new result }
{
    match read_part_at(alloc, stream, places, origin, size, out) {
        Ok(()) => 0,
        Err(status) => status.code(),
    }
}

fn read_part_at(
    alloc: Global,
    stream: &[u8],
    places: &[u64],
    origin: &Axes,
    size: &Axes,
    out: &mut [u8],
) -> Result<(), Status>
    ensures ok { OnOk result (Wrote (ReadsWindowAt (header_of stream.now) stream.now places.now
        (asked (header_of stream.now).shape origin.now size.now)) out.old out.new) }
    ensures err { IfErr result (LacksWindowAt (header_of stream.now) stream.now places.now
        (asked (header_of stream.now).shape origin.now size.now) (length out.old)) }
    ensures stays { IfErr result (λ status. out.new ≡ out.old) }
{
    let Ok((h, _)) = zf_header::read(stream) else {
        return Err(Status::Header);
    };
    let Ok(w) = window_of(&h.shape, origin, size) else {
        return Err(Status::Part);
    };
    match h.ty {
        Ty::I32 => part_at::<i32>(alloc, &h, stream, places, &w, out),
        Ty::I64 => part_at::<i64>(alloc, &h, stream, places, &w, out),
    }
}

// A window, of values of one type.
fn part_at<T: Lane>(
    alloc: Global,
    h: &Header,
    stream: &[u8],
    places: &[u64],
    w: &Window,
    out: &mut [u8],
) -> Result<(), Status>
    requires header { HasHeader stream.now h.now }
    requires same_type { T.width ≡ width_of h.now.ty }
    requires lies { LiesIn h.now.shape w.now }
    ensures ok { OnOk result (Wrote (ReadsWindowAt h.now stream.now places.now w.now) out.old out.new) }
    ensures err { IfErr result (LacksWindowAt h.now stream.now places.now w.now (length out.old)) }
    ensures stays { IfErr result (λ status. out.new ≡ out.old) }
{
    // Known by this call: the window has no more values.
    let _most = h.shape.values();
    let count = w.count() as usize;
    let bytes = value_len::<T>();
    if !has_room(count, bytes, out.len()) {
        return Err(Status::Room);
    }
    let mut values = vec![in alloc; T::zero(); count]?;
    read_window_at(alloc, h, stream, places, w, &mut values)?;
    put_over(&values, out);
    Ok(())
}
