//! The calls on parts of a stream.

ghost use Rattle.std.specs.Prelude.{◌≡◌, ◌↔◌, ◌*◌, ◌^◌, ◌<◌, ◌≤◌, [], ◌∷◌, All, length, take};
ghost use Rattle.std.specs.Prelude.{Some, IsTrue, IfOk, OnOk, IfErr};
ghost use Rattle.zf_spec.specs.Grid.{blocks};
ghost use Rattle.zf_base.specs.Widths.{width_of};
ghost use Rattle.zf_base.specs.Positions.{used_axes, with_unused};
ghost use Rattle.zf_cached.specs.Windows.{LiesIn};
ghost use Rattle.zf_window.specs.WindowFields.{view_fault};
ghost use Rattle.zf_header.specs.HeaderBits.{IsRate};
ghost use Rattle.zf_part.specs.Blocks.{IsWritten};
ghost use Rattle.zf_parse.specs.Parsing.{header_of};
ghost use Rattle.zf_index.specs.Files.{HasHeader};
ghost use Rattle.zfpi_c.specs.Parts.{EndsPart, Wrote, IsMissing, ReadsBlocks, LacksBlocks};
ghost use Rattle.zfpi_c.specs.Parts.{numbers, asked, ReadsWindow, LacksWindow};
ghost use Rattle.zfpi_c.specs.Parts.{block_of_raw, LacksWrite, EndsWrite};

use crate::status::Status;
use crate::values::{put_over, put_values};
use std::alloc::Global;
use zf_base::{Lane, Pos, Shape, Ty, block_len};
use zf_header::{Header, Mode};
use zf_pad::value_len;
use zf_part::{read_block, read_blocks, read_window, write_block};
use zf_window::{ViewFault, Window};

/// A number along each axis, x first.
#[repr(C)]
#[derive(Clone, Copy, Debug, PartialEq, Eq)]
pub struct Axes {
    pub x: u64,
    pub y: u64,
    pub z: u64,
    pub w: u64,
}

/// Reads a block of a stream: the raw bytes of its `4^d` values, little-endian, x fastest, to the start of
/// `out`. Those of values that do not exist mean nothing.
#[unsafe(no_mangle)]
pub extern "C" fn zfpi_read_block(alloc: Global, stream: &[u8], block: u64, out: &mut [u8]) -> u32
    ensures { EndsPart (ReadsBlocks (header_of stream.now) stream.now (block ∷ []))
        (LacksBlocks (header_of stream.now) stream.now (block ∷ []) (length out.old)) out.old out.new result }
{
    match read_one(alloc, stream, block, out) {
        Ok(()) => 0,
        Err(status) => status.code(),
    }
}

fn read_one(alloc: Global, stream: &[u8], block: u64, out: &mut [u8]) -> Result<(), Status>
    ensures ok { OnOk result (Wrote (ReadsBlocks (header_of stream.now) stream.now (block ∷ []))
        out.old out.new) }
    ensures err { IfErr result (LacksBlocks (header_of stream.now) stream.now (block ∷ []) (length out.old)) }
    ensures stays { IfErr result (λ status. out.new ≡ out.old) }
{
    let Ok((h, _)) = zf_header::read(stream) else {
        return Err(Status::Header);
    };
    if block >= h.shape.blocks() {
        return Err(Status::Part);
    }
    // Room for the values: for no more than those of three dimensions, where that is enough.
    let few = h.shape.dims() <= 3;
    match h.ty {
        Ty::I32 if few => block_by(alloc, &h, stream, block, &mut [0i32; 64], out),
        Ty::I32 => block_by(alloc, &h, stream, block, &mut [0i32; 256], out),
        Ty::I64 if few => block_by(alloc, &h, stream, block, &mut [0i64; 64], out),
        Ty::I64 => block_by(alloc, &h, stream, block, &mut [0i64; 256], out),
    }
}

// A block, by way of values of one type.
fn block_by<T: Lane>(
    alloc: Global,
    h: &Header,
    stream: &[u8],
    block: u64,
    room: &mut [T],
    out: &mut [u8],
) -> Result<(), Status>
    requires header { HasHeader stream.now h.now }
    requires same_type { T.width ≡ width_of h.now.ty }
    requires in_array { block < blocks h.now.shape }
    requires room { 4 ^ length h.now.shape ≤ length room.old }
    ensures ok { OnOk result (Wrote (ReadsBlocks h.now stream.now (block ∷ [])) out.old out.new) }
    ensures err { IfErr result (LacksBlocks h.now stream.now (block ∷ []) (length out.old)) }
    ensures stays { IfErr result (λ status. out.new ≡ out.old) }
{
    let size = block_len(h.shape.dims());
    if size * value_len::<T>() > out.len() {
        return Err(Status::Room);
    }
    let values = &mut room[..size];
    read_block(alloc, h, stream, block, values)?;
    put_over(values, out);
    Ok(())
}

/// Reads the blocks of a list, in its order, one behind the other.
#[unsafe(no_mangle)]
pub extern "C" fn zfpi_read_blocks(
    alloc: Global,
    stream: &[u8],
    list: &[u64],
    out: &mut [u8],
) -> u32
    ensures { EndsPart (ReadsBlocks (header_of stream.now) stream.now list.now)
        (LacksBlocks (header_of stream.now) stream.now list.now (length out.old)) out.old out.new result }
{
    match read_list(alloc, stream, list, out) {
        Ok(()) => 0,
        Err(status) => status.code(),
    }
}

fn read_list(alloc: Global, stream: &[u8], list: &[u64], out: &mut [u8]) -> Result<(), Status>
    ensures ok { OnOk result (Wrote (ReadsBlocks (header_of stream.now) stream.now list.now) out.old out.new) }
    ensures err { IfErr result (LacksBlocks (header_of stream.now) stream.now list.now (length out.old)) }
    ensures stays { IfErr result (λ status. out.new ≡ out.old) }
{
    let Ok((h, _)) = zf_header::read(stream) else {
        return Err(Status::Header);
    };
    if !has_all(&h.shape, list) {
        return Err(Status::Part);
    }
    match h.ty {
        Ty::I32 => list_of::<i32>(alloc, &h, stream, list, out),
        Ty::I64 => list_of::<i64>(alloc, &h, stream, list, out),
    }
}

// Whether all of a list are blocks of an array of this shape.
pub(crate) fn has_all(shape: &Shape, list: &[u64]) -> bool
    ensures all { IsTrue result → All (λ b. b < blocks shape.now) list.now }
    ensures missing { ¬ IsTrue result → IsMissing shape.now list.now }
{
    let count = shape.blocks();
    for k in 0..list.len() {
        if list[k] >= count {
            return false;
        }
    }
    true
}

// The blocks of a list, of values of one type.
fn list_of<T: Lane>(
    alloc: Global,
    h: &Header,
    stream: &[u8],
    list: &[u64],
    out: &mut [u8],
) -> Result<(), Status>
    requires header { HasHeader stream.now h.now }
    requires same_type { T.width ≡ width_of h.now.ty }
    requires in_array { All (λ b. b < blocks h.now.shape) list.now }
    ensures ok { OnOk result (Wrote (ReadsBlocks h.now stream.now list.now) out.old out.new) }
    ensures err { IfErr result (LacksBlocks h.now stream.now list.now (length out.old)) }
    ensures stays { IfErr result (λ status. out.new ≡ out.old) }
{
    let size = block_len(h.shape.dims());
    let bytes = size * value_len::<T>();
    if !has_room(list.len(), bytes, out.len()) {
        return Err(Status::Room);
    }
    let mut values = vec![in alloc; T::zero(); list.len() * size]?;
    read_blocks(alloc, h, stream, list, &mut values)?;
    put_over(&values, out);
    Ok(())
}

// Whether so many things of `size` bytes have room.
pub(crate) fn has_room(count: usize, size: usize, room: usize) -> bool
    requires some { 0 < size }
    ensures { IsTrue result ↔ count * size ≤ room }
{
    count <= room / size
}

/// Reads the window that begins at `origin` and has these sizes: its raw bytes, little-endian, x fastest, to
/// the start of `out`. Numbers along axes that are not used are not looked at.
#[unsafe(no_mangle)]
pub extern "C" fn zfpi_read(
    alloc: Global,
    stream: &[u8],
    origin: &Axes,
    size: &Axes,
    out: &mut [u8],
) -> u32
    ensures { EndsPart
        (ReadsWindow (header_of stream.now) stream.now
        (asked (header_of stream.now).shape origin.now size.now))
        (LacksWindow (header_of stream.now) stream.now
        (asked (header_of stream.now).shape origin.now size.now) (length out.old))
        out.old out.new result }
{
    match read_part(alloc, stream, origin, size, out) {
        Ok(()) => 0,
        Err(status) => status.code(),
    }
}

fn read_part(
    alloc: Global,
    stream: &[u8],
    origin: &Axes,
    size: &Axes,
    out: &mut [u8],
) -> Result<(), Status>
    ensures ok { OnOk result (Wrote (ReadsWindow (header_of stream.now) stream.now
        (asked (header_of stream.now).shape origin.now size.now)) out.old out.new) }
    ensures err { IfErr result (LacksWindow (header_of stream.now) stream.now
        (asked (header_of stream.now).shape origin.now size.now) (length out.old)) }
    ensures stays { IfErr result (λ status. out.new ≡ out.old) }
{
    let Ok((h, _)) = zf_header::read(stream) else {
        return Err(Status::Header);
    };
    let Ok(w) = window_of(&h.shape, origin, size) else {
        return Err(Status::Part);
    };
    match h.ty {
        Ty::I32 => part_of::<i32>(alloc, &h, stream, &w, out),
        Ty::I64 => part_of::<i64>(alloc, &h, stream, &w, out),
    }
}

// The window of an array of this shape that is asked for.
pub(crate) fn window_of(shape: &Shape, origin: &Axes, size: &Axes) -> Result<Window, ViewFault>
    ensures window { IfOk result (λ w. w ≡ asked shape.now origin.now size.now) }
    ensures lies { IfOk result (LiesIn shape.now) }
    ensures fault { IfErr result (λ f. view_fault shape.now (asked shape.now origin.now size.now) ≡ Some f) }
{
    let d = shape.dims();
    let ones = Axes {
        x: 1,
        y: 1,
        z: 1,
        w: 1,
    };
    Window::new(
        shape,
        pos_of(d, origin, 0),
        pos_of(d, size, 1),
        pos_of(d, &ones, 1),
    )
}

// The first `d` of these, and `other` along the others.
fn pos_of(d: u8, p: &Axes, other: u64) -> Pos
    requires { (1 ≤ d) × (d ≤ 4) }
    ensures used { used_axes d result ≡ take d (numbers p.now) }
    ensures unused { result ≡ with_unused other (used_axes d result) }
{
    match d {
        1 => Pos {
            x: p.x,
            y: other,
            z: other,
            w: other,
        },
        2 => Pos {
            x: p.x,
            y: p.y,
            z: other,
            w: other,
        },
        3 => Pos {
            x: p.x,
            y: p.y,
            z: p.z,
            w: other,
        },
        _ => Pos {
            x: p.x,
            y: p.y,
            z: p.z,
            w: p.w,
        },
    }
}

// A window, of values of one type.
fn part_of<T: Lane>(
    alloc: Global,
    h: &Header,
    stream: &[u8],
    w: &Window,
    out: &mut [u8],
) -> Result<(), Status>
    requires header { HasHeader stream.now h.now }
    requires same_type { T.width ≡ width_of h.now.ty }
    requires lies { LiesIn h.now.shape w.now }
    ensures ok { OnOk result (Wrote (ReadsWindow h.now stream.now w.now) out.old out.new) }
    ensures err { IfErr result (LacksWindow h.now stream.now w.now (length out.old)) }
    ensures stays { IfErr result (λ status. out.new ≡ out.old) }
{
    // Known by this call: the window has no more values.
    let _most = h.shape.values();
    let count = w.count() as usize;
    let bytes = value_len::<T>();
    if !has_room(count, bytes, out.len()) {
        return Err(Status::Room);
    }
    let mut values = vec![in alloc; T::zero(); count]?;
    read_window(alloc, h, stream, w, &mut values)?;
    put_over(&values, out);
    Ok(())
}

/// Makes the code of a block of a stream at a rate that of the values with these raw bytes: `4^d` of them,
/// little-endian, x fastest. Those of values that do not exist are not looked at.
#[unsafe(no_mangle)]
pub extern "C" fn zfpi_write_block(alloc: Global, stream: &mut [u8], block: u64, raw: &[u8]) -> u32
    ensures { EndsWrite (header_of stream.old) stream.old stream.new block raw.now result }
{
    match write(alloc, stream, block, raw) {
        Ok(()) => 0,
        Err(status) => status.code(),
    }
}

fn write(alloc: Global, stream: &mut [u8], b: u64, raw: &[u8]) -> Result<(), Status>
    ensures ok { OnOk result (IsWritten stream.old stream.new (header_of stream.old) b
        (block_of_raw (header_of stream.old) raw.now)) }
    ensures err { IfErr result (LacksWrite (header_of stream.old) stream.old b (length raw.now)) }
    ensures stays { IfErr result (λ status. stream.new ≡ stream.old) }
{
    let Ok((h, _)) = zf_header::read(stream) else {
        return Err(Status::Header);
    };
    let Mode::Rate(_) = h.mode else {
        return Err(Status::Mode);
    };
    if h.shape.blocks() <= b {
        return Err(Status::Part);
    }
    match h.ty {
        Ty::I32 => write_of::<i32>(alloc, &h, stream, b, raw),
        Ty::I64 => write_of::<i64>(alloc, &h, stream, b, raw),
    }
}

fn write_of<T: Lane>(
    alloc: Global,
    h: &Header,
    stream: &mut [u8],
    b: u64,
    raw: &[u8],
) -> Result<(), Status>
    requires header { HasHeader stream.old h.now }
    requires rate { IsRate h.now.mode }
    requires same_type { T.width ≡ width_of h.now.ty }
    requires in_array { b < blocks h.now.shape }
    ensures ok { OnOk result (IsWritten stream.old stream.new h.now b (block_of_raw h.now raw.now)) }
    ensures err { IfErr result (LacksWrite h.now stream.old b (length raw.now)) }
    ensures stays { IfErr result (λ status. stream.new ≡ stream.old) }
{
    let len = block_len(h.shape.dims());
    let bytes = len * value_len::<T>();
    if raw.len() < bytes {
        return Err(Status::RawShort);
    }
    if raw.len() > bytes {
        return Err(Status::RawLong);
    }
    let mut block = vec![in alloc; T::zero(); len]?;
    put_values(raw, &mut block);
    write_block(alloc, h, stream, b, &block)?;
    Ok(())
}
