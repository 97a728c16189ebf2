//! The calls.

ghost use Rattle.std.specs.Prelude.{◌≡◌, ◌<◌, ◌≤◌, Some, Err, IfErr, OnOk, IfOk};
ghost use Rattle.zfpi_c.specs.declared.status.Status.TheVariants as statuses;
ghost use Rattle.zf_header.specs.HeaderBits.{IsMode};
ghost use Rattle.zf_parse.specs.Parsing.{restored_text};
ghost use Rattle.zf_parse.specs.declared.fault.StreamFault.TheVariants as faults;
ghost use Rattle.zf_stream.specs.Outcomes.{IsBeforeWriting};
ghost use Rattle.zf_lent.specs.Lent.{Lent};
ghost use Rattle.zfpi_c.specs.Fields.{type_of, narrow_of, text_of, answer_of, text_said};
ghost use Rattle.zfpi_c.specs.Fields.{compress_stated, header_answer};
ghost use Rattle.zfpi_c.specs.Fields.{restore_stated, restore_narrow_stated, narrow_values};
ghost use Rattle.zfpi_c.specs.Calls.{Writes, Refuses, Ends, IsMost, TellsMost, TellsHeader};

use crate::fields::{Field, Info, info_of, narrow_of};
use crate::status::Status;
use std::alloc::Global;
use zf_header::Header;
use zf_lent::{compress_into, compress_narrow_into, restore_into, restore_narrow_into};
use zf_stream::{StreamFault, most_bytes};

// The version: 10000 times the first number, 100 times the second, and the third.
const VERSION: u32 = 10_100;

/// The version of the library, 10100 for 1.1.0.
#[unsafe(no_mangle)]
pub extern "C" fn zfpi_version() -> u32
    ensures { result ≡ 10100 }
{
    VERSION
}

/// Writes the stream of raw values, little-endian, x fastest, to the start of `out`, and says in `len` how
/// many bytes it has. All behind them stays.
///
/// 0: done. 1, 2, 3: type, shape or mode of the field are none. 4, 5: there are fewer, or more, raw bytes
/// than it needs. 6: the stream has `len` bytes, and there is room for fewer; the first ones were written.
/// 7: there was no memory. After 1, 2, 3 and 7 `out` is as before; after 4 and 5 a prefix of a stream stands
/// over its start, maybe nothing. `len` is told after 0 and 6 alone.
#[unsafe(no_mangle)]
pub extern "C" fn zfpi_compress(
    alloc: Global,
    field: &Field,
    raw: &[u8],
    out: &mut [u8],
    len: &mut u64,
) -> u32
    ensures { Ends (compress_stated field.now raw.now) (text_said field.now) raw.now out.old out.new
        len.old len.new result }
{
    match compress(alloc, field, raw, out, len) {
        Ok(()) => 0,
        Err(status) => status.code(),
    }
}

fn compress(
    alloc: Global,
    field: &Field,
    raw: &[u8],
    out: &mut [u8],
    len: &mut u64,
) -> Result<(), Status>
    ensures ok { OnOk result (Writes (compress_stated field.now raw.now) (text_said field.now raw.now)
        out.old out.new len.new) }
    ensures err { IfErr result (Refuses (compress_stated field.now raw.now) (text_said field.now) raw.now
        out.old out.new len.old len.new) }
{
    let header = field.header()?;
    let room = out.len();
    let count = compressed(alloc, field.ty, &header, raw, out)?;
    tell(count, room, len)
}

// The stream of values of the type that a number says, in a header's shape and mode.
fn compressed(
    alloc: Global,
    ty: u32,
    header: &Header,
    raw: &[u8],
    out: &mut [u8],
) -> Result<u64, StreamFault>
    requires same_type { type_of ty ≡ Some header.now.ty }
    requires mode { IsMode header.now.mode }
    ensures { Lent (answer_of (narrow_of ty) header.now) (text_of (narrow_of ty) header.now) faults.Memory
        IsBeforeWriting result raw.now out.old out.new }
{
    match narrow_of(ty) {
        None => compress_into(alloc, header, raw, out),
        Some(n) => compress_narrow_into(alloc, n, header, raw, out),
    }
}

// Tells how many bytes the text has, and whether there was room for them.
fn tell(count: u64, room: usize, len: &mut u64) -> Result<(), Status>
    ensures told { len.new ≡ count }
    ensures ok { OnOk result (count ≤ room) }
    ensures err { IfErr result (λ status. (status ≡ statuses.Room) × (room < count)) }
{
    *len = count;
    if count > room as u64 {
        return Err(Status::Room);
    }
    Ok(())
}

/// Writes the raw values of a stream, little-endian, x fastest, to the start of `out`, and says in `len` how
/// many bytes they have. All behind them stays.
///
/// 0: done. 6: the values have `len` bytes, and there is room for fewer; the first ones were written. 7:
/// there was no memory. 8: the bytes begin with no header that is read. 9: the stream ends too early. 10: a
/// bit of its fill is one. 11: a byte follows it. After 7 and 8 `out` is as before; after 9, 10 and 11 a
/// prefix of the values stands over its start, maybe nothing. `len` is told after 0 and 6 alone.
#[unsafe(no_mangle)]
pub extern "C" fn zfpi_restore(alloc: Global, stream: &[u8], out: &mut [u8], len: &mut u64) -> u32
    ensures { Ends (restore_stated stream.now) restored_text stream.now out.old out.new
        len.old len.new result }
{
    match restore(alloc, stream, out, len) {
        Ok(()) => 0,
        Err(status) => status.code(),
    }
}

fn restore(alloc: Global, stream: &[u8], out: &mut [u8], len: &mut u64) -> Result<(), Status>
    ensures ok { OnOk result (Writes (restore_stated stream.now) (restored_text stream.now) out.old out.new
        len.new) }
    ensures err { IfErr result (Refuses (restore_stated stream.now) restored_text stream.now out.old out.new
        len.old len.new) }
{
    let room = out.len();
    let count = restore_into(alloc, stream, out)?;
    tell(count, room, len)
}

/// As `zfpi_restore`, where the values were of 8 or 16 bits: `ty` is 3 to 6, the number that they had.
///
/// 1: `ty` is none of these. 12: the stream's values are int64. After both `out` is as before.
#[unsafe(no_mangle)]
pub extern "C" fn zfpi_restore_narrow(
    alloc: Global,
    ty: u32,
    stream: &[u8],
    out: &mut [u8],
    len: &mut u64,
) -> u32
    ensures { Ends (restore_narrow_stated (narrow_of ty) stream.now) (narrow_values (narrow_of ty))
        stream.now out.old out.new len.old len.new result }
{
    match restore_narrow(alloc, ty, stream, out, len) {
        Ok(()) => 0,
        Err(status) => status.code(),
    }
}

fn restore_narrow(
    alloc: Global,
    ty: u32,
    stream: &[u8],
    out: &mut [u8],
    len: &mut u64,
) -> Result<(), Status>
    ensures ok { OnOk result (Writes (restore_narrow_stated (narrow_of ty) stream.now)
        (narrow_values (narrow_of ty) stream.now) out.old out.new len.new) }
    ensures err { IfErr result (Refuses (restore_narrow_stated (narrow_of ty) stream.now)
        (narrow_values (narrow_of ty)) stream.now out.old out.new len.old len.new) }
{
    let Some(n) = narrow_of(ty) else {
        return Err(Status::Scalar);
    };
    let room = out.len();
    let count = restore_narrow_into(alloc, n, stream, out)?;
    tell(count, room, len)
}

/// What the header says that a stream begins with.
///
/// 0: done. 8: the bytes begin with no header that is read, and `info` is as before.
#[unsafe(no_mangle)]
pub extern "C" fn zfpi_header(stream: &[u8], info: &mut Info) -> u32
    ensures { TellsHeader stream.now info.old info.new result }
{
    match zf_header::read(stream) {
        Ok((header, _)) => {
            *info = info_of(&header);
            0
        }
        Err(_) => Status::Header.code(),
    }
}

/// No stream of such an array has more than `most` bytes; at a rate each has so many.
///
/// 0: done. 1, 2, 3: type, shape or mode of the field are none, and `most` is as before.
#[unsafe(no_mangle)]
pub extern "C" fn zfpi_most(field: &Field, most: &mut u64) -> u32
    ensures { TellsMost field.now most.old most.new result }
{
    match most_of(field) {
        Ok(bytes) => {
            *most = bytes;
            0
        }
        Err(status) => status.code(),
    }
}

fn most_of(field: &Field) -> Result<u64, Status>
    ensures ok { IfOk result (IsMost field.now) }
    ensures err { IfErr result (λ status. header_answer field.now ≡ Err status) }
{
    let header = field.header()?;
    Ok(most_bytes(&header))
}
