//! Words of a stream on their way to a sink.

ghost use Rattle.std.specs.Prelude.{◌≡◌, ◌≤◌, ◌<◌, ◌*◌, ◌+◌, ◌≢◌, ◌^◌, All, map, length, Err, OnOk, OnErr};
ghost use Rattle.std.specs.Prelude.{IfErr};
ghost use Rattle.zf_spec.specs.Grid.{product};
ghost use Rattle.zf_spec.specs.Stream.{raw};
ghost use Rattle.zf_pad.specs.Stored.{raster_of};
ghost use Rattle.zf_stream.specs.Outcomes.{WritesOnly};
ghost use Rattle.zf_dev.specs.Sink.{Appends, AppendsPrefix};
ghost use Rattle.zf_stream.specs.Flows.{bytes_in, Flows, Spills};
ghost use Rattle.zf_parse.specs.declared.fault.StreamFault.TheVariants.{Write};

use crate::StreamFault;
use crate::bytes::put_bytes;
use zf_base::{Lane, Shape};
use zf_bits::{BitWriter, get_bits};
use zf_dev::{Sink, write_all};
use zf_pad::{copy_lines, put_raw, value_len};

/// Writes the whole words of a code, and keeps the bits behind them.
pub(crate) fn write_whole_words<O: Sink>(
    codes: &mut BitWriter,
    piece: &mut [u8],
    out: &mut O,
) -> Result<(), StreamFault>
    requires { 8 ≤ length piece.old }
    ensures ok { OnOk result (Flows (O.contents out.old) (O.contents out.new) codes.old.bits codes.new.bits) }
    ensures err { OnErr result (Spills (O.contents out.old) (O.contents out.new) codes.old.bits) }
    ensures few { OnOk result (length codes.new.bits < 64) }
    ensures room { length codes.old.bits + codes.old.room ≤ length codes.new.bits + codes.new.room }
    ensures sink { WritesOnly O.Sink result out.old out.new }
{
    let len = codes.len();
    let left = len % 64;
    let words = codes.words();
    write_words(&words[..(len / 64) as usize], piece, out)?;
    let last = get_bits(words, len - left, left as u32);
    codes.clear();
    codes.write_reserved(last, left as u32);
    Ok(())
}

/// Writes words, the least significant byte of each first, by way of `piece`.
fn write_words<O: Sink>(words: &[u64], piece: &mut [u8], out: &mut O) -> Result<(), StreamFault>
    requires { 8 ≤ length piece.old }
    ensures ok { OnOk result (Appends (O.contents out.old) (O.contents out.new) (bytes_in words.now)) }
    ensures err { OnErr result (AppendsPrefix (O.contents out.old) (O.contents out.new)
        (bytes_in words.now)) }
    ensures words { All (λ v. v < 2 ^ 64) words.now }
    ensures sink { WritesOnly O.Sink result out.old out.new }
{
    let most = piece.len() / 8;
    let mut at = 0;
    while at < words.len() {
        let n = (words.len() - at).min(most);
        put_bytes(&words[at..at + n], &mut piece[..8 * n]);
        write_bytes(&piece[..8 * n], out)?;
        at += n;
    }
    Ok(())
}

/// Writes bytes.
pub(crate) fn write_bytes<O: Sink>(bytes: &[u8], out: &mut O) -> Result<(), StreamFault>
    ensures ok { OnOk result (Appends (O.contents out.old) (O.contents out.new) bytes.now) }
    ensures err { OnErr result (AppendsPrefix (O.contents out.old) (O.contents out.new) bytes.now) }
    ensures sink { WritesOnly O.Sink result out.old out.new }
{
    match write_all(out, bytes) {
        Ok(()) => Ok(()),
        Err(_) => Err(StreamFault::Write),
    }
}

/// Writes values as raw bytes, by way of `piece`.
pub(crate) fn write_values<T: Lane, O: Sink>(
    values: &[T],
    piece: &mut [u8],
    out: &mut O,
) -> Result<(), StreamFault>
    requires { 8 ≤ length piece.old }
    ensures ok { OnOk result (Appends (O.contents out.old) (O.contents out.new)
        (raw T.width (map T.value values.now))) }
    ensures err { OnErr result (AppendsPrefix (O.contents out.old) (O.contents out.new)
        (raw T.width (map T.value values.now))) }
    ensures sink { WritesOnly O.Sink result out.old out.new }
{
    let len = value_len::<T>();
    let most = piece.len() / len;
    let mut at = 0;
    while at < values.len() {
        let n = (values.len() - at).min(most);
        put_raw(&values[at..at + n], &mut piece[..n * len]);
        write_bytes(&piece[..n * len], out)?;
        at += n;
    }
    Ok(())
}

/// Writes the values of an array that are kept in the order of blocks, in raster order as raw bytes, by way
/// of `piece`.
pub(crate) fn write_stored<T: Lane, O: Sink>(
    shape: &Shape,
    stored: &[T],
    piece: &mut [u8],
    out: &mut O,
) -> Result<(), StreamFault>
    requires all { product shape.now ≤ length stored.now }
    requires piece { 32 ≤ length piece.old }
    ensures ok { OnOk result (Appends (O.contents out.old) (O.contents out.new)
        (raw T.width (raster_of shape.now (map T.value stored.now)))) }
    ensures err { OnErr result (AppendsPrefix (O.contents out.old) (O.contents out.new)
        (raw T.width (raster_of shape.now (map T.value stored.now)))) }
    ensures sink { WritesOnly O.Sink result out.old out.new }
{
    let all = shape.values();
    if shape.dims() == 1 {
        // In one dimension the two orders are one.
        return write_values(&stored[..all as usize], piece, out);
    }
    let len = value_len::<T>();
    let mut at = 0;
    while at < all {
        let count = copy_lines(shape, stored, at, piece);
        write_bytes(&piece[..count * len], out)?;
        at += count as u64;
    }
    Ok(())
}
