//! Blocks of a stream.

ghost use Rattle.std.specs.Prelude.{◌≡◌, ◌+◌, ◌<◌, ◌≤◌, ◌*◌, ◌^◌, All, map, length, IfErr, OnOk};
ghost use Rattle.zf_spec.specs.Grid.{blocks};
ghost use Rattle.zf_header.specs.HeaderBits.{IsRate};
ghost use Rattle.zf_parse.specs.Parsing.{parse, longest_code};
ghost use Rattle.zf_parse.specs.ReadStreams.{IsFault};
ghost use Rattle.zf_index.specs.Files.{stream_fault};
ghost use Rattle.zf_part.specs.Blocks.{Holds, IsBlockOf, AreBlocksOf, IsWritten};
ghost use Rattle.zf_part.specs.Places.{ArePlacesOf, IsPlaceFault};
ghost use Rattle.zf_part.specs.Readings.{IsRight, IsFound, HasRoom};

use crate::places::PlaceFault;
use crate::put::put_run;
use crate::reading::Reading;
use std::alloc::Global;
use zf_base::{Lane, block_len};
use zf_bits::BitWriter;
use zf_block::{Dims, Scratch};
use zf_header::{Header, Mode};
use zf_index::{IndexFault, Verbatim};
use zf_parse::longest_code;

/// Reads block `b` of a stream that begins with the header `h`. `block` gets `4^d` values, x fastest; those
/// that do not exist mean nothing.
///
/// At a rate no code but this one is looked at. Else all codes are walked over. The stream is not copied.
pub fn read_block<T: Lane>(
    alloc: Global,
    h: &Header,
    stream: &[u8],
    b: u64,
    block: &mut [T],
) -> Result<(), IndexFault>
    requires stream { Holds T.width stream.now h.now }
    requires in_array { b < blocks h.now.shape }
    requires whole { length block.old ≡ 4 ^ length h.now.shape }
    ensures block { OnOk result (IsBlockOf stream.now h.now b (map T.value block.new)) }
    ensures fault { IfErr result (λ e. IsFault (parse stream.now) (stream_fault e)) }
{
    let reading = Reading::begin(alloc, h, stream)?;
    // Words for a code of up to 1,024 bits, or for any, behind any place: none are allocated.
    if longest_code::<T>(h) <= 1024 {
        read_by::<T, 18>(&reading, b, block);
    } else {
        read_by::<T, 514>(&reading, b, block);
    }
    Ok(())
}

// The same by way of so many words. They stand here, so that no call clears more of them than it needs.
#[inline(never)]
fn read_by<T: Lane, const N: usize>(reading: &Reading<'_, T>, b: u64, block: &mut [T])
    requires right { IsRight reading.now }
    requires in_array { b < blocks reading.now.header.shape }
    requires whole { length block.old ≡ 4 ^ length reading.now.header.shape }
    requires room { longest_code reading.now.header + 128 ≤ 64 * N }
    requires few { N ≤ 1024 }
    ensures { IsBlockOf reading.now.bytes reading.now.header b (map T.value block.new) }
{
    let mut words = [0; N];
    let Some(()) = reading.read(b, &mut words, block) else {
        unreachable!()
    };
}

/// Reads the blocks of a list, in its order, one behind the other, as `read_block` each. Where there is no
/// rate all codes are walked over once.
pub fn read_blocks<T: Lane>(
    alloc: Global,
    h: &Header,
    stream: &[u8],
    list: &[u64],
    values: &mut [T],
) -> Result<(), IndexFault>
    requires stream { Holds T.width stream.now h.now }
    requires in_array { All (λ b. b < blocks h.now.shape) list.now }
    requires whole { length values.old ≡ length list.now * 4 ^ length h.now.shape }
    ensures blocks { OnOk result (AreBlocksOf stream.now h.now list.now (map T.value values.new)) }
    ensures fault { IfErr result (λ e. IsFault (parse stream.now) (stream_fault e)) }
{
    let reading = Reading::begin(alloc, h, stream)?;
    let mut words = reading.words(alloc)?;
    let Some(()) = read_all(&reading, list, &mut words, values) else {
        unreachable!()
    };
    Ok(())
}

/// The same over the places that `write_places` wrote for this stream: of the stream only the codes of these
/// blocks are looked at. Over other places the values mean nothing, or `Foreign` is answered.
pub fn read_blocks_at<T: Lane>(
    alloc: Global,
    h: &Header,
    stream: &[u8],
    places: &[u64],
    list: &[u64],
    values: &mut [T],
) -> Result<(), PlaceFault>
    requires stream { Holds T.width stream.now h.now }
    requires in_array { All (λ b. b < blocks h.now.shape) list.now }
    requires whole { length values.old ≡ length list.now * 4 ^ length h.now.shape }
    ensures blocks { OnOk result (ArePlacesOf stream.now h.now places.now
        → AreBlocksOf stream.now h.now list.now (map T.value values.new)) }
    ensures fault { IfErr result (IsPlaceFault stream.now h.now places.now) }
{
    let reading = Reading::begin_at(h, stream, places)?;
    let mut words = reading.words(alloc)?;
    let Some(()) = read_all(&reading, list, &mut words, values) else {
        return Err(PlaceFault::Foreign);
    };
    Ok(())
}

// The blocks of a list, or `None` where a code is not at its place.
fn read_all<T: Lane>(
    reading: &Reading<'_, T>,
    list: &[u64],
    words: &mut [u64],
    values: &mut [T],
) -> Option<()>
    requires in_array { All (λ b. b < blocks reading.now.header.shape) list.now }
    requires room { HasRoom reading.now.header words.old }
    requires whole { length values.old ≡ length list.now * 4 ^ length reading.now.header.shape }
    ensures { IsFound reading.now result
        (AreBlocksOf reading.now.bytes reading.now.header list.now (map T.value values.new)) }
{
    let size = block_len(reading.header().shape.dims());
    for k in 0..list.len() {
        let at = k * size;
        reading.read(list[k], words, &mut values[at..at + size])?;
    }
    Some(())
}

/// Makes the code of block `b` of a stream at a rate that of these values, x fastest; those that do not exist
/// are not looked at. All other bits stay.
pub fn write_block<T: Lane>(
    alloc: Global,
    h: &Header,
    stream: &mut [u8],
    b: u64,
    block: &[T],
) -> Result<(), IndexFault>
    requires stream { Holds T.width stream.old h.now }
    requires rate { IsRate h.now.mode }
    requires in_array { b < blocks h.now.shape }
    requires whole { length block.now ≡ 4 ^ length h.now.shape }
    ensures block { OnOk result (IsWritten stream.old stream.new h.now b (map T.value block.now)) }
    ensures fault { IfErr result (λ e. IsFault (parse stream.old) (stream_fault e)) }
    ensures stays { IfErr result (λ e. stream.new ≡ stream.old) }
{
    let Mode::Rate(bits) = h.mode else {
        unreachable!()
    };
    let index = Verbatim::build(alloc, h, stream)?;
    let d = Dims::new(h.shape.dims());
    let mut room = Scratch::new(alloc)?;
    let mut code = BitWriter::new(alloc);
    code.reserve(u64::from(bits))?;
    let e = h.shape.extent(b);
    zf_block::encode_rate(d, &e, bits, block, &mut room, &mut code);
    put_run(stream, index.span(b).at, code.words(), u64::from(bits));
    Ok(())
}
