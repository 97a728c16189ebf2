//! A window of a stream.

ghost use Rattle.std.specs.Prelude.{◌≡◌, ◌+◌, ◌<◌, ◌≤◌, ◌^◌, length, map, take, drop, OnOk, IfErr};
ghost use Rattle.std.specs.Prelude.{IfOk, OnSome, IfSome, IfNone};
ghost use Rattle.zf_spec.specs.Grid.{product, blocks};
ghost use Rattle.zf_cached.specs.Windows.{LiesIn};
ghost use Rattle.zf_parse.specs.Parsing.{parse};
ghost use Rattle.zf_parse.specs.ReadStreams.{IsFault};
ghost use Rattle.zf_index.specs.Files.{stream_fault};
ghost use Rattle.zf_part.specs.Blocks.{Holds, IsBlockOf};
ghost use Rattle.zf_part.specs.Places.{ArePlacesOf, IsPlaceFault};
ghost use Rattle.zf_part.specs.Readings.{IsRight, IsFound};
ghost use Rattle.zf_part.specs.Windows.{AreAllThere, HasLines, IsWindowOf};

use crate::places::PlaceFault;
use crate::reading::Reading;
use std::alloc::{AllocError, Global};
use zf_base::{Lane, block_len};
use zf_header::Header;
use zf_index::IndexFault;
use zf_window::{PlaceWalk, Window};

// How many blocks are held: so many that a window of 64 positions along each axis finds those of its slab in
// most arrays.
const LINES: usize = 2048;

/// Reads a window of the array of a stream that begins with the header `h`, in raster order, x fastest.
///
/// At a rate only the codes of its blocks are looked at; each is decoded once, where the blocks that meet at
/// a row of blocks have different places among the 2,048 that are held.
pub fn read_window<T: Lane>(
    alloc: Global,
    h: &Header,
    stream: &[u8],
    w: &Window,
    out: &mut [T],
) -> Result<(), IndexFault>
    requires stream { Holds T.width stream.now h.now }
    requires lies { LiesIn h.now.shape w.now }
    requires size { length out.old ≡ product w.now.size }
    ensures window { OnOk result (IsWindowOf stream.now h.now w.now (map T.value out.new)) }
    ensures fault { IfErr result (λ e. IsFault (parse stream.now) (stream_fault e)) }
{
    let reading = Reading::begin(alloc, h, stream)?;
    let Some(()) = look(alloc, &reading, w, out)? else {
        unreachable!()
    };
    Ok(())
}

/// The same over the places that `write_places` wrote for this stream: of the stream only the codes of the
/// window's blocks are looked at. Over other places the values mean nothing, or `Foreign` is answered.
pub fn read_window_at<T: Lane>(
    alloc: Global,
    h: &Header,
    stream: &[u8],
    places: &[u64],
    w: &Window,
    out: &mut [T],
) -> Result<(), PlaceFault>
    requires stream { Holds T.width stream.now h.now }
    requires lies { LiesIn h.now.shape w.now }
    requires size { length out.old ≡ product w.now.size }
    ensures window { OnOk result (ArePlacesOf stream.now h.now places.now
        → IsWindowOf stream.now h.now w.now (map T.value out.new)) }
    ensures fault { IfErr result (IsPlaceFault stream.now h.now places.now) }
{
    let reading = Reading::begin_at(h, stream, places)?;
    let Some(()) = look(alloc, &reading, w, out)? else {
        return Err(PlaceFault::Foreign);
    };
    Ok(())
}

// The window, or `None` where a code is not at its place.
fn look<T: Lane>(
    alloc: Global,
    reading: &Reading<'_, T>,
    w: &Window,
    out: &mut [T],
) -> Result<Option<()>, AllocError>
    requires lies { LiesIn reading.now.header.shape w.now }
    requires size { length out.old ≡ product w.now.size }
    ensures { IfOk result (λ found. IsFound reading.now found
        (IsWindowOf reading.now.bytes reading.now.header w.now (map T.value out.new))) }
{
    let h = reading.header();
    let count = out.len().clamp(1, LINES);
    // none yet
    let mut held = vec![in alloc; h.shape.blocks(); count]?;
    let mut lines = vec![in alloc; T::zero(); count * block_len(h.shape.dims())]?;
    let mut words = reading.words(alloc)?;
    Ok(cut(reading, w, &mut held, &mut lines, &mut words, out))
}

// The same, by way of lines, each with the number of the block that it holds, if it is one.
fn cut<T: Lane>(
    reading: &Reading<'_, T>,
    w: &Window,
    held: &mut [u64],
    lines: &mut [T],
    words: &mut [u64],
    out: &mut [T],
) -> Option<()>
    requires lies { LiesIn reading.now.header.shape w.now }
    requires size { length out.old ≡ product w.now.size }
    requires lines { HasLines T.value reading.now held.old lines.old words.old }
    ensures count { length out.new ≡ length out.old }
    ensures window { IsFound reading.now result
        (AreAllThere reading.now.bytes reading.now.header w.now (map T.value out.new)) }
{
    let mut walk = PlaceWalk::new(&reading.header().shape, w);
    for i in 0..out.len() {
        let (b, place) = walk.step();
        let at = load(reading, b, held, lines, words)?;
        out[i] = lines[at + place];
    }
    Some(())
}

// Reads block `b` into its line, if another is there, and answers where the line begins, or `None` where the
// code is not at its place.
fn load<T: Lane>(
    reading: &Reading<'_, T>,
    b: u64,
    held: &mut [u64],
    lines: &mut [T],
    words: &mut [u64],
) -> Option<usize>
    requires in_array { b < blocks reading.now.header.shape }
    requires lines { HasLines T.value reading.now held.old lines.old words.old }
    ensures lines { OnSome result (HasLines T.value reading.now held.new lines.new words.new) }
    ensures within { IfSome result (λ at. at + 4 ^ length reading.now.header.shape ≤ length lines.new) }
    ensures block { IfSome result (λ at. IsRight reading.now
        → IsBlockOf reading.now.bytes reading.now.header b
        (map T.value (take (4 ^ length reading.now.header.shape) (drop at lines.new)))) }
    ensures none { IfNone result (IsRight reading.now → ⊥) }
{
    let size = block_len(reading.header().shape.dims());
    let line = (b % held.len() as u64) as usize;
    let at = line * size;
    if held[line] != b {
        reading.read(b, words, &mut lines[at..at + size])?;
        held[line] = b;
    }
    Some(at)
}
