//! The codes of blocks on their way to a sink.

ghost use Rattle.std.specs.Prelude.{◌≡◌, ◌≤◌, ◌<◌, ◌^◌, ◌+◌, ◌++◌, ◌≢◌, map, length, Err, IfErr, OnOk, OnErr};
ghost use Rattle.std.specs.Prelude.{false, pos, replicate};
ghost use Rattle.std.specs.List.{flat_map};
ghost use Rattle.zf_spec.specs.Grid.{product, blocks, extent_of, block_of, fours};
ghost use Rattle.zf_spec.specs.Stream.{block_code};
ghost use Rattle.zf_spec.specs.Stream as stream;
ghost use Rattle.zf_base.specs.Widths.{width_of};
ghost use Rattle.zf_bits.specs.Writer.{Appends};
ghost use Rattle.zf_header.specs.HeaderBits.{coding};
ghost use Rattle.zf_pad.specs.Rasters.{IsRaster};
ghost use Rattle.zf_stream.specs.Outcomes.{WritesOnly};
ghost use Rattle.zf_stream.specs.Flows.{Flows, Spills};
ghost use Rattle.zf_stream.specs.Rooms.{IsRoomFor, Keeps};
ghost use Rattle.zf_parse.specs.Parsing.{longest_code};
ghost use Rattle.zf_parse.specs.declared.fault.StreamFault.TheVariants.{Write};

use crate::StreamFault;
use crate::room::Room;
use crate::writing::write_whole_words;
use zf_base::Lane;
use zf_bits::BitWriter;
use zf_block::{Dims, Scratch};
use zf_dev::Sink;
use zf_header::{Header, Mode};
use zf_pad::Layout;

/// Appends the codes of all blocks, in order. Where as many bits are at hand as the room keeps back, whole
/// words are written.
pub(crate) fn write_codes<T: Lane, O: Sink>(
    layout: &Layout,
    h: &Header,
    values: &[T],
    room: &mut Room<T>,
    out: &mut O,
) -> Result<(), StreamFault>
    requires same_type { T.width ≡ width_of h.now.ty }
    requires raster { IsRaster h.now.shape layout.now }
    requires all { length values.now ≡ product h.now.shape }
    requires room { IsRoomFor h.now room.old }
    requires few { length room.old.codes.bits < room.old.most }
    ensures ok { OnOk result (Flows (O.contents out.old) (O.contents out.new) (room.old.codes.bits
        ++ flat_map (λ c. c) (stream.codes T.width h.now.shape (coding h.now.mode) (map T.value values.now)))
        room.new.codes.bits) }
    ensures err { OnErr result (Spills (O.contents out.old) (O.contents out.new) (room.old.codes.bits
        ++ flat_map (λ c. c) (stream.codes T.width h.now.shape
        (coding h.now.mode) (map T.value values.now)))) }
    ensures few { OnOk result (length room.new.codes.bits < room.new.most) }
    ensures keeps { Keeps room.old room.new }
    ensures sink { WritesOnly O.Sink result out.old out.new }
{
    let zeros = len_of_zeros::<T>(h);
    for b in 0..h.shape.blocks() {
        write_code(layout, h, values, b, zeros, room);
        write_where_many(room, out)?;
    }
    Ok(())
}

/// How many bits the code of a whole block of zeros has. All are zero.
fn len_of_zeros<T: Lane>(h: &Header) -> u64
    requires same_type { T.width ≡ width_of h.now.ty }
    ensures code { block_code T.width (coding h.now.mode) (fours (length h.now.shape))
        (replicate (4 ^ length h.now.shape) (pos 0)) ≡ replicate result false }
    ensures fits { result ≤ longest_code h.now }
{
    let d = Dims::new(h.shape.dims());
    match h.mode {
        Mode::Reversible => zf_block::rev_len_of_zeros::<T>(d),
        Mode::Rate(bits) => zf_block::rate_len_of_zeros::<T>(d, bits),
        Mode::Precision(prec) => zf_block::prec_len_of_zeros::<T>(d, prec),
    }
}

/// Writes the whole words of codes where as many bits are at hand as the room keeps back.
fn write_where_many<T: Lane, O: Sink>(room: &mut Room<T>, out: &mut O) -> Result<(), StreamFault>
    ensures ok { OnOk result (Flows (O.contents out.old) (O.contents out.new)
        room.old.codes.bits room.new.codes.bits) }
    ensures err { OnErr result (Spills (O.contents out.old) (O.contents out.new) room.old.codes.bits) }
    ensures few { OnOk result (length room.new.codes.bits < room.new.most) }
    ensures keeps { Keeps room.old room.new }
    ensures sink { WritesOnly O.Sink result out.old out.new }
{
    if room.codes.len() < room.most {
        return Ok(());
    }
    write_whole_words(&mut room.codes, &mut room.piece, out)
}

/// Appends the code of block `b`, whose values are gathered in the room. Of a whole block of zeros it has
/// `zeros` bits; those of one dimension, which are small, are seen without more ado.
#[inline(always)]
fn write_code<T: Lane>(
    layout: &Layout,
    h: &Header,
    values: &[T],
    b: u64,
    zeros: u64,
    room: &mut Room<T>,
)
    requires same_type { T.width ≡ width_of h.now.ty }
    requires raster { IsRaster h.now.shape layout.now }
    requires all { length values.now ≡ product h.now.shape }
    requires in_array { b < blocks h.now.shape }
    requires zeros { block_code T.width (coding h.now.mode) (fours (length h.now.shape))
        (replicate (4 ^ length h.now.shape) (pos 0)) ≡ replicate zeros false }
    requires few { zeros ≤ longest_code h.now }
    requires dims { room.old.dims.count ≡ length h.now.shape }
    requires fits { longest_code h.now ≤ room.old.codes.room }
    ensures code { Appends room.old.codes room.new.codes (block_code T.width (coding h.now.mode)
        (extent_of h.now.shape b) (block_of h.now.shape (map T.value values.now) b)) }
    ensures keeps { Keeps room.old room.new }
{
    if zf_pad::is_row_of_zeros(&h.shape, b, values) {
        room.codes.write_zeros_reserved(zeros);
        return;
    }
    let _part = zf_pad::gather_block(layout, &h.shape, b, values, &mut room.block);
    encode(
        h,
        room.dims,
        &mut room.block,
        &mut room.scratch,
        &mut room.codes,
    );
}

/// Appends the code of a block, which is padded and becomes anything.
#[inline(always)]
fn encode<T: Lane>(h: &Header, d: Dims, block: &mut [T], s: &mut Scratch<T>, codes: &mut BitWriter)
    requires same_type { T.width ≡ width_of h.now.ty }
    requires dims { d.count ≡ length h.now.shape }
    requires whole { length block.old ≡ 4 ^ length h.now.shape }
    requires fits { longest_code h.now ≤ codes.old.room }
    ensures { Appends codes.old codes.new (block_code T.width (coding h.now.mode)
        (fours (length h.now.shape)) (map T.value block.old)) }
{
    let done = match h.mode {
        Mode::Reversible => zf_block::encode_rev_padded(d, block, s, codes),
        Mode::Rate(bits) => {
            zf_block::encode_rate_padded(d, bits, block, s, codes);
            Ok(())
        }
        Mode::Precision(prec) => zf_block::encode_prec_padded(d, prec, block, s, codes),
    };
    // There is room for the longest code.
    match done {
        Ok(()) => {}
        Err(_) => unreachable!(),
    }
}
