//! The values of a slab.

ghost use Rattle.std.specs.Prelude.{◌≡◌, ◌≢◌, ◌-◌, ◌+◌, ◌*◌, ◌<◌, ◌≤◌, ◌^◌, true, map, length, Err, IfErr};
ghost use Rattle.std.specs.Prelude.{OnOk, OnErr, OnSome, IfNone};
ghost use Rattle.zf_spec.specs.Grid.{product, blocks, extent_of};
ghost use Rattle.zf_base.specs.Widths.{width_of};
ghost use Rattle.zf_pad.specs.Stored.{HasWholeBlocks, raster_of};
ghost use Rattle.zf_bits.specs.Reader.{rest};
ghost use Rattle.zf_dev.specs.Devices.{Reads};
ghost use Rattle.zf_parse.specs.Parsing.{longest_code};
ghost use Rattle.zf_parse.specs.ReadStreams.{ReadsCode, LacksCode};
ghost use Rattle.zf_stream.specs.Windows.{left_of, KnowsEnd};
ghost use Rattle.zf_stream.specs.Rooms.{CanRestore, Stays};
ghost use Rattle.zf_stream.specs.Restoring.{ReadsStored, ReadsRun, ReadsSlab, LacksSlab};
ghost use Rattle.zf_parse.specs.declared.fault.StreamFault.TheVariants.{Read};

use crate::StreamFault;
use crate::restore_room::RestoreRoom;
use crate::stored::Stored;
use crate::window::Window;
use zf_base::{Lane, block_len};
use zf_bits::BitReader;
use zf_dev::Source;
use zf_header::Header;
use zf_pad::has_whole_blocks;
use zf_parse::{pass_zero_code, read_code};

/// Without loss, no code of a block with a value that is not zero has fewer bits. It only says where another
/// look is worth its time, and so does no harm at rates and precisions, where there are such codes.
const FEW: u64 = 8;

/// Reads the codes of a slab, an array of its own whose blocks are those of the array from block `first` on.
///
/// The values take the place of those that are stored, in the order of blocks, where there is room for all of
/// them.
/// What is written of that room is what is needed for the codes that were read.
pub(crate) fn read_slab<T: Lane, S: Source>(
    part: &Header,
    first: u64,
    room: &mut RestoreRoom<T>,
    src: &mut S,
) -> Result<(), StreamFault>
    requires same_type { T.width ≡ width_of part.now.ty }
    requires room { CanRestore part.now (product part.now.shape) S.Source src.old room.old }
    requires numbers { first + blocks part.now.shape < 2 ^ 64 }
    ensures ok { OnOk result (ReadsSlab part.now S.Source src.old src.new
        room.old.window room.new.window (raster_of part.now.shape (map T.value room.new.stored.items))) }
    ensures err { IfErr result (LacksSlab part.now first S.Source src.old src.new room.old.window) }
    ensures all { OnOk result (length room.new.stored.items ≡ product part.now.shape) }
    ensures stays { OnOk result (Stays room.old room.new) }
    ensures ended { OnOk result (KnowsEnd S.Source room.new.window src.new) }
    ensures source { Reads S.Source (result ≡ Err Read) src.old src.new }
{
    let size = block_len(part.shape.dims());
    let whole = has_whole_blocks(&part.shape);
    let blocks = part.shape.blocks();
    room.stored.clear();
    let mut b = 0;
    let mut look = whole;
    while b < blocks {
        room.window.reach(room.longest, &mut room.piece, src)?;
        let zeros = read_zeros(part, look, size, b, &mut room.window, &mut room.stored);
        if zeros > 0 {
            b += zeros;
            look = false;
            continue;
        }
        let before = room.window.left();
        let read = read_block(
            part,
            whole,
            size,
            b,
            &mut room.window,
            &mut room.stored,
            &mut room.block,
        );
        let Some(()) = read else {
            return Err(StreamFault::Truncated(first + b));
        };
        look = may_go_on(whole, before, room.window.left());
        b += 1;
    }
    Ok(())
}

/// Whether a code that was read, of so many bits as are left fewer, may be the first of several of zeros. Those
/// of most blocks are longer, so that these are not looked at twice.
#[inline(always)]
fn may_go_on(whole: bool, before: u64, after: u64) -> bool
    ensures { result ≡ true → whole ≡ true }
{
    whole && before.wrapping_sub(after) < FEW
}

/// Reads the codes of blocks of zeros from block `b` on, as long as one is seen to be next, and answers how
/// many. Where a size of the array cuts blocks, none are read.
#[inline(always)]
fn read_zeros<T: Lane>(
    part: &Header,
    whole: bool,
    size: usize,
    b: u64,
    window: &mut Window,
    stored: &mut Stored<T>,
) -> u64
    requires same_type { T.width ≡ width_of part.now.ty }
    requires known { whole ≡ true → HasWholeBlocks part.now.shape }
    requires in_array { b ≤ blocks part.now.shape }
    requires values { whole ≡ true → length stored.old.items
        + 4 ^ length part.now.shape * (blocks part.now.shape - b) ≤ stored.old.room }
    requires size { size ≡ 4 ^ length part.now.shape }
    requires few { size ≤ 256 }
    ensures within { b + result ≤ blocks part.now.shape }
    ensures read { ReadsRun part.now b result window.old.reader window.new.reader
        (map T.value stored.old.items) (map T.value stored.new.items) }
    ensures place { window.new.reader.at + length (left_of window.new)
        ≡ window.old.reader.at + length (left_of window.old) }
    ensures values { stored.old.room ≤ stored.new.room }
    ensures room { window.new.room ≡ window.old.room }
    ensures ended { window.new.ended ≡ window.old.ended }
{
    if !whole {
        return 0;
    }
    let mut reader = window.reader();
    let blocks = part.shape.blocks();
    let mut n = 0;
    while b + n < blocks && pass_zero_code::<T>(part, &mut reader) {
        stored.append_zeros(size);
        n += 1;
    }
    // Known by this call: the place is not behind the end.
    let _left = reader.left();
    let at = reader.at();
    window.go_to(at);
    n
}

/// Reads the code of block `b`, whose values are so many, or answers `None` where the bits that are held end
/// too early.
#[inline(always)]
fn read_block<T: Lane>(
    part: &Header,
    whole: bool,
    size: usize,
    b: u64,
    window: &mut Window,
    stored: &mut Stored<T>,
    block: &mut [T],
) -> Option<()>
    requires same_type { T.width ≡ width_of part.now.ty }
    requires known { whole ≡ true → HasWholeBlocks part.now.shape }
    requires in_array { b < blocks part.now.shape }
    requires values { length stored.old.items + product (extent_of part.now.shape b) ≤ stored.old.room }
    requires size { size ≡ 4 ^ length part.now.shape }
    requires few { size ≤ 256 }
    requires block { size ≤ length block.old }
    ensures some { OnSome result (ReadsStored part.now b window.old.reader window.new.reader
        (map T.value stored.old.items) (map T.value stored.new.items)) }
    ensures place { OnSome result (window.new.reader.at + length (left_of window.new)
        ≡ window.old.reader.at + length (left_of window.old)) }
    ensures none { IfNone result (LacksCode T.width part.now.mode (length part.now.shape) window.old.reader) }
    ensures values { stored.old.room ≤ stored.new.room }
    ensures room { window.new.room ≡ window.old.room }
    ensures ended { window.new.ended ≡ window.old.ended }
{
    let mut reader = window.reader();
    read_next(part, whole, size, b, &mut reader, stored, block)?;
    // Known by this call: the place is not behind the end.
    let _left = reader.left();
    let at = reader.at();
    window.go_to(at);
    Some(())
}

/// Reads that code from a reader: to where its values stay, or where a size cuts blocks by way of `block`.
#[inline(always)]
fn read_next<T: Lane>(
    part: &Header,
    whole: bool,
    size: usize,
    b: u64,
    reader: &mut BitReader<'_>,
    stored: &mut Stored<T>,
    block: &mut [T],
) -> Option<()>
    requires same_type { T.width ≡ width_of part.now.ty }
    requires known { whole ≡ true → HasWholeBlocks part.now.shape }
    requires in_array { b < blocks part.now.shape }
    requires values { length stored.old.items + product (extent_of part.now.shape b) ≤ stored.old.room }
    requires size { size ≡ 4 ^ length part.now.shape }
    requires few { size ≤ 256 }
    requires block { size ≤ length block.old }
    ensures some { OnSome result (ReadsStored part.now b reader.old reader.new
        (map T.value stored.old.items) (map T.value stored.new.items)) }
    ensures place { OnSome result (reader.new.at + length (rest reader.new)
        ≡ reader.old.at + length (rest reader.old)) }
    ensures all { OnSome result (reader.new.all ≡ reader.old.all) }
    ensures none { IfNone result (LacksCode T.width part.now.mode (length part.now.shape) reader.old) }
    ensures values { stored.old.room ≤ stored.new.room }
{
    if whole {
        return stored.read_whole(part, size, reader);
    }
    let block = &mut block[..size];
    read_code(part, reader, block)?;
    stored.append_block(&part.shape, b, block);
    Some(())
}
