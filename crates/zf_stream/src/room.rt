//! The room that an array is compressed in.

ghost use Rattle.std.specs.Prelude.{◌≡◌, ◌≤◌, ◌+◌, ◌*◌, ◌^◌, length, IfOk, vec_len};
ghost use Rattle.zf_base.specs.Widths.{width_of};
ghost use Rattle.zf_pad.specs.Slabs.{row_len};
ghost use Rattle.zf_header.specs.HeaderBits.{IsMode, header_bits};
ghost use Rattle.zf_parse.specs.Parsing.{longest_code};
ghost use Rattle.zf_stream.specs.Rows.{ArePieces};

use crate::slabs::{most_rows, rows_of, with_rows};
use std::alloc::{AllocError, Global};
use zf_base::{Lane, Shape, block_len};
use zf_bits::BitWriter;
use zf_block::{Dims, Scratch};
use zf_header::{Header, LONG_HEADER_BITS};
use zf_pad::value_len;
use zf_parse::longest_code;

/// The most bytes that are read or written at a time: so many that the system is seldom called, and few
/// beside a large slab.
pub(crate) const PIECE: u64 = 1 << 18;

/// What an array is compressed in, so many rows at a time, beside the values of these rows.
#[derive(Drop)]
pub(crate) struct Room<T: Lane> {
    pub(crate) rows: u64,
    /// The values of a block, and what its code is made in.
    pub(crate) dims: Dims,
    pub(crate) block: Vec<T>,
    pub(crate) scratch: Scratch<T>,
    /// Codes that are not written yet. Where as many as `most` bits are at hand, whole words are written.
    pub(crate) codes: BitWriter,
    pub(crate) most: u64,
    /// Bytes on their way from the source or to the sink.
    pub(crate) piece: Vec<u8>,
    ghost whole: { vec_len block ≡ 4 ^ dims.count },
    ghost some: { 64 ≤ most },
    ghost wide: { 8 ≤ vec_len piece },
}

/// Takes all memory for an array: that of the values of some rows, and the room to compress them in. The
/// header is at hand there.
pub(crate) fn room_for<T: Lane>(alloc: Global, h: &Header) -> Result<(Vec<T>, Room<T>), AllocError>
    requires mode { IsMode h.now.mode }
    requires same_type { T.width ≡ width_of h.now.ty }
    ensures rows { IfOk result (λ found. ArePieces h.now.shape found.1.rows) }
    ensures values { IfOk result (λ found. vec_len found.0 ≡ row_len h.now.shape * found.1.rows) }
    ensures dims { IfOk result (λ found. found.1.dims.count ≡ length h.now.shape) }
    ensures header { IfOk result (λ found. found.1.codes.bits ≡ header_bits h.now) }
    ensures fits { IfOk result (λ found. found.1.most + longest_code h.now + 64
        ≤ length found.1.codes.bits + found.1.codes.room) }
{
    let dims = h.shape.dims();
    let rows = most_rows(&h.shape).min(rows_of(&h.shape));
    let slab = with_rows(&h.shape, rows);
    let longest = longest_code::<T>(h);
    let most = 64 + (8 * PIECE).min(slab.blocks() * longest);
    let values = vec![in alloc; T::zero(); slab.values() as usize]?;
    let block = vec![in alloc; T::zero(); block_len(dims)]?;
    let scratch = Scratch::new(alloc)?;
    let piece = vec![in alloc; 0; piece_len::<T>(&slab)]?;
    let mut codes = BitWriter::new(alloc);
    codes.reserve(most + longest + u64::from(LONG_HEADER_BITS))?;
    zf_header::write(h, &mut codes);
    let room = Room {
        rows,
        dims: Dims::new(dims),
        block,
        scratch,
        codes,
        most,
        piece,
    };
    Ok((values, room))
}

/// How many bytes are read or written at a time for these rows: no more than they have.
pub(crate) fn piece_len<T: Lane>(slab: &Shape) -> usize
    ensures { 64 ≤ result }
{
    (value_len::<T>() as u64 * slab.values()).clamp(64, PIECE) as usize
}
