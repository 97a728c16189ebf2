//! The room that a stream is restored in.

ghost use Rattle.std.specs.Prelude.{◌≡◌, ◌≤◌, ◌<◌, ◌+◌, ◌*◌, true, length, IfOk, vec_len};
ghost use Rattle.zf_spec.specs.Stream.{to_bits};
ghost use Rattle.zf_base.specs.Widths.{width_of};
ghost use Rattle.zf_pad.specs.Slabs.{row_len};
ghost use Rattle.zf_parse.specs.Parsing.{longest_code};
ghost use Rattle.zf_parse.specs.ReadStreams.{BeginsWithHeader};
ghost use Rattle.zf_stream.specs.Rows.{ArePieces};

use crate::room::{PIECE, piece_len};
use crate::slabs::{most_rows, rows_of, with_rows};
use crate::stored::Stored;
use crate::window::Window;
use std::alloc::{AllocError, Global};
use zf_base::Lane;
use zf_header::Header;
use zf_parse::longest_code;

// No block has more values.
const BLOCK: usize = 256;

/// What a stream is restored in, so many rows at a time.
#[derive(Drop)]
pub(crate) struct RestoreRoom<T: Lane> {
    pub(crate) rows: u64,
    /// The bits of the stream that are held. No code has more than `longest`.
    pub(crate) window: Window,
    pub(crate) longest: u64,
    /// The values of a slab, in the order of blocks.
    pub(crate) stored: Stored<T>,
    /// The values of a block, of which a part exists.
    pub(crate) block: Vec<T>,
    /// Bytes on their way from the source or to the sink.
    pub(crate) piece: Vec<u8>,
    ghost long: { 256 ≤ vec_len block },
    ghost wide: { 32 ≤ vec_len piece },
}

/// Takes all memory for an array whose stream has these first bytes, the header among them.
pub(crate) fn restore_room<T: Lane>(
    alloc: Global,
    h: &Header,
    header_len: u32,
    prefix: &[u8],
) -> Result<RestoreRoom<T>, AllocError>
    requires begun { BeginsWithHeader prefix.now h.now header_len }
    requires same_type { T.width ≡ width_of h.now.ty }
    requires few { length prefix.now ≤ 24 }
    ensures rows { IfOk result (λ room. ArePieces h.now.shape room.rows) }
    ensures longest { IfOk result (λ room. longest_code h.now ≤ room.longest) }
    ensures held { IfOk result (λ room. room.longest + 64 ≤ 64 * room.window.room) }
    ensures fill { IfOk result (λ room. 128 ≤ 64 * room.window.room) }
    ensures values { IfOk result (λ room. row_len h.now.shape * room.rows ≤ room.stored.room) }
    ensures bits { IfOk result (λ room. room.window.reader.all ≡ to_bits prefix.now) }
    ensures place { IfOk result (λ room. room.window.reader.at ≡ header_len) }
    ensures ended { IfOk result (λ room. room.window.ended ≡ true → length prefix.now < 24) }
{
    // tells that there is an axis
    let _dims = h.shape.dims();
    let rows = most_rows(&h.shape).min(rows_of(&h.shape));
    let slab = with_rows(&h.shape, rows);
    let longest = longest_code::<T>(h);
    let first = (8 * PIECE).min(slab.blocks() * longest);
    let window = Window::new(alloc, longest + first, prefix, u64::from(header_len))?;
    let block = vec![in alloc; T::zero(); BLOCK]?;
    let piece = vec![in alloc; 0; piece_len::<T>(&slab)]?;
    // Room for a slab is taken here, and written as blocks come: a stream that ends early needs no more than
    // its values.
    let stored = Stored::with_room(alloc, slab.values() as usize)?;
    Ok(RestoreRoom {
        rows,
        window,
        longest,
        stored,
        block,
        piece,
    })
}
