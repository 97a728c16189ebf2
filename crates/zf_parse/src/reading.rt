//! The code of a block as its header says, and the fill behind all codes.

ghost use Rattle.std.specs.Prelude.{◌≡◌, ◌≤◌, ◌^◌, ◌↔◌, pos, map, length, replicate, IsTrue, OnSome, IfNone};
ghost use Rattle.zf_bits.specs.Reader.{rest};
ghost use Rattle.zf_parse.specs.Parsing.{fill_answer};
ghost use Rattle.zf_parse.specs.ReadStreams.{ReadsCode, LacksCode, ZeroCodeNext};

use crate::StreamFault;
use zf_base::Lane;
use zf_bits::BitReader;
use zf_block::Dims;
use zf_header::{Header, Mode};

/// Reads the code of a block of an array with this header, or answers `None` where the bits end too early.
///
/// `block` gets `4^d` values, x fastest. A code does not tell which of them exist; at places that do not, the
/// values mean nothing.
#[inline(always)]
pub fn read_code<T: Lane>(h: &Header, reader: &mut BitReader<'_>, block: &mut [T]) -> Option<()>
    requires whole { length block.old ≡ 4 ^ length h.now.shape }
    ensures some { OnSome result (ReadsCode T.width h.now.mode (length h.now.shape) reader.old reader.new
        (map T.value block.new)) }
    ensures none { IfNone result (LacksCode T.width h.now.mode (length h.now.shape) reader.old) }
{
    let d = Dims::new(h.shape.dims());
    match h.mode {
        Mode::Reversible => zf_block::decode_rev(d, reader, block),
        Mode::Rate(bits) => read_rate(d, bits, reader, block),
        Mode::Precision(prec) => zf_block::decode_prec(d, prec, reader, block),
    }
}

/// Passes the code of a block of zeros of an array with this header, where one is next, and says so.
#[inline(always)]
pub fn pass_zero_code<T: Lane>(h: &Header, reader: &mut BitReader<'_>) -> bool
    ensures seen { IsTrue result ↔ ZeroCodeNext T.width h.now.mode (rest reader.old) }
    ensures unread { ¬ IsTrue result → reader.new ≡ reader.old }
    ensures reads { IsTrue result → ReadsCode T.width h.now.mode (length h.now.shape) reader.old reader.new
        (replicate (4 ^ length h.now.shape) (pos 0)) }
{
    let d = Dims::new(h.shape.dims());
    match h.mode {
        Mode::Reversible => zf_block::pass_rev_zeros::<T>(d, reader),
        Mode::Rate(bits) => zf_block::pass_rate_zeros::<T>(d, bits, reader),
        Mode::Precision(prec) => zf_block::pass_prec_zeros::<T>(d, prec, reader),
    }
}

/// Reads a code of `bits` bits, or answers `None` where fewer are left.
#[inline(always)]
fn read_rate<T: Lane>(d: Dims, bits: u32, reader: &mut BitReader<'_>, block: &mut [T]) -> Option<()>
    requires whole { length block.old ≡ 4 ^ d.count }
    ensures some { OnSome result (ReadsCode T.width (Mode.Rate bits) d.count reader.old reader.new
        (map T.value block.new)) }
    ensures none { IfNone result (LacksCode T.width (Mode.Rate bits) d.count reader.old) }
{
    if reader.left() < u64::from(bits) {
        return None;
    }
    zf_block::decode_rate(d, bits, reader, block);
    Some(())
}

/// Reads the fill behind the codes of an array with this header: it is to be zero, and nothing is to be
/// behind it.
pub fn check_fill(h: &Header, reader: &mut BitReader<'_>) -> Result<(), StreamFault>
    ensures { result ≡ fill_answer h.now reader.old.at (rest reader.old) }
{
    let left = reader.left();
    let fill = (64 - reader.at() % 64) % 64;
    let Some(number) = reader.read(fill as u32) else {
        return Err(StreamFault::Truncated(h.shape.blocks()));
    };
    if number != 0 {
        return Err(StreamFault::Pad);
    }
    if left > fill {
        return Err(StreamFault::Trailing);
    }
    Ok(())
}
