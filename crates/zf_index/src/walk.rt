//! The walk over the codes of a stream.

ghost use Rattle.std.specs.Prelude.{◌≡◌, ◌*◌, ◌<◌, ◌≤◌, ◌^◌, length, Err, IfOk, IfErr, OnOk, IfSome, IfNone};
ghost use Rattle.zf_spec.specs.Grid.{blocks};
ghost use Rattle.zf_spec.specs.Stream.{to_bits};
ghost use Rattle.zf_base.specs.Widths.{width_of};
ghost use Rattle.zf_bits.specs.Reader.{rest};
ghost use Rattle.zf_header.specs.HeaderBits.{IsHeader};
ghost use Rattle.zf_header.specs.declared.header.Mode.TheVariants as Mode;
ghost use Rattle.zf_parse.specs.Parsing.{parse, fill_answer};
ghost use Rattle.zf_parse.specs.ReadStreams.{BeginsWithHeader, IsFault, LacksCode};
ghost use Rattle.zf_index.specs.Files.{IsIndexOf, stream_fault};
ghost use Rattle.zf_index.specs.Spans.{even_index};
ghost use Rattle.zf_index.specs.Walks.{IsWalked, HasFault, HasCode};

use crate::IndexFault;
use std::alloc::Global;
use zf_base::{Lane, Ty, block_len};
use zf_bits::{BitReader, Excerpt};
use zf_header::Header;
use zf_parse::{StreamFault, longest_code};

/// How many bits the code of each block of a file has that begins with the header `h`, of `start` bits; or
/// what is wrong with the file.
pub(crate) fn code_lengths(
    alloc: Global,
    h: &Header,
    file: &[u8],
    start: u64,
) -> Result<Vec<u16>, IndexFault>
    requires begun { BeginsWithHeader file.now h.now start }
    ensures ok { IfOk result
        (λ lens. IsIndexOf file.now h.now (record { start = start; lens = lens.items })) }
    ensures fault { IfErr result (λ e. IsFault (parse file.now) (stream_fault e)) }
{
    // No memory has a file with more bits than a word counts.
    let Some(_bits) = (file.len() as u64).checked_mul(8) else {
        return Err(IndexFault::Memory);
    };
    match h.ty {
        Ty::I32 => walk::<i32>(alloc, h, file, start),
        Ty::I64 => walk::<i64>(alloc, h, file, start),
    }
}

/// Whether all codes of `rate` bits and the fill are there and nothing more, in a file that begins with the
/// header `h`, of `start` bits; or the first that is wrong.
pub(crate) fn check_rate(h: &Header, rate: u32, file: &[u8], start: u64) -> Result<(), IndexFault>
    requires begun { BeginsWithHeader file.now h.now start }
    requires rate { h.now.mode ≡ Mode.Rate rate }
    ensures ok { OnOk result (IsIndexOf file.now h.now (even_index start rate (blocks h.now.shape))) }
    ensures fault { IfErr result (λ e. IsFault (parse file.now) (stream_fault e)) }
{
    let Some(bits) = (file.len() as u64).checked_mul(8) else {
        return Err(IndexFault::Memory);
    };
    let rate = u64::from(rate);
    let whole = (bits - start) / rate;
    if whole < h.shape.blocks() {
        return Err(IndexFault::Truncated(whole));
    }
    let end = start + h.shape.blocks() * rate;
    let mut words = [0; 2];
    check_fill(h, &mut BitReader::of_file(file, end, &mut words))
}

/// How many bits the code of each block has, of values of this type, from bit `start` of the file on.
fn walk<T: Lane>(alloc: Global, h: &Header, file: &[u8], start: u64) -> Result<Vec<u16>, IndexFault>
    requires header { IsHeader h.now }
    requires same_type { T.width ≡ width_of h.now.ty }
    requires within { start ≤ 8 * length file.now }
    requires small { 8 * length file.now < 2 ^ 64 }
    ensures ok { IfOk result
        (λ lens. IsWalked h.now (to_bits file.now) (record { start = start; lens = lens.items })) }
    ensures fault { IfErr result (HasFault h.now (record { all = to_bits file.now; at = start })) }
{
    let mut block = vec![in alloc; T::zero(); block_len(h.shape.dims())]?;
    let mut lens = Vec::with_capacity(alloc, h.shape.blocks() as usize)?;
    let mut excerpt = Excerpt::new(alloc, longest_code::<T>(h))?;
    let mut at = start;
    for b in 0..h.shape.blocks() {
        excerpt.take(file, at);
        let Some(len) = pass_code(h, &mut excerpt.reader(), &mut block) else {
            return Err(IndexFault::Truncated(b));
        };
        let Ok(()) = lens.push(len) else {
            return Err(IndexFault::Memory);
        };
        at += u64::from(len);
    }
    excerpt.take(file, at);
    check_fill(h, &mut excerpt.reader())?;
    Ok(lens)
}

/// Passes the code of a block, by way of `block`; how many bits it has. `None` where the bits end too early.
///
/// The longest code has 32768 bits.
fn pass_code<T: Lane>(h: &Header, reader: &mut BitReader<'_>, block: &mut [T]) -> Option<u16>
    requires header { IsHeader h.now }
    requires same_type { T.width ≡ width_of h.now.ty }
    requires whole { length block.old ≡ 4 ^ length h.now.shape }
    ensures some { IfSome result (HasCode T.width h.now.mode (length h.now.shape) (rest reader.old)) }
    ensures none { IfNone result (LacksCode T.width h.now.mode (length h.now.shape) reader.old) }
    ensures whole { length block.new ≡ 4 ^ length h.now.shape }
{
    let start = reader.at();
    zf_parse::read_code(h, reader, block)?;
    Some((reader.at() - start) as u16)
}

/// Judges what stands behind the codes.
fn check_fill(h: &Header, reader: &mut BitReader<'_>) -> Result<(), IndexFault>
    ensures ok { IfOk result (λ u. fill_answer h.now reader.old.at (rest reader.old) ≡ Ok u) }
    ensures err { IfErr result (λ e. fill_answer h.now reader.old.at (rest reader.old)
        ≡ Err (stream_fault e)) }
{
    match zf_parse::check_fill(h, reader) {
        Ok(()) => Ok(()),
        Err(StreamFault::Truncated(b)) => Err(IndexFault::Truncated(b)),
        Err(StreamFault::Pad) => Err(IndexFault::Pad),
        Err(StreamFault::Trailing) => Err(IndexFault::Trailing),
        Err(_) => unreachable!(),
    }
}
