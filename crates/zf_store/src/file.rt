//! The file of a store: whether one is whole, its codes, and its bytes.

ghost use Rattle.std.specs.Prelude.{◌≡◌, ◌≢◌, ◌+◌, ◌-◌, ◌*◌, ◌<◌, ◌≤◌, ◌^◌, ◌↔◌, ◌++◌, IsTrue, false, length, take, drop, replicate, vec_len, IfOk, IfErr, OnOk};
ghost use Rattle.std.specs.Int.{w64, div_ceil, to_le_bytes};
ghost use Rattle.zf_spec.specs.Grid.{blocks};
ghost use Rattle.zf_spec.specs.Numbers.{number, word_bits};
ghost use Rattle.zf_spec.specs.Stream.{fill_len, to_bits, to_bytes, with_fill};
ghost use Rattle.zf_header.specs.HeaderBits.{IsRate, block_bits, header_bits, rate_bytes_of};
ghost use Rattle.zf_header.specs.HeaderFaults.{header_fault};
ghost use Rattle.zf_parse.specs.Parsing.{header_of, parse};
ghost use Rattle.zf_parse.specs.declared.fault.StreamFault.TheVariants as stream;
ghost use Rattle.zf_index.specs.Files.{stream_fault};
ghost use Rattle.zf_store.specs.Files.{HasHeader};
ghost use Rattle.zf_store.specs.Words.{all_bits, IsWholeFile};

use crate::StoreFault;
use crate::words::{joined_word, move_to_front};
use std::alloc::{AllocError, Global};
use zf_bits::{get_bits, word_of_bytes_at, words_of_bytes};
use zf_header::{Header, Mode, header_len, rate_bytes};

/// The bits of each block.
pub(crate) fn rate(h: &Header) -> u32
    requires { IsRate h.now.mode }
    ensures value { result ≡ block_bits h.now.mode }
    ensures some { 1 ≤ result }
    ensures bound { result ≤ 32768 }
{
    let Mode::Rate(bits) = h.mode else {
        unreachable!()
    };
    bits
}

/// The bits of all blocks.
pub(crate) fn code_bits(h: &Header) -> u64
    requires { IsRate h.now.mode }
    ensures value { result ≡ all_bits h.now }
    ensures bound { result ≤ 2 ^ 42 }
{
    h.shape.blocks() * u64::from(rate(h))
}

/// The bit of the codes at which that of block `b` begins.
pub(crate) fn code_place(h: &Header, b: u64) -> u64
    requires rate { IsRate h.now.mode }
    requires block { b < blocks h.now.shape }
    ensures value { result ≡ b * block_bits h.now.mode }
    ensures within { result + block_bits h.now.mode ≤ all_bits h.now }
    ensures bound { all_bits h.now ≤ 2 ^ 42 }
{
    let _all = code_bits(h);
    b * u64::from(rate(h))
}

/// Whether the codes and the fill of a file are there, the fill is zero, and nothing follows; or the first
/// that is wrong.
pub(crate) fn check_file(h: &Header, file: &[u8]) -> Result<(), StoreFault>
    requires { HasHeader file.now h.now }
    ensures ok { OnOk result (IsWholeFile file.now h.now) }
    ensures err { IfErr result (λ e. parse file.now ≡ Err (stream_fault e)) }
{
    let whole = rate_bytes(h);
    let len = file.len() as u64;
    if len < whole {
        return Err(StoreFault::Truncated(cut_block(h, file)));
    }
    if has_one_in_fill(h, file) {
        return Err(StoreFault::Pad);
    }
    if len > whole {
        return Err(StoreFault::Trailing);
    }
    Ok(())
}

// The first block of a file that is too short whose code ends too early, or the number of blocks where only
// fill bits are missing.
fn cut_block(h: &Header, file: &[u8]) -> u64
    requires header { HasHeader file.now h.now }
    requires short { length file.now < rate_bytes_of h.now }
    ensures { parse file.now ≡ Err (stream.Truncated result) }
{
    let behind = 8 * file.len() as u64 - u64::from(header_len(h));
    (behind / u64::from(rate(h))).min(h.shape.blocks())
}

// Whether a bit of the fill is one.
fn has_one_in_fill(h: &Header, file: &[u8]) -> bool
    requires header { HasHeader file.now h.now }
    requires enough { rate_bytes_of h.now ≤ length file.now }
    ensures { IsTrue result ↔ (let used = length (header_bits h.now) + all_bits h.now in
        number (take (fill_len used) (drop used (to_bits file.now))) ≢ 0) }
{
    let whole = rate_bytes(h);
    let fill = 8 * whole - u64::from(header_len(h)) - code_bits(h);
    let last = [word_of_bytes_at(file, whole as usize - 8)];
    get_bits(&last, 64 - fill, fill as u32) != 0
}

/// The words of the codes of a whole file.
pub(crate) fn words_of_file(alloc: Global, h: &Header, file: &[u8]) -> Result<Vec<u64>, AllocError>
    requires header { HasHeader file.now h.now }
    requires whole { IsWholeFile file.now h.now }
    ensures count { IfOk result (λ words. vec_len words ≡ div_ceil (all_bits h.now) 64) }
    ensures bits { IfOk result (λ words. word_bits words.items
        ≡ take (all_bits h.now) (drop (length (header_bits h.now)) (to_bits file.now))
        ++ replicate (64 * vec_len words - all_bits h.now) false) }
{
    let mut words = words_of_bytes(alloc, file)?;
    let len = code_bits(h);
    move_to_front(&mut words, u64::from(header_len(h)), len);
    words.truncate(len.div_ceil(64) as usize);
    Ok(words)
}

/// Writes the bytes of the first `prefix_len` bits of `prefix`, then the first `len` bits of `words`, and the
/// fill.
pub(crate) fn write_bytes(prefix: &[u64], prefix_len: u64, words: &[u64], len: u64, out: &mut [u8])
    requires prefix { prefix_len ≤ 64 * length prefix.now }
    requires words { len ≤ 64 * length words.now }
    requires size { length out.old ≡ 8 * div_ceil (prefix_len + len) 64 }
    requires small { prefix_len + len < 2 ^ 63 }
    ensures { out.new ≡ to_bytes (with_fill (take prefix_len (word_bits prefix.now)
        ++ take len (word_bits words.now))) }
{
    for i in 0..out.len() / 8 {
        let word = joined_word(prefix, prefix_len, words, len, i as u64);
        put_word(out, 8 * i, word);
    }
}

// Writes the 8 bytes of a word at a place, the least significant first.
fn put_word(out: &mut [u8], at: usize, word: u64)
    requires { at + 8 ≤ length out.old }
    ensures { out.new ≡ take at out.old ++ to_le_bytes w64 word ++ drop (at + 8) out.old }
{
    out[at..at + 8].copy_from_slice(&word.to_le_bytes());
}
