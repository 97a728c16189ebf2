//! Reading whole narrow values from a source that may give any part of them.

ghost use Rattle.std.specs.Prelude.{◌≡◌, true, ◌+◌, ◌%◌, ◌<◌, ◌≤◌, ◌++◌, [], length, take, IsOk, IsErr, IfOk, OnOk};
ghost use Rattle.std.specs.Prelude.{OnErr};
ghost use Rattle.zf_dev.specs.Devices.{AsksSource};
ghost use Rattle.zf_dev.specs.Source.{Gives, IsAtEnd};
ghost use Rattle.zf_narrow.specs.Values.{size_of};
ghost use Rattle.zf_narrow.specs.Promoting.{listed, TakesValues, ReadsBehind};

use crate::Narrow;
use crate::raw::size;
use zf_dev::{Failed, Source};

/// Reads as many whole values as come at once, at least one, into the start of `piece`, and says how many
/// bytes they have: none at the end of the source.
///
/// `half` is the first byte of a value whose second is still to come, before and after.
pub(crate) fn take_values<S: Source>(
    n: Narrow,
    src: &mut S,
    half: &mut Option<u8>,
    piece: &mut [u8],
) -> Result<usize, Failed>
    requires room { size_of n ≤ length piece.old }
    requires half { length (listed half.old) < size_of n }
    ensures bound { IfOk result (λ k. k ≤ length piece.old) }
    ensures ok { IfOk result (λ k. TakesValues n (S.contents src.old) (S.contents src.new)
        (Gives (S.gave src.old) (S.gave src.new)) (listed half.old) (listed half.new) (take k piece.new)) }
    ensures end { IfOk result (λ k. k ≡ 0 → IsAtEnd (S.contents src.new)) }
    ensures ended { IfOk result (λ k. k ≡ 0 → S.ended src.new ≡ true) }
    ensures err { OnErr result (TakesValues n (S.contents src.old) (S.contents src.new)
        (Gives (S.gave src.old) (S.gave src.new)) (listed half.old) (listed half.new) []) }
    ensures half { length (listed half.new) < size_of n }
    ensures source { AsksSource S.Source result src.old src.new }
{
    let held = put_half(half, piece);
    let count = read_behind(src, held, piece)?;
    if count == 0 {
        return Ok(0);
    }
    if held + count == size(n) - 1 {
        // One byte came, of a value of two.
        *half = Some(piece[0]);
        let more = read_behind(src, 1, piece)?;
        if more == 0 {
            return Ok(0);
        }
        return Ok(split_half(n, 1 + more, piece, half));
    }
    Ok(split_half(n, held + count, piece, half))
}

// Puts the first byte of a value in front, where there is one, and says how many that are.
fn put_half(half: &Option<u8>, piece: &mut [u8]) -> usize
    requires { 0 < length piece.old }
    ensures prefix { take result piece.new ≡ listed half.now }
    ensures count { result ≡ length (listed half.now) }
{
    match *half {
        Some(byte) => {
            piece[0] = byte;
            1
        }
        None => 0,
    }
}

// Reads some of the next bytes behind the first ones of `piece`, and says how many.
fn read_behind<S: Source>(src: &mut S, at: usize, piece: &mut [u8]) -> Result<usize, Failed>
    requires { at < length piece.old }
    ensures bound { IfOk result (λ k. at + k ≤ length piece.old) }
    ensures ok { IfOk result (λ k. ReadsBehind (S.contents src.old) (S.contents src.new)
        (Gives (S.gave src.old) (S.gave src.new)) (take at piece.old) (take (at + k) piece.new) k) }
    ensures end { IfOk result (λ k. k ≡ 0 → IsAtEnd (S.contents src.new)) }
    ensures ended { IfOk result (λ k. k ≡ 0 → S.ended src.new ≡ true) }
    ensures err { OnErr result (ReadsBehind (S.contents src.old) (S.contents src.new)
        (Gives (S.gave src.old) (S.gave src.new)) (take at piece.old) (take at piece.old) 0) }
    ensures source { AsksSource S.Source result src.old src.new }
{
    src.read(&mut piece[at..])
}

// Keeps the last of so many bytes as half a value where it is one, and says how many come before.
fn split_half(n: Narrow, filled: usize, piece: &[u8], half: &mut Option<u8>) -> usize
    requires whole { size_of n ≤ filled }
    requires room { filled ≤ length piece.now }
    ensures parts { take filled piece.now ≡ take result piece.now ++ listed half.new }
    ensures whole { result % size_of n ≡ 0 }
    ensures some { 0 < result }
    ensures bound { result ≤ filled }
    ensures half { length (listed half.new) < size_of n }
{
    let whole = filled - filled % size(n);
    *half = if whole < filled {
        Some(piece[whole])
    } else {
        None
    };
    whole
}
