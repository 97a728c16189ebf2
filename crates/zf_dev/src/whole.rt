//! A source read until there is no more room, and one read to its end.

ghost use Rattle.std.specs.Prelude.{◌≡◌, ◌≢◌, ◌≤◌, true, length, Err, IsOk, IfOk, OnOk, ◌<◌, take, drop, OnErr};
ghost use Rattle.zf_dev.specs.declared.faults.TakeError.TheVariants as taking;
ghost use Rattle.zf_dev.specs.Devices.{AsksSource, Reads};
ghost use Rattle.zf_dev.specs.Source.{Takes, TakesSome, TakesMoreThan, IsAtEnd, SeesEnd, TakesAtMost, Gives, GivesSome, IsFill};

use crate::{Failed, Source, TakeError};
use std::alloc::Global;

// How many bytes are read at once.
const PIECE: usize = 4096;

/// Reads until `buf` is full or the source is at its end, and says how many bytes it read: fewer than `buf`
/// has only at the end.
///
/// `Failed`: the source failed. The bytes read so far can't be told from what stood in `buf` before.
pub fn fill<S: Source>(src: &mut S, buf: &mut [u8]) -> Result<usize, Failed>
    ensures bound { IfOk result (λ n. n ≤ length buf.old) }
    ensures taken { IfOk result (λ n. Takes (S.contents src.old) (S.contents src.new) (take n buf.new)) }
    ensures rest { IfOk result (λ n. drop n buf.new ≡ drop n buf.old) }
    ensures filled { IfOk result (λ n. IsFill (S.contents src.old) (length buf.old) n) }
    ensures end { IfOk result (λ n. n < length buf.old → IsAtEnd (S.contents src.new)) }
    ensures ended { IfOk result (λ n. n < length buf.old → S.ended src.new ≡ true) }
    // After a fault, some of the next bytes are gone, at most as many as there was room for.
    ensures lost { OnErr result (TakesAtMost (S.contents src.old) (S.contents src.new) (length buf.old)) }
    ensures gave { IfOk result (λ n. Gives (S.gave src.old) (S.gave src.new) (take n buf.new)) }
    ensures gave_some { GivesSome (S.gave src.old) (S.gave src.new) }
    // It reads no more once it saw the end.
    ensures seen { IfOk result (λ n. SeesEnd (n < length buf.old) (S.ends_seen src.old) (S.ends_seen src.new)) }
    ensures unseen { OnErr result (S.ends_seen src.new ≤ S.ends_seen src.old) }
    ensures still_exact { S.is_exact src.old → S.is_exact src.new }
    ensures source { AsksSource S.Source result src.old src.new }
{
    let mut filled = 0;
    while filled < buf.len() {
        let n = src.read(&mut buf[filled..])?;
        if n == 0 {
            return Ok(filled);
        }
        filled += n;
    }
    Ok(filled)
}

/// Reads the source to its end, and gives all the bytes that came, at most `max`.
///
/// `Long`: more than `max` came. `Failed`: the source failed. `Memory`: there was no memory. Some of the
/// bytes, maybe none, are taken then.
pub fn take_all<S: Source>(alloc: Global, src: &mut S, max: u64) -> Result<Vec<u8>, TakeError>
    ensures ok { IfOk result (λ bytes. Takes (S.contents src.old) (S.contents src.new) bytes.items) }
    ensures gave { IfOk result (λ bytes. Gives (S.gave src.old) (S.gave src.new) bytes.items) }
    ensures end { OnOk result (IsAtEnd (S.contents src.new)) }
    ensures ended { OnOk result (S.ended src.new ≡ true) }
    ensures bound { IfOk result (λ bytes. length bytes.items ≤ max) }
    ensures long { result ≡ Err taking.Long → TakesMoreThan (S.contents src.old) (S.contents src.new) max }
    // After an error too, what is gone was the next to come.
    ensures taken { TakesSome (S.contents src.old) (S.contents src.new) }
    // It reads no more once it saw the end.
    ensures seen { SeesEnd (IsOk result) (S.ends_seen src.old) (S.ends_seen src.new) }
    ensures unchanged { result ≢ Err taking.Failed → S.faults src.new ≡ S.faults src.old }
    ensures source { Reads S.Source (result ≡ Err taking.Failed) src.old src.new }
{
    src.read_ahead();
    take_pieces(alloc, src, max)
}

// Takes all piece by piece.
fn take_pieces<S: Source>(alloc: Global, src: &mut S, max: u64) -> Result<Vec<u8>, TakeError>
    ensures ok { IfOk result (λ bytes. Takes (S.contents src.old) (S.contents src.new) bytes.items) }
    ensures gave { IfOk result (λ bytes. Gives (S.gave src.old) (S.gave src.new) bytes.items) }
    ensures end { OnOk result (IsAtEnd (S.contents src.new)) }
    ensures ended { OnOk result (S.ended src.new ≡ true) }
    ensures bound { IfOk result (λ bytes. length bytes.items ≤ max) }
    ensures long { result ≡ Err taking.Long → TakesMoreThan (S.contents src.old) (S.contents src.new) max }
    ensures taken { TakesSome (S.contents src.old) (S.contents src.new) }
    ensures seen { SeesEnd (IsOk result) (S.ends_seen src.old) (S.ends_seen src.new) }
    ensures unchanged { result ≢ Err taking.Failed → S.faults src.new ≡ S.faults src.old }
    ensures source { Reads S.Source (result ≡ Err taking.Failed) src.old src.new }
{
    let mut bytes = Vec::new(alloc);
    let mut piece = [0; PIECE];
    let mut left = max;
    loop {
        let count = match src.read(&mut piece) {
            Ok(count) => count,
            Err(_) => return Err(TakeError::Failed),
        };
        if count == 0 {
            return Ok(bytes);
        }
        if count as u64 > left {
            return Err(TakeError::Long);
        }
        left -= count as u64;
        if bytes.extend_from_slice(&piece[..count]).is_err() {
            return Err(TakeError::Memory);
        }
    }
}
