//! Reading from a source: as many bytes as are wanted, and then the end.

ghost use Rattle.std.specs.Prelude.{◌≡◌, ◌≢◌, true, ◌≤◌, ◌<◌, ◌*◌, ◌+◌, ◌^◌, [], map, length, take, IsOk, Err};
ghost use Rattle.std.specs.Prelude.{IfOk, IfErr, OnOk, OnErr};
ghost use Rattle.std.specs.Int.{byte_len};
ghost use Rattle.zf_dev.specs.Source.{TakesSome, TakesAtMost, Takes, Gives, GivesSome, IsAtEnd, SeesEnd};
ghost use Rattle.zf_dev.specs.Devices.{Reads};
ghost use Rattle.zf_stream.specs.Outcomes.{TakesFirst, ReadsOnly};
ghost use Rattle.zf_stream.specs.ReadRaw.{ReadsValues, LacksRaw, GoesOn};
ghost use Rattle.zf_parse.specs.declared.fault.StreamFault.TheVariants.{Read};

use crate::StreamFault;
use crate::values::put_values;
use zf_base::Lane;
use zf_dev::{Source, fill};
use zf_pad::value_len;

/// Fills `raw` with the next bytes, of which `before` came before.
pub(crate) fn read_raw<S: Source>(
    before: u64,
    raw: &mut [u8],
    src: &mut S,
) -> Result<(), StreamFault>
    requires fits { before + length raw.old < 2 ^ 64 }
    ensures ok { OnOk result (Takes (S.contents src.old) (S.contents src.new) raw.new) }
    ensures err { IfErr result (LacksRaw before (length raw.old) (S.contents src.old) (S.contents src.new)) }
    ensures gave { OnOk result (Gives (S.gave src.old) (S.gave src.new) raw.new) }
    ensures gave_some { GivesSome (S.gave src.old) (S.gave src.new) }
    ensures source { Reads S.Source (result ≡ Err Read) src.old src.new }
{
    let count = read_into(src, raw)?;
    if count < raw.len() {
        return Err(StreamFault::RawShort(before + count as u64));
    }
    Ok(())
}

/// Reads values from their raw bytes, of which `before` came before, by way of `piece`.
pub(crate) fn read_values<T: Lane, S: Source>(
    before: u64,
    values: &mut [T],
    piece: &mut [u8],
    src: &mut S,
) -> Result<(), StreamFault>
    requires piece { 8 ≤ length piece.old }
    requires fits { before + length values.old * byte_len T.width < 2 ^ 64 }
    ensures ok { OnOk result (ReadsValues T.width (length values.old)
        (S.contents src.old) (S.contents src.new)
        (Gives (S.gave src.old) (S.gave src.new)) (map T.value values.new)) }
    ensures err { IfErr result (LacksRaw before (length values.old * byte_len T.width) (S.contents src.old)
        (S.contents src.new)) }
    ensures gave_some { GivesSome (S.gave src.old) (S.gave src.new) }
    ensures source { Reads S.Source (result ≡ Err Read) src.old src.new }
{
    let len = value_len::<T>();
    let most = piece.len() / len;
    let mut at = 0;
    while at < values.len() {
        let n = (values.len() - at).min(most);
        read_raw(before + (at * len) as u64, &mut piece[..n * len], src)?;
        put_values(&piece[..n * len], &mut values[at..at + n]);
        at += n;
    }
    Ok(())
}

/// Reads the end of the source, before which no byte is to come.
pub(crate) fn read_end<S: Source>(src: &mut S) -> Result<(), StreamFault>
    ensures ok { OnOk result (Takes (S.contents src.old) (S.contents src.new) [] × IsAtEnd
        (S.contents src.new)) }
    ensures err { IfErr result (GoesOn (S.contents src.old) (S.contents src.new)) }
    ensures gave { OnOk result (Gives (S.gave src.old) (S.gave src.new) []) }
    ensures ended { OnOk result (S.ended src.new ≡ true) }
    ensures gave_some { GivesSome (S.gave src.old) (S.gave src.new) }
    ensures source { Reads S.Source (result ≡ Err Read) src.old src.new }
{
    let mut more = [0];
    let count = read_into(src, &mut more)?;
    if count > 0 {
        return Err(StreamFault::RawLong);
    }
    Ok(())
}

/// Reads until `buf` is full or the source is at its end.
pub(crate) fn read_into<S: Source>(src: &mut S, buf: &mut [u8]) -> Result<usize, StreamFault>
    ensures bound { IfOk result (λ n. n ≤ length buf.old) }
    ensures first { IfOk result (λ n. TakesFirst (length buf.old) (S.contents src.old) (S.contents src.new)
        (take n buf.new)) }
    ensures end { IfOk result (λ n. n < length buf.old → IsAtEnd (S.contents src.new)) }
    ensures ended { IfOk result (λ n. n < length buf.old → S.ended src.new ≡ true) }
    ensures lost { OnErr result (TakesAtMost (S.contents src.old) (S.contents src.new) (length buf.old)) }
    ensures some { TakesSome (S.contents src.old) (S.contents src.new) }
    ensures gave { IfOk result (λ n. Gives (S.gave src.old) (S.gave src.new) (take n buf.new)) }
    ensures gave_some { GivesSome (S.gave src.old) (S.gave src.new) }
    ensures seen { IfOk result (λ n. SeesEnd (n < length buf.old) (S.ends_seen src.old)
        (S.ends_seen src.new)) }
    ensures unseen { OnErr result (S.ends_seen src.new ≤ S.ends_seen src.old) }
    ensures still_exact { S.is_exact src.old → S.is_exact src.new }
    ensures source { ReadsOnly S.Source result src.old src.new }
{
    match fill(src, buf) {
        Ok(count) => Ok(count),
        Err(_) => Err(StreamFault::Read),
    }
}
