//! Narrow values and the int32 values that stand for them, as raw bytes, both ways.

ghost use Rattle.std.specs.Prelude.{◌≡◌, ◌*◌, ◌≤◌, length, take};
ghost use Rattle.std.specs.Int.{w32, from_le_bytes, cast_signed};
ghost use Rattle.zf_narrow.specs.Values.{IsNarrow, size_of};
ghost use Rattle.zf_narrow.specs.RawNarrow.{value_of, narrow_bytes, promoted_bytes, demoted_bytes};

use crate::{Narrow, demote, promote};

/// How many bytes a value has.
pub(crate) fn size(n: Narrow) -> usize
    ensures value { result ≡ size_of n }
    ensures some { 1 ≤ result }
    ensures bound { result ≤ 2 }
{
    match n {
        Narrow::I8 | Narrow::U8 => 1,
        Narrow::I16 | Narrow::U16 => 2,
    }
}

/// The value that has these bytes, the least significant first.
pub(crate) fn value(n: Narrow, bytes: &[u8]) -> i32
    requires { length bytes.now ≡ size_of n }
    ensures value { result ≡ value_of n bytes.now }
    ensures narrow { IsNarrow n result }
{
    match n {
        Narrow::I8 => i32::from(bytes[0].cast_signed()),
        Narrow::U8 => i32::from(bytes[0]),
        Narrow::I16 => i32::from(i16::from_le_bytes([bytes[0], bytes[1]])),
        Narrow::U16 => i32::from(u16::from_le_bytes([bytes[0], bytes[1]])),
    }
}

/// Makes raw int32 bytes of `count` raw narrow values: those of the values that stand for them.
pub(crate) fn put_promoted(n: Narrow, count: usize, narrow: &[u8], raw: &mut [u8])
    requires narrow { length narrow.now ≡ count * size_of n }
    requires raw { length raw.old ≡ count * 4 }
    ensures { raw.new ≡ promoted_bytes n narrow.now }
{
    let len = size(n);
    for i in 0..count {
        let v = value(n, &narrow[i * len..i * len + len]);
        raw[i * 4..i * 4 + 4].copy_from_slice(&promote(n, v).to_le_bytes());
    }
}

/// Makes raw narrow bytes of `count` raw int32 values: those of the numbers that they stand for.
pub(crate) fn put_demoted(n: Narrow, count: usize, raw: &[u8], narrow: &mut [u8])
    requires raw { length raw.now ≡ count * 4 }
    requires narrow { length narrow.old ≡ count * size_of n }
    ensures { narrow.new ≡ demoted_bytes n raw.now }
{
    let len = size(n);
    for i in 0..count {
        let v = int32(&raw[i * 4..i * 4 + 4]);
        narrow[i * len..i * len + len].copy_from_slice(&low_bytes(n, demote(n, v))[..len]);
    }
}

// The int32 value that has these bytes, the least significant first.
fn int32(bytes: &[u8]) -> i32
    requires { length bytes.now ≡ 4 }
    ensures { result ≡ cast_signed w32 (from_le_bytes w32 bytes.now) }
{
    i32::from_le_bytes([bytes[0], bytes[1], bytes[2], bytes[3]])
}

// Two bytes of a number of the type, of which those of a value are the first.
fn low_bytes(n: Narrow, v: i32) -> [u8; 2]
    requires { IsNarrow n v }
    ensures { take (size_of n) result ≡ narrow_bytes n v }
{
    let [low, high, _, _] = v.to_le_bytes();
    [low, high]
}
