//! Values of raw bytes, and raw bytes of values.

ghost use Rattle.std.specs.Prelude.{◌≡◌, ◌*◌, ◌≤◌, map, length};
ghost use Rattle.std.specs.Int.{w64, byte_len, from_le_bytes, cast_signed};
ghost use Rattle.zf_spec.specs.Stream.{first_bytes, values_from, raw};
ghost use Rattle.zfpi_c.specs.Parts.{Wrote};

use zf_base::Lane;
use zf_pad::{put_raw, value_len};

/// Puts the raw bytes of values over the start of `out`. All behind them stays.
pub(crate) fn put_over<T: Lane>(values: &[T], out: &mut [u8])
    requires room { length values.now * byte_len T.width ≤ length out.old }
    ensures { Wrote (λ text. text ≡ raw T.width (map T.value values.now)) out.old out.new }
{
    put_raw(values, &mut out[..values.len() * value_len::<T>()]);
}

/// Makes values of raw bytes.
pub(crate) fn put_values<T: Lane>(bytes: &[u8], values: &mut [T])
    requires { length bytes.now ≡ length values.old * byte_len T.width }
    ensures { map T.value values.new ≡ values_from T.width (length values.new) bytes.now }
{
    let len = value_len::<T>();
    for i in 0..values.len() {
        let start = i * len;
        values[i] = value_of::<T>(&bytes[start..start + len]);
    }
}

/// The value that has these bytes, the least significant first.
fn value_of<T: Lane>(bytes: &[u8]) -> T
    requires { length bytes.now ≡ byte_len T.width }
    ensures { T.value result ≡ cast_signed T.width (from_le_bytes T.width bytes.now) }
{
    T::from_word(word_of(bytes))
}

/// The number that has these bytes, the least significant first.
#[inline]
fn word_of(bytes: &[u8]) -> u64
    requires { length bytes.now ≤ 8 }
    ensures { result ≡ from_le_bytes w64 (first_bytes 8 bytes.now) }
{
    let mut all = [0; 8];
    all[..bytes.len()].copy_from_slice(bytes);
    u64::from_le_bytes(all)
}
