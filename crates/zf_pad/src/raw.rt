//! Values and their raw bytes: each little-endian, in 4 or 8 bytes.

ghost use Rattle.std.specs.Prelude.{◌≡◌, ◌≤◌, ◌+◌, ◌*◌, ◌/◌, ◌<◌, ◌∷◌, ◌++◌, All, FitsSigned, map, length, take, drop};
ghost use Rattle.std.specs.Int.{byte_len};
ghost use Rattle.zf_spec.specs.Stream.{raw};
ghost use Rattle.zf_pad.specs.Copies.{IsRunCopied};
ghost use Rattle.zf_pad.specs.Stored.{values_in};

use zf_base::Lane;

/// How many bytes a raw value has.
pub fn value_len<T: Lane>() -> usize
    ensures value { result ≡ byte_len T.width }
    ensures bound { result ≤ 8 }
    ensures some { 4 ≤ result }
{
    (T::WIDTH / 8) as usize
}

/// Makes raw bytes of values.
#[inline(always)]
pub fn put_raw<T: Lane>(values: &[T], bytes: &mut [u8])
    requires { length bytes.old ≡ length values.now * byte_len T.width }
    ensures bytes { bytes.new ≡ raw T.width (map T.value values.now) }
    ensures in_type { All (λ v. FitsSigned T.width v) (map T.value values.now) }
{
    let len = value_len::<T>();
    for i in 0..values.len() {
        let start = i * len;
        bytes[start..start + len].copy_from_slice(&values[i].to_word().to_le_bytes()[..len]);
    }
}

/// Puts so many values, from place `from` on, into raw bytes, to the places from `to` on.
#[inline(always)]
pub(crate) fn put_raw_at<T: Lane>(
    values: &[T],
    from: usize,
    count: usize,
    bytes: &mut [u8],
    to: usize,
)
    requires there { from + count ≤ length values.now }
    requires room { to + count ≤ length bytes.old / byte_len T.width }
    ensures { IsRunCopied count from to (map T.value values.now)
        (values_in T.width bytes.old) (values_in T.width bytes.new) }
{
    for k in 0..count {
        put_value(values[from + k], bytes, to + k);
    }
}

/// [`put_raw_at`] of four values, which are all read before any is put, so that they are copied in one step.
#[inline(always)]
pub(crate) fn put_row<T: Lane>(values: &[T], from: usize, bytes: &mut [u8], to: usize)
    requires there { from + 4 ≤ length values.now }
    requires room { to + 4 ≤ length bytes.old / byte_len T.width }
    ensures { IsRunCopied 4 from to (map T.value values.now)
        (values_in T.width bytes.old) (values_in T.width bytes.new) }
{
    let a = values[from];
    let b = values[from + 1];
    let c = values[from + 2];
    let d = values[from + 3];
    put_value(a, bytes, to);
    put_value(b, bytes, to + 1);
    put_value(c, bytes, to + 2);
    put_value(d, bytes, to + 3);
}

/// Puts one value, byte by byte: a copy of slices would ask first whether they overlap.
#[inline(always)]
fn put_value<T: Lane>(value: T, bytes: &mut [u8], to: usize)
    requires room { to < length bytes.old / byte_len T.width }
    ensures { values_in T.width bytes.new ≡ take to (values_in T.width bytes.old)
        ++ T.value value ∷ drop (to + 1) (values_in T.width bytes.old) }
{
    let len = value_len::<T>();
    let start = to * len;
    let all = value.to_word().to_le_bytes();
    for k in 0..len {
        bytes[start + k] = all[k];
    }
}
