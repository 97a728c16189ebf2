//! The narrow types, and the int32 values that stand for their numbers.

ghost use Rattle.std.specs.Prelude.{◌≡◌};
ghost use Rattle.zf_narrow.specs.Values.{IsNarrow, promoted, demoted, nearest, on_step};

/// A type of values with 8 or 16 bits, signed or not.
#[derive(Clone, Copy, Debug, PartialEq, Eq)]
pub enum Narrow {
    I8,
    U8,
    I16,
    U16,
}

/// The int32 value that stands for `v`, a number of the type: its distance from the middle of the type, times
/// `2^23` for 8 bits and `2^15` for 16.
pub fn promote(n: Narrow, v: i32) -> i32
    requires { IsNarrow n v }
    ensures { result ≡ promoted n v }
{
    match n {
        Narrow::I8 => v * (1 << 23),
        Narrow::U8 => (v - 128) * (1 << 23),
        Narrow::I16 => v * (1 << 15),
        Narrow::U16 => (v - 32768) * (1 << 15),
    }
}

/// The number of the type that an int32 value stands for: the one on whose step it lies, or next above, and
/// the last one where it lies beyond.
pub fn demote(n: Narrow, v: i32) -> i32
    ensures value { result ≡ demoted n v }
    ensures narrow { IsNarrow n result }
{
    nearest(n, on_step(n, v))
}

// The number of the step that a value lies on or next above, where the type had no end.
fn on_step(n: Narrow, v: i32) -> i32
    ensures { result ≡ on_step n v }
{
    match n {
        Narrow::I8 => v >> 23,
        Narrow::U8 => (v >> 23) + 128,
        Narrow::I16 => v >> 15,
        Narrow::U16 => (v >> 15) + 32768,
    }
}

// The number of the type that is nearest.
fn nearest(n: Narrow, v: i32) -> i32
    ensures value { result ≡ nearest n v }
    ensures narrow { IsNarrow n result }
{
    match n {
        Narrow::I8 => v.max(-128).min(127),
        Narrow::U8 => v.max(0).min(255),
        Narrow::I16 => v.max(-32768).min(32767),
        Narrow::U16 => v.max(0).min(65535),
    }
}
