//! The values that are made of a number.

ghost use Rattle.std.specs.Prelude.{◌≡◌, ℕ, ◌/◌, ◌≤◌, ◌++◌, map, IfOk, OnOk};
ghost use Rattle.std.specs.Int.{to_le_bytes, cast_unsigned};
ghost use Rattle.zf_spec.specs.Grid.{max_values};
ghost use Rattle.zf_spec.specs.Stream.{raw};
ghost use Rattle.zf_sample.specs.Made.{halved, made_values};

use rand_core::{Rng, SeedableRng};
use rand_xoshiro::SplitMix64;
use std::alloc::{AllocError, Global};
use zf_base::Lane;

/// The raw bytes of so many values of this type.
pub(crate) fn raw_values<T: Lane>(
    alloc: Global,
    count: u64,
    seed: u64,
) -> Result<Vec<u8>, AllocError>
    requires { count ≤ max_values }
    ensures { IfOk result (λ bytes. bytes.items ≡ raw T.width (made_values T.width count seed)) }
{
    let mut words = SplitMix64::from_seed(seed.to_le_bytes());
    let mut bytes = Vec::new(alloc);
    for _ in 0..count {
        let word = words.next_u64();
        push_value(halved(T::from_word(word)), &mut bytes)?;
    }
    Ok(bytes)
}

/// A value halved half as often as its type has bits, so that the difference of two is no surprise to a
/// transform.
fn halved<T: Lane>(v: T) -> T
    ensures { T.value result ≡ halved (T.WIDTH / 2) (T.value v) }
{
    let mut v = v;
    for _ in 0..T::WIDTH / 2 {
        v = v.halve();
    }
    v
}

/// Appends the raw bytes of a value.
fn push_value<T: Lane>(v: T, bytes: &mut Vec<u8>) -> Result<(), AllocError>
    ensures { OnOk result (bytes.new.items ≡ bytes.old.items ++ to_le_bytes T.width
        (cast_unsigned T.width (T.value v))) }
{
    let all = v.to_word().to_le_bytes();
    bytes.extend_from_slice(&all[..(T::WIDTH / 8) as usize])
}
