//! A block of one value.

ghost use Rattle.std.specs.Prelude.{◌≡◌, map, length, replicate};

use zf_base::Lane;

/// Gives each place of a block this value.
#[inline(always)]
pub fn fill<T: Lane>(value: T, block: &mut [T])
    ensures values { map T.value block.new ≡ replicate (length block.old) (T.value value) }
    ensures in_type { T.in_range (T.value value) }
{
    // Known by this call: the number is one of the type's.
    let _word = value.to_word();
    for place in 0..block.len() {
        block[place] = value;
    }
}
