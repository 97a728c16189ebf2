//! The size of a block.

ghost use Rattle.std.specs.Prelude.{◌≡◌, ◌^◌, ◌≤◌};

/// The number of values of a block of `d` dimensions: four along each axis, `4^d` in all.
pub fn block_len(d: u8) -> usize
    requires { d ≤ 4 }
    ensures value { result ≡ 4 ^ d }
    ensures bound { result ≤ 256 }
{
    1 << (2 * d)
}
