//! How many bits the longest codes have.

ghost use Rattle.std.specs.Prelude.{◌≡◌, ◌≤◌, ◌<◌, ◌^◌};
ghost use Rattle.zf_base.specs.Widths.{width_of};
ghost use Rattle.zf_header.specs.HeaderBits.{IsMode};
ghost use Rattle.zf_parse.specs.Parsing.{longest_code};

use zf_base::{Lane, block_len};
use zf_header::{Header, Mode};

/// The bits of the longest code of a block.
pub fn longest_code<T: Lane>(h: &Header) -> u64
    requires same_type { T.width ≡ width_of h.now.ty }
    requires mode { IsMode h.now.mode }
    ensures value { result ≡ longest_code h.now }
    ensures bound { result ≤ 32768 }
    ensures some { 1 ≤ result }
{
    let size = block_len(h.shape.dims()) as u64;
    let planes = size * u64::from(T::WIDTH + 1);
    match h.mode {
        Mode::Reversible => 6 + planes,
        Mode::Rate(bits) => u64::from(bits),
        Mode::Precision(_) => planes,
    }
}
