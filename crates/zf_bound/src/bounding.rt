//! The bound of a stream.

ghost use Rattle.std.specs.Prelude.{◌≡◌, ◌≤◌, ◌<◌, ◌^◌, ◌↔◌, IsTrue, length, IfOk, IfErr, OnOk};
ghost use Rattle.zf_spec.specs.Grid.{IsDimension};
ghost use Rattle.zf_base.specs.Widths.{width_of};
ghost use Rattle.zf_header.specs.HeaderBits.{IsRate};
ghost use Rattle.zf_parse.specs.Parsing.{parse};
ghost use Rattle.zf_parse.specs.ReadStreams.{IsFault};
ghost use Rattle.zf_index.specs.Files.{HasHeader, stream_fault};
ghost use Rattle.zf_bound.specs.Errors.{IsSmallEnough};
ghost use Rattle.zf_bound.specs.Bounds.{IsGood, plane_of, error_of, IsBound};

use crate::Certified;
use crate::planes::stream_plane;
use std::alloc::Global;
use zf_base::Lane;
use zf_bits::Excerpt;
use zf_header::Header;
use zf_index::{IndexFault, Verbatim};

// How many bits of a file are made words at once: those of many codes, as none has more than half of them.
const AT_ONCE: u64 = 65536;

/// How far the values of a stream of a fixed rate are, at most, from whatever was stored in it, if that had
/// magnitudes up to `m`.
///
/// `file` is the whole stream. The bound holds for all contents with these codes, and says nothing of any
/// other; where the values or the error are so large that a sum may wrap, none is promised.
///
/// `h` is what `zf_header::read` gives for the file. `Truncated(b)`: the code of block b is the first that
/// ends too early; b is the number of blocks where only fill bits are missing. `Pad`: a bit of the fill is
/// one. `Trailing`: a byte follows the fill. The first that holds, in this order; or `Memory`: there was no
/// memory.
pub fn bound<T: Lane>(
    alloc: Global,
    h: &Header,
    file: &[u8],
    m: u64,
) -> Result<Certified, IndexFault>
    requires header { HasHeader file.now h.now }
    requires same_type { T.width ≡ width_of h.now.ty }
    requires rate { IsRate h.now.mode }
    ensures good { OnOk result (IsGood file.now) }
    ensures plane { IfOk result (λ c. IfOk (parse file.now)
        (λ said. c.plane ≡ plane_of T.width (length h.now.shape) said.codes)) }
    ensures error { IfOk result (λ c. c.error ≡ error_of (length h.now.shape) c.plane) }
    ensures holds { IfOk result (λ c. IsTrue c.holds ↔ IsSmallEnough T.WIDTH m c.error) }
    ensures bound { IfOk result (λ c. IsTrue c.holds
        → IfOk (parse file.now) (λ said. IsBound h.now said.codes m c.error said.values)) }
    ensures fault { IfErr result (λ e. IsFault (parse file.now) (stream_fault e)) }
{
    let index = Verbatim::build(alloc, h, file)?;
    let mut excerpt = Excerpt::new(alloc, AT_ONCE)?;
    let plane = stream_plane::<T>(h, &index, file, &mut excerpt);
    let error = error_from(h.shape.dims(), plane);
    Ok(Certified {
        plane,
        error,
        holds: is_small_enough(T::WIDTH, m, error),
    })
}

// What comes back of a block in `d` dimensions is no further than this from it, where its planes are whole
// from plane `k` on.
//
// The digits below the plane come to less than 2^k, and each axis makes of an error e at most 4e + 4.
fn error_from(d: u8, k: u32) -> u128
    requires dimension { IsDimension d }
    requires plane { k ≤ 64 }
    ensures value { result ≡ error_of d k }
    ensures bound { result < 2 ^ 80 }
{
    let mut error = (1u128 << k) - 1;
    for _axis in 0..d {
        error = 4 * error + 4;
    }
    error
}

// Whether values of a magnitude up to `m` are so small that no sum wraps, whatever the error does to them.
fn is_small_enough(width: u32, m: u64, error: u128) -> bool
    requires some { 1 ≤ width }
    requires width { width ≤ 64 }
    requires error { error < 2 ^ 80 }
    ensures { IsTrue result ↔ IsSmallEnough width m error }
{
    8 * (u128::from(m) + error + 17) < 1u128 << (width - 1)
}
