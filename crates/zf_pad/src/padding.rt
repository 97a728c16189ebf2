//! Padding: a partial block becomes a whole one (zfp 1.0 documentation, chapter Algorithm).

ghost use Rattle.std.specs.Prelude.{◌≡◌, true, ◌^◌, ◌<◌, ◌≤◌, length, map, slice_index_or};
ghost use Rattle.std.specs.List.{AllByRecursion};
ghost use Rattle.zf_spec.specs.Grid.{fours};
ghost use Rattle.zf_spec.specs.Padding.{sources, source_place, pad};
ghost use Rattle.zf_base.specs.Positions.{axes, used_axes, IsExtent};

use zf_base::{Extent, Lane, Pos, block_len};

// Which of its n values each of the four values of a line is, for n from 1 to 4: a a a a, a b b a, a b c a, a
// b c d.
const SOURCES: [[usize; 4]; 4] = [[0, 0, 0, 0], [0, 1, 1, 0], [0, 1, 2, 0], [0, 1, 2, 3]];

/// Pads a block of `d` dimensions, of which the extent `e` exists: along each axis `a` becomes `a a a a`, `a
/// b` becomes `a b b a`, and `a b c` becomes `a b c a`.
///
/// `block` has `4^d` values, x fastest. Those that exist stay; those outside of `e` are not looked at.
#[tactic(auto, using(crate::proofs::Sources::padding))]
pub fn pad<T: Lane>(e: &Extent, d: u8, block: &mut [T])
    requires four_at_most { d ≤ 4 }
    requires extent { IsExtent d e.now }
    requires whole { length block.old ≡ 4 ^ d }
    ensures { map T.value block.new ≡ pad (used_axes d e.now.size) (map T.value block.old) }
{
    if is_whole(&e.size, d) {
        return;
    }
    // A source exists, so it is its own source, and its value still stands there.
    for place in 0..block_len(d) {
        block[place] = block[source_place(&e.size, place)];
    }
}

// Whether all places of a block of `d` dimensions exist.
pub(crate) fn is_whole(size: &Pos, d: u8) -> bool
    requires { d ≤ 4 }
    ensures { result ≡ true → used_axes d size.now ≡ fours d }
{
    match d {
        0 => true,
        1 => size.x == 4,
        2 => size.x == 4 && size.y == 4,
        3 => size.x == 4 && size.y == 4 && size.z == 4,
        _ => size.x == 4 && size.y == 4 && size.z == 4 && size.w == 4,
    }
}

// The place that a padded place is taken from, along each axis by the line's rule.
fn source_place(size: &Pos, place: usize) -> usize
    requires not_zero { AllByRecursion (λ n. 1 ≤ n) (axes size.now) }
    requires four_at_most { AllByRecursion (λ n. n ≤ 4) (axes size.now) }
    ensures { result ≡ source_place (axes size.now) place }
{
    let x = source(size.x, place % 4);
    let y = source(size.y, place / 4 % 4);
    let z = source(size.z, place / 16 % 4);
    let w = source(size.w, place / 64 % 4);
    x + 4 * (y + 4 * (z + 4 * w))
}

// Which of the `n` values of a line its value `i` is.
fn source(n: u64, i: usize) -> usize
    requires not_zero { 1 ≤ n }
    requires four_at_most { n ≤ 4 }
    requires in_line { i < 4 }
    ensures value { result ≡ slice_index_or (sources n) i 0 }
    ensures bound { result < 4 }
{
    SOURCES[(n - 1) as usize][i]
}
