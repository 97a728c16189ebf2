//! How long the code of planes is.

ghost use Rattle.std.specs.Prelude.{◌≡◌, ◌+◌, ◌*◌, ◌<◌, ◌≤◌, length, map, take};
ghost use Rattle.zf_spec.specs.{Grid.{IsBlockSize}, Planes.{reach, plane_code, code}};
ghost use Rattle.zf_spec.specs.HeldPlanes.{digits_held, planes_held};

use crate::words::{ones_from, reach_in};
use zf_bits::Plane;

/// The length of the code of a plane in which the ranks below `n` have had a one above, and whose own ones
/// end before rank `end`.
#[tactic(auto, using(crate::proofs::Lengths::plane_lengths))]
fn plane_len<P: Plane>(n: usize, size: usize, end: usize, plane: &P) -> usize
    requires words { size ≤ 64 * P.word_count }
    requires in_plane { n ≤ size }
    requires end { end ≡ reach (digits_held size (P.words plane.now)) }
    ensures { result ≡ length (plane_code n (digits_held size (P.words plane.now))) }
{
    // Each one has a group bit before its run, and the runs are all digits up to the last one.
    let runs = ones_from(plane, n, size) + end.saturating_sub(n);
    if end.max(n) < size {
        // A group bit says that no one follows.
        n + runs + 1
    } else {
        // The one of the last rank is implied.
        n + runs.saturating_sub(1)
    }
}

/// The number of bits of the code of the top `prec` planes without a budget.
pub fn planes_len<P: Plane>(prec: u32, size: usize, planes: &[P]) -> u64
    requires words { size ≤ 64 * P.word_count }
    requires planes { prec ≤ length planes.now }
    ensures count { result ≡ length (code (take prec (planes_held size (map P.words planes.now)))) }
    ensures most { result ≤ size * prec + size }
{
    let mut len = 0;
    let mut above = 0;
    for i in 0..prec as usize {
        let plane = &planes[planes.len() - 1 - i];
        let end = reach_in(plane, size);
        len += plane_len(above, size, end, plane) as u64;
        above = above.max(end);
    }
    len
}

/// [`planes_len`] of planes in four words each.
pub fn code_len(prec: u32, size: usize, planes: &[[u64; 4]]) -> u64
    requires size { IsBlockSize size }
    requires planes { prec ≤ length planes.now }
    ensures count { result ≡ length (code (take prec (planes_held size planes.now))) }
    ensures most { result ≤ size * prec + size }
{
    planes_len(prec, size, planes)
}

/// How many planes from the top one down have codes of at most `budget` bits together, each plane whole.
pub fn planes_within<P: Plane>(budget: u64, size: usize, planes: &[P]) -> u32
    requires words { size ≤ 64 * P.word_count }
    requires planes { length planes.now ≤ 64 }
    ensures most { result ≤ length planes.now }
    ensures within { length (code (take result (planes_held size (map P.words planes.now)))) ≤ budget }
    ensures no_more { result < length planes.now
        → budget < length (code (take (result + 1) (planes_held size (map P.words planes.now)))) }
{
    let mut left = budget;
    let mut above = 0;
    for i in 0..planes.len() {
        let plane = &planes[planes.len() - 1 - i];
        let end = reach_in(plane, size);
        let len = plane_len(above, size, end, plane) as u64;
        if left < len {
            return i as u32;
        }
        left -= len;
        above = above.max(end);
    }
    planes.len() as u32
}
