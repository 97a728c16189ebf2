//! Writing the code of planes.

ghost use Rattle.std.specs.Prelude.{◌≡◌, ◌+◌, ◌-◌, ◌*◌, ◌<◌, ◌≤◌, ◌⊎◌, min, true, false, [], ◌∷◌, ◌++◌, length, map, take, drop, replicate};
ghost use Rattle.zf_spec.specs.{Grid.{IsBlockSize}, Planes.{plane_code, tail, code, reach}};
ghost use Rattle.{zf_spec.specs.HeldPlanes.{digits_held, planes_held}, zf_bits.specs.Writer.{Appends}};
ghost use Rattle.zf_planes.specs.Writes.{Writes};

use crate::word_writing::write_planes_of_word;
use crate::words::{reach_in, zeros_from};
use zf_bits::{BitWriter, Plane};

/// Appends the digits of the ranks from `from` on and below `to` as they are, as far as `left` bits reach.
/// The answer is the bits that are left.
#[tactic(auto, using(crate::proofs::Lengths::plane_lengths))]
fn write_digits<P: Plane>(left: u64, from: usize, to: usize, plane: &P, out: &mut BitWriter) -> u64
    requires order { from ≤ to }
    requires words { to ≤ 64 * P.word_count }
    requires fits { min left (to - from) ≤ out.old.room }
    ensures bits { Appends out.old out.new (take left (drop from (digits_held to (P.words plane.now)))) }
    ensures left { result ≡ left - (to - from) }
{
    let count = left.min((to - from) as u64);
    let end = from + count as usize;
    let mut at = from;
    while at < end {
        // As many as one word has.
        let n = (64 - at % 64).min(end - at);
        out.write_reserved(plane.word(at / 64) >> (at % 64), n as u32);
        at += n;
    }
    left - count
}

/// Appends a group bit of one and a run of at most `most` digits, whose one comes behind so many zeros.
#[inline]
#[tactic(auto, using(crate::proofs::Zeros::run_field, crate::proofs::Zeros::take_both))]
fn write_group(left: u64, zeros: u32, most: usize, out: &mut BitWriter) -> u64
    requires in_word { zeros < 63 }
    requires fits { min left (min (zeros + 2) most) ≤ out.old.room }
    ensures bits { Appends out.old out.new (take left
        (take (min (zeros + 2) most) (true ∷ (replicate zeros false ++ true ∷ [])))) }
    ensures left { result ≡ left - min (zeros + 2) most }
{
    // The one of the last digit is implied.
    let count = left.min((zeros as usize + 2).min(most) as u64);
    out.write_reserved(1 | 1 << (zeros + 1), count as u32);
    left - count
}

/// Appends the tail of a plane from rank `from` on: for each one a group bit and the run that leads to it,
/// and a group bit that says that no one follows.
fn write_tail<P: Plane>(
    left: u64,
    from: usize,
    size: usize,
    end: usize,
    plane: &P,
    out: &mut BitWriter,
) -> u64
    requires words { size ≤ 64 * P.word_count }
    requires in_plane { from ≤ size }
    requires end { end ≡ reach (digits_held size (P.words plane.now)) }
    requires fits { min left (length (tail (drop from (digits_held size (P.words plane.now)))))
        ≤ out.old.room }
    ensures { Writes left result out.old out.new (tail (drop from (digits_held size (P.words plane.now)))) }
{
    let mut left = left;
    let mut n = from;
    while n < size && left > 0 {
        if n >= end {
            out.write_bit_reserved(false);
            return left - 1;
        }
        let zeros = (plane.word(n / 64) >> (n % 64)).trailing_zeros();
        if zeros < 63 {
            left = write_group(left, zeros, size - n, out);
            n += zeros as usize + 1;
        } else {
            out.write_bit_reserved(true);
            // The one of the last rank is implied: its run stops before it.
            let next = n + zeros_from(plane, n, size) + 1;
            left = write_digits(left - 1, n, next.min(size - 1), plane, out);
            n = next;
        }
    }
    left
}

/// Appends the code of a plane in which the ranks below `n` have had a one above, and whose own ones end
/// before rank `end`.
#[inline(always)]
fn write_plane<P: Plane>(
    left: u64,
    n: usize,
    size: usize,
    end: usize,
    plane: &P,
    out: &mut BitWriter,
) -> u64
    requires words { size ≤ 64 * P.word_count }
    requires in_plane { n ≤ size }
    requires end { end ≡ reach (digits_held size (P.words plane.now)) }
    requires fits { min left (length (plane_code n (digits_held size (P.words plane.now)))) ≤ out.old.room }
    ensures { Writes left result out.old out.new (plane_code n (digits_held size (P.words plane.now))) }
{
    let left = write_digits(left, 0, n, plane, out);
    write_tail(left, n, size, end, plane, out)
}

/// Appends the code of the top `prec` planes, or its first `budget` bits where it is longer. The answer is
/// the number of bits appended. The top `zeros` planes, which may be 0, are known to have no one.
pub fn write_planes_below<P: Plane>(
    zeros: u32,
    budget: u64,
    prec: u32,
    size: usize,
    planes: &[P],
    out: &mut BitWriter,
) -> u64
    requires words { size ≤ 64 * P.word_count }
    requires planes { prec ≤ length planes.now }
    requires fits { min budget (size * prec + size) ≤ out.old.room }
    requires within { zeros ≤ prec }
    requires in_word { zeros ≤ 64 }
    requires some { (zeros ≡ 0) ⊎ (0 < size) }
    requires zeros { take zeros (planes_held size (map P.words planes.now))
        ≡ replicate zeros (replicate size false) }
    ensures bits { Appends out.old out.new (take budget
        (code (take prec (planes_held size (map P.words planes.now))))) }
    ensures count { result ≡ min budget (length (code
        (take prec (planes_held size (map P.words planes.now))))) }
{
    let count = budget.min(u64::from(zeros));
    out.write_zeros_reserved(count);
    let mut left = budget - count;
    // A size that is known makes its own program, without the others' steps.
    if size == 16 {
        return budget - write_planes_of_word(left, zeros as usize, prec, size, planes, out);
    }
    if size == 64 {
        return budget - write_planes_of_word(left, zeros as usize, prec, size, planes, out);
    }
    let mut above = 0;
    let mut i = zeros as usize;
    while i < prec as usize && left > 0 {
        let plane = &planes[planes.len() - 1 - i];
        let end = reach_in(plane, size);
        left = write_plane(left, above, size, end, plane, out);
        above = above.max(end);
        i += 1;
    }
    budget - left
}

/// [`write_planes_below`] of planes in four words each, of which none is known to have no one.
pub fn encode(budget: u64, prec: u32, size: usize, planes: &[[u64; 4]], out: &mut BitWriter) -> u64
    requires size { IsBlockSize size }
    requires planes { prec ≤ length planes.now }
    requires fits { min budget (size * prec + size) ≤ out.old.room }
    ensures bits { Appends out.old out.new (take budget (code (take prec (planes_held size planes.now)))) }
    ensures count { result ≡ min budget (length (code (take prec (planes_held size planes.now)))) }
{
    write_planes_below(0, budget, prec, size, planes, out)
}
