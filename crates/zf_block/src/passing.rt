//! Passing the code of planes, of which no digit is kept: how many of them are whole.

ghost use Rattle.std.specs.Prelude.{◌≡◌, ◌+◌, ◌*◌, ◌<◌, ◌≤◌, ◌%◌, max, length, take, drop};
ghost use Rattle.std.specs.Prelude.{IsTrue, IfNone, IfSome};
ghost use Rattle.zf_spec.specs.Planes.{reach, plane_code, code};
ghost use Rattle.zf_spec.specs.ReadPlanes.{plane_in, planes_in};
ghost use Rattle.zf_block.specs.Passing.{HasNext, run_len, run_reach, tail_len, tail_reach, Along, Passes};

use crate::ahead::Ahead;

/// Passes the zeros of a run in `most` digits, and its one; that of the last digit has no bit. The answer is
/// how many digits are left behind it. `None`: the code is not whole.
#[cold]
#[inline(never)]
fn pass_run(most: usize, ahead: &mut Ahead<'_>) -> Option<usize>
    requires some { 0 < most }
    ensures short { IfNone result (length ahead.old < run_len most ahead.old) }
    ensures fewer { IfSome result (λ k. k < most) }
    ensures passed { IfSome result
        (λ k. Along (run_len most ahead.old) (run_reach most ahead.old) most ahead.old
        (tail_len k ahead.new) (tail_reach k ahead.new) k ahead.new) }
{
    let mut m = most;
    while m > 1 {
        let there = ahead.left().min(m as u64 - 1).min(64);
        if there == 0 {
            return None;
        }
        let zeros = u64::from(ahead.peek().trailing_zeros()).min(there);
        if zeros < there {
            ahead.skip(zeros + 1);
            return Some(m - zeros as usize - 1);
        }
        ahead.skip(zeros);
        m -= zeros as usize;
    }
    Some(0)
}

/// Passes a group bit of one and its run in `most` digits, where these bits are next.
#[inline]
fn pass_group(most: usize, next: u64, ahead: &mut Ahead<'_>) -> Option<usize>
    requires some { 0 < most }
    requires there { 0 < length ahead.old }
    requires next { HasNext next ahead.old }
    requires one { next % 2 ≡ 1 }
    ensures short { IfNone result (length ahead.old < tail_len most ahead.old) }
    ensures fewer { IfSome result (λ k. k < most) }
    ensures passed { IfSome result
        (λ k. Along (tail_len most ahead.old) (tail_reach most ahead.old) most ahead.old
        (tail_len k ahead.new) (tail_reach k ahead.new) k ahead.new) }
{
    let zeros = ((next >> 1).trailing_zeros() as usize).min(most - 1);
    // The one of the last digit has no bit.
    let bits = (zeros + 2).min(most) as u64;
    if bits <= ahead.left().min(64) {
        ahead.skip(bits);
        return Some(most - zeros - 1);
    }
    ahead.skip(1);
    pass_run(most, ahead)
}

/// Passes the tail of a plane, of `most` digits. The answer is how many of them are left behind the last one.
/// `None`: it is not whole.
#[inline]
fn pass_tail(most: usize, ahead: &mut Ahead<'_>) -> Option<usize>
    ensures short { IfNone result (length ahead.old < tail_len most ahead.old) }
    ensures passed { IfSome result
        (Passes (tail_len most ahead.old) (tail_reach most ahead.old) most ahead.old ahead.new) }
{
    let mut m = most;
    while m > 0 {
        if ahead.left() == 0 {
            return None;
        }
        let next = ahead.peek();
        if next % 2 == 0 {
            ahead.skip(1);
            return Some(m);
        }
        m = pass_group(m, next, ahead)?;
    }
    Some(0)
}

/// Passes the code of a plane in which the ranks below `n` have had a one above. The answer is how far its
/// ones reach, and those above it. `None`: it is not whole.
#[inline]
fn pass_plane(n: usize, size: usize, ahead: &mut Ahead<'_>) -> Option<usize>
    requires in_plane { n ≤ size }
    ensures short { IfNone result (length ahead.old < length (plane_code n (plane_in size n ahead.old))) }
    ensures fits { IfSome result
        (λ above. length (plane_code n (plane_in size n ahead.old)) ≤ length ahead.old) }
    ensures passed { IfSome result
        (λ above. ahead.new ≡ drop (length (plane_code n (plane_in size n ahead.old))) ahead.old) }
    ensures reached { IfSome result (λ above. above ≡ max n (reach (plane_in size n ahead.old))) }
    ensures within { IfSome result (λ above. above ≤ size) }
{
    if ahead.left() < n as u64 {
        return None;
    }
    ahead.skip(n as u64);
    let behind = pass_tail(size - n, ahead)?;
    Some(size - behind)
}

/// How many of the top `most` planes have their codes among these bits whole, each behind those above it.
///
/// A code of zeros is passed at once, and no more is passed than tells that all of these planes are whole.
pub(crate) fn planes_there(most: u32, size: usize, ahead: &mut Ahead<'_>) -> u32
    requires some { 0 < size }
    requires size { size ≤ 256 }
    requires planes { most ≤ 64 }
    ensures most { result ≤ most }
    ensures within { length (code (take result (planes_in most size ahead.old))) ≤ length ahead.old }
    ensures no_more { result < most
        → length ahead.old < length (code (take (result + 1) (planes_in most size ahead.old))) }
{
    // Planes of zeros at the top have a bit each.
    let zeros = ahead.peek().trailing_zeros().min(most);
    let zeros = u64::from(zeros).min(ahead.left()) as u32;
    ahead.skip(u64::from(zeros));
    let mut above = 0;
    for i in zeros..most {
        if is_enough(most - i, size, above, ahead.left()) {
            return most;
        }
        let Some(reached) = pass_plane(above, size, ahead) else {
            return i;
        };
        above = reached;
    }
    most
}

/// Whether so many bits are enough for the code of any `count` planes, in which the ranks below `n` have had
/// a one above: each takes a bit for each rank, and each rank a group bit at its first one.
#[inline]
fn is_enough(count: u32, size: usize, n: usize, bits: u64) -> bool
    requires planes { count ≤ 64 }
    requires size { size ≤ 256 }
    requires in_plane { n ≤ size }
    ensures { IsTrue result → size * count + size ≤ bits + n }
{
    size as u64 * u64::from(count) + (size - n) as u64 <= bits
}
