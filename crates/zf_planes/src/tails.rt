//! Planes in one word by the bits of their code: the digits behind those that have had a one above come from
//! a table.

ghost use Rattle.std.specs.Prelude.{◌≡◌, ◌+◌, ◌-◌, ◌*◌, ◌/◌, ◌%◌, ◌^◌, ◌<◌, ◌≤◌};
ghost use Rattle.zf_planes.specs.{WordPlanes.{IsReadAs}, Sizes.{IsWordSize}};

use crate::entries::tail_entry;

/// A plane in one word.
#[derive(Clone, Copy)]
pub(crate) struct PlaneOfWord {
    /// Its digits, that of rank 0 lowest.
    pub(crate) digits: u64,
    /// How many bits its code has.
    pub(crate) len: u64,
    /// How far its ones reach, and those above them.
    pub(crate) above: usize,
}

/// The plane whose code these bits begin with, where all ranks have had a one above.
#[inline(always)]
pub(crate) fn plane_of_all(size: usize, bits: u64) -> PlaneOfWord
    requires size { IsWordSize size }
    ensures read { IsReadAs size size bits result.digits result.len result.above }
    ensures len { result.len ≡ size }
{
    PlaneOfWord {
        digits: bits & u64::MAX >> (64 - size),
        len: size as u64,
        above: size,
    }
}

/// The plane whose code these bits begin with, where the ranks below `n` have had a one above and the group
/// bit behind them is zero.
#[inline(always)]
pub(crate) fn plane_without(n: usize, size: usize, bits: u64) -> PlaneOfWord
    requires in_plane { n < size }
    requires in_word { n < 64 }
    requires none { bits / 2 ^ n % 2 ≡ 0 }
    ensures read { IsReadAs n size bits result.digits result.len result.above }
    ensures len { result.len ≡ n + 1 }
    ensures above { result.above ≡ n }
{
    PlaneOfWord {
        digits: bits % (1 << n),
        len: n as u64 + 1,
        above: n,
    }
}

/// The plane whose code these bits begin with, where the ranks below `n` have had a one above, if the group
/// bit behind them is one. The code has more than 64 bits where the table doesn't know the plane.
#[inline(always)]
pub(crate) fn plane_with(n: usize, size: usize, bits: u64) -> PlaneOfWord
    requires in_plane { n < size }
    requires size { size ≤ 64 }
    ensures read { result.len ≤ 64 → bits / 2 ^ n % 2 ≡ 1
        → IsReadAs n size bits result.digits result.len result.above }
    ensures group { n < result.len }
{
    let tail = tail_entry(size - n, (bits >> n) / 2 % 256);
    PlaneOfWord {
        digits: bits % (1 << n) | tail.digits << n,
        len: n as u64 + tail.len,
        above: n + tail.reach,
    }
}

/// [`plane_with`] by two looks: where one isn't enough, the entry tells how a run begins, and what follows is
/// as behind a group bit. It stands apart, so that most planes keep the registers.
#[inline(never)]
pub(crate) fn plane_with_two(n: usize, size: usize, bits: u64) -> PlaneOfWord
    requires in_plane { n < size }
    requires size { size ≤ 64 }
    ensures read { result.len ≤ 64 → bits / 2 ^ n % 2 ≡ 1
        → IsReadAs n size bits result.digits result.len result.above }
    ensures group { n < result.len }
{
    let behind = (bits >> n) / 2;
    let run = tail_entry(size - n, behind % 256);
    if run.len <= 64 {
        return plane_with(n, size, bits);
    }
    let above = n + run.reach;
    let taken = run.len - 96;
    let next = tail_entry(size - above, (behind >> taken) % 256);
    PlaneOfWord {
        digits: bits % (1 << n) | run.digits << n | next.digits << above,
        len: n as u64 + taken + next.len,
        above: above + next.reach,
    }
}

/// The plane whose code these bits begin with, where the ranks below `n` have had a one above. The code has
/// more than 64 bits where the table doesn't know the plane.
#[inline(always)]
pub(crate) fn plane_at(n: usize, size: usize, bits: u64) -> PlaneOfWord
    requires size { IsWordSize size }
    requires in_plane { n ≤ size }
    ensures read { result.len ≤ 64 → IsReadAs n size bits result.digits result.len result.above }
    ensures some { 0 < result.len }
{
    if n == size {
        return plane_of_all(size, bits);
    }
    if (bits >> n) % 2 == 0 {
        return plane_without(n, size, bits);
    }
    plane_with(n, size, bits)
}
