//! Planes of four digits in four lanes of one word.

ghost use Rattle.std.specs.Prelude.{◌≡◌, ◌%◌, ◌<◌, ◌≤◌, [], ◌∷◌};
ghost use Rattle.{zf_spec.specs.Numbers.{field}, zf_planes.specs.Fours.{string_planes}};
ghost use Rattle.zf_planes.specs.Lanes.{low_planes, lanes_in, lanes_apart, AreBelow, AreInSight, AreAtEnd, AreLoneInSight, AreTurned};
ghost use Rattle.zf_planes.specs.Lanes.{entry_digits, entry_len, entry_count, entry_reach};

use crate::entries::{
    count_of_lanes, digits_of_lanes, entry_of_lanes, len_of_lanes, reach_of_lanes,
};

/// The digits of a plane of four, each in a lane.
#[inline]
#[tactic(auto, using(crate::proofs::LaneTables::one_of_digits))]
pub(crate) fn lanes_of_4(digits: u64) -> u64
    requires digits { digits < 16 }
    ensures digits { low_planes 1 (lanes_in 4 result) ≡ field 4 digits ∷ [] }
    ensures below { AreBelow 1 (lanes_in 4 result) }
{
    // Four copies, the k-th 15 k places up, so that digit k of it is at the foot of lane k.
    digits * 0x2000_4000_8001 & 0x0001_0001_0001_0001
}

/// Four lanes of four bits, made lanes of sixteen.
#[inline(always)]
fn apart(lanes: u64) -> u64
    ensures { result ≡ lanes_apart lanes }
{
    lanes % 16
        + lanes / 16 % 16 * 65536
        + lanes / 256 % 16 * 4294967296
        + lanes / 4096 % 16 * 281474976710656
}

/// Some planes of four digits.
#[derive(Clone, Copy)]
pub(crate) struct PlanesInLanes {
    /// Their digits in four lanes of 16 bits, those of the last plane lowest.
    pub(crate) lanes: u64,
    /// How many planes there are.
    pub(crate) count: u32,
    /// How many bits their code has.
    pub(crate) len: u64,
    /// How far their ones reach, and those above them.
    pub(crate) above: usize,
    ghost within: { above ≤ 4 },
}

/// What an entry of the table says.
#[inline(always)]
fn planes_of_entry(entry: u32) -> PlanesInLanes
    requires { entry_reach entry ≤ 4 }
    ensures lanes { result.lanes ≡ lanes_apart (entry_digits entry) }
    ensures count { result.count ≡ entry_count entry }
    ensures len { result.len ≡ entry_len entry }
    ensures above { result.above ≡ entry_reach entry }
{
    PlanesInLanes {
        lanes: apart(digits_of_lanes(entry)),
        count: count_of_lanes(entry),
        len: len_of_lanes(entry),
        above: reach_of_lanes(entry) as usize,
    }
}

/// Planes whose code the next eight bits begin with, where the ranks below `n` have had a one above.
#[inline(always)]
pub(crate) fn planes_in_sight(n: usize, bits: u64) -> PlanesInLanes
    requires in_plane { n < 3 }
    requires bits { bits < 256 }
    ensures { AreInSight n bits result.count result.lanes result.len result.above }
{
    planes_of_entry(entry_of_lanes(n, bits))
}

/// Four planes whose digits these sixteen bits are, each in a lane.
#[inline(always)]
pub(crate) fn lanes_of_16(bits: u64) -> u64
    requires bits { bits < 65536 }
    ensures digits { low_planes 4 (lanes_in 4 result) ≡ string_planes 4 bits }
    ensures below { AreBelow 4 (lanes_in 4 result) }
{
    let one = lanes_of_4(bits % 16);
    let two = (one << 1) + lanes_of_4(bits / 16 % 16);
    let three = (two << 1) + lanes_of_4(bits / 256 % 16);
    (three << 1) + lanes_of_4(bits / 4096)
}

/// The planes that the last bits of a budget stand for, or the first of them, where the ranks below `n` have
/// had a one above.
#[inline(always)]
pub(crate) fn planes_at_end(n: usize, left: u64, bits: u64) -> PlanesInLanes
    requires in_plane { n < 3 }
    requires some { 0 < left }
    requires few { left < 8 }
    ensures { AreAtEnd n left bits result.count result.lanes result.len result.above }
{
    // As if zeros followed. With them a run that is cut reaches to the last rank, but it has a one where it
    // is cut: so the ones reach less far, a smaller entry. Where none is cut, the one more makes it greater.
    let first = 1 << left;
    let last = bits % first;
    let mut entry = entry_of_lanes(n, last);
    if reach_of_lanes(entry) > 3 {
        entry = entry.min(entry_of_lanes(n, first + last));
    }
    let found = planes_of_entry(entry);
    PlanesInLanes {
        lanes: found.lanes,
        count: found.count,
        len: found.len.min(left),
        above: found.above,
    }
}

/// Of the first twelve digits that stand two bits apart, the number in which the first one is the greatest.
#[inline(always)]
#[tactic(auto, using(crate::proofs::TurnedPairs::are_turned))]
fn turned_pairs(bits: u64) -> u64
    ensures { AreTurned bits result }
{
    let two_apart = bits & 0x0055_5555;
    let in_halves = (two_apart << 1 | two_apart >> 2) & 0x0033_3333;
    let in_bytes = (in_halves << 2 | in_halves >> 4) & 0x000f_0f0f;
    // Three copies, so that behind their lowest sixteen bits the first byte is the highest.
    (in_bytes * 0x0100_1001 >> 16) % 4096
}

/// The planes in which the first rank alone has ones, at most twelve, whose code these bits begin with, as
/// far as `count` bits are in sight. Behind the first group bit each has its digit, and a group bit of zero.
#[inline(always)]
#[tactic(auto, using(crate::proofs::TurnedPairs::groups_zero))]
pub(crate) fn lone_in_sight(most: u32, bits: u64, count: u64) -> PlanesInLanes
    requires some { 0 < most }
    requires there { 3 ≤ count }
    requires first { bits % 8 ≡ 3 }
    ensures { AreLoneInSight most bits count result.count result.lanes result.len result.above }
{
    // The group bits of eleven planes behind the first one, and then a one.
    let groups = (bits >> 3) & 0x002a_aaaa | 0x0040_0000;
    let zeros = u64::from(groups.trailing_zeros() / 2);
    let more = zeros.min(u64::from(most) - 1).min((count - 3) / 2);
    PlanesInLanes {
        lanes: turned_pairs(bits >> 1) >> (11 - more),
        count: 1 + more as u32,
        len: 3 + 2 * more,
        above: 1,
    }
}
