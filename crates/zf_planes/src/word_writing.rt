//! The code of planes in one word each, whose bits are gathered before they are written.

ghost use Rattle.std.specs.Prelude.{◌≡◌, ◌+◌, ◌-◌, ◌*◌, ◌/◌, ◌^◌, ◌<◌, ◌≤◌, ◌⊎◌, true, false, min, max, ◌++◌, length, map, take, drop};
ghost use Rattle.zf_spec.specs.{Numbers.{field}, Planes.{plane_code, code_from, reach}};
ghost use Rattle.{zf_spec.specs.HeldPlanes.{planes_held}, zf_planes.specs.Sizes.{IsWordSize}};
ghost use Rattle.zf_planes.specs.{Writes.{Writes}, WordPlanes.{IsPlainCode, IsShortCode, AreBegun}};

use crate::doubling::{Part, join, put_behind, write_part, write_with};
use crate::entries::tail_code;
use crate::four_writing::code_of_two;
use crate::words::{first_word, reach_in};
use zf_bits::{BitWriter, Plane};

/// The code of a plane with no one at ranks that have had none above, of which there are some: its digits,
/// and a group bit of zero.
#[inline(always)]
fn plain_plane(n: u64, size: u64, digits: u64) -> Part
    requires size { IsWordSize size }
    requires in_plane { n < size }
    requires plain { digits / 2 ^ n ≡ 0 }
    ensures { IsPlainCode n size digits result.len result.bits }
{
    let len = n + 1;
    Part { bits: digits, len }
}

/// The code of a plane whose ones behind the ranks that have had one are among the next eight.
#[derive(Clone, Copy)]
struct ShortPlane {
    /// Its bits, of which the last two are missing where the last rank has a one.
    part: Part,
    /// How far its ones reach, and those above them.
    above: usize,
}

/// The code of such a plane, in which the ranks below `n` have had a one above.
#[inline(always)]
fn short_plane(n: usize, digits: u64) -> ShortPlane
    requires few { n ≤ 32 }
    requires digits { digits < 2 ^ 32 }
    requires short { digits / 2 ^ n < 256 }
    ensures { IsShortCode n digits result.part.len result.part.bits result.above }
{
    let tail = tail_code(digits >> n);
    ShortPlane {
        part: Part {
            bits: digits + (tail.more << n),
            len: n as u64 + tail.len,
        },
        above: n + tail.reach,
    }
}

/// The code of the first planes, which is not written yet.
#[derive(Clone, Copy)]
struct Begun {
    /// Its bits.
    part: Part,
    /// How far the ones of these planes reach.
    above: usize,
    /// The number of the plane that follows.
    next: usize,
}

/// The code of the planes in which the first three ranks alone have ones, from the one of number `from` on,
/// as far as it surely fits a word. Where values are smooth, these are many. The table of planes of four
/// digits knows them two at a time; once all three ranks have had a one, each is written as it is.
#[inline(always)]
#[tactic(auto, using(std::proofs::lemmas::Nat::le_or_l, std::proofs::lemmas::Nat::le_or_r))]
fn narrow_planes<P: Plane>(from: usize, prec: u32, size: usize, planes: &[P]) -> Begun
    requires some { 3 < size }
    requires size { size ≤ 64 }
    requires planes { prec ≤ length planes.now }
    requires from { from ≤ prec }
    ensures { AreBegun from prec (take prec (planes_held size (map P.words planes.now))) result.part.len
        result.part.bits result.above result.next }
{
    let mut part = Part { bits: 0, len: 0 };
    let mut above = 0;
    let mut i = from;
    while i + 1 < prec as usize && above < 3 && part.len <= 50 {
        let first = first_word(&planes[planes.len() - 1 - i], size);
        let second = first_word(&planes[planes.len() - 1 - (i + 1)], size);
        if first | second > 7 {
            break;
        }
        let two = code_of_two(above, first + 16 * second);
        part = join(part, two.part);
        above = two.above;
        i += 2;
    }
    while above == 3 && i < prec as usize && part.len <= 60 {
        let digits = first_word(&planes[planes.len() - 1 - i], size);
        if digits > 7 {
            break;
        }
        part = join(part, plain_plane(3, size as u64, digits));
        i += 1;
    }
    Begun {
        part,
        above,
        next: i,
    }
}

/// Appends the code of the top `prec` planes from the one of number `from` on, above which no rank has had a
/// one, as far as `left` bits reach. The answer is the bits that are left.
#[inline(always)]
#[tactic(auto, using(crate::proofs::Budgets::room_for))]
pub(crate) fn write_planes_of_word<P: Plane>(
    left: u64,
    from: usize,
    prec: u32,
    size: usize,
    planes: &[P],
    out: &mut BitWriter,
) -> u64
    requires some { 4 < size }
    requires size { size ≤ 64 }
    requires planes { prec ≤ length planes.now }
    requires from { from ≤ prec }
    requires fits { min left (length (code_from 0 (drop from
        (take prec (planes_held size (map P.words planes.now)))))) ≤ out.old.room }
    ensures { Writes left result out.old out.new (code_from 0
        (drop from (take prec (planes_held size (map P.words planes.now))))) }
{
    let begun = narrow_planes(from, prec, size, planes);
    let mut left = left;
    let mut part = begun.part;
    let mut above = begun.above;
    let mut i = begun.next;
    while i < prec as usize && left > part.len {
        let plane = &planes[planes.len() - 1 - i];
        let digits = first_word(plane, size);
        i += 1;
        let rest = digits >> above;
        if size <= 32 && rest < 256 {
            let plane = short_plane(above, digits);
            above = plane.above;
            if above == size {
                left = write_part(left, part, out);
                // The one of the last rank has no bit, and nothing follows it.
                part = Part {
                    bits: plane.part.bits,
                    len: plane.part.len - 2,
                };
                break;
            }
            left = put_behind(left, &mut part, plane.part, out);
        } else if rest == 0 {
            let more = plain_plane(above as u64, size as u64, digits);
            left = put_behind(left, &mut part, more, out);
        } else {
            left = write_with(left, &mut part, above as u64, size as u64, digits, out);
            let end = reach_in(plane, size);
            above = above.max(end);
            if above == size {
                break;
            }
        }
    }
    let mut left = write_part(left, part, out);
    // Once all ranks have had a one, planes are written as they are, as many at once as a word has room for.
    while i < prec as usize && left > 0 {
        let mut whole = Part { bits: 0, len: 0 };
        while i < prec as usize && whole.len + size as u64 <= 64 {
            let bits = first_word(&planes[planes.len() - 1 - i], size);
            let len = size as u64;
            whole = join(whole, Part { bits, len });
            i += 1;
        }
        left = write_part(left, whole, out);
    }
    left
}
