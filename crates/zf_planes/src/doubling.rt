//! The code of planes in one word: the digits of a run are doubled, eight at a time, by a table.

ghost use Rattle.std.specs.Prelude.{◌≡◌, ◌+◌, ◌-◌, ◌*◌, ◌/◌, ◌^◌, ◌<◌, ◌≤◌, min, ◌++◌, length, take};
ghost use Rattle.zf_spec.specs.{Numbers.{field}, Planes.{code_from_run, plane_code}};
ghost use Rattle.{zf_bits.specs.Writer.{Appends}, zf_planes.specs.{Doubled.{doubled}, Writes.{LeavesPart}}};

use crate::entries::{doubled_entry, tail_code};
use zf_bits::BitWriter;

/// Bits of a code.
#[derive(Clone, Copy)]
pub(crate) struct Part {
    /// The bits, the first one lowest.
    pub(crate) bits: u64,
    /// How many bits there are.
    pub(crate) len: u64,
}

/// Eight digits, each one doubled.
#[inline]
#[tactic(auto, using(crate::proofs::Doubled::double_of_entry))]
fn double(digits: u64) -> Part
    requires { digits < 256 }
    ensures bits { field result.len result.bits ≡ doubled (field 8 digits) }
    ensures small { result.bits < 2 ^ result.len }
    ensures len { result.len ≤ 16 }
{
    let entry = doubled_entry(digits);
    let bits = entry.bits;
    let len = entry.len;
    Part { bits, len }
}

/// The code of a run of so many digits, of which only the first eight have ones.
#[inline]
fn short_run(most: u64, digits: u64) -> Part
    requires some { 0 < digits }
    requires eight { digits < 256 }
    requires in_word { most ≤ 64 }
    requires within { digits < 2 ^ most }
    ensures bits { field result.len result.bits ≡ code_from_run (field most digits) }
    ensures small { result.bits < 2 ^ result.len }
    ensures len { result.len ≤ 16 }
{
    let tail = tail_code(digits);
    // The one of the last digit has no bit, and nothing follows it.
    let implied = if tail.reach as u64 == most { 2 } else { 0 };
    // The tail is the run behind a group bit.
    let len = tail.len - 1 - implied;
    let bits = (digits + tail.more) / 2;
    Part {
        bits: bits % (1 << len),
        len,
    }
}

/// Bits behind others.
#[inline]
#[tactic(auto, using(crate::proofs::Gathering::bits_behind, crate::proofs::Gathering::small_behind))]
pub(crate) fn join(prefix: Part, back: Part) -> Part
    requires some_left { prefix.len < 64 }
    requires within { prefix.len + back.len ≤ 64 }
    requires small { prefix.bits < 2 ^ prefix.len }
    ensures bits { field result.len result.bits ≡ field prefix.len prefix.bits ++ field back.len back.bits }
    ensures small { back.bits < 2 ^ back.len → result.bits < 2 ^ result.len }
    ensures len { result.len ≡ prefix.len + back.len }
{
    let bits = prefix.bits | back.bits << prefix.len;
    let len = prefix.len + back.len;
    Part { bits, len }
}

/// Appends bits, as far as `left` bits reach. The answer is the bits that are left.
#[inline]
pub(crate) fn write_part(left: u64, part: Part, out: &mut BitWriter) -> u64
    requires in_word { min left part.len ≤ 64 }
    requires fits { min left part.len ≤ out.old.room }
    ensures bits { Appends out.old out.new (take left (field part.len part.bits)) }
    ensures left { result ≡ left - part.len }
{
    let count = left.min(part.len);
    out.write_reserved(part.bits, count as u32);
    left - count
}

/// Appends bits, as far as `left` bits reach, where a word has no room for so many more behind them. The
/// answer is the bits that are left.
#[inline(always)]
pub(crate) fn make_room(left: u64, more: u64, part: &mut Part, out: &mut BitWriter) -> u64
    requires more { more ≤ 64 }
    requires in_word { part.old.len ≤ 64 }
    requires small { part.old.bits < 2 ^ part.old.len }
    requires fits { min left part.old.len ≤ out.old.room }
    ensures bits { LeavesPart left result out.old out.new (field part.old.len part.old.bits) part.new.len
        part.new.bits }
    ensures room { part.new.len + more ≤ 64 }
{
    if part.len <= 64 - more {
        return left;
    }
    let left = write_part(left, *part, out);
    *part = Part { bits: 0, len: 0 };
    left
}

/// Puts more bits behind others, which are appended before where a word has no room for all, as far as `left`
/// bits reach. The answer is the bits that are left.
#[inline(always)]
pub(crate) fn put_behind(left: u64, part: &mut Part, more: Part, out: &mut BitWriter) -> u64
    requires some { 0 < more.len }
    requires in_word { part.old.len ≤ 64 }
    requires more { more.len ≤ 64 }
    requires small { part.old.bits < 2 ^ part.old.len }
    requires small_more { more.bits < 2 ^ more.len }
    requires fits { min left (part.old.len + more.len) ≤ out.old.room }
    ensures { LeavesPart left result out.old out.new (field part.old.len part.old.bits
        ++ field more.len more.bits) part.new.len part.new.bits }
{
    if part.len + more.len <= 64 {
        *part = join(*part, more);
        return left;
    }
    let left = write_part(left, *part, out);
    *part = more;
    left
}

/// Puts the code of a run of so many digits behind bits, and appends them where a word has no room for more,
/// as far as `left` bits reach. The answer is the bits that are left.
#[inline(always)]
fn write_run(left: u64, part: &mut Part, most: u64, digits: u64, out: &mut BitWriter) -> u64
    requires some { 0 < digits }
    requires in_word { most ≤ 64 }
    requires within { digits < 2 ^ most }
    requires few { part.old.len ≤ 40 }
    requires small { part.old.bits < 2 ^ part.old.len }
    requires fits { min left (part.old.len + length (code_from_run (field most digits))) ≤ out.old.room }
    ensures { LeavesPart left result out.old out.new (field part.old.len part.old.bits
        ++ code_from_run (field most digits)) part.new.len part.new.bits }
{
    let mut left = left;
    let mut pending = *part;
    let mut most = most;
    let mut digits = digits;
    while digits > 255 {
        pending = join(pending, double(digits % 256));
        digits /= 256;
        most -= 8;
        // For eight digits more, and the rest.
        left = make_room(left, 24, &mut pending, out);
    }
    *part = join(pending, short_run(most, digits));
    left
}

/// [`write_run`] of the whole code of a plane of up to 64 digits, in which the ranks below `n` have had a one
/// above and a later one has its first.
#[inline(always)]
pub(crate) fn write_with(
    left: u64,
    part: &mut Part,
    n: u64,
    size: u64,
    digits: u64,
    out: &mut BitWriter,
) -> u64
    requires size { size ≤ 64 }
    requires in_plane { n < size }
    requires digits { digits < 2 ^ size }
    requires some { 0 < digits / 2 ^ n }
    requires in_word { part.old.len ≤ 64 }
    requires small { part.old.bits < 2 ^ part.old.len }
    requires fits { min left (part.old.len + length (plane_code n (field size digits))) ≤ out.old.room }
    ensures { LeavesPart left result out.old out.new (field part.old.len part.old.bits
        ++ plane_code n (field size digits)) part.new.len part.new.bits }
{
    let group = Part { bits: 1, len: 1 };
    let bits = digits % (1 << n);
    let prefix = Part { bits, len: n };
    let rest = digits >> n;
    let left = make_room(left, n + 1, part, out);
    *part = join(*part, prefix);
    // For the group bit too.
    let left = make_room(left, 25, part, out);
    *part = join(*part, group);
    write_run(left, part, size - n, rest, out)
}
