//! Writing the code of planes of four digits from the digits themselves.

ghost use Rattle.std.specs.Prelude.{◌≡◌, ◌+◌, ◌-◌, ◌*◌, ◌/◌, ◌%◌, ◌^◌, ◌<◌, ◌≤◌, min, max, true, false, ◌∷◌, ◌++◌, length, map, take, replicate, slice_index_or};
ghost use Rattle.zf_spec.specs.{Numbers.{field, is_odd}, Grid.{upto}};
ghost use Rattle.zf_spec.specs.Planes.{planes_of, plane_code, code, code_from, reach, reach_of_all};
ghost use Rattle.{zf_bits.specs.Writer.{Appends}, zf_planes.specs.Writes.{Writes}};
ghost use Rattle.zf_planes.specs.Fours.{string_planes, IsAsGood, IsCodeOfTwo, GoesOnBehind, LeavesPlanes};
ghost use Rattle.zf_planes.specs.Spread.{top_digit, top_planes, spread, lone_code, AreLoneAtTop};

use crate::doubling::{Part, join, make_room, write_part};
use crate::entries::{entry_of_pair, spread_entry};
use zf_bits::BitWriter;

/// The code of planes.
#[derive(Clone, Copy)]
pub(crate) struct PlanesCode {
    /// Its bits.
    pub(crate) part: Part,
    /// How far the ones of the planes reach, and of those above them.
    pub(crate) above: usize,
    ghost within: { above ≤ 4 },
}

/// The top sixteen digits of a word four bits apart, the greatest one lowest.
#[inline(always)]
fn spread_top(word: u64) -> u64
    ensures digits { result ≡ spread 16 16 (top_digit word) }
    ensures small { result ≤ 1229782938247303441 }
{
    let prefix = spread_entry(word >> 56);
    let back = spread_entry((word >> 48) % 256);
    u64::from(prefix) + (u64::from(back) << 32)
}

/// The top sixteen planes of four words as one number, four bits each, the greatest plane lowest.
#[inline(always)]
#[tactic(auto, using(crate::proofs::TopPlanes::string_of_words))]
fn string_of(words: &[u64; 4]) -> u64
    ensures { string_planes 16 result ≡ top_planes 16 words.now }
{
    spread_top(words[0])
        + 2 * spread_top(words[1])
        + 4 * spread_top(words[2])
        + 8 * spread_top(words[3])
}

/// Eight digits of a byte two bits apart, the greatest one lowest: those four apart are pushed together.
#[inline(always)]
fn pairs_of_byte(byte: u64) -> u64
    requires byte { byte < 256 }
    ensures digits { result ≡ spread 4 8 (λ i. is_odd (byte / 2 ^ (7 - i))) }
    ensures small { result ≤ 21845 }
{
    let four_apart = u64::from(spread_entry(byte));
    let in_bytes = (four_apart | four_apart >> 2) & 0x0505_0505;
    let in_halves = (in_bytes | in_bytes >> 4) & 0x0055_0055;
    (in_halves | in_halves >> 8) & 0x5555
}

/// The top sixteen digits of a word two bits apart, the greatest one lowest.
#[inline(always)]
fn pairs_of_top(word: u64) -> u64
    ensures digits { result ≡ spread 4 16 (top_digit word) }
    ensures small { result < 4294967296 }
{
    pairs_of_byte(word >> 56) + (pairs_of_byte((word >> 48) % 256) << 16)
}

/// In how many planes from the top on, at most sixteen, the first rank alone has ones, if it has one in the
/// first of them.
#[inline(always)]
#[tactic(auto, using(crate::proofs::TopPlanes::no_top_planes))]
fn count_of_lone(planes: u32, words: &[u64; 4]) -> u32
    ensures { AreLoneAtTop planes words.now result }
{
    let [first, second, third, fourth] = *words;
    if first >> 63 == 0 {
        return 0;
    }
    let others = second | third | fourth;
    others.leading_zeros().min(planes).min(16)
}

/// The code of such planes, of which the first rank has these digits.
#[inline(always)]
fn code_of_lone(planes: u32, word: u64) -> Part
    requires some { 0 < planes }
    requires few { planes ≤ 16 }
    requires first { top_digit word 0 ≡ true }
    ensures bits { field result.len result.bits ≡ true ∷ lone_code (map (top_digit word) (upto planes)) }
    ensures small { result.bits < 2 ^ result.len }
    ensures len { result.len ≤ 33 }
{
    let len = 1 + 2 * u64::from(planes);
    let bits = (1 + 2 * pairs_of_top(word)) % (1 << len);
    Part { bits, len }
}

/// Four words without their top `count` digits.
#[inline(always)]
fn below_top(count: u32, words: &[u64; 4]) -> [u64; 4]
    requires { count < 64 }
    ensures { result ≡ map (λ word. word * 2 ^ count % 2 ^ 64) words.now }
{
    [
        words[0] << count,
        words[1] << count,
        words[2] << count,
        words[3] << count,
    ]
}

/// The code of the first two planes of a string, where the ranks below `n` have had a one above.
#[inline(always)]
pub(crate) fn code_of_two(n: usize, string: u64) -> PlanesCode
    requires in_plane { n < 3 }
    ensures { IsCodeOfTwo n string result.part.len result.part.bits result.above }
{
    let entry = entry_of_pair(n, string % 256);
    let bits = u64::from(entry % (1 << 14));
    let len = u64::from((entry >> 14) % (1 << 4));
    let part = Part { bits, len };
    let above = (entry >> 18) as usize;
    PlanesCode { part, above }
}

/// The code of the next two planes of a string, or of its last one, where the ranks below `n` have had a one
/// above.
#[inline(always)]
fn code_of_next(n: usize, planes: u32, string: u64) -> PlanesCode
    requires in_plane { n < 3 }
    requires some { 0 < planes }
    ensures { GoesOnBehind n (string_planes planes string) result.part.len result.part.bits result.above
        (string_planes (planes - 2) (string / 256)) }
{
    if planes > 1 {
        return code_of_two(n, string);
    }
    // Without the code of a plane of zeros behind it: a digit for each rank that has had a one, and a group
    // bit where ranks are left.
    let two = code_of_two(n, string % 16);
    let zeros = (two.above as u64 + 1).min(4);
    let bits = two.part.bits;
    let len = two.part.len - zeros;
    let part = Part { bits, len };
    let above = two.above;
    PlanesCode { part, above }
}

/// Puts the code of the planes of a string behind bits, where the ranks below `above` have had a one above,
/// and appends them where a word has no room for more, as far as `left` bits reach. The answer is the bits
/// that are left; if they are more than was put together, `above` becomes how far the ones reach, where three
/// stands for four too.
#[inline(always)]
#[tactic(auto, using(crate::proofs::Budgets::room_for))]
fn write_string(
    left: u64,
    planes: u32,
    string: u64,
    above: &mut usize,
    part: &mut Part,
    out: &mut BitWriter,
) -> u64
    requires above { above.old ≤ 4 }
    requires few { planes ≤ 16 }
    requires in_word { part.old.len ≤ 64 }
    requires small { part.old.bits < 2 ^ part.old.len }
    requires fits { min left (part.old.len + length (code_from above.old (string_planes planes string)))
        ≤ out.old.room }
    ensures bits { LeavesPlanes left result above.old above.new out.old out.new
        (field part.old.len part.old.bits) (string_planes planes string) part.new.len part.new.bits }
    ensures small { string < 2 ^ (4 * planes) → part.new.bits < 2 ^ part.new.len }
{
    let mut left = left;
    let mut planes = planes;
    let mut string = string;
    while planes > 0 && left > part.len && *above < 3 {
        left = make_room(left, 14, part, out);
        let next = code_of_next(*above, planes, string);
        *part = join(*part, next.part);
        *above = next.above;
        string /= 256;
        planes = planes.saturating_sub(2);
    }
    // Once three ranks have had a one, the planes that are left are their own code, as the group bit behind
    // the third digit is the fourth.
    if planes > 0 && left > part.len {
        let own = 4 * u64::from(planes);
        if left > 64 {
            left = make_room(left, own, part, out);
        }
        // Where no more than a word is left, what falls out of one is past the end.
        let bits = part.bits | string << part.len;
        let len = part.len + own;
        *part = Part { bits, len };
    }
    left
}

/// Appends bits and behind them the code of the top planes of four words, above which no rank has had a one,
/// as far as `left` bits reach. The answer is the bits that are left.
#[inline(always)]
fn write_top(left: u64, part: Part, planes: u32, words: [u64; 4], out: &mut BitWriter) -> u64
    requires planes { planes ≤ 64 }
    requires in_word { part.len ≤ 64 }
    requires small { part.bits < 2 ^ part.len }
    requires fits { min left (part.len + length (code_from 0 (top_planes planes words))) ≤ out.old.room }
    ensures { Writes left result out.old out.new
        (field part.len part.bits ++ code_from 0 (top_planes planes words)) }
{
    let mut left = left;
    let mut part = part;
    let mut planes = planes;
    let mut words = words;
    let mut above = 0;
    // Where values are smooth, the first coefficient is the only one of many planes.
    let lone = count_of_lone(planes, &words);
    if lone > 0 {
        left = make_room(left, 33, &mut part, out);
        part = join(part, code_of_lone(lone, words[0]));
        planes -= lone;
        words = below_top(lone, &words);
        above = 1;
    }
    while planes > 0 && left > part.len {
        let count = planes.min(16);
        let string = string_of(&words);
        left = write_string(left, count, string, &mut above, &mut part, out);
        planes -= count;
        words = below_top(16, &words);
    }
    write_part(left, part, out)
}

/// Appends the code of the top `prec` planes of four coefficients, given by their digits, or its first
/// `budget` bits where it is longer. The top `zeros` planes have no one. The answer is the number of bits
/// appended. Bits of digits from `width` on are not looked at.
#[inline(always)]
#[tactic(auto, using(std::proofs::lemmas::Nat::pow_pos))]
pub fn write_four(
    zeros: u32,
    budget: u64,
    prec: u32,
    width: u32,
    digits: &[u64; 4],
    out: &mut BitWriter,
) -> u64
    requires width { width ≤ 64 }
    requires planes { prec ≤ width }
    requires within { zeros ≤ prec }
    requires zeros { take zeros (planes_of width (map (field width) digits.now))
        ≡ replicate zeros (replicate 4 false) }
    requires fits { min budget (4 * prec + 4) ≤ out.old.room }
    ensures bits { Appends out.old out.new (take budget
        (code (take prec (planes_of width (map (field width) digits.now))))) }
    ensures count { result ≡ min budget (length (code
        (take prec (planes_of width (map (field width) digits.now))))) }
{
    let len = u64::from(zeros);
    let top = Part { bits: 0, len };
    if zeros == prec {
        return budget - write_part(budget, top, out);
    }
    let words = below_top(64 - width + zeros, digits);
    budget - write_top(budget, top, prec - zeros, words, out)
}
