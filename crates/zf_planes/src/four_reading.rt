//! Reading the code of planes of four digits straight into the digits of the coefficients.

ghost use Rattle.std.specs.Prelude.{true, ◌≡◌, ◌+◌, ◌-◌, ◌*◌, ◌/◌, ◌%◌, ◌^◌, ◌<◌, ◌≤◌, ◌↔◌, false, ◌++◌, length, map, take, replicate, All, IsNone, IfNone, IfSome, OnSome};
ghost use Rattle.zf_spec.specs.{Numbers.{field}, Planes.{planes_of}, Kept.{kept_planes}};
ghost use Rattle.zf_bits.specs.Reader.{rest, Reads};
ghost use Rattle.zf_planes.specs.{States.{Lack}, Moves.{state, MovesOverPlanes, MovesOverSome}};
ghost use Rattle.zf_planes.specs.Decoding.{coded, coded_bits, planes_bits};
ghost use Rattle.zf_planes.specs.Lanes.{low_planes, lanes_in, AreBelow, IsGathered, gathered, ReadsGathered};

use crate::cursor::Cursor;
use crate::decoding::read_by_runs;
use crate::in_lanes::{
    PlanesInLanes, lanes_of_4, lanes_of_16, lone_in_sight, planes_at_end, planes_in_sight,
};
use crate::tails::plane_at;
use zf_bits::BitReader;

/// Reads the code of a plane in which the ranks below `n` have had a one above. It stands apart so that the
/// values of a loop that calls it stay in registers.
#[inline(never)]
#[tactic(auto, using(crate::proofs::Gathering::held_4))]
fn read_one_apart(n: usize, cursor: &mut Cursor<'_>) -> Option<PlanesInLanes>
    requires in_plane { n ≤ 4 }
    ensures short { IfNone result (Lack 4 1 (state n cursor.old)) }
    ensures read { IfSome result (λ one. MovesOverSome 1 (state n cursor.old)
        (state one.above cursor.new) one) }
{
    let before = cursor.left;
    let read = read_by_runs::<u64>(n, 4, cursor)?;
    Some(PlanesInLanes {
        lanes: lanes_of_4(read.plane % 16),
        count: 1,
        len: before - cursor.left,
        above: read.above,
    })
}

/// The same by way of a copy, so that only that lies in memory.
#[inline(always)]
fn read_one(n: usize, cursor: &mut Cursor<'_>) -> Option<PlanesInLanes>
    requires in_plane { n ≤ 4 }
    ensures short { IfNone result (Lack 4 1 (state n cursor.old)) }
    ensures read { IfSome result (λ one. MovesOverSome 1 (state n cursor.old)
        (state one.above cursor.new) one) }
{
    let next = plane_at(n, 4, cursor.bits);
    if next.len <= cursor.count {
        cursor.pass(next.len);
        return Some(PlanesInLanes {
            lanes: lanes_of_4(next.digits),
            count: 1,
            len: next.len,
            above: next.above,
        });
    }
    let mut next = Cursor::new(cursor.left, &cursor.reader);
    let one = read_one_apart(n, &mut next)?;
    *cursor = next;
    Some(one)
}

/// Reads the code of one plane or more, at most `most`, where the ranks below `n` have had a one above, and
/// two ranks at least have had none.
#[inline(always)]
fn read_some(most: u32, n: usize, cursor: &mut Cursor<'_>) -> Option<PlanesInLanes>
    requires some { 0 < most }
    requires in_plane { n < 3 }
    requires left { 0 < cursor.old.left }
    ensures short { IfNone result (Lack 4 most (state n cursor.old)) }
    ensures read { IfSome result (λ some. MovesOverSome most (state n cursor.old)
        (state some.above cursor.new) some) }
{
    cursor.look_on(8);
    if cursor.count < 8 && cursor.count == cursor.left {
        let last = planes_at_end(n, cursor.count, cursor.bits);
        if last.count <= most {
            cursor.pass(last.len);
            return Some(last);
        }
    } else {
        let some = planes_in_sight(n, cursor.bits % 256);
        if some.count <= most && some.len <= cursor.count {
            cursor.pass(some.len);
            return Some(some);
        }
    }
    let one = read_one(n, cursor)?;
    Some(one)
}

/// Reads one plane or four of `most` planes, in which all ranks have had a one above, so that each is its own
/// code. Where the budget ends, zeros follow.
#[inline(always)]
#[tactic(auto, using(crate::proofs::Passing::if_none, crate::proofs::LastRank::own_bits))]
fn read_verbatim(most: u32, cursor: &mut Cursor<'_>) -> Option<PlanesInLanes>
    requires some { 0 < most }
    requires left { 0 < cursor.old.left }
    ensures short { IfNone result (Lack 4 most (state 4 cursor.old)) }
    ensures read { IfSome result (λ some. MovesOverSome most (state 4 cursor.old)
        (state some.above cursor.new) some) }
{
    if most < 4 {
        let len = cursor.left.min(4);
        let digits = cursor.read_word(len)?;
        return Some(PlanesInLanes {
            lanes: lanes_of_4(digits % 16),
            count: 1,
            len,
            above: 4,
        });
    }
    let len = cursor.left.min(16);
    let digits = cursor.read_word(len)?;
    Some(PlanesInLanes {
        lanes: lanes_of_16(digits % 65536),
        count: 4,
        len,
        above: 4,
    })
}

/// Reads four of `most` planes, in which all ranks have had a one above, and whose bits are in sight.
#[inline(always)]
fn read_sixteen(most: u32, cursor: &mut Cursor<'_>) -> PlanesInLanes
    requires four { 4 ≤ most }
    requires there { 16 ≤ cursor.old.count }
    ensures count { result.count ≡ 4 }
    ensures read { MovesOverPlanes most (state 4 cursor.old) (state 4 cursor.new) result }
{
    let lanes = lanes_of_16(cursor.bits % 65536);
    cursor.pass(16);
    PlanesInLanes {
        lanes,
        count: 4,
        len: 16,
        above: 4,
    }
}

/// Reads the code of one plane or more, at most `most`, where the ranks below `n` have had a one above. Three
/// are as good as four.
#[inline(always)]
#[tactic(auto, using(crate::proofs::Passing::on_none, crate::proofs::LastRank::ahead_of_three))]
fn read_next(most: u32, n: usize, cursor: &mut Cursor<'_>) -> Option<PlanesInLanes>
    requires some { 0 < most }
    requires in_plane { n ≤ 4 }
    requires left { 0 < cursor.old.left }
    ensures short { IfNone result (Lack 4 most (state n cursor.old)) }
    ensures read { IfSome result (λ some. MovesOverSome most (state n cursor.old)
        (state some.above cursor.new) some) }
{
    if n < 3 {
        read_some(most, n, cursor)
    } else {
        read_verbatim(most, cursor)
    }
}

/// Digits that were read.
#[derive(Clone, Copy)]
struct Gathered {
    /// The digits of the first planes, a word for each coefficient.
    words: [u64; 4],
    /// How many planes those are.
    done: u32,
    /// The digits of the planes behind them, in lanes.
    lanes: u64,
    /// How many planes those are.
    held: u32,
}

/// Puts what is in lanes into the words.
#[inline(always)]
fn put_down(digits: Gathered) -> Gathered
    requires gathered { IsGathered digits.words digits.done digits.lanes digits.held }
    requires shift { digits.held < 64 }
    requires room { digits.done + digits.held ≤ 64 }
    ensures gathered { IsGathered result.words result.done result.lanes result.held }
    ensures planes { gathered result.words result.done result.lanes result.held
        ≡ gathered digits.words digits.done digits.lanes digits.held }
    ensures done { result.done ≡ digits.done + digits.held }
    ensures none { result.held ≡ 0 }
{
    let [first, second, third, fourth] = digits.words;
    let lanes = digits.lanes;
    let held = digits.held;
    Gathered {
        words: [
            (first << held) + lanes % 65536,
            (second << held) + lanes / 65536 % 65536,
            (third << held) + lanes / 65536 / 65536 % 65536,
            (fourth << held) + lanes / 65536 / 65536 / 65536 % 65536,
        ],
        done: digits.done + held,
        lanes: 0,
        held: 0,
    }
}

/// Puts planes behind those that were read before.
#[inline(always)]
#[tactic(auto, using(crate::proofs::Lanes::lanes_put))]
fn add(digits: Gathered, some: PlanesInLanes) -> Gathered
    requires gathered { IsGathered digits.words digits.done digits.lanes digits.held }
    requires held { digits.held ≤ 12 }
    requires few { some.count ≤ 4 }
    requires below { AreBelow some.count (lanes_in 4 some.lanes) }
    requires room { digits.done + digits.held + some.count ≤ 64 }
    ensures gathered { IsGathered result.words result.done result.lanes result.held }
    ensures planes { gathered result.words result.done result.lanes result.held
        ≡ gathered digits.words digits.done digits.lanes digits.held
        ++ low_planes some.count (lanes_in 4 some.lanes) }
    ensures sum { result.done + result.held ≡ digits.done + digits.held + some.count }
    ensures held { result.held ≤ 12 }
{
    let words = digits.words;
    let more = Gathered {
        words,
        done: digits.done,
        lanes: (digits.lanes << some.count) + some.lanes,
        held: digits.held + some.count,
    };
    // A lane has room for sixteen planes, and the next ones may be four.
    if more.held > 12 { put_down(more) } else { more }
}

/// The digits in words, where the planes below those that were read are zero.
#[inline(always)]
#[tactic(auto, using(crate::proofs::Lanes::four_below))]
fn digits_of(digits: Gathered, width: u32) -> [u64; 4]
    requires gathered { IsGathered digits.words digits.done digits.lanes digits.held }
    requires held { digits.held ≤ 12 }
    requires within { digits.done + digits.held ≤ width }
    requires width { width ≤ 64 }
    ensures planes { low_planes width result
        ≡ gathered digits.words digits.done digits.lanes digits.held
        ++ replicate (width - (digits.done + digits.held)) (replicate 4 false) }
    ensures below { AreBelow width result }
{
    let all = put_down(digits);
    if all.done == 0 {
        return [0; 4];
    }
    let words = all.words;
    let shifted = put_down(Gathered {
        words,
        done: all.done,
        lanes: 0,
        held: width - all.done,
    });
    shifted.words
}

/// Whether the next planes, of at most `most`, begin with one in which the first rank alone has a one: a
/// group bit, that one, and a group bit of zero.
#[inline(always)]
fn begins_lone(most: u32, cursor: &Cursor<'_>) -> bool
    ensures { result ≡ true → (0 < most) × (3 ≤ cursor.now.count) × (cursor.now.bits % 8 ≡ 3) }
{
    most > 0 && cursor.count >= 3 && cursor.bits % 8 == 3
}

/// Reads the planes at the top in which the first rank alone has ones, of at most `most`, as many as are in
/// sight; it may be none.
#[inline(always)]
fn read_lone(most: u32, cursor: &mut Cursor<'_>) -> PlanesInLanes
    ensures few { result.count ≤ 12 }
    ensures read { MovesOverPlanes most (state 0 cursor.old) (state result.above cursor.new) result }
{
    if !begins_lone(most, cursor) {
        return PlanesInLanes {
            lanes: 0,
            count: 0,
            len: 0,
            above: 0,
        };
    }
    let lone = lone_in_sight(most, cursor.bits, cursor.count);
    cursor.pass(lone.len);
    lone
}

/// Digits that were read, and what is left of the budget.
#[derive(Clone, Copy)]
struct ReadDigits {
    digits: Gathered,
    left: u64,
}

/// Reads the code of the top `prec` planes of four digits, or of the first of them where all that are left
/// are zero.
#[inline(always)]
fn read_gathered(budget: u64, prec: u32, reader: &BitReader<'_>) -> Option<ReadDigits>
    requires planes { prec ≤ 64 }
    ensures short { IfNone result (length (rest reader.now) < planes_bits budget prec 4 0 (rest reader.now)) }
    ensures read { IfSome result (λ read. ReadsGathered budget prec (rest reader.now) read.left
        read.digits.words read.digits.done read.digits.lanes read.digits.held) }
{
    let mut cursor = Cursor::new(budget, reader);
    let zeros = cursor.pass_zero_planes(prec);
    // Where values are smooth, the first coefficient is the only one of many planes.
    let lone = read_lone(prec - zeros as u32, &mut cursor);
    let mut digits = Gathered {
        words: [0; 4],
        done: zeros as u32,
        lanes: lone.lanes,
        held: lone.count,
    };
    let mut above = lone.above;
    while digits.done + digits.held < prec && cursor.left > 0 {
        let planes = prec - (digits.done + digits.held);
        let some = read_next(planes, above, &mut cursor)?;
        digits = add(digits, some);
        above = some.above;
        while above >= 3 && digits.done + digits.held + 4 <= prec && cursor.sees(16) {
            let planes = prec - (digits.done + digits.held);
            digits = add(digits, read_sixteen(planes, &mut cursor));
        }
    }
    Some(ReadDigits {
        digits,
        left: cursor.left,
    })
}

/// Reads the code of the top `prec` planes of four coefficients, of which `budget` bits were written, or all
/// of it where it is shorter, into their digits. The answer is the number of its bits. `None` means that the
/// bits end before the budget and the code do; then the reader stands where it stood, and the digits are
/// anything. The planes below the ones read are zero.
#[tactic(auto, using(crate::proofs::PlanesRead::whole_is, crate::proofs::Lanes::each_below))]
pub fn read_four(
    budget: u64,
    prec: u32,
    width: u32,
    reader: &mut BitReader<'_>,
    digits: &mut [u64; 4],
) -> Option<u64>
    requires width { width ≤ 64 }
    requires planes { prec ≤ width }

    ensures short { IsNone result ↔ (length (rest reader.old) < coded_bits budget prec 4 (rest reader.old)) }
    ensures unread { IfNone result (reader.new ≡ reader.old) }

    ensures count { IfSome result (λ count. count ≡ coded_bits budget prec 4 (rest reader.old)) }
    ensures reads { IfSome result (λ count. Reads reader.old reader.new (take count (rest reader.old))) }

    // The top planes are what the budget keeps; the others are zero.
    ensures digits { OnSome result (planes_of width (map (field width) digits.new)
        ≡ kept_planes budget (coded budget prec 4 (rest reader.old))
        ++ replicate (width - prec) (replicate 4 false)) }
    ensures below { OnSome result (All (λ u. u < 2 ^ width) digits.new) }
{
    let read = read_gathered(budget, prec, reader)?;
    *digits = digits_of(read.digits, width);
    let count = budget - read.left;
    reader.skip(count);
    Some(count)
}
