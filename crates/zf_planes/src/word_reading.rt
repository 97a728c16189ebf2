//! Reading planes by what they are.
//!
//! Planes come in three kinds, and each kind in a row: those in which no more ranks have a one, those in
//! which some more have, and, once all ranks have had one, those whose code is their digits. Each kind has a
//! loop or an arm of its own, so that most planes take few steps.

ghost use Rattle.std.specs.Prelude.{◌≡◌, ◌+◌, ◌-◌, ◌*◌, ◌/◌, ◌%◌, ◌^◌, ◌<◌, ◌≤◌, false, ◌++◌, length, map, take, drop, replicate, All, IfNone, IfSome};
ghost use Rattle.zf_planes.specs.WordPlanes.{IsReadAs};
ghost use Rattle.zf_planes.specs.Sizes.{IsWordSize, HasBlanks};
ghost use Rattle.zf_planes.specs.{States.{Lack}, Moves.{state, MovesOverPlane, MovesOverSame, AreZeroFrom}};
ghost use Rattle.{zf_planes.specs.Decoding.{planes_bits, ReadsTop}, zf_bits.specs.Reader.{rest}};

use crate::cursor::Cursor;
use crate::decoding::{PlaneRead, read_by_runs};
use crate::tails::{PlaneOfWord, plane_of_all, plane_with, plane_with_two, plane_without};
use zf_bits::{BitReader, Plane};

/// Passes the code of a plane that is known.
#[inline(always)]
fn take_plane<P: Plane>(
    n: usize,
    size: usize,
    next: PlaneOfWord,
    cursor: &mut Cursor<'_>,
) -> PlaneRead<P>
    requires size { IsWordSize size }
    requires in_plane { n ≤ size }
    requires read { IsReadAs n size cursor.old.bits next.digits next.len next.above }
    requires some { 0 < next.len }
    requires there { next.len ≤ cursor.old.count }
    ensures read { MovesOverPlane size (state n cursor.old) (state result.above cursor.new)
        (P.words result.plane) }
{
    let mut plane = P::zero();
    plane.set_word(0, next.digits);
    cursor.pass(next.len);
    PlaneRead {
        plane,
        above: next.above,
    }
}

/// Reads planes that have no one at ranks which have had none above, as many as are in sight, from the one of
/// number `from` on and before that of number `to`: the first digits of each, and a group bit of zero. The
/// answer is the number of the first plane that was not read.
#[inline(always)]
#[tactic(auto, using(crate::proofs::Peeking::window_long))]
pub(crate) fn read_same<P: Plane>(
    n: usize,
    size: usize,
    from: usize,
    to: usize,
    planes: &mut [P],
    cursor: &mut Cursor<'_>,
) -> usize
    requires in_plane { n < size }
    requires words { size ≤ 64 * P.word_count }
    requires some { from < to }
    requires there { n < cursor.old.count }
    requires none { cursor.old.bits / 2 ^ n % 2 ≡ 0 }
    requires planes { to ≤ length planes.old }
    requires zeros { AreZeroFrom size from (map P.words planes.old) }
    ensures some { from < result }
    ensures within { result ≤ to }
    ensures read { MovesOverSame size n from result cursor.old cursor.new (map P.words planes.old)
        (map P.words planes.new) }
    ensures zeros { AreZeroFrom size result (map P.words planes.new) }
    ensures long { length planes.new ≡ length planes.old }
{
    // Values of their own, which the loop holds in registers.
    let mut bits = cursor.bits;
    let mut count = cursor.count;
    let mut i = from;
    while i < to && (n as u64) < count && (bits >> n) % 2 == 0 {
        let same = plane_without(n, size, bits);
        let mut plane = P::zero();
        plane.set_word(0, same.digits);
        let k = planes.len() - 1 - i;
        planes[k] = plane;
        bits = bits >> n >> 1;
        count -= same.len;
        i += 1;
    }
    let passed = cursor.count - count;
    cursor.reader.skip(passed);
    cursor.left -= passed;
    cursor.bits = bits;
    cursor.count = count;
    i
}

/// Reads a plane that is not seen to be such.
#[inline(always)]
fn read_more<P: Plane>(n: usize, size: usize, cursor: &mut Cursor<'_>) -> Option<PlaneRead<P>>
    requires in_plane { n < size }
    requires words { size ≤ 64 * P.word_count }
    requires more { n < cursor.old.count → cursor.old.bits / 2 ^ n % 2 ≡ 1 }
    ensures short { IfNone result (Lack size 1 (state n cursor.old)) }
    ensures read { IfSome result (λ read. MovesOverPlane size (state n cursor.old)
        (state read.above cursor.new) (P.words read.plane)) }
{
    // A plane in one word is known where its bits are in sight, and a table has its tail, at one look or two.
    if size <= 64 {
        let more = plane_with(n, size, cursor.bits);
        if more.len <= cursor.count {
            return Some(take_plane(n, size, more, cursor));
        }
        let more = plane_with_two(n, size, cursor.bits);
        if more.len <= cursor.count {
            return Some(take_plane(n, size, more, cursor));
        }
    }
    read_by_runs(n, size, cursor)
}

/// Reads a plane in which all ranks have had a one above.
#[inline(always)]
fn read_last<P: Plane>(size: usize, cursor: &mut Cursor<'_>) -> Option<PlaneRead<P>>
    requires some { 0 < size }
    requires words { size ≤ 64 * P.word_count }
    ensures short { IfNone result (Lack size 1 (state size cursor.old)) }
    ensures read { IfSome result (λ read. MovesOverPlane size (state size cursor.old)
        (state read.above cursor.new) (P.words read.plane)) }
{
    if size <= 64 {
        cursor.look_on(size as u64);
        let all = plane_of_all(size, cursor.bits);
        if all.len <= cursor.count {
            return Some(take_plane(size, size, all, cursor));
        }
    }
    // It lies in several words, or it is the last of a budget, which may have fewer bits.
    read_by_runs(size, size, cursor)
}

/// Reads the code of the top `prec` planes. All are zero before, and the other planes stay so. The answer is
/// what is left of the budget.
#[inline(always)]
pub(crate) fn read_by_kinds<P: Plane>(
    budget: u64,
    prec: u32,
    size: usize,
    reader: &BitReader<'_>,
    planes: &mut [P],
) -> Option<u64>
    requires planes { HasBlanks size prec P.word_count (length planes.old) (map P.words planes.old) }
    ensures short { IfNone result (length (rest reader.now)
        < planes_bits budget prec size 0 (rest reader.now)) }
    ensures read { IfSome result (λ left. ReadsTop budget prec size (rest reader.now)
        (map P.words planes.new) left) }
{
    let mut cursor = Cursor::new(budget, reader);
    let mut i = cursor.pass_zero_planes(prec) as usize;
    let mut above = 0;
    while i < prec as usize && cursor.left > 0 && above < size {
        // The first digits of a plane, and as many bits behind them as most tails have.
        cursor.look_on(above as u64 + 17);
        if (above as u64) < cursor.count && (cursor.bits >> above) % 2 == 0 {
            i = read_same(above, size, i, prec as usize, planes, &mut cursor);
        } else {
            let read = read_more::<P>(above, size, &mut cursor)?;
            above = read.above;
            let k = planes.len() - 1 - i;
            planes[k] = read.plane;
            i += 1;
        }
    }
    // Where planes are left, all ranks have had a one.
    while i < prec as usize && cursor.left > 0 {
        let read = read_last::<P>(size, &mut cursor)?;
        let k = planes.len() - 1 - i;
        planes[k] = read.plane;
        i += 1;
    }
    Some(cursor.left)
}
