//! Reading planes from their code.

ghost use Rattle.std.specs.Prelude.{◌≡◌, ◌+◌, ◌-◌, ◌*◌, ◌%◌, ◌<◌, ◌≤◌, ◌↔◌, min, slice_set, true, false, ◌∷◌, ◌++◌, length, map, take, replicate, All, IsNone, IfNone, IfSome, OnSome};
ghost use Rattle.zf_spec.specs.{Grid.{IsBlockSize}, Kept.{kept_planes}, ReadPlanes.{first_bits}};
ghost use Rattle.zf_spec.specs.{HeldPlanes.{digits_held, planes_held, IsClearFrom}, Numbers.{word_bits}};
ghost use Rattle.{zf_spec.specs.Planes.{reach}, zf_bits.specs.Reader.{rest, Reads}};
ghost use Rattle.zf_planes.specs.{Moves.{state, Moves, MovesOverPlane}, States.{Lack}, Sizes.{HasBlanks}};
ghost use Rattle.zf_planes.specs.Decoding.{coded, coded_bits, tail_ahead, tail_bits, run_ahead, run_bits, planes_bits, Takes, Lacks, ReadsRun, ReadsGroup, ReadsTail, ReadsTop};

use crate::cursor::Cursor;
use crate::word_reading::read_by_kinds;
use crate::words::clear;
use zf_bits::{BitReader, Plane};

/// A plane that was read.
#[derive(Clone, Copy)]
pub(crate) struct PlaneRead<P: Plane> {
    pub(crate) plane: P,
    /// How far its ones reach, and those above them.
    pub(crate) above: usize,
}

/// Reads the first `n` digits as they are, as far as the budget reaches; the others are zero.
#[inline(always)]
#[tactic(auto, using(crate::proofs::Placing::put_in, crate::proofs::PlaneAhead::prefix_read))]
fn read_prefix<P: Plane>(n: usize, cursor: &mut Cursor<'_>) -> Option<P>
    requires words { n ≤ 64 * P.word_count }
    ensures short { IfNone result (Lacks cursor.old.reader cursor.new.reader (min n cursor.old.left)) }
    ensures taken { OnSome result (Moves cursor.old cursor.new (min n cursor.old.left)) }
    ensures digits { IfSome result (λ plane. digits_held n (P.words plane)
        ≡ first_bits n (take cursor.old.left (rest cursor.old.reader))) }
    ensures clear { IfSome result (λ plane. IsClearFrom n (P.words plane)) }
{
    let count = cursor.left.min(n as u64);
    let mut plane = P::zero();
    let mut at = 0;
    while at < count {
        let more = (count - at).min(64);
        let digits = cursor.read_word(more)?;
        plane.set_word((at / 64) as usize, digits);
        at += more;
    }
    Some(plane)
}

/// A run that was read.
#[derive(Clone, Copy)]
struct Run {
    /// How many zeros lead to its one.
    zeros: usize,
    /// The bits that are left of the budget.
    left: u64,
}

/// Reads a run of at most `most` digits. The one of the last of them has no bit, and where the budget ends a
/// one stands.
#[cold]
#[inline(never)]
fn read_run(left: u64, most: usize, reader: &mut BitReader<'_>) -> Option<Run>
    requires { 0 < most }
    ensures short { IfNone result (Lacks reader.old reader.new (run_bits left most (rest reader.old))) }
    ensures read { IfSome result (λ run. ReadsRun most reader.old reader.new left run.left run.zeros) }
{
    let mut left = left;
    let mut zeros = 0;
    while zeros < most - 1 && left > 0 {
        // The bits that the run may take of those that are looked at.
        let ahead = reader
            .left()
            .min(left)
            .min((most - 1 - zeros) as u64)
            .min(64);
        if ahead == 0 {
            return None;
        }
        let count = u64::from(reader.peek().trailing_zeros()).min(ahead);
        if count < ahead {
            reader.skip(count + 1);
            return Some(Run {
                zeros: zeros + count as usize,
                left: left - count - 1,
            });
        }
        reader.skip(count);
        zeros += count as usize;
        left -= count;
    }
    Some(Run { zeros, left })
}

/// Reads a group bit of one, which was looked at, and its run of at most `most` digits. The answer is how
/// many zeros lead to its one.
#[inline]
fn read_group(most: usize, cursor: &mut Cursor<'_>) -> Option<usize>
    requires some { 0 < most }
    requires there { 0 < cursor.old.count }
    requires one { cursor.old.bits % 2 ≡ 1 }
    ensures short { IfNone result (Lacks cursor.old.reader cursor.new.reader
        (tail_bits cursor.old.left most (rest cursor.old.reader))) }
    ensures read { IfSome result (λ zeros. ReadsGroup most cursor.old.reader cursor.new.reader cursor.old.left
        cursor.new.left zeros) }
{
    let zeros = ((cursor.bits >> 1).trailing_zeros() as usize).min(most - 1);
    // The one of the last digit has no bit.
    let bits = (zeros + 2).min(most) as u64;
    if bits <= cursor.count {
        cursor.pass(bits);
        return Some(zeros);
    }
    cursor.pass(1);
    // By way of a copy, so that only that lies in memory.
    let mut place = cursor.reader.another();
    let run = read_run(cursor.left, most, &mut place)?;
    *cursor = Cursor::new(run.left, &place);
    Some(run.zeros)
}

/// Makes a digit one.
#[inline]
#[tactic(auto, using(crate::proofs::Placing::one_set))]
fn set_one<P: Plane>(rank: usize, plane: &mut P)
    requires size { rank < 256 }
    requires words { rank < 64 * P.word_count }
    ensures { word_bits (P.words plane.new) ≡ slice_set (word_bits (P.words plane.old)) rank true }
{
    let number = rank / 64;
    let word = plane.word(number);
    plane.set_word(number, word | 1 << (rank % 64));
}

/// Reads the tail of a plane from rank `n` on: behind each group bit that is one a run, until a group bit is
/// zero or no rank is left. The digits below rank `n` are there.
#[inline(always)]
#[tactic(auto, using(crate::proofs::Lengths::plane_lengths))]
fn read_tail<P: Plane>(
    n: usize,
    size: usize,
    prefix: P,
    cursor: &mut Cursor<'_>,
) -> Option<PlaneRead<P>>
    requires words { size ≤ 64 * P.word_count }
    requires in_plane { n ≤ size }
    requires clear { IsClearFrom n (P.words prefix) }
    ensures short { IfNone result (Lacks cursor.old.reader cursor.new.reader
        (tail_bits cursor.old.left (size - n) (rest cursor.old.reader))) }
    ensures read { IfSome result (λ read. ReadsTail size n cursor.old.reader cursor.new.reader cursor.old.left
        cursor.new.left
        (P.words prefix) (P.words read.plane) read.above) }
{
    let mut plane = prefix;
    let mut n = n;
    while n < size && cursor.left > 0 {
        if !cursor.sees(1) {
            return None;
        }
        if cursor.bits % 2 == 0 {
            cursor.pass(1);
            return Some(PlaneRead { plane, above: n });
        }
        n += read_group(size - n, cursor)?;
        set_one(n, &mut plane);
        n += 1;
    }
    Some(PlaneRead { plane, above: n })
}

/// Reads the code of a plane in which the ranks below `n` have had a one above, run by run.
#[inline(always)]
pub(crate) fn read_by_runs<P: Plane>(
    n: usize,
    size: usize,
    cursor: &mut Cursor<'_>,
) -> Option<PlaneRead<P>>
    requires some { 0 < size }
    requires words { size ≤ 64 * P.word_count }
    requires in_plane { n ≤ size }
    ensures short { IfNone result (Lack size 1 (state n cursor.old)) }
    ensures read { IfSome result (λ read. MovesOverPlane size (state n cursor.old)
        (state read.above cursor.new) (P.words read.plane)) }
{
    let prefix = read_prefix::<P>(n, cursor)?;
    // A tail whose runs are all in sight is read with no further look.
    *cursor = Cursor::new(cursor.left, &cursor.reader);
    read_tail(n, size, prefix, cursor)
}

/// Reads the code of the top `prec` planes, of which `budget` bits were written, or all of it where it is
/// shorter. The answer is the number of its bits. `None` means that the bits end before the budget and the
/// code do; then the reader stands where it stood, and the planes hold anything. They are zero before, so
/// that a caller that has just made them clears none twice.
#[tactic(auto, using(crate::proofs::PlanesRead::whole_is))]
pub fn read_planes<P: Plane>(
    budget: u64,
    prec: u32,
    size: usize,
    reader: &mut BitReader<'_>,
    planes: &mut [P],
) -> Option<u64>
    requires { HasBlanks size prec P.word_count (length planes.old) (map P.words planes.old) }
    ensures short { IsNone result ↔ (length (rest reader.old) < coded_bits budget prec size (rest reader.old)) }
    ensures unread { IfNone result (reader.new ≡ reader.old) }
    ensures count { IfSome result (λ count. count ≡ coded_bits budget prec size (rest reader.old)) }
    ensures reads { IfSome result (λ count. Reads reader.old reader.new (take count (rest reader.old))) }

    // The top planes are what the budget keeps; the others, and all bits from rank `size` on, are zero.
    ensures digits { OnSome result (planes_held size (map P.words planes.new)
        ≡ kept_planes budget (coded budget prec size (rest reader.old))
        ++ replicate (length planes.new - prec) (replicate size false)) }
    ensures clear { OnSome result (All (IsClearFrom size) (map P.words planes.new)) }
{
    // Each usual size of planes in one word has a program of its own.
    let left = match size {
        16 => read_by_kinds(budget, prec, 16, reader, planes)?,
        64 => read_by_kinds(budget, prec, 64, reader, planes)?,
        _ => read_by_kinds(budget, prec, size, reader, planes)?,
    };
    let count = budget - left;
    reader.skip(count);
    Some(count)
}

/// [`read_planes`] into planes in four words each, whatever they hold before.
pub fn decode(
    budget: u64,
    prec: u32,
    size: usize,
    reader: &mut BitReader<'_>,
    planes: &mut [[u64; 4]],
) -> Option<u64>
    requires size { IsBlockSize size }
    requires planes { prec ≤ length planes.old }
    ensures short { IsNone result ↔ (length (rest reader.old) < coded_bits budget prec size (rest reader.old)) }
    ensures unread { IfNone result (reader.new ≡ reader.old) }
    ensures count { IfSome result (λ count. count ≡ coded_bits budget prec size (rest reader.old)) }
    ensures reads { IfSome result (λ count. Reads reader.old reader.new (take count (rest reader.old))) }
    // The top planes are what the budget keeps; the others, and all bits from rank `size` on, are zero.
    ensures digits { OnSome result (planes_held size planes.new
        ≡ kept_planes budget (coded budget prec size (rest reader.old))
        ++ replicate (length planes.new - prec) (replicate size false)) }
    ensures clear { OnSome result (All (IsClearFrom size) planes.new) }
{
    clear(planes);
    let count = read_planes(budget, prec, size, reader, planes);
    see_arrays(planes);
    count
}

// Does nothing, and says of planes what their type says: each has four words.
#[inline]
fn see_arrays(planes: &[[u64; 4]])
    ensures { All (λ words. length words ≡ 4) planes.now }
{
    let _planes = planes;
}
