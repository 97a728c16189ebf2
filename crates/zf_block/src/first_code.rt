//! The code of planes in which the first rank alone has ones, as those of a block of one value.

ghost use Rattle.std.specs.Prelude.{◌≡◌, ◌<◌, ◌≤◌, IfSome};
ghost use Rattle.zf_bits.specs.Reader.{rest};
ghost use Rattle.zf_block.specs.FirstAlone.{IsFirstCode, ReadsDigits};
ghost use Rattle.zf_planes.specs.Spread.{turned};

use crate::ahead::look;
use crate::zero_block::are_zeros;
use zf_bits::BitReader;

/// How many digits a look at 64 bits shows.
const IN_SIGHT: u32 = 32;
/// Where the group bits behind them lie.
const GROUP_BITS: u64 = 0xaaaa_aaaa_aaaa_aaaa;
/// How many digits are looked at before any is read.
const AHEAD: u32 = 16;
/// Where the group bits behind them lie.
const GROUPS_AHEAD: u64 = 0xaaaa_aaaa;
/// Three bits at the first one, and those group bits.
const FIRST_AND_GROUPS: u64 = 7 + 8 * GROUPS_AHEAD;

/// The code of planes in which the first rank alone has ones.
#[derive(Clone, Copy)]
pub(crate) struct FirstCode {
    /// The digits of the first rank, that of the last plane lowest.
    pub(crate) digits: u64,
    /// How many bits it has.
    pub(crate) len: u64,
}

/// The code of `prec` planes that comes next, where it is seen that the first rank alone has ones in them,
/// and has some. All its bits are there. Most blocks have another one, as `word` tells, which has the next bits.
#[inline(always)]
pub(crate) fn first_code(prec: u32, word: u64, reader: &BitReader<'_>) -> Option<FirstCode>
    requires in_word { prec ≤ 64 }
    ensures { IfSome result (λ code. IsFirstCode prec code.digits code.len (rest reader.now)) }
{
    let zeros = word.trailing_zeros().min(prec);
    if zeros == prec || !may_be(word, zeros, prec - zeros - 1) {
        return None;
    }
    code_behind(zeros, prec, reader)
}

/// That code behind so many planes of zeros, digit by digit. It stands apart, so that other blocks do not
/// enter it.
#[inline(never)]
fn code_behind(zeros: u32, prec: u32, reader: &BitReader<'_>) -> Option<FirstCode>
    requires in_word { prec ≤ 64 }
    requires more { zeros < prec }
    ensures { IfSome result (λ code. IsFirstCode prec code.digits code.len (rest reader.now)) }
{
    let mut place = reader.another();
    if !are_zeros(zeros, look(&place), &place) {
        return None;
    }
    place.skip(u64::from(zeros));
    // A group bit, the first digit that is one, and a group bit of zero.
    if place.left() < 3 || place.peek() % 8 != 3 {
        return None;
    }
    place.skip(3);
    let below = prec - zeros - 1;
    let digits = read_digits(below, &mut place)?;
    Some(FirstCode {
        digits: (1 << below) + digits,
        len: place.at() - reader.at(),
    })
}

/// Whether the bits in sight may be such a code, with so many zeros at the top and so many planes below the first
/// that has a one. Those of most blocks are not, which are then read but once.
#[inline(always)]
fn may_be(word: u64, zeros: u32, below: u32) -> bool
    requires { zeros ≤ 63 }
{
    let seen = word >> zeros;
    let begins = zeros > 61 || seen % 8 == 3;
    let goes_on = below < AHEAD || zeros > 61 - 2 * AHEAD || (seen >> 3) & GROUPS_AHEAD == 0;
    begins && goes_on
}

/// [`may_be`] of bits that begin with the count of the planes less one, in so many bits.
#[inline(always)]
pub(crate) fn may_be_counted(count_bits: u32, word: u64) -> bool
    requires { count_bits ≤ 6 }
{
    let count = word % (1 << count_bits);
    let code = word - count;
    // The first one. Masks that are moved to it lose what is not in sight.
    let one = code & code.wrapping_neg();
    let first = one.wrapping_mul(3);
    if code & one.wrapping_mul(FIRST_AND_GROUPS) == first {
        return true;
    }
    let begins = code & one.wrapping_mul(7) == first;
    begins && count as u32 + count_bits < one.trailing_zeros() + AHEAD
}

/// Reads so many digits, each with a group bit of zero behind it, where it is seen that they come next.
#[inline(always)]
fn read_digits(count: u32, place: &mut BitReader<'_>) -> Option<u64>
    requires few { count ≤ 63 }
    ensures { IfSome result (λ u. ReadsDigits count u place.old place.new) }
{
    let first = count.min(IN_SIGHT);
    let second = count - first;
    let above = next_digits(first, place)?;
    if second == 0 {
        return Some(above);
    }
    let below = next_digits(second, place)?;
    Some((above << second) + below)
}

/// Reads so many of them, which are in sight.
#[inline(always)]
fn next_digits(count: u32, place: &mut BitReader<'_>) -> Option<u64>
    requires few { count ≤ 32 }
    ensures { IfSome result (λ u. ReadsDigits count u place.old place.new) }
{
    let len = 2 * u64::from(count);
    if place.left() < len {
        return None;
    }
    let word = place.peek();
    let unseen = IN_SIGHT - count;
    if word & (GROUP_BITS >> unseen >> unseen) != 0 {
        return None;
    }
    place.skip(len);
    Some(turned_digits(word) >> unseen)
}

/// Of the 32 digits that stand two bits apart, the number in which the first one is the greatest.
#[inline(always)]
fn turned_digits(word: u64) -> u64
    ensures { result ≡ turned 32 word }
{
    // Those of two parts that lie beside one another are put together, the lower one above the other.
    let parts = word & 0x5555_5555_5555_5555;
    let of_two = (parts << 1 | parts >> 2) & 0x3333_3333_3333_3333;
    let of_four = (of_two << 2 | of_two >> 4) & 0x0f0f_0f0f_0f0f_0f0f;
    let of_eight = (of_four << 4 | of_four >> 8) & 0x00ff_00ff_00ff_00ff;
    let of_sixteen = (of_eight << 8 | of_eight >> 16) & 0x0000_ffff_0000_ffff;
    (of_sixteen << 16 | of_sixteen >> 32) & 0xffff_ffff
}
