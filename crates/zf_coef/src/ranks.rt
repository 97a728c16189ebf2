//! The coefficients of a block by place, and their digits by rank.

ghost use Rattle.std.specs.Prelude.{◌≡◌, ◌^◌, ◌<◌, ◌≤◌, All, length, map, take};
ghost use Rattle.std.specs.List.{AllWithin};
ghost use mir.Val.{bits};
ghost use Rattle.zf_spec.specs.Numbers.{value_of};
ghost use Rattle.zf_base.specs.WholeBlocks.{IsBlockOf};
ghost use Rattle.zf_coef.specs.HeldDigits.{digits_in, ranked_digits, unranked_values, HasRanks};
ghost use Rattle.zf_coef.specs.HeldDigits.{AreOfBlock};

use crate::coefficient_order::order;
use crate::negabinary::{from_digits, to_digits};
use zf_base::Lane;

/// Writes the negabinary digits of a block's coefficients by rank, those of rank 0 first.
///
/// `block` has `4^d` coefficients by place, x fastest.
#[tactic(auto, using(crate::proofs::ByRank::whole))]
#[inline(always)]
pub fn ranked<T: Lane>(d: u8, block: &[T], digits: &mut [u64])
    requires block { IsBlockOf d block.now }
    requires digits { length digits.old ≡ 4 ^ d }
    ensures digits { digits_in (bits T.width) digits.new ≡ ranked_digits T.width d (map T.value block.now) }
    ensures below { All (λ u. u < 2 ^ T.WIDTH) digits.new }
{
    // Sixteen ranks at a time have places that the compiler knows.
    if d == 3 {
        rank(d, 0, 16, block, digits);
        rank(d, 16, 32, block, digits);
        rank(d, 32, 48, block, digits);
        rank(d, 48, 64, block, digits);
    } else if d == 4 {
        rank_sixteens(d, block, digits);
    } else {
        rank(d, 0, block.len(), block, digits);
    }
}

/// Writes the digits of 256 ranks, sixteen at a time: the loop's own steps are few then, and its places are
/// too many to be known each.
#[inline(always)]
fn rank_sixteens<T: Lane>(d: u8, block: &[T], digits: &mut [u64])
    requires four { 4 ^ d ≡ 256 }
    requires block { AreOfBlock d digits.old block.now }
    ensures filled { take 256 (digits_in (bits T.width) digits.new)
        ≡ take 256 (ranked_digits T.width d (map T.value block.now)) }
    ensures below { AllWithin (λ u. u < 2 ^ T.WIDTH) digits.new 0 256 }
{
    for sixteen in 0..16 {
        rank(d, 16 * sixteen, 16 * sixteen + 16, block, digits);
    }
}

/// Writes the digits of the ranks from `from` on and before `to`, where those before them have theirs.
#[inline(always)]
fn rank<T: Lane>(d: u8, from: usize, to: usize, block: &[T], digits: &mut [u64])
    requires order { from ≤ to }
    requires ranks { to ≤ 4 ^ d }
    requires block { AreOfBlock d digits.old block.now }
    requires filled { take from (digits_in (bits T.width) digits.old)
        ≡ take from (ranked_digits T.width d (map T.value block.now)) }
    requires below { AllWithin (λ u. u < 2 ^ T.WIDTH) digits.old 0 from }
    ensures filled { take to (digits_in (bits T.width) digits.new)
        ≡ take to (ranked_digits T.width d (map T.value block.now)) }
    ensures below { AllWithin (λ u. u < 2 ^ T.WIDTH) digits.new 0 to }
{
    let places = order(d);
    for rank in from..to {
        digits[rank] = to_digits(block[places[rank] as usize]);
    }
}

/// The way back: writes the coefficient of each rank at its place in the block. Bits from `WIDTH` on are not
/// looked at. There are `4^d` digits and coefficients; d is 1 to 4.
#[inline(always)]
pub fn unranked<T: Lane>(d: u8, digits: &[u64], block: &mut [T])
    requires digits { length digits.now ≡ 4 ^ d }
    requires block { IsBlockOf d block.old }
    ensures { map T.value block.new ≡ unranked_values T.width d (digits_in (bits T.width) digits.now) }
{
    if d == 3 {
        unrank(d, 0, 16, digits, block);
        unrank(d, 16, 32, digits, block);
        unrank(d, 32, 48, digits, block);
        unrank(d, 48, 64, digits, block);
    } else if d == 4 {
        unrank_sixteens(d, digits, block);
    } else {
        unrank(d, 0, digits.len(), digits, block);
    }
}

/// Writes the coefficients of the ranks from `from` on and before `to`, where those before them have theirs.
#[inline(always)]
fn unrank<T: Lane>(d: u8, from: usize, to: usize, digits: &[u64], block: &mut [T])
    requires order { from ≤ to }
    requires ranks { to ≤ 4 ^ d }
    requires block { AreOfBlock d digits.now block.old }
    requires before { HasRanks d from
        (map (value_of T.width) (digits_in (bits T.width) digits.now)) (map T.value block.old) }
    ensures { HasRanks d to
        (map (value_of T.width) (digits_in (bits T.width) digits.now)) (map T.value block.new) }
{
    let places = order(d);
    for rank in from..to {
        block[places[rank] as usize] = from_digits(digits[rank]);
    }
}

/// Writes the coefficients of 256 ranks, sixteen at a time.
#[tactic(auto, using(std::proofs::lemmas::Bool::cases_lt))]
#[inline(always)]
fn unrank_sixteens<T: Lane>(d: u8, digits: &[u64], block: &mut [T])
    requires four { 4 ^ d ≡ 256 }
    requires block { AreOfBlock d digits.now block.old }
    ensures { HasRanks d 256
        (map (value_of T.width) (digits_in (bits T.width) digits.now)) (map T.value block.new) }
{
    for sixteen in 0..16 {
        unrank(d, 16 * sixteen, 16 * sixteen + 16, digits, block);
    }
}
