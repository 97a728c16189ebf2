//! Tiles of bits that are turned over their diagonal, in lanes of two words.
//!
//! Words are rows of bits. A tile is as many rows as it has columns. It is turned in steps: each swaps, at
//! one digit of the numbers of rows and columns to the base 2, the bits whose row has a zero there and whose
//! column has a one with those of which it is the other way round.

ghost use Rattle.std.specs.Prelude.{◌≡◌, ℕ, ◌+◌, ◌*◌, ◌%◌, ◌<◌, ◌≤◌, length};
ghost use Rattle.zf_coef.specs.Turned.{bit_of, IsSwapped, AreSwapped, IsStep, IsMask, IsStepped, IsTurned};
ghost use Rattle.zf_coef.specs.Turned.{crossed, IsFoldedTurned};

use crate::needed::any_digits;
use std::simd::prelude::*;

/// Swaps the bits of the two words from `low` on, each from its place `shift` on, with the bits of the two
/// words from `high` on that the mask has.
#[inline(always)]
fn swap_lanes(words: &mut [u64], low: usize, high: usize, shift: usize, mask: u64)
    requires apart { low + 2 ≤ high }
    requires within { high + 2 ≤ length words.old }
    requires shift { shift < 64 }
    ensures { IsSwapped 2 low high shift mask words.old words.new }
{
    let a = u64x2::from_slice(&words[low..]);
    let b = u64x2::from_slice(&words[high..]);
    let by = u64x2::splat(shift as u64);
    let moved = ((a >> by) ^ b) & u64x2::splat(mask);
    (b ^ moved).copy_to_slice(&mut words[high..]);
    (a ^ (moved << by)).copy_to_slice(&mut words[low..]);
}

/// Swaps the bits of the words `at` and `at + 1`, and of the two behind them, by one place: in each pair of
/// words the first has the lower bits.
#[inline(always)]
fn swap_next(words: &mut [u64], at: usize, mask: u64)
    requires within { at + 4 ≤ length words.old }
    ensures { AreSwapped at mask words.old words.new }
{
    let first = u64x2::from_slice(&words[at..]);
    let second = u64x2::from_slice(&words[at + 2..]);
    let (a, b) = first.deinterleave(second);
    let by = u64x2::splat(1);
    let moved = ((a >> by) ^ b) & u64x2::splat(mask);
    let (first, second) = (a ^ (moved << by)).interleave(b ^ moved);
    first.copy_to_slice(&mut words[at..]);
    second.copy_to_slice(&mut words[at + 2..]);
}

/// A step of words that stand next to each other, two pairs at a time.
#[inline(always)]
fn step_next<const N: usize>(words: &mut [u64; N], mask: u64)
    requires whole { N % 4 ≡ 0 }
    requires mask { IsMask 1 mask }
    ensures { IsStepped 1 words.old words.new }
{
    for four in 0..N / 4 {
        swap_next(words, 4 * four, mask);
    }
}

/// A step of words that stand `S` apart, two pairs at a time.
#[inline(always)]
fn step<const N: usize, const S: usize>(words: &mut [u64; N], mask: u64)
    requires step { IsStep S }
    requires whole { N % (2 * S) ≡ 0 }
    requires mask { IsMask S mask }
    ensures { IsStepped S words.old words.new }
{
    for pair in 0..N / 4 {
        let first = 2 * pair;
        let low = first + first / S * S;
        swap_lanes(words, low, low + S, S, mask);
    }
}

/// Turns the tiles of eight rows.
#[tactic(auto, using(crate::proofs::Turns::turning_steps))]
#[inline(always)]
fn turn_8(words: &mut [u64; 8])
    ensures { IsTurned 8 words.old words.new }
{
    step::<8, 4>(words, 0x0f0f_0f0f_0f0f_0f0f);
    step::<8, 2>(words, 0x3333_3333_3333_3333);
    step_next(words, 0x5555_5555_5555_5555);
}

/// Swaps, in each word, every second byte of its lower half with the byte before it in its upper half.
#[inline(always)]
fn cross(words: &mut [u64; 8])
    ensures { (j i : ℕ) → j < 8 → i < 64 → bit_of words.new j i ≡ bit_of words.old j (crossed i) }
{
    for j in 0..8 {
        let word = words[j];
        let moved = ((word >> 24) ^ word) & 0xff00_ff00;
        words[j] = word ^ moved ^ (moved << 24);
    }
}

/// Turns the tiles of sixteen rows of 32 places that lie folded in eight words: word j has row j, and then
/// row `j + 8`.
#[tactic(auto, using(crate::proofs::Turns::folded_turned))]
#[inline(always)]
pub(crate) fn turn_folded(words: &mut [u64; 8])
    ensures { IsFoldedTurned words.old words.new }
{
    cross(words);
    turn_8(words);
}

/// Turns the tiles of sixteen rows.
#[tactic(auto, using(crate::proofs::Turns::turning_steps))]
#[inline(always)]
pub(crate) fn turn_16(words: &mut [u64; 16])
    ensures { IsTurned 16 words.old words.new }
{
    step::<16, 8>(words, 0x00ff_00ff_00ff_00ff);
    step::<16, 4>(words, 0x0f0f_0f0f_0f0f_0f0f);
    step::<16, 2>(words, 0x3333_3333_3333_3333);
    step_next(words, 0x5555_5555_5555_5555);
}

/// Turns the tiles of sixteen rows of which only the first eight are there, and the others are zero.
#[tactic(auto, using(crate::proofs::Turns::mask_from, crate::proofs::Turns::half_turned))]
#[inline(always)]
fn turn_8_of_16(words: &mut [u64; 8]) -> [u64; 16]
    ensures { IsTurned 16 words.old result }
{
    turn_8(words);
    let mut rows = [0; 16];
    rows[..8].copy_from_slice(words);
    step::<16, 8>(&mut rows, 0x00ff_00ff_00ff_00ff);
    rows
}

/// Turns the tiles of sixteen rows, of which only the first eight if the others have no ones.
#[inline(always)]
fn turn_few(words: &mut [u64; 16])
    ensures { IsTurned 16 words.old words.new }
{
    if any_digits(&words[8..]) == 0 {
        let mut first = [0; 8];
        first.copy_from_slice(&words[..8]);
        *words = turn_8_of_16(&mut first);
    } else {
        turn_16(words);
    }
}

/// Turns the tiles of 32 rows of which only the first sixteen are there, and the others are zero.
#[tactic(auto, using(crate::proofs::Turns::mask_from))]
#[inline(always)]
pub(crate) fn turn_16_of_32(words: &mut [u64; 16]) -> [u64; 32]
    ensures { IsTurned 32 words.old result }
{
    turn_few(words);
    let mut rows = [0; 32];
    rows[..16].copy_from_slice(words);
    step::<32, 16>(&mut rows, 0x0000_ffff_0000_ffff);
    rows
}

/// Turns the tiles of 32 rows.
#[tactic(auto, using(crate::proofs::Turns::turning_steps))]
#[inline(always)]
pub(crate) fn turn_32(words: &mut [u64; 32])
    ensures { IsTurned 32 words.old words.new }
{
    step::<32, 16>(words, 0x0000_ffff_0000_ffff);
    step::<32, 8>(words, 0x00ff_00ff_00ff_00ff);
    step::<32, 4>(words, 0x0f0f_0f0f_0f0f_0f0f);
    step::<32, 2>(words, 0x3333_3333_3333_3333);
    step_next(words, 0x5555_5555_5555_5555);
}
