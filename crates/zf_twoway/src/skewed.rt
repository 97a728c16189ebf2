//! The two lines of a block, and in which of them it is, or goes.
ghost use Rattle.std.specs.Prelude.{◌≡◌, ◌+◌, ◌*◌, ◌/◌, ◌%◌, ◌^◌, ◌<◌, ◌≤◌, is_none, length};
ghost use Rattle.zf_cached.specs.State.{is_block};
ghost use Rattle.zf_cache.specs.Bodies.{IsMask};
ghost use Rattle.zf_cache.specs.Kept.{block_in, dirty_of};
ghost use Rattle.zf_twoway.specs.Placing.{second_line, taking_line, IsOneOfTwo, two_lines, two_placing};
ghost use Rattle.zf_twoway.specs.Placing.{skewed, skewed_rule, skewed_told};

use zf_cache::Rule;
use zf_cached::placing::Placing;

/// Each block has two lines, and is in one of them. It goes to one that is empty or clean where it can.
pub struct Skewed;

/// Whether a line with this tag holds block `b`.
#[inline]
fn holds(tag: u64, b: u64) -> bool
    ensures { result ≡ is_block (block_in tag) b }
{
    tag >= 2 && tag / 2 - 1 == b
}

/// Whether a line with this tag is empty.
#[inline]
fn is_empty(tag: u64) -> bool
    ensures { result ≡ is_none (block_in tag) }
{
    tag < 2
}

/// Whether no dirty block is in a line with this tag.
#[inline]
fn is_clean(tag: u64) -> bool
    ensures { result ≡ is_none (dirty_of tag) }
{
    tag < 2 || tag % 2 == 0
}

/// Which of two lines takes in a block that neither holds, by their tags `one` and `two`: an empty one, or
/// else a clean one, or else the first. Of two alike it is the first.
fn taking(one: u64, two: u64, first: u32, second: u32) -> u32
    ensures { result ≡ taking_line one two first second }
{
    if is_empty(one) {
        first
    } else if is_empty(two) {
        second
    } else if is_clean(one) {
        first
    } else if is_clean(two) {
        second
    } else {
        first
    }
}

/// The second line of block `b`, among so many lines.
#[inline]
fn second_of(b: u64, lines: u64) -> u64
    requires some { 0 < lines }
    requires mask { IsMask lines }
    ensures { result ≡ second_line lines b }
{
    (b ^ (b / lines)) & (lines - 1)
}

impl Placing for Skewed {
    ghost line = { two_lines };

    ghost may_hold = { IsOneOfTwo };

    ghost placing = { two_placing };
}

impl Rule for Skewed {
    ghost place = { skewed };

    ghost rule = { skewed_rule };

    ghost told = { skewed_told };

    #[inline]
    fn line_for(tags: &[u64], b: u64) -> u32 {
        let lines = tags.len() as u64;
        let first = b & (lines - 1);
        let one = tags[first as usize];
        if holds(one, b) {
            return first as u32;
        }
        let second = second_of(b, lines);
        let two = tags[second as usize];
        if holds(two, b) {
            return second as u32;
        }
        taking(one, two, first as u32, second as u32)
    }
}
