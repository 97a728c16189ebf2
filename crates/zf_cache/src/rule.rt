//! In which line a block is, or goes, as the tags of the lines tell it.
ghost use Rattle.std.specs.Prelude.{◌≡◌, ℕ, ◌<◌, ◌≤◌, ◌^◌, List, length};
ghost use Rattle.zf_cache.specs.Bodies.{AreLines};
ghost use Rattle.zf_cache.specs.Kept.{one_line};
ghost use Rattle.zf_cache.specs.Rules.{IsRule, IsTold, one_line_rule, one_line_told};

use zf_cached::placing::{Direct, Placing};

/// A placing that the tags of the lines tell: which lines may hold a block, and in which of them it is, or
/// goes where none does. It is all in which caches over a `Body` differ.
pub trait Rule: Placing {
    // The line of a block, in a cache of so many lines with these tags.
    ghost place: { ℕ → List ℕ → ℕ → ℕ };

    /// The line of block `b` in a cache with these tags, one a line: the line that it is in, or else the line
    /// that it goes to.
    fn line_for(tags: &[u64], b: u64) -> u32
        requires { AreLines (length tags.now) }
        ensures place { result ≡ place (length tags.now) tags.now b }
        ensures inside { result < length tags.now };

    // Laws. The line is one that may hold the block, and a block that is in such a line, and in no other, is
    // found there.
    ghost rule: { IsRule place Self.may_hold };

    // It is the line that the placing tells.
    ghost told: { IsTold place Self.line };
}

impl Rule for Direct {
    ghost place = { one_line };

    ghost rule = { one_line_rule };

    ghost told = { one_line_told };

    #[inline]
    fn line_for(tags: &[u64], b: u64) -> u32 {
        (b & (tags.len() as u64 - 1)) as u32
    }
}
