//! In which lines caches put blocks, for laws that speak of any.
ghost use Rattle.std.specs.Prelude.{ℕ};
ghost use Rattle.zf_cached.specs.Placing.{Line, IsPlacing, direct, IsDirect, direct_placing};

/// In which line a block is, or goes. It is all in which caches differ.
pub trait Placing {
    // The line of a block, among so many lines that hold these blocks, where these are dirty.
    ghost line: { Line };

    // Among so many lines, this block may be in this line.
    ghost may_hold: { ℕ → ℕ → ℕ → Type 0 };

    // Laws. The line is one that may hold the block, and a block that is in such a line, and in no other, is
    // found there.
    ghost placing: { IsPlacing line may_hold };
}

/// Each block has one line, its number modulo the number of lines.
pub struct Direct;

impl Placing for Direct {
    ghost line = { direct };

    ghost may_hold = { IsDirect };

    ghost placing = { direct_placing };
}
