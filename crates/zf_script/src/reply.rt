//! What is answered to a line of a script.

use zf_base::Stats;

/// Why a line is refused.
#[derive(Clone, Copy, Debug, PartialEq, Eq)]
pub enum Refusal {
    /// It is no line of the language.
    Word,
    /// It needs a split where there is none, or there is one and it is on the whole array.
    Split,
    /// A size, a step, a number of lines or of views that cannot be.
    Size,
    /// A position, an axis or a place outside; a view that there is not, or a position that is not the
    /// view's.
    Range,
    /// A value that the type does not have.
    Value,
    /// Out of memory.
    Memory,
}

/// What a line answers.
#[derive(Clone, Copy, Debug, PartialEq, Eq)]
pub enum Reply {
    /// A value or a sum.
    Number(i128),
    /// The counts of the cache.
    Counts(Stats),
    /// The line is refused, and has changed nothing.
    Refused(Refusal),
}
