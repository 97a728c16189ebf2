//! The span of a code.

/// Where the code of a block stands in its file: the bit at which it begins, counted from the first of the
/// file, and how many bits it has.
#[derive(Clone, Copy, Debug, PartialEq, Eq)]
pub struct Span {
    pub at: u64,
    pub len: u64,
}
