//! What a cache of blocks counts.

/// The counts of a cache. One that has come to 2^64 - 1 stays there.
#[derive(Clone, Copy, Debug, Default, PartialEq, Eq)]
pub struct Stats {
    /// Touches of a block that was in its line.
    pub hits: u64,
    /// Touches of a block that was not.
    pub misses: u64,
    /// Write-backs.
    pub writes: u64,
}
