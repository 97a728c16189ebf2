//! What is certified of a stream.

/// How far the values of a stream are, at most, from whatever was stored in it.
#[derive(Clone, Copy, Debug, PartialEq, Eq)]
pub struct Certified {
    /// All bit planes from this one up are whole in the code of each block. Planes are numbered by their
    /// digit, the lowest is plane 0.
    pub plane: u32,
    /// How far each value is at most from the one that was stored, where the bound holds.
    pub error: u128,
    /// Whether the bound holds for all contents of the magnitude that was asked for.
    pub holds: bool,
}
