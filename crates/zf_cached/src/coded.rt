//! Types of codes, for laws that speak of any.

/// A type of codes of blocks.
pub trait Coded {
    ghost Code: { Type 0 };
}

/// Codes that are lists of bits.
pub struct Bits;

impl Coded for Bits {
    ghost use Rattle.std.specs.Prelude.{Bool, List};

    ghost Code = { List Bool };
}
