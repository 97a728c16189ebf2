//! What a cache of blocks stands on: codes of blocks that can be read, and codes that can be written too.

ghost use Rattle.std.specs.Prelude.{◌≡◌, ℕ, ◌<◌, List, map, length};
ghost use Rattle.zf_base.specs.Formats.{Format, existing_of, meant, encoded, with_at};

use crate::lane::Lane;

/// Blocks of values that are kept as codes, to be read a block at a time.
///
/// What never changes about the codes is their format: how many blocks there are, how many places each has,
/// which of them exist, what a code means in a block, and which code is made of a block's values. What may
/// change is the code of each block.
pub trait Reading<T: Lane> {
    // The type of a block's code.
    ghost Code: { Type 0 };

    // What every call leaves as it is, beside the format: for a backing that borrows an array, which array
    // that is.
    ghost Kept: { Type 0 };

    // What never changes about the codes.
    ghost format: { Self → Format Code };

    // The code of each block.
    ghost codes: { Self → ℕ → Code };

    ghost kept: { Self → Kept };

    /// How many blocks there are.
    fn blocks(&self) -> u64
        ensures { result ≡ (format self.now).blocks };

    /// How many places a block has.
    fn block_len(&self) -> usize
        ensures { result ≡ (format self.now).block_len };

    /// Puts the values that the code of block `b` means into `line`, at the places that exist.
    fn load(&mut self, b: u64, line: &mut [T])
        requires block { b < (format self.old).blocks }
        requires whole { length line.old ≡ (format self.old).block_len }
        ensures value { existing_of (format self.old) b (map T.value line.new)
            ≡ meant (format self.old) b (codes self.old b) }
        ensures format { format self.new ≡ format self.old }
        ensures codes { codes self.new ≡ codes self.old }
        ensures kept { kept self.new ≡ kept self.old };
}

/// Blocks of values that are kept as codes, to be read and written a block at a time.
pub trait Backing<T: Lane>: Reading<T> {
    /// Makes the code of block `b` that of the values in `line`; a place that does not exist is not looked
    /// at.
    ///
    /// What a later `load` of the block gives is these values rounded: what the code that is made of them
    /// means.
    fn store(&mut self, b: u64, line: &[T])
        requires block { b < (Self.format self.old).blocks }
        requires whole { length line.now ≡ (Self.format self.old).block_len }
        ensures codes { Self.codes self.new ≡ with_at (Self.codes self.old) b
            (encoded (Self.format self.old) b (map T.value line.now)) }
        ensures format { Self.format self.new ≡ Self.format self.old }
        ensures kept { Self.kept self.new ≡ Self.kept self.old };
}
