//! What the codes of a block differ in: the transform of its values, and how the planes of the coefficients
//! are written and read.

ghost use Rattle.std.specs.Prelude.{◌≡◌, ◌≤◌, ◌-◌, ◌^◌, ◌↔◌, ℕ, ℤ, pos, [], ◌∷◌, Bool, IsTrue, false, List};
ghost use Rattle.std.specs.Prelude.{map, length, replicate, IfNone, IfSome, OnSome};
ghost use Rattle.zf_spec.specs.Grid.{IsDimension};
ghost use Rattle.zf_spec.specs.HeldPlanes.{planes_held};
ghost use Rattle.zf_spec.specs.Planes.{planes_of};
ghost use Rattle.zf_coef.specs.HeldDigits.{digits_in};
ghost use Rattle.zf_bits.specs.Writer.{Appends};
ghost use Rattle.zf_bits.specs.Reader.{rest};
ghost use Rattle.zf_base.specs.WholeBlocks.{IsBlockOf};
ghost use Rattle.zf_block.specs.Block.{AreAbove};
ghost use Rattle.zf_block.specs.Held.{IsHeldSize, IsWorkRoom, AreBlank};
ghost use Rattle.zf_block.specs.Decoding.{PassesCode, MovesIf, Decodes, HoldsAbove, FindsFirst};
ghost use Rattle.zf_block.specs.Passing.{HasNext};

use crate::Dims;
use zf_base::Lane;
use zf_bits::{BitReader, BitWriter, Plane};

/// One of the codes of a block.
pub(crate) trait BlockCode<T: Lane> {
    // The transform of the values in so many dimensions, and its inverse.
    ghost forth: { ℕ → List ℤ → List ℤ };

    ghost back: { ℕ → List ℤ → List ℤ };

    // The code of planes.
    ghost code_of: { Self → List (List Bool) → List Bool };

    // The coefficients of a block of zeros are zeros.
    ghost keeps_zeros: { (d : ℕ) → IsDimension d
        → forth d (replicate (4 ^ d) (pos 0)) ≡ pos 0 ∷ replicate (4 ^ d - 1) (pos 0) };

    // And the values of zeros are zeros.
    ghost gives_zeros: { (d : ℕ) → IsDimension d
        → back d (pos 0 ∷ replicate (4 ^ d - 1) (pos 0)) ≡ replicate (4 ^ d) (pos 0) };

    // As many bits as the longest code has, of planes of this size.
    ghost longest: { Self → ℕ → ℕ };

    // The planes of this size that a code at the front of bits stands for, and how many bits it has.
    ghost planes_at: { Self → ℕ → List Bool → List (List Bool) };

    ghost len_at: { Self → ℕ → List Bool → ℕ };

    // Whether it is seen of bits that they begin with the code of a block of zeros.
    ghost zeros_next: { Self → List Bool → Type 0 };

    /// Makes coefficients of the values of a block.
    fn forward(d: u8, block: &mut [T])
        requires block { IsBlockOf d block.old }
        ensures { map T.value block.new ≡ forth d (map T.value block.old) };

    /// Makes values of the coefficients of a block.
    fn inverse(d: u8, block: &mut [T])
        requires block { IsBlockOf d block.old }
        ensures { map T.value block.new ≡ back d (map T.value block.old) };

    /// Whether the coefficients of a block of this value everywhere are the value and then zeros.
    fn keeps_first(value: T) -> bool
        ensures { IsTrue result → (d : ℕ) → IsDimension d
            → forth d (replicate (4 ^ d) (T.value value)) ≡ T.value value ∷ replicate (4 ^ d - 1) (pos 0) };

    /// The inverse of coefficients of which all but the first are zero.
    fn inverse_of_first(d: u8, first: T, block: &mut [T])
        requires block { IsBlockOf d block.old }
        ensures { map T.value block.new ≡ back d (T.value first ∷ replicate (4 ^ d - 1) (pos 0)) };

    /// Appends the code of planes, which have these digits, in room that is there already.
    fn write<P: Plane>(&self, size: usize, digits: &[u64], planes: &[P], out: &mut BitWriter)
        requires room { IsWorkRoom size P.word_count T.WIDTH digits.now planes.now }
        requires digits { planes_held size (map P.words planes.now)
            ≡ planes_of T.WIDTH (digits_in T.WIDTH digits.now) }
        requires fits { longest self.now size ≤ out.old.room }
        ensures { Appends out.old out.new (code_of self.now (planes_held size (map P.words planes.now))) };

    /// Appends the code of the planes that these digits have, by way of planes that it makes. Digits and
    /// planes become anything.
    fn write_digits<P: Plane>(
        &self,
        size: usize,
        digits: &mut [u64],
        planes: &mut [P],
        out: &mut BitWriter,
    )
        requires room { IsWorkRoom size P.word_count T.WIDTH digits.old planes.old }
        requires fits { longest self.now size ≤ out.old.room }
        ensures { Appends out.old out.new
            (code_of self.now (planes_of T.WIDTH (digits_in T.WIDTH digits.old))) };

    /// Reads the code of planes into planes of zeros, or answers `None` where the bits end before it does.
    /// The planes below those that it has stay zero. The next bits are those of `word`, here and below.
    fn read<P: Plane>(
        &self,
        size: usize,
        word: u64,
        reader: &mut BitReader<'_>,
        planes: &mut [P],
    ) -> Option<()>
        requires size { IsHeldSize size P.word_count }
        requires next { HasNext word (rest reader.old) }
        requires blank { AreBlank T.WIDTH P.word_count P.words planes.old }
        ensures { Decodes (len_at self.now size)
            (HoldsAbove size (planes_at self.now size) (planes_held size (map P.words planes.new)))
            result reader.old reader.new };

    /// Appends the code of the planes of four coefficients, straight from their digits.
    fn write_four(&self, digits: &[u64; 4], out: &mut BitWriter)
        requires fits { longest self.now 4 ≤ out.old.room }
        ensures { Appends out.old out.new
            (code_of self.now (planes_of T.WIDTH (digits_in T.WIDTH digits.now))) };

    /// Reads the code of the planes of four coefficients straight into their digits, or answers `None` where
    /// the bits end before it does. The digits below the planes that it has are zero.
    fn read_four(&self, word: u64, reader: &mut BitReader<'_>, digits: &mut [u64; 4]) -> Option<()>
        requires next { HasNext word (rest reader.old) }
        ensures { Decodes (len_at self.now 4)
            (HoldsAbove 4 (planes_at self.now 4) (planes_of T.WIDTH (digits_in T.WIDTH digits.new)))
            result reader.old reader.new };

    /// Passes the code of a block of zeros, where it is seen that one is next.
    fn pass_zeros(&self, d: Dims, word: u64, reader: &mut BitReader<'_>) -> bool
        requires next { HasNext word (rest reader.old) }
        ensures seen { IsTrue result ↔ zeros_next self.now (rest reader.old) }
        ensures passes { MovesIf result reader.old reader.new
            (PassesCode (len_at self.now (4 ^ d.count) (rest reader.old)) reader.old reader.new) }
        ensures zeros { IsTrue result
            → AreAbove (4 ^ d.count) [] (planes_at self.now (4 ^ d.count) (rest reader.old)) };

    /// Reads the code of a block of which the first coefficient alone is not zero, where it is seen that one
    /// is next. The answer is the digits of the first.
    fn read_first(&self, d: Dims, word: u64, reader: &mut BitReader<'_>) -> Option<u64>
        ensures { FindsFirst T.WIDTH (4 ^ d.count) (len_at self.now (4 ^ d.count))
            (planes_at self.now (4 ^ d.count)) result reader.old reader.new };

    /// How many bits the code of a block of zeros has, all of which are zero.
    fn len_of_zeros(&self, d: Dims) -> u64
        ensures code { code_of self.now (replicate T.WIDTH (replicate (4 ^ d.count) false))
            ≡ replicate result false }
        ensures fits { result ≤ longest self.now (4 ^ d.count) };
}
