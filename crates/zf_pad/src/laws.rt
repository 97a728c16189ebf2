//! Laws of the blocks of raw values. Each is a function with no parameters and an empty body, whose contract
//! is the theorem.

ghost use Rattle.std.specs.Prelude.{◌≡◌, ◌≢◌, ◌<◌, ◌≤◌, ℕ, ℤ, List, length};
ghost use Rattle.zf_spec.specs.Grid.{product, blocks, extent_of, block_of};
ghost use Rattle.zf_spec.specs.Padding.{pad};
ghost use Rattle.zf_spec.specs.Codes.{existing_values};
ghost use Rattle.zf_base.specs.declared.position.Extent.{Extent};
ghost use Rattle.zf_pad.specs.declared.layout.Layout.{Layout};
ghost use Rattle.zf_pad.specs.Layouts.{LiesWithin, IsOneToOne};
ghost use Rattle.zf_pad.specs.Rasters.{IsRasterBlock};
ghost use Rattle.zf_pad.specs.Copies.{IsGathered, IsScattered};

/// The places of each block lie within the raw values, at different indices.
#[tactic(auto, using(crate::proofs::Blocks::one_to_one))]
pub fn places_of_blocks()
    ensures within { (ns : List ℕ) (b n : ℕ) (layout : Layout) (e : Extent)
        → IsRasterBlock ns b layout e → product ns ≤ n → LiesWithin layout e n }
    ensures one_to_one { (ns : List ℕ) (b : ℕ) (layout : Layout) (e : Extent)
        → IsRasterBlock ns b layout e → IsOneToOne layout e }
{}

/// What is gathered of raw values is the block of the array, and padded it is the padded block.
#[tactic(auto, using(crate::proofs::Blocks::gathered_block, crate::proofs::Blocks::gathered_padded))]
pub fn gathered_blocks()
    ensures existing { (ns : List ℕ) (b : ℕ) (layout : Layout) (e : Extent) (values old new : List ℤ)
        → IsRasterBlock ns b layout e → IsGathered layout e values old new
        → existing_values (extent_of ns b) new ≡ block_of ns values b }
    ensures padded { (ns : List ℕ) (b : ℕ) (layout : Layout) (e : Extent) (values old new : List ℤ)
        → IsRasterBlock ns b layout e → IsGathered layout e values old new
        → pad (extent_of ns b) new ≡ pad (extent_of ns b) (block_of ns values b) }
{}

/// A scatter into raw values writes the block of the array and leaves all other blocks; an array is what its
/// blocks are.
#[tactic(auto, using(crate::proofs::Blocks::values_from_blocks))]
pub fn scattered_blocks()
    ensures block { (ns : List ℕ) (b : ℕ) (layout : Layout) (e : Extent) (block old new : List ℤ)
        → IsRasterBlock ns b layout e → IsScattered layout e block old new
        → block_of ns new b ≡ existing_values (extent_of ns b) block }
    ensures others { (ns : List ℕ) (b other : ℕ) (layout : Layout) (e : Extent) (block old new : List ℤ)
        → IsRasterBlock ns b layout e → IsScattered layout e block old new
        → other < blocks ns → other ≢ b → block_of ns new other ≡ block_of ns old other }
    ensures all { (ns : List ℕ) (u v : List ℤ) → length u ≡ product ns → length v ≡ product ns
        → ((b : ℕ) → b < blocks ns → block_of ns u b ≡ block_of ns v b) → u ≡ v }
{}
