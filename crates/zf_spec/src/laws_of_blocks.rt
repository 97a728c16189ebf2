//! Laws of the places of a block: their order, padding and the reversible transform.

ghost use Rattle.std.specs.Prelude.{◌≡◌, ℕ, ◌^◌, ◌<◌, ◌≤◌, ℤ, true, List, length, slice_index_or, ◌==◌, All, IsPermutation};
ghost use Rattle.std.specs.List.{position_or_len};
ghost use Rattle.std.specs.Int.{Width};
ghost use Rattle.zf_spec.specs.Grid.{product, coordinates, raster, is_inside, places};
ghost use Rattle.zf_spec.specs.Padding.{AreExtents, pad};
ghost use Rattle.zf_spec.specs.Codes.{existing_values};
ghost use Rattle.zf_spec.specs.Lorenzo.{lorenzo, unlorenzo};
ghost use Rattle.zf_spec.specs.Ranks.{order, Rises, by_rank, by_place};
ghost use Rattle.zf_spec.specs.Numbers.{AreValues};

/// A position in a box and its raster number, below the number of positions, determine one another.
pub fn positions_and_raster_numbers()
    ensures inside { (ns : List ℕ) (k : ℕ) → All (λ n. 1 ≤ n) ns → is_inside ns (coordinates ns k) ≡ true }
    ensures number { (ns : List ℕ) (k : ℕ) → k < product ns → raster ns (coordinates ns k) ≡ k }
    ensures below { (ns ps : List ℕ) → length ps ≡ length ns → is_inside ns ps ≡ true
        → raster ns ps < product ns }
    ensures position { (ns ps : List ℕ) → length ps ≡ length ns → is_inside ns ps ≡ true
        → coordinates ns (raster ns ps) ≡ ps }
{}

/// The padded block is a whole one; it has the values that exist, and is made of them alone.
pub fn padded_blocks()
    ensures whole { (es : List ℕ) (block : List ℤ) → length (pad es block) ≡ 4 ^ length es }
    ensures kept { (es : List ℕ) (block : List ℤ) → AreExtents es → existing_values es (pad es block)
        ≡ existing_values es block }
    ensures fit { (w : Width) (es : List ℕ) (block : List ℤ) → AreValues w block
        → AreValues w (pad es block) }
    ensures only { (es : List ℕ) (a b : List ℤ) → AreExtents es → existing_values es a
        ≡ existing_values es b → pad es a ≡ pad es b }
{}

/// The order of the places is the only arrangement of them in which the key rises.
pub fn order_of_places()
    ensures arrangement { (d : ℕ) → IsPermutation (places d) (order d) }
    ensures rises { (d : ℕ) → Rises d (order d) }
    ensures only { (d : ℕ) (ps : List ℕ) → IsPermutation (places d) ps → Rises d ps → ps ≡ order d }
{}

/// Each rank has a place and each place has a rank, so that a block by rank and by place determine one
/// another.
pub fn ranks_and_places()
    ensures place { (d k : ℕ) → k < 4 ^ d → slice_index_or (order d) k 0 < 4 ^ d }
    ensures rank { (d p : ℕ) → p < 4 ^ d
        → slice_index_or (order d) (position_or_len (λ q. q == p) (order d)) 0 ≡ p }
    ensures by_place { (d : ℕ) (block : List ℤ) → length block ≡ 4 ^ d → by_place d (by_rank d block)
        ≡ block }
    ensures by_rank { (d : ℕ) (values : List ℤ) → length values ≡ 4 ^ d → by_rank d (by_place d values)
        ≡ values }
{}

/// The reversible transform and its inverse undo each other, at each block of values of the type.
pub fn reversible_transform()
    ensures back { (w : Width) (d : ℕ) (block : List ℤ) → length block ≡ 4 ^ d → AreValues w block
        → unlorenzo w d (lorenzo w d block) ≡ block }
    ensures forth { (w : Width) (d : ℕ) (block : List ℤ) → length block ≡ 4 ^ d → AreValues w block
        → lorenzo w d (unlorenzo w d block) ≡ block }
    ensures whole { (w : Width) (d : ℕ) (block : List ℤ) → length (lorenzo w d block) ≡ 4 ^ d }
    ensures fit { (w : Width) (d : ℕ) (block : List ℤ) → AreValues w (lorenzo w d block) }
{}
