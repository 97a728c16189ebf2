//! Laws of slabs, the values between two rows of an array's last axis. Each is a function with no parameters
//! and an empty body, whose contract is the theorem.

ghost use Rattle.std.specs.Prelude.{◌≡◌, ◌<◌, ◌≤◌, ◌+◌, ◌*◌, ℕ, ℤ, List, length};
ghost use Rattle.zf_base.specs.declared.position.Extent.{Extent};
ghost use Rattle.zf_pad.specs.declared.layout.Layout.{Layout};
ghost use Rattle.zf_pad.specs.Rasters.{IsRaster, IsRasterBlock};
ghost use Rattle.zf_pad.specs.Copies.{IsGathered};
ghost use Rattle.zf_spec.specs.Codes.{existing_values};
ghost use Rattle.zf_spec.specs.Grid.{product, grid, blocks, coordinates, extent_of, block_of};
ghost use Rattle.zf_pad.specs.Slabs.{rows_of, row_len, with_rows, rows_on, IsSlab, slab_of, first_block};

/// A slab is an array of its own: it has the sizes of the whole array but for its rows, and its values stand
/// beside one another. Its blocks are those of the whole array, from its first block on.
#[tactic(auto, using(crate::proofs::Slabs::slabs_are))]
pub fn slabs_of_an_array()
    ensures values { (ns : List ℕ) (rows : ℕ) → 1 ≤ length ns → product (with_rows rows ns)
        ≡ row_len ns * rows }
    ensures all { (ns : List ℕ) → with_rows (rows_of ns) ns ≡ ns }
    ensures extent { (ns : List ℕ) (c rows j : ℕ) → IsSlab ns c rows → j < blocks (with_rows rows ns)
        → extent_of ns (first_block ns c + j) ≡ extent_of (with_rows rows ns) j }
    ensures block { (ns : List ℕ) (values : List ℤ) (c rows j : ℕ) → IsSlab ns c rows
        → j < blocks (with_rows rows ns)
        → block_of ns values (first_block ns c + j)
        ≡ block_of (with_rows rows ns) (slab_of ns values c rows) j }
{}

/// What is gathered of a slab, where the origin of its block along the last axis is counted from the slab's
/// first row, is what is gathered of the whole array: its block. The layout of the whole array serves.
#[tactic(auto, using(crate::proofs::Slabs::slabs_gathered))]
pub fn blocks_gathered_of_slabs()
    ensures layout { (ns : List ℕ) (rows : ℕ) (layout : Layout) → 1 ≤ length ns → length ns ≤ 4
        → rows ≤ rows_of ns
        → IsRaster ns layout → IsRaster (with_rows rows ns) layout }
    ensures origin { (ns : List ℕ) (c rows j : ℕ) → IsSlab ns c rows → j < blocks (with_rows rows ns)
        → coordinates (grid ns) (first_block ns c + j)
        ≡ rows_on c (coordinates (grid (with_rows rows ns)) j) }
    ensures block { (ns : List ℕ) (values old new : List ℤ) (c rows j : ℕ) (layout : Layout) (e : Extent)
        → IsSlab ns c rows → IsRasterBlock (with_rows rows ns) j layout e
        → IsGathered layout e (slab_of ns values c rows) old new
        → existing_values (extent_of ns (first_block ns c + j)) new
        ≡ block_of ns values (first_block ns c + j) }
{}
