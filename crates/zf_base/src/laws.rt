//! Laws of the grid. Each is a function with no parameters and an empty body, whose contract is the theorem.

ghost use Rattle.std.specs.Prelude.{◌≡◌, true, ℕ, List, length};
ghost use Rattle.zf_spec.specs.Grid.{is_inside};
ghost use Rattle.zf_base.specs.Places.{IsAt, block_number, place_of};

/// Each position of an array is in exactly one block and place, and a place that exists is that of a
/// position.
pub fn one_place_for_a_position()
    ensures some { (ns ps : List ℕ) → length ps ≡ length ns → is_inside ns ps ≡ true
        → IsAt ns ps (block_number ns ps) (place_of ps) }
    ensures one { (ns ps : List ℕ) (b p : ℕ) → IsAt ns ps b p
        → (b ≡ block_number ns ps) × (p ≡ place_of ps) }
    ensures inside { (ns ps : List ℕ) (b p : ℕ) → IsAt ns ps b p
        → (is_inside ns ps ≡ true) × (length ps ≡ length ns) }
{}
