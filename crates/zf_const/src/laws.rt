//! Laws of read-only arrays. Each is a function with no parameters and an empty body, whose contract is the
//! theorem.

ghost use Rattle.std.specs.Prelude.{◌≡◌, List, ℕ, Ok, length, map, pos, slice_index_or};
ghost use Rattle.zf_spec.specs.Grid.{IsShape, blocks, raster, upto};
ghost use Rattle.zf_base.specs.declared.position.Pos.{Pos};
ghost use Rattle.zf_base.specs.Places.{block_number, place_of};
ghost use Rattle.zf_base.specs.Positions.{used_axes, IsPosition};
ghost use Rattle.zf_header.specs.declared.header.Header.{Header};
ghost use Rattle.zf_cached.specs.Touch.{touch};
ghost use Rattle.zf_cached.specs.Changes.{relined};
ghost use Rattle.zf_parse.specs.Parsing.{Said, parse, values_of_blocks};
ghost use Rattle.zf_const.specs.Standing.{Held, format, state, shape, block_at, place_at, open_stream};
ghost use Rattle.zf_const.specs.Files.{IsOpened};

/// At each position an array has the value that its stream says there.
pub fn values_are_the_streams()
    ensures { (bytes : List ℕ) (h : Header) (a : Held) (said : Said) (p : Pos) → IsOpened bytes h a
        → parse bytes ≡ Ok said → IsShape (shape a) → IsPosition (shape a) p
        → slice_index_or ((state a).values (block_at a p)) (place_at a p) (pos 0)
        ≡ slice_index_or said.values (raster (shape a) (used_axes (length (shape a)) p)) (pos 0) }
{}

/// What is read changes no value, nor does a new number of lines.
pub fn values_stay()
    ensures touch { (a : Held) (b : ℕ) → (touch (format a) (state a) b).values ≡ (state a).values }
    ensures lines { (a : Held) (lines : ℕ) → (relined (format a) (state a) lines).values ≡ (state a).values }
{}

/// The values that a stream says are those that its codes mean, in each mode: the state from which a look
/// begins has them, block by block and at each position, for any number of lines.
pub fn values_are_what_codes_mean()
    ensures count { (bytes : List ℕ) (said : Said) → parse bytes ≡ Ok said
        → length said.codes ≡ blocks said.header.shape }
    ensures blocks { (bytes : List ℕ) (said : Said) (lines : ℕ) → parse bytes ≡ Ok said
        → said.values ≡ values_of_blocks said.header.shape
        (map (open_stream said.header said.codes lines).values (upto (blocks said.header.shape))) }
    ensures position { (bytes : List ℕ) (said : Said) (lines : ℕ) (p : Pos) → parse bytes ≡ Ok said
        → IsPosition said.header.shape p
        → let ns = said.header.shape in
        let ps = used_axes (length ns) p in
        slice_index_or ((open_stream said.header said.codes lines).values (block_number ns ps)) (place_of ps) (pos 0)
        ≡ slice_index_or said.values (raster ns ps) (pos 0) }
{}
