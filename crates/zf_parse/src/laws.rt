//! Laws of what streams say. Each is a function with no parameters and an empty body, whose contract is the
//! theorem.

ghost use Rattle.std.specs.Prelude.{◌≡◌, ◌↔◌, ◌<◌, ◌≤◌, ℕ, ℤ, Bool, List, length, Some, None, Ok, Err};
ghost use Rattle.std.specs.Int.{Width};
ghost use Rattle.zf_spec.specs.Grid.{product, blocks};
ghost use Rattle.zf_spec.specs.Numbers.{AreValues};
ghost use Rattle.zf_base.specs.Widths.{width_of};
ghost use Rattle.zf_header.specs.declared.header.Mode.{Mode};
ghost use Rattle.zf_header.specs.HeaderFaults.{header_fault};
ghost use Rattle.zf_parse.specs.declared.fault.StreamFault.TheVariants.{Truncated};
ghost use Rattle.zf_parse.specs.Raw.{raw_bytes};
ghost use Rattle.zf_parse.specs.Parsing.{header_of, code_bits, read_code, Said, parse, restored_text};
ghost use Rattle.zf_parse.specs.Cuts.{IsFirstShort, IsFillShort};

/// A stream ends in block b exactly where its header is good, all blocks before b have whole codes in it and
/// that of b has a bit past its end. It ends in the block behind the last one exactly where all codes are
/// whole and only bits of the fill are missing.
pub fn the_first_short_code()
    ensures code { (bytes : List ℕ) (b : ℕ) → header_fault bytes ≡ None → b < blocks (header_of bytes).shape
        → (parse bytes ≡ Err (Truncated b)) ↔ IsFirstShort (header_of bytes) b (code_bits bytes) }
    ensures fill { (bytes : List ℕ) → header_fault bytes ≡ None
        → (parse bytes ≡ Err (Truncated (blocks (header_of bytes).shape)))
        ↔ IsFillShort (header_of bytes) (code_bits bytes) }
    ensures good { (bytes : List ℕ) (b : ℕ) → parse bytes ≡ Err (Truncated b) → header_fault bytes ≡ None }
    ensures bound { (bytes : List ℕ) (b : ℕ) → parse bytes ≡ Err (Truncated b)
        → b ≤ blocks (header_of bytes).shape }
{}

/// What reading gives is of the type, in each mode: the block of a code, the values that a stream says, and
/// those that are restored of bytes with a good header, whatever comes behind it.
pub fn what_is_read_fits()
    ensures code { (w : Width) (mode : Mode) (es : List ℕ) (s : List Bool) (block : List ℤ) (len : ℕ)
        → read_code w mode es s ≡ Some (block, len) → AreValues w block }
    ensures stream { (bytes : List ℕ) (said : Said) → parse bytes ≡ Ok said
        → AreValues (width_of said.header.ty) said.values }
    ensures restored { (bytes : List ℕ) → header_fault bytes ≡ None
        → (values : List ℤ) × AreValues (width_of (header_of bytes).ty) values
        × (length values ≡ product (header_of bytes).shape)
        × (restored_text bytes ≡ raw_bytes (header_of bytes) values) }
{}
