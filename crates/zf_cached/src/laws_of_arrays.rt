//! Laws of arrays of a fixed rate: what their codes mean, and what is saved.

ghost use Rattle.std.specs.Prelude.{◌≡◌, ℕ, ◌<◌, ℤ, Bool, List, length};
ghost use Rattle.std.specs.Int.{Width};
ghost use Rattle.zf_spec.specs.Grid.{blocks, extent_of};
ghost use Rattle.zf_spec.specs.Codes.{rate, round, read_rate};
ghost use Rattle.zf_spec.specs.Stream.{file, fixed_rate};
ghost use Rattle.zf_base.specs.Formats.{existing_of, meant, encoded, rounded};
ghost use Rattle.zf_cached.specs.State.{State};
ghost use Rattle.zf_cached.specs.Changes.{zeros};
ghost use Rattle.zf_cached.specs.Arrays.{Coding, plain_coding, rate_coding, array_format, open_array, codes_of, saved_file, file_bytes};

/// In an array of a fixed rate a block's code means what reading it gives, a write-back rounds as the rate
/// does, and the code of zeros means zeros.
pub fn rate_codes()
    ensures meaning { (w : Width) (budget : ℕ) (ns : List ℕ) (b : ℕ) (code : List Bool)
        → meant (array_format (rate_coding w budget) ns) b code ≡ read_rate w (extent_of ns b) code }
    ensures encoding { (w : Width) (budget : ℕ) (ns : List ℕ) (b : ℕ) (values : List ℤ) → b < blocks ns
        → encoded (array_format (rate_coding w budget) ns) b values ≡ rate w budget (extent_of ns b) values }
    ensures rounding { (w : Width) (budget : ℕ) (ns : List ℕ) (b : ℕ) (values : List ℤ) → b < blocks ns
        → rounded (array_format (rate_coding w budget) ns) b values ≡ round w budget (extent_of ns b) values }
    ensures zero { (w : Width) (budget : ℕ) (ns : List ℕ) (b : ℕ)
        → meant (array_format (rate_coding w budget) ns) b (rate_coding w budget).zero
        ≡ zeros (array_format (rate_coding w budget) ns) }
{}

/// Blocks that are their own codes lose nothing in a write-back.
pub fn plain_codes()
    ensures { (ns : List ℕ) (b : ℕ) (values : List ℤ)
        → rounded (array_format plain_coding ns) b values
        ≡ existing_of (array_format plain_coding ns) b values }
{}

/// An array that is opened and saved again gives the same file; a file's length is known from its shape and
/// its rate.
pub fn opened_and_saved()
    ensures codes { (w : Width) (budget : ℕ) (ns : List ℕ) (codes : List (List Bool)) (lines : ℕ)
        → length codes ≡ blocks ns → codes_of ns (open_array w budget ns codes lines) ≡ codes }
    ensures file { (w : Width) (budget : ℕ) (ns : List ℕ) (codes : List (List Bool)) (lines : ℕ)
        → length codes ≡ blocks ns
        → saved_file w budget ns (open_array w budget ns codes lines) ≡ file w ns (fixed_rate budget) codes }
    ensures length { (w : Width) (budget : ℕ) (ns : List ℕ) (s : State (List Bool))
        → ((b : ℕ) → length (s.codes b) ≡ budget) → length (saved_file w budget ns s)
        ≡ file_bytes w budget ns }
{}
