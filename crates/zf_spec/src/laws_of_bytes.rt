//! Laws of bytes: of bits and words, of raw values, and of the header.

ghost use Rattle.std.specs.Prelude.{◌≡◌, ℕ, ◌+◌, ◌*◌, ◌/◌, ◌%◌, ◌^◌, ◌<◌, ◌≤◌, ℤ, Bool, false, List, ◌++◌, length, replicate, slice_index_or, All};
ghost use Rattle.std.specs.Int.{Width, byte_len};
ghost use Rattle.zf_spec.specs.Grid.{IsDimension};
ghost use Rattle.zf_spec.specs.Numbers.{AreValues, is_odd, word_bits};
ghost use Rattle.zf_spec.specs.Stream.{with_fill, to_bytes, to_bits, first_bytes, values_from, raw, header, reversible, fixed_rate, fixed_precision};

/// Whole bytes of bits and their bytes determine one another.
pub fn bits_and_bytes()
    ensures bits { (bs : List Bool) → length bs % 8 ≡ 0 → to_bits (to_bytes bs) ≡ bs }
    ensures bytes { (bytes : List ℕ) → All (λ b. b < 256) bytes → to_bytes (to_bits bytes) ≡ bytes }
{}

/// Bit i of a list of bits is bit i mod 64 of word i / 64, and bit i mod 8 of byte i / 8, the least
/// significant bit of each first.
pub fn places_of_bits()
    ensures word { (words : List ℕ) (i : ℕ) → i < 64 * length words
        → slice_index_or (word_bits words) i false ≡ is_odd (slice_index_or words (i / 64) 0 / 2 ^ (i % 64)) }
    ensures byte { (bytes : List ℕ) (i : ℕ) → i < 8 * length bytes
        → slice_index_or (to_bits bytes) i false ≡ is_odd (slice_index_or bytes (i / 8) 0 / 2 ^ (i % 8)) }
    ensures written { (bs : List Bool) (i : ℕ) → length bs % 8 ≡ 0 → i < length bs
        → slice_index_or bs i false ≡ is_odd (slice_index_or (to_bytes bs) (i / 8) 0 / 2 ^ (i % 8)) }
{}

/// The fill is the only one of less than 64 zero bits that ends a word of 64.
pub fn fill()
    ensures zeros { (bs : List Bool) → (n : ℕ) × (n < 64) × (with_fill bs ≡ bs ++ replicate n false) }
    ensures whole { (bs : List Bool) → length (with_fill bs) % 64 ≡ 0 }
    ensures only { (bs : List Bool) (n : ℕ) → n < 64 → (length bs + n) % 64 ≡ 0 → with_fill bs
        ≡ bs ++ replicate n false }
{}

/// Values of the type and their raw bytes determine one another; bytes that are missing are zeros.
pub fn values_and_raw_bytes()
    ensures values { (w : Width) (values : List ℤ) → AreValues w values
        → values_from w (length values) (raw w values) ≡ values }
    ensures bytes { (w : Width) (n : ℕ) (s : List ℕ) → All (λ b. b < 256) s → raw w (values_from w n s)
        ≡ first_bytes (n * byte_len w) s }
    ensures fit { (w : Width) (n : ℕ) (s : List ℕ) → AreValues w (values_from w n s) }
    ensures length { (w : Width) (n : ℕ) (s : List ℕ) → length (values_from w n s) ≡ n }
{}

/// The header of an array of one to four dimensions has 96 bits, or 148 where the rate is above 2048.
pub fn length_of_the_header()
    ensures reversible { (w : Width) (ns : List ℕ) → IsDimension (length ns)
        → length (header w ns reversible) ≡ 96 }
    ensures rate { (w : Width) (ns : List ℕ) (b : ℕ) → IsDimension (length ns) → b ≤ 2048
        → length (header w ns (fixed_rate b)) ≡ 96 }
    ensures precision { (w : Width) (ns : List ℕ) (p : ℕ) → IsDimension (length ns)
        → length (header w ns (fixed_precision p)) ≡ 96 }
    ensures long { (w : Width) (ns : List ℕ) (b : ℕ) → IsDimension (length ns) → 2048 < b
        → length (header w ns (fixed_rate b)) ≡ 148 }
{}
