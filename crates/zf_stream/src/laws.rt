//! Laws of streams. Each is a function with no parameters and an empty body, whose contract is the theorem.

ghost use Rattle.std.specs.Prelude.{◌≡◌, ◌↔◌, ◌<◌, ℕ, ℤ, List, map, length, None, Ok, Err, IsOk, All};
ghost use Rattle.zf_spec.specs.Grid.{product, blocks, upto, extent_of, block_of, blocks_of};
ghost use Rattle.zf_spec.specs.Codes.{round, round_prec};
ghost use Rattle.zf_spec.specs.Stream.{values_from};
ghost use Rattle.zf_base.specs.Widths.{width_of};
ghost use Rattle.zf_header.specs.declared.header.Header.{Header};
ghost use Rattle.zf_header.specs.declared.header.Mode.TheVariants.{Reversible, Rate, Precision};
ghost use Rattle.zf_header.specs.HeaderBits.{IsHeader};
ghost use Rattle.zf_header.specs.HeaderFaults.{header_fault};
ghost use Rattle.zf_parse.specs.Raw.{raw_len, raw_bytes, stream_of, stream_text};
ghost use Rattle.zf_parse.specs.Parsing.{Said, header_of, values_of_blocks, said_of, parse, restore_answer};
ghost use Rattle.zf_parse.specs.Parsing.{restored_text};
ghost use Rattle.zf_parse.specs.declared.fault.StreamFault.{StreamFault};
ghost use Rattle.zf_spec.specs.Numbers.{AreValues};

/// What is restored of a stream is the raw bytes of its values.
pub fn text_of_a_stream()
    ensures { (bytes : List ℕ) (said : Said) → parse bytes ≡ Ok said → restored_text bytes
        ≡ raw_bytes said.header said.values }
{}

/// The values of an array are joined of its blocks.
pub fn joined_blocks()
    ensures { (ns : List ℕ) (values : List ℤ) → length values ≡ product ns
        → values_of_blocks ns (blocks_of ns values) ≡ values }
{}

/// What is restored of bytes with a good header has exactly the length of the raw values, whatever comes
/// behind the header.
pub fn length_of_what_is_restored()
    ensures { (bytes : List ℕ) → header_fault bytes ≡ None → length (restored_text bytes)
        ≡ raw_len (header_of bytes) }
{}

/// A stream is good exactly where it is parsed, and bad for the same fault.
pub fn restore_answers_as_parse_does()
    ensures ok { (bytes : List ℕ) → (restore_answer bytes ≡ Ok tt) ↔ IsOk (parse bytes) }
    ensures err { (bytes : List ℕ) (e : StreamFault) → (restore_answer bytes ≡ Err e) ↔
        (parse bytes ≡ Err e) }
{}

/// The stream of an array says its header, the codes of its blocks bit for bit, and its values, or what the
/// fixed rate or the fixed precision
/// makes of each block.
pub fn a_stream_is_parsed()
    ensures header { (h : Header) (values : List ℤ) → IsHeader h → header_of (stream_of h values) ≡ h }
    ensures reversible { (h : Header) (values : List ℤ) → IsHeader h → h.mode ≡ Reversible
        → length values ≡ product h.shape → AreValues (width_of h.ty) values
        → parse (stream_of h values) ≡ Ok (said_of h values values) }
    ensures rate { (h : Header) (values : List ℤ) (budget : ℕ) → IsHeader h → h.mode ≡ Rate budget
        → parse (stream_of h values) ≡ Ok (said_of h values (values_of_blocks h.shape
        (map (λ b. round (width_of h.ty) budget (extent_of h.shape b)
        (block_of h.shape values b)) (upto (blocks h.shape))))) }
    ensures precision { (h : Header) (values : List ℤ) (p : ℕ) → IsHeader h → h.mode ≡ Precision p
        → parse (stream_of h values) ≡ Ok (said_of h values (values_of_blocks h.shape
        (map (λ b. round_prec (width_of h.ty) p (extent_of h.shape b)
        (block_of h.shape values b)) (upto (blocks h.shape))))) }
{}

/// The stream of raw bytes is a good one. What is restored of it is these bytes, or the bytes of what the
/// fixed rate or the fixed precision makes of each block.
pub fn restore_undoes_compress()
    ensures answer { (h : Header) (bytes : List ℕ) → IsHeader h
        → restore_answer (stream_text h bytes) ≡ Ok tt }
    ensures reversible { (h : Header) (bytes : List ℕ) → IsHeader h → h.mode ≡ Reversible
        → length bytes ≡ raw_len h → All (λ b. b < 256) bytes → restored_text (stream_text h bytes) ≡ bytes }
    ensures rate { (h : Header) (bytes : List ℕ) (budget : ℕ) → IsHeader h → h.mode ≡ Rate budget
        → let values = values_from (width_of h.ty) (product h.shape) bytes in
        restored_text (stream_text h bytes) ≡ raw_bytes h (values_of_blocks h.shape
        (map (λ b. round (width_of h.ty) budget (extent_of h.shape b)
        (block_of h.shape values b)) (upto (blocks h.shape)))) }
    ensures precision { (h : Header) (bytes : List ℕ) (p : ℕ) → IsHeader h → h.mode ≡ Precision p
        → let values = values_from (width_of h.ty) (product h.shape) bytes in
        restored_text (stream_text h bytes) ≡ raw_bytes h (values_of_blocks h.shape
        (map (λ b. round_prec (width_of h.ty) p (extent_of h.shape b)
        (block_of h.shape values b)) (upto (blocks h.shape)))) }
{}
