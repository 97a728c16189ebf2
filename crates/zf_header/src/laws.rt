//! Laws of headers. Each is a function with no parameters and an empty body, whose contract is the theorem.

ghost use Rattle.std.specs.Prelude.{◌≡◌, ℕ, ℤ, Bool, List, ◌++◌, length, take, None};
ghost use Rattle.zf_base.specs.Widths.{width_of};
ghost use Rattle.zf_spec.specs.Stream.{to_bits, stream};
ghost use Rattle.zf_header.specs.declared.header.Header.{Header};
ghost use Rattle.zf_header.specs.HeaderBits.{coding, IsRate, IsHeader, BeginsWith, header_bits, rate_bytes_of};
ghost use Rattle.zf_header.specs.HeaderFields.{header_in};
ghost use Rattle.zf_header.specs.HeaderFaults.{header_fault};

/// A header has one spelling: two headers do not have the same bits, and the bits of none begin those of
/// another.
pub fn one_spelling()
    ensures same { (g h : Header) → IsHeader g → IsHeader h → header_bits g ≡ header_bits h → g ≡ h }
    ensures none_begins_another { (g h : Header) (x y : List Bool) → IsHeader g → IsHeader h
        → header_bits g ++ x ≡ header_bits h ++ y → g ≡ h }
{}

/// Bytes have no fault exactly where they begin with the bits of a header, and the fields say which.
pub fn no_fault_where_a_header_begins()
    ensures begins { (bytes : List ℕ) → header_fault bytes ≡ None
        → BeginsWith bytes (header_in (to_bits bytes)) }
    ensures header { (bytes : List ℕ) → header_fault bytes ≡ None
        → IsHeader (header_in (to_bits bytes)) }
    ensures no_fault { (bytes : List ℕ) (h : Header) → IsHeader h → BeginsWith bytes h
        → header_fault bytes ≡ None }
    ensures only { (bytes : List ℕ) (h : Header) → IsHeader h → BeginsWith bytes h
        → header_in (to_bits bytes) ≡ h }
{}

/// The first 19 bytes decide.
pub fn first_bytes_decide()
    ensures fault { (bytes : List ℕ) → header_fault (take 19 bytes) ≡ header_fault bytes }
    ensures header { (bytes : List ℕ) → header_in (to_bits (take 19 bytes)) ≡ header_in (to_bits bytes) }
{}

/// What `rate_bytes` answers is the length of the stream.
pub fn length_of_a_stream_with_a_rate()
    ensures { (h : Header) (values : List ℤ) → IsRate h.mode
        → length (stream (width_of h.ty) h.shape (coding h.mode) values) ≡ rate_bytes_of h }
{}
