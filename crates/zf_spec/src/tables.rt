//! The tables of the format, computed by the definitions.

ghost use Rattle.std.specs.Prelude.{◌≡◌, ℕ, pos, negsuc, [], ◌∷◌, ◌++◌, take, true, false, replicate, Some};
ghost use Rattle.std.specs.Int.{w32, w64};
ghost use Rattle.zf_spec.specs.Padding.{pad};
ghost use Rattle.zf_spec.specs.Lift.{lift, unlift};
ghost use Rattle.zf_spec.specs.Lorenzo.{lorenzo, unlorenzo};
ghost use Rattle.zf_spec.specs.Ranks.{order};
ghost use Rattle.zf_spec.specs.Numbers.{digits, field, number};
ghost use Rattle.zf_spec.specs.Planes.{plane_code, reach};
ghost use Rattle.zf_spec.specs.Codes.{rev, round, read_rate, round_prec, read_prec};
ghost use Rattle.zf_spec.specs.Stream.{stream_of_bytes, mode_number, long_form, reversible, fixed_rate, fixed_precision};

/// A line of one to four values is padded to four.
#[tactic(auto, unfolding(crate::specs::Padding::pad))]
pub fn padding()
    ensures one { pad (1 ∷ []) (pos 1 ∷ pos 7 ∷ pos 8 ∷ pos 9 ∷ []) ≡ pos 1 ∷ pos 1 ∷ pos 1 ∷ pos 1 ∷ [] }
    ensures two { pad (2 ∷ []) (pos 1 ∷ pos 2 ∷ pos 8 ∷ pos 9 ∷ []) ≡ pos 1 ∷ pos 2 ∷ pos 2 ∷ pos 1 ∷ [] }
    ensures three { pad (3 ∷ []) (pos 1 ∷ pos 2 ∷ pos 3 ∷ pos 9 ∷ []) ≡ pos 1 ∷ pos 2 ∷ pos 3 ∷ pos 1 ∷ [] }
    ensures four { pad (4 ∷ []) (pos 1 ∷ pos 2 ∷ pos 3 ∷ pos 4 ∷ []) ≡ pos 1 ∷ pos 2 ∷ pos 3 ∷ pos 4 ∷ [] }
{}

/// The lossy transform of a line, and its inverse.
pub fn lift_lines()
    ensures low { lift w32 1 (pos 1 ∷ pos 0 ∷ pos 0 ∷ pos 0 ∷ []) ≡ pos 0 ∷ pos 0 ∷ pos 0 ∷ pos 0 ∷ [] }
    ensures rising { lift w32 1 (pos 1 ∷ pos 2 ∷ pos 3 ∷ pos 4 ∷ []) ≡ pos 2 ∷ negsuc 0 ∷ pos 0 ∷ pos 0 ∷ [] }
    ensures back { unlift w32 1 (pos 2 ∷ negsuc 0 ∷ pos 0 ∷ pos 0 ∷ []) ≡ pos 0 ∷ pos 2 ∷ pos 2 ∷ pos 4 ∷ [] }
    ensures flat { lift w32 1 (pos 3 ∷ pos 3 ∷ pos 3 ∷ pos 3 ∷ []) ≡ pos 3 ∷ pos 0 ∷ pos 0 ∷ pos 0 ∷ [] }
    ensures flat_back { unlift w32 1 (pos 3 ∷ pos 0 ∷ pos 0 ∷ pos 0 ∷ []) ≡ pos 3 ∷ pos 3 ∷ pos 3 ∷ pos 3
        ∷ [] }
{}

/// The reversible transform of a line, and its inverse.
pub fn lorenzo_lines()
    ensures rising { lorenzo w32 1 (pos 1 ∷ pos 2 ∷ pos 3 ∷ pos 4 ∷ []) ≡ pos 1 ∷ pos 1 ∷ pos 0 ∷ pos 0 ∷ [] }
    ensures padded { lorenzo w32 1 (pos 1 ∷ pos 2 ∷ pos 2 ∷ pos 1 ∷ []) ≡ pos 1 ∷ pos 1 ∷ negsuc 0 ∷ pos 0
        ∷ [] }
    ensures back { unlorenzo w32 1 (pos 1 ∷ pos 1 ∷ negsuc 0 ∷ pos 0 ∷ []) ≡ pos 1 ∷ pos 2 ∷ pos 2 ∷ pos 1
        ∷ [] }
{}

/// The places by rank.
pub fn ranks()
    ensures one { order 1 ≡ 0 ∷ 1 ∷ 2 ∷ 3 ∷ [] }
    ensures two { order 2 ≡ 0 ∷ 1 ∷ 4 ∷ 5 ∷ 2 ∷ 8 ∷ 6 ∷ 9 ∷ 3 ∷ 12 ∷ 10 ∷ 7 ∷ 13 ∷ 11 ∷ 14 ∷ 15 ∷ [] }
    ensures three { take 10 (order 3) ≡ 0 ∷ 1 ∷ 4 ∷ 16 ∷ 5 ∷ 17 ∷ 20 ∷ 2 ∷ 8 ∷ 32 ∷ [] }
{}

/// Negabinary digits, as the number that they are as bits.
pub fn negabinary()
    ensures one { number (digits 32 (pos 1)) ≡ 1 }
    ensures minus_one { number (digits 32 (negsuc 0)) ≡ 3 }
    ensures two { number (digits 32 (pos 2)) ≡ 6 }
    ensures three { number (digits 32 (pos 3)) ≡ 7 }
    ensures least { number (digits 32 (negsuc 2147483647)) ≡ 0x80000000 }
    ensures half_least { number (digits 32 (negsuc 1073741823)) ≡ 0xc0000000 }
{}

/// The code of one plane of four digits with no one above, and how far its ones reach.
pub fn plane_codes()
    ensures none { (plane_code 0 (false ∷ false ∷ false ∷ false ∷ []) ≡ false ∷ [])
        × (reach (false ∷ false ∷ false ∷ false ∷ []) ≡ 0) }
    ensures first { (plane_code 0 (true ∷ false ∷ false ∷ false ∷ []) ≡ true ∷ true ∷ false ∷ [])
        × (reach (true ∷ false ∷ false ∷ false ∷ []) ≡ 1) }
    ensures third { (plane_code 0 (false ∷ false ∷ true ∷ false ∷ []) ≡ true ∷ false ∷ false ∷ true ∷ false
        ∷ []) × (reach (false ∷ false ∷ true ∷ false ∷ []) ≡ 3) }
    ensures last { (plane_code 0 (false ∷ false ∷ false ∷ true ∷ []) ≡ true ∷ false ∷ false ∷ false ∷ [])
        × (reach (false ∷ false ∷ false ∷ true ∷ []) ≡ 4) }
    ensures both { (plane_code 0 (true ∷ false ∷ false ∷ true ∷ []) ≡ true ∷ true ∷ true ∷ false ∷ false ∷ [])
        × (reach (true ∷ false ∷ false ∷ true ∷ []) ≡ 4) }
{}

/// The reversible code of a block of one value: 1, and the least of int32.
pub fn block_codes()
    ensures one { rev w32 (1 ∷ []) (pos 1 ∷ pos 0 ∷ pos 0 ∷ pos 0 ∷ []) ≡ replicate 5 true
        ++ replicate 31 false ++ (true ∷ true ∷ false ∷ []) }
    ensures least { rev w32 (1 ∷ []) (negsuc 2147483647 ∷ pos 0 ∷ pos 0 ∷ pos 0 ∷ []) ≡ replicate 5 false
        ++ (true ∷ true ∷ false ∷ []) }
    ensures one_of_int64 { rev w64 (1 ∷ []) (pos 1 ∷ pos 0 ∷ pos 0 ∷ pos 0 ∷ []) ≡ replicate 6 true
        ++ replicate 63 false ++ (true ∷ true ∷ false ∷ []) }
{}

/// Whole streams of one to four values of int32, from their raw bytes.
pub fn streams()
    ensures zero { stream_of_bytes w32 (1 ∷ []) reversible (0 ∷ 0 ∷ 0 ∷ 0 ∷ [])
        ≡ 0x7a ∷ 0x66 ∷ 0x70 ∷ 0x05 ∷ 0 ∷ 0 ∷ 0 ∷ 0 ∷ 0 ∷ 0 ∷ 0 ∷ 0x88 ∷ 0 ∷ 0 ∷ 0 ∷ 0 ∷ [] }
    ensures one { stream_of_bytes w32 (1 ∷ []) reversible (1 ∷ 0 ∷ 0 ∷ 0 ∷ [])
        ≡ 0x7a ∷ 0x66 ∷ 0x70 ∷ 0x05 ∷ 0 ∷ 0 ∷ 0 ∷ 0 ∷ 0 ∷ 0 ∷ 0 ∷ 0x88 ∷ 0x1f ∷ 0 ∷ 0 ∷ 0 ∷ 0x30 ∷ 0 ∷ 0 ∷ 0
        ∷ 0 ∷ 0 ∷ 0 ∷ 0 ∷ [] }
    ensures minus_one { stream_of_bytes w32 (1 ∷ []) reversible (255 ∷ 255 ∷ 255 ∷ 255 ∷ [])
        ≡ 0x7a ∷ 0x66 ∷ 0x70 ∷ 0x05 ∷ 0 ∷ 0 ∷ 0 ∷ 0 ∷ 0 ∷ 0 ∷ 0 ∷ 0x88 ∷ 0x1f ∷ 0 ∷ 0 ∷ 0 ∷ 0x58 ∷ 0 ∷ 0 ∷ 0
        ∷ 0 ∷ 0 ∷ 0 ∷ 0 ∷ [] }
    ensures least { stream_of_bytes w32 (1 ∷ []) reversible (0 ∷ 0 ∷ 0 ∷ 128 ∷ [])
        ≡ 0x7a ∷ 0x66 ∷ 0x70 ∷ 0x05 ∷ 0 ∷ 0 ∷ 0 ∷ 0 ∷ 0 ∷ 0 ∷ 0 ∷ 0x88 ∷ 0x60 ∷ 0 ∷ 0 ∷ 0 ∷ [] }
    ensures two_values { stream_of_bytes w32 (2 ∷ []) reversible (1 ∷ 0 ∷ 0 ∷ 0 ∷ 2 ∷ 0 ∷ 0 ∷ 0 ∷ [])
        ≡ 0x7a ∷ 0x66 ∷ 0x70 ∷ 0x05 ∷ 0x10 ∷ 0 ∷ 0 ∷ 0 ∷ 0 ∷ 0 ∷ 0 ∷ 0x88 ∷ 0x1f ∷ 0 ∷ 0 ∷ 0 ∷ 0x48 ∷ 7 ∷ 0
        ∷ 0 ∷ 0 ∷ 0 ∷ 0 ∷ 0 ∷ [] }
    ensures last_of_four { stream_of_bytes w32 (4 ∷ []) reversible
        (0 ∷ 0 ∷ 0 ∷ 0 ∷ 0 ∷ 0 ∷ 0 ∷ 0 ∷ 0 ∷ 0 ∷ 0 ∷ 0 ∷ 1 ∷ 0 ∷ 0 ∷ 0 ∷ [])
        ≡ 0x7a ∷ 0x66 ∷ 0x70 ∷ 0x05 ∷ 0x30 ∷ 0 ∷ 0 ∷ 0 ∷ 0 ∷ 0 ∷ 0 ∷ 0x88 ∷ 0x1f ∷ 0 ∷ 0 ∷ 0 ∷ 0x10 ∷ 0 ∷ 0
        ∷ 0 ∷ 0 ∷ 0 ∷ 0 ∷ 0 ∷ [] }
{}

/// Streams of more dimensions, of int64, and of a fixed rate.
pub fn more_streams()
    ensures zeros_of_int64 { stream_of_bytes w64 (5 ∷ 7 ∷ []) reversible []
        ≡ 0x7a ∷ 0x66 ∷ 0x70 ∷ 0x05 ∷ 0x45 ∷ 0 ∷ 0 ∷ 0x60 ∷ 0 ∷ 0 ∷ 0 ∷ 0x88 ∷ 0 ∷ 0 ∷ 0 ∷ 0 ∷ [] }
    ensures three_dimensions { stream_of_bytes w32 (1 ∷ 1 ∷ 1 ∷ []) reversible []
        ≡ 0x7a ∷ 0x66 ∷ 0x70 ∷ 0x45 ∷ 0x08 ∷ 0 ∷ 0 ∷ 0 ∷ 0 ∷ 0 ∷ 0 ∷ 0x88 ∷ 0 ∷ 0 ∷ 0 ∷ 0 ∷ [] }
    ensures two_dimensions { stream_of_bytes w32 (2 ∷ 1 ∷ []) reversible (1 ∷ 0 ∷ 0 ∷ 0 ∷ 2 ∷ [])
        ≡ 0x7a ∷ 0x66 ∷ 0x70 ∷ 0x05 ∷ 0x14 ∷ 0 ∷ 0 ∷ 0 ∷ 0 ∷ 0 ∷ 0 ∷ 0x88 ∷ 0x1f ∷ 0 ∷ 0 ∷ 0 ∷ 0x08 ∷ 0x4d ∷ 0
        ∷ 0 ∷ 0 ∷ 0 ∷ 0 ∷ 0 ∷ [] }
    ensures rate_64 { stream_of_bytes w32 (4 ∷ []) (fixed_rate 64)
        (1 ∷ 0 ∷ 0 ∷ 0 ∷ 2 ∷ 0 ∷ 0 ∷ 0 ∷ 3 ∷ 0 ∷ 0 ∷ 0 ∷ 4 ∷ [])
        ≡ 0x7a ∷ 0x66 ∷ 0x70 ∷ 0x05 ∷ 0x30 ∷ 0 ∷ 0 ∷ 0 ∷ 0 ∷ 0 ∷ 0xf0 ∷ 3 ∷ 0 ∷ 0 ∷ 0 ∷ 0x60 ∷ 0x27 ∷ 0 ∷ 0
        ∷ 0 ∷ 0 ∷ 0 ∷ 0 ∷ 0 ∷ [] }
    ensures rate_1 { stream_of_bytes w32 (4 ∷ []) (fixed_rate 1)
        (0 ∷ 0 ∷ 0 ∷ 0xc0 ∷ 0 ∷ 0 ∷ 0 ∷ 0xc0 ∷ 0 ∷ 0 ∷ 0 ∷ 0xc0 ∷ 0 ∷ 0 ∷ 0 ∷ 0xc0 ∷ [])
        ≡ 0x7a ∷ 0x66 ∷ 0x70 ∷ 0x05 ∷ 0x30 ∷ 0 ∷ 0 ∷ 0 ∷ 0 ∷ 0 ∷ 0 ∷ 0 ∷ 1 ∷ 0 ∷ 0 ∷ 0 ∷ [] }
{}

/// What a fixed rate makes of a block of four values, by the planes that its budget keeps.
pub fn roundings()
    ensures low { round w32 64 (4 ∷ []) (pos 1 ∷ pos 0 ∷ pos 0 ∷ pos 0 ∷ []) ≡ pos 0 ∷ pos 0 ∷ pos 0 ∷ pos 0
        ∷ [] }
    ensures rising { round w32 64 (4 ∷ []) (pos 1 ∷ pos 2 ∷ pos 3 ∷ pos 4 ∷ []) ≡ pos 0 ∷ pos 2 ∷ pos 2
        ∷ pos 4 ∷ [] }
    ensures one_bit { round w32 1 (4 ∷ []) (negsuc 1073741823 ∷ negsuc 1073741823 ∷ negsuc 1073741823
        ∷ negsuc 1073741823 ∷ [])
        ≡ negsuc 2147483647 ∷ negsuc 2147483647 ∷ negsuc 2147483647 ∷ negsuc 2147483647 ∷ [] }
    ensures cut_run { round w32 2 (4 ∷ []) (pos 805306368 ∷ negsuc 805306367 ∷ negsuc 805306367
        ∷ pos 805306368 ∷ [])
        ≡ pos 1073741824 ∷ negsuc 1073741823 ∷ pos 1073741824 ∷ negsuc 1073741823 ∷ [] }
    ensures read_back { read_rate w32 (4 ∷ []) (true ∷ false ∷ []) ≡ pos 1073741824 ∷ negsuc 1073741823
        ∷ pos 1073741824 ∷ negsuc 1073741823 ∷ [] }
{}

/// The numbers of the modes.
pub fn mode_numbers()
    ensures rates { (mode_number (fixed_rate 1) ≡ 0) × (mode_number (fixed_rate 2048) ≡ 2047)
        × (mode_number (fixed_rate 2049) ≡ 4095) }
    ensures precisions { (mode_number (fixed_precision 1) ≡ 2048)
        × (mode_number (fixed_precision 128) ≡ 2175) }
    ensures reversible { mode_number reversible ≡ 2176 }
{}

/// The long form of a rate, which those above 2048 have: the rate less 1 twice, the most planes less 1, and
/// the least exponent.
pub fn long_forms()
    ensures none { long_form (fixed_rate 2048) ≡ [] }
    ensures least { long_form (fixed_rate 2049) ≡ field 15 2048 ++ field 15 2048 ++ field 7 63
        ++ field 15 15421 }
    ensures greatest { long_form (fixed_rate 32768) ≡ field 15 32767 ++ field 15 32767 ++ field 7 63
        ++ field 15 15421 }
{}

/// Streams of a fixed precision: all planes of four values, and one plane alone.
pub fn precision_streams()
    ensures all_planes { stream_of_bytes w32 (4 ∷ []) (fixed_precision 32)
        (1 ∷ 0 ∷ 0 ∷ 0 ∷ 2 ∷ 0 ∷ 0 ∷ 0 ∷ 3 ∷ 0 ∷ 0 ∷ 0 ∷ 4 ∷ [])
        ≡ 0x7a ∷ 0x66 ∷ 0x70 ∷ 0x05 ∷ 0x30 ∷ 0 ∷ 0 ∷ 0 ∷ 0 ∷ 0 ∷ 0xf0 ∷ 0x81 ∷ 0 ∷ 0 ∷ 0 ∷ 0x60 ∷ 0x27 ∷ 0 ∷ 0
        ∷ 0 ∷ 0 ∷ 0 ∷ 0 ∷ 0 ∷ [] }
    ensures one_plane { stream_of_bytes w32 (4 ∷ []) (fixed_precision 1)
        (0 ∷ 0 ∷ 0 ∷ 0xc0 ∷ 0 ∷ 0 ∷ 0 ∷ 0xc0 ∷ 0 ∷ 0 ∷ 0 ∷ 0xc0 ∷ 0 ∷ 0 ∷ 0 ∷ 0xc0 ∷ [])
        ≡ 0x7a ∷ 0x66 ∷ 0x70 ∷ 0x05 ∷ 0x30 ∷ 0 ∷ 0 ∷ 0 ∷ 0 ∷ 0 ∷ 0 ∷ 0x80 ∷ 3 ∷ 0 ∷ 0 ∷ 0 ∷ [] }
{}

/// What a fixed precision makes of a block of four values: with all planes, with more than there are, and
/// with one.
pub fn precision_roundings()
    ensures all_planes { round_prec w32 32 (4 ∷ []) (pos 1 ∷ pos 2 ∷ pos 3 ∷ pos 4 ∷ []) ≡ pos 0 ∷ pos 2
        ∷ pos 2 ∷ pos 4 ∷ [] }
    ensures more { round_prec w32 64 (4 ∷ []) (pos 1 ∷ pos 2 ∷ pos 3 ∷ pos 4 ∷ []) ≡ pos 0 ∷ pos 2 ∷ pos 2
        ∷ pos 4 ∷ [] }
    ensures one_plane { round_prec w32 1 (4 ∷ []) (negsuc 1073741823 ∷ negsuc 1073741823 ∷ negsuc 1073741823
        ∷ negsuc 1073741823 ∷ [])
        ≡ negsuc 2147483647 ∷ negsuc 2147483647 ∷ negsuc 2147483647 ∷ negsuc 2147483647 ∷ [] }
    ensures read_back { read_prec w32 1 (4 ∷ []) (true ∷ true ∷ false ∷ [])
        ≡ Some (negsuc 2147483647 ∷ negsuc 2147483647 ∷ negsuc 2147483647 ∷ negsuc 2147483647 ∷ [], 3) }
{}
