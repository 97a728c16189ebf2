//! Laws of narrow values. Each is a function with no parameters and an empty body, whose contract is the
//! theorem.

ghost use Rattle.std.specs.Prelude.{◌≡◌, ◌<◌, ◌≤◌, ◌%◌, ℕ, ℤ, ◌-ℤ◌, unsigned_abs, List, length, Ok, All};
ghost use Rattle.std.specs.Prelude.{FitsSigned};
ghost use Rattle.std.specs.Int.{w32};
ghost use Rattle.zf_narrow.specs.declared.narrow.Narrow.{Narrow};
ghost use Rattle.zf_base.specs.declared.lane.Ty.TheVariants as types;
ghost use Rattle.zf_header.specs.declared.header.Header.{Header};
ghost use Rattle.zf_header.specs.declared.header.Mode.TheVariants.{Reversible};
ghost use Rattle.zf_header.specs.HeaderBits.{IsHeader};
ghost use Rattle.zf_parse.specs.Parsing.{Said, parse};
ghost use Rattle.zf_narrow.specs.Values.{IsNarrow, size_of, promoted, on_step, demoted};
ghost use Rattle.zf_narrow.specs.RawNarrow.{promoted_bytes, raw_narrow, demoted_bytes};
ghost use Rattle.zf_narrow.specs.Texts.{narrow_len, narrow_text, restore_narrow_answer, narrow_restored};

/// Each number of a narrow type has a value of int32 that stands for it.
pub fn a_promoted_value_fits()
    ensures { (n : Narrow) (v : ℤ) → IsNarrow n v → FitsSigned w32 (promoted n v) }
{}

/// What a value stands for is a number of the type, wherever the value lies.
pub fn a_demoted_value_is_narrow()
    ensures { (n : Narrow) (v : ℤ) → IsNarrow n (demoted n v) }
{}

/// What a value stands for is the number of the type that is nearest to the number of its step: none is
/// nearer.
pub fn no_number_is_nearer()
    ensures { (n : Narrow) (v x : ℤ) → IsNarrow n x
        → unsigned_abs (demoted n v -ℤ on_step n v) ≤ unsigned_abs (x -ℤ on_step n v) }
{}

/// The value that stands for a number stands for that one.
pub fn demote_undoes_promote()
    ensures { (n : Narrow) (v : ℤ) → IsNarrow n v → demoted n (promoted n v) ≡ v }
{}

/// The raw bytes of whole narrow values come back of the values that stand for them.
pub fn raw_bytes_come_back()
    ensures { (n : Narrow) (bytes : List ℕ) → length bytes % size_of n ≡ 0 → All (λ b. b < 256) bytes
        → demoted_bytes n (promoted_bytes n bytes) ≡ bytes }
{}

/// What is restored of a good stream of int32 values are the numbers that its values stand for.
pub fn restored_values_stand_for_numbers()
    ensures { (n : Narrow) (bytes : List ℕ) (said : Said) → parse bytes ≡ Ok said → said.header.ty ≡ types.I32
        → narrow_restored n bytes ≡ raw_narrow n said.values }
{}

/// A reversible stream of narrow values is good, and restores exactly the bytes that it was made of.
pub fn restore_narrow_undoes_compress_narrow()
    ensures answer { (n : Narrow) (h : Header) (bytes : List ℕ) → IsHeader h → h.ty ≡ types.I32
        → restore_narrow_answer (narrow_text n h bytes) ≡ Ok tt }
    ensures reversible { (n : Narrow) (h : Header) (bytes : List ℕ) → IsHeader h → h.ty ≡ types.I32
        → h.mode ≡ Reversible
        → length bytes ≡ narrow_len n h → All (λ b. b < 256) bytes
        → narrow_restored n (narrow_text n h bytes) ≡ bytes }
{}
