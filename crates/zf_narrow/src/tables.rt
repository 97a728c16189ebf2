//! Narrow values and their bytes, computed by the definitions.

ghost use Rattle.std.specs.Prelude.{◌≡◌, [], ◌∷◌, pos, negsuc};
ghost use Rattle.zf_narrow.specs.declared.narrow.Narrow.TheVariants.{I8, U8, I16, U16};
ghost use Rattle.zf_narrow.specs.Values.{promoted, demoted};
ghost use Rattle.zf_narrow.specs.RawNarrow.{promoted_bytes, promoted_all, demoted_bytes};

/// Raw narrow values and the raw int32 values that stand for them.
pub fn promoted_values()
    ensures one { promoted_bytes I8 (0x01 ∷ []) ≡ 0 ∷ 0 ∷ 0x80 ∷ 0 ∷ [] }
    ensures least { promoted_bytes I8 (0x80 ∷ []) ≡ 0 ∷ 0 ∷ 0 ∷ 0xc0 ∷ [] }
    ensures middle { promoted_bytes U8 (0x80 ∷ []) ≡ 0 ∷ 0 ∷ 0 ∷ 0 ∷ [] }
    ensures middle_of_words { promoted_bytes U16 (0 ∷ 0x80 ∷ []) ≡ 0 ∷ 0 ∷ 0 ∷ 0 ∷ [] }
    ensures half_left_over { promoted_all I16 (1 ∷ 0 ∷ 2 ∷ []) ≡ 0 ∷ 0x80 ∷ 0 ∷ 0 ∷ 0 ∷ [] }
{}

/// The least int32 value is beyond each type, and the greatest too.
pub fn values_beyond()
    ensures int8 { demoted_bytes I8 (0 ∷ 0 ∷ 0 ∷ 0x80 ∷ []) ≡ 0x80 ∷ [] }
    ensures uint8 { demoted_bytes U8 (0 ∷ 0 ∷ 0 ∷ 0x80 ∷ []) ≡ 0 ∷ [] }
    ensures int16 { demoted_bytes I16 (0 ∷ 0 ∷ 0 ∷ 0x80 ∷ []) ≡ 0 ∷ 0x80 ∷ [] }
    ensures uint16 { demoted_bytes U16 (0 ∷ 0 ∷ 0 ∷ 0x80 ∷ []) ≡ 0 ∷ 0 ∷ [] }
    ensures above { demoted_bytes U8 (0xff ∷ 0xff ∷ 0xff ∷ 0x7f ∷ []) ≡ 0xff ∷ [] }
    ensures rounded_down { demoted I8 (negsuc 0) ≡ negsuc 0 }
    ensures a_step { promoted U16 (pos 32769) ≡ pos 32768 }
{}
