//! Laws of the bound. Each is a function with no parameters and an empty body, whose contract is the theorem.

ghost use Rattle.std.specs.Prelude.{◌≡◌, ◌+◌, ◌-◌, ◌*◌, ◌≤◌, ◌<◌, ◌^◌, ◌↔◌, ℕ, ℤ, Bool, true, false, List, [], ◌∷◌, length, replicate, All, IsTrue, IfOk};
ghost use Rattle.std.specs.Int.{Width, w32};
ghost use mir.Val.{bits};
ghost use Rattle.zf_spec.specs.Lift.{lift_line, unlift_line};
ghost use Rattle.zf_spec.specs.Codes.{rate, round, existing_values};
ghost use Rattle.zf_spec.specs.Grid.{product, IsShape, blocks};
ghost use Rattle.zf_cached.specs.State.{State};
ghost use Rattle.zf_cached.specs.Changes.{flush};
ghost use Rattle.zf_cached.specs.Arrays.{rate_coding, array_format};
ghost use Rattle.zf_cached.specs.Consistency.{IsConsistent};
ghost use Rattle.zf_spec.specs.Stream as stream;
ghost use Rattle.zf_base.specs.Widths.{width_of};
ghost use Rattle.zf_header.specs.declared.header.Header.{Header};
ghost use Rattle.zf_header.specs.declared.header.Mode.TheVariants.{Rate};
ghost use Rattle.zf_header.specs.HeaderBits.{IsHeader, coding};
ghost use Rattle.zf_parse.specs.Raw.{stream_of};
ghost use Rattle.zf_parse.specs.Parsing.{parse};
ghost use Rattle.zf_block.specs.WholePlanes.{rate_whole_from};
ghost use Rattle.zf_bound.specs.declared.certified.Certified.{Certified};
ghost use Rattle.zf_bound.specs.Errors.{AreWithin, AreClose, IsSmallEnough};
ghost use Rattle.zf_bound.specs.Bounds.{plane_of, error_of, certified_of};

use zf_cached::placing::Placing;

/// Of a line within `m` the coefficients are within `m + 4`. Numbers within an error `e` of them come back
/// within `4e + 4` of the line.
pub fn a_line_comes_back_close()
    ensures coefficients { (w : Width) (x y z v : ℤ) (m : ℕ) → 8 * (m + 4) < 2 ^ (bits w - 1)
        → AreWithin m (x ∷ y ∷ z ∷ v ∷ []) → AreWithin (m + 4) (lift_line w x y z v) }
    ensures values { (w : Width) (x y z v a b c d : ℤ) (m e : ℕ) → 8 * (m + 4 + e) < 2 ^ (bits w - 1)
        → AreWithin m (x ∷ y ∷ z ∷ v ∷ []) → AreClose e (lift_line w x y z v) (a ∷ b ∷ c ∷ d ∷ [])
        → AreClose (4 * e + 4) (x ∷ y ∷ z ∷ v ∷ []) (unlift_line w a b c d) }
{}

/// What a fixed rate makes of a block is no further from it than the error of the plane from which on its
/// code has the planes whole.
pub fn a_block_comes_back_close()
    ensures { (w : Width) (budget : ℕ) (es : List ℕ) (block : List ℤ) (m : ℕ) → length es ≤ 4
        → All (λ e. (1 ≤ e) × (e ≤ 4)) es
        → AreWithin m block
        → let k = rate_whole_from w (length es) (rate w budget es block) in
        IsSmallEnough (bits w) m (error_of (length es) k)
        → AreClose (error_of (length es) k) (existing_values es block) (round w budget es block) }
{}

/// What a write-back loses: the values of a dirty block, of magnitudes up to `m`, are after a flush no further
/// from those before it than the error of the plane from which on the block's new code has the planes whole.
/// Whatever the placing, and whichever blocks are owned.
pub fn a_flush_loses_little<P: Placing>()
    ensures { (w : Width) (budget : ℕ) (ns : List ℕ) (owned : ℕ → Bool) (s : State (List Bool)) (b m : ℕ)
        → IsShape ns → b < blocks ns
        → let format = array_format (rate_coding w budget) ns in
        let t = flush format s in
        let k = rate_whole_from w (length ns) (t.codes b) in
        IsConsistent P.line owned format s → s.dirty b ≡ true → AreWithin m (s.values b)
        → IsSmallEnough (bits w) m (error_of (length ns) k)
        → AreClose (error_of (length ns) k) (s.values b) (t.values b) }
{}

/// What is restored of the stream of an array's values is within the bound of that stream.
pub fn what_was_stored_comes_back_close()
    ensures { (h : Header) (values : List ℤ) (budget m : ℕ) → IsHeader h → h.mode ≡ Rate budget
        → length values ≡ product h.shape
        → AreWithin m values
        → let cs = stream.codes (width_of h.ty) h.shape (coding h.mode) values in
        let error = error_of (length h.shape) (plane_of (width_of h.ty) (length h.shape) cs) in
        IsSmallEnough (bits (width_of h.ty)) m error → IfOk (parse (stream_of h values)) (λ said. AreClose error values said.values) }
{}

/// What is certified is there once the plane, the error and whether the bound holds are.
pub fn one_certificate()
    ensures { (h : Header) (cs : List (List Bool)) (m : ℕ) (c : Certified)
        → c.plane ≡ plane_of (width_of h.ty) (length h.shape) cs → c.error ≡ error_of (length h.shape) c.plane
        → (IsTrue c.holds ↔ IsSmallEnough (bits (width_of h.ty)) m c.error) → c ≡ certified_of h cs m }
{}

/// A code of zeros has a bit for each plane, and the bound of four axes from the lowest plane on is 340.
pub fn codes_of_zeros()
    ensures enough { plane_of w32 1 (replicate 32 false ∷ []) ≡ 0 }
    ensures one_less { plane_of w32 1 (replicate 31 false ∷ []) ≡ 1 }
    ensures greatest { plane_of w32 1 (replicate 30 false ∷ replicate 31 false ∷ []) ≡ 2 }
    ensures error { error_of 4 0 ≡ 340 }
{}
