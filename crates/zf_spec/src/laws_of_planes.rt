//! Laws of planes, of their code and what a budget keeps of it, and of the coefficients that they are the
//! digits of.

ghost use Rattle.std.specs.Prelude.{◌≡◌, ℕ, suc, ◌+◌, ◌-◌, ◌*◌, ◌^◌, ◌<◌, ◌≤◌, max, ℤ, Bool, true, false, List, [], ◌∷◌, ◌++◌, map, length, take, replicate, slice_index_or};
ghost use Rattle.std.specs.List.{flat_map};
ghost use Rattle.std.specs.Int.{Width};
ghost use mir.Val.{bits};
ghost use Rattle.zf_spec.specs.Grid.{upto};
ghost use Rattle.zf_spec.specs.Planes.{AreOfSize, has_one, reach, reach_of_all, tail, code, code_at, needed_planes};
ghost use Rattle.zf_spec.specs.Kept.{kept_tail, kept_planes, kept_at};
ghost use Rattle.zf_spec.specs.Codes.{planes, coefficients_of};
ghost use Rattle.zf_spec.specs.Numbers.{AreValues};

/// The code of the digits from some rank on: of none, of zeros only, and where the first one stands after j
/// zeros, whether something follows it or not.
pub fn cases_of_a_tail()
    ensures nothing { tail [] ≡ [] }
    ensures zeros { (n : ℕ) → tail (replicate (suc n) false) ≡ false ∷ [] }
    ensures one { (j : ℕ) (e : Bool) (rest : List Bool) → tail (replicate j false ++ true ∷ e ∷ rest)
        ≡ true ∷ (replicate j false ++ true ∷ tail (e ∷ rest)) }
    ensures last { (j : ℕ) → tail (replicate j false ++ true ∷ []) ≡ true ∷ replicate j false }
{}

/// What r bits keep of the digits from some rank on: nothing where r is 0 or there is no one; else the run of
/// the first one, after j zeros, and what the other bits keep of what follows, where its bits are left; and
/// else a one in the place where the run is cut.
pub fn cases_of_a_kept_tail()
    ensures no_bit { (ds : List Bool) → kept_tail 0 ds ≡ replicate (length ds) false }
    ensures no_one { (r : ℕ) (ds : List Bool) → has_one ds ≡ false → kept_tail r ds
        ≡ replicate (length ds) false }
    ensures whole { (r j : ℕ) (e : Bool) (rest : List Bool) → j + 2 ≤ r
        → kept_tail r (replicate j false ++ true ∷ e ∷ rest)
        ≡ replicate j false ++ true ∷ kept_tail (r - (j + 2)) (e ∷ rest) }
    ensures cut { (r j : ℕ) (e : Bool) (rest : List Bool) → 1 ≤ r → r < j + 2
        → kept_tail r (replicate j false ++ true ∷ e ∷ rest)
        ≡ replicate (r - 1) false ++ true ∷ replicate (j + 2 - r + length rest) false }
    ensures last { (r j : ℕ) → j + 1 ≤ r → kept_tail r (replicate j false ++ true ∷ [])
        ≡ replicate j false ++ true ∷ [] }
    ensures last_cut { (r j : ℕ) → 1 ≤ r → r < j + 1 → kept_tail r (replicate j false ++ true ∷ [])
        ≡ replicate (r - 1) false ++ true ∷ replicate (j + 1 - r) false }
{}

/// The reach of a plane is the only number with a one just before it and no one from it on; it is 0 where
/// there is no one.
pub fn reach_of_a_plane()
    ensures none { (ds : List Bool) (k : ℕ) → reach ds ≤ k → slice_index_or ds k false ≡ false }
    ensures one { (ds : List Bool) (k : ℕ) → reach ds ≡ suc k → slice_index_or ds k false ≡ true }
    ensures only { (ds : List Bool) (n : ℕ) → ((k : ℕ) → n ≤ k → slice_index_or ds k false ≡ false)
        → ((k : ℕ) → n ≡ suc k → slice_index_or ds k false ≡ true) → n ≡ reach ds }
{}

/// The reach of several planes is the only number with a one just before it in some plane, and no one from it
/// on in any; it is 0 where there is no one.
pub fn reach_of_several_planes()
    ensures none { (ps : List (List Bool)) (j k : ℕ) → reach_of_all ps ≤ k
        → slice_index_or (slice_index_or ps j []) k false ≡ false }
    ensures one { (ps : List (List Bool)) (k : ℕ) → reach_of_all ps ≡ suc k
        → (j : ℕ) × (slice_index_or (slice_index_or ps j []) k false ≡ true) }
    ensures only { (ps : List (List Bool)) (n : ℕ)
        → ((j k : ℕ) → n ≤ k → slice_index_or (slice_index_or ps j []) k false ≡ false)
        → ((k : ℕ) → n ≡ suc k → (j : ℕ) × (slice_index_or (slice_index_or ps j []) k false ≡ true)) → n
        ≡ reach_of_all ps }
{}

/// The code of planes is the codes of its planes, the greatest first, each by the reach of all planes above.
pub fn code_plane_by_plane()
    ensures { (ps : List (List Bool)) → code ps ≡ flat_map (code_at ps) (upto (length ps)) }
{}

/// What a budget keeps of each plane is known from the bits that the codes of all planes above leave, and
/// from their reach.
pub fn kept_plane_by_plane()
    ensures { (budget : ℕ) (ps : List (List Bool)) → kept_planes budget ps
        ≡ map (kept_at budget ps) (upto (length ps)) }
{}

/// The number of planes that are needed is the only one with a plane that has a one just before it and no
/// such plane from it on.
pub fn needed_planes_of_a_block()
    ensures none { (ps : List (List Bool)) (k : ℕ) → needed_planes ps ≤ k → has_one (slice_index_or ps k [])
        ≡ false }
    ensures one { (ps : List (List Bool)) (k : ℕ) → needed_planes ps ≡ suc k
        → has_one (slice_index_or ps k []) ≡ true }
    ensures only { (ps : List (List Bool)) (n : ℕ)
        → ((k : ℕ) → n ≤ k → has_one (slice_index_or ps k []) ≡ false)
        → ((k : ℕ) → n ≡ suc k → has_one (slice_index_or ps k []) ≡ true) → n ≡ needed_planes ps }
{}

/// The code of p planes has at most one bit for each digit, and one more for each rank.
pub fn length_of_codes()
    ensures { (size : ℕ) (ps : List (List Bool)) → AreOfSize size ps
        → length (code ps) ≤ size * length ps + size }
{}

/// Coefficients of the type and their planes determine one another; planes with no one may be missing below.
pub fn planes_and_coefficients()
    ensures coefficients { (w : Width) (d : ℕ) (c : List ℤ) → length c ≡ 4 ^ d → AreValues w c
        → coefficients_of w d (planes w d c) ≡ c }
    ensures needed { (w : Width) (d : ℕ) (c : List ℤ) → length c ≡ 4 ^ d → AreValues w c
        → coefficients_of w d (take (max 1 (needed_planes (planes w d c))) (planes w d c)) ≡ c }
    ensures planes { (w : Width) (d : ℕ) (ps : List (List Bool)) → length ps ≤ bits w → AreOfSize (4 ^ d) ps
        → planes w d (coefficients_of w d ps)
        ≡ ps ++ replicate (bits w - length ps) (replicate (4 ^ d) false) }
{}
