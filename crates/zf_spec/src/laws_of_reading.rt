//! Laws of reading: which planes a list of bits stands for, and that a block's code reads back.

ghost use Rattle.std.specs.Prelude.{◌≡◌, ℕ, ◌+◌, ◌*◌, ◌^◌, ◌≤◌, ℤ, Bool, List, ◌++◌, length, Some};
ghost use Rattle.std.specs.Int.{Width};
ghost use mir.Val.{bits};
ghost use Rattle.zf_spec.specs.Planes.{AreOfSize, code};
ghost use Rattle.zf_spec.specs.Kept.{kept_planes};
ghost use Rattle.zf_spec.specs.ReadPlanes.{Begins, first_bits, planes_in};
ghost use Rattle.zf_spec.specs.Codes.{count_bits, rev, rate, round, prec, round_prec, existing_values, read_rev, read_rate, read_prec};
ghost use Rattle.zf_spec.specs.Numbers.{AreValues};
ghost use Rattle.zf_spec.specs.Padding.{AreExtents};

/// The planes in a list of bits are the only planes of their size and number whose code begins that list
/// continued with zeros.
pub fn planes_in_bits()
    ensures count { (p size : ℕ) (s : List Bool) → length (planes_in p size s) ≡ p }
    ensures size { (p size : ℕ) (s : List Bool) → AreOfSize size (planes_in p size s) }
    ensures begins { (p size : ℕ) (s : List Bool) → Begins (code (planes_in p size s)) s }
    ensures only { (size : ℕ) (ps : List (List Bool)) (s : List Bool) → AreOfSize size ps
        → Begins (code ps) s → ps ≡ planes_in (length ps) size s }
{}

/// What a budget keeps of planes is known from as many bits of their code.
pub fn kept_planes()
    ensures { (size budget : ℕ) (ps : List (List Bool)) → 1 ≤ size → AreOfSize size ps
        → kept_planes budget (planes_in (length ps) size (first_bits budget (code ps)))
        ≡ kept_planes budget ps }
{}

/// The reversible code of a block of a type of at most 64 bits reads back as the values that exist, and takes
/// its length, whatever bits come after.
pub fn reversible_code()
    ensures read { (w : Width) (es : List ℕ) (block : List ℤ) (more : List Bool) → bits w ≤ 64
        → AreExtents es → AreValues w block
        → read_rev w es (rev w es block ++ more) ≡ Some (existing_values es block, length (rev w es block)) }
    ensures length { (w : Width) (es : List ℕ) (block : List ℤ)
        → length (rev w es block) ≤ count_bits w + 4 ^ length es * (bits w + 1) }
{}

/// The code of a block at a fixed rate has as many bits as its budget, and reads back as what the rate makes
/// of the block.
pub fn rate_code()
    ensures read { (w : Width) (budget : ℕ) (es : List ℕ) (block : List ℤ)
        → read_rate w es (rate w budget es block) ≡ round w budget es block }
    ensures length { (w : Width) (budget : ℕ) (es : List ℕ) (block : List ℤ)
        → length (rate w budget es block) ≡ budget }
{}

/// The code of a block at a fixed precision reads back as what the precision makes of the block, and takes
/// its length, whatever bits come after.
pub fn precision_code()
    ensures read { (w : Width) (p : ℕ) (es : List ℕ) (block : List ℤ) (more : List Bool)
        → read_prec w p es (prec w p es block ++ more)
        ≡ Some (round_prec w p es block, length (prec w p es block)) }
    ensures length { (w : Width) (p : ℕ) (es : List ℕ) (block : List ℤ)
        → length (prec w p es block) ≤ 4 ^ length es * (bits w + 1) }
{}
