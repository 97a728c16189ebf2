//! Laws of the codes of a block. Each is a function with no parameters and an empty body, whose contract is
//! the theorem.

ghost use Rattle.std.specs.Prelude.{◌≡◌, ℕ, ◌≤◌, ◌<◌, ◌^◌, ℤ, Bool, List, ◌++◌, length};
ghost use Rattle.std.specs.Int.{Width};
ghost use Rattle.zf_spec.specs.Grid.{fours};
ghost use Rattle.zf_spec.specs.Codes.{planes, rev, rate, prec, round, round_prec, existing_values};
ghost use Rattle.zf_spec.specs.Kept.{kept_planes};
ghost use Rattle.zf_spec.specs.Lift.{lift};
ghost use Rattle.zf_spec.specs.Padding.{pad};
ghost use Rattle.zf_spec.specs.Planes.{code};
ghost use Rattle.zf_bits.specs.Reader.{Reader, rest, Reads};
ghost use Rattle.zf_block.specs.Block.{IsBlock};
ghost use Rattle.zf_block.specs.ReadBlocks.{ReadsRev, LacksRev, ReadsRate, ReadsPrec, LacksPrec};
ghost use Rattle.zf_block.specs.WholePlanes.{planes_from, whole_from, rate_whole_from};

/// Where the bits begin with the reversible code of a block, that code is not too short, its block comes back
/// at the places that exist, and the code is passed and nothing more.
pub fn reversible_code_reads_back()
    ensures there { (w : Width) (es : List ℕ) (block : List ℤ) (more : List Bool) (old : Reader)
        → IsBlock w es block → rest old ≡ rev w es block ++ more → ¬ LacksRev w (length es) old }
    ensures values { (w : Width) (es : List ℕ) (block read : List ℤ) (more : List Bool) (old new : Reader)
        → IsBlock w es block → rest old ≡ rev w es block ++ more → ReadsRev w (length es) old new read
        → existing_values es read ≡ existing_values es block }
    ensures passed { (w : Width) (es : List ℕ) (block read : List ℤ) (more : List Bool) (old new : Reader)
        → IsBlock w es block → rest old ≡ rev w es block ++ more → ReadsRev w (length es) old new read
        → Reads old new (rev w es block) }
{}

/// Where the bits begin with the code of a block at a fixed rate, what the rate makes of the block comes back
/// at the places that exist, and the code is passed and nothing more.
pub fn rate_code_reads_back()
    ensures values { (w : Width) (budget : ℕ) (es : List ℕ) (block read : List ℤ) (more : List Bool)
        (old new : Reader) → rest old ≡ rate w budget es block ++ more
        → ReadsRate w (length es) budget old new read → existing_values es read ≡ round w budget es block }
    ensures passed { (w : Width) (budget : ℕ) (es : List ℕ) (block read : List ℤ) (more : List Bool)
        (old new : Reader) → rest old ≡ rate w budget es block ++ more
        → ReadsRate w (length es) budget old new read → Reads old new (rate w budget es block) }
{}

/// Where the bits begin with the code of a block at a fixed precision, that code is not too short, what the
/// precision makes of the block comes back at the places that exist, and the code is passed and nothing more.
pub fn precision_code_reads_back()
    ensures there { (w : Width) (p : ℕ) (es : List ℕ) (block : List ℤ) (more : List Bool) (old : Reader)
        → rest old ≡ prec w p es block ++ more → ¬ LacksPrec w (length es) p old }
    ensures values { (w : Width) (p : ℕ) (es : List ℕ) (block read : List ℤ) (more : List Bool)
        (old new : Reader) → rest old ≡ prec w p es block ++ more → ReadsPrec w (length es) p old new read
        → existing_values es read ≡ round_prec w p es block }
    ensures passed { (w : Width) (p : ℕ) (es : List ℕ) (block read : List ℤ) (more : List Bool)
        (old new : Reader) → rest old ≡ prec w p es block ++ more → ReadsPrec w (length es) p old new read
        → Reads old new (prec w p es block) }
{}

/// What is read is one block: at the extent of which all places exist it is the values that exist, and bits
/// that have a code do not lack one.
pub fn one_block_is_read()
    ensures whole { (d : ℕ) (block : List ℤ) → length block ≡ 4 ^ d → existing_values (fours d) block
        ≡ block }
    ensures one_answer { (w : Width) (d : ℕ) (old new : Reader) (read : List ℤ) → ReadsRev w d old new read
        → ¬ LacksRev w d old }
    ensures one_answer_of_planes { (w : Width) (d p : ℕ) (old new : Reader) (read : List ℤ)
        → ReadsPrec w d p old new read → ¬ LacksPrec w d p old }
{}

/// The least plane from which on the codes of planes fit a budget is the only one: from it on they fit, from
/// no lower plane on do they.
pub fn least_whole_plane()
    ensures within { (budget : ℕ) (planes : List (List Bool)) → whole_from budget planes ≤ length planes }
    ensures fits { (budget : ℕ) (planes : List (List Bool))
        → length (code (planes_from (whole_from budget planes) planes)) ≤ budget }
    ensures least { (budget : ℕ) (planes : List (List Bool)) (k : ℕ) → k < whole_from budget planes
        → budget < length (code (planes_from k planes)) }
    ensures only { (budget : ℕ) (planes : List (List Bool)) (k : ℕ) → k ≤ length planes
        → length (code (planes_from k planes)) ≤ budget
        → ((j : ℕ) → j < k → budget < length (code (planes_from j planes)))
        → k ≡ whole_from budget planes }
{}

/// Whatever block has this code at a fixed rate, the rate keeps its planes as they are, from the least plane
/// that the code has whole.
pub fn whole_planes_are_kept()
    ensures { (w : Width) (budget : ℕ) (es : List ℕ) (block : List ℤ) (k : ℕ)
        → rate_whole_from w (length es) (rate w budget es block) ≤ k
        → let ps = planes w (length es) (lift w (length es) (pad es block)) in
        planes_from k (kept_planes budget ps) ≡ planes_from k ps }
{}
