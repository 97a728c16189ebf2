//! Runs of scripts, computed by the definitions, that tell one word of a rule from another: what a change keeps of
//! the counts and of the values, and that numbers of lines are raised to powers of two.

ghost use Rattle.std.specs.Prelude.{◌≡◌, false, [], ◌∷◌, replicate, codes};
ghost use Rattle.std.specs.Int.{w32};
ghost use Rattle.zf_cached.specs.Arrays.{rate_coding, zero_codes};
ghost use Rattle.zf_cached.specs.Runs.{zeros_text, run_text, look_text};

/// Three lines are four, wherever they are asked for.
pub fn numbers_of_lines()
    ensures opened { zeros_text w32 64 (16 ∷ []) 3 (codes "get 0\nget 12\nget 0\nstats\n")
        ≡ codes "0\n0\n0\nhits 1 misses 2 writes 0\n" }
    ensures changed { zeros_text w32 64 (16 ∷ []) 1 (codes "lines 3\nget 0\nget 12\nget 0\nstats\n")
        ≡ codes "0\n0\n0\nhits 1 misses 2 writes 0\n" }
    ensures looked { look_text w32 (rate_coding w32 64) (16 ∷ []) (zero_codes 64 (16 ∷ [])) 3 []
        (codes "get 0\nget 12\nget 0\nstats\n")
        ≡ codes "0\n0\n0\nhits 1 misses 2 writes 0\n" }
    ensures changed_in_a_look { look_text w32 (rate_coding w32 64) (16 ∷ []) (zero_codes 64 (16 ∷ [])) 1 []
        (codes "lines 3\nget 0\nget 12\nget 0\nstats\n")
        ≡ codes "0\n0\n0\nhits 1 misses 2 writes 0\n" }
{}

/// A change of the shape keeps the counts, a split what was set; a window is summed from its first position on,
/// and the end of a split takes no memory.
pub fn what_stays()
    ensures counts { zeros_text w32 64 (8 ∷ []) 2 (codes "set 0 1\nresize 4\nstats\n")
        ≡ codes "hits 0 misses 1 writes 0\n" }
    ensures values { zeros_text w32 64 (8 ∷ []) 2
        (codes "set 0 1\nset 1 2\nset 2 3\nset 3 4\nsplit 1 1\n@0 get 3\n")
        ≡ codes "4\n" }
    ensures order { zeros_text w32 64 (8 ∷ []) 1 (codes "get 0\nvsum\nstats\n")
        ≡ codes "0\n0\nhits 7 misses 2 writes 0\n" }
    ensures memory { run_text w32 64 (8 ∷ []) (replicate 64 false ∷ replicate 64 false ∷ []) 1 (1 ∷ [])
        (codes "split 1 1\njoin\nget 0\n")
        ≡ codes "0\n" }
{}
