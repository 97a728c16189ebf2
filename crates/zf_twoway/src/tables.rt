//! Runs of scripts over a two-way cache, computed by the definitions.

ghost use Rattle.std.specs.Prelude.{◌≡◌, [], ◌∷◌, ◌++◌, replicate, codes};
ghost use Rattle.std.specs.Int.{w32};
ghost use Rattle.zf_twoway.specs.Runs.{twoway_text, twoway_saved};

/// Of two lines, blocks 0 and 1 have the first and the second one alone, block 2 has both: it goes into the
/// empty one, into the clean one, or into the first where both hold dirty blocks.
pub fn three_blocks()
    ensures empty { twoway_text w32 64 (16 ∷ []) 2 (codes "set 0 1\nget 8\nget 0\nstats\n")
        ≡ codes "0\n1\nhits 1 misses 2 writes 0\n" }
    ensures both_dirty { twoway_text w32 64 (16 ∷ []) 2 (codes "set 0 1\nset 4 5\nget 8\nget 0\nget 4\nstats\n")
        ≡ codes "0\n0\n5\nhits 1 misses 4 writes 1\n" }
    ensures one_clean { twoway_text w32 64 (16 ∷ []) 2 (codes "set 0 1\nget 4\nget 8\nget 0\nstats\n")
        ≡ codes "0\n0\n1\nhits 1 misses 3 writes 0\n" }
{}

/// Of two empty lines, and of two clean ones, the first is taken.
pub fn first_of_two_alike()
    ensures empty { twoway_text w32 64 (16 ∷ []) 2 (codes "get 8\nget 0\nget 8\nstats\n")
        ≡ codes "0\n0\n0\nhits 0 misses 3 writes 0\n" }
    ensures clean { twoway_text w32 64 (16 ∷ []) 2 (codes "get 0\nget 4\nget 8\nget 0\nstats\n")
        ≡ codes "0\n0\n0\n0\nhits 0 misses 4 writes 0\n" }
{}

/// What is saved after the first run of `three_blocks`.
pub fn saved_file()
    ensures { twoway_saved w32 64 (16 ∷ []) 2 (codes "set 0 1\nget 8\nget 0\nstats\n")
        ≡ 0x7a ∷ 0x66 ∷ 0x70 ∷ 0x05 ∷ 0xf0 ∷ 0 ∷ 0 ∷ 0 ∷ 0 ∷ 0 ∷ 0xf0 ∷ 3 ∷ replicate 36 0 }
{}

/// Four blocks with one first line among four, written twice over; all are written back by a flush.
pub fn blocks_with_one_first_line()
    ensures { twoway_text w32 64 (64 ∷ []) 4
        (codes "set 0 8\nset 16 8\nset 32 8\nset 48 8\nset 0 8\nset 16 8\nset 32 8\nset 48 8\nstats\nflush\nstats\n")
        ≡ codes "hits 4 misses 4 writes 0\nhits 4 misses 4 writes 4\n" }
{}

/// Lines on windows and sizes are none of the language here.
pub fn refused_lines()
    ensures { twoway_text w32 64 (8 ∷ []) 2
        (codes "view 0 8 1\nslice 0 1\nvget 0\nvset 0 1\nvsum\nresize 4\nlines 0\nget 8\nfill 3\nsum\n")
        ≡ codes "! word\n! word\n! word\n! word\n! word\n! word\n! size\n! range\n24\n" }
{}

/// A sum wraps within the type, and a discard gives back what was last written back; private views are none
/// of the language here.
pub fn sums_and_discards()
    ensures { twoway_text w32 64 (16 ∷ []) 2
        (codes "set 0 2147483647\nadd 0 1\nget 0\nadd 4 5\nget 4\ndiscard\nget 0\nget 4\nstats\nsplit 1 1\njoin\n@0 stats\nlines 3\nstats\n")
        ≡ codes "-2147483648\n5\n0\n0\nhits 3 misses 4 writes 0\n! word\n! word\n! word\nhits 3 misses 4 writes 0\n" }
{}
