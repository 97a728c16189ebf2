//! More runs of scripts, computed by the definitions, where a rule has its limit: each row turns if its rule
//! is another by a word.

ghost use Rattle.std.specs.Prelude.{◌≡◌, [], ◌∷◌, pos, codes};
ghost use Rattle.std.specs.Int.{w32};
ghost use Rattle.zf_spec.specs.Codes.{rev};
ghost use Rattle.zf_spec.specs.Stream.{reversible};
ghost use Rattle.zf_cached.specs.Arrays.{mode_coding};
ghost use Rattle.zf_cached.specs.State.{risen};
ghost use Rattle.zf_cached.specs.Runs.{zeros_text, look_text};

/// A sum wraps within the type, at a value and in a private view.
pub fn sums_that_wrap()
    ensures values { zeros_text w32 64 (8 ∷ []) 2
        (codes "set 0 2147483647\nadd 0 1\nget 0\nadd 0 -1\nget 0\nset 5 -2147483648\nadd 5 -2147483648\nget 5\n")
        ≡ codes "-2147483648\n2147483647\n0\n" }
    ensures view { zeros_text w32 64 (8 ∷ []) 2
        (codes "split 2 1\n@0 add 0 2147483647\n@0 add 0 1\n@0 get 0\n")
        ≡ codes "-2147483648\n" }
{}

/// Each line with a value refuses one that is none of the type, and takes the least and the greatest that
/// are.
pub fn values_of_the_type()
    ensures windows { zeros_text w32 64 (8 ∷ []) 2
        (codes "vset 0 2147483648\nvset 8 2147483648\nvset 0 -2147483649\nview 2 3 1\nvset 3 0\nvset 2 -2147483648\nget 4\nstats\n")
        ≡ codes "! value\n! range\n! value\n! range\n-2147483648\nhits 1 misses 1 writes 0\n" }
    ensures all { zeros_text w32 64 (8 ∷ []) 2 (codes "fill 2147483648\nfill -2147483649\nfill 2147483647\nget 7\n")
        ≡ codes "! value\n! value\n2147483647\n" }
    ensures views { zeros_text w32 64 (8 ∷ []) 2
        (codes "split 2 1\n@0 add 0 2147483648\n@0 set 0 -2147483649\n@1 add 3 2147483648\n@1 set 4 2147483647\n@1 get 4\n")
        ≡ codes "! value\n! value\n! range\n2147483647\n" }
{}

/// There are at most 16 views, and no line is on one that there is not.
pub fn numbers_of_views()
    ensures most { zeros_text w32 64 (64 ∷ []) 2
        (codes "split 17 1\nsplit 16 1\n@15 set 63 8\n@15 set 59 8\n@16 stats\n@15 stats\n@15 get 63\njoin\nget 63\nstats\n")
        ≡ codes "! size\n! range\n! range\nhits 0 misses 1 writes 0\n8\n8\nhits 0 misses 1 writes 0\n" }
    ensures none { zeros_text w32 64 (8 ∷ []) 2
        (codes "split 2 1\n@2 flush\n@2 discard\n@2 stats\n@2 get 0\n@2 set 0 1\n@2 add 0 1\n@1 flush\n@1 discard\n@1 stats\n")
        ≡ codes "! range\n! range\n! range\n! range\n! range\n! range\nhits 0 misses 0 writes 0\n" }
    ensures lines { zeros_text w32 64 (16 ∷ []) 2 (codes "split 1 3\n@0 get 0\n@0 get 12\n@0 get 0\n@0 stats\n")
        ≡ codes "0\n0\n0\nhits 1 misses 2 writes 0\n" }
{}

/// A look has the lines `slice`, `vsum`, `lines` and `stats` too.
pub fn lines_of_looks()
    ensures { look_text w32 (mode_coding w32 reversible) (2 ∷ [])
        (rev w32 (2 ∷ []) (pos 1 ∷ pos 2 ∷ pos 0 ∷ pos 0 ∷ []) ∷ []) 1 []
        (codes "slice 0 1\nvsum\nvget 1\nslice 0 2\nlines 2\nget 0\nstats\nadd 0 1\nvset 0 1\nfill 1\nflush\ndiscard\nresize 2\nsplit 1 1\njoin\n@0 get 0\n")
        ≡ codes "2\n! range\n! range\n1\nhits 0 misses 2 writes 0\n! word\n! word\n! word\n! word\n! word\n! word\n! word\n! word\n! word\n" }
{}

/// An array is resized to what a file has room for: 33,333,333 blocks of 288 bits fill one to its last word,
/// and 32,764,505 blocks of 293 bits have a word too many.
pub fn longest_array()
    ensures fits { zeros_text w32 288 (8 ∷ []) 2 (codes "resize 133333332\nget 133333331\nget 133333332\n") ≡ codes "0\n! range\n" }
    ensures too_long { zeros_text w32 293 (8 ∷ []) 2 (codes "resize 131058017\nget 7\nget 8\n") ≡ codes "! size\n0\n! range\n" }
{}

/// A count rises up to the greatest number of 64 bits, and stays there.
pub fn greatest_counts()
    ensures half { risen 9223372036854775807 ≡ 9223372036854775808 }
    ensures last { risen 18446744073709551614 ≡ 18446744073709551615 }
    ensures stays { risen 18446744073709551615 ≡ 18446744073709551615 }
{}
