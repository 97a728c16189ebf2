//! Runs of scripts, computed by the definitions: the text that each writes, and the file that it saves.

ghost use Rattle.std.specs.Prelude.{◌≡◌, ℕ, true, false, [], ◌∷◌, ◌++◌, pos, replicate, codes};
ghost use Rattle.std.specs.Int.{w32};
ghost use Rattle.zf_spec.specs.Stream.{reversible};
ghost use Rattle.zf_spec.specs.Codes.{rev};
ghost use Rattle.zf_cached.specs.Arrays.{mode_coding};
ghost use Rattle.zf_cached.specs.Runs.{zeros_text, zeros_saved, run_text, run_saved, look_text, plain_text};

/// A value stays as it was set until its block is written back: by a flush, or by a block that takes its
/// line.
pub fn write_back()
    ensures flushed { zeros_text w32 64 (8 ∷ []) 1 (codes "set 0 1\nget 0\nflush\nget 0\nstats\n")
        ≡ codes "1\n0\nhits 1 misses 2 writes 1\n" }
    ensures evicted { zeros_text w32 64 (8 ∷ []) 1 (codes "set 0 1\nget 4\nget 0\n") ≡ codes "0\n0\n" }
    ensures two_lines { zeros_text w32 64 (8 ∷ []) 2 (codes "set 0 1\nget 4\nget 0\n") ≡ codes "0\n1\n" }
    ensures whole_block { zeros_text w32 64 (8 ∷ []) 2
        (codes "set 0 1\nset 1 2\nset 2 3\nset 3 4\nget 0\nflush\nget 0\nget 1\nget 2\nget 3\n")
        ≡ codes "1\n0\n2\n2\n4\n" }
    ensures new_lines { zeros_text w32 64 (8 ∷ []) 2
        (codes "set 0 1\nset 1 2\nset 2 3\nset 3 4\nlines 1\nget 3\nstats\n")
        ≡ codes "4\nhits 3 misses 2 writes 1\n" }
{}

/// What is saved: the codes as last written back; those of blocks that were never written back are the
/// file's, bit for bit.
pub fn saved_files()
    ensures written { zeros_saved w32 64 (8 ∷ []) 2 (codes "set 0 1\nset 1 2\nset 2 3\nset 3 4\n")
        ≡ 0x7a ∷ 0x66 ∷ 0x70 ∷ 0x05 ∷ 0x70 ∷ 0 ∷ 0 ∷ 0 ∷ 0 ∷ 0 ∷ 0xf0 ∷ 3 ∷ 0 ∷ 0 ∷ 0 ∷ 0x60 ∷ 0x27
        ∷ replicate 15 0 }
    ensures discarded { zeros_saved w32 64 (8 ∷ []) 2 (codes "set 0 7\ndiscard\nget 0\n")
        ≡ 0x7a ∷ 0x66 ∷ 0x70 ∷ 0x05 ∷ 0x70 ∷ 0 ∷ 0 ∷ 0 ∷ 0 ∷ 0 ∷ 0xf0 ∷ 3 ∷ replicate 20 0 }
    ensures unused_bits { run_saved w32 64 (8 ∷ [])
        ((replicate 32 false ++ replicate 32 true) ∷ replicate 64 false ∷ []) 1 [] (codes "get 0\nget 4\n")
        ≡ 0x7a ∷ 0x66 ∷ 0x70 ∷ 0x05 ∷ 0x70 ∷ 0 ∷ 0 ∷ 0 ∷ 0 ∷ 0 ∷ 0xf0 ∷ 3 ∷ 0 ∷ 0 ∷ 0 ∷ 0 ∷ 0xff ∷ 0xff ∷ 0xff
        ∷ 0xff
        ∷ replicate 12 0 }
    ensures resized { zeros_saved w32 64 (8 ∷ []) 2 (codes "set 0 100\nresize 4\nget 0\nget 4\nlines 3\n")
        ≡ 0x7a ∷ 0x66 ∷ 0x70 ∷ 0x05 ∷ 0x30 ∷ 0 ∷ 0 ∷ 0 ∷ 0 ∷ 0 ∷ 0xf0 ∷ 3 ∷ replicate 12 0 }
    ensures one_bit { zeros_saved w32 1 (8 ∷ []) 2
        (codes "set 4 -1073741824\nset 5 -1073741824\nset 6 -1073741824\nset 7 -1073741824\n")
        ≡ 0x7a ∷ 0x66 ∷ 0x70 ∷ 0x05 ∷ 0x70 ∷ replicate 7 0 ++ 2 ∷ 0 ∷ 0 ∷ 0 ∷ [] }
    ensures three_bits { zeros_saved w32 3 (8 ∷ []) 2 (codes "fill -1073741824\n")
        ≡ 0x7a ∷ 0x66 ∷ 0x70 ∷ 0x05 ∷ 0x70 ∷ 0 ∷ 0 ∷ 0 ∷ 0 ∷ 0 ∷ 0x20 ∷ 0 ∷ 0x1b ∷ 0 ∷ 0 ∷ 0 ∷ [] }
{}

/// Discard, resize, and what codes of other lengths make of values.
pub fn whole_array()
    ensures discarded { zeros_text w32 64 (8 ∷ []) 2 (codes "set 0 7\ndiscard\nget 0\n") ≡ codes "0\n" }
    ensures unused_bits { run_text w32 64 (8 ∷ [])
        ((replicate 32 false ++ replicate 32 true) ∷ replicate 64 false ∷ []) 1 [] (codes "get 0\nget 4\n")
        ≡ codes "0\n0\n" }
    ensures resized { zeros_text w32 64 (8 ∷ []) 2 (codes "set 0 100\nresize 4\nget 0\nget 4\nlines 3\n")
        ≡ codes "0\n! range\n" }
    ensures one_bit { zeros_text w32 1 (8 ∷ []) 2
        (codes "set 4 -1073741824\nset 5 -1073741824\nset 6 -1073741824\nset 7 -1073741824\nflush\nget 4\nget 0\n")
        ≡ codes "-2147483648\n0\n" }
    ensures three_bits { zeros_text w32 3 (8 ∷ []) 2 (codes "fill -1073741824\nflush\nsum\n")
        ≡ codes "-17179869184\n" }
{}

/// Windows, with steps too, share the array's blocks.
pub fn windows()
    ensures line { zeros_text w32 64 (8 ∷ []) 2
        (codes "view 4 4 1\nvset 0 5\nget 4\nview 6 4 1\nvget 0\nslice 0 1\nvset 0 9\nget 5\nvsum\n")
        ≡ codes "5\n! size\n5\n9\n9\n" }
    ensures plane { zeros_text w32 128 (4 ∷ 4 ∷ []) 1
        (codes "set 1,1 5\nview 1,1 2x2 2,2\nvget 0,0\nvset 1,1 9\nget 3,3\nvsum\nslice 1 1\nvget 1,0\nvget 0,1\n")
        ≡ codes "5\n9\n14\n9\n! range\n" }
{}

/// Refusals, in their order; a refused line changes nothing, counts and window included.
pub fn refusals()
    ensures each { zeros_text w32 64 (8 ∷ []) 2
        (codes "get 8\nset 0 2147483648\nset 0\nlines 0\nresize 4x4\n\nadd 0 -1\nget 0\n")
        ≡ codes "! range\n! value\n! word\n! size\n! size\n-1\n" }
    ensures range_first { zeros_text w32 64 (8 ∷ []) 2 (codes "set 8 2147483648\nadd 0 -2147483649\nset 0 -2147483648\nstats")
        ≡ codes "! range\n! value\nhits 0 misses 1 writes 0\n" }
    ensures sizes { zeros_text w32 64 (8 ∷ []) 2
        (codes "view 0 0 1\nview 0 1 0\nview 0 8 1\nview 0 9 1\nview 1 4 2\nview 7 1 9\nlines 65536\nlines 65537\nslice 1 0\n")
        ≡ codes "! size\n! size\n! size\n! size\n! range\n" }
    ensures memory { run_text w32 64 (8 ∷ []) (replicate 64 false ∷ replicate 64 false ∷ []) 2
        (0 ∷ 1 ∷ 2 ∷ 3 ∷ 4 ∷ [])
        (codes "get 0\n\nlines 0\nresize 4\nlines 4\nget 4\nstats\n")
        ≡ codes "0\n! size\n! memory\n! memory\n0\nhits 0 misses 2 writes 0\n" }
{}

/// Private views: each has a cache and counts of its own over its own blocks, and while there is a split
/// there are no other lines.
pub fn private_views()
    ensures each { zeros_text w32 64 (8 ∷ []) 2
        (codes "split 2 1\n@0 set 0 1\n@1 get 4\n@0 get 4\nget 0\n@1 set 4 7\n@0 flush\n@0 get 0\n@1 get 4\n@0 stats\njoin\nget 4\n")
        ≡ codes "0\n! range\n! split\n0\n7\nhits 0 misses 2 writes 1\n6\n" }
    ensures too_many { zeros_text w32 64 (8 ∷ []) 2 (codes "split 3 1\n@0 get 0\njoin\n") ≡ codes "! size\n! split\n! split\n" }
    ensures parts { zeros_text w32 64 (20 ∷ []) 4
        (codes "split 3 1\n@0 get 3\n@0 get 4\n@1 get 3\n@1 set 4 1\n@1 set 8 2\n@1 get 4\n@1 get 12\n@2 set 12 5\n@2 set 16 9\n@2 add 16 2147483647\n@2 get 16\n@1 discard\n@2 stats\njoin\nsum\nstats\n")
        ≡ codes "0\n! range\n! range\n0\n! range\n-2147483640\nhits 2 misses 2 writes 1\n-2147483644\nhits 0 misses 5 writes 0\n" }
    ensures order { zeros_text w32 64 (8 ∷ []) 1
        (codes "set 0 1\nget 4\nsplit 2 1\nsplit 2 1\nsplit 0 0\n@2 stats\n@2 set 9 9999999999\n@0 set 4 9999999999\n@0 set 3 9999999999\n@1 stats\n@0 get 0\njoin\nstats\n")
        ≡ codes "0\n! split\n! split\n! range\n! range\n! range\n! value\nhits 0 misses 0 writes 0\n0\nhits 0 misses 2 writes 1\n" }
    ensures sizes { zeros_text w32 64 (8 ∷ []) 1
        (codes "join\n@0 flush\nsplit 2 0\nsplit 2 65537\nsplit 0 1\nsplit 17 1\nsplit 1 1\n@0 set 4 7\n@0 discard\n@0 get 4\n@0 set 4 7\nflush\nlines 0\nstats\n@0 stats\n")
        ≡ codes "! split\n! split\n! size\n! size\n! size\n! size\n0\n! split\n! split\n! split\nhits 1 misses 2 writes 0\n" }
    ensures joined_at_the_end { zeros_saved w32 64 (8 ∷ []) 1 (codes "split 1 1\n@0 set 4 7\n")
        ≡ 0x7a ∷ 0x66 ∷ 0x70 ∷ 0x05 ∷ 0x70 ∷ 0 ∷ 0 ∷ 0 ∷ 0 ∷ 0 ∷ 0xf0 ∷ 3 ∷ replicate 11 0 ++ 0xa0 ∷ 0xfc ∷ 3
        ∷ replicate 6 0 }
    ensures memory { run_text w32 64 (8 ∷ []) (replicate 64 false ∷ replicate 64 false ∷ []) 1 (1 ∷ 3 ∷ [])
        (codes "set 0 1\nsplit 2 1\nget 0\nsplit 0 1\nstats\n")
        ≡ codes "! memory\n1\n! size\nhits 1 misses 1 writes 0\n" }
{}

/// A look at a reversible stream of the values 1 and 2: only the lines that read are commands.
pub fn looks()
    ensures { look_text w32 (mode_coding w32 reversible) (2 ∷ [])
        (rev w32 (2 ∷ []) (pos 1 ∷ pos 2 ∷ pos 0 ∷ pos 0 ∷ []) ∷ []) 1 []
        (codes "get 1\nsum\nset 0 1\nlines 2\nview 1 1 1\nvget 0\n")
        ≡ codes "2\n3\n! word\n2\n" }
{}

/// An array of more blocks than lines, filled and summed: each block is missed twice, and each is written
/// back once. Blocks are kept as they are.
pub fn more_blocks_than_lines()
    ensures { plain_text w32 (64 ∷ 64 ∷ []) 16 (codes "fill 3\nsum\nstats\nset 63,63 -5\nget 63,63\nstats\n")
        ≡ codes "12288\nhits 0 misses 512 writes 256\n-5\nhits 2 misses 512 writes 256\n" }
{}

/// 4096 blocks over 64 lines, filled: each is missed, and all but the last 64 are written back.
pub fn large_array()
    ensures { plain_text w32 (256 ∷ 256 ∷ []) 64 (codes "fill 3\nstats\n") ≡ codes "hits 0 misses 4096 writes 4032\n" }
{}
