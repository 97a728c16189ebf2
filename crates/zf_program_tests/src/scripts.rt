//! Scripts: `run` over one line or two for a block, and `look`.

use super::calls::{BOTH, Row, all_end_so};
use super::known::{SIXTEEN, TWO, UNUSED, ZEROS};
use std::test::Fail;
use zf_program::Status;

// The streams of 1 2 3 4 and four zeros at a rate; of seven zeros and 1, reversible; of 1 2 3 4 at a
// precision; of two dimensions, reversible, and of four, at a precision.
const COUNTED: &[u8] = b"zfp\x05p\0\0\0\0\0\xf0\x03\0\0\0`'\0\0\0\0\0\0\0\0\0\0\0\0\0\0\0";

const EIGHT: &[u8] = b"zfp\x05p\0\0\0\0\0\0\x88\xc0\x07\0\0\0\x04\0\0\0\0\0\0";

const PRECISE: &[u8] = b"zfp\x05\x30\0\0\0\0\0\xf0\x81\0\0\0`'\0\0\0\0\0\0\0";

const GRID: &[u8] =
    b"zfp\x05\x45\0\0 \0\0\0\x88>\0\0\0\0\0\0 \x80@\x04\x62\x02\x90@\x04\x06@@\xf0\x81|\0\0\0\0\0\0@\0\
          \x91\x80\x44\0\"Q\x80\x02\x44\x02\0\0\0\0";

const FOUR: &[u8] =
    b"zfpE\x1c\0\0\x10\0\x04\xb0\x81\0\0\x80\x89\x42\x80\"@\x01(\0\0\xb0j\0\x08\0\x04\x80\x02";

// The file, the words and the script; how it ends, the replies, the error line, and the file then.
macro_rules! scripts {
    ($($file:expr, $words:literal, $input:literal
        => $status:expr, $out:literal, $line:literal, $after:expr;)*) => {
        [$(Row {
            file: $file,
            words: $words,
            input: $input,
            status: $status,
            out: $out,
            line: $line,
            after: $after,
        }),*]
    };
}

static SCRIPTS: [Row; 29] = scripts! {
    ZEROS, "run a lines 1", b"set 0 1\nget 0\nflush\nget 0\nstats\n" => Status::Done,
        b"1\n0\nhits 1 misses 2 writes 1\n", b"", ZEROS;
    ZEROS, "run a lines 1", b"set 0 1\nget 4\nget 0" => Status::Done, b"0\n0\n", b"", ZEROS;
    ZEROS, "run a lines 2", b"set 0 1\nget 4\nget 0\n" => Status::Done, b"0\n1\n", b"", ZEROS;
    ZEROS, "run a", b"set 0 1\nset 1 2\nset 2 3\nset 3 4\nget 0\nflush\nget 0\nget 1\nget 2\nget 3\n" =>
        Status::Done, b"1\n0\n2\n2\n4\n", b"", COUNTED;
    ZEROS, "run a", b"set 0 1\nset 1 2\nset 2 3\nset 3 4\nlines 1\nget 3\nstats\n" => Status::Done,
        b"4\nhits 3 misses 2 writes 1\n", b"", COUNTED;
    ZEROS, "run a", b"set 0 7\ndiscard\nget 0\n" => Status::Done, b"0\n", b"", ZEROS;
    UNUSED, "run a lines 1", b"get 0\nget 4\n" => Status::Done, b"0\n0\n", b"", UNUSED;
    ZEROS, "run a",
        b"view 4 4 1\nvset 0 5\nget 4\nview 6 4 1\nvget 0\nslice 0 1\nvset 0 9\nget 5\nvsum\n" =>
        Status::Lines(1), b"5\n! size\n5\n9\n9\n", b"zfpi: 1 lines refused\n",
        b"zfp\x05p\0\0\0\0\0\xf0\x03\0\0\0\0\0\0\0\0\0\0\0\xe0\xdb\x07\0\0\0\0\0\0";
    ZEROS, "run a", b"get 8\nset 0 2147483648\nset 0\nlines 0\nresize 4x4\n\nadd 0 -1\nget 0" =>
        Status::Lines(5), b"! range\n! value\n! word\n! size\n! size\n-1\n", b"zfpi: 5 lines refused\n",
        b"zfp\x05p\0\0\0\0\0\xf0\x03\0\0\0\xc0\x16\0\0\0\0\0\0\0\0\0\0\0\0\0\0\0";
    ZEROS, "run a", b"set 0 100\nresize 4\nget 0\nget 4\nlines 3\n" => Status::Lines(1), b"0\n! range\n",
        b"zfpi: 1 lines refused\n", b"zfp\x05\x30\0\0\0\0\0\xf0\x03\0\0\0\0\0\0\0\0\0\0\0\0";
    b"zfp\x05p\0\0\0\0\0\0\0\0\0\0\0", "run a",
        b"set 4 -1073741824\nset 5 -1073741824\nset 6 -1073741824\nset 7 -1073741824\nflush\nget 4\n\
          get 0\n" => Status::Done, b"-2147483648\n0\n", b"", b"zfp\x05p\0\0\0\0\0\0\0\x02\0\0\0";
    b"zfp\x05p\0\0\0\0\0 \0\0\0\0\0", "run a", b"fill -1073741824\nflush\nsum\n" => Status::Done,
        b"-17179869184\n", b"", b"zfp\x05p\0\0\0\0\0 \0\x1b\0\0\0";
    COUNTED, "run a", b"" => Status::Done, b"", b"", COUNTED;
    b"zfp\x05\x34\0\0\x30\0\0\xf0\x07\0\0\0\0\0\0\0\0\0\0\0\0\0\0\0\0\0\0\0\0", "run a",
        b"set 1,1 5\nview 1,1 2x2 2,2\nvget 0,0\nvset 1,1 9\nget 3,3\nvsum\nslice 1 1\nvget 1,0\n\
          vget 0,1\n" => Status::Lines(1), b"5\n9\n14\n9\n! range\n", b"zfpi: 1 lines refused\n",
        b"zfp\x05\x34\0\0\x30\0\0\xf0\x07\0\0\0@\x93\xee=\x03\0\0\0\0\0\0\0\0\0\0\0\0";
    ZEROS, "run a",
        b"split 2 1\n@0 set 0 1\n@1 get 4\n@0 get 4\nget 0\n@1 set 4 7\n@0 flush\n@0 get 0\n@1 get 4\n\
          @0 stats\njoin\nget 4\n" => Status::Lines(2),
        b"0\n! range\n! split\n0\n7\nhits 0 misses 2 writes 1\n6\n", b"zfpi: 2 lines refused\n",
        b"zfp\x05p\0\0\0\0\0\xf0\x03\0\0\0\0\0\0\0\0\0\0\0\xa0\xfc\x03\0\0\0\0\0\0";
    ZEROS, "run a", b"split 3 1\n@0 get 0\njoin\n" => Status::Lines(3), b"! size\n! split\n! split\n",
        b"zfpi: 3 lines refused\n", ZEROS;
    SIXTEEN, "run a twoway 2", b"set 0 1\nget 8\nget 0\nstats\n" => Status::Done,
        b"0\n1\nhits 1 misses 2 writes 0\n", b"", SIXTEEN;
    SIXTEEN, "run a lines 2", b"set 0 1\nget 8\nget 0\nstats\n" => Status::Done,
        b"0\n0\nhits 0 misses 3 writes 1\n", b"", SIXTEEN;
    SIXTEEN, "run a twoway 2", b"set 0 1\nset 4 5\nget 8\nget 0\nget 4\nstats\n" => Status::Done,
        b"0\n0\n5\nhits 1 misses 4 writes 1\n", b"",
        b"zfp\x05\xf0\0\0\0\0\0\xf0\x03\0\0\0\0\0\0\0\0\0\0\0\xa0|\x03\0\0\0\0\0\0\0\0\0\0\0\0\0\0\0\0\0\
          \0\0\0\0\0";
    SIXTEEN, "run a twoway 2", b"set 0 1\nget 4\nget 8\nget 0\nstats\n" => Status::Done,
        b"0\n0\n1\nhits 1 misses 3 writes 0\n", b"", SIXTEEN;
    SIXTEEN, "run a twoway 2",
        b"view 0 8 1\nslice 0 0\nvget 0\nvset 0 1\nvsum\nresize 8\nsplit 2 1\n@0 get 0\njoin\n\nlines 0\n\
          get 16\nfill 3\nsum\n" => Status::Lines(11),
        b"! word\n! word\n! word\n! word\n! word\n! word\n! word\n! word\n! word\n! size\n! range\n48\n",
        b"zfpi: 11 lines refused\n",
        b"zfp\x05\xf0\0\0\0\0\0\xf0\x03\0\0\0`\x05\0\0\0\0\0\0`\x05\0\0\0\0\0\0`\x05\0\0\0\0\0\0`\x05\0\0\
          \0\0\0\0\0";
    SIXTEEN, "run a twoway 3",
        b"add 0 2\nflush\nget 0\ndiscard\nset 0 9\ndiscard\nget 0\nlines 1\nstats" => Status::Done,
        b"2\n2\nhits 0 misses 4 writes 1\n", b"",
        b"zfp\x05\xf0\0\0\0\0\0\xf0\x03\0\0\0\xa0\x0c\x01\0\0\0\0\0\0\0\0\0\0\0\0\0\0\0\0\0\0\0\0\0\0\0\0\
          \0\0\0\0\0\0";
    TWO, "look a", b"get 1\nsum\nset 0 1\nlines 2\nview 1 1 1\nvget 0\n" => Status::Lines(1),
        b"2\n3\n! word\n2\n", b"zfpi: 1 lines refused\n", TWO;
    EIGHT, "look a", b"get 0\nget 7\nstats\n" => Status::Done, b"0\n1\nhits 0 misses 2 writes 0\n", b"",
        EIGHT;
    PRECISE, "look a", b"get 3\nsum\n" => Status::Done, b"4\n8\n", b"", PRECISE;
    COUNTED, "look a lines 1",
        b"get 0\nget 4\nget 3\nstats\nflush\ndiscard\nfill 3\nresize 4\nadd 0 1\nvset 0 1\nsplit 2 1\n\
          @0 get 0\njoin\n\nget 8\nsum" => Status::Lines(10),
        b"0\n0\n4\nhits 0 misses 3 writes 0\n! word\n! word\n! word\n! word\n! word\n! word\n! word\n\
          ! word\n! word\n! range\n8\n", b"zfpi: 10 lines refused\n", COUNTED;
    GRID, "look a lines 3",
        b"get 4,2\nview 1,1 2x2 3,1\nvsum\nslice 1 1\nvget 1,0\nvget 1,1\nstats\nlines 1\nsum\nstats\n\
          lines 0\n" => Status::Lines(2),
        b"-154\n-314\n-154\n! range\nhits 4 misses 2 writes 0\n-700\nhits 4 misses 4 writes 0\n! size\n",
        b"zfpi: 2 lines refused\n", GRID;
    FOUR, "look a lines 65536", b"sum\nget 1,0,1,4\nview 0,0,0,0 2x1x2x3 1,1,1,2\nvsum\nstats\n" =>
        Status::Done, b"7680\n768\n4608\nhits 13 misses 2 writes 0\n", b"", FOUR;
    COUNTED, "look a", b"" => Status::Done, b"", b"", COUNTED;
};

// The table is named here alone: what a function says of it is proved with each byte, in each of its steps.
fn scripts() -> &'static [Row] {
    &SCRIPTS
}

#[test]
fn scripts_are_answered_and_the_array_is_saved(rt: HostRuntime) -> Result<(), Fail> {
    assert!(rt; all_end_so(rt.alloc(), scripts(), &BOTH)?);
    Ok(())
}
