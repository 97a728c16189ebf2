//! Calls that read nothing, since the file is no array or the command has no input. The file is left alone.

use super::calls::{NO_INPUT, NO_INPUT_TWICE, Row, all_end_so};
use super::known::{FILLED, SMALL, TWO, ZERO, ZEROS};
use std::test::Fail;
use zf_header::HeaderFault;
use zf_program::Status;

// The words and the file; how it ends, what is written, and the error line. The script would be answered.
macro_rules! rows {
    ($($words:literal, $file:expr => $status:expr, $out:literal, $line:literal;)*) => {
        [$(Row {
            file: $file,
            words: $words,
            input: b"get 0\n",
            status: $status,
            out: $out,
            line: $line,
            after: $file,
        }),*]
    };
}

// Files that are no array of this command, and names of none.
static FILES: [Row; 26] = rows! {
    "run a", ZERO => Status::NotRate(2176), b"", b"zfpi: mode 2176 has no cached array\n";
    "run a", b"zfp\x05\x30\0\0\0\0\0\0\x80\x03\0\0\0" => Status::NotRate(2048), b"",
        b"zfpi: mode 2048 has no cached array\n";
    "run a", b"zfp\x05p\0\0\0\0\0\xf0" => Status::Header(HeaderFault::Short), b"",
        b"zfpi: header: short\n";
    "run a", b"zfp\x05p\0\0\0\0\0\xf0\x03\0\0\0\0\xff\xff\xff" => Status::Truncated(0), b"",
        b"zfpi: stream ends in block 0\n";
    "run a", b"zfp\x05p\0\0\0\0\0\xf0\x03\0\0\0\0\xff\xff\xff\xff\0\0\0\0\0\0\0\0\0\0\0" =>
        Status::Truncated(2), b"", b"zfpi: stream ends in block 2\n";
    "run a", FILLED => Status::Pad, b"", b"zfpi: fill bit is one\n";
    "run a", b"zfp\x05p\0\0\0\0\0\xf0\x03\0\0\0\0\xff\xff\xff\xff\0\0\0\0\0\0\0\0\0\0\0\0\0" =>
        Status::Trailing, b"", b"zfpi: bytes after the stream\n";
    "look a", b"zfp\x05\x10\0\0\0\0\0\0" => Status::Header(HeaderFault::Short), b"",
        b"zfpi: header: short\n";
    "look a", b"zfq\x05\x10\0\0\0\0\0\0\x88\x1f\0\0\0H\x07\0\0\0\0\0\0" =>
        Status::Header(HeaderFault::Magic), b"", b"zfpi: header: magic\n";
    "look a", b"zfp\x05\x10\0\0\0\0\0\0\x88\x1f\0\0" => Status::Truncated(0), b"",
        b"zfpi: stream ends in block 0\n";
    "look a", b"zfp\x05\x10\0\0\0\0\0\0\x88\x1f\0\0\0H\x07\0\0\0\0\0" => Status::Truncated(1), b"",
        b"zfpi: stream ends in block 1\n";
    "look a", b"zfp\x05\x10\0\0\0\0\0\0\x88\x1f\0\0\0H\x07\0\0\0\0\0\x80" => Status::Pad, b"",
        b"zfpi: fill bit is one\n";
    "look a", b"zfp\x05\x10\0\0\0\0\0\0\x88\x1f\0\0\0H\x07\0\0\0\0\0\0\0" => Status::Trailing, b"",
        b"zfpi: bytes after the stream\n";
    "look a",
        b"zfp\x05\x45\0\0 \0\0\x10\x88>\0\0\0\0\0\0 \x80@\x04\x62\x02\x90@\x04\x06@@\xf0\x81|\0\0\0\0\0\0\
          @\0\x91\x80\x44\0\"Q\x80\x02\x44\x02\0\0\0\0" => Status::Header(HeaderFault::Mode(2177)), b"",
        b"zfpi: header: mode 2177\n";
    "run a twoway 2", b"zfp\x05\x30\0\0\0\0\0\0\x88\0\0\0\0" => Status::NotRate(2176), b"",
        b"zfpi: mode 2176 has no cached array\n";
    "run a twoway 2", b"zfp\x05\xf0\0\0\0\0\0\xf0\x03\0\0\0\0" => Status::Truncated(0), b"",
        b"zfpi: stream ends in block 0\n";
    "bound a 0", ZERO => Status::NotRate(2176), b"", b"zfpi: mode 2176 has no cached array\n";
    "bound a 1", b"zfp\x05\x30\0\0\0\0\0\xf0" => Status::Header(HeaderFault::Short), b"",
        b"zfpi: header: short\n";
    "bound a 1", b"zfp\x05\x30\0\0\0\0\0\xf0\x03\0\0\0" => Status::Truncated(0), b"",
        b"zfpi: stream ends in block 0\n";
    "bound a 1", b"zfp\x05\x30\0\0\0\0\0\xf0\x03\0\0\0\0\0\0\0\0\0\0\0" => Status::Truncated(1), b"",
        b"zfpi: stream ends in block 1\n";
    "bound a 1", b"zfp\x05\x30\0\0\0\0\0\xf0\x03\0\0\0\0\0\0\0\0\0\0\0\0\0" => Status::Trailing, b"",
        b"zfpi: bytes after the stream\n";
    "bound a 1", b"zfp\x05\x30\0\0\0\0\0`\x02\0\0\0`'\0\0\0\0\0\0\x80" => Status::Pad, b"",
        b"zfpi: fill bit is one\n";
    "bound a 1", b"zfp\x05\x30\0\0\0\0\0\xf0\x81\0\0\0`'\0\0\0\0\0\0\0" => Status::NotRate(2079), b"",
        b"zfpi: mode 2079 has no cached array\n";
    "run nosuch", ZEROS => Status::Missing, b"", b"zfpi: no such file\n";
    "look nosuch", TWO => Status::Missing, b"", b"zfpi: no such file\n";
    "bound nosuch 1", SMALL => Status::Missing, b"", b"zfpi: no such file\n";
};

#[test]
fn files_that_are_no_array_are_left_alone(rt: HostRuntime) -> Result<(), Fail> {
    assert!(rt; all_end_so(rt.alloc(), &FILES, &NO_INPUT)?);
    Ok(())
}

// Bounds and samples.
static SUMS: [Row; 17] = rows! {
    "bound a 100", SMALL => Status::Done, b"plane 0 bound 4\n", b"";
    "bound a 3", b"zfp\x05\x34\0\0\x30\0\0\xf0\x07\0\0\0`\x05\0\0\0\0\0\0\0\0\0\0\0\0\0\0\0" =>
        Status::Done, b"plane 0 bound 20\n", b"";
    "bound a 268435434", SMALL => Status::Done, b"plane 0 bound 4\n", b"";
    "bound a 268435435", SMALL => Status::Done, b"plane 0 no bound\n", b"";
    "bound a 0", b"zfp\x05\x30\0\0\0\0\0\0\0\x01\0\0\0" => Status::Done, b"plane 32 no bound\n", b"";
    "bound a 4", b"zfp\x05\x30\0\0\0\0\0`\x02\0\0\0`'\0\0\0\0\0\0\0" => Status::Done,
        b"plane 0 bound 4\n", b"";
    "bound a 4", b"zfp\x05\x30\0\0\0\0\0P\x02\0\0\0`'\0\0\0\0\0\0\0" => Status::Done,
        b"plane 1 bound 8\n", b"";
    "bound a 18446744073709551615", SMALL => Status::Done, b"plane 0 no bound\n", b"";
    "sample int32 1 0 reversible", b"" => Status::Done, b"values 1 blocks 1 bytes 24 changed 0\n", b"";
    "sample int32 5x7 1 reversible", b"" => Status::Done, b"values 35 blocks 4 bytes 144 changed 0\n",
        b"";
    "sample int64 9x2x3 7 rate 100", b"" => Status::Done, b"values 54 blocks 3 bytes 56 changed 54\n",
        b"";
    "sample int32 3x3x3x3 12345678901 precision 5", b"" => Status::Done,
        b"values 81 blocks 1 bytes 16 changed 81\n", b"";
    "sample int64 17 18446744073709551615 precision 40", b"" => Status::Done,
        b"values 17 blocks 5 bytes 56 changed 17\n", b"";
    "sample int32 8x8 3 rate 33", b"" => Status::Done, b"values 64 blocks 4 bytes 32 changed 64\n", b"";
    "sample int64 1 18446744073709551615 rate 32768", b"" => Status::Done,
        b"values 1 blocks 1 bytes 4120 changed 0\n", b"";
    "sample int32 16x16x4 1 reversible", b"" => Status::Done,
        b"values 1024 blocks 16 bytes 2848 changed 0\n", b"";
    "sample int32 64x64x64 1 reversible", b"" => Status::Done,
        b"values 262144 blocks 4096 bytes 731320 changed 0\n", b"";
};

#[test]
fn bounds_and_samples_are_written_alike_at_each_run(rt: HostRuntime) -> Result<(), Fail> {
    assert!(rt; all_end_so(rt.alloc(), &SUMS, &NO_INPUT_TWICE)?);
    Ok(())
}
