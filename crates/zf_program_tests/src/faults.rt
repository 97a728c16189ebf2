//! Devices that fail, and what is said of input that is refused.

use super::calls::{BYTES, Devices, Row, WHOLE, call};
use super::known::{ONE, OTHER, SIXTEEN, SMALL, TWO, ZERO, ZEROS};
use std::alloc::{AllocError, Global};
use std::test::Fail;
use zf_header::HeaderFault;
use zf_program::Status;

// The devices, the file, the words and the input; how it ends, what is written, and the error line. The file
// stays.
macro_rules! rows {
    ($($devices:expr, $file:expr, $words:literal, $input:expr
        => $status:expr, $out:expr, $line:literal;)*) => {
        [$((
            $devices,
            Row {
                file: $file,
                words: $words,
                input: $input,
                status: $status,
                out: $out,
                line: $line,
                after: $file,
            },
        )),*]
    };
}

// Devices of which one call fails.
static FAULTS: [(Devices, Row); 23] = rows! {
    Devices { read: 0, ..WHOLE }, ZEROS, "run a lines 1", b"set 0 1\nget 0\nflush\nget 0\nstats\n" =>
        Status::ReadFault, b"", b"zfpi: read fault\n";
    Devices { write: 1, ..WHOLE }, ZEROS, "run a lines 1", b"set 0 1\nget 0\nflush\nget 0\nstats\n" =>
        Status::WriteFault, b"1\n", b"zfpi: write fault\n";
    Devices { shelf: 2, ..WHOLE }, ZEROS, "run a lines 1", b"set 0 1\nget 0\nflush\nget 0\nstats\n" =>
        Status::LoadFault, b"", b"zfpi: load fault\n";
    Devices { shelf: 3, ..WHOLE }, ZEROS, "run a lines 1", b"set 0 1\nget 0\nflush\nget 0\nstats\n" =>
        Status::SaveFault, b"1\n0\nhits 1 misses 2 writes 1\n", b"zfpi: save fault\n";
    Devices { read: 0, ..WHOLE }, SIXTEEN, "run a twoway 1", b"set 4 1\nget 0\nget 4\n" =>
        Status::ReadFault, b"", b"zfpi: read fault\n";
    Devices { write: 1, ..WHOLE }, SIXTEEN, "run a twoway 1", b"set 4 1\nget 0\nget 4\n" =>
        Status::WriteFault, b"0\n", b"zfpi: write fault\n";
    Devices { shelf: 2, ..WHOLE }, SIXTEEN, "run a twoway 1", b"set 4 1\nget 0\nget 4\n" =>
        Status::LoadFault, b"", b"zfpi: load fault\n";
    Devices { shelf: 3, ..WHOLE }, SIXTEEN, "run a twoway 1", b"set 4 1\nget 0\nget 4\n" =>
        Status::SaveFault, b"0\n0\n", b"zfpi: save fault\n";
    Devices { read: 0, ..WHOLE }, TWO, "look a", b"get 0\n" => Status::ReadFault, b"",
        b"zfpi: read fault\n";
    Devices { write: 1, ..WHOLE }, TWO, "look a", b"get 0\nget 1\n" => Status::WriteFault, b"1\n",
        b"zfpi: write fault\n";
    Devices { shelf: 2, ..WHOLE }, TWO, "look a", b"get 0\n" => Status::LoadFault, b"",
        b"zfpi: load fault\n";
    Devices { piece: 6, write: 1, ..WHOLE }, SMALL, "bound a 1", b"left" => Status::WriteFault, b"plane ",
        b"zfpi: write fault\n";
    Devices { shelf: 2, ..WHOLE }, SMALL, "bound a 1", b"left" => Status::LoadFault, b"",
        b"zfpi: load fault\n";
    Devices { piece: 1, shelf: 2, ..WHOLE }, b"before", "new b int32 8 64", b"" => Status::SaveFault, b"",
        b"zfpi: save fault\n";
    Devices { piece: 100, read: 0, write: 0, ..WHOLE }, b"", "sample int32 1 0 reversible", b"" =>
        Status::WriteFault, b"", b"zfpi: write fault\n";
    Devices { error: 0, ..WHOLE }, b"", "", b"" => Status::Usage(0), b"", b"";
    Devices { piece: 4, error: 2, ..WHOLE }, b"", "", b"" => Status::Usage(0), b"", b"zfpi: us";
    Devices { write: 0, ..WHOLE }, OTHER, "compress int32 1 reversible", b"\0\0\0\0" =>
        Status::WriteFault, b"", b"zfpi: write fault\n";
    // All is written, and the call behind that hands it on fails.
    Devices { write: 3, ..WHOLE }, ZEROS, "run a lines 1", b"set 0 1\nget 0\nflush\nget 0\nstats\n" =>
        Status::WriteFault, b"1\n0\nhits 1 misses 2 writes 1\n", b"zfpi: write fault\n";
    Devices { write: 2, ..WHOLE }, SIXTEEN, "run a twoway 1", b"set 4 1\nget 0\nget 4\n" =>
        Status::WriteFault, b"0\n0\n", b"zfpi: write fault\n";
    Devices { write: 1, ..WHOLE }, TWO, "look a", b"get 0\n" => Status::WriteFault, b"1\n",
        b"zfpi: write fault\n";
    Devices { write: 1, ..WHOLE }, OTHER, "restore", b"zfp\x05\0\0\0\0\0\0\0\x88\x1f\0\0\0\x30\0\0\0\0\0\0\0" =>
        Status::WriteFault, b"\x01\0\0\0", b"zfpi: write fault\n";
    Devices { write: 1, ..WHOLE }, OTHER, "restore", b"zfp\x05\0\0\0\0\0\0\0\x88\x1f\0\0\0\x30\0\0\0\0\0\0" =>
        Status::Truncated(1), b"\x01\0\0\0", b"zfpi: stream ends in block 1\n";
};

// Whether all calls end as their rows say, after one fault of a device.
fn all_fail_so(alloc: Global, rows: &[(Devices, Row)]) -> Result<bool, AllocError> {
    let mut all = true;
    for (devices, row) in rows {
        let ended = call(alloc, row.words, row.input, row.file, devices)?;
        all &= ended.is_as_said(row) && ended.out.bytes() == row.out && ended.faults() == 1;
        drop(ended);
    }
    Ok(all)
}

#[test]
fn a_device_that_fails_is_told(rt: HostRuntime) -> Result<(), Fail> {
    assert!(rt; all_fail_so(rt.alloc(), &FAULTS)?);
    Ok(())
}

// Input that is refused. What is written is a prefix of what the row says.
static REFUSALS: [(Devices, Row); 25] = rows! {
    WHOLE, OTHER, "compress int32 2 reversible", b"\0\0\0" => Status::RawShort(3),
        b"zfp\x05\x10\0\0\0\0\0\0\x88\0\0\0\0", b"zfpi: input ends after 3 bytes\n";
    WHOLE, OTHER, "compress int32 2 reversible", b"\0\0\0\0\0\0\0\0\0" => Status::RawLong,
        b"zfp\x05\x10\0\0\0\0\0\0\x88\0\0\0\0", b"zfpi: input is longer than the shape\n";
    WHOLE, OTHER, "compress int32 2 reversible", b"" => Status::RawShort(0),
        b"zfp\x05\x10\0\0\0\0\0\0\x88\0\0\0\0", b"zfpi: input ends after 0 bytes\n";
    Devices { read: 0, ..WHOLE }, OTHER, "compress int32 1 reversible", b"\0\0\0\0" => Status::ReadFault,
        ZERO, b"zfpi: read fault\n";
    WHOLE, OTHER, "compress int16 1 reversible", b"\0" => Status::RawShort(1), ZERO,
        b"zfpi: input ends after 1 bytes\n";
    WHOLE, OTHER, "compress int16 1 reversible", b"\0\0\0" => Status::RawLong, ZERO,
        b"zfpi: input is longer than the shape\n";
    WHOLE, OTHER, "info", b"zfq\x05\0\0\0\0\0\0\0\x88\0\0\0\0" => Status::Header(HeaderFault::Magic), b"",
        b"zfpi: header: magic\n";
    WHOLE, OTHER, "info", b"zfp\x04\0\0\0\0\0\0\0\x88\0\0\0\0" => Status::Header(HeaderFault::Codec), b"",
        b"zfpi: header: codec\n";
    WHOLE, OTHER, "info", b"zfpE\0\0\0\0\0\0\0\x88\0\0\0\0" => Status::Header(HeaderFault::Order), b"",
        b"zfpi: header: order\n";
    WHOLE, OTHER, "info", b"zfp\x05\x02\0\0\0\0\0\0\x88\0\0\0\0" => Status::Header(HeaderFault::Scalar),
        b"", b"zfpi: header: type\n";
    WHOLE, OTHER, "info", b"zfp\x05\0\0\0\x80\0\0\0\x88\0\0\0\0" => Status::Header(HeaderFault::TooLarge),
        b"", b"zfpi: header: too large\n";
    WHOLE, OTHER, "info", b"zfp\x05\0\0\0\0\0\0\x10\x88\0\0\0\0" =>
        Status::Header(HeaderFault::Mode(2177)), b"", b"zfpi: header: mode 2177\n";
    WHOLE, OTHER, "info", b"zfp\x05\0\0\0\0\0\0\0" => Status::Header(HeaderFault::Short), b"",
        b"zfpi: header: short\n";
    WHOLE, OTHER, "info", b"zfp\x05\0\0\0\0\0\0\xf0\xff?\x80\x1f\xc0\xaf\x87\x07" =>
        Status::Header(HeaderFault::Mode(4095)), b"", b"zfpi: header: mode 4095\n";
    WHOLE, OTHER, "info", b"zfp\x05\0\0\0\0\0\0\xf0\xff?\x80\x1f\xc0\xaf\x87" =>
        Status::Header(HeaderFault::Short), b"", b"zfpi: header: short\n";
    WHOLE, OTHER, "restore", b"zfp\x05\0\0\0\0\0\0\0" => Status::Header(HeaderFault::Short), b"",
        b"zfpi: header: short\n";
    WHOLE, OTHER, "restore", b"zfq\x05\0\0\0\0\0\0\0\x88\x1f\0\0\0\x30\0\0\0\0\0\0\0" =>
        Status::Header(HeaderFault::Magic), b"", b"zfpi: header: magic\n";
    WHOLE, OTHER, "restore", b"zfp\x05\0\0\0\0\0\0\0\x88" => Status::Truncated(0), b"",
        b"zfpi: stream ends in block 0\n";
    WHOLE, OTHER, "restore", b"zfp\x05\0\0\0\0\0\0\0\x88\x1f\0" => Status::Truncated(0), b"",
        b"zfpi: stream ends in block 0\n";
    WHOLE, OTHER, "restore", b"zfp\x05\0\0\0\0\0\0\0\x88\x1f\0\0\0\x30\0\0\0\0\0\0" =>
        Status::Truncated(1), b"\x01\0\0\0", b"zfpi: stream ends in block 1\n";
    WHOLE, OTHER, "restore", b"zfp\x05\0\0\0\0\0\0\0\x88\x1f\0\0\0\x30\0\0\0\0\0\0\x80" => Status::Pad,
        b"\x01\0\0\0", b"zfpi: fill bit is one\n";
    WHOLE, OTHER, "restore", b"zfp\x05\0\0\0\0\0\0\0\x88\x1f\0\0\0\x30\0\0\0\0\0\0\0\0" =>
        Status::Trailing, b"\x01\0\0\0", b"zfpi: bytes after the stream\n";
    WHOLE, OTHER, "restore", b"zfp\x05\0\0\0\0\0\0\0\x88\x1f\0\0\0\x30\0\0\0\0\0\0\x80\0" => Status::Pad,
        b"\x01\0\0\0", b"zfpi: fill bit is one\n";
    WHOLE, OTHER, "restore int8", b"zfp\x05\x45\0\0`\0\0\0\x88\0\0\0\0" => Status::NotNarrow, b"",
        b"zfpi: type is not int32\n";
    BYTES, OTHER, "restore int8", b"zfp\x05\x45\0\0`\0\0\0\x88\0\0\0\0" => Status::NotNarrow, b"",
        b"zfpi: type is not int32\n";
};

// Whether all calls end as their rows say, and write a prefix of what these say.
fn all_are_refused(alloc: Global, rows: &[(Devices, Row)]) -> Result<bool, AllocError> {
    let mut all = true;
    for (devices, row) in rows {
        let ended = call(alloc, row.words, row.input, row.file, devices)?;
        all &= ended.is_as_said(row) && row.out.starts_with(ended.out.bytes());
        drop(ended);
    }
    Ok(all)
}

#[test]
fn a_refusal_has_its_line(rt: HostRuntime) -> Result<(), Fail> {
    assert!(rt; all_are_refused(rt.alloc(), &REFUSALS)?);
    Ok(())
}
