//! Damage and failing devices: calls that differ in one number, which goes over a range.

use super::calls::{Devices, Ended, NEVER, call, padded};
use super::known::{FILLED, LONG, ONE, UNUSED, ZERO, ZEROS};
use std::alloc::{AllocError, Global};
use std::test::Fail;
use zf_header::HeaderFault;
use zf_program::Status;

// What the number changes: where the input or the file is cut, or which call of a device fails.
#[derive(Clone, Copy, PartialEq, Eq)]
enum Change {
    Input,
    File,
    Read,
    Write,
    Shelf,
    Error,
}

struct Case {
    words: &'static str,
    // What the source holds: these bytes and so many zeros behind them.
    input: &'static [u8],
    zeros: usize,
    file: &'static [u8],
    // The most bytes that a device moves at once.
    piece: usize,
    change: Change,
    first: u64,
    // How a call ends up to which number.
    ends: &'static [(u64, Status)],
    // What is written: all of it where the work is done, else a prefix, and nothing below the number
    // `silent`.
    text: &'static [u8],
    silent: u64,
    // How many bytes are left in the source where the work is done.
    left: usize,
}

// The fields in this order.
macro_rules! cases {
    ($($words:literal, $input:expr, $zeros:literal, $file:expr, $piece:literal, $change:expr, $first:expr
        => $ends:expr, $text:expr, $silent:expr, $left:literal;)*) => {
        [$(Case {
            words: $words,
            input: $input,
            zeros: $zeros,
            file: $file,
            piece: $piece,
            change: $change,
            first: $first,
            ends: $ends,
            text: $text,
            silent: $silent,
            left: $left,
        }),*]
    };
}

static CASES: [Case; 14] = cases! {
    // A cut stream says where it ends.
    "restore", ONE, 0, ZEROS, 1000, Change::Input, 0 => &[(11, Status::Header(HeaderFault::Short)),
        (16, Status::Truncated(0)), (23, Status::Truncated(1)), (24, Status::Done)], b"\x01\0\0\0", 17, 0;
    // A long header is short until its last byte.
    "restore", LONG, 517, ZEROS, 1000, Change::Input, 0 => &[(18, Status::Header(HeaderFault::Short)),
        (530, Status::Truncated(0)), (535, Status::Truncated(1)), (536, Status::Done)], &[0; 1024], 531,
        0;
    // A cut file is no array.
    "run a lines 1", b"get 0\nget 4\n", 0, UNUSED, 1000, Change::File, 12 => &[(19, Status::Truncated(0)),
        (27, Status::Truncated(1)), (31, Status::Truncated(2)), (32, Status::Done)], b"0\n0\n", 32, 0;
    // A fill bit that is one comes before a byte too many.
    "run a lines 1", b"get 0\nget 4\n", 0, FILLED, 1000, Change::Error, NEVER => &[(NEVER, Status::Pad)],
        b"", NEVER, 0;
    // The magic is tested before the codec.
    "info", b"zfq\x04\0\0\0\0\0\0\0\x88\0\0\0\0", 0, ZEROS, 1000, Change::Error, NEVER =>
        &[(NEVER, Status::Header(HeaderFault::Magic))], b"", NEVER, 0;
    // A short header is told before a wrong one.
    "info", b"zfq\x05\0\0\0\0\0\0\0", 0, ZEROS, 1000, Change::Error, NEVER =>
        &[(NEVER, Status::Header(HeaderFault::Short))], b"", NEVER, 0;
    // The type is tested before the mode.
    "info", b"zfp\x05\x02\0\0\0\0\0\x10\x88\0\0\0\0", 0, ZEROS, 1000, Change::Error, NEVER =>
        &[(NEVER, Status::Header(HeaderFault::Scalar))], b"", NEVER, 0;
    // A read that fails while values come.
    "compress int32 1 reversible", b"\0\0\0\0", 0, ZEROS, 1, Change::Read, 0 => &[(4, Status::ReadFault)],
        ZERO, 0, 0;
    // A read that fails while a stream comes.
    "restore", ONE, 0, ZEROS, 1, Change::Read, 0 => &[(24, Status::ReadFault)], b"\x01\0\0\0", 17, 0;
    // A write that fails.
    "compress int32 1 reversible", b"\0\0\0\0", 0, ZEROS, 1, Change::Write, 0 =>
        &[(15, Status::WriteFault)], ZERO, 1, 0;
    // A script that can't be read.
    "run a lines 1", b"set 0 1\nget 0\nflush\nget 0\nstats\n", 0, ZEROS, 1000, Change::Read, 0 =>
        &[(0, Status::ReadFault)], b"", 1, 0;
    // A save that fails after all replies.
    "run a", b"set 0 7\ndiscard\nget 0\n", 0, ZEROS, 1000, Change::Shelf, 3 => &[(3, Status::SaveFault)],
        b"0\n", 0, 0;
    // A fault of the error output changes no status.
    "frob", b"", 0, ZEROS, 1000, Change::Error, 0 => &[(0, Status::Usage(0))], b"", 1, 0;
    // The longest header is all that is taken.
    "info", ZERO, 984, ZEROS, 1000, Change::Error, NEVER => &[(NEVER, Status::Done)],
        b"int32 1 reversible blocks 1 header 96\n", 0, 981;
};

// The number, where it is that of a call of this device.
fn fails(case: &Case, device: Change, number: u64) -> u64 {
    if case.change == device { number } else { NEVER }
}

// The first bytes where the number says how many there are, else all of them.
fn cut<'a>(bytes: &'a [u8], case: &Case, part: Change, number: u64) -> &'a [u8] {
    let most = bytes.len();
    if case.change == part && number < most as u64 {
        &bytes[..number as usize]
    } else {
        bytes
    }
}

// Whether the call of this number ends with this status, and the devices hold what they should then.
fn ends_so(alloc: Global, case: &Case, number: u64, status: Status) -> Result<bool, AllocError> {
    let whole = padded(
        alloc,
        case.input,
        case.input.len().saturating_add(case.zeros),
    )?;
    let input = cut(&whole, case, Change::Input, number);
    let so = call_ends_so(alloc, case, number, status, input);
    drop(whole);
    so
}

// The same with what the source holds.
fn call_ends_so(
    alloc: Global,
    case: &Case,
    number: u64,
    status: Status,
    input: &[u8],
) -> Result<bool, AllocError> {
    let file = cut(case.file, case, Change::File, number);
    let devices = devices_of(case, number);
    let ended = call(alloc, case.words, input, file, &devices)?;
    let so = ended.status == status && ended.holds(file) && writes_so(case, number, &ended);
    drop(ended);
    Ok(so)
}

// The devices of the call of this number.
fn devices_of(case: &Case, number: u64) -> Devices {
    Devices {
        piece: case.piece,
        read: fails(case, Change::Read, number),
        write: fails(case, Change::Write, number),
        error: fails(case, Change::Error, number),
        shelf: fails(case, Change::Shelf, number),
    }
}

// Whether this is written and left in the source.
fn writes_so(case: &Case, number: u64, ended: &Ended) -> bool {
    let written = ended.out.bytes();
    let whole = matches!(ended.status, Status::Done | Status::SaveFault);
    case.text.starts_with(written)
        && (!whole || written == case.text && ended.src.left().len() == case.left)
        && (number >= case.silent || written.is_empty())
}

// Whether all calls of all cases end as they say.
fn all_cases_end_so(alloc: Global, cases: &[Case]) -> Result<bool, AllocError> {
    let mut all = true;
    for case in cases {
        all &= all_end_so(alloc, case)?;
    }
    Ok(all)
}

fn all_end_so(alloc: Global, case: &Case) -> Result<bool, AllocError> {
    let mut all = true;
    let mut first = case.first;
    for (last, status) in case.ends.iter() {
        for number in first..=*last {
            all &= ends_so(alloc, case, number, *status)?;
        }
        first = last.saturating_add(1);
    }
    Ok(all)
}

#[test]
fn each_case_ends_as_it_is_said(rt: HostRuntime) -> Result<(), Fail> {
    assert!(rt; all_cases_end_so(rt.alloc(), &CASES)?);
    Ok(())
}
