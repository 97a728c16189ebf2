//! Words that are no command.

use super::calls::{Devices, Ended, WHOLE, call};
use super::known::ZEROS;
use std::alloc::{AllocError, Global};
use std::test::Fail;
use zf_program::Status;

// The words, and how many of them begin a command.
static WORDS: [(&str, u64); 81] = [
    ("", 0),
    ("frob", 0),
    ("compress int32 0 reversible", 2),
    ("compress int32 4", 3),
    ("compress int32 4 rate 0", 4),
    ("compress int32 4 rate 32769", 4),
    ("compress int32 4 precision", 4),
    ("compress int32 4 precision 0", 4),
    ("compress int32 4 precision 129", 4),
    ("compress int32 134217728 rate 2048", 4),
    ("compress int24 4 reversible", 1),
    ("compress int32 04 reversible", 2),
    ("compress int32 +4 reversible", 2),
    ("compress int32 4x reversible", 2),
    ("compress int32 1x1x1x1x1 reversible", 2),
    ("compress int32 4 reversible x", 4),
    ("info x", 1),
    ("restore x", 1),
    ("run", 1),
    ("run .a", 1),
    ("run a x", 2),
    ("run a lines", 3),
    ("run a lines 0", 3),
    ("run a lines 65537", 3),
    ("run a lines 01", 3),
    ("run a lines 1 x", 4),
    ("run a twoway", 3),
    ("run a twoway 0", 3),
    ("run a twoway 65537", 3),
    ("run a twoway 1 x", 4),
    ("run a twoway 2 lines 2", 4),
    ("run a twoways 2", 2),
    ("look a twoway 2", 2),
    ("look", 1),
    ("look .a", 1),
    ("look a x", 2),
    ("look a lines", 3),
    ("look a lines 0", 3),
    ("look a lines 1 x", 4),
    ("bound", 1),
    ("bound .a", 1),
    ("bound a", 2),
    ("bound a -1", 2),
    ("bound a 01", 2),
    ("bound a 18446744073709551616", 2),
    ("bound a 1 x", 3),
    ("new", 1),
    ("new .a int32 8 64", 1),
    ("new -a int32 8 64", 1),
    ("new a/b int32 8 64", 1),
    ("new a", 2),
    ("new a float 8 64", 2),
    ("new a int32 0 64", 3),
    ("new a int32 8", 4),
    ("new a int32 8 0", 4),
    ("new a int32 8 32769", 4),
    ("new a int32 134217728 287", 4),
    ("new a int32 8 64 x", 5),
    (
        "new 1234567890123456789012345678901234567890123456789012345678901234 int32 8",
        4,
    ),
    (
        "new 12345678901234567890123456789012345678901234567890123456789012345 int32 8",
        1,
    ),
    ("sample", 1),
    ("sample float", 1),
    ("sample int32", 2),
    ("sample int32 0", 2),
    ("sample int32 5", 3),
    ("sample int32 5 -1 reversible", 3),
    ("sample int32 5 01 reversible", 3),
    ("sample int32 5 18446744073709551616 reversible", 3),
    ("sample int32 5 7", 4),
    ("sample int32 5 7 rate", 5),
    ("sample int32 5 7 precision 129", 5),
    ("sample int32 5 7 reversible x", 5),
    ("sample int32 134217728 1 rate 287", 5),
    ("restore int32", 1),
    ("restore int8 x", 2),
    ("compress uint32 4 reversible", 1),
    ("compress uint8 4", 3),
    ("compress int16 4 rate 0", 4),
    ("compress int8 4 reversible int8", 4),
    ("new a int8 8 64", 2),
    ("sample uint16 4 1 reversible", 1),
];

// Devices whose first read and first write would fail, and a script that would change the file.
const FAILING: Devices = Devices {
    read: 0,
    write: 0,
    ..WHOLE
};

const SCRIPT: &[u8] = b"set 0 9\nget 0\n";

impl Ended {
    // Whether no device but the error output was used.
    fn is_untouched(&self) -> bool {
        self.src.left() == SCRIPT
            && self.out.bytes().is_empty()
            && self.faults() == 0
            && self.holds(ZEROS)
    }
}

// Whether all of them are told from commands at their numbers.
fn all_are_told(alloc: Global, rows: &[(&str, u64)]) -> Result<bool, AllocError> {
    let mut all = true;
    for (words, number) in rows {
        let line = format!(in alloc; "zfpi: usage: word {number}\n")?;
        let ended = call(alloc, words, SCRIPT, ZEROS, &FAILING)?;
        all &= ended.status == Status::Usage(*number)
            && ended.err.bytes() == line.as_bytes()
            && ended.is_untouched();
        drop(ended);
        drop(line);
    }
    Ok(all)
}

#[test]
fn other_words_are_no_command(rt: HostRuntime) -> Result<(), Fail> {
    assert!(rt; all_are_told(rt.alloc(), &WORDS)?);
    Ok(())
}
