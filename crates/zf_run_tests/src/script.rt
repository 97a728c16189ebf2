//! Lines and replies from a program that was written from the definitions alone.

use std::process::Abort;
use zf_base::Pos;
use zf_script::{Cmd, Refusal, Reply, Stats, parse_line, reply_text};

// A position, as a part of a table.
macro_rules! pos {
    ($x:literal, $y:literal, $z:expr, $w:literal) => {
        Pos {
            x: $x,
            y: $y,
            z: $z,
            w: $w,
        }
    };
}

// Dimensions, a line, and what it asks for.
static LINES: [(u8, &[u8], Cmd); 25] = [
    (1, b"get 0", Cmd::Get(pos!(0, 0, 0, 0))),
    (4, b"get 1,2,3,4", Cmd::Get(pos!(1, 2, 3, 4))),
    (2, b"set 5,7 -9", Cmd::Set(pos!(5, 7, 0, 0), -9)),
    (3, b"add 0,0,10 0", Cmd::Add(pos!(0, 0, 10, 0), 0)),
    (
        1,
        b"fill -18446744073709551615",
        Cmd::Fill(-18446744073709551615),
    ),
    (1, b"sum", Cmd::Sum),
    (
        2,
        b"view 1,2 3x4 5,6",
        Cmd::View(pos!(1, 2, 0, 0), pos!(3, 4, 1, 1), pos!(5, 6, 1, 1)),
    ),
    (2, b"slice 9 12", Cmd::Slice(9, 12)),
    (
        3,
        b"vget 1,0,18446744073709551615",
        Cmd::VGet(pos!(1, 0, u64::MAX, 0)),
    ),
    (
        1,
        b"vset 8 805306368",
        Cmd::VSet(pos!(8, 0, 0, 0), 805306368),
    ),
    (4, b"vsum", Cmd::VSum),
    (1, b"flush", Cmd::Flush),
    (2, b"discard", Cmd::Discard),
    (3, b"lines 0", Cmd::Lines(0)),
    (3, b"resize 5x0", Cmd::Resize(2, pos!(5, 0, 1, 1))),
    (1, b"resize 1x2x3x4", Cmd::Resize(4, pos!(1, 2, 3, 4))),
    (4, b"stats", Cmd::Stats),
    (1, b"split 0 18446744073709551615", Cmd::Split(0, u64::MAX)),
    (2, b"join", Cmd::Join),
    (2, b"@0 get 3,40", Cmd::PGet(0, pos!(3, 40, 0, 0))),
    (1, b"@15 set 7 -9", Cmd::PSet(15, pos!(7, 0, 0, 0), -9)),
    (3, b"@1 add 1,2,3 4", Cmd::PAdd(1, pos!(1, 2, 3, 0), 4)),
    (1, b"@7 flush", Cmd::PFlush(7)),
    (1, b"@18446744073709551615 discard", Cmd::PDiscard(u64::MAX)),
    (4, b"@10 stats", Cmd::PStats(10)),
];

fn are_read(rt: &impl Abort, rows: &[(u8, &[u8], Cmd)]) {
    for (dims, line, cmd) in rows {
        assert!(rt; 1 <= *dims && *dims <= 4);
        assert!(rt; parse_line(*dims, line) == Ok(*cmd));
    }
}

#[test]
fn lines_are_read(rt: HostRuntime) {
    are_read(&rt, &LINES);
}

// Dimensions, and a line that is none of the language.
static OTHERS: [(u8, &[u8]); 26] = [
    (1, b""),
    (1, b" sum"),
    (1, b"sum "),
    (1, b"get  0"),
    (1, b"get 01"),
    (1, b"get 18446744073709551616"),
    (1, b"fill -0"),
    (1, b"fill +1"),
    (1, b"get 1,2"),
    (2, b"get 1"),
    (2, b"get 1,2,"),
    (2, b"view 0,0 1,1 1,1"),
    (4, b"resize 1x1x1x1x1"),
    (1, b"flush 1"),
    (1, b"set 1"),
    (3, b"gets 1,2,3"),
    (1, b"@ 0 get 0"),
    (1, b"@ get 0"),
    (1, b"@01 get 0"),
    (1, b"@18446744073709551616 flush"),
    (1, b"@0"),
    (1, b"@0 sum"),
    (1, b"@0 @0 get 0"),
    (1, b"@0 join"),
    (1, b"split 2"),
    (2, b"@0 get 1"),
];

fn are_refused(rt: &impl Abort, rows: &[(u8, &[u8])]) {
    for (dims, line) in rows {
        assert!(rt; 1 <= *dims && *dims <= 4);
        assert!(rt; parse_line(*dims, line) == Err(Refusal::Word));
    }
}

#[test]
fn other_lines_are_refused(rt: HostRuntime) {
    are_refused(&rt, &OTHERS);
}

// Counts, and those of a cache that was not used.
const COUNTS: Stats = Stats {
    hits: 4031,
    misses: 65,
    writes: u64::MAX,
};

const NONE: Stats = Stats {
    hits: 0,
    misses: 0,
    writes: 0,
};

// A reply, and its text.
static REPLIES: [(Reply, &[u8]); 9] = [
    (Reply::Number(0), b"0\n"),
    (Reply::Number(-2147483648), b"-2147483648\n"),
    (
        Reply::Counts(COUNTS),
        b"hits 4031 misses 65 writes 18446744073709551615\n",
    ),
    (Reply::Refused(Refusal::Word), b"! word\n"),
    (Reply::Refused(Refusal::Split), b"! split\n"),
    (Reply::Refused(Refusal::Size), b"! size\n"),
    (Reply::Refused(Refusal::Range), b"! range\n"),
    (Reply::Refused(Refusal::Value), b"! value\n"),
    (Reply::Refused(Refusal::Memory), b"! memory\n"),
];

fn are_written(rt: &impl Abort, rows: &[(Reply, &[u8])]) {
    let mut buf = [0; 128];
    for (reply, text) in rows {
        assert!(rt; reply_text(reply, &mut buf) == *text);
    }
}

#[test]
fn replies_are_written(rt: HostRuntime) {
    are_written(&rt, &REPLIES);
    assert!(rt; Stats::default() == NONE);
}
