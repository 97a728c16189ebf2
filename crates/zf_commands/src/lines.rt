//! The lines of a script.

ghost use Rattle.std.specs.Prelude.{◌≡◌, ◌<◌, [], ◌∷◌, length, IfSome, IfNone, IfOk, OnErr, OnOk, IsErr};
ghost use Rattle.zf_dev.specs.Faults.{HasCause};
ghost use Rattle.zf_dev.specs.Sink.{Appends, AppendsPart};
ghost use Rattle.zf_cached.specs.Replies.{reply_text};
ghost use Rattle.zf_cached.specs.Runs.{lines_of};
ghost use Rattle.zf_script.specs.Seen.{reply_of};
ghost use Rattle.zf_commands.specs.Calls.{IsReady, StaysReady};
ghost use Rattle.zf_commands.specs.Steps.{LeadsTo, said};
ghost use Rattle.zf_commands.specs.Lines.{Replies, Breaks};
ghost use Rattle.zf_commands.specs.Runs.{AllRun, HasStopped};

use crate::target::Scripted;
use memchr::memchr;
use zf_dev::{Failed, Sink, write_all};
use zf_script::{Reply, parse_line, reply_text};

/// The first line of some and those behind its line feed; none where there is no line feed, and so one line.
pub(crate) fn cut_line(lines: &[u8]) -> Option<(&[u8], &[u8])>
    ensures parts { IfSome result (λ parts. lines_of lines.now ≡ parts.0.now ∷ lines_of parts.1.now) }
    ensures shorter { IfSome result (λ parts. length parts.1.now < length lines.now) }
    ensures none { IfNone result (lines_of lines.now ≡ lines.now ∷ []) }
{
    let end = memchr(b'\n', lines)?;
    Some((&lines[..end], &lines[end + 1..]))
}

/// Runs a line and writes its reply, if any; whether the line was refused.
pub(crate) fn run_line<A: Scripted, O: Sink>(
    a: &mut A,
    line: &[u8],
    out: &mut O,
) -> Result<bool, Failed>
    requires { IsReady A.Subject a.old }
    ensures ok { IfOk result (Replies (A.setting (A.kept a.old)) (A.session a.old) line.now
        (A.session a.new) (O.contents out.old) (O.contents out.new)) }
    ensures err { OnErr result (Breaks (A.setting (A.kept a.old)) (A.session a.old) line.now
        (A.session a.new) (O.contents out.old) (O.contents out.new)) }
    ensures stays { StaysReady A.Subject a.old a.new }
    ensures unchanged { OnOk result (O.faults out.new ≡ O.faults out.old) }
    ensures cause { HasCause (IsErr result) (O.faults out.old) (O.faults out.new) }
{
    let Some(reply) = reply_to(a, line) else {
        return Ok(false);
    };
    answer(&reply, out)?;
    Ok(matches!(reply, Reply::Refused(_)))
}

// Writes a reply. Room for its text is no part of a line that has none.
#[inline(never)]
fn answer<O: Sink>(reply: &Reply, out: &mut O) -> Result<(), Failed>
    ensures all { OnOk result (Appends (O.contents out.old) (O.contents out.new)
        (reply_text (reply_of reply.now))) }
    ensures part { OnErr result (AppendsPart (O.contents out.old) (O.contents out.new)
        (reply_text (reply_of reply.now))) }
    ensures unchanged { OnOk result (O.faults out.new ≡ O.faults out.old) }
    ensures cause { HasCause (IsErr result) (O.faults out.old) (O.faults out.new) }
{
    let mut room = [0; 128];
    write_all(out, reply_text(reply, &mut room))
}

// What a line leads to, and its reply, if any. An empty line has none.
fn reply_to<A: Scripted>(a: &mut A, line: &[u8]) -> Option<Reply>
    requires { IsReady A.Subject a.old }
    ensures step { LeadsTo (A.setting (A.kept a.old)) (A.session a.old) line.now
        (A.session a.new) (said result) }
    ensures stays { StaysReady A.Subject a.old a.new }
{
    if line.is_empty() {
        return None;
    }
    match parse_line(a.sizes().dims(), line) {
        Ok(cmd) => a.obey(cmd),
        Err(why) => Some(Reply::Refused(why)),
    }
}

/// Runs all lines, each on what those before left, and counts those that are refused.
pub fn run_lines<A: Scripted, O: Sink>(a: &mut A, script: &[u8], out: &mut O) -> Result<u64, Failed>
    requires { IsReady A.Subject a.old }
    ensures ok { IfOk result (AllRun (A.setting (A.kept a.old)) script.now (A.session a.old)
        (A.session a.new) (O.contents out.old) (O.contents out.new)) }
    ensures err { OnErr result (HasStopped (A.setting (A.kept a.old)) script.now (A.session a.old)
        (A.session a.new) (O.contents out.old) (O.contents out.new)) }
    ensures stays { StaysReady A.Subject a.old a.new }
    ensures unchanged { OnOk result (O.faults out.new ≡ O.faults out.old) }
    ensures cause { HasCause (IsErr result) (O.faults out.old) (O.faults out.new) }
{
    let mut refused = 0;
    let mut lines = script;
    while let Some((line, rest)) = cut_line(lines) {
        refused += u64::from(run_line(a, line, out)?);
        lines = rest;
    }
    // the last line has no line feed
    refused += u64::from(run_line(a, lines, out)?);
    Ok(refused)
}
