//! The program as a whole: its words, its commands and its error line.

ghost use Rattle.std.specs.Prelude.{◌≡◌, ◌≢◌, map, string_bytes};
ghost use Rattle.zf_dev.specs.Faults.{IsQuiet};
ghost use Rattle.zf_program.specs.Statuses.{error_line};
ghost use Rattle.zf_program.specs.World.{seen, counts};
ghost use Rattle.zf_program.specs.Answer.{meaning, reads_on};
ghost use Rattle.zf_program.specs.Fetching.{Fetches};
ghost use Rattle.zf_program.specs.Steps.{Gave, Steps};
ghost use Rattle.zf_program.specs.Calls.{Fulfils, HeedsWords};
ghost use Rattle.zf_program.specs.Headline.{OfCommand, OnUsage, RefusesWords, Behaves, HasCauses, StopsAtEnd, StaysExact, IsSent, AreQuiet, IsComplete, GivesBack, Sends};

use crate::commands::bound::bound;
use crate::commands::compress::compress;
use crate::commands::compress_narrow::compress_narrow;
use crate::commands::info::info;
use crate::commands::line::error_line;
use crate::commands::new::new;
use crate::commands::restore::restore;
use crate::commands::restore_narrow::restore_narrow;
use crate::commands::sample::sample;
use crate::commands::script::script;
use crate::commands::sending::send;
use crate::status::Status;
use std::alloc::Global;
use zf_dev::{Shelf, Sink, Source, write_all};
use zf_words::{Access, Command, parse};

/// Does what the words after the program's name say, from `src` to `out` and with the files of `shelf`; where
/// it is not done, a line on `err` says why.
pub fn zfpi<S: Source, O: Sink, E: Sink, F: Shelf>(
    alloc: Global,
    words: &[String],
    src: &mut S,
    out: &mut O,
    err: &mut E,
    shelf: &mut F,
) -> Status
    ensures usage { RefusesWords (map string_bytes words.now) result }
    ensures untouched { OnUsage result ((src.new ≡ src.old) × (out.new ≡ out.old) × (shelf.new ≡ shelf.old)) }
    ensures command { OfCommand (map string_bytes words.now) (λ c. Behaves c result
        (seen (S.contents src.old) (O.contents out.old) (F.files shelf.old))
        (seen (S.contents src.new) (O.contents out.new) (F.files shelf.new))) }
    ensures causes { OfCommand (map string_bytes words.now) (λ c. HasCauses c result
        (counts (S.faults src.old) (O.faults out.old)) (counts (S.faults src.new) (O.faults out.new))
        (S.never_fails src.old) (S.never_fails src.new)) }
    // Nothing is read behind the end that was seen.
    ensures stops { OfCommand (map string_bytes words.now) (λ c.
        StopsAtEnd ((meaning c).reads result) ((meaning c).sees_end result)
        (S.ends_seen src.old) (S.ends_seen src.new)) }
    // A source that takes no more of what it reads than it gives still does, where the input is not read to its
    // end: `info` leaves what is behind a header.
    ensures exact { OfCommand (map string_bytes words.now) (λ c.
        StaysExact (reads_on (meaning c) result) (S.is_exact src.old) (S.is_exact src.new)) }
    // Also over devices that expose nothing: what was loaded, given, answered, written and saved is told of
    // one world.
    ensures steps { OfCommand (map string_bytes words.now)
        (λ c. Steps (Fetches F.fronts F.loads) F.saves F.faults c (Gave S.Source c src.old src.new)
        (O.contents out.old) (O.contents out.new) result shelf.old shelf.new) }
    ensures sure_shelf { F.never_fails shelf.old → (result ≢ Status.LoadFault) × F.never_fails shelf.new }
    ensures sure_saves { F.always_saves shelf.old → (result ≢ Status.SaveFault) × F.always_saves shelf.new }
    // What was written was handed on where the work was done, and where the sink did not fail.
    ensures sent { O.is_flushed out.old → IsSent result (IsQuiet (O.faults out.old) (O.faults out.new))
        (O.is_flushed out.new) }
    ensures complete { AreQuiet
        (counts (S.faults src.old) (O.faults out.old)) (counts (S.faults src.new) (O.faults out.new))
        (F.faults shelf.old) (F.faults shelf.new)
        → OfCommand (map string_bytes words.now) (λ c. IsComplete c result
        (seen (S.contents src.old) (O.contents out.old) (F.files shelf.old))) }
    ensures back { GivesBack (map string_bytes words.now) result
        (seen (S.contents src.old) (O.contents out.old) (F.files shelf.old))
        (seen (S.contents src.new) (O.contents out.new) (F.files shelf.new)) }
    ensures message { Sends (error_line result) (E.contents err.old) (E.contents err.new) (E.faults err.old)
        (E.faults err.new) }
    ensures message_sent { IsQuiet (E.faults err.old) (E.faults err.new) → E.is_flushed err.new }
{
    let status = answer(alloc, words, src, out, shelf);
    report(&status, err);
    status
}

// Does what the words say, and says how it ended.
fn answer<S: Source, O: Sink, F: Shelf>(
    alloc: Global,
    words: &[String],
    src: &mut S,
    out: &mut O,
    shelf: &mut F,
) -> Status
    ensures { HeedsWords S.Source O.Sink F.Shelf (map string_bytes words.now) result
        src.old src.new out.old out.new shelf.old shelf.new }
{
    match parse(words) {
        Ok(command) => do_command(alloc, command, src, out, shelf),
        Err(word) => Status::Usage(word),
    }
}

// Does what the command says.
fn do_command<S: Source, O: Sink, F: Shelf>(
    alloc: Global,
    command: Command,
    src: &mut S,
    out: &mut O,
    shelf: &mut F,
) -> Status
    requires { (meaning command).can_run }
    ensures { Fulfils S.Source O.Sink F.Shelf command result src.old src.new out.old out.new
        shelf.old shelf.new }
{
    match command {
        Command::Compress(header) => send(compress(alloc, header, src, out), out),
        Command::CompressNarrow(narrow, header) => {
            send(compress_narrow(alloc, narrow, header, src, out), out)
        }
        Command::Restore => send(restore(alloc, src, out), out),
        Command::RestoreNarrow(narrow) => send(restore_narrow(alloc, narrow, src, out), out),
        Command::Info => send(info(src, out), out),
        Command::New {
            name,
            ty,
            shape,
            bits,
        } => new(alloc, &name, ty, shape, bits, shelf),
        // A script hands on its replies before it saves.
        Command::Run { name, caching } => {
            script(alloc, &name, Access::Run(caching), src, out, shelf)
        }
        Command::Look { name, lines } => script(alloc, &name, Access::Look(lines), src, out, shelf),
        Command::Bound { name, most } => send(bound(alloc, &name, most, out, shelf), out),
        Command::Sample(header, seed) => send(sample(alloc, header, seed, out), out),
    }
}

// Sends the line of a status, and hands it on. A fault of the error output changes no status.
fn report<E: Sink>(status: &Status, err: &mut E)
    ensures message { Sends (error_line status.now) (E.contents err.old) (E.contents err.new)
        (E.faults err.old) (E.faults err.new) }
    ensures sent { IsQuiet (E.faults err.old) (E.faults err.new) → E.is_flushed err.new }
{
    tell(status, err);
    let _ = err.flush();
}

// Writes the line of a status.
fn tell<E: Sink>(status: &Status, err: &mut E)
    ensures { Sends (error_line status.now) (E.contents err.old) (E.contents err.new) (E.faults err.old)
        (E.faults err.new) }
{
    let _ = write_all(err, error_line(status).as_str().as_bytes());
}
