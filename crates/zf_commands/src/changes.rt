//! The command on the number of lines of the cache. The parts of the target fit.

ghost use Rattle.zf_cached.specs.Commands.{Command};
ghost use Rattle.zf_commands.specs.Calls.{IsReady, Obeys};
ghost use Rattle.zf_commands.specs.Steps.{said};

use crate::target::Target;
use zf_script::{Refusal, Reply};

// The most lines of a cache.
const MAX_LINES: u64 = 65536;

/// `lines L`: another number of lines of the cache.
pub(crate) fn lines<A: Target>(a: &mut A, count: u64) -> Option<Reply>
    requires { IsReady A.Subject a.old }
    ensures { Obeys A.Subject (Command.lines count) (said result) a.old a.new }
{
    if count == 0 || count > MAX_LINES {
        return Some(Reply::Refused(Refusal::Size));
    }
    match a.use_lines(count as u32) {
        Ok(()) => None,
        Err(_) => Some(Reply::Refused(Refusal::Memory)),
    }
}
