//! What commands do, by their kind: on an array whether or not it can be changed.

ghost use Rattle.zf_commands.specs.Kinds.{read_cmd, window_cmd, write_cmd, asked, IsPlain};
ghost use Rattle.zf_commands.specs.Calls.{IsReady, Obeys};
ghost use Rattle.zf_commands.specs.Steps.{said};

use crate::blocks::{fill, sum_blocks};
use crate::changes::lines;
use crate::kinds::{ReadCmd, WindowCmd, WriteCmd};
use crate::target::{Changing, Target};
use crate::values::{add, get, set, vget};
use crate::windows::{slice, sum_of_window, view};
use zf_base::Lane;
use zf_script::Reply;

/// What a command does that reads the array, or is about the cache.
pub fn read<A: Target>(a: &mut A, cmd: ReadCmd) -> Option<Reply>
    requires ready { IsReady A.Subject a.old }
    requires plain { IsPlain (A.session a.old) (read_cmd cmd) }
    ensures { Obeys A.Subject (asked (A.session a.old) (read_cmd cmd)) (said result) a.old a.new }
{
    match cmd {
        ReadCmd::Get(p) => get(a, p),
        ReadCmd::Sum => Some(Reply::Number(sum_blocks(a))),
        ReadCmd::Lines(count) => lines(a, count),
        ReadCmd::Stats => Some(Reply::Counts(a.counts())),
    }
}

/// What a command does that is about the window, or reads through it.
pub fn look_through<A: Target>(a: &mut A, cmd: WindowCmd) -> Option<Reply>
    requires ready { IsReady A.Subject a.old }
    requires plain { IsPlain (A.session a.old) (window_cmd cmd) }
    ensures { Obeys A.Subject (asked (A.session a.old) (window_cmd cmd)) (said result) a.old a.new }
{
    match cmd {
        WindowCmd::View(origin, size, step) => view(a, origin, size, step),
        WindowCmd::Slice(axis, at) => slice(a, axis, at),
        WindowCmd::Get(p) => vget(a, p),
        WindowCmd::Sum => Some(Reply::Number(sum_of_window(a))),
    }
}

/// What a command does that changes values, or writes them back.
pub fn write<T: Lane, A: Changing<T>>(a: &mut A, cmd: WriteCmd) -> Option<Reply>
    requires ready { IsReady A.Subject a.old }
    requires plain { IsPlain (A.session a.old) (write_cmd cmd) }
    ensures { Obeys A.Subject (asked (A.session a.old) (write_cmd cmd)) (said result) a.old a.new }
{
    match cmd {
        WriteCmd::Set(p, v) => set::<T, _>(a, p, v),
        WriteCmd::Add(p, v) => add::<T, _>(a, p, v),
        WriteCmd::Fill(v) => fill::<T, _>(a, v),
        WriteCmd::Flush => {
            a.flush_all();
            None
        }
        WriteCmd::Discard => {
            a.discard_all();
            None
        }
    }
}
