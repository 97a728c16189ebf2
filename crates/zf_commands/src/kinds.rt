//! Commands by their kinds. Each is sorted once, here.

ghost use Rattle.std.specs.Prelude.{◌≡◌};
ghost use Rattle.zf_commands.specs.Kinds.{cmd_of_kind};

use zf_base::Pos;
use zf_script::Cmd;

/// A command by its kind: what it is about.
#[derive(Clone, Copy)]
pub enum Kind {
    /// It reads the array, or is about the cache; nothing that is stored changes.
    Read(ReadCmd),
    /// It is about the window, or reads through it.
    Window(WindowCmd),
    /// It changes the values of the array, or writes them back.
    Write(WriteCmd),
    /// It changes a value through the window, or the sizes.
    Array(ArrayCmd),
    /// It splits the array: into how many views, and how many lines each has.
    Split(u64, u64),
    /// It ends the split.
    Join,
    /// It is on this view.
    View(u64, ViewCmd),
}

/// A command that reads the array, or is about the cache.
#[derive(Clone, Copy)]
pub enum ReadCmd {
    Get(Pos),
    Sum,
    Lines(u64),
    Stats,
}

/// A command on the window.
#[derive(Clone, Copy)]
pub enum WindowCmd {
    View(Pos, Pos, Pos),
    Slice(u64, u64),
    Get(Pos),
    Sum,
}

/// A command that changes values, or writes them back.
#[derive(Clone, Copy)]
pub enum WriteCmd {
    Set(Pos, i128),
    Add(Pos, i128),
    Fill(i128),
    Flush,
    Discard,
}

/// A command that changes an array of one line for a block.
#[derive(Clone, Copy)]
pub enum ArrayCmd {
    Set(Pos, i128),
    Resize(u8, Pos),
}

/// A command on one view.
#[derive(Clone, Copy)]
pub enum ViewCmd {
    Get(Pos),
    Set(Pos, i128),
    Add(Pos, i128),
    Flush,
    Discard,
    Stats,
}

/// The kind of a command.
#[inline(always)]
pub fn kind_of(cmd: Cmd) -> Kind
    ensures { cmd ≡ cmd_of_kind result }
{
    match cmd {
        Cmd::Get(p) => Kind::Read(ReadCmd::Get(p)),
        Cmd::Set(p, v) => Kind::Write(WriteCmd::Set(p, v)),
        Cmd::Add(p, v) => Kind::Write(WriteCmd::Add(p, v)),
        Cmd::Fill(v) => Kind::Write(WriteCmd::Fill(v)),
        Cmd::Sum => Kind::Read(ReadCmd::Sum),
        Cmd::View(origin, size, step) => Kind::Window(WindowCmd::View(origin, size, step)),
        Cmd::Slice(axis, at) => Kind::Window(WindowCmd::Slice(axis, at)),
        Cmd::VGet(p) => Kind::Window(WindowCmd::Get(p)),
        Cmd::VSet(p, v) => Kind::Array(ArrayCmd::Set(p, v)),
        Cmd::VSum => Kind::Window(WindowCmd::Sum),
        Cmd::Flush => Kind::Write(WriteCmd::Flush),
        Cmd::Discard => Kind::Write(WriteCmd::Discard),
        Cmd::Lines(count) => Kind::Read(ReadCmd::Lines(count)),
        Cmd::Resize(count, sizes) => Kind::Array(ArrayCmd::Resize(count, sizes)),
        Cmd::Stats => Kind::Read(ReadCmd::Stats),
        Cmd::Split(count, lines) => Kind::Split(count, lines),
        Cmd::Join => Kind::Join,
        Cmd::PGet(i, p) => Kind::View(i, ViewCmd::Get(p)),
        Cmd::PSet(i, p, v) => Kind::View(i, ViewCmd::Set(p, v)),
        Cmd::PAdd(i, p, v) => Kind::View(i, ViewCmd::Add(p, v)),
        Cmd::PFlush(i) => Kind::View(i, ViewCmd::Flush),
        Cmd::PDiscard(i) => Kind::View(i, ViewCmd::Discard),
        Cmd::PStats(i) => Kind::View(i, ViewCmd::Stats),
    }
}
