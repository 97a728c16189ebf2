//! An array that may be split into private views.

ghost use Rattle.std.specs.Prelude.{◌≡◌, ◌<◌, ◌≤◌, ◌&&◌, None, length, IsSome, IfOk, Bool, List};
ghost use Rattle.zf_spec.specs.Grid.{blocks};
ghost use Rattle.zf_base.specs.declared.lane.Ty.{Ty};
ghost use Rattle.zf_header.specs.declared.header.Mode.{Mode};
ghost use Rattle.zf_header.specs.HeaderBits.{block_bits};
ghost use Rattle.zf_cached.specs.Commands.{Command};
ghost use Rattle.zf_cached.specs.Splits.{is_view_count};
ghost use Rattle.zf_cached.specs.Steps.{joined, is_line_count};
ghost use Rattle.zf_cached.specs.Runs.{array_setting, ended};
ghost use Rattle.zf_cache.specs.Kept.{IsLineCount};
ghost use Rattle.zf_array.specs.Coded.{HasEmptyLines, IsCoded};
ghost use Rattle.zf_commands.specs.Kinds.{cmd_of_kind, view_cmd, asked, IsPlain};
ghost use Rattle.zf_run.specs.Sessions.{session_of, setting_of, kind, IsArray};
ghost use Rattle.zf_commands.specs.Steps.{HasWindow, said};
ghost use Rattle.zf_run.specs.Splits.{lists, session_in, FitTogether, StaysParted, ObeysParted, AreNewParts};

use crate::arrays::Whole;
use crate::changes::change_array;
use crate::views::{flush_views, on_view};
use std::alloc::{AllocError, Global};
use zf_array::{Array, Codes};
use zf_base::{Lane, Shape};
use zf_cache::raised;
use zf_commands::{Kind, Scripted, Subject, ViewCmd, kind_of, look_through, read, write};
use zf_private::Private;
use zf_script::{Cmd, Refusal, Reply};
use zf_view::Window;

// The most views, and the most lines of each.
const MAX_VIEWS: u64 = 16;

const MAX_LINES: u64 = 65536;

/// An array, and its private views while it is split into some.
#[derive(Drop)]
pub(crate) struct Parted<'a, T: Lane, const D: usize> {
    pub(crate) alloc: Global,
    pub(crate) array: &'a mut Array<T, D>,
    pub(crate) views: &'a mut Option<Vec<Private<T, D>>>,
    pub(crate) window: Window,
}

impl<'a, T: Lane, const D: usize> Parted<'a, T, D> {
    /// The end of a run: a split ends, and then the array is flushed.
    pub(crate) fn finish(&mut self)
        requires { FitTogether T.value T.width D self.old.array.now self.old.views.now }
        ensures ended { ended (setting_of T.width self.old.array.now) (session_in T.value self.old)
            ≡ session_of self.new.array.now self.new.window }
        ensures kept { StaysParted self.old self.new }
    {
        self.join();
        let whole = &mut *self.array;
        whole.flush();
    }

    // Flushes the views in order, and ends the split, if there is one.
    fn join(&mut self)
        requires { FitTogether T.value T.width D self.old.array.now self.old.views.now }
        ensures joined { joined (setting_of T.width self.old.array.now) (session_in T.value self.old)
            ≡ session_of self.new.array.now self.new.window }
        ensures whole { self.new.views.now ≡ None }
        ensures array { IsArray T.width D self.new.array.now.header }
        ensures kept { StaysParted self.old self.new }
    {
        let array = &mut *self.array;
        let parts = &mut *self.views;
        let Some(mut views) = parts.take() else {
            return;
        };
        flush_views(array, &mut views);
    }

    // `split N L`: that many views, each with so many lines. The memory is taken first; then the array is
    // flushed.
    fn split(&mut self, count: u64, lines: u64) -> Option<Reply>
        requires whole { self.old.views.now ≡ None }
        requires sound { FitTogether T.value T.width D self.old.array.now self.old.views.now }
        requires window { HasWindow (session_in T.value self.old) }
        ensures { ObeysParted T.value T.width self.old self.new (Command.split count lines) (said result) }
    {
        let array = &mut *self.array;
        let shape = array.shape();
        if !may_split(shape.blocks(), count, lines) {
            return Some(Reply::Refused(Refusal::Size));
        }
        let Ok(views) = new_views(self.alloc, shape, count, raised(lines as u32)) else {
            return Some(Reply::Refused(Refusal::Memory));
        };
        array.flush();
        see_coded(array);
        let parts = &mut *self.views;
        *parts = Some(views);
        None
    }

    // What a command does while the array is whole.
    fn obey_whole(&mut self, cmd: Kind) -> Option<Reply>
        requires whole { self.old.views.now ≡ None }
        requires sound { FitTogether T.value T.width D self.old.array.now self.old.views.now }
        requires window { HasWindow (session_in T.value self.old) }
        requires plain { IsPlain (session_in T.value self.old) (cmd_of_kind cmd) }
        ensures { ObeysParted T.value T.width self.old self.new
            (asked (session_in T.value self.old) (cmd_of_kind cmd)) (said result) }
    {
        match cmd {
            Kind::Read(asked) => {
                let array = &mut *self.array;
                let window = &mut self.window;
                read(&mut Whole { array, window }, asked)
            }
            Kind::Window(asked) => {
                let array = &mut *self.array;
                let window = &mut self.window;
                look_through(&mut Whole { array, window }, asked)
            }
            Kind::Write(asked) => {
                let array = &mut *self.array;
                let window = &mut self.window;
                write::<T, _>(&mut Whole { array, window }, asked)
            }
            Kind::Array(asked) => change_array(&mut *self.array, &mut self.window, asked),
            Kind::Split(count, lines) => self.split(count, lines),
            Kind::Join => Some(Reply::Refused(Refusal::Split)),
            Kind::View(_, _) => Some(Reply::Refused(Refusal::Split)),
        }
    }

    // What a command does while the array is split: it ends the split, or is on a view.
    fn obey_parted(&mut self, cmd: Kind) -> Option<Reply>
        requires sound { FitTogether T.value T.width D self.old.array.now self.old.views.now }
        requires parted { IsSome self.old.views.now }
        requires window { HasWindow (session_in T.value self.old) }
        requires plain { IsPlain (session_in T.value self.old) (cmd_of_kind cmd) }
        ensures { ObeysParted T.value T.width self.old self.new
            (asked (session_in T.value self.old) (cmd_of_kind cmd)) (said result) }
    {
        match cmd {
            Kind::Join => {
                self.join();
                None
            }
            Kind::View(i, asked) => self.obey_view(i, asked),
            _ => Some(Reply::Refused(Refusal::Split)),
        }
    }

    // What a command on a view does. Where there is none it is refused.
    fn obey_view(&mut self, i: u64, cmd: ViewCmd) -> Option<Reply>
        requires sound { FitTogether T.value T.width D self.old.array.now self.old.views.now }
        requires window { HasWindow (session_in T.value self.old) }
        requires plain { IsPlain (session_in T.value self.old) (view_cmd i cmd) }
        ensures { ObeysParted T.value T.width self.old self.new
            (asked (session_in T.value self.old) (view_cmd i cmd)) (said result) }
    {
        let array = &mut *self.array;
        let Some(views) = &mut *self.views else {
            return Some(Reply::Refused(Refusal::Split));
        };
        on_view(array, views, i, cmd)
    }
}

impl<'a, T: Lane, const D: usize> Subject for Parted<'a, T, D> {
    ghost use base.Fml.{GName};

    ghost Code = { List Bool };

    ghost Kept = { (Ty × Mode) × GName };

    ghost kept = { λ p. (kind p.array.now, p.array.ghost_name) };

    ghost setting = { λ k. array_setting T.width (block_bits k.0.1) };

    ghost sound = { λ p. FitTogether T.value T.width D p.array.now p.views.now };

    ghost session = { session_in T.value };

    fn sizes(&self) -> Shape {
        self.array.shape()
    }
}

impl<'a, T: Lane, const D: usize> Scripted for Parted<'a, T, D> {
    fn obey(&mut self, cmd: Cmd) -> Option<Reply> {
        let asked = kind_of(cmd);
        if self.views.is_some() {
            self.obey_parted(asked)
        } else {
            self.obey_whole(asked)
        }
    }
}

// Whether an array of so many blocks may be split into `count` views of so many lines.
fn may_split(blocks: u64, count: u64, lines: u64) -> bool
    ensures { result ≡ (is_view_count blocks count && is_line_count lines) }
{
    0 < count && count <= MAX_VIEWS && count <= blocks && 0 < lines && lines <= MAX_LINES
}

// Tells that an array with no block in any line stands for its codes alone.
fn see_coded<T: Lane, const D: usize>(a: &mut Array<T, D>)
    requires { HasEmptyLines a.old }
    ensures coded { IsCoded a.new }
    ensures same { a.new ≡ a.old }
{
    let _codes = Codes::bind(a);
}

// The views of an array of these sizes, as many as `count`, each with so many lines and nothing in them.
fn new_views<T: Lane, const D: usize>(
    alloc: Global,
    shape: Shape,
    count: u64,
    lines: u32,
) -> Result<Vec<Private<T, D>>, AllocError>
    requires dims { length shape ≡ D }
    requires count { (0 < count) × (count ≤ 16) × (count ≤ blocks shape) }
    requires lines { IsLineCount lines }
    ensures { IfOk result (λ v. AreNewParts D shape count lines count v.items) }
{
    let blocks = shape.blocks();
    let mut views = Vec::new(alloc);
    for i in 0..count {
        let first = i * blocks / count;
        let next = (i + 1) * blocks / count;
        views.push(Private::new(alloc, shape, first, next - first, lines)?)?;
    }
    Ok(views)
}
