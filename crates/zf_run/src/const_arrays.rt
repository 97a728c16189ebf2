//! Commands on an array that is only read.

ghost use Rattle.std.specs.Prelude.{Bool, List, refl};
ghost use Rattle.zf_header.specs.declared.header.Header.{Header};
ghost use Rattle.zf_run.specs.Sessions.{look_setting_of, look_session_of, stream_of};

use std::alloc::AllocError;
use zf_base::{Lane, Shape};
use zf_commands::{Kind, Scripted, Subject, Target, kind_of, look_through, read, sum_within};
use zf_const::ConstArray;
use zf_script::{Cmd, Refusal, Reply, Stats};
use zf_view::Window;

/// An array that is only read, as what the lines of a script work on.
#[derive(Drop)]
pub(crate) struct Looked<'a, T: Lane, const D: usize> {
    pub(crate) array: &'a mut ConstArray<T, D>,
    pub(crate) window: Window,
}

impl<'a, T: Lane, const D: usize> Subject for Looked<'a, T, D> {
    ghost use base.Fml.{GName};

    ghost Code = { List Bool };

    ghost Kept = { (Header × List (List Bool)) × GName };

    ghost kept = { λ a. (stream_of a.array.now, a.array.ghost_name) };

    ghost setting = { λ k. look_setting_of T.width k.0.0 };

    ghost session = { λ a. look_session_of a.array.now a.window };

    ghost sound = { λ a. Unit {0} };

    fn sizes(&self) -> Shape {
        self.array.shape()
    }
}

impl<'a, T: Lane, const D: usize> Target for Looked<'a, T, D> {
    ghost whole = { λ a. refl };

    fn window(&self) -> Window {
        self.window
    }

    fn use_window(&mut self, window: Window) {
        self.window = window;
    }

    #[inline]
    fn value_at(&mut self, b: u64, place: usize) -> i128 {
        let array = &mut *self.array;
        array.value_at(b, place).to_wide()
    }

    fn sum_of_block(&mut self, b: u64) -> i128 {
        let array = &mut *self.array;
        let size = array.shape().extent(b).size;
        sum_within(array.block(b), &size)
    }

    fn use_lines(&mut self, count: u32) -> Result<(), AllocError> {
        let array = &mut *self.array;
        array.set_lines(count)?;
        Ok(())
    }

    fn counts(&self) -> Stats {
        self.array.stats()
    }
}

impl<'a, T: Lane, const D: usize> Scripted for Looked<'a, T, D> {
    fn obey(&mut self, cmd: Cmd) -> Option<Reply> {
        match kind_of(cmd) {
            Kind::Read(asked) => read(self, asked),
            Kind::Window(asked) => look_through(self, asked),
            _ => Some(Reply::Refused(Refusal::Word)),
        }
    }
}
