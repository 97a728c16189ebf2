//! Commands on an array that is read and written.

ghost use Rattle.std.specs.Prelude.{◌≡◌, Bool, List, refl};
ghost use Rattle.zf_base.specs.declared.lane.Ty.{Ty};
ghost use Rattle.zf_header.specs.declared.header.Mode.{Mode};
ghost use Rattle.zf_header.specs.HeaderBits.{block_bits};
ghost use Rattle.zf_cached.specs.Runs.{array_setting};
ghost use Rattle.zf_run.specs.Sessions.{session_of, kind, array_width, IsArray};

use std::alloc::AllocError;
use zf_array::Array;
use zf_base::{Lane, Pos, Shape};
use zf_commands::{Changing, Subject, Target, fill_line, sum_within};
use zf_script::Stats;
use zf_view::Window;

/// An array that is read and written, as what the lines of a script work on.
#[derive(Drop)]
pub(crate) struct Whole<'a, T: Lane, const D: usize> {
    pub(crate) array: &'a mut Array<T, D>,
    pub(crate) window: &'a mut Window,
}

impl<'a, T: Lane, const D: usize> Subject for Whole<'a, T, D> {
    ghost use base.Fml.{GName};

    ghost Code = { List Bool };

    ghost Kept = { (Ty × Mode) × GName × GName };

    ghost kept = { λ a. (kind a.array.now, a.array.ghost_name, a.window.ghost_name) };

    ghost setting = { λ k. array_setting T.width (block_bits k.0.1) };

    ghost session = { λ a. session_of a.array.now a.window.now };

    ghost sound = { λ a. IsArray T.width D a.array.now.header };

    fn sizes(&self) -> Shape {
        self.array.shape()
    }
}

impl<'a, T: Lane, const D: usize> Target for Whole<'a, T, D> {
    ghost whole = { λ a. refl };

    fn window(&self) -> Window {
        *self.window
    }

    fn use_window(&mut self, window: Window) {
        *self.window = window;
    }

    #[inline]
    fn value_at(&mut self, b: u64, place: usize) -> i128 {
        let array = &mut *self.array;
        array.value_at(b, place).to_wide()
    }

    fn sum_of_block(&mut self, b: u64) -> i128 {
        let array = &mut *self.array;
        let size = array.shape().extent(b).size;
        sum_within(array.block(b), &size)
    }

    fn use_lines(&mut self, count: u32) -> Result<(), AllocError> {
        let array = &mut *self.array;
        array.set_lines(count)?;
        Ok(())
    }

    fn counts(&self) -> Stats {
        self.array.stats()
    }
}

impl<'a, T: Lane, const D: usize> Changing<T> for Whole<'a, T, D> {
    ghost same_width = { λ k. array_width T.width (block_bits k.0.1) };

    fn put(&mut self, p: Pos, v: T) {
        let array = &mut *self.array;
        array.set(p, v);
    }

    fn increase(&mut self, p: Pos, v: T) {
        let array = &mut *self.array;
        array.add(p, v);
    }

    fn fill_block(&mut self, b: u64, v: T) {
        let array = &mut *self.array;
        fill_line(array.block_mut(b), v);
    }

    fn flush_all(&mut self) {
        let array = &mut *self.array;
        array.flush();
    }

    fn discard_all(&mut self) {
        let array = &mut *self.array;
        array.discard();
    }
}
