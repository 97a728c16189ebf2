//! Runs of values along x, for reading.

ghost use Rattle.std.specs.Prelude.{◌≡◌, ◌+◌, ◌≤◌, length, take, drop};
ghost use Rattle.std.specs.Borrow.{sem};
ghost use Rattle.zf_array.specs.Standing.{state, shape};
ghost use Rattle.zf_window.specs.Positions.{position_at, x_step};
ghost use Rattle.zf_view.specs.Touches.{touched_at};
ghost use Rattle.zf_view.specs.Keeps.{LiesAt};
ghost use Rattle.zf_view.specs.Runs.{ShowsRun, with_touch};

use crate::view::View;
use zf_base::{Lane, Pos};

impl<'a, T: Lane, const D: usize> View<'a, T, D> {
    ghost use Rattle.zf_view.specs.ViewLoans.{EndsTouched};

    /// The values at position `p` of the window and at those that follow along x, as far as they lie in one
    /// block of the array and in the window: 1 to 4 of them, side by side, by one touch. `p` lies in the
    /// window, whose step along x is 1.
    pub fn run(&mut self, p: Pos) -> &[T]
        requires at { LiesAt (shape self.old.array.now) self.old.window p }
        requires step { x_step self.old.window ≡ 1 }
        ensures* touched { sem 𝓛 (EndsTouched T.row D.row
            (record { width = T.width; WIDTH = T.WIDTH; TY = T.TY; value = T.value; in_range = T.in_range })
            (record { eq = T.eq }) self.entry p) }
        ensures shows { ShowsRun T.value self.old.array.now self.old.window p result.now }
        ensures state { let a = self.old.array.now in
            state (with_touch a (position_at self.old.window p))
            ≡ touched_at a (position_at self.old.window p) }
    {
        let (first, len) = (self.window.map(p), self.window.run_length(p));
        let array = &mut *self.array;
        let (b, place) = array.shape().place(first);
        part(array.block(b), place, len)
    }
}

/// The `len` values of a block from a place on.
pub(crate) fn part<T: Lane>(block: &[T], place: usize, len: usize) -> &[T]
    requires { place + len ≤ length block.now }
    ensures { result.now ≡ take len (drop place block.now) }
{
    let _all = block.len();
    &block[place..place + len]
}
