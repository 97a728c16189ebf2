//! Views of arrays that are only read.

ghost use Rattle.std.specs.Prelude.{◌≡◌};
ghost use Rattle.std.specs.Borrow.{sem};
ghost use Rattle.zf_spec.specs.Grid.{product};
ghost use Rattle.zf_cached.specs.Touch.{touch};
ghost use Rattle.zf_cached.specs.Windows.{LiesIn};
ghost use Rattle.zf_const.specs.Standing.{state, format, shape, block_at, touched};
ghost use Rattle.zf_window.specs.Positions.{position_at, x_step};
ghost use Rattle.zf_view.specs.Keeps.{LiesAt, SameArray, KeepsConstView};
ghost use Rattle.zf_view.specs.Sums.{value_in, sum_in, touched_to};
ghost use Rattle.zf_view.specs.Runs.{ShowsRunOf};

use crate::run::part;
use crate::sum::sum_of;
use zf_base::{Lane, Pos};
use zf_const::ConstArray;
use zf_window::Window;

/// A read-only array of `D` dimensions seen through a window. It borrows the array, and each of its calls is
/// the array's call at the position that the window maps to. No call changes a value.
///
/// ```text
/// let sum = ConstView::bind(&mut array, window).sum();
/// ```
#[derive(Drop)]
pub struct ConstView<'a, T: Lane, const D: usize> {
    array: &'a mut ConstArray<T, D>,
    window: Window,
}

impl<'a, T: Lane, const D: usize> ConstView<'a, T, D> {
    ghost use Rattle.zf_view.specs.ViewLoans.{EndsConstTouched};

    /// The array seen through a window that lies in it.
    pub fn bind(array: &'a mut ConstArray<T, D>, window: Window) -> ConstView<'a, T, D>
        requires { LiesIn (shape array.old) window }
        ensures array { SameArray array.entry result.array }
        ensures window { result.window ≡ window }
    {
        ConstView { array, window }
    }

    /// The value at position `p` of the window, by one touch. `p` lies in the window.
    pub fn get(&mut self, p: Pos) -> T
        requires at { LiesAt (shape self.old.array.now) self.old.window p }
        ensures keeps { KeepsConstView self.old self.new }
        ensures state { let a = self.old.array.now in
            state self.new.array.now ≡ touch (format a) (state a)
            (block_at a (position_at self.old.window p)) }
        ensures value { let a = self.old.array.now in
            T.value result ≡ value_in (shape a) (state a) (position_at self.old.window p) }
    {
        let array = &mut *self.array;
        array.get(self.window.map(p))
    }

    /// The sum of the values of the window, without wrap, by one touch of each position in raster order.
    pub fn sum(&mut self) -> i128
        requires { LiesIn (shape self.old.array.now) self.old.window }
        ensures keeps { KeepsConstView self.old self.new }
        ensures state { let a = self.old.array.now in
            state self.new.array.now
            ≡ touched_to (format a) (shape a) (state a) self.old.window (product self.old.window.size) }
        ensures value { let a = self.old.array.now in
            result ≡ sum_in (shape a) (state a) self.old.window (product self.old.window.size) }
    {
        let array = &mut *self.array;
        sum_of(array, self.window)
    }

    /// The values at position `p` of the window and at those that follow along x, as far as they lie in one
    /// block of the array and in the window: 1 to 4 of them, side by side, by one touch. `p` lies in the
    /// window, whose step along x is 1.
    pub fn run(&mut self, p: Pos) -> &[T]
        requires at { LiesAt (shape self.old.array.now) self.old.window p }
        requires step { x_step self.old.window ≡ 1 }
        ensures* touched { sem 𝓛 (EndsConstTouched T.row D.row
            (record { width = T.width; WIDTH = T.WIDTH; TY = T.TY; value = T.value; in_range = T.in_range })
            (record { eq = T.eq }) self.entry p) }
        ensures shows { let a = self.old.array.now in
            ShowsRunOf T.value (shape a) ((state a).values (block_at a (position_at self.old.window p)))
            self.old.window p result.now }
        ensures state { let a = self.old.array.now in
            let b = block_at a (position_at self.old.window p) in
            state (touched a b) ≡ touch (format a) (state a) b }
    {
        let (first, len) = (self.window.map(p), self.window.run_length(p));
        let array = &mut *self.array;
        let (b, place) = array.shape().place(first);
        part(array.block(b), place, len)
    }
}
