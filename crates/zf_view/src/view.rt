//! Views: an array seen through a window.

ghost use Rattle.std.specs.Prelude.{◌≡◌, ℤ, List, length, ◌+ℤ◌};
ghost use Rattle.std.specs.Borrow.{sem};
ghost use Rattle.zf_spec.specs.Numbers.{wrap};
ghost use Rattle.zf_base.specs.Positions.{IsPosition};
ghost use Rattle.zf_cached.specs.Windows.{LiesIn};
ghost use Rattle.zf_array.specs.Standing.{state, shape};
ghost use Rattle.zf_window.specs.Positions.{position_at, x_step, run_length};
ghost use Rattle.zf_view.specs.Touches.{touched_at, found_at, changed_at};
ghost use Rattle.zf_view.specs.Keeps.{LiesAt, SameArray, KeepsView, KeepsElem};
ghost use Rattle.zf_view.specs.Runs.{ShowsRun, run_changed, with_run};

use crate::elems::ElemIter;
use zf_array::Array;
use zf_base::{Lane, Pos};
use zf_window::{Walk, Window};

/// An array of `D` dimensions seen through a window. It borrows the array, and each of its calls is the
/// array's call at the position that the window maps to; so windows that overlap, and calls on the array
/// itself, see one state.
///
/// ```text
/// let mut view = View::bind(&mut array, window);
/// view.set(p, 7);
/// let sum = view.get(p).add(view.get(q));
/// ```
#[derive(Drop)]
pub struct View<'a, T: Lane, const D: usize> {
    pub(crate) array: &'a mut Array<T, D>,
    pub(crate) window: Window,
}

impl<'a, T: Lane, const D: usize> View<'a, T, D> {
    ghost use Rattle.zf_view.specs.Elems.{IsAtElem};
    ghost use Rattle.zf_view.specs.ViewLoans.{EndsWithArray, EndsWithRun};

    /// The array seen through a window that lies in it.
    pub fn bind(array: &'a mut Array<T, D>, window: Window) -> View<'a, T, D>
        requires { LiesIn (shape array.old) window }
        ensures array { SameArray array.entry result.array }
        ensures window { result.window ≡ window }
    {
        View { array, window }
    }

    /// The value at position `p` of the window, by one touch. `p` lies in the window.
    pub fn get(&mut self, p: Pos) -> T
        requires at { LiesAt (shape self.old.array.now) self.old.window p }
        ensures keeps { KeepsView self.old self.new }
        ensures state { state self.new.array.now
            ≡ touched_at self.old.array.now (position_at self.old.window p) }
        ensures value { T.value result ≡ found_at self.old.array.now (position_at self.old.window p) }
    {
        let array = &mut *self.array;
        array.get(self.window.map(p))
    }

    /// Makes the value at position `p` of the window be `v`, by one touch for writing. `p` lies in the
    /// window.
    pub fn set(&mut self, p: Pos, v: T)
        requires at { LiesAt (shape self.old.array.now) self.old.window p }
        ensures keeps { KeepsView self.old self.new }
        ensures state { state self.new.array.now
            ≡ changed_at self.old.array.now (position_at self.old.window p) (λ old. T.value v) }
    {
        let array = &mut *self.array;
        array.set(self.window.map(p), v);
    }

    /// The values at position `p` of the window and at those that follow along x, as far as they lie in one
    /// block of the array and in the window: 1 to 4 of them, side by side. One touch for writing; what is
    /// written to them is the array's values there. `p` lies in the window, whose step along x is 1.
    ///
    /// ```text
    /// for value in view.run_mut(p) {
    ///     *value = 7;
    /// }
    /// ```
    pub fn run_mut(&mut self, p: Pos) -> &mut [T]
        requires at { LiesAt (shape self.old.array.now) self.old.window p }
        requires step { x_step self.old.window ≡ 1 }
        ensures* writes_back { sem 𝓛 (EndsWithRun T.row D.row
            (record { width = T.width; WIDTH = T.WIDTH; TY = T.TY; value = T.value; in_range = T.in_range })
            (record { eq = T.eq }) self.entry p result) }
        ensures shows { ShowsRun T.value self.old.array.now self.old.window p result.now }
        ensures state { (vs : List ℤ) → length vs ≡ run_length self.old.window p
            → state (with_run self.old.array.now (position_at self.old.window p) vs)
            ≡ run_changed self.old.array.now (position_at self.old.window p) vs }
        ensures header { (vs : List ℤ)
            → (with_run self.old.array.now (position_at self.old.window p) vs).header
            ≡ self.old.array.now.header }
    {
        let (first, len) = (self.window.map(p), self.window.run_length(p));
        let array = &mut *self.array;
        let (b, place) = array.shape().place_in::<D>(first);
        array.touch_mut(b);
        array.part_mut(b, place, len)
    }

    /// The values at the positions of the window in raster order, x fastest; each item is one touch, and the
    /// value that this touch finds.
    pub fn elems(&mut self) -> ElemIter<'_, T, D>
        requires { LiesIn (shape self.old.array.now) self.old.window }
        ensures* writes_back { sem 𝓛 (EndsWithArray T.row D.row
            (record { width = T.width; WIDTH = T.WIDTH; TY = T.TY; value = T.value; in_range = T.in_range })
            (record { eq = T.eq }) self.entry result.array) }
        ensures array { result.array.now ≡ self.old.array.now }
        ensures walk { result.walk ≡ record { window = self.old.window; next = 0 } }
        ensures can_next { IsAtElem result }
    {
        // a window has no more positions than its array has values, so that they can be counted
        let _values = self.array.shape().values();
        let (walk, left) = (Walk::new(&self.window), self.window.count());
        ElemIter {
            array: &mut *self.array,
            walk,
            left,
        }
    }

    /// The value at position `p` of the window, to be read and written. No touch is made yet. `p` lies in the
    /// window.
    pub fn elem(&mut self, p: Pos) -> ElemMut<'_, T, D>
        requires at { LiesAt (shape self.old.array.now) self.old.window p }
        ensures* writes_back { sem 𝓛 (EndsWithArray T.row D.row
            (record { width = T.width; WIDTH = T.WIDTH; TY = T.TY; value = T.value; in_range = T.in_range })
            (record { eq = T.eq }) self.entry result.array) }
        ensures array { result.array.now ≡ self.old.array.now }
        ensures position { result.position ≡ position_at self.old.window p }
        ensures inside { IsPosition (shape result.array.now) result.position }
    {
        let position = self.window.map(p);
        ElemMut {
            array: &mut *self.array,
            position,
        }
    }
}

/// One value of an array, which it borrows. Each call is one touch.
#[derive(Drop)]
pub struct ElemMut<'a, T: Lane, const D: usize> {
    array: &'a mut Array<T, D>,
    position: Pos,
}

impl<'a, T: Lane, const D: usize> ElemMut<'a, T, D> {
    ghost use Rattle.zf_array.specs.Loans.{with_value};
    ghost use Rattle.zf_view.specs.ViewLoans.{EndsWithValue};

    /// The value of an array at position `p`, which lies in it, as `View::elem` gives it. No touch is made
    /// yet.
    ///
    /// ```text
    /// ElemMut::bind(&mut array, p).add(7);
    /// ElemMut::bind(&mut array, q).add(7);
    /// ```
    pub fn bind(array: &'a mut Array<T, D>, p: Pos) -> ElemMut<'a, T, D>
        requires { IsPosition (shape array.old) p }
        ensures array { SameArray array.entry result.array }
        ensures position { result.position ≡ p }
    {
        ElemMut { array, position: p }
    }

    /// The value, by one touch.
    pub fn get(&mut self) -> T
        requires { IsPosition (shape self.old.array.now) self.old.position }
        ensures keeps { KeepsElem self.old self.new }
        ensures state { state self.new.array.now ≡ touched_at self.old.array.now self.old.position }
        ensures value { T.value result ≡ found_at self.old.array.now self.old.position }
    {
        let array = &mut *self.array;
        array.get(self.position)
    }

    /// Makes the value be `v`, by one touch for writing.
    pub fn set(&mut self, v: T)
        requires { IsPosition (shape self.old.array.now) self.old.position }
        ensures keeps { KeepsElem self.old self.new }
        ensures state { state self.new.array.now
            ≡ changed_at self.old.array.now self.old.position (λ old. T.value v) }
    {
        let array = &mut *self.array;
        array.set(self.position, v);
    }

    /// The value, to be read and written, by one touch for writing. What is written to it is the array's
    /// value there.
    pub fn value_mut(&mut self) -> &mut T
        requires { IsPosition (shape self.old.array.now) self.old.position }
        ensures* writes_back { sem 𝓛 (EndsWithValue T.row D.row
            (record { width = T.width; WIDTH = T.WIDTH; TY = T.TY; value = T.value; in_range = T.in_range })
            (record { eq = T.eq }) self.entry result) }
        ensures value { T.value result.now ≡ found_at self.old.array.now self.old.position }
        ensures state { (v : ℤ) → state (with_value self.old.array.now self.old.position v)
            ≡ changed_at self.old.array.now self.old.position (λ old. v) }
        ensures header { (v : ℤ) → (with_value self.old.array.now self.old.position v).header
            ≡ self.old.array.now.header }
    {
        let position = self.position;
        let array = &mut *self.array;
        array.value_mut(position)
    }

    /// Adds `v` to the value, by one touch for writing. The sum wraps.
    pub fn add(&mut self, v: T)
        requires { IsPosition (shape self.old.array.now) self.old.position }
        ensures keeps { KeepsElem self.old self.new }
        ensures state { state self.new.array.now
            ≡ changed_at self.old.array.now self.old.position (λ old. wrap T.width (old +ℤ T.value v)) }
    {
        let array = &mut *self.array;
        array.add(self.position, v);
    }
}
