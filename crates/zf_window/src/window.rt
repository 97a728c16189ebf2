//! A window, and why numbers are none.

ghost use Rattle.std.specs.Prelude.{◌≡◌, ◌↔◌, ℕ, ◌+◌, ◌-◌, ◌*◌, ◌<◌, ◌≤◌, ◌^◌, true, nat_lt, List, map, length, slice_index_or, slice_set, IsTrue, IsSome, IfSome, IfOk};
ghost use Rattle.std.specs.Result.{result_err};
ghost use Rattle.std.specs.List.{AllByRecursion};
ghost use Rattle.zf_spec.specs.Grid.{is_inside, product, coordinates};
ghost use Rattle.zf_base.specs.Positions.{axes, used_axes, with_unused, IsPosition};
ghost use Rattle.zf_cached.specs.Windows.{LiesIn, stepped, whole, sliced, has_place, none_zero};
ghost use Rattle.zf_window.specs.WindowFields.{window_of, AreUnused, view_fault};
ghost use Rattle.zf_window.specs.Positions.{position_at, numbered, raster_at, following};

use std::marker::Model;
use thiserror::Error;
use zf_base::{Pos, Shape};

/// Why numbers are no window of an array.
#[derive(Clone, Copy, Debug, PartialEq, Eq, Error)]
pub enum ViewFault {
    /// A size is zero.
    #[error("a size is zero")]
    Zero,
    /// A step is zero.
    #[error("a step is zero")]
    Step,
    /// The last position of the window lies outside of the array.
    #[error("the last position lies outside of the array")]
    Outside,
}

/// A part of an array: position `p` of it is position `origin + p * step` of the array, along each axis.
///
/// It is seen as its origins, sizes and steps along the axes of the array, x first. No size and no step is
/// zero.
#[derive(Clone, Copy, Debug, PartialEq, Eq)]
pub struct Window {
    dims: u8,
    // along unused axes an origin is 0, a size is 1 and a step is 1
    origin: Pos,
    size: Pos,
    step: Pos,
}

impl Model for Window {
    ghost use Rattle.std.specs.Prelude.{length};
    ghost use Rattle.zf_base.specs.Positions.{used_axes, with_unused};
    ghost use Rattle.zf_cached.specs.Windows.{Window as Part};
    ghost use Rattle.zf_window.specs.WindowFields.{window_of, IsWindowOf};
    ghost use Rattle.zf_window.specs.Lemmas.{same_from_fields};

    ghost Value = { Part };

    ghost view = { λ w. window_of w.dims w.origin w.size w.step };

    ghost invariant = { λ w. IsWindowOf w.dims w.origin w.size w.step };

    ghost inverse = { λ w. record {
      dims = length w.size;
      origin = with_unused 0 w.origin;
      size =
          with_unused 1 w.size;
      step = with_unused 1 w.step;
    } };

    ghost inverse_ok = { λ a h. same_from_fields (λ d o s t. record
        { dims = d; origin = o; size = s; step = t }) a.dims a.origin a.size a.step h.four_at_most h.unused };
}

// The origin of an array, and steps to the next position.
const FIRST: Pos = Pos {
    x: 0,
    y: 0,
    z: 0,
    w: 0,
};

const NEXT: Pos = Pos {
    x: 1,
    y: 1,
    z: 1,
    w: 1,
};

impl Window {
    ghost use Rattle.zf_window.specs.Positions.{run_length};
    ghost use Rattle.zf_window.specs.Places.{side_count};

    /// The whole array.
    pub fn whole(shape: &Shape) -> Window
        ensures window { result ≡ whole shape.now }
        ensures inside { LiesIn shape.now result }
    {
        Window {
            dims: shape.dims(),
            origin: FIRST,
            size: sizes(shape),
            step: NEXT,
        }
    }

    /// The window of these origins, sizes and steps in an array of this shape, or why there is none. Along
    /// axes that the array does not use an origin is 0, a size is 1 and a step is 1.
    ///
    /// `Zero`: a size is 0. `Step`: a step is 0. `Outside`: the last position lies outside the array. The
    /// first that holds, in this order.
    pub fn new(shape: &Shape, origin: Pos, size: Pos, step: Pos) -> Result<Window, ViewFault>
        requires { AreUnused (length shape.now) origin size step }
        ensures window { IfOk result (λ w. w ≡ window_of (length shape.now) origin size step) }
        ensures inside { IfOk result (LiesIn shape.now) }
        ensures fault { result_err result ≡ view_fault shape.now
            (window_of (length shape.now) origin size step) }
    {
        let dims = shape.dims();
        if !has_no_zero(&size) {
            return Err(ViewFault::Zero);
        }
        if !has_no_zero(&step) {
            return Err(ViewFault::Step);
        }
        if !ends_within(&sizes(shape), &origin, &size, &step) {
            return Err(ViewFault::Outside);
        }
        Ok(Window {
            dims,
            origin,
            size,
            step,
        })
    }

    /// The number of axes.
    pub fn dims(&self) -> u8
        ensures value { result ≡ length self.now.size }
        ensures bound { result ≤ 4 }
    {
        self.dims
    }

    /// Whether a position is one of the window's: each coordinate is below its size.
    pub fn contains(&self, p: Pos) -> bool
        ensures { IsTrue result ↔ IsPosition self.now.size p }
    {
        is_inside(&self.size, &p)
    }

    /// The position of the array that a position of the window is: `origin + p * step`. `p` lies in the
    /// window.
    #[inline]
    pub fn map(&self, p: Pos) -> Pos
        requires { IsPosition self.now.size p }
        ensures value { result ≡ position_at self.now p }
        ensures inside { (ns : List ℕ) → LiesIn ns self.now → IsPosition ns result }
    {
        stepped(&self.origin, &self.step, p)
    }

    /// Position `number` of the window in raster order, x fastest, as a position of the array. `number` is
    /// below `count`.
    pub fn raster_at(&self, number: u64) -> Pos
        requires { number < product self.now.size }
        ensures { result ≡ raster_at self.now number }
    {
        self.map(coordinates(&self.size, number))
    }

    /// The first position of the window.
    #[inline]
    pub fn first(&self) -> Pos
        ensures { result ≡ numbered self.now 0 }
    {
        FIRST
    }

    /// The position of the window behind `p` in raster order, x fastest; behind the last one comes the first.
    /// `p` lies in the window.
    ///
    /// It divides nothing, so that a walk costs less than `raster_at` at each number.
    #[inline]
    pub fn after(&self, p: Pos) -> Pos
        requires { IsPosition self.now.size p }
        ensures { (k : ℕ) → p ≡ numbered self.now k → result ≡ numbered self.now (k + 1) }
    {
        following(&self.size, p)
    }

    /// How many positions there are from `p` on along x, up to the end of the block that `map(p)` lies in and
    /// of the window: 1 to 4. `p` lies in the window.
    pub fn run_length(&self, p: Pos) -> usize
        requires { IsPosition self.now.size p }
        ensures { result ≡ run_length self.now p }
    {
        let in_block = 4 - self.map(p).x % 4;
        let in_window = self.size.x - p.x;
        in_block.min(in_window) as usize
    }

    /// How many positions stand side by side in one block of the array from `p` on along x: as `run_length`
    /// where the step along x is 1, and else 1.
    pub fn beside(&self, p: Pos) -> u64
        requires { IsPosition self.now.size p }
        ensures value { result ≡ side_count self.now p }
        ensures bound { result ≤ 4 }
    {
        if self.step.x != 1 {
            return 1;
        }
        self.run_length(p) as u64
    }

    /// The number of positions.
    pub fn count(&self) -> u64
        requires { product self.now.size < 2 ^ 64 }
        ensures value { result ≡ product self.now.size }
        ensures axes { length self.now.size ≤ 4 }
    {
        product(&self.size)
    }

    /// The window with one place of an axis alone, counted from 0 for x; `None` where there is no such axis
    /// or place.
    pub fn slice(&self, axis: u64, at: u64) -> Option<Window>
        ensures some { IfSome result (λ w. w ≡ sliced self.now axis at) }
        ensures found { IsSome result ↔ (has_place self.now axis at ≡ true) }
    {
        if axis >= u64::from(self.dims) || at >= along(&self.size, axis) {
            return None;
        }
        let first = along(&self.origin, axis) + at * along(&self.step, axis);
        Some(Window {
            dims: self.dims,
            origin: with_along(&self.origin, axis, first),
            size: with_along(&self.size, axis, 1),
            step: self.step,
        })
    }
}

// The numbers `step` apart from `origin` on that stand at place `p`: `origin + p * step`. All are small.
#[inline]
fn stepped(origin: &Pos, step: &Pos, p: Pos) -> Pos
    requires { AllByRecursion (λ n. n < 2 ^ 48) (stepped (axes origin.now) (axes step.now) (axes p)) }
    ensures { axes result ≡ stepped (axes origin.now) (axes step.now) (axes p) }
{
    Pos {
        x: origin.x + p.x * step.x,
        y: origin.y + p.y * step.y,
        z: origin.z + p.z * step.z,
        w: origin.w + p.w * step.w,
    }
}

// Whether a position lies in a box of these sizes.
fn is_inside(size: &Pos, at: &Pos) -> bool
    ensures { result ≡ is_inside (axes size.now) (axes at.now) }
{
    at.x < size.x && at.y < size.y && at.z < size.z && at.w < size.w
}

// The position behind another of a box of these sizes, x fastest; behind the last one comes the first.
#[inline]
fn following(size: &Pos, at: Pos) -> Pos
    requires { is_inside (axes size.now) (axes at) ≡ true }
    ensures { axes result ≡ following (axes size.now) (axes at) }
{
    if at.x + 1 < size.x {
        return Pos { x: at.x + 1, ..at };
    }
    if at.y + 1 < size.y {
        return Pos {
            x: 0,
            y: at.y + 1,
            ..at
        };
    }
    if at.z + 1 < size.z {
        return Pos {
            x: 0,
            y: 0,
            z: at.z + 1,
            w: at.w,
        };
    }
    if at.w + 1 < size.w {
        return Pos {
            w: at.w + 1,
            ..FIRST
        };
    }
    FIRST
}

// The position with this number of a box of these sizes, x fastest.
fn coordinates(size: &Pos, number: u64) -> Pos
    requires { AllByRecursion (λ n. 1 ≤ n) (axes size.now) }
    ensures { axes result ≡ coordinates (axes size.now) number }
{
    let rows = number / size.x;
    let slices = rows / size.y;
    let volumes = slices / size.z;
    Pos {
        x: number % size.x,
        y: rows % size.y,
        z: slices % size.z,
        w: volumes % size.w,
    }
}

// The number of positions of a box of these sizes.
fn product(size: &Pos) -> u64
    requires not_zero { AllByRecursion (λ n. 1 ≤ n) (axes size.now) }
    requires fits { product (axes size.now) < 2 ^ 64 }
    ensures { result ≡ product (axes size.now) }
{
    size.x * size.y * size.z * size.w
}

// The number along an axis.
fn along(p: &Pos, axis: u64) -> u64
    requires { axis < 4 }
    ensures { result ≡ slice_index_or (axes p.now) axis 0 }
{
    match axis {
        0 => p.x,
        1 => p.y,
        2 => p.z,
        _ => p.w,
    }
}

// The same numbers, but for another along an axis.
fn with_along(p: &Pos, axis: u64, n: u64) -> Pos
    requires { axis < 4 }
    ensures { axes result ≡ slice_set (axes p.now) axis n }
{
    match axis {
        0 => Pos { x: n, ..*p },
        1 => Pos { y: n, ..*p },
        2 => Pos { z: n, ..*p },
        _ => Pos { w: n, ..*p },
    }
}

// The sizes of a shape along four axes.
fn sizes(shape: &Shape) -> Pos
    ensures { result ≡ with_unused 1 shape.now }
{
    Pos {
        x: shape.size(0),
        y: shape.size(1),
        z: shape.size(2),
        w: shape.size(3),
    }
}

// Whether no number is zero.
fn has_no_zero(p: &Pos) -> bool
    ensures { result ≡ none_zero (axes p.now) }
{
    p.x != 0 && p.y != 0 && p.z != 0 && p.w != 0
}

// Whether the last position of a window lies in a box of these sizes, along four axes.
fn ends_within(shape: &Pos, origin: &Pos, size: &Pos, step: &Pos) -> bool
    requires { none_zero (axes size.now) ≡ true }
    ensures { result ≡ is_inside (axes shape.now) (stepped (axes origin.now) (axes step.now)
        (map (λ n. n - 1) (axes size.now))) }
{
    is_last_below(shape.x, origin.x, size.x, step.x)
        && is_last_below(shape.y, origin.y, size.y, step.y)
        && is_last_below(shape.z, origin.z, size.z, step.z)
        && is_last_below(shape.w, origin.w, size.w, step.w)
}

// Whether the last of `size` places, `step` apart from `origin` on, is below `n`. The sum does not wrap.
fn is_last_below(n: u64, origin: u64, size: u64, step: u64) -> bool
    requires { 1 ≤ size }
    ensures { result ≡ nat_lt (origin + (size - 1) * step) n }
{
    u128::from(origin) + u128::from(size - 1) * u128::from(step) < u128::from(n)
}
