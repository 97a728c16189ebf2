//! What a caller knows of an array after views of it, after elements one after the other, and after a loop.

ghost use Rattle.std.specs.Prelude.{◌≡◌, ◌≤◌};
ghost use Rattle.zf_spec.specs.Grid.{product};
ghost use Rattle.zf_base.specs.Positions.{IsPosition};
ghost use Rattle.zf_cached.specs.Windows.{LiesIn};
ghost use Rattle.zf_array.specs.Standing.{state, format, shape};
ghost use Rattle.zf_window.specs.Positions.{position_at};
ghost use Rattle.zf_view.specs.Sums.{value_in};
ghost use Rattle.zfpi_uses.specs.Changed.{set_in};

use zf_array::Array;
use zf_base::Pos;
use zf_view::{ElemIter, ElemMut, View, Window};

/// Makes the values at position `p` of one window and at `q` of another be `v`, by a view each.
pub fn set_in_windows(
    array: &mut Array<i32, 2>,
    first: Window,
    p: Pos,
    second: Window,
    q: Pos,
    v: i32,
)
    requires first { LiesIn (shape array.old) first × IsPosition first.size p }
    requires second { LiesIn (shape array.old) second × IsPosition second.size q }
    ensures state { let a = array.old in
        state array.new ≡ set_in (format a) (shape a) (set_in (format a) (shape a) (state a) (position_at first p) v) (position_at second q) v }
    ensures header { array.new.header ≡ array.old.header }
{
    View::bind(array, first).set(p, v);
    View::bind(array, second).set(q, v);
}

/// Makes the values at two positions be `v`, by an element each.
pub fn set_both(array: &mut Array<i32, 2>, p: Pos, q: Pos, v: i32)
    requires first { IsPosition (shape array.old) p }
    requires second { IsPosition (shape array.old) q }
    ensures state { let a = array.old in
        state array.new ≡ set_in (format a) (shape a) (set_in (format a) (shape a) (state a) p v) q v }
    ensures header { array.new.header ≡ array.old.header }
{
    ElemMut::bind(array, p).set(v);
    ElemMut::bind(array, q).set(v);
}

/// How many values of a window are zero, and then the value at position `p`: the one that the array has
/// behind the loop.
pub fn zeros_and_value(array: &mut Array<i32, 2>, window: Window, p: Pos) -> (u64, i32)
    requires lies { LiesIn (shape array.old) window }
    requires position { IsPosition (shape array.old) p }
    ensures few { result.0 ≤ product window.size }
    ensures value { result.1 ≡ value_in (shape array.old) (state array.new) p }
    ensures header { array.new.header ≡ array.old.header }
{
    let mut zeros = 0u64;
    for value in ElemIter::bind(array, window) {
        if value == 0 {
            zeros = zeros.saturating_add(1);
        }
    }
    let value = array.get(p);
    (zeros, value)
}
