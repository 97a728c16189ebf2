//! The values of a window in raster order.

ghost use Rattle.std.specs.Prelude.{◌≡◌, Some, IfSome};
ghost use Rattle.std.specs.Iterator.{UpTo};
ghost use Rattle.std.specs.Iterator.SizeHint.{IsWithinCount};
ghost use Rattle.zf_cached.specs.Windows.{LiesIn};
ghost use Rattle.zf_array.specs.Standing.{shape};
ghost use Rattle.zf_view.specs.Keeps.{SameArray};

use std::iter::FusedIterator;
use zf_array::Array;
use zf_base::Lane;
use zf_window::{Walk, Window};

/// The values of a view in raster order, x fastest: each position of the window once, by one touch an item.
/// Each value is the one that its own touch finds.
#[derive(Drop)]
pub struct ElemIter<'a, T: Lane, const D: usize> {
    pub(crate) array: &'a mut Array<T, D>,
    pub(crate) walk: Walk,
    // how many positions are left
    pub(crate) left: u64,
}

impl<'a, T: Lane, const D: usize> ElemIter<'a, T, D> {
    ghost use Rattle.zf_view.specs.Elems.{IsAtElem};

    /// The values of an array in a window that lies in it, as `View::elems` gives them.
    ///
    /// ```text
    /// for value in ElemIter::bind(&mut array, window) {
    ///     sum += i64::from(value);
    /// }
    /// ```
    pub fn bind(array: &'a mut Array<T, D>, window: Window) -> ElemIter<'a, T, D>
        requires { LiesIn (shape array.old) window }
        ensures array { SameArray array.entry result.array }
        ensures walk { result.walk ≡ record { window = window; next = 0 } }
        ensures can_next { IsAtElem result }
    {
        // a window has no more positions than its array has values, so that they can be counted
        let _values = array.shape().values();
        ElemIter {
            array,
            walk: Walk::new(&window),
            left: window.count(),
        }
    }
}

impl<'a, T: Lane, const D: usize> Iterator for ElemIter<'a, T, D> {
    ghost use Rattle.zf_view.specs.Elems.{IsAtElem, GivesElems, elems_left};

    type Item = T;

    ghost can_next = { IsAtElem };

    ghost next_gives = { GivesElems T.value };

    ghost remaining = { elems_left };

    #[inline]
    fn next(&mut self) -> Option<T> {
        if self.left == 0 {
            return None;
        }
        self.left -= 1;
        let position = self.walk.step();
        let array = &mut *self.array;
        Some(array.get(position))
    }

    fn size_hint(&self) -> (usize, Option<usize>)
        ensures lower { IsWithinCount result.0 (elems_left self.now) }
        ensures upper { IfSome result.1 (UpTo (elems_left self.now)) }
        ensures exact { (result.0 ≡ self.now.left) × (result.1 ≡ Some result.0) }
    {
        let left = self.len();
        (left, Some(left))
    }
}

impl<'a, T: Lane, const D: usize> ExactSizeIterator for ElemIter<'a, T, D> {
    fn len(&self) -> usize {
        self.left as usize
    }
}

impl<'a, T: Lane, const D: usize> FusedIterator for ElemIter<'a, T, D> {}
