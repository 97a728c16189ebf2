//! Arrays whose values are read by touches, whether they can be written or not.

ghost use Rattle.std.specs.Prelude.{◌≡◌, ℕ, Bool, List, []};
ghost use Rattle.zf_base.specs.Formats.{Format};
ghost use Rattle.zf_base.specs.Positions.{IsPosition};
ghost use Rattle.zf_cached.specs.State.{State};
ghost use Rattle.zf_cached.specs.Touch.{touch};
ghost use Rattle.zf_view.specs.Sums.{block_of, value_in};

use zf_array::Array;
use zf_base::{Lane, Pos, Shape};
use zf_const::ConstArray;

/// An array whose values are read by touches.
pub(crate) trait Reads<T: Lane> {
    // What no touch changes.
    ghost Kept: { Type 0 };

    ghost kept: { Self → Kept };

    ghost shape: { Kept → List ℕ };

    ghost format: { Kept → Format (List Bool) };

    ghost state: { Self → State (List Bool) };

    /// The sizes.
    fn sizes(&self) -> Shape
        ensures { result ≡ shape (kept self.now) };

    /// The value at a position, by one touch.
    fn value(&mut self, p: Pos) -> T
        requires { IsPosition (shape (kept self.old)) p }
        ensures kept { kept self.new ≡ kept self.old }
        ensures state { state self.new ≡ touch (format (kept self.old)) (state self.old)
            (block_of (shape (kept self.old)) p) }
        ensures value { T.value result ≡ value_in (shape (kept self.old)) (state self.new) p };
}

impl<T: Lane, const D: usize> Reads<T> for Array<T, D> {
    ghost use Rattle.zf_header.specs.declared.header.Header.{Header};
    ghost use Rattle.zf_store.specs.Stored.{format_of};
    ghost use Rattle.zf_array.specs.Standing as standing;

    ghost Kept = { Header };

    ghost kept = { λ a. a.header };

    ghost shape = { λ h. h.shape };

    ghost format = { λ h. format_of (record { header = h; codes = [] }) };

    ghost state = { λ a. standing.state a };

    fn sizes(&self) -> Shape {
        self.shape()
    }

    #[inline]
    fn value(&mut self, p: Pos) -> T {
        self.get(p)
    }
}

impl<T: Lane, const D: usize> Reads<T> for ConstArray<T, D> {
    ghost use Rattle.zf_header.specs.declared.header.Header.{Header};
    ghost use Rattle.zf_cached.specs.Arrays.{array_format};
    ghost use Rattle.zf_const.specs.Standing as standing;

    ghost Kept = { Header × List (List Bool) };

    ghost kept = { λ a. (a.header, a.codes) };

    ghost shape = { λ k. k.0.shape };

    ghost format = { λ k. array_format (standing.coding_of k.0) k.0.shape };

    ghost state = { λ a. standing.state a };

    fn sizes(&self) -> Shape {
        self.shape()
    }

    #[inline]
    fn value(&mut self, p: Pos) -> T {
        self.get(p)
    }
}
