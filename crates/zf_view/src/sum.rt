//! Sums of the values in a window.

ghost use Rattle.std.specs.Prelude.{◌≡◌, ℕ, false};
ghost use Rattle.zf_spec.specs.Grid.{product};
ghost use Rattle.zf_cached.specs.Windows.{LiesIn};
ghost use Rattle.zf_cached.specs.Unwritten.{IsUnwritten};
ghost use Rattle.zf_array.specs.Standing.{state, format, shape};
ghost use Rattle.zf_view.specs.Keeps.{KeepsView};
ghost use Rattle.zf_view.specs.Sums.{touched_to, sum_found, sum_in};

use crate::reads::Reads;
use crate::view::View;
use zf_base::Lane;
use zf_window::{Walk, Window};

impl<'a, T: Lane, const D: usize> View<'a, T, D> {
    /// The sum of the values of the window, without wrap, by one touch of each position in raster order; each
    /// value is the one that its own touch finds. Where nothing is dirty, these are the values that the array
    /// has, and none of them changes.
    pub fn sum(&mut self) -> i128
        requires { LiesIn (shape self.old.array.now) self.old.window }
        ensures keeps { KeepsView self.old self.new }
        ensures state { let a = self.old.array.now in
            state self.new.array.now
            ≡ touched_to (format a) (shape a) (state a) self.old.window (product self.old.window.size) }
        ensures value { let a = self.old.array.now in
            result ≡ sum_found (format a) (shape a) (state a) self.old.window (product self.old.window.size) }
        ensures sum { let a = self.old.array.now in ((b : ℕ) → (state a).dirty b ≡ false)
            → result ≡ sum_in (shape a) (state a) self.old.window (product self.old.window.size) }
        ensures unwritten { let a = self.old.array.now in ((b : ℕ) → (state a).dirty b ≡ false)
            → IsUnwritten (state a).codes (state a).values (state self.new.array.now) }
    {
        let array = &mut *self.array;
        sum_of(array, self.window)
    }
}

/// The sum of the values of a window that lies in an array, by one touch of each position in raster order. At
/// most 2^27 values of 64 bits have a sum far below 2^127.
pub(crate) fn sum_of<T: Lane, A: Reads<T>>(array: &mut A, window: Window) -> i128
    requires { LiesIn (A.shape (A.kept array.old)) window }
    ensures kept { A.kept array.new ≡ A.kept array.old }
    ensures state { let k = A.kept array.old in
        A.state array.new ≡ touched_to (A.format k) (A.shape k) (A.state array.old) window
        (product window.size) }
    ensures value { let k = A.kept array.old in
        result ≡ sum_found (A.format k) (A.shape k) (A.state array.old) window (product window.size) }
{
    // a window has no more positions than its array has values, so that they can be counted
    let _values = array.sizes().values();
    let mut sum = 0;
    let mut walk = Walk::new(&window);
    for number in 0..window.count() {
        let found = array.value(walk.step());
        sum += found.to_wide();
    }
    sum
}
