//! The positions of a window, one after the other.

ghost use Rattle.std.specs.Prelude.{◌≡◌, ℕ, ◌+◌, ◌<◌, ◌^◌, List};
ghost use Rattle.zf_spec.specs.Grid.{product};
ghost use Rattle.zf_base.specs.Positions.{IsPosition};
ghost use Rattle.zf_cached.specs.Windows.{LiesIn};
ghost use Rattle.zf_window.specs.Positions.{raster_at};
ghost use Rattle.zf_window.specs.Places.{IsRun};

use crate::window::Window;
use std::marker::Model;
use zf_base::{Pos, Shape};

/// Positions of a window that stand side by side in one block: the block, the place of the first of them, and
/// how many they are.
#[derive(Clone, Copy, Debug, PartialEq, Eq)]
pub struct Run {
    pub block: u64,
    pub place: usize,
    pub count: u64,
}

/// A walk over the positions of a window in raster order, x fastest: the window, and the number of the next
/// position.
///
/// A step divides nothing, so that a walk costs less than `raster_at` of each number.
///
/// ```text
/// let mut walk = Walk::new(&window);
/// for _ in 0..window.count() {
///     sum += i64::from(array.get(walk.step()));
/// }
/// ```
#[derive(Debug, Drop)]
pub struct Walk {
    window: Window,
    here: Pos,
    next: u64,
}

impl Model for Walk {
    ghost use Rattle.zf_window.specs.Positions.{Walking, IsWalk};

    ghost Value = { Walking };

    ghost view = { λ w. record { window = w.window; next = w.next } };

    ghost invariant = { λ w. IsWalk w.window w.here w.next };
}

impl Walk {
    /// A walk that begins at the first position.
    #[inline]
    pub fn new(window: &Window) -> Walk
        ensures { result ≡ record { window = window.now; next = 0 } }
    {
        let _axes = window.dims();
        Walk {
            window: *window,
            here: window.first(),
            next: 0,
        }
    }

    /// The next position, as one of the array, and a step to the one behind it. It is one of the window's.
    #[inline]
    pub fn step(&mut self) -> Pos
        requires inside { self.old.next < product self.old.window.size }
        requires few { product self.old.window.size < 2 ^ 64 }
        ensures position { result ≡ raster_at self.old.window self.old.next }
        ensures inside { (ns : List ℕ) → LiesIn ns self.old.window → IsPosition ns result }
        ensures next { self.new ≡ record self.old { next = self.old.next + 1 } }
    {
        let position = self.window.map(self.here);
        self.here = self.window.after(self.here);
        self.next += 1;
        position
    }

    /// The next position and those that follow along x, as far as they stand side by side in one block of an
    /// array of this shape, and a step behind them.
    pub fn run(&mut self, shape: &Shape) -> Run
        requires lies { LiesIn shape.now self.old.window }
        requires inside { self.old.next < product self.old.window.size }
        ensures run { IsRun shape.now self.old.window self.old.next result }
        ensures next { self.new ≡ record self.old { next = self.old.next + result.count } }
    {
        // Known by this call: the sizes are those of a shape.
        let _dims = shape.dims();
        let count = self.window.beside(self.here);
        let (block, place) = shape.place(self.window.map(self.here));
        let last = Pos {
            x: self.here.x + (count - 1),
            ..self.here
        };
        self.here = self.window.after(last);
        self.next += count;
        Run {
            block,
            place,
            count,
        }
    }
}
