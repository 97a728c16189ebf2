//! The positions of a window, one after the other, by the blocks and places of its array.

ghost use Rattle.std.specs.Prelude.{◌≡◌, ◌+◌, ◌<◌, ◌≤◌};
ghost use Rattle.zf_spec.specs.Grid.{product};
ghost use Rattle.zf_cached.specs.Windows.{LiesIn};
ghost use Rattle.zf_window.specs.Places.{IsThere, IsRun, IsWalkIn, next_of};

use crate::walk::{Run, Walk};
use crate::window::Window;
use std::marker::Model;
use zf_base::Shape;

/// A walk over the positions of a window in raster order, x fastest, that tells in which block of the array
/// each is, and at which place: the sizes of the array, the window, and the number of the next position.
///
/// Of positions that stand side by side in a block, only the first is looked for.
///
/// ```text
/// let mut walk = PlaceWalk::new(&array.shape(), &window);
/// for _ in 0..window.count() {
///     let (block, place) = walk.step();
///     sum += i64::from(array.value_at(block, place));
/// }
/// ```
#[derive(Debug, Drop)]
pub struct PlaceWalk {
    shape: Shape,
    // behind what is left of the run
    walk: Walk,
    rest: Run,
}

impl Model for PlaceWalk {
    ghost use Rattle.zf_window.specs.Places.{WalkingIn, IsWalkIn, next_of};

    ghost Value = { WalkingIn };

    ghost view = { λ w. record { shape = w.shape; window = w.walk.window; next = next_of w.walk w.rest } };

    ghost invariant = { λ w. IsWalkIn w.shape w.walk w.rest };
}

impl PlaceWalk {
    /// A walk over a window of an array of this shape, that begins at the first position.
    #[inline]
    pub fn new(shape: &Shape, window: &Window) -> PlaceWalk
        requires { LiesIn shape.now window.now }
        ensures { result ≡ record { shape = shape.now; window = window.now; next = 0 } }
    {
        // Known by this call: the sizes are those of a shape.
        let _dims = shape.dims();
        let rest = Run {
            block: 0,
            place: 0,
            count: 0,
        };
        PlaceWalk {
            shape: *shape,
            walk: Walk::new(window),
            rest,
        }
    }

    /// The block of the next position, and its place there; and a step to the position behind it.
    #[inline]
    pub fn step(&mut self) -> (u64, usize)
        requires { self.old.next < product self.old.window.size }
        ensures at { IsThere self.old.shape self.old.window self.old.next result.0 result.1 }
        ensures next { self.new ≡ record self.old { next = self.old.next + 1 } }
    {
        let run = rest_or_next(self.rest, &mut self.walk, &self.shape);
        self.rest = Run {
            block: run.block,
            place: run.place + 1,
            count: run.count - 1,
        };
        (run.block, run.place)
    }
}

// What is left of a run, or the next one where nothing is.
#[inline]
fn rest_or_next(rest: Run, walk: &mut Walk, shape: &Shape) -> Run
    requires keeps { IsWalkIn shape.now walk.old rest }
    requires inside { next_of walk.old rest < product walk.old.window.size }
    ensures run { IsRun shape.now walk.old.window (next_of walk.old rest) result }
    ensures window { walk.new.window ≡ walk.old.window }
    ensures behind { result.count ≤ walk.new.next }
    ensures next { next_of walk.new result ≡ next_of walk.old rest }
{
    if rest.count > 0 {
        return rest;
    }
    walk.run(shape)
}
