//! A line map whose order of axes can be told, on a block of two dimensions.

ghost use Rattle.std.specs.Prelude.{◌+ℤ◌, [], ◌∷◌};
ghost use Rattle.zf_spec.specs.Numbers.{half};

use zf_axes::{LineMap, pass, passes, passes_back};
use zf_base::Lane;

// The first value of a line becomes the half of its sum with the last.
struct MiddleOfEnds;

impl<T: Lane> LineMap<T> for MiddleOfEnds {
    ghost line = { λ _ x y z w. half T.width (x +ℤ w) ∷ y ∷ z ∷ w ∷ [] };

    fn apply(&self, x: T, y: T, z: T, w: T) -> (T, T, T, T) {
        (x.add(w).halve(), y, z, w)
    }
}

#[rattlefmt::skip]
static BLOCK: [i32; 16] = [
    1, 0, 0, 0,
    0, 8, 8, 0,
    0, 8, 8, 0,
    1, 0, 0, 2,
];

// The block after one axis, after both, and after both in the other order.
static ONE: [i32; 16] = [1, 0, 0, 1, 0, 8, 8, 0, 0, 8, 8, 0, 1, 0, 0, 2];

static ALL: [i32; 16] = [0, 0, 0, 1, 0, 8, 8, 0, 0, 8, 8, 0, 1, 0, 0, 2];

static BACK: [i32; 16] = [1, 0, 0, 1, 0, 8, 8, 0, 0, 8, 8, 0, 1, 0, 0, 2];

fn one_axis(mut block: [i32; 16]) -> [i32; 16] {
    pass(&MiddleOfEnds, 4, &mut block);
    block
}

fn all_axes(mut block: [i32; 16]) -> [i32; 16] {
    passes(&MiddleOfEnds, 2, &mut block);
    block
}

fn all_axes_back(mut block: [i32; 16]) -> [i32; 16] {
    passes_back(&MiddleOfEnds, 2, &mut block);
    block
}

#[test]
fn axes_are_passed_in_order(rt: HostRuntime) {
    assert!(rt; one_axis(BLOCK) == ONE && all_axes(BLOCK) == ALL && all_axes_back(BLOCK) == BACK);
}
