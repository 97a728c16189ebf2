//! Maps of lines, and one line of a block.

ghost use Rattle.std.specs.Prelude.{◌≡◌, ◌+◌, ◌*◌, ◌<◌, ℤ, List, [], ◌∷◌, map, length};
ghost use Rattle.zf_axes.specs.Lines.{MapsLine};

use zf_base::Lane;

/// What is made of the four values of a line.
pub trait LineMap<T: Lane> {
    // The four numbers that become of four numbers.
    ghost line: { Self → ℤ → ℤ → ℤ → ℤ → List ℤ };

    /// The four values that take the place of the values of a line, in their order along the axis.
    fn apply(&self, x: T, y: T, z: T, w: T) -> (T, T, T, T)
        ensures { T.value result.0 ∷ T.value result.1 ∷ T.value result.2 ∷ T.value result.3 ∷ []
            ≡ line self.now (T.value x) (T.value y) (T.value z) (T.value w) };
}

/// Maps the line that begins at `start`, each of whose values is `step` places from the one before.
#[inline(always)]
pub(crate) fn map_line<T: Lane, M: LineMap<T>>(
    line_map: &M,
    start: usize,
    step: usize,
    block: &mut [T],
)
    requires step { 0 < step }
    requires inside { start + 3 * step < length block.old }
    ensures { MapsLine (M.line line_map.now) start step (map T.value block.old) (map T.value block.new) }
{
    let (second, third, fourth) = (start + step, start + 2 * step, start + 3 * step);
    let (x, y, z, w) = line_map.apply(block[start], block[second], block[third], block[fourth]);
    block[start] = x;
    block[second] = y;
    block[third] = z;
    block[fourth] = w;
}
