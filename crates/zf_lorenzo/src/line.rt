//! The transform of one line of four values, each way.

ghost use Rattle.zf_spec.specs.Lorenzo.{signed_choose, plain_choose};
ghost use Rattle.zf_lorenzo.specs.Lines.{line_sums};

use zf_axes::LineMap;
use zf_base::Lane;

/// Three rounds of differences: the rows (1), (-1 1), (1 -2 1) and (-1 3 -3 1).
pub(crate) struct Differences;

/// Three rounds of sums, which undo the differences: the rows (1), (1 1), (1 2 1) and (1 3 3 1).
pub(crate) struct Sums;

impl<T: Lane> LineMap<T> for Differences {
    ghost line = { λ _. line_sums T.width signed_choose };

    #[inline(always)]
    fn apply(&self, x: T, y: T, z: T, w: T) -> (T, T, T, T) {
        let w = w.sub(z);
        let z = z.sub(y);
        let y = y.sub(x);
        let w = w.sub(z);
        let z = z.sub(y);
        let w = w.sub(z);
        (x, y, z, w)
    }
}

impl<T: Lane> LineMap<T> for Sums {
    ghost line = { λ _. line_sums T.width plain_choose };

    #[inline(always)]
    fn apply(&self, x: T, y: T, z: T, w: T) -> (T, T, T, T) {
        let w = w.add(z);
        let z = z.add(y);
        let w = w.add(z);
        let y = y.add(x);
        let z = z.add(y);
        let w = w.add(z);
        (x, y, z, w)
    }
}
