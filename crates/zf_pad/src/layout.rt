//! Layouts: where the values at the positions of an array stand in a list.

ghost use Rattle.std.specs.Prelude.{◌≡◌, ◌<◌, ◌^◌, ℕ};
ghost use Rattle.zf_base.specs.declared.position.Pos.{Pos};
ghost use Rattle.zf_pad.specs.Layouts.{index_of, moved};
ghost use Rattle.zf_pad.specs.Rasters.{IsRaster};

use zf_base::{Pos, Shape};

/// Puts the value at position `p` at `start + p.x * step.x + p.y * step.y + p.z * step.z + p.w * step.w`.
#[derive(Clone, Copy, Debug, PartialEq, Eq)]
pub struct Layout {
    pub start: u64,
    pub step: Pos,
}

impl Layout {
    /// The layout of raw values: x fastest, then y, z and w.
    #[tactic(auto, using(crate::proofs::Rasters::steps_fit, crate::proofs::Rasters::raster_layout))]
    pub fn raster(shape: &Shape) -> Layout
        ensures { IsRaster shape.now result }
    {
        // tells that the sizes are a shape's, so their products fit
        let _dims = shape.dims();
        let row = shape.size(0);
        let slice = row * shape.size(1);
        let volume = slice * shape.size(2);
        let step = Pos {
            x: 1,
            y: row,
            z: slice,
            w: volume,
        };
        Layout { start: 0, step }
    }

    /// The index of a position.
    #[tactic(auto, unfolding(crate::specs::Layouts::index_of))]
    pub(crate) fn index(&self, p: &Pos) -> u64
        requires { index_of self.now p.now < 2 ^ 64 }
        ensures { result ≡ index_of self.now p.now }
    {
        let Pos { x, y, z, w } = self.step;
        self.start + p.x * x + p.y * y + p.z * z + p.w * w
    }

    /// The same layout of positions that are counted from `origin`.
    #[tactic(auto, unfolding(crate::specs::Layouts::index_of, crate::specs::Layouts::moved))]
    pub(crate) fn counted_from(&self, origin: &Pos) -> Layout
        requires { index_of self.now origin.now < 2 ^ 64 }
        ensures counted { (p : Pos) → index_of result p ≡ index_of self.now (moved origin.now p) }
        ensures step { result.step ≡ self.now.step }
    {
        Layout {
            start: self.index(origin),
            step: self.step,
        }
    }
}
