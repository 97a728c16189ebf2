//! A number of dimensions.

ghost use Rattle.std.specs.Prelude.{◌≡◌};
ghost use Rattle.zf_spec.specs.Grid.{IsDimension};

/// A number of dimensions, one to four.
#[derive(Clone, Copy)]
pub struct Dims {
    pub(crate) count: u8,
    ghost range: { IsDimension count },
}

impl Dims {
    /// This number of dimensions.
    #[inline(always)]
    pub fn new(count: u8) -> Dims
        requires { IsDimension count }
        ensures { result.count ≡ count }
    {
        Dims { count }
    }
}
