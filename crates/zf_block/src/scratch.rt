//! Work room for one block.

use std::alloc::{AllocError, Global};
use std::marker::{Model, PhantomData};
use zf_base::Lane;

/// Work room for one block of up to four dimensions. Contracts see nothing of it.
#[derive(Drop)]
pub struct Scratch<T: Lane> {
    // for blocks of three dimensions; planes of one word, for those of fewer too
    pub(crate) digits: Vec<u64>,
    pub(crate) planes: Vec<u64>,
    // for blocks of four dimensions: planes of four words
    pub(crate) wide_digits: Vec<u64>,
    pub(crate) wide_planes: Vec<[u64; 4]>,
    of: PhantomData<T>,
}

impl<T: Lane> Model for Scratch<T> {
    ghost use Rattle.std.specs.Prelude.{◌≡◌};
    ghost use Rattle.std.specs.Vec.{vec_len};

    ghost Value = { Unit {0} };

    ghost view = { λ s. tt };

    ghost invariant = { λ s. (vec_len s.digits ≡ 64) × (vec_len s.planes ≡ T.WIDTH)
        × (vec_len s.wide_digits ≡ 256) × (vec_len s.wide_planes ≡ T.WIDTH) };
}

impl<T: Lane> Scratch<T> {
    /// Takes its memory.
    pub fn new(alloc: Global) -> Result<Self, AllocError> {
        let digits = vec![in alloc; 0; 64]?;
        let planes = vec![in alloc; 0; T::WIDTH as usize]?;
        let wide_digits = vec![in alloc; 0; 256]?;
        let wide_planes = vec![in alloc; [0; 4]; T::WIDTH as usize]?;
        Ok(Scratch {
            digits,
            planes,
            wide_digits,
            wide_planes,
            of: PhantomData,
        })
    }
}
