//! The array that is measured.

use std::marker::Model;
use zf_array::Array;
use zf_base::Lane;

/// An array of 1024 x 1024 values.
#[derive(Drop)]
pub(crate) struct Bench<T: Lane> {
    pub(crate) values: Array<T, 2>,
}

impl<T: Lane> Model for Bench<T> {
    ghost use Rattle.std.specs.Prelude.{◌≡◌};
    ghost use Rattle.zf_array.specs.Standing.{Held, shape};
    ghost use Rattle.zfpi_bench.specs.Square.{square};

    ghost Value = { Held };

    ghost view = { λ b. b.values };

    ghost invariant = { λ b. shape b.values ≡ square };
}
