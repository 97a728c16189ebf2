//! What is done at a position.

ghost use Rattle.zf_base.specs.Positions.{IsPosition};
ghost use Rattle.zfpi_bench.specs.Square.{square};

use crate::bench::Bench;
use zf_base::{Lane, Pos};

/// One call on the array.
pub(crate) trait Call<T: Lane> {
    /// The call at position `p`, and what becomes of the number that all calls give.
    fn call(bench: &mut Bench<T>, p: Pos, number: T) -> T
        requires { IsPosition square p };
}

/// The value is added to the number.
pub(crate) struct Get;

impl<T: Lane> Call<T> for Get {
    #[inline]
    fn call(bench: &mut Bench<T>, p: Pos, number: T) -> T {
        number.add(bench.values.get(p))
    }
}

/// The value becomes the number.
pub(crate) struct Set;

impl<T: Lane> Call<T> for Set {
    #[inline]
    fn call(bench: &mut Bench<T>, p: Pos, number: T) -> T {
        bench.values.set(p, number);
        number
    }
}

/// The number is added to the value.
pub(crate) struct Add;

impl<T: Lane> Call<T> for Add {
    #[inline]
    fn call(bench: &mut Bench<T>, p: Pos, number: T) -> T {
        bench.values.add(p, number);
        number
    }
}
