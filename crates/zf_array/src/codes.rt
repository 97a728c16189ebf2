//! The codes of an array.

ghost use Rattle.std.specs.Prelude.{◌≡◌};
ghost use Rattle.zf_array.specs.Coded.{HasEmptyLines, IsCoded};

use crate::array::Array;
use zf_base::{Backing, Lane, Reading, block_len};

/// The codes of an array that has no block in any line, as a [`Backing`] of other caches: private views of
/// the array. It borrows the array.
///
/// What is stored becomes the array's code of that block, and the array's values are those that its codes
/// mean. All else stays: sizes, bits of a block, number of lines, counts, and that no block is in any line.
///
/// ```text
/// array.flush();
/// view.set(&mut Codes::bind(&mut array), p, 7);
/// view.flush(&mut Codes::bind(&mut array));
/// ```
#[derive(Drop)]
pub struct Codes<'a, T: Lane, const D: usize> {
    array: &'a mut Array<T, D>,
    pub ghost is_coded: { IsCoded array.now },
}

impl<'a, T: Lane, const D: usize> Codes<'a, T, D> {
    /// The codes of an array that has no block in any line, as after `flush` or `discard`.
    pub fn bind(array: &'a mut Array<T, D>) -> Codes<'a, T, D>
        requires { HasEmptyLines array.old }
        ensures same_array { result.array.ghost_name ≡ array.entry.ghost_name }
        ensures array { result.array.now ≡ array.old }
    {
        array.see_coded();
        Codes { array }
    }
}

impl<'a, T: Lane, const D: usize> Reading<T> for Codes<'a, T, D> {
    ghost use Rattle.std.specs.Prelude.{List, Bool};
    ghost use Rattle.zf_array.specs.Standing as standing;
    ghost use Rattle.zf_array.specs.Coded.{Frame, frame_of};

    ghost Code = { List Bool };

    ghost Kept = { Frame };

    ghost format = { λ c. standing.format c.array.now };

    ghost codes = { λ c. (standing.state c.array.now).codes };

    ghost kept = { λ c. frame_of c.array };

    fn blocks(&self) -> u64 {
        self.array.shape().blocks()
    }

    fn block_len(&self) -> usize {
        block_len(self.array.shape().dims())
    }

    fn load(&mut self, b: u64, line: &mut [T]) {
        let array = &mut *self.array;
        array.load_code(b, line);
    }
}

impl<'a, T: Lane, const D: usize> Backing<T> for Codes<'a, T, D> {
    fn store(&mut self, b: u64, line: &[T]) {
        let array = &mut *self.array;
        array.store_code(b, line);
    }
}
