//! The array of a file, or all that can be wrong with the file.

ghost use Rattle.std.specs.Prelude.{◌≡◌, ℕ, false, ◌<◌, ◌≤◌, ◌^◌, IfOk, IfErr};
ghost use Rattle.zf_header.specs.HeaderBits.{IsRate, block_bits};
ghost use Rattle.zf_parse.specs.Parsing.{header_of};
ghost use Rattle.zf_cached.specs.Arrays.{open_array};
ghost use Rattle.zf_index.specs.Opening.{IsUnopened};
ghost use Rattle.zf_store.specs.Files.{IsOpened};
ghost use Rattle.zf_array.specs.Standing.{stored, state, shape};

use crate::array::Array;
use std::alloc::Global;
use zf_base::Lane;
use zf_index::{OpenFault, header_of_array};

impl<T: Lane, const D: usize> Array<T, D> {
    /// The array of a file of values of `T` in `D` dimensions at a rate. `lines` is 1 to 65536, raised to a
    /// power of two. The file becomes the buffer for saving; on a fault it is dropped.
    ///
    /// `Header`: it has no header that is read. `Ty`, `Dims`, `Mode`: it has another type, another number of
    /// dimensions, or no fixed rate. `Codes`: its codes or its fill are not those of a file, or there was no
    /// memory. The first that holds, in this order.
    pub fn open(alloc: Global, file: Vec<u8>, lines: u32) -> Result<Array<T, D>, OpenFault>
        requires { (0 < lines) × (lines ≤ 2 ^ 16) }
        ensures stored { IfOk result (λ a. IsOpened file.items (header_of file.items) (stored a)) }
        ensures state { IfOk result (λ a. state a ≡ open_array T.width (block_bits a.header.mode) (shape a)
            a.codes lines) }
        ensures clean { IfOk result (λ a. (b : ℕ) → (state a).dirty b ≡ false) }
        ensures fault { IfErr result (IsUnopened IsRate T.TY D file.items) }
    {
        let header = header_of_array::<T>(&file, D)?;
        let array = Array::from_file(alloc, &header, file, lines)?;
        Ok(array)
    }
}
