//! The read-only array of a file, or all that can be wrong with the file.

ghost use Rattle.std.specs.Prelude.{◌≡◌, ◌<◌, ◌≤◌, ◌^◌, IfOk, IfErr};
ghost use Rattle.zf_parse.specs.Parsing.{header_of};
ghost use Rattle.zf_index.specs.Opening.{AnyMode, IsUnopened};
ghost use Rattle.zf_const.specs.Standing.{state, open_stream};
ghost use Rattle.zf_const.specs.Files.{IsOpened};

use crate::array::ConstArray;
use std::alloc::Global;
use zf_base::Lane;
use zf_index::{OpenFault, header_of_stream};

impl<T: Lane, const D: usize> ConstArray<T, D> {
    /// The array of a file of values of `T` in `D` dimensions, in any mode. `lines` is 1 to 65536, raised to
    /// a power of two. On a fault the file is dropped.
    ///
    /// `Header`: it has no header that is read. `Ty`, `Dims`: it has another type, or another number of
    /// dimensions. `Codes`: its codes or its fill are not those of a stream, or there was no memory. The
    /// first that holds, in this order; `Mode` never comes.
    pub fn open(alloc: Global, file: Vec<u8>, lines: u32) -> Result<ConstArray<T, D>, OpenFault>
        requires { (0 < lines) × (lines ≤ 2 ^ 16) }
        ensures opened { IfOk result (IsOpened file.items (header_of file.items)) }
        ensures state { IfOk result (λ a. state a ≡ open_stream a.header a.codes lines) }
        ensures fault { IfErr result (IsUnopened AnyMode T.TY D file.items) }
    {
        let header = header_of_stream::<T>(&file, D)?;
        let array = ConstArray::from_file(alloc, &header, file, lines)?;
        Ok(array)
    }
}
