//! The header of a file that is opened as an array.

ghost use Rattle.std.specs.Prelude.{IfOk, IfErr};
ghost use Rattle.zf_header.specs.HeaderBits.{IsRate};
ghost use Rattle.zf_index.specs.Opening.{AnyMode, IsOpenable, LacksHeader};

use crate::fault::OpenFault;
use zf_base::Lane;
use zf_header::{Header, Mode};

/// The header of a file of values of `T` in `dims` dimensions, in any mode; or what it has in its place, the
/// first of `Header`, `Ty` and `Dims` that holds.
pub fn header_of_stream<T: Lane>(file: &[u8], dims: usize) -> Result<Header, OpenFault>
    ensures ok { IfOk result (IsOpenable AnyMode T.TY dims file.now) }
    ensures fault { IfErr result (LacksHeader AnyMode T.TY dims file.now) }
{
    let (header, _) = zf_header::read(file)?;
    if header.ty != T::TY {
        return Err(OpenFault::Ty(header.ty));
    }
    let found = header.shape.dims();
    if usize::from(found) != dims {
        return Err(OpenFault::Dims(found));
    }
    Ok(header)
}

/// The same for a file at a fixed rate. Else the first of `Header`, `Ty`, `Dims` and `Mode` that holds.
pub fn header_of_array<T: Lane>(file: &[u8], dims: usize) -> Result<Header, OpenFault>
    ensures ok { IfOk result (IsOpenable IsRate T.TY dims file.now) }
    ensures fault { IfErr result (LacksHeader IsRate T.TY dims file.now) }
{
    let header = match header_of_stream::<T>(file, dims) {
        Ok(header) => header,
        Err(fault) => return Err(fault),
    };
    match header.mode {
        Mode::Rate(_) => Ok(header),
        mode => Err(OpenFault::Mode(mode)),
    }
}
