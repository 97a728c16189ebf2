//! What can be wrong, and where it comes from.

ghost use Rattle.std.specs.Prelude.{◌≡◌};
ghost use Rattle.zfpi_uses.specs.declared.fault.Fault.TheVariants as fault;

use std::alloc::AllocError;
use thiserror::Error;
use zf_array::OpenFault;
use zf_view::ViewFault;

/// Why nothing was summed.
#[derive(Clone, Copy, Debug, PartialEq, Eq, Error)]
pub enum Fault {
    /// The file is not that of an array of int32 in one dimension at a rate.
    #[error("{0}")]
    Open(OpenFault),
    /// The window does not lie in the array.
    #[error("{0}")]
    View(ViewFault),
    /// There was no memory for the new file.
    #[error("there is no memory")]
    Memory,
}

impl From<OpenFault> for Fault {
    ghost from_gives = { λ e f. f ≡ fault.Open e };

    fn from(e: OpenFault) -> Fault {
        Fault::Open(e)
    }
}

impl From<ViewFault> for Fault {
    ghost from_gives = { λ e f. f ≡ fault.View e };

    fn from(e: ViewFault) -> Fault {
        Fault::View(e)
    }
}

impl From<AllocError> for Fault {
    ghost from_gives = { λ _ f. f ≡ fault.Memory };

    fn from(_e: AllocError) -> Fault {
        Fault::Memory
    }
}
