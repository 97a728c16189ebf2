//! What can be wrong with a file.

use std::alloc::AllocError;
use thiserror::Error;
use zf_base::Ty;
use zf_header::{HeaderFault, Mode};

/// Why the codes of a file with a good header are not all there, or are not taken.
#[derive(Clone, Copy, Debug, PartialEq, Eq, Error)]
pub enum IndexFault {
    /// The code of this block is the first that ends too early. It is the number of blocks where only fill
    /// bits are missing.
    #[error("the file ends within block {0}")]
    Truncated(u64),
    /// A bit of the fill is one.
    #[error("the fill is not zero")]
    Pad,
    /// A byte follows the fill.
    #[error("bytes follow the stream")]
    Trailing,
    /// There was no memory.
    #[error("there is no memory")]
    Memory,
}

impl From<AllocError> for IndexFault {
    ghost use Rattle.std.specs.Prelude.{◌≡◌};
    ghost use Rattle.zf_index.specs.declared.fault.IndexFault.TheVariants.{Memory};

    ghost from_gives = { λ _ fault. fault ≡ Memory };

    fn from(_e: AllocError) -> IndexFault {
        IndexFault::Memory
    }
}

/// Why a file was not opened as an array of a type of values and a number of dimensions. The first that
/// holds, in this order.
#[derive(Clone, Copy, Debug, PartialEq, Eq, Error)]
pub enum OpenFault {
    /// It does not begin with a header that is read.
    #[error("{0}")]
    Header(HeaderFault),
    /// Its values are of this type, which is another one.
    #[error("the values are of the other type")]
    Ty(Ty),
    /// It has this number of dimensions, which is another one.
    #[error("it has {0} dimensions")]
    Dims(u8),
    /// Its mode is this one, which has no fixed rate.
    #[error("its codes have no fixed rate")]
    Mode(Mode),
    /// What follows the header is not its codes, or there was no memory.
    #[error("{0}")]
    Codes(IndexFault),
}

impl From<HeaderFault> for OpenFault {
    ghost use Rattle.std.specs.Prelude.{◌≡◌};
    ghost use Rattle.zf_index.specs.declared.fault.OpenFault.TheVariants.{Header};

    ghost from_gives = { λ e fault. fault ≡ Header e };

    fn from(e: HeaderFault) -> OpenFault {
        OpenFault::Header(e)
    }
}

impl From<IndexFault> for OpenFault {
    ghost use Rattle.std.specs.Prelude.{◌≡◌};
    ghost use Rattle.zf_index.specs.declared.fault.OpenFault.TheVariants.{Codes};

    ghost from_gives = { λ e fault. fault ≡ Codes e };

    fn from(e: IndexFault) -> OpenFault {
        OpenFault::Codes(e)
    }
}
