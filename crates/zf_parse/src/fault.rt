//! What can be wrong with an input, a stream or a device.

use std::alloc::AllocError;
use thiserror::Error;
use zf_header::HeaderFault;

/// Why a stream was not made, or not restored.
#[derive(Clone, Copy, Debug, PartialEq, Eq, Error)]
pub enum StreamFault {
    /// The raw values end after this many bytes, fewer than the shape needs.
    #[error("input ends after {0} bytes")]
    RawShort(u64),
    /// There is a byte more than the shape needs.
    #[error("input is longer than the shape")]
    RawLong,
    /// The bytes do not begin with a header that is read.
    #[error("{0}")]
    Header(HeaderFault),
    /// The code of this block is the first that ends too early. It is the number of blocks where only fill
    /// bits are missing.
    #[error("stream ends in block {0}")]
    Truncated(u64),
    /// A bit of the fill is one.
    #[error("fill bit is one")]
    Pad,
    /// A byte follows the stream.
    #[error("bytes after the stream")]
    Trailing,
    /// The source failed.
    #[error("read fault")]
    Read,
    /// The sink failed.
    #[error("write fault")]
    Write,
    /// There was no memory.
    #[error("out of memory")]
    Memory,
}

impl From<AllocError> for StreamFault {
    ghost use Rattle.std.specs.Prelude.{◌≡◌};
    ghost use Rattle.zf_parse.specs.declared.fault.StreamFault.TheVariants.{Memory};

    ghost from_gives = { λ _ fault. fault ≡ Memory };

    fn from(_e: AllocError) -> StreamFault {
        StreamFault::Memory
    }
}
