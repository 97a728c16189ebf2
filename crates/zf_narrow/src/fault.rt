//! Why a stream was not restored as narrow values.

use thiserror::Error;
use zf_stream::StreamFault;

/// Why a stream was not restored as values of 8 or 16 bits.
#[derive(Clone, Copy, Debug, PartialEq, Eq, Error)]
pub enum NarrowFault {
    /// The header is good, and its type is not int32.
    #[error("type is not int32")]
    NotNarrow,
    /// It is no good stream, a device failed, or there was no memory.
    #[error("{0}")]
    Stream(StreamFault),
}
