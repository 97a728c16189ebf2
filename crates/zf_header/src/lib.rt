//! The header of a stream, both ways.
#![tactic(auto)]

mod header;
pub mod laws;
mod reading;
mod writing;

pub use header::{
    FULL_HEADER_BYTES, Header, HeaderFault, LONG_HEADER_BITS, MAX_FILE, MAX_PRECISION, MAX_RATE,
    Mode, header_len, mode_number, rate_bytes,
};
pub use reading::read;
pub use writing::write;
