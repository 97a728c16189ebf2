//! Streams: from raw values to a stream, and back.
#![tactic(auto)]

mod bytes;
mod compressing;
mod decoding;
mod encoding;
mod header;
pub mod laws;
mod most;
mod reading;
mod restore_room;
mod restoring;
mod room;
mod slabs;
mod stored;
mod values;
mod window;
mod writing;

pub use compressing::compress;
pub use header::read_header;
pub use most::most_bytes;
pub use restoring::{restore, restore_where};
pub use zf_parse::{StreamFault, check_fill, read_code};
