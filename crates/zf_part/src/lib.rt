//! Parts of a stream that is lent: blocks and windows, read where they stand, and blocks of a rate written
//! there.
#![tactic(auto)]

mod block;
mod places;
mod put;
mod reading;
mod window;

pub use block::{read_block, read_blocks, read_blocks_at, write_block};
pub use places::{PlaceFault, write_places};
pub use window::{read_window, read_window_at};
