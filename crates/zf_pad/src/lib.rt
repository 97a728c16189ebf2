//! Copies between the values of an array and a block, and the padding of partial blocks.
#![tactic(auto)]

mod array_block;
mod copies;
pub mod laws;
pub mod laws_of_slabs;
mod layout;
mod padding;
mod raw;
mod storing;

pub use array_block::{gather_block, is_row_of, is_row_of_zeros};
pub use copies::{gather, scatter};
pub use layout::Layout;
pub use padding::pad;
pub use raw::{put_raw, value_len};
pub use storing::{append_block, copy_lines, has_whole_blocks};
