//! The lines of a cache: blocks of one length, side by side in one allocation, seen as a list of blocks.
//!
//! `cells` holds the few functions that touch the pointer, and `lines` the blocks above them.
#![tactic(auto)]

mod cells;
mod lines;

// A crate names `Lines` in a contract only where the types of its fields are exported.
#[doc(hidden)]
pub use cells::{Base, Cells, Deed};
pub use lines::Lines;
