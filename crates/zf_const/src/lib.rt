//! Read-only arrays: the codes of a stream in any mode, an index of them, and a cache of blocks.
#![tactic(auto)]

mod array;
mod codes;
mod index;
pub mod laws;
mod opening;

pub use array::ConstArray;
pub use zf_index::OpenFault;
