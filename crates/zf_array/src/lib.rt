//! Cached arrays: a store of fixed-rate codes, a write-back cache over it, and the buffer in which the file
//! is saved.
#![tactic(auto)]

mod array;
mod codes;
mod opening;
#[cfg(test)]
mod tests;

pub use array::Array;
pub use codes::Codes;
pub use zf_index::OpenFault;
