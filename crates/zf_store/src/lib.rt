//! The store of an array of a fixed rate: the codes of its blocks in words, to be read and written a block at
//! a time.
//!
//! Each block has as many bits, 1 to 32768, so blocks may share words.
#![tactic(auto)]

mod file;
mod store;
mod words;

pub use store::Store;
pub use zf_index::IndexFault as StoreFault;
