//! A certified error bound: how far the values of a stream of a fixed rate are, at most, from whatever was
//! stored in it.
#![tactic(auto)]

mod bounding;
mod certified;
pub mod laws;
mod planes;

pub use bounding::bound;
pub use certified::Certified;
