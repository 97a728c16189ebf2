//! The reversible transform of a block, zfp's high-order Lorenzo transform.
#![tactic(auto)]

mod line;
mod transform;

pub use transform::{forward, inverse, inverse_of_first, keeps_first};
