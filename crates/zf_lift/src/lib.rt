//! The lossy transform of a block, zfp's decorrelating transform.
#![tactic(auto)]

mod line;
mod transform;

pub use transform::{forward, inverse, inverse_of_first, keeps_first};
