//! The types of values, positions, the shape of an array with its blocks, and what a cache of blocks stands
//! on.
#![tactic(auto)]

mod backing;
mod block;
mod lane;
pub mod laws;
mod position;
mod shape;
mod stats;

pub use backing::{Backing, Reading};
pub use block::block_len;
pub use lane::{Lane, Ty};
pub use position::{Extent, Pos};
pub use shape::{Shape, ShapeFault};
pub use stats::Stats;
