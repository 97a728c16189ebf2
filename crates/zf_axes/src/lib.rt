//! A map of lines at all lines of a block, along one axis and along all axes.
//!
//! A block of `d` dimensions has `4^d` values, x fastest. A line has the four values that differ in one index
//! alone: along axis `k`, counted from 0 for x, its values lie `4^k` places apart.
#![tactic(auto)]

mod axes;
mod filling;
mod line;

pub use axes::{pass, passes, passes_back};
pub use filling::fill;
pub use line::LineMap;
