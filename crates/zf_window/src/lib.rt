//! Windows: parts of an array that are seen as arrays of their own.
#![tactic(auto)]

mod place_walk;
mod walk;
mod window;

pub use place_walk::PlaceWalk;
pub use walk::{Run, Walk};
pub use window::{ViewFault, Window};
