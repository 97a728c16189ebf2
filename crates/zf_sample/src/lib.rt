//! Large arrays made from a number: their values, and what becomes of them on the way to a stream and back.
#![tactic(auto)]

mod changes;
pub mod laws;
mod summary;
mod values;

pub use summary::{Summary, sample};
