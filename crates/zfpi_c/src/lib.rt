//! zfpi for C and all that calls C: whole arrays and parts of streams, in memory that
//! the caller lends.
#![tactic(auto)]

mod calls;
mod fields;
mod over;
mod parts;
mod status;
mod values;

pub use fields::{Field, Info};
pub use parts::Axes;
