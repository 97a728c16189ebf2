//! Where a file of the system lies, what was seen there, and how another one is put in its place, so that a save
//! that fails or is killed leaves the old file; and what the system allows a process to write.
//!
//! Nothing here says of bytes what a contract could: what files hold is outside the program.
#![tactic(auto)]

mod access;
mod beside;
mod claims;
mod limits;
mod place;
mod stack;

pub use limits::WithinLimits;
pub use place::Place;
