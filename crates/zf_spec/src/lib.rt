//! The definitions of zfpi, and laws about them.
//!
//! The definitions stand in `specs/`, a file for each subject. A law is a function with no parameters and an
//! empty body, whose contract is a theorem over them: calling it does nothing. The laws say what no
//! definition shows by itself: that a definition has a property and nothing else has it, that two of them
//! undo each other, and the cases that the format states.
#![tactic(auto)]

pub mod laws_of_blocks;
pub mod laws_of_bytes;
pub mod laws_of_numbers;
pub mod laws_of_planes;
pub mod laws_of_reading;
pub mod tables;
