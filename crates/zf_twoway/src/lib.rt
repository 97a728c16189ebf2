//! A write-back cache of blocks over any backing, in which each block has two lines: its number modulo the
//! number of lines, and a skewed one.
#![tactic(auto)]

pub mod laws;
pub mod laws_of_touches;
mod skewed;
pub mod tables;
mod twoway;

pub use skewed::Skewed;
pub use twoway::TwoWay;
