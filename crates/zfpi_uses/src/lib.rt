//! How the library is used, as callers that are proved: raw values become their stream and come back; the
//! file of an array is opened, a window of it is summed, a run is written, and the file is saved.
#![tactic(auto)]

mod fault;
mod streams;
mod views;
mod window;

pub use fault::Fault;
pub use streams::{packed, there_and_back, unpacked};
pub use views::{set_both, set_in_windows, zeros_and_value};
pub use window::sum_and_mark;
