//! Scripts on arrays: each line is a step of an array and a window, and its reply is written as it comes.
#![tactic(auto)]

mod arrays;
mod changes;
mod const_arrays;
mod end;
mod looks;
mod pairs;
mod runs;
mod splits;
mod two_runs;
mod views;

pub use end::RunEnd;
pub use looks::look;
pub use runs::run;
pub use two_runs::run_two;
