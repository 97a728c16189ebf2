//! The commands of scripts, on any array that can do what they ask for: each line is a step of an array and a
//! window, and its reply is written as it comes.
#![tactic(auto)]

mod blocks;
mod changes;
mod commands;
mod kinds;
pub mod laws;
mod lines;
mod subject;
mod target;
mod values;
mod windows;

pub use blocks::{fill_line, sum_within};
pub use commands::{look_through, read, write};
pub use kinds::{ArrayCmd, Kind, ReadCmd, ViewCmd, WindowCmd, WriteCmd, kind_of};
pub use lines::run_lines;
pub use subject::Subject;
pub use target::{Changing, Scripted, Target};
pub use values::of_type;
