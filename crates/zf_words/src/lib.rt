//! The words of the command line: which lists of them are commands, and where others stop.
#![tactic(auto)]

mod command;
mod name;
mod numbers;
mod words;

pub use command::{Access, Caching, Command};
pub use name::Name;
pub use words::parse;
