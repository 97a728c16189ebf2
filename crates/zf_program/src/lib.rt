//! The program over any devices: what it does on each command, and how it ends.
#![tactic(auto)]

mod commands;
mod program;
mod status;

pub use commands::line::error_line;
pub use program::zfpi;
pub use status::Status;
