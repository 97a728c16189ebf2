//! Devices, which are the outside of the program: sources and sinks of bytes, shelves of files, what they do
//! and how they fail; those in memory, and those over the real things.
#![tactic(auto)]

mod buffer;
mod faults;
mod log;
mod logged;
mod mem_shelf;
mod memory;
mod real;
mod real_shelf;
mod retrying;
mod shelf;
mod sink;
mod source;
mod until_end;
mod whole;

pub use faults::{Failed, LoadError, TakeError};
pub use log::Log;
pub use logged::{LoggedShelf, LoggedSink, LoggedSource};
pub use mem_shelf::MemShelf;
pub use memory::{MemSink, MemSource};
pub use real::{RealSink, RealSource};
pub use real_shelf::RealShelf;
pub use shelf::Shelf;
pub use sink::{Sink, write_all};
pub use source::Source;
pub use until_end::{Begun, UntilEnd};
pub use whole::{fill, take_all};
