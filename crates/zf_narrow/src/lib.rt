//! Values of 8 and 16 bits, the int32 values that stand for them, and their streams, each way.
#![tactic(auto)]

mod begun;
mod compressing;
mod demoted;
mod demotion;
mod fault;
pub mod laws;
mod log;
mod narrow;
mod promoted;
mod promotion;
mod raw;
mod restoring;
pub mod tables;
mod taking;

pub use compressing::compress_narrow;
pub use fault::NarrowFault;
pub use narrow::{Narrow, demote, promote};
pub use restoring::restore_narrow;
