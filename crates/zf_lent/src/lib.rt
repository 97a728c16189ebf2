//! Raw values to their stream and back, in bytes that a caller lends: nothing is copied but what passes.
#![tactic(auto)]

mod calls;
mod narrow;
mod slice_sink;
mod slice_source;

pub use calls::{compress_into, restore_into};
pub use narrow::{compress_narrow_into, restore_narrow_into};
