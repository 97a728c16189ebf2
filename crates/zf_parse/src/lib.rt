//! What a stream says: its header and its values, or why it says nothing. The definitions, their lemmas, and
//! how one code is read.
#![tactic(auto)]

mod fault;
pub mod laws;
mod longest;
mod reading;

pub use fault::StreamFault;
pub use longest::longest_code;
pub use reading::{check_fill, pass_zero_code, read_code};
