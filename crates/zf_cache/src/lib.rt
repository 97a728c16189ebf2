//! A write-back cache of blocks over any backing, with the number of lines a power of two. In which line a
//! block goes is told by a rule: here each block has one line.
#![tactic(auto)]

mod body;
mod cache;
mod counts;
pub mod laws;
mod rule;

// A crate names a cache in a contract only where the type of its field is exported.
#[doc(hidden)]
pub use body::Body;
pub use cache::{Cache, CacheBy};
pub use counts::{default_lines, raised};
pub use rule::Rule;
