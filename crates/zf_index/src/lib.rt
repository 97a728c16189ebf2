//! Where the code of each block stands in a stream: indexes with a place for each block, and with one for
//! each 16 blocks.
#![tactic(auto)]

mod fault;
mod index;
mod opening;
mod span;
mod walk;

pub use fault::{IndexFault, OpenFault};
pub use index::{Chunked, Spans, Verbatim};
pub use opening::{header_of_array, header_of_stream};
pub use span::Span;
