//! Writing and reading lists of bits, as zfp's streams have them: fields least significant bit first, in
//! words of 64.
#![tactic(auto)]

mod excerpt;
mod packing;
mod plane;
mod reader;
mod slots;
mod writer;

pub use excerpt::Excerpt;
pub use packing::{bytes_of_words, put_words_at, word_of_bytes, word_of_bytes_at, words_of_bytes};
pub use plane::Plane;
pub use reader::BitReader;
pub use slots::{get_bits, put_bits};
pub use writer::BitWriter;
