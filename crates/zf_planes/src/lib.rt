//! The embedded code of bit planes, as in the zfp 1.0 documentation, chapter Algorithm.
//!
//! `planes[k]` holds digit k of each coefficient by rank: rank r is bit `r % 64` of word `r / 64`. Bits from
//! rank `size` on are not looked at where planes are given, and are zero where they were read. Planes of four
//! digits are given by the digits: bit k of `digits[r]` is the digit of rank r in plane k, of `width` planes.
//! [`encode`], [`decode`] and [`code_len`] are for callers of the library, with planes in four words each.
#![tactic(auto)]

mod cursor;
mod decoding;
mod doubling;
mod encoding;
mod entries;
mod four_reading;
mod four_writing;
mod in_lanes;
mod measuring;
mod tails;
mod word_reading;
mod word_writing;
mod words;

pub use decoding::{decode, read_planes};
pub use encoding::{encode, write_planes_below};
pub use four_reading::read_four;
pub use four_writing::write_four;
pub use measuring::{code_len, planes_len, planes_within};
pub use words::clear;
