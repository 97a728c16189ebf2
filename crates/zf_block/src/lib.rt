//! The codes of one block: the reversible code, from which its values come back exactly, and the codes at a
//! fixed rate and at a fixed precision, from which they come back rounded; and how much of a block a code at
//! a fixed rate has whole.
#![tactic(auto)]

mod ahead;
mod block_code;
mod codec;
mod coefficients;
mod dims;
mod first_code;
pub mod laws;
mod passing;
mod precision;
mod rate;
mod reversible;
mod scratch;
mod uncut;
mod upper;
mod whole;
mod zero_block;

pub use dims::Dims;
pub use precision::{
    decode_prec, encode_prec, encode_prec_padded, pass_prec_zeros, prec_len_of_zeros,
};
pub use rate::{decode_rate, encode_rate, encode_rate_padded, pass_rate_zeros, rate_len_of_zeros};
pub use reversible::{decode_rev, encode_rev, encode_rev_padded, pass_rev_zeros, rev_len_of_zeros};
pub use scratch::Scratch;
pub use whole::{plane_from, whole_planes};
