//! Streams of int32 and int64 values in one and two dimensions that zfp 1.0.0 wrote, at fixed rates, at a
//! fixed precision and in its reversible mode, filled with zero bytes to whole words of 64 bits.
//!
//! They are made again byte for byte, and restored to what zfp restores. This is a test of the restated
//! rules; there is no call here. `python3 check/vectors.py --rows` writes the tables.
#![tactic(auto)]

#[cfg(test)]
mod tests;
