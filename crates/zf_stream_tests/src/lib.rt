//! Tests of headers and streams, of their indexes, bounds and samples, and of narrow values: the
//! expected values are those of a program that was written from the definitions alone.
#![tactic(auto)]

#[cfg(test)]
mod bound;
#[cfg(test)]
mod calls;
#[cfg(test)]
mod header;
#[cfg(test)]
mod index;
#[cfg(test)]
mod narrow;
#[cfg(test)]
mod sample;
#[cfg(test)]
mod slabs;
#[cfg(test)]
mod stream;
#[cfg(test)]
mod support;
