//! Tests of the crates that a block's codes stand on: bits, transforms and coefficients, against the format's
//! tables and programs that were written from the definitions alone. There is no call here.
#![tactic(auto)]

#[cfg(test)]
mod axes;
#[cfg(test)]
mod base;
#[cfg(test)]
mod bits;
#[cfg(test)]
mod coef;
#[cfg(test)]
mod lift;
#[cfg(test)]
mod lorenzo;
#[cfg(test)]
mod pad;
