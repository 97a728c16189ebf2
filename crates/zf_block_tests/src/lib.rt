//! Tests of the codes of planes and blocks, against the format's tables and programs that were written from
//! the definitions alone. There is no call here.
#![tactic(auto)]

#[cfg(test)]
mod block;
#[cfg(test)]
mod planes;
#[cfg(test)]
mod planes_of_four;
#[cfg(test)]
mod rows;
#[cfg(test)]
mod support;
#[cfg(test)]
mod zeros;
