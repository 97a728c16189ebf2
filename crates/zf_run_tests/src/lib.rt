//! Tests of the language of scripts and of runs: lines and replies, and scripts on arrays, on arrays that
//! are only read, and over a two-way cache; and of the examples of callers. There is no call here.
#![tactic(auto)]

#[cfg(test)]
mod look;
#[cfg(test)]
mod run;
#[cfg(test)]
mod script;
#[cfg(test)]
mod two;
#[cfg(test)]
mod uses;
