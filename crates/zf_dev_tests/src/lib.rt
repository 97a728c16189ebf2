//! Tests of sources, sinks and shelves: those in memory, and those over real streams and files.
#![tactic(auto)]

#[cfg(test)]
mod dev;
#[cfg(test)]
mod files;
#[cfg(test)]
mod held;
#[cfg(test)]
mod logged;
#[cfg(test)]
mod shelf;
