//! Tests of the program over devices in memory: tables of calls, and how each of them ends.
#![tactic(auto)]

#[cfg(test)]
mod calls;
#[cfg(test)]
mod damage;
#[cfg(test)]
mod faults;
#[cfg(test)]
mod files;
#[cfg(test)]
mod known;
#[cfg(test)]
mod large;
#[cfg(test)]
mod scripts;
#[cfg(test)]
mod streams;
#[cfg(test)]
mod words;
