//! Tests of caches and of arrays over them: lines, write-back caches with one line and two for a block,
//! private views, stores, windows and read-only arrays. There is no call here.
#![tactic(auto)]

#[cfg(test)]
mod cache;
#[cfg(test)]
mod const_array;
#[cfg(test)]
mod counted;
#[cfg(test)]
mod evens;
#[cfg(test)]
mod lines;
#[cfg(test)]
mod opening;
#[cfg(test)]
mod private;
#[cfg(test)]
mod store;
#[cfg(test)]
mod twoway;
#[cfg(test)]
mod view;
