//! What each command does: a file for each, and what several of them share.

pub mod bound;
pub mod compress;
pub mod compress_narrow;
pub mod fetching;
pub mod info;
pub mod kinds;
pub mod line;
pub mod new;
pub mod restore;
pub mod restore_narrow;
pub mod sample;
pub mod script;
pub mod scripts;
pub mod sending;
pub mod target;
pub mod twoway;
