//! The definitions of cached arrays and of scripts, and laws about them.
//!
//! The definitions stand in `specs/`, a file for each subject. A law is a function with no parameters and an
//! empty body, whose contract is a theorem over them: calling it does nothing. Where a law speaks of codes of
//! any type, the type is its type parameter's.
#![tactic(auto)]

pub mod coded;
pub mod laws_of_arrays;
pub mod laws_of_changes;
pub mod laws_of_lines;
pub mod laws_of_runs;
pub mod laws_of_touches;
pub mod laws_of_views;
pub mod laws_of_windows;
pub mod placing;
pub mod tables;
pub mod tables_of_limits;
pub mod tables_of_lines;
pub mod tables_of_rules;
