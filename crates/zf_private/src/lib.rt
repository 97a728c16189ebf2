//! Private views: several write-back caches over one backing, each over blocks of its own.
#![tactic(auto)]

pub mod laws;
pub mod laws_of_scripts;
mod private;

pub use private::Private;
