//! The coefficients of a block: their order, their negabinary digits and their bit planes.
#![tactic(auto)]

mod coefficient_order;
mod digits;
mod first;
mod needed;
mod negabinary;
mod planes;
mod ranks;
mod turning;

pub use coefficient_order::order;
pub use digits::{digits_of_planes, from_planes};
pub use first::planes_of_first;
pub use needed::{any_digits, needed_planes, zero_planes};
pub use negabinary::{from_digits, to_digits};
pub use planes::{planes_of_digits, to_planes};
pub use ranks::{ranked, unranked};
