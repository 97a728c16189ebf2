//! By what files are known again: what was seen of them, what their bytes add up to, and names that end with a
//! number. It decides, and asks the system for nothing.
#![tactic(auto)]

mod names;
mod seen;
mod sum;

pub use names::{DIGITS, add_number, number_behind, put_number, take_number};
pub use seen::{Mark, Seen};
pub use sum::Sum;
