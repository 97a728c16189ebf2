//! Views of arrays through windows, and the blocks of a shape in order.
#![tactic(auto)]

mod blocks;
mod const_view;
mod elems;
mod reads;
mod run;
mod sum;
mod view;

pub use blocks::BlockIter;
pub use const_view::ConstView;
pub use elems::ElemIter;
pub use view::{ElemMut, View};
pub use zf_window::{ViewFault, Window};
