// The steps of a strategy over any simple book.

#![tactic(auto)]

mod choosing;
mod defined;
mod orders;
mod running;
mod steps;
mod taking;

pub use defined::Defined;
pub use orders::{best_order, drop_order, order_with, reduce};
pub use running::Stepped;
pub use steps::Step;
pub use taking::take_legs;
