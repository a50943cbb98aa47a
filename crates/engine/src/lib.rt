// The engine: strategies and orders over the host's memory, and the calls.

#![tactic(auto)]

mod calls;
mod entry;
mod held;
mod intake;
mod ladders;
mod limits;
mod questions;
mod table;

pub use held::Engine;
pub use limits::{ORDER_PLACES, STRATEGY_PLACES};
