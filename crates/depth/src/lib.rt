//! The depth book: a simple book over lots that stand in the host's memory.

#![tactic(auto)]

pub mod depth;
mod limits;
mod side;
mod trade;

pub use depth::DepthBook;
pub use limits::{LOT_PLACES, MOST_POSTED};
