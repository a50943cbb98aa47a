//! Entries kept in rank, in memory that the caller lends.

#![tactic(auto)]

mod list;
mod rank;
mod slots;

pub use list::RankedList;
pub use rank::Ranked;
