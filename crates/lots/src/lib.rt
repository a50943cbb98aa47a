//! The lots of a depth book, and their rank.

#![tactic(auto)]

mod posted;

pub use posted::PostedLot;
