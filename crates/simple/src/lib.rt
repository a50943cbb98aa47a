// Simple books: single-series markets, each side a list of lots.

#![tactic(auto)]

mod book;
mod lent;
mod limits;
mod lot;
mod take;

pub use book::SimpleBook;
pub use limits::{HIGHEST_PRICE, LAST_SERIES, LOT_LIMIT, SERIES_COUNT, SIDE_LIMIT};
pub use lot::{Best, Lot, Side};
pub use take::allow_take;
