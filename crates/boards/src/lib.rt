// The quote board: a simple book with a maker's and a Priority Customer's quote on each side.

#![tactic(auto)]

mod board;
mod limits;
mod quote;
mod quotes;

pub use board::QuoteBoard;
pub use limits::{LAST_QUOTED, QUOTED_COUNT};
