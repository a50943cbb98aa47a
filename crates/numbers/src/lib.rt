// Numbers in decimal, read from words and written to text.

#![tactic(auto)]

mod decimal;

pub use decimal::{number, push_number, push_signed, signed_number};
