// Bytes in hexadecimal, read from words and written to text.

#![tactic(auto)]

mod hexadecimal;

pub use hexadecimal::{hex_byte, push_hex_byte};
