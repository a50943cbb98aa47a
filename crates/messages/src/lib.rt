// Messages of 14 bytes with packed fields, the most significant bit first: read and written.

#![tactic(auto)]

mod bits;
mod codes;
mod fields;
mod reader;
mod writer;

pub use reader::read;
pub use writer::write;
