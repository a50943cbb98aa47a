// The words of a line, and how they are shown.

#![tactic(auto)]

pub mod printable;
pub mod words;
