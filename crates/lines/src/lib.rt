// The words of a line, one by one, and which lines are passed over.

#![tactic(auto)]

pub mod words;
