// What the programs print of a line, of an error and of a refusal.

#![tactic(auto)]

mod texts;

pub use texts::{error_line, printed, refusal_text};
