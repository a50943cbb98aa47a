// The hold layer: any simple book, with series kept on hold.

#![tactic(auto)]

mod layer;

pub use layer::{HoldLayer, Marks};
