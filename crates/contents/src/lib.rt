// What a message says, and why bytes or a message are refused.

#![tactic(auto)]

mod edition;
mod fault;
mod message;
mod sides;
mod time;

pub use edition::Edition;
pub use fault::{ReaderFault, WriterFault};
pub use message::{DefineFields, LegFields, Message, PlaceFields, Received};
pub use sides::{LegSide, OrderSide};
pub use time::TimeInForce;
