// What a message says.
ghost use Rattle.std.specs.Prelude.{Some};
ghost use Rattle.contents.specs.Legs.{leg_text};

use crate::edition::Edition;
use crate::sides::{LegSide, OrderSide};
use std::fmt;

// An order, in numbers wider than their fields, so that one that does not fit can be refused.
#[derive(Clone, Copy, PartialEq, Eq, Debug)]
pub struct PlaceFields {
    pub strategy: u64,
    pub side: OrderSide,
    // a mark beside the limit: a message may write both, and the rules refuse it
    pub market: bool,
    // a code: a message may write one that no time in force has, and the reader refuses it
    pub time_in_force: u64,
    pub limit: i64,
    pub quantity: u64,
}

// A leg of a definition, in numbers wider than their fields.
#[derive(Clone, Copy, PartialEq, Eq, Debug)]
pub struct LegFields {
    pub series: u64,
    pub side: LegSide,
    pub ratio: u64,
}

// A definition: its leg count, which may be any number, and four legs, counted or not.
#[derive(Clone, Copy, PartialEq, Eq, Debug)]
pub struct DefineFields {
    pub count: u64,
    pub legs: [LegFields; 4],
}

// A message by its kind.
#[derive(Clone, Copy, PartialEq, Eq, Debug)]
pub enum Message {
    Place(PlaceFields),
    Cancel { number: u64 },
    Evaluate { strategy: u64 },
    Define(DefineFields),
}

// A message that was read, and the edition that it came in.
#[derive(Clone, Copy, PartialEq, Eq, Debug)]
pub struct Received {
    pub edition: Edition,
    pub message: Message,
}

// What programs print of a leg: its series, the sign of its side and its ratio.
impl fmt::Display for LegFields {
    ghost output = { λ leg. Some (leg_text leg) };

    fn fmt<W: fmt::Write>(&self, f: &mut fmt::Formatter<W>) -> fmt::Result {
        let LegFields {
            series,
            side,
            ratio,
        } = *self;
        write!(f, "{series}:{side}{ratio}")
    }
}
