// The reasons for which a call is refused, and their numbers.
ghost use Rattle.std.specs.Prelude.{◌≡◌};
ghost use Rattle.refusals.specs.Reasons.{number_of};

// Why a call was refused, with its number in the refusal table.
#[derive(Clone, Copy, PartialEq, Eq, Debug)]
pub enum Reason {
    // the host's memory has not as many places as the book or the engine needs
    Memory = 51,
    // a message is not 14 bytes long
    Length = 1,
    // a message names no edition that is known
    Edition = 2,
    // a message names no kind that is known
    Kind = 3,
    // a field of a message has a value that it may not have
    Field = 4,
    // a message cannot be written into the room
    Unwritable = 5,
    // a strategy has not 2 to 4 legs
    LegCount = 11,
    // a leg's series is too high, or does not rise
    Series = 12,
    // a ratio is out of bounds, too far from another, or all share a divisor
    Ratio = 13,
    // a strategy of the same legs is defined already
    SameLegs = 14,
    // the table of strategies is full
    TableFull = 15,
    // no such strategy is defined
    Strategy = 21,
    // the quantity of an order is out of bounds
    Quantity = 22,
    // the limit of an order is out of bounds, or a market order has one
    Limit = 23,
    // as many orders rest as can
    BookFull = 24,
    // as many orders were accepted as can be numbered
    NumbersSpent = 25,
    // no order of that number rests
    NotResting = 31,
    // the book carries no such series
    NoSeries = 41,
    // a side's best has not the quantity that is to be taken
    TooMany = 42,
    // the price or the size of a lot is out of bounds
    BadLot = 43,
    // as many lots stand as can
    LotsFull = 44,
    // as many lots were posted as can be numbered
    LotNumbersSpent = 45,
    // no lot of that number stands
    NoLot = 46,
}

impl Reason {
    // The reason's number in the refusal table.
    pub fn number(self) -> u32
        ensures { result ≡ number_of self }
    {
        self as u32
    }
}
