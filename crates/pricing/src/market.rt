// The market of a leg, and prices of a strategy with those of its legs. No invariant, so `leg_sound` is asked where it is needed: the definitions make values of these types.
use simple::Best;

// What one leg of a strategy trades against: its best bid and its best offer.
#[derive(Clone, Copy, PartialEq, Eq, Debug)]
pub struct LegMarket {
    // bought when the strategy is bought, else sold
    pub bought: bool,
    pub ratio: u32,
    pub bid: Best,
    pub offer: Best,
}

// A net price of a strategy, and the price of each leg, 0 where there is none.
#[derive(Clone, Copy, PartialEq, Eq, Debug)]
pub struct NetPrice {
    pub price: i64,
    // zeros and no Option, as in the record of an execution, into which they go
    pub legs: [u32; 4],
}
