// The numbers of the rules on calls.

// An engine stands in memory of so many places, one for each order at rest.
pub const ORDER_PLACES: usize = 512;

// So many strategies can be defined.
pub const STRATEGY_PLACES: usize = 64;

// An order is for at most so many strategies.
pub(crate) const MOST_QUANTITY: u32 = 10_000;

// So many orders can be accepted.
pub(crate) const MOST_ACCEPTED: u32 = 1_000_000;
