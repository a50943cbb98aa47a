// The numbers of the rules on markets and prices.

// A leg whose market is wider than this is not open.
pub(crate) const WIDEST_MARKET: u32 = 500;
