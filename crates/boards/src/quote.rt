// The two quotes of one side of a series.
ghost use Rattle.std.specs.Prelude.{◌≤◌};
ghost use Rattle.simple.specs.Limits.{highest_price, lot_limit};

// A price and a size that stand.
#[derive(Clone, Copy)]
pub(crate) struct Quote {
    pub(crate) price: u32,
    pub(crate) size: u32,
    ghost sound: { (1 ≤ price) × (price ≤ highest_price) × (1 ≤ size) × (size ≤ lot_limit) },
}

// The maker's quote and the Priority Customer's, of those that quote.
#[derive(Clone, Copy)]
pub(crate) struct Quotes {
    pub(crate) maker: Option<Quote>,
    pub(crate) customer: Option<Quote>,
}

// The quotes of a series' bids and of its offers.
#[derive(Clone, Copy)]
pub(crate) struct Sides {
    pub(crate) bids: Quotes,
    pub(crate) offers: Quotes,
}
