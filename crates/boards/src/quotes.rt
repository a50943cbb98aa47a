// What stands on a side of a board, and what is left of it.
ghost use Rattle.std.specs.Prelude.{◌≡◌, ◌≤◌, Bool, true, false, ◌++◌, Some, IfSome};
ghost use Rattle.std.specs.Option.{option_map, option_to_list};
ghost use Rattle.simple.specs.Limits.{highest_price, lot_limit};
ghost use Rattle.simple.specs.Best.{best_of};
ghost use Rattle.simple.specs.Take.{take_from};
ghost use Rattle.boards.specs.Board.{quote_lot, ahead_of, size_left, lot_left, side_lots, no_quotes, requoted};

use crate::quote::{Quote, Quotes};
use simple::{Best, Lot, Side};

impl Quote {
    // The quote as a lot. No `From`: a quote does not say whose it is.
    fn lot(self, customer: bool) -> Lot
        ensures is { result ≡ quote_lot customer self }
        ensures small { result.size ≤ lot_limit }
    {
        Lot {
            price: self.price,
            size: self.size,
            customer,
        }
    }

    // What is left of the quote once a quantity is gone.
    fn less(self, quantity: u32) -> Option<Quote>
        ensures { (c : Bool) → option_map (quote_lot c) result ≡ lot_left quantity (Some (quote_lot c self)) }
    {
        if quantity >= self.size {
            return None;
        }
        Some(Quote {
            price: self.price,
            size: self.size - quantity,
        })
    }
}

impl Quotes {
    // No quote.
    pub(crate) fn none() -> Quotes
        ensures { result ≡ no_quotes }
    {
        Quotes {
            maker: None,
            customer: None,
        }
    }

    // Whether the Priority Customer's lot stands ahead of the maker's.
    fn customer_first(self, side: Side) -> bool
        ensures { result ≡ ahead_of side (option_map (quote_lot true) self.customer) (option_map (quote_lot false) self.maker) }
    {
        match (self.customer, self.maker) {
            (Some(customer), Some(maker)) => customer.lot(true).precedes(maker.lot(false), side),
            _ => true,
        }
    }

    // The two lots in rank.
    fn in_rank(self, side: Side) -> (Option<Lot>, Option<Lot>)
        ensures lots { side_lots side self ≡ option_to_list result.0 ++ option_to_list result.1 }
        ensures first { IfSome result.0 (λ l. l.size ≤ lot_limit) }
        ensures second { IfSome result.1 (λ l. l.size ≤ lot_limit) }
    {
        let customer = self.customer.map(|quote| quote.lot(true));
        let maker = self.maker.map(|quote| quote.lot(false));
        if self.customer_first(side) {
            (customer, maker)
        } else {
            (maker, customer)
        }
    }

    // The best of the side.
    pub(crate) fn best(self, side: Side) -> Option<Best>
        ensures { result ≡ best_of (side_lots side self) }
    {
        match self.in_rank(side) {
            (Some(first), Some(second)) if first.price == second.price => Some(Best {
                price: first.price,
                size: first.size + second.size,
                customer: first.customer_size() + second.customer_size(),
            }),
            (Some(lot), _) | (None, Some(lot)) => Some(Best::of(lot)),
            (None, None) => None,
        }
    }

    // The quotes once a lot takes the place of what its class had: none where it has no size.
    pub(crate) fn with(self, lot: Lot) -> Quotes
        requires { (1 ≤ lot.price) × (lot.price ≤ highest_price) × (lot.size ≤ lot_limit) }
        ensures { (d : Side) → side_lots d result ≡ requoted d lot (side_lots d self) }
    {
        let quote = if lot.size == 0 {
            None
        } else {
            Some(Quote {
                price: lot.price,
                size: lot.size,
            })
        };
        if lot.customer {
            Quotes {
                customer: quote,
                ..self
            }
        } else {
            Quotes {
                maker: quote,
                ..self
            }
        }
    }

    // The quotes with a quantity gone from the front of the side.
    pub(crate) fn less(self, side: Side, quantity: u32) -> Quotes
        ensures { side_lots side result ≡ take_from quantity (side_lots side self) }
    {
        let Quotes { maker, customer } = self;
        let (from_maker, from_customer) = if self.customer_first(side) {
            (behind(customer, quantity), quantity)
        } else {
            (quantity, behind(maker, quantity))
        };
        Quotes {
            maker: maker.and_then(|quote| quote.less(from_maker)),
            customer: customer.and_then(|quote| quote.less(from_customer)),
        }
    }
}

// What is left of a quantity for the lot behind a quote from which it is taken first.
fn behind(quote: Option<Quote>, quantity: u32) -> u32
    ensures { (c : Bool) → result ≡ size_left quantity (option_map (quote_lot c) quote) }
{
    quote.map_or(quantity, |quote| quantity.saturating_sub(quote.size))
}
