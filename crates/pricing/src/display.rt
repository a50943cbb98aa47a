// The price that an order shows.
ghost use Rattle.std.specs.Prelude.{◌≡◌};
ghost use Rattle.std.specs.Option.{option_map};
ghost use Rattle.pricing.specs.Markets.{legs_of};
ghost use Rattle.pricing.specs.Display.{meets_customer, shown, displayed};

use crate::strategy_market::StrategyMarket;

impl StrategyMarket {
    // Whether an order would meet a Priority Customer on some leg.
    fn meets_customer(&self, buy: bool) -> bool
        ensures { result ≡ meets_customer (legs_of self.now) buy }
    {
        self.legs().iter().any(|leg| leg.taken(buy).customer > 0)
    }

    // What a limit shows on this market.
    fn shown(&self, buy: bool, limit: i64) -> i64
        ensures { result ≡ shown (legs_of self.now) buy limit }
    {
        if !self.is_reached(buy, limit) {
            return limit;
        }
        let net = self.net_taken(buy);
        if !self.meets_customer(buy) {
            return net;
        }
        if buy { net - 1 } else { net + 1 }
    }
}

// The price that an order shows: by its working limit on a market; on none, as the strategy is not free,
// the limit that it was placed with, which a market order has not.
pub fn displayed_price(
    market: Option<StrategyMarket>,
    buy: bool,
    limit: Option<i64>,
    working_limit: i64,
) -> Option<i64>
    ensures { result ≡ displayed (option_map legs_of market) buy limit working_limit }
{
    match market {
        Some(market) => Some(market.shown(buy, working_limit)),
        None => limit,
    }
}
