// The net market of a free strategy.
ghost use Rattle.std.specs.Prelude.{◌≡◌, pos, neg_ℤ, ◌≤ℤ◌};
ghost use Rattle.pricing.specs.Legs.{net_bid, net_offer};
ghost use Rattle.pricing.specs.Legging.{net_taken};
ghost use Rattle.pricing.specs.Sound.{Sound};
ghost use Rattle.pricing.specs.Markets.{legs_of};

use crate::market::LegMarket;
use crate::strategy_market::StrategyMarket;

impl StrategyMarket {
    // The markets of the legs, in the strategy's order.
    pub fn legs(&self) -> &[LegMarket]
        ensures value { result.now ≡ legs_of self.now }
        ensures sound { Sound result.now }
    {
        &self.legs[0..self.count]
    }

    // The net price on the other side: the net offer for a buy, the net bid for a sell.
    pub(crate) fn net_taken(&self, buy: bool) -> i64
        ensures value { result ≡ net_taken (legs_of self.now) buy }
        ensures reach { (neg_ℤ (pos 32000000) ≤ℤ result) × (result ≤ℤ pos 32000000) }
    {
        self.legs().iter().map(|leg| leg.part_taken(buy)).sum()
    }

    // The net bid and the net offer, within 32,000,000 either way.
    pub fn net(&self) -> (i64, i64)
        ensures bid { result.0 ≡ net_bid (legs_of self.now) }
        ensures offer { result.1 ≡ net_offer (legs_of self.now) }
        ensures bid_reach { (neg_ℤ (pos 32000000) ≤ℤ result.0) × (result.0 ≤ℤ pos 32000000) }
        ensures offer_reach { (neg_ℤ (pos 32000000) ≤ℤ result.1) × (result.1 ≤ℤ pos 32000000) }
    {
        (self.net_taken(false), self.net_taken(true))
    }
}
