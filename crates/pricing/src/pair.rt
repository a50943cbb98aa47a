// The price at which a buy and a sell trade.
ghost use Rattle.std.specs.Prelude.{◌≡◌, not, ◌&&◌, ◌||◌, pos, ◌+ℤ◌, ◌-ℤ◌, ◌≤ℤ◌, ◌==◌, unsigned_abs};
ghost use Rattle.pricing.specs.Markets.{legs_of};
ghost use Rattle.pricing.specs.Pair.{nth, pair_price};
ghost use Rattle.pricing.specs.Trades.{AllFair, Found, First, Narrower};

use crate::market::NetPrice;
use crate::strategy_market::StrategyMarket;

// How far the higher net price lies above the lower.
fn cents_between(low: i64, high: i64) -> u32
    requires { (low ≤ℤ high) × (high ≤ℤ (low +ℤ pos 100000000)) }
    ensures { result ≡ unsigned_abs (high -ℤ low) }
{
    (high - low) as u32
}

// The price that is tried after `step` others.
fn nth_price(buy_is_older: bool, low: i64, high: i64, step: u32) -> i64
    requires { (low ≤ℤ high) × (pos step ≤ℤ (high -ℤ low)) }
    ensures value { result ≡ nth buy_is_older low high step }
    ensures from_low { low ≤ℤ result }
    ensures to_high { result ≤ℤ high }
{
    if buy_is_older {
        high - i64::from(step)
    } else {
        low + i64::from(step)
    }
}

// Whether the legs make the price exactly, and no Priority Customer's price is matched unless some leg improves.
fn legs_allow(rest: u32, improved: bool, matched: bool) -> bool
    ensures { result ≡ (rest == 0 && (improved || not matched)) }
{
    rest == 0 && (improved || !matched)
}

// The first admissible price of the range, cent by cent from the older order's end.
// No struct of the limits and of who is older is plainer: they are two orders' own, and only `pair_price` passes them on.
// By rule an outer loop over net prices and an inner one over legs, left by a label; of steps, since a range and its `rev` are two types.
// Leg prices by place, as in `read_legs`: nothing is known of an array after an adapter of its iter_mut, so no proof of a zip closes.
fn search(
    market: &StrategyMarket,
    buy_limit: i64,
    sell_limit: i64,
    buy_is_older: bool,
) -> Option<NetPrice>
    ensures { result ≡ pair_price (legs_of market.now) buy_limit sell_limit buy_is_older }
{
    let legs = market.legs();
    let (net_bid, net_offer) = market.net();
    let low = sell_limit.max(net_bid);
    let high = buy_limit.min(net_offer);
    if high < low {
        return None;
    }
    let mut found = None;
    'price: for step in 0..=cents_between(low, high) {
        let price = nth_price(buy_is_older, low, high, step);
        let mut rest = cents_between(price, net_offer);
        let mut prices = [0; 4];
        let (mut matched, mut improved) = (false, false);
        for (i, leg) in legs.iter().enumerate() {
            let cents = leg.cents_of(rest);
            rest -= leg.ratio * cents;
            let leg_price = leg.price_at(cents);
            matched |= leg.is_customer_price(leg_price);
            improved |= leg.is_improved_by(leg_price);
            prices[i] = leg_price;
        }
        if legs_allow(rest, improved, matched) {
            found = Some(NetPrice {
                price,
                legs: prices,
            });
            break 'price;
        }
    }
    found
}

impl StrategyMarket {
    // The price at which a buy and a sell trade, with its leg prices: the first admissible one within both limits,
    // down from the highest if the buy is older, up from the lowest if the sell is.
    pub fn pair_price(
        &self,
        buy_limit: i64,
        sell_limit: i64,
        buy_is_older: bool,
    ) -> Option<NetPrice>
        ensures answer { result ≡ pair_price (legs_of self.now) buy_limit sell_limit buy_is_older }
        ensures found { Found (legs_of self.now) buy_limit sell_limit result }
        ensures first { First (legs_of self.now) buy_limit sell_limit buy_is_older result }
        ensures narrower { Narrower (legs_of self.now) buy_limit sell_limit result }
        ensures fair { AllFair (legs_of self.now) }
    {
        search(self, buy_limit, sell_limit, buy_is_older)
    }
}
