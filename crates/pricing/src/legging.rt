// What an order trades at with the simple book, and how much of it.
ghost use Rattle.std.specs.Prelude.{◌≡◌};
ghost use Rattle.pricing.specs.Markets.{legs_of};
ghost use Rattle.pricing.specs.Legging.{most, reaches, legged_quantity, prices_taken, taken_at, Greatest, Eased};

use crate::market::NetPrice;
use crate::strategy_market::StrategyMarket;

impl StrategyMarket {
    // The most of a quantity that the legs give.
    fn most(&self, buy: bool, quantity: u32) -> u32
        ensures { result ≡ most (legs_of self.now) buy quantity }
    {
        self.legs()
            .iter()
            .map(|leg| leg.available(buy))
            .fold(quantity, u32::min)
    }

    // The prices of the bests that an order takes.
    fn prices_taken(&self, buy: bool) -> [u32; 4]
        ensures { result ≡ prices_taken (legs_of self.now) buy }
    {
        let legs = self.legs();
        let mut prices = [0; 4];
        // by place: tried, the proofs of `array::from_fn(|i| legs.get(i).map_or(0, ..))` and of `prices[..].iter_mut().zip(legs)` did not close
        for (i, leg) in legs.iter().enumerate() {
            prices[i] = leg.taken(buy).price;
        }
        prices
    }

    // Whether a limit is at least the net offer for a buy, at most the net bid for a sell.
    pub(crate) fn is_reached(&self, buy: bool, limit: i64) -> bool
        ensures { result ≡ reaches (legs_of self.now) buy limit }
    {
        let net = self.net_taken(buy);
        if buy { net <= limit } else { limit <= net }
    }

    // How much of an order can be legged: the greatest quantity that the order and the bests have, none where the limit does not reach.
    pub fn legged_quantity(&self, buy: bool, limit: i64, quantity: u32) -> u32
        ensures answer { result ≡ legged_quantity (legs_of self.now) buy limit quantity }
        ensures greatest { Greatest (legs_of self.now) buy limit quantity result }
        ensures eased { Eased (legs_of self.now) buy limit quantity result }
    {
        if self.is_reached(buy, limit) {
            self.most(buy, quantity)
        } else {
            0
        }
    }

    // What a legged order trades at: the net price on the other side, and the prices of the bests that it takes.
    pub fn taken_at(&self, buy: bool) -> NetPrice
        ensures { result ≡ taken_at (legs_of self.now) buy }
    {
        NetPrice {
            price: self.net_taken(buy),
            legs: self.prices_taken(buy),
        }
    }
}
