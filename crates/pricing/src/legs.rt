// What an order takes of a leg, what that adds to a net price, and what the leg is priced at.
ghost use Rattle.std.specs.Prelude.{◌≡◌, ℕ, ◌*◌, ◌≤◌, true, pos, neg_ℤ, ◌≤ℤ◌, nat_lt};
ghost use Rattle.pricing.specs.Legs.{width, is_open, part_taken};
ghost use Rattle.pricing.specs.Sound.{leg_sound};
ghost use Rattle.pricing.specs.Prices.{cents, price_at, at_customer, between};
ghost use Rattle.pricing.specs.Legging.{available, price_taken, size_taken};
ghost use Rattle.pricing.specs.Display.{customer_taken};

use crate::limits::WIDEST_MARKET;
use crate::market::LegMarket;
use simple::Best;

impl LegMarket {
    // Whether the bid is below the offer, and not too far.
    pub(crate) fn is_open(&self) -> bool
        ensures { result ≡ is_open self.now }
    {
        self.bid.price < self.offer.price && self.offer.price - self.bid.price <= WIDEST_MARKET
    }

    // The best that an order takes: a buy the offers of bought and the bids of sold legs, a sell the reverse.
    pub(crate) fn taken(&self, buy: bool) -> Best
        ensures price { result.price ≡ price_taken buy self.now }
        ensures size { result.size ≡ size_taken buy self.now }
        ensures customer { nat_lt 0 result.customer ≡ customer_taken buy self.now }
    {
        if buy == self.bought {
            self.offer
        } else {
            self.bid
        }
    }

    // How many strategies the best that an order takes gives.
    pub(crate) fn available(&self, buy: bool) -> u32
        requires { 1 ≤ self.now.ratio }
        ensures { result ≡ available buy self.now }
    {
        self.taken(buy).size / self.ratio
    }

    // What the leg adds to the net price that an order takes.
    pub(crate) fn part_taken(&self, buy: bool) -> i64
        requires { leg_sound self.now ≡ true }
        ensures value { result ≡ part_taken buy self.now }
        ensures high { result ≤ℤ pos 8000000 }
        ensures low { neg_ℤ (pos 8000000) ≤ℤ result }
    {
        let value = i64::from(self.ratio * self.taken(buy).price);
        if self.bought { value } else { -value }
    }

    // The cents that the leg takes of the rest.
    pub(crate) fn cents_of(&self, rest: u32) -> u32
        requires { 1 ≤ self.now.ratio }
        ensures value { result ≡ cents self.now rest }
        ensures fits { self.now.ratio * result ≤ rest }
    {
        self.offer
            .price
            .saturating_sub(self.bid.price)
            .min(rest / self.ratio)
    }

    // The price of the leg once it takes these cents.
    pub(crate) fn price_at(&self, cents: u32) -> u32
        requires { (leg_sound self.now ≡ true) × (cents ≤ width self.now) }
        ensures { result ≡ price_at self.now cents }
    {
        if self.bought {
            self.offer.price - cents
        } else {
            self.bid.price + cents
        }
    }

    // Whether the price lies strictly between the bid and the offer.
    pub(crate) fn is_improved_by(&self, price: u32) -> bool
        ensures { result ≡ between self.now price }
    {
        self.bid.price < price && price < self.offer.price
    }

    // Whether the price is a best bid or offer of which a Priority Customer has a part.
    pub(crate) fn is_customer_price(&self, price: u32) -> bool
        ensures { result ≡ at_customer self.now price }
    {
        [self.bid, self.offer]
            .iter()
            .any(|best| price == best.price && best.customer > 0)
    }
}
