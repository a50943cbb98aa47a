// The markets of a strategy's legs, read from any simple book.
ghost use Rattle.std.specs.Prelude.{◌≡◌, ℕ, ◌≤◌, true, IfSome};
ghost use Rattle.std.specs.Option.{option_map};
ghost use Rattle.strategies.specs.Lawful.{LawfulLegs, PlacedLegs, RatioFits};
ghost use Rattle.strategies.specs.Strategies.{strategy_legs};
ghost use Rattle.pricing.specs.Sound.{leg_sound};
ghost use Rattle.pricing.specs.Markets.{legs_of};
ghost use Rattle.pricing.specs.Reading.{leg_market, markets_of, net_market, Closed};

use crate::market::LegMarket;
use crate::strategy_market::StrategyMarket;
use simple::{Best, Side, SimpleBook};
use strategies::{LEG_PLACES, Leg, Strategy};

// A place without a leg.
const NO_BEST: Best = Best {
    price: 0,
    size: 0,
    customer: 0,
};

const NO_LEG: LegMarket = LegMarket {
    bought: false,
    ratio: 0,
    bid: NO_BEST,
    offer: NO_BEST,
};

// Each function says of the book that it is left as it was: it is the caller's, so no type of this crate can hold that.

// The market of a leg that is open: both sides have a lot, and the bid is below the offer and not too far.
fn leg_market<B: SimpleBook>(book: &mut B, leg: Leg) -> Option<LegMarket>
    requires { RatioFits leg }
    ensures answer { result ≡ leg_market (B.SimpleBook.lots book.old) leg }
    ensures lots { B.SimpleBook.lots book.new ≡ B.SimpleBook.lots book.old }
    ensures frame { B.SimpleBook.frame book.new ≡ B.SimpleBook.frame book.old }
    ensures sound { IfSome result (λ m. leg_sound m ≡ true) }
{
    let market = LegMarket {
        bought: leg.bought,
        ratio: leg.ratio,
        bid: book.best(leg.series, Side::Bid)?,
        offer: book.best(leg.series, Side::Offer)?,
    };
    market.is_open().then_some(market)
}

// The markets of the legs, where every leg is open.
fn read_legs<B: SimpleBook>(book: &mut B, legs: &[Leg]) -> Option<StrategyMarket>
    requires { (LawfulLegs legs.now) × (PlacedLegs legs.now) }
    ensures answer { option_map legs_of result ≡ markets_of (B.SimpleBook.lots book.old) legs.now }
    ensures lots { B.SimpleBook.lots book.new ≡ B.SimpleBook.lots book.old }
    ensures frame { B.SimpleBook.frame book.new ≡ B.SimpleBook.frame book.old }
{
    let mut four = [NO_LEG; LEG_PLACES];
    // by place: tried, the proof of `four.iter_mut().zip(legs)` did not close: of what its iter_mut wrote, a zip tells nothing, in an array or a slice
    for (i, leg) in legs.iter().enumerate() {
        four[i] = leg_market(book, *leg)?;
    }
    Some(StrategyMarket {
        legs: four,
        count: legs.len(),
    })
}

// The markets of a strategy's legs, or nothing unless the strategy is free: then no net price of it is admissible.
// Each leg and side is read once, and the book is left as it was.
pub fn market_of<B: SimpleBook>(book: &mut B, strategy: &Strategy) -> Option<StrategyMarket>
    ensures answer { option_map legs_of result ≡ markets_of (B.SimpleBook.lots book.old) (strategy_legs strategy.now) }
    ensures closed { Closed (B.SimpleBook.lots book.old) (strategy_legs strategy.now) (option_map legs_of result) }
    ensures lots { B.SimpleBook.lots book.new ≡ B.SimpleBook.lots book.old }
    ensures frame { B.SimpleBook.frame book.new ≡ B.SimpleBook.frame book.old }
{
    read_legs(book, strategy.legs())
}

// Net bid and net offer, or nothing unless the strategy is free.
pub fn net_market<B: SimpleBook>(book: &mut B, strategy: &Strategy) -> Option<(i64, i64)>
    ensures answer { result ≡ net_market (B.SimpleBook.lots book.old) (strategy_legs strategy.now) }
    ensures lots { B.SimpleBook.lots book.new ≡ B.SimpleBook.lots book.old }
    ensures frame { B.SimpleBook.frame book.new ≡ B.SimpleBook.frame book.old }
{
    let market = market_of(book, strategy)?;
    Some(market.net())
}
