// Which step comes next.
ghost use Rattle.std.specs.Prelude.{◌≡◌, Some};
ghost use Rattle.std.specs.Option.{option_map};
ghost use Rattle.ranked.specs.Held.{items};
ghost use Rattle.strategies.specs.Strategies.{strategy_legs};
ghost use Rattle.pricing.specs.Markets.{legs_of};
ghost use Rattle.rules.specs.Steps.{trading, pair_of, leg_of, older, step_with, step_of, rests};
ghost use Rattle.stepping.specs.Stepping.{told};

use crate::defined::Defined;
use crate::orders::best_order;
use crate::steps::Step;
use pricing::{StrategyMarket, market_of};
use ranked::RankedList;
use rules::Order;
use simple::SimpleBook;

// The step of the best buy and the best sell, if they trade.
fn pair_of(market: &StrategyMarket, buy: Option<Order>, sell: Option<Order>) -> Option<Step>
    ensures { option_map told result ≡ pair_of (legs_of market.now) buy sell }
{
    let buy = buy?;
    let sell = sell?;
    let at = market.pair_price(
        buy.working_limit(),
        sell.working_limit(),
        buy.number < sell.number,
    )?;
    Some(Step::Pair { buy, sell, at })
}

// The step of an order that can be legged.
fn leg_of(market: &StrategyMarket, order: Option<Order>) -> Option<Step>
    ensures { option_map told result ≡ leg_of (legs_of market.now) order }
{
    let order = order?;
    let quantity = market.legged_quantity(order.buy, order.working_limit(), order.quantity);
    if quantity < 1 {
        return None;
    }
    let at = market.taken_at(order.buy);
    Some(Step::Legged {
        order,
        quantity,
        at,
    })
}

// Of two legged orders the older.
fn older(buy: Option<Step>, sell: Option<Step>) -> Option<Step>
    ensures { option_map told result ≡ older (option_map told buy) (option_map told sell) }
{
    match (buy, sell) {
        (Some(x), Some(y)) if x.number() < y.number() => buy,
        (_, None) => buy,
        _ => sell,
    }
}

// A pair first, else legging, for the best buy and the best sell.
fn step_with(market: &StrategyMarket, buy: Option<Order>, sell: Option<Order>) -> Option<Step>
    ensures { option_map told result ≡ step_with (legs_of market.now) buy sell }
{
    pair_of(market, buy, sell).or_else(|| older(leg_of(market, buy), leg_of(market, sell)))
}

// That the book's lists and frame stay is said by each function, here and in what stands above: it is the caller's book, so no
// type of this crate can hold that.
impl Defined {
    // The next step; nothing while the strategy is not free.
    pub fn next_step<B: SimpleBook>(&self, orders: &RankedList<Order>, book: &mut B) -> Option<Step>
        ensures answer { option_map told result ≡ step_of (strategy_legs self.now.strategy) self.now.number (trading (items orders.now) (B.SimpleBook.lots book.old)) }
        ensures lots { B.SimpleBook.lots book.new ≡ B.SimpleBook.lots book.old }
        ensures frame { B.SimpleBook.frame book.new ≡ B.SimpleBook.frame book.old }
    {
        let market = market_of(book, &self.strategy)?;
        let buy = best_order(orders, self.number, true);
        let sell = best_order(orders, self.number, false);
        step_with(&market, buy, sell)
    }

    // Whether no step is possible.
    pub fn rests<B: SimpleBook>(&self, orders: &RankedList<Order>, book: &mut B) -> bool
        ensures answer { result ≡ rests (strategy_legs self.now.strategy) self.now.number (trading (items orders.now) (B.SimpleBook.lots book.old)) }
        ensures lots { B.SimpleBook.lots book.new ≡ B.SimpleBook.lots book.old }
        ensures frame { B.SimpleBook.frame book.new ≡ B.SimpleBook.frame book.old }
    {
        self.next_step(orders, book).is_none()
    }
}
