// The questions: they change nothing.
ghost use Rattle.std.specs.Prelude.{◌≡◌, if◌then◌else◌, None};
ghost use Rattle.std.specs.List.{slice_get};
ghost use Rattle.std.specs.Option.{option_map};
ghost use Rattle.pricing.specs.Markets.{legs_of};
ghost use Rattle.rules.specs.States.{strategy_at};
ghost use Rattle.rules.specs.Questions.{net_answer, display_answer, markets_in};
ghost use Rattle.engine.specs.Model.{model};

use crate::held::Engine;
use pricing::{StrategyMarket, displayed_price, market_of, net_market};
use refusals::{Refusal, Station};
use rules::Order;
use simple::SimpleBook;

impl<'a> Engine<'a> {
    // Net bid and net offer of a strategy, or nothing while it is not free.
    pub fn net_market<B: SimpleBook>(
        &self,
        book: &mut B,
        strategy: u32,
    ) -> Result<Option<(i64, i64)>, Refusal>
        ensures answer { result ≡ net_answer (model self.now) (B.SimpleBook.lots book.old) strategy }
        ensures lots { B.SimpleBook.lots book.new ≡ B.SimpleBook.lots book.old }
        ensures frame { B.SimpleBook.frame book.new ≡ B.SimpleBook.frame book.old }
    {
        let defined = self.defined(Station::Net, strategy)?;
        Ok(net_market(book, &defined.strategy))
    }

    // The markets of a strategy, or nothing unless it is defined and free.
    fn market_in<B: SimpleBook>(&self, book: &mut B, strategy: u32) -> Option<StrategyMarket>
        ensures answer { option_map legs_of result ≡ markets_in (B.SimpleBook.lots book.old) (strategy_at (model self.now).strategies strategy) }
        ensures lots { B.SimpleBook.lots book.new ≡ B.SimpleBook.lots book.old }
        ensures frame { B.SimpleBook.frame book.new ≡ B.SimpleBook.frame book.old }
    {
        let defined = self.table.strategy(strategy)?;
        market_of(book, &defined.strategy)
    }

    // The price that an order shows, or nothing.
    pub fn display<B: SimpleBook>(&self, book: &mut B, number: u32) -> Result<Option<i64>, Refusal>
        ensures answer { result ≡ display_answer (model self.now) (B.SimpleBook.lots book.old) number }
        ensures lots { B.SimpleBook.lots book.new ≡ B.SimpleBook.lots book.old }
        ensures frame { B.SimpleBook.frame book.new ≡ B.SimpleBook.frame book.old }
    {
        let order = self.resting(Station::Display, number)?;
        let market = self.market_in(book, order.strategy);
        Ok(displayed_price(market, order.buy, order.limit, order.working_limit()))
    }

    // The order at a place, in rank; nothing on memory of other places.
    pub fn order_at(&self, place: usize) -> Option<Order>
        ensures { result ≡ (if (model self.now).ready then slice_get (model self.now).orders place else None) }
    {
        if self.is_ready() {
            self.orders.get(place)
        } else {
            None
        }
    }
}
