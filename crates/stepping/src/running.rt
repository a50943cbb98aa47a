// Steps carried out, one after another.
ghost use Rattle.std.specs.Prelude.{◌≡◌, length};
ghost use Rattle.ranked.specs.Held.{items, room};
ghost use Rattle.strategies.specs.Strategies.{strategy_legs};
ghost use Rattle.rules.specs.Steps.{trading, orders_after, lots_after, steps};
ghost use Rattle.stepping.specs.Stepping.{told, Ran};

use crate::defined::Defined;
use crate::orders::reduce;
use crate::steps::Step;
use crate::taking::take_legs;
use ranked::RankedList;
use rules::{Execution, Order};
use simple::SimpleBook;
use strategies::Strategy;

// What a step leaves of the orders.
fn settle(orders: &mut RankedList<Order>, step: Step)
    ensures items { items orders.new ≡ orders_after (told step) (items orders.old) }
    ensures room { room orders.new ≡ room orders.old }
{
    let quantity = step.quantity();
    match step {
        Step::Pair { buy, sell, .. } => {
            reduce(orders, buy.number, quantity);
            reduce(orders, sell.number, quantity);
        }
        Step::Legged { order, .. } => reduce(orders, order.number, quantity),
    }
}

// What a step leaves of the lots: a pair takes nothing.
fn take<B: SimpleBook>(book: &mut B, strategy: &Strategy, step: Step)
    ensures lots { B.SimpleBook.lots book.new ≡ lots_after (strategy_legs strategy.now) (told step) (B.SimpleBook.lots book.old) }
    ensures frame { B.SimpleBook.frame book.new ≡ B.SimpleBook.frame book.old }
{
    if let Step::Legged {
        order,
        quantity,
        ..
    } = step
    {
        take_legs(book, strategy.legs(), order.buy, quantity);
    }
}

// What a run of steps came to.
#[derive(Clone, Copy, PartialEq, Eq, Debug)]
pub struct Stepped {
    pub records: usize,
    // whether it ended because no step was possible, and not because the list was full
    pub settled: bool,
}

impl Defined {
    // Step after step, until none is possible or the list has no room.
    pub fn run<B: SimpleBook>(
        &self,
        orders: &mut RankedList<Order>,
        book: &mut B,
        out: &mut [Execution],
    ) -> Stepped
        ensures equation { Ran (steps (strategy_legs self.now.strategy) self.now.number (length out.old) (trading (items orders.old) (B.SimpleBook.lots book.old))) out.old out.new (items orders.new) (B.SimpleBook.lots book.new) result.records result.settled }
        ensures room { room orders.new ≡ room orders.old }
        ensures frame { B.SimpleBook.frame book.new ≡ B.SimpleBook.frame book.old }
    {
        for (records, slot) in out.iter_mut().enumerate() {
            let Some(step) = self.next_step(orders, book) else {
                return Stepped {
                    records,
                    settled: true,
                };
            };
            *slot = step.execution(self.number);
            settle(orders, step);
            take(book, &self.strategy, step);
        }
        Stepped {
            records: out.len(),
            settled: false,
        }
    }
}
