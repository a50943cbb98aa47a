// The calls, each with its equation to the rules. The call of a message needs no more; the law is added in entry.rt.
ghost use Rattle.std.specs.Prelude.{◌≡◌, ℕ, [], length, take, ◌==◌};
ghost use Rattle.simple.specs.Lots.{Lots};
ghost use Rattle.rules.specs.Limits.{order_places};
ghost use Rattle.rules.specs.States.{opened};
ghost use Rattle.rules.specs.Events.{define, place, evaluate, cancel, answer_define, answer_place, answer_evaluate, answer_cancel, records_told, event, apart, written_over};
ghost use Rattle.rules.specs.Runs.{Run, Happens};
ghost use Rattle.engine.specs.Model.{model};

use crate::held::{Engine, StrategyTable};
use carrying::{entered, evaluate_with, place_with};
use ranked::RankedList;
use refusals::{Refusal, Station};
use rules::{Evaluated, Execution, NewOrder, Order, Placed};
use simple::SimpleBook;
use stepping::drop_order;
use strategies::{Leg, StrategyRow};

impl<'a> Engine<'a> {
    // An engine with no strategy and no order, however the memory was filled.
    pub fn open(memory: &'a mut [Order]) -> Self
        ensures state { model result ≡ opened (length memory.old == order_places) }
        ensures runs { Run [] (model result) }
    {
        Engine {
            orders: RankedList::open(memory),
            table: StrategyTable::new(),
            accepted: 0,
        }
    }

    // Defines a strategy, and answers its number.
    pub(crate) fn do_define(&mut self, count: u32, legs: &[Leg; 4]) -> Result<u32, Refusal>
        ensures equation { (b : Lots) (k : ℕ) → Happens (model self.old) (apart (define (record { count = count; legs = legs.now })) b k (answer_define result)) (model self.new) }
    {
        let row = StrategyRow { count, legs: *legs };
        self.check_define(&row)?;
        let number = self.table.len() as u32;
        self.table.push(row);
        Ok(number)
    }

    // Cancels the order of a number, and answers what was left of it.
    pub(crate) fn do_cancel(&mut self, number: u32) -> Result<u32, Refusal>
        ensures equation { (b : Lots) (k : ℕ) → Happens (model self.old) (apart (cancel number) b k (answer_cancel result)) (model self.new) }
    {
        let order = self.resting(Station::Cancel, number)?;
        drop_order(&mut self.orders, number);
        Ok(order.quantity)
    }

    // Steps a strategy until none is possible or the list has no room.
    pub(crate) fn do_evaluate<B: SimpleBook>(
        &mut self,
        book: &mut B,
        executions: &mut [Execution],
        strategy: u32,
    ) -> Result<Evaluated, Refusal>
        ensures equation { Happens (model self.old) (event (evaluate strategy) (B.SimpleBook.lots book.old) (length executions.old) (answer_evaluate result) executions.new (B.SimpleBook.lots book.new)) (model self.new) }
        ensures list { executions.new ≡ written_over (take (records_told (answer_evaluate result)) executions.new) executions.old }
        ensures frame { B.SimpleBook.frame book.new ≡ B.SimpleBook.frame book.old }
    {
        let strategy = self.defined(Station::Evaluate, strategy)?;
        Ok(evaluate_with(&mut self.orders, book, executions, &strategy))
    }

    // Accepts an order, and steps its strategy.
    pub(crate) fn do_place<B: SimpleBook>(
        &mut self,
        book: &mut B,
        executions: &mut [Execution],
        order: NewOrder,
    ) -> Result<Placed, Refusal>
        ensures equation { Happens (model self.old) (event (place order) (B.SimpleBook.lots book.old) (length executions.old) (answer_place result) executions.new (B.SimpleBook.lots book.new)) (model self.new) }
        ensures list { executions.new ≡ written_over (take (records_told (answer_place result)) executions.new) executions.old }
        ensures frame { B.SimpleBook.frame book.new ≡ B.SimpleBook.frame book.old }
    {
        let strategy = self.check_place(&order)?;
        let number = self.accepted + 1;
        let _ = self.orders.insert(entered(number, order));
        self.accepted = number;
        Ok(place_with(&mut self.orders, book, executions, &strategy, order, number))
    }
}
