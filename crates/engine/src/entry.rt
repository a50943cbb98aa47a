// The public calls: each answers and leaves what the rules say, and keeps the law over every list of calls.
ghost use Rattle.std.specs.Prelude.{◌≡◌, ℕ, length, take};
ghost use Rattle.simple.specs.Lots.{Lots, Lawful};
ghost use Rattle.rules.specs.Events.{define, place, evaluate, cancel, answer_define, answer_place, answer_evaluate, answer_cancel, records_told, event, apart, written_over};
ghost use Rattle.rules.specs.Runs.{Happens};
ghost use Rattle.rules.specs.Laws.{Always};
ghost use Rattle.engine.specs.Model.{model};

use crate::held::Engine;
use refusals::Refusal;
use rules::{Evaluated, Execution, NewOrder, Placed};
use simple::SimpleBook;
use strategies::Leg;

impl Engine<'_> {
    // Defines a strategy of so many of the legs, which are four as in a message, and answers its number. It sees no book, so its
    // promise is for any.
    pub fn define(&mut self, count: u32, legs: &[Leg; 4]) -> Result<u32, Refusal>
        ensures equation { (b : Lots) (k : ℕ) → Happens (model self.old) (apart (define (record { count = count; legs = legs.now })) b k (answer_define result)) (model self.new) }
        ensures runs { (b : Lots) (k : ℕ) → Lawful b → Always (model self.old) (apart (define (record { count = count; legs = legs.now })) b k (answer_define result)) (model self.new) }
    {
        self.do_define(count, legs)
    }

    // Places an order: it gets the next number, and its strategy is stepped until no step is possible or the list is full;
    // an immediate-or-cancel remainder is then cancelled.
    pub fn place<B: SimpleBook>(
        &mut self,
        book: &mut B,
        executions: &mut [Execution],
        order: NewOrder,
    ) -> Result<Placed, Refusal>
        ensures equation { Happens (model self.old) (event (place order) (B.SimpleBook.lots book.old) (length executions.old) (answer_place result) executions.new (B.SimpleBook.lots book.new)) (model self.new) }
        ensures runs { Always (model self.old) (event (place order) (B.SimpleBook.lots book.old) (length executions.old) (answer_place result) executions.new (B.SimpleBook.lots book.new)) (model self.new) }
        ensures list { executions.new ≡ written_over (take (records_told (answer_place result)) executions.new) executions.old }
        ensures frame { B.SimpleBook.frame book.new ≡ B.SimpleBook.frame book.old }
    {
        self.do_place(book, executions, order)
    }

    // Cancels the order of a number, and answers what was left of it. It sees no book, so its promise is for any.
    pub fn cancel(&mut self, number: u32) -> Result<u32, Refusal>
        ensures equation { (b : Lots) (k : ℕ) → Happens (model self.old) (apart (cancel number) b k (answer_cancel result)) (model self.new) }
        ensures runs { (b : Lots) (k : ℕ) → Lawful b → Always (model self.old) (apart (cancel number) b k (answer_cancel result)) (model self.new) }
    {
        self.do_cancel(number)
    }

    // Steps a strategy until no step is possible or the list is full.
    pub fn evaluate<B: SimpleBook>(
        &mut self,
        book: &mut B,
        executions: &mut [Execution],
        strategy: u32,
    ) -> Result<Evaluated, Refusal>
        ensures equation { Happens (model self.old) (event (evaluate strategy) (B.SimpleBook.lots book.old) (length executions.old) (answer_evaluate result) executions.new (B.SimpleBook.lots book.new)) (model self.new) }
        ensures runs { Always (model self.old) (event (evaluate strategy) (B.SimpleBook.lots book.old) (length executions.old) (answer_evaluate result) executions.new (B.SimpleBook.lots book.new)) (model self.new) }
        ensures list { executions.new ≡ written_over (take (records_told (answer_evaluate result)) executions.new) executions.old }
        ensures frame { B.SimpleBook.frame book.new ≡ B.SimpleBook.frame book.old }
    {
        self.do_evaluate(book, executions, strategy)
    }
}
