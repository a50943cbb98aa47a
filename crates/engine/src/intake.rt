// Messages taken in: each is read, and the call that it asks for is made.
ghost use Rattle.std.specs.Prelude.{◌≡◌, ℕ, ◌^◌, ◌<◌, map, length, take};
ghost use Rattle.rules.specs.Events.{order_said, leg_said, call_said, call_of, answer_intake, records_told, event, written_over};
ghost use Rattle.rules.specs.Runs.{Happens};
ghost use Rattle.rules.specs.Laws.{Always};
ghost use Rattle.engine.specs.Model.{model};
ghost use Rattle.engine.specs.Messages.{NarrowOrder, NarrowLeg, NarrowLegs, Narrow, answer_asked};

use crate::held::Engine;
use contents::{LegFields, LegSide, Message, PlaceFields, TimeInForce};
use messages::read;
use refusals::Refusal;
use rules::{Execution, Intake, IntakeFault, NewOrder};
use simple::SimpleBook;
use strategies::Leg;

// The order that the fields of a message say; the reader lets no time in force through that has no code. No `From`, as for a leg.
fn order_of(fields: PlaceFields) -> NewOrder
    requires { NarrowOrder fields }
    ensures { result ≡ order_said fields }
{
    NewOrder {
        strategy: fields.strategy as u32,
        side: fields.side,
        market: fields.market,
        limit: fields.limit,
        time_in_force: TimeInForce::try_from(fields.time_in_force).unwrap_or(TimeInForce::Day),
        quantity: fields.quantity as u32,
    }
}

// The leg that the fields of a message say. No `From`: both types are other crates', and the numbers have to fit.
fn leg_of(fields: LegFields) -> Leg
    requires { NarrowLeg fields }
    ensures { result ≡ leg_said fields }
{
    Leg {
        series: fields.series as u32,
        bought: fields.side == LegSide::Bought,
        ratio: fields.ratio as u32,
    }
}

// The four legs that a message says.
fn legs_of(fields: [LegFields; 4]) -> [Leg; 4]
    requires { NarrowLegs fields }
    ensures { result ≡ map leg_said fields }
{
    fields.map(leg_of)
}

impl Engine<'_> {
    // Makes the call that a message asks for.
    fn act<B: SimpleBook>(
        &mut self,
        book: &mut B,
        executions: &mut [Execution],
        message: Message,
    ) -> Result<Intake, Refusal>
        requires { Narrow message }
        ensures equation { Happens (model self.old) (event (call_said message) (B.SimpleBook.lots book.old) (length executions.old) (answer_asked result) executions.new (B.SimpleBook.lots book.new)) (model self.new) }
        ensures list { executions.new ≡ written_over (take (records_told (answer_asked result)) executions.new) executions.old }
        ensures frame { B.SimpleBook.frame book.new ≡ B.SimpleBook.frame book.old }
    {
        match message {
            Message::Place(fields) => {
                let order = order_of(fields);
                Ok(Intake::Placed(self.do_place(book, executions, order)?))
            }
            Message::Cancel { number } => Ok(Intake::Cancelled(self.do_cancel(number as u32)?)),
            Message::Evaluate { strategy } => Ok(Intake::Evaluated(self.do_evaluate(
                book,
                executions,
                strategy as u32,
            )?)),
            Message::Define(row) => {
                Ok(Intake::Defined(self.do_define(row.count as u32, &legs_of(row.legs))?))
            }
        }
    }

    // Reads a message and makes its call.
    fn do_intake<B: SimpleBook>(
        &mut self,
        book: &mut B,
        executions: &mut [Execution],
        message: &[u8],
    ) -> Result<Intake, IntakeFault>
        ensures equation { Happens (model self.old) (event (call_of message.now) (B.SimpleBook.lots book.old) (length executions.old) (answer_intake result) executions.new (B.SimpleBook.lots book.new)) (model self.new) }
        ensures list { executions.new ≡ written_over (take (records_told (answer_intake result)) executions.new) executions.old }
        ensures frame { B.SimpleBook.frame book.new ≡ B.SimpleBook.frame book.old }
    {
        self.check_ready()?;
        let received = read(message)?;
        Ok(self.act(book, executions, received.message)?)
    }

    // Takes a message in: its call counts like a direct one, and a message that cannot be read changes nothing.
    pub fn intake<B: SimpleBook>(
        &mut self,
        book: &mut B,
        executions: &mut [Execution],
        message: &[u8],
    ) -> Result<Intake, IntakeFault>
        ensures equation { Happens (model self.old) (event (call_of message.now) (B.SimpleBook.lots book.old) (length executions.old) (answer_intake result) executions.new (B.SimpleBook.lots book.new)) (model self.new) }
        ensures runs { Always (model self.old) (event (call_of message.now) (B.SimpleBook.lots book.old) (length executions.old) (answer_intake result) executions.new (B.SimpleBook.lots book.new)) (model self.new) }
        ensures list { executions.new ≡ written_over (take (records_told (answer_intake result)) executions.new) executions.old }
        ensures frame { B.SimpleBook.frame book.new ≡ B.SimpleBook.frame book.old }
    {
        self.do_intake(book, executions, message)
    }
}
