// The commands of a session, over any book that has calls of its own.
ghost use Rattle.std.specs.Prelude.{◌≡◌};
ghost use Rattle.holds.specs.Hold.{layer_lots};
ghost use Rattle.replay.specs.Sessions.{CallAnswers, CallLists, said_answer, said_leaves, said_marks, unopened_answer};

use crate::answer::{Answer, Complaint};
use crate::command::{BookCall, Command};
use crate::layer::call_layer;
use holds::HoldLayer;
use simple::SimpleBook;

// A simple book as a session drives it: besides the calls of every book it has some of its own.
pub(crate) trait SessionBook: SimpleBook {
    // what its own calls are answered with
    ghost answers: { Self → CallAnswers };

    // the lists that they leave
    ghost leaves: { Self → CallLists };

    // Makes a call, unless the book has no such call.
    fn call(&mut self, call: BookCall) -> Answer
        ensures answer { result ≡ answers self.old call }
        ensures lots { Self.SimpleBook.lots self.new ≡ leaves self.old call };
}

// The book behind a reference.
impl<'a, B: SessionBook> SessionBook for &'a mut B {
    ghost answers = { λ b. B.SessionBook.answers b.now };

    ghost leaves = { λ b. B.SessionBook.leaves b.now };

    fn call(&mut self, call: BookCall) -> Answer {
        (**self).call(call)
    }
}

// The answer to a line before the first book is opened.
pub(crate) fn answer_unopened(said: Result<Command, Complaint>) -> Answer
    ensures { result ≡ unopened_answer said }
{
    match said {
        Ok(Command::Open(_)) => Answer::Done,
        Ok(Command::ToBook(_)) | Ok(Command::ToLayer(_)) => Answer::Wrong(Complaint::Unopened),
        Err(complaint) => Answer::Wrong(complaint),
    }
}

// Makes a call of the book below a layer.
fn call_below<B: SessionBook>(layer: HoldLayer<B>, call: BookCall) -> (HoldLayer<B>, Answer)
    ensures answer { result.1 ≡ B.SessionBook.answers layer.book call }
    ensures lots { B.SimpleBook.lots result.0.book ≡ B.SessionBook.leaves layer.book call }
    ensures marks { result.0.marks ≡ layer.marks }
{
    let (mut book, marks) = layer.into_parts();
    let answer = book.call(call);
    (HoldLayer::from_parts(book, marks), answer)
}

// The answer to a line of a session, and the layer afterwards.
pub(crate) fn answer_to<B: SessionBook>(
    mut layer: HoldLayer<B>,
    said: Result<Command, Complaint>,
) -> (HoldLayer<B>, Answer)
    ensures answer { result.1 ≡ said_answer (B.SessionBook.answers layer.book) (layer_lots B.SimpleBook.lots layer) said }
    ensures lots { B.SimpleBook.lots result.0.book ≡ said_leaves (B.SessionBook.leaves layer.book) layer.marks (B.SimpleBook.lots layer.book) said }
    ensures marks { result.0.marks ≡ said_marks layer.marks said }
{
    match said {
        Ok(Command::Open(_)) => (layer, Answer::Done),
        Ok(Command::ToBook(call)) => call_below(layer, call),
        Ok(Command::ToLayer(call)) => {
            let answer = call_layer(&mut layer, call);
            (layer, answer)
        }
        Err(complaint) => (layer, Answer::Wrong(complaint)),
    }
}
