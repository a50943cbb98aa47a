// A quote board in a session: it has quotes, and neither posts nor withdrawals.
ghost use Rattle.replay.specs.Sessions.{board_answers, board_leaves};

use crate::answer::{Answer, Complaint};
use crate::command::BookCall;
use crate::layer::done_answer;
use crate::sessions::SessionBook;
use boards::QuoteBoard;

impl SessionBook for QuoteBoard {
    ghost answers = { board_answers };

    ghost leaves = { board_leaves };

    fn call(&mut self, call: BookCall) -> Answer {
        match call {
            BookCall::Quote(entry) => done_answer(self.quote(entry.series, entry.side, entry.lot)),
            BookCall::Post(_) | BookCall::Withdraw(_) => Answer::Wrong(Complaint::Unfit),
        }
    }
}
