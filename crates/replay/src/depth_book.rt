// A depth book in a session: it has posts and withdrawals, and no quotes.
ghost use Rattle.std.specs.Prelude.{◌≡◌, IfOk, vec_len};
ghost use Rattle.depth.specs.Limits.{lot_places};
ghost use Rattle.replay.specs.Sessions.{depth_answers, depth_leaves};

use crate::answer::{Answer, Complaint};
use crate::command::BookCall;
use crate::layer::done_answer;
use crate::sessions::SessionBook;
use depth::{DepthBook, LOT_PLACES};
use lots::PostedLot;
use simple::{Lot, Side};
use std::alloc::{AllocError, Global};

impl<'a> SessionBook for DepthBook<'a> {
    ghost answers = { depth_answers };

    ghost leaves = { depth_leaves };

    fn call(&mut self, call: BookCall) -> Answer {
        match call {
            BookCall::Quote(_) => Answer::Wrong(Complaint::Unfit),
            BookCall::Post(entry) => self
                .post(entry.series, entry.side, entry.lot)
                .map_or_else(Answer::Refused, Answer::Lot),
            BookCall::Withdraw(lot) => done_answer(self.withdraw(lot)),
        }
    }
}

// Places for as many lots as a depth book can have.
pub(crate) fn blank_lots(heap: Global) -> Result<Vec<PostedLot>, AllocError>
    ensures { IfOk result (λ v. vec_len v ≡ lot_places) }
{
    let lot = Lot {
        price: 0,
        size: 0,
        customer: false,
    };
    let blank = PostedLot {
        series: 0,
        side: Side::Bid,
        lot,
        number: 0,
    };
    vec![in heap; blank; LOT_PLACES]
}
