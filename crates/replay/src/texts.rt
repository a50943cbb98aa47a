// The text of an answer.
ghost use Rattle.std.specs.Prelude.{◌≡◌, Some, IfOk, string_bytes};
ghost use Rattle.replay.specs.Texts.{complaint_text, answer_text, reply_text};

use crate::answer::{Answer, Complaint};
use replies::{error_line, printed, refusal_text};
use simple::Best;
use std::alloc::{AllocError, Global};
use std::fmt;

impl fmt::Display for Complaint {
    ghost output = { λ c. Some (complaint_text c) };

    fn fmt<W: fmt::Write>(&self, f: &mut fmt::Formatter<W>) -> fmt::Result {
        f.write_str(match self {
            Complaint::Unknown => "unknown command",
            Complaint::Misworded => "not the words that this command takes",
            Complaint::Unopened => "no book is open",
            Complaint::Unfit => "this kind of book has no such call",
        })
    }
}

// What is printed of the answer to a line.
fn answer_text(heap: Global, line: u64, answer: Answer) -> Result<String, AllocError>
    ensures { IfOk result (λ t. string_bytes t ≡ answer_text line answer) }
{
    match answer {
        Answer::Done => "done".to_string(heap),
        Answer::Lot(number) => format!(in heap; "lot {number}"),
        Answer::Best(None) => "best none".to_string(heap),
        Answer::Best(Some(best)) => {
            let Best {
                price,
                size,
                customer,
            } = best;
            format!(in heap; "best price {price} size {size} customer {customer}")
        }
        Answer::Refused(refusal) => refusal_text(heap, &refusal),
        Answer::Wrong(complaint) => error_line(heap, line, complaint.to_string(heap)?.as_str()),
    }
}

// What is printed of a line: its words, and the answer below them.
pub(crate) fn reply_text(
    heap: Global,
    line: u64,
    words: &str,
    answer: Answer,
) -> Result<String, AllocError>
    ensures { IfOk result (λ t. string_bytes t ≡ reply_text line words.now answer) }
{
    let text = answer_text(heap, line, answer)?;
    printed(heap, words, text.as_str())
}
