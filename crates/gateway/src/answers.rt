// What is printed of a line.
ghost use Rattle.std.specs.Prelude.{◌≡◌, IfOk, vec_items, string_bytes};
ghost use Rattle.std.specs.Option.{option_map};
ghost use Rattle.messages.specs.Reading.{read_of};
ghost use Rattle.messages.specs.Writing.{write_answer, written};
ghost use Rattle.text.specs.Words.{lent};
ghost use Rattle.gateway.specs.Commands.{bytes_in, message_in};
ghost use Rattle.gateway.specs.Texts.{gap_before, bytes_text};
ghost use Rattle.gateway.specs.Answers.{warning_of, reading_text, reading_outcome, writing_text, room, line_bytes, complaint_of, other_reply, other_outcome, reply, outcome, line_text};

use crate::commands::message_in;
use crate::tally::{Complaint, Outcome};
use crate::texts::{is_beyond, message_text, warning_text};
use contents::{Message, Received};
use hex_bytes::{hex_byte, push_hex_byte};
use messages::{read, write};
use replies::{error_line, printed, refusal_text};
use std::alloc::{AllocError, Global};
use text::printable::printable_line;

// What is printed of a line, and what came of it.
#[derive(Drop)]
pub(crate) struct Reply {
    pub(crate) text: String,
    pub(crate) outcome: Outcome,
}

// The warning of a message, if it is warned of.
fn warning_of(heap: Global, message: &Message) -> Result<Option<String>, AllocError>
    ensures { IfOk result (λ o. option_map string_bytes o ≡ warning_of message.now) }
{
    match message {
        Message::Place(order) if is_beyond(order.limit) => {
            Ok(Some(warning_text(heap, order.limit)?))
        }
        _ => Ok(None),
    }
}

// What is printed of bytes that were given to read.
fn reading(heap: Global, bytes: &[u8]) -> Result<Reply, AllocError>
    ensures { IfOk result (λ x. (string_bytes x.text ≡ reading_text (read_of bytes.now)) × (x.outcome ≡ reading_outcome (read_of bytes.now))) }
{
    match read(bytes) {
        Ok(received) => {
            let said = message_text(heap, &received)?;
            let warning = warning_of(heap, &received.message)?;
            let outcome = Outcome::Read {
                warned: warning.is_some(),
            };
            let text = match warning {
                Some(warning) => format!(in heap; "{said}\n{warning}")?,
                None => said,
            };
            Ok(Reply { text, outcome })
        }
        Err(fault) => {
            let text = refusal_text(heap, &fault.into())?;
            Ok(Reply {
                text,
                outcome: Outcome::Refused,
            })
        }
    }
}

// What parts the byte at a place from the one before it.
fn gap_before(i: usize) -> &'static str
    ensures { result.now ≡ gap_before i }
{
    if i == 0 { "" } else { " " }
}

// Bytes as two digits each, with a space between them.
fn bytes_text(heap: Global, bytes: &[u8]) -> Result<String, AllocError>
    ensures { IfOk result (λ t. string_bytes t ≡ bytes_text bytes.now) }
{
    let mut text = String::new(heap);
    // counted: no plainer without, as a space stands before each byte but the first
    for (i, byte) in bytes.iter().enumerate() {
        text.push_str(gap_before(i))?;
        push_hex_byte(&mut text, *byte)?;
    }
    Ok(text)
}

// What is printed of a message that is written into 14 bytes of zeros.
fn writing(heap: Global, message: &Message) -> Result<String, AllocError>
    ensures { IfOk result (λ t. string_bytes t ≡ writing_text (write_answer message.now room) (written message.now room)) }
{
    let mut bytes = [0u8; 14];
    match write(message, &mut bytes) {
        Ok(()) => bytes_text(heap, &bytes),
        Err(fault) => refusal_text(heap, &fault.into()),
    }
}

// The bytes of a line, if each word is one.
fn bytes_in(heap: Global, words: &[&[u8]]) -> Result<Option<Vec<u8>>, AllocError>
    ensures { IfOk result (λ o. option_map vec_items o ≡ bytes_in (lent words.now)) }
{
    // a loop: the library's contract does not say what a collect into an Option gives
    let mut bytes = Vec::new(heap);
    for word in words {
        let Some(byte) = hex_byte(word) else {
            return Ok(None);
        };
        bytes.push(byte)?;
    }
    Ok(Some(bytes))
}

// The bytes of a line, if they are at most 64.
fn line_bytes(heap: Global, words: &[&[u8]]) -> Result<Option<Vec<u8>>, AllocError>
    ensures { IfOk result (λ o. option_map vec_items o ≡ line_bytes (lent words.now)) }
{
    if words.len() > 64 {
        Ok(None)
    } else {
        bytes_in(heap, words)
    }
}

// What is wrong with a line that is neither bytes nor a command.
fn complaint_of(words: &[&[u8]]) -> Complaint
    ensures { result ≡ complaint_of (lent words.now) }
{
    match words {
        [b"write", ..] => Complaint::Unwritten,
        _ if words.len() > 64 => Complaint::Overlong,
        _ => Complaint::Unknown,
    }
}

// The answer to a line that is not bytes: a message to write, or an error.
fn other_reply(heap: Global, line: u64, words: &[&[u8]]) -> Result<Reply, AllocError>
    ensures { IfOk result (λ x. (string_bytes x.text ≡ other_reply (message_in (lent words.now)) line (lent words.now)) × (x.outcome ≡ other_outcome (message_in (lent words.now)))) }
{
    match message_in(words) {
        Some(message) => {
            let text = writing(heap, &message)?;
            Ok(Reply {
                text,
                outcome: Outcome::Written,
            })
        }
        None => {
            let text = error_line(heap, line, complaint_of(words).to_string(heap)?.as_str())?;
            Ok(Reply {
                text,
                outcome: Outcome::Wrong,
            })
        }
    }
}

// The answer to a line that has words.
fn reply_to(heap: Global, line: u64, words: &[&[u8]]) -> Result<Reply, AllocError>
    ensures { IfOk result (λ x. (string_bytes x.text ≡ reply (line_bytes (lent words.now)) line (lent words.now)) × (x.outcome ≡ outcome (line_bytes (lent words.now)) (lent words.now))) }
{
    match line_bytes(heap, words)? {
        Some(bytes) => reading(heap, bytes.as_slice()),
        None => other_reply(heap, line, words),
    }
}

// What is printed of the words of a line, and what came of them.
pub(crate) fn answer(heap: Global, line: u64, words: &[&[u8]]) -> Result<Reply, AllocError>
    ensures { IfOk result (λ x. (string_bytes x.text ≡ line_text line (lent words.now)) × (x.outcome ≡ outcome (line_bytes (lent words.now)) (lent words.now))) }
{
    let shown = printable_line(heap, words)?;
    let Reply { text, outcome } = reply_to(heap, line, words)?;
    let text = printed(heap, shown.as_str(), text.as_str())?;
    Ok(Reply { text, outcome })
}
