// What a line says.
ghost use Rattle.std.specs.Prelude.{◌≡◌, IfOk, string_bytes};
ghost use Rattle.text.specs.Words.{lent};
ghost use Rattle.text.specs.Printable.{printable_line};
ghost use Rattle.replay.specs.Commands.{command_in};

use crate::answer::Complaint;
use crate::command::Command;
use crate::commands::command_in;
use std::alloc::{AllocError, Global};
use text::printable::printable_line;

// A line that has words: its number, its words as they are printed, and the command that they are.
#[derive(Drop)]
pub(crate) struct Said {
    pub(crate) line: u64,
    pub(crate) words: String,
    pub(crate) command: Result<Command, Complaint>,
}

// What the words of a line say.
pub(crate) fn read_words(heap: Global, line: u64, words: &[&[u8]]) -> Result<Said, AllocError>
    ensures { IfOk result (λ s. (s.line ≡ line) × (string_bytes s.words ≡ printable_line (lent words.now)) × (s.command ≡ command_in (lent words.now))) }
{
    let command = command_in(words);
    let words = printable_line(heap, words)?;
    Ok(Said {
        line,
        words,
        command,
    })
}
