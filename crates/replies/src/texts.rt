// The text of a line, of an error and of a refusal.
ghost use Rattle.std.specs.Prelude.{◌≡◌, ◌++◌, IfOk, string_bytes, codes, decimal};
ghost use Rattle.refusals.specs.Refusals.{refusal_text};
ghost use Rattle.replies.specs.Texts.{newline};

use refusals::Refusal;
use std::alloc::{AllocError, Global};

// A line as it is printed: its words, and the answer below them.
pub fn printed(heap: Global, words: &str, answer: &str) -> Result<String, AllocError>
    ensures { IfOk result (λ t. string_bytes t ≡ codes "> " ++ (words.now ++ (newline ++ (answer.now ++ newline)))) }
{
    format!(in heap; "> {words}\n{answer}\n")
}

// What is printed of a line that is none of the program's.
pub fn error_line(heap: Global, line: u64, reason: &str) -> Result<String, AllocError>
    ensures { IfOk result (λ t. string_bytes t ≡ codes "error line " ++ (decimal line ++ (codes ": " ++ reason.now))) }
{
    format!(in heap; "error line {line}: {reason}")
}

// What a refusal says: its station, its number and, for a field, the bit place. Beside `to_string`, so that what programs print of
// a line is named in one crate.
pub fn refusal_text(heap: Global, refusal: &Refusal) -> Result<String, AllocError>
    ensures { IfOk result (λ t. string_bytes t ≡ refusal_text refusal.now) }
{
    refusal.to_string(heap)
}
