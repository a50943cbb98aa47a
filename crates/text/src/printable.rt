// The words of a line, shown in printable ASCII.
ghost use Rattle.std.specs.Prelude.{◌≡◌, ◌<◌, ◌++◌, map, is_ok, IfOk, if◌then◌else◌, string_bytes};
ghost use Rattle.std.specs.List.{AllByRecursion};
ghost use Rattle.text.specs.Printable.{printable_byte, printable_word, printable_line};
ghost use Rattle.text.specs.Words.{lent, Word, words_of};

use std::alloc::{AllocError, Global};

// A byte as it is shown: `?` for one that cannot be printed.
fn as_printable(b: u8) -> char
    ensures value { result ≡ printable_byte b }
    ensures ascii { result < 128 }
{
    match b {
        b' '..=b'~' => b as char,
        _ => '?',
    }
}

// Adds a word as it is shown, or nothing where memory fails.
pub(crate) fn push_printable(out: &mut String, word: &[u8]) -> Result<(), AllocError>
    ensures { string_bytes out.new ≡ (if is_ok result then string_bytes out.old ++ printable_word word.now else string_bytes out.old) }
{
    // a loop: as an extend of a map the proof did not close, as the closure stays unknown under extend
    out.reserve(word.len())?;
    for b in word {
        out.push(as_printable(*b))?;
    }
    Ok(())
}

// The words of a line as they are shown, with one space between them. Read again it has those words.
pub fn printable_line(heap: Global, words: &[&[u8]]) -> Result<String, AllocError>
    ensures shown { IfOk result (λ line. string_bytes line ≡ printable_line (lent words.now)) }
    ensures read_again { IfOk result (λ line. AllByRecursion Word (lent words.now) → words_of (string_bytes line) ≡ map printable_word (lent words.now)) }
{
    let mut line = String::new(heap);
    // counted: no plainer without, as a space stands before each word but the first
    for (i, word) in words.iter().enumerate() {
        if i > 0 {
            line.push(' ')?;
        }
        push_printable(&mut line, word)?;
    }
    Ok(line)
}
