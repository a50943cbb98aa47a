// The words of a line, and the two parts of a word.
ghost use Rattle.std.specs.Prelude.{◌≡◌, ◌∷◌, ◌++◌, IfOk, MatchOption};
ghost use Rattle.text.specs.Words.{separates, lent, words_of, Words, parts_at, Without, lent_parts};

use std::alloc::{AllocError, Global};

// Whether a byte parts words.
fn is_separator(b: u8) -> bool
    ensures { result ≡ separates b }
{
    matches!(b, b' ' | b'\t' | b'\r')
}

// The words of a line, each lent from it.
pub fn words<'a>(heap: Global, line: &'a [u8]) -> Result<Vec<&'a [u8]>, AllocError>
    ensures answer { IfOk result (λ v. lent v.items ≡ words_of line.now) }
    ensures runs { IfOk result (λ v. Words line.now (lent v.items)) }
{
    line.split(|b| is_separator(*b))
        .filter(|word| !word.is_empty())
        .collect(heap)
}

// What stands before the first `mark` of a word and what stands behind it, if it has the mark.
pub fn split_once(word: &[u8], mark: u8) -> Option<(&[u8], &[u8])>
    ensures answer { lent_parts result ≡ parts_at mark word.now }
    ensures parts { MatchOption result (Without mark word.now) (λ p. (word.now ≡ p.0.now ++ mark ∷ p.1.now) × Without mark p.0.now) }
{
    let i = word.iter().position(|b| *b == mark)?;
    Some((&word[..i], &word[i + 1..]))
}
