// The words of a line, one by one, and which lines are passed over.
ghost use Rattle.std.specs.Prelude.{◌≡◌, length, drop};
ghost use Rattle.std.specs.Str.{bytes_eq};
ghost use Rattle.text.specs.Words.{lent};
ghost use Rattle.lines.specs.Words.{word, is_passed_over};

// Whether a word is the one that is named.
pub fn is(word: &[u8], name: &str) -> bool
    ensures { result ≡ bytes_eq word.now name.now }
{
    word == name.as_bytes()
}

// How many words there are.
pub fn count(words: &[&[u8]]) -> usize
    ensures { result ≡ length (lent words.now) }
{
    words.len()
}

// The word at a place, which is empty behind the last.
pub fn word_at<'a>(words: &[&'a [u8]], i: usize) -> &'a [u8]
    ensures { result.now ≡ word (lent words.now) i }
{
    if i < words.len() { words[i] } else { b"" }
}

// The words from a place on.
pub fn words_from<'a, 'b>(words: &'b [&'a [u8]], i: usize) -> &'b [&'a [u8]]
    ensures { lent result.now ≡ drop i (lent words.now) }
{
    if i < words.len() { &words[i..] } else { &[] }
}

// Whether a line is passed over: it has no word, or the first begins with `#`.
pub fn is_passed_over(words: &[&[u8]]) -> bool
    ensures { result ≡ is_passed_over (lent words.now) }
{
    matches!(words, [] | [[], ..] | [[b'#', ..], ..])
}
