// Numbers in decimal, unsigned and signed, read from a word and written to a text.
ghost use Rattle.std.specs.Prelude.{◌≡◌, ℕ, ◌+◌, ◌-◌, ◌*◌, ◌^◌, ◌<◌, ◌++◌, pos, neg_ℤ, is_ok, if◌then◌else◌, List, Some, string_bytes, decimal};
ghost use Rattle.std.specs.Option.{SomeIff};
ghost use Rattle.std.specs.Fmt.{signed_decimal};
ghost use Rattle.numbers.specs.Numbers.{Digit, value, NumberBelow, number_in, SignedNumber, signed_value, signed_in};

use std::alloc::AllocError;
use std::fmt::Display;

// The number `n` with the digit `b` written behind it, if `b` is a digit and the number still fits.
fn with_digit(n: u64, b: u8) -> Option<u64>
    ensures { SomeIff result (Digit b × (n * 10 + (b - 48) < 2 ^ 64)) (n * 10 + (b - 48)) }
{
    if !b.is_ascii_digit() {
        return None;
    }
    n.checked_mul(10)?.checked_add(u64::from(b - b'0'))
}

// The unsigned number that a word writes: digits alone, and a value within 64 bits.
pub fn number(word: &[u8]) -> Option<u64>
    ensures answer { result ≡ number_in word.now }
    ensures accepts { SomeIff result (NumberBelow (2 ^ 64) word.now) (value word.now) }
{
    if word.is_empty() {
        return None;
    }
    // a loop: as a try_fold the proof did not close, as no lemma of the library reads one over a slice
    let mut n = 0;
    for b in word {
        n = with_digit(n, *b)?;
    }
    Some(n)
}

// The signed number that a word writes: digits, with a `-` before them or not, and a value within 64 bits.
pub fn signed_number(word: &[u8]) -> Option<i64>
    ensures answer { result ≡ signed_in word.now }
    ensures accepts { SomeIff result (SignedNumber word.now) (signed_value word.now) }
{
    match word {
        [b'-', digits @ ..] => 0i64.checked_sub_unsigned(number(digits)?),
        _ => i64::try_from(number(word)?).ok(),
    }
}

// Adds what a value shows, or nothing where memory fails.
fn push_shown<T: Display>(out: &mut String, shown: &T) -> Result<(), AllocError>
    ensures { (text : List ℕ) → T.output shown.now ≡ Some text → string_bytes out.new ≡ (if is_ok result then string_bytes out.old ++ text else string_bytes out.old) }
{
    let text = shown.to_string(*out.allocator())?;
    out.push_str(text.as_str())
}

// Adds a number in decimal, or nothing where memory fails. Read again it is the same number.
pub fn push_number(out: &mut String, n: u64) -> Result<(), AllocError>
    ensures written { string_bytes out.new ≡ (if is_ok result then string_bytes out.old ++ decimal n else string_bytes out.old) }
    ensures read_again { number_in (decimal n) ≡ Some n }
{
    push_shown::<u64>(out, &n)
}

// Adds a signed number in decimal, or nothing where memory fails. Read again it is the same number.
pub fn push_signed(out: &mut String, n: i64) -> Result<(), AllocError>
    ensures written { string_bytes out.new ≡ (if is_ok result then string_bytes out.old ++ signed_decimal n else string_bytes out.old) }
    ensures read_again { signed_in (signed_decimal n) ≡ Some n }
{
    push_shown::<i64>(out, &n)
}
