// Bytes as two hexadecimal digits, read from a word and written to a text.
ghost use Rattle.std.specs.Prelude.{◌≡◌, ◌<◌, ◌++◌, IfSome, is_ok, if◌then◌else◌, Some, string_bytes};
ghost use Rattle.std.specs.Option.{SomeIff};
ghost use Rattle.hex_bytes.specs.Bytes.{HexDigit, hex_value, HexByte, byte_value, byte_in, hex_digit, hex_of};

use std::alloc::AllocError;

// The value of a hexadecimal digit, in either case.
fn digit_value(b: u8) -> Option<u8>
    ensures checked { SomeIff result (HexDigit b) (hex_value b) }
    ensures below { IfSome result (λ d. d < 16) }
{
    let digit = char::from(b).to_digit(16)?;
    Some(digit as u8)
}

// The byte that a word writes: two hexadecimal digits, each in either case.
pub fn hex_byte(word: &[u8]) -> Option<u8>
    ensures answer { result ≡ byte_in word.now }
    ensures accepts { SomeIff result (HexByte word.now) (byte_value word.now) }
{
    let [high, low] = word else {
        return None;
    };
    let sixteens = digit_value(*high)?;
    let ones = digit_value(*low)?;
    Some(sixteens * 16 + ones)
}

// The digit of a value below sixteen, in upper case. By hand: `{:02X}` was tried, and takes ten times as long and memory of its own.
fn digit(value: u8) -> char
    requires { value < 16 }
    ensures { result ≡ hex_digit value }
{
    if value < 10 {
        (b'0' + value) as char
    } else {
        (b'A' + (value - 10)) as char
    }
}

// Adds a byte as two upper-case digits, or nothing where memory fails. Read again it is the same byte.
pub fn push_hex_byte(out: &mut String, byte: u8) -> Result<(), AllocError>
    ensures written { string_bytes out.new ≡ (if is_ok result then string_bytes out.old ++ hex_of byte else string_bytes out.old) }
    ensures read_again { byte_in (hex_of byte) ≡ Some byte }
{
    out.reserve(2)?;
    out.push(digit(byte / 16))?;
    out.push(digit(byte % 16))
}
