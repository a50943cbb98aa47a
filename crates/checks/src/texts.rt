// Words, numbers and bytes, on examples.
use hex_bytes::{hex_byte, push_hex_byte};
use numbers::{number, push_number, push_signed, signed_number};
use std::test::Fail;
use text::printable::printable_line;
use text::words::words;

#[test]
fn numbers_stay_within_their_bounds(rt: HostRuntime) {
    assert_eq!(rt; number(b"0018446744073709551615"), Some(u64::MAX));
    assert_eq!(rt;
        number(b"99999999999999999999999999999999999999999999999999"),
        None
    );
    assert_eq!(rt; signed_number(b"-9223372036854775808"), Some(i64::MIN));
    assert_eq!(rt; signed_number(b"9223372036854775808"), None);
    assert_eq!(rt; signed_number(b"+5"), None);
}

#[test]
fn bytes_and_numbers_are_written(rt: HostRuntime) -> Result<(), Fail> {
    assert_eq!(rt; hex_byte(b"aF"), Some(175));
    let mut text = String::new(rt.alloc());
    push_hex_byte(&mut text, 175)?;
    push_signed(&mut text, -12)?;
    push_number(&mut text, 34)?;
    assert_eq!(rt; text.as_str(), "AF-1234");
    Ok(())
}

#[test]
fn a_line_is_shown_word_by_word(rt: HostRuntime) -> Result<(), Fail> {
    let words = words(rt.alloc(), b" \tcaf\xc3\xa9  is\ropen ")?;
    let line = printable_line(rt.alloc(), words.as_slice())?;
    assert_eq!(rt; line.as_str(), "caf?? is open");
    Ok(())
}
