// What the programs print of a line, on examples.
use lines::words::is_passed_over;
use refusals::{Reason, Refusal, Station};
use replies::{error_line, refusal_text};
use std::test::Fail;
use text::words::words;

#[test]
fn an_error_line_has_its_number(rt: HostRuntime) -> Result<(), Fail> {
    assert_eq!(rt;
        error_line(rt.alloc(), 7, "no such command")?.as_str(),
        "error line 7: no such command"
    );
    Ok(())
}

#[test]
fn a_refusal_of_a_field_has_its_bit(rt: HostRuntime) -> Result<(), Fail> {
    let refusal = Refusal {
        station: Station::Reader,
        reason: Reason::Field,
        bit: 18,
    };
    assert_eq!(rt;
        refusal_text(rt.alloc(), &refusal)?.as_str(),
        "refused reader 4 bit 18"
    );
    assert_eq!(rt;
        refusal_text(rt.alloc(), &Refusal::at(Station::Take, Reason::TooMany))?.as_str(),
        "refused take 42"
    );
    Ok(())
}

#[test]
fn empty_lines_and_comments_are_passed_over(rt: HostRuntime) -> Result<(), Fail> {
    assert!(rt; is_passed_over(words(rt.alloc(), b" \t\r")?.as_slice()));
    assert!(rt; is_passed_over(words(rt.alloc(), b"  #21 03")?.as_slice()));
    assert!(rt; !is_passed_over(words(rt.alloc(), b"21")?.as_slice()));
    Ok(())
}
