// The reader of messages, on examples.
use contents::{Message, Received};
use messages::read;

// An order to buy one spread of strategy 0, whose bits 16 to 55 are given.
fn placing(head: u8, bits: [u8; 5]) -> [u8; 14] {
    let [a, b, c, d, e] = bits;
    [head, 0, a, b, c, d, e, 0, 16, 0, 0, 0, 0, 0]
}

fn limit(head: u8, bits: [u8; 5]) -> Option<i64> {
    match read(&placing(head, bits)) {
        Ok(
            Received {
                message: Message::Place(order),
                ..
            },
        ) => Some(order.limit),
        _ => None,
    }
}

// The number and the bit place of the fault that bytes have.
fn fault(bytes: &[u8]) -> (u32, u32) {
    match read(bytes) {
        Ok(_) => (0, 0),
        Err(fault) => (fault.number(), fault.bit),
    }
}

#[test]
fn a_limit_is_exact_around_zero(rt: HostRuntime) {
    assert_eq!(rt; limit(0x21, [0, 0, 0, 0, 0]), Some(0));
    assert_eq!(rt; limit(0x21, [0, 0, 0, 0, 0x10]), Some(1));
    assert_eq!(rt; limit(0x21, [0x0F, 0xFF, 0xFF, 0xFF, 0xF0]), Some(-1));
    assert_eq!(rt;
        limit(0x21, [0x07, 0xFF, 0xFF, 0xFF, 0xF0]),
        Some(2_147_483_647)
    );
    assert_eq!(rt; limit(0x21, [0x08, 0, 0, 0, 0]), Some(-2_147_483_648));
    assert_eq!(rt; limit(0x11, [0x08, 0, 0, 0, 0]), Some(2_147_483_648));
    assert_eq!(rt;
        limit(0x11, [0x0F, 0xFF, 0xFF, 0xFF, 0xF0]),
        Some(4_294_967_295)
    );
}

#[test]
fn the_first_fault_is_answered(rt: HostRuntime) {
    assert_eq!(rt; fault(&[0x21; 13]), (1, 0));
    assert_eq!(rt; fault(&[0x31; 14]), (2, 0));
    assert_eq!(rt; fault(&[0x25; 14]), (3, 0));
    assert_eq!(rt; fault(&placing(0x21, [0x20, 0, 0, 0, 0])), (4, 18));
    assert_eq!(rt; fault(&placing(0x22, [0, 0, 0, 0, 0])), (4, 52));
    // the first leg is within the count, the second is not
    assert_eq!(rt;
        fault(&[0x24, 0x10, 0, 1, 0, 0, 0, 0, 0, 0, 0, 0, 0, 0]),
        (4, 27)
    );
    // the last unused bit
    assert_eq!(rt;
        fault(&[0x23, 0, 0, 0, 0, 0, 0, 0, 0, 0, 0, 0, 0, 1]),
        (4, 111)
    );
}
