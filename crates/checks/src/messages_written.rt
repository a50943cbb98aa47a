// The writer of messages, on examples.
use contents::{DefineFields, LegFields, LegSide, Message, OrderSide, PlaceFields};
use messages::write;

// A day order to buy, or one whose values are too great.
fn placing(strategy: u64, time_in_force: u64, limit: i64, quantity: u64) -> Message {
    Message::Place(PlaceFields {
        strategy,
        side: OrderSide::Buy,
        market: false,
        time_in_force,
        limit,
        quantity,
    })
}

// Whether a message is written, and the room afterwards.
fn written(message: &Message) -> (bool, [u8; 14]) {
    let mut room = [0xEE; 14];
    let is_written = write(message, &mut room).is_ok();
    (is_written, room)
}

#[test]
fn a_credit_keeps_its_sign(rt: HostRuntime) {
    let (is_written, room) = written(&placing(3, 0, -35, 10));
    assert!(rt; is_written);
    assert_eq!(rt;
        room,
        [
            0x21, 3, 0x0F, 0xFF, 0xFF, 0xFD, 0xD0, 0, 0xA0, 0, 0, 0, 0, 0,
        ]
    );
}

#[test]
fn a_value_that_does_not_fit_is_refused_and_none_is_written(rt: HostRuntime) {
    assert_eq!(rt; written(&placing(256, 0, 1, 1)), (false, [0xEE; 14]));
    assert_eq!(rt; written(&placing(0, 2, 1, 1)), (false, [0xEE; 14]));
    assert_eq!(rt;
        written(&placing(0, 0, 2_147_483_648, 1)),
        (false, [0xEE; 14])
    );
    assert_eq!(rt;
        written(&placing(0, 0, -2_147_483_649, 1)),
        (false, [0xEE; 14])
    );
    assert_eq!(rt; written(&placing(0, 0, 1, 65536)), (false, [0xEE; 14]));
    assert_eq!(rt;
        written(&Message::Cancel { number: 1 << 32 }),
        (false, [0xEE; 14])
    );
    assert_eq!(rt;
        written(&Message::Evaluate { strategy: 256 }),
        (false, [0xEE; 14])
    );
}

#[test]
fn a_leg_beyond_the_count_is_refused(rt: HostRuntime) {
    let none = LegFields {
        series: 0,
        side: LegSide::Bought,
        ratio: 0,
    };
    let sold = LegFields {
        series: 0,
        side: LegSide::Sold,
        ratio: 0,
    };
    let (is_written, _) = written(&Message::Define(DefineFields {
        count: 2,
        legs: [none, sold, none, none],
    }));
    assert!(rt; is_written);
    let (is_written, _) = written(&Message::Define(DefineFields {
        count: 1,
        legs: [none, sold, none, none],
    }));
    assert!(rt; !is_written);
    let (is_written, _) = written(&Message::Define(DefineFields {
        count: 16,
        legs: [none; 4],
    }));
    assert!(rt; !is_written);
    let mut short = [0u8; 13];
    assert!(rt; write(&Message::Cancel { number: 1 }, &mut short).is_err());
}
