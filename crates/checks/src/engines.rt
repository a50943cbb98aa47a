// The engine where no program reaches: other memory, full tables, spent numbers, short and long lists.
use crate::fillers::{NO_LOT, NO_ORDER, lot};
use boards::QuoteBoard;
use contents::{OrderSide, TimeInForce};
use depth::DepthBook;
use engine::Engine;
use lots::PostedLot;
use refusals::{Reason, Refusal, Station};
use rules::{Evaluated, Execution, Intake, IntakeFault, NewOrder, Order, Outcome, Placed};
use simple::Side;
use std::process::Abort;
use std::test::Fail;
use strategies::Leg;

// What a list holds before a call, to tell what the call left there.
const MARK: Execution = Execution {
    strategy: 9,
    price: 9,
    quantity: 9,
    buy: 9,
    sell: 9,
    legs: [9; 4],
};

// A message that places an order.
const PLACING: [u8; 14] = [0x21, 0, 0, 0, 0, 0, 0x10, 0, 16, 0, 0, 0, 0, 0];

// Why the call of a message was refused, if it was.
fn why_not_taken_in(answer: Result<Intake, IntakeFault>) -> Option<Refusal> {
    match answer {
        Err(IntakeFault::Refused(refusal)) => Some(refusal),
        _ => None,
    }
}

fn refused(station: Station, reason: Reason) -> Option<Refusal> {
    Some(Refusal::at(station, reason))
}

// One series bought, one sold.
fn legs(bought: u32, sold: u32) -> [Leg; 4] {
    let leg = Leg {
        series: bought,
        bought: true,
        ratio: 1,
    };
    let other = Leg {
        series: sold,
        bought: false,
        ratio: 1,
    };
    [leg, other, other, other]
}

// An order of strategy 0 for five.
fn order(side: OrderSide, limit: i64, time_in_force: TimeInForce) -> NewOrder {
    NewOrder {
        strategy: 0,
        side,
        market: false,
        limit,
        time_in_force,
        quantity: 5,
    }
}

// Quotes that make a net market of 175 to 190.
fn quoted() -> QuoteBoard {
    let mut board = QuoteBoard::new();
    let _ = board.quote(10, Side::Bid, lot(false, 300, 20));
    let _ = board.quote(10, Side::Offer, lot(false, 310, 20));
    let _ = board.quote(11, Side::Bid, lot(false, 120, 20));
    let _ = board.quote(11, Side::Offer, lot(false, 125, 20));
    board
}

// What place answers when nothing was executed.
fn untraded(number: u32, cancelled: u32, outcome: Outcome) -> Option<Placed> {
    Some(Placed {
        number,
        records: 0,
        executed: 0,
        cancelled,
        outcome,
    })
}

// Every call and question on memory that is not an engine's.
fn check_not_opened(rt: &impl Abort, memory: &mut [Order]) {
    let opening = refused(Station::Opening, Reason::Memory);
    let mut board = quoted();
    let mut list = [MARK; 1];
    let mut engine = Engine::open(memory);
    assert_eq!(rt; engine.define(2, &legs(10, 11)).err(), opening);
    let buy = order(OrderSide::Buy, 185, TimeInForce::Day);
    assert_eq!(rt; engine.place(&mut board, &mut list, buy).err(), opening);
    assert_eq!(rt; engine.cancel(1).err(), opening);
    assert_eq!(rt; engine.evaluate(&mut board, &mut list, 0).err(), opening);
    assert_eq!(rt;
        why_not_taken_in(engine.intake(&mut board, &mut list, &PLACING)),
        opening
    );
    assert_eq!(rt;
        why_not_taken_in(engine.intake(&mut board, &mut list, &[0x21; 13])),
        opening
    );
    assert_eq!(rt; engine.net_market(&mut board, 0).err(), opening);
    assert_eq!(rt; engine.display(&mut board, 1).err(), opening);
    assert!(rt; engine.order_at(0).is_none());
}

#[test]
fn an_engine_needs_its_memory(rt: HostRuntime) {
    check_not_opened(&rt, &mut [NO_ORDER; 0]);
    check_not_opened(&rt, &mut [NO_ORDER; 511]);
    check_not_opened(&rt, &mut [NO_ORDER; 513]);
}

// A post on memory that is not a depth book's.
fn check_not_posted(rt: &impl Abort, memory: &mut [PostedLot]) {
    let mut depth = DepthBook::open(memory);
    assert_eq!(rt;
        depth.post(3, Side::Offer, lot(false, 100, 10)).err(),
        refused(Station::Opening, Reason::Memory)
    );
}

#[test]
fn a_depth_book_needs_its_memory(rt: HostRuntime) {
    check_not_posted(&rt, &mut [NO_LOT; 0]);
    check_not_posted(&rt, &mut [NO_LOT; 1023]);
    check_not_posted(&rt, &mut [NO_LOT; 1025]);
}

#[test]
fn a_table_holds_64_strategies(rt: HostRuntime) {
    let mut memory = [NO_ORDER; 512];
    let mut engine = Engine::open(&mut memory);
    for bought in 0..8 {
        for sold in 8..16 {
            assert!(rt; engine.define(2, &legs(bought, sold)).is_ok());
        }
    }
    assert_eq!(rt;
        engine.define(2, &legs(8, 16)).err(),
        refused(Station::Define, Reason::TableFull)
    );
    assert_eq!(rt;
        engine.define(2, &legs(7, 15)).err(),
        refused(Station::Define, Reason::SameLegs)
    );
}

#[test]
fn an_engine_holds_512_orders(rt: HostRuntime) {
    let mut memory = [NO_ORDER; 512];
    let mut board = quoted();
    let mut engine = Engine::open(&mut memory);
    assert!(rt; engine.define(2, &legs(10, 11)).is_ok());
    let buy = order(OrderSide::Buy, 185, TimeInForce::Day);
    for _ in 0..512 {
        assert!(rt; engine.place(&mut board, &mut [], buy).is_ok());
    }
    assert_eq!(rt;
        engine.place(&mut board, &mut [], buy).err(),
        refused(Station::Place, Reason::BookFull)
    );
    assert!(rt; engine.cancel(7).is_ok());
    assert!(rt; engine.place(&mut board, &mut [], buy).is_ok());
}

#[test]
fn an_engine_numbers_a_million_orders(rt: HostRuntime) {
    let mut memory = [NO_ORDER; 512];
    let mut board = QuoteBoard::new();
    let mut engine = Engine::open(&mut memory);
    assert!(rt; engine.define(2, &legs(10, 11)).is_ok());
    let buy = order(OrderSide::Buy, 185, TimeInForce::ImmediateOrCancel);
    for _ in 0..1_000_000 {
        assert!(rt; engine.place(&mut board, &mut [], buy).is_ok());
    }
    assert_eq!(rt;
        engine.place(&mut board, &mut [], buy).err(),
        refused(Station::Place, Reason::NumbersSpent)
    );
}

#[test]
fn a_depth_book_numbers_a_million_lots(rt: HostRuntime) -> Result<(), Fail> {
    let mut memory = [NO_LOT; 1024];
    let mut depth = DepthBook::open(&mut memory);
    for _ in 0..1_000_000 {
        let number = depth.post(3, Side::Offer, lot(false, 100, 10))?;
        assert!(rt; depth.withdraw(number).is_ok());
    }
    assert_eq!(rt;
        depth.post(3, Side::Offer, lot(false, 100, 10)).err(),
        refused(Station::Post, Reason::LotNumbersSpent)
    );
    Ok(())
}

#[test]
fn a_list_of_no_places_has_no_step(rt: HostRuntime) {
    let mut memory = [NO_ORDER; 512];
    let mut board = quoted();
    let mut engine = Engine::open(&mut memory);
    assert!(rt; engine.define(2, &legs(10, 11)).is_ok());
    let buy = order(OrderSide::Buy, 185, TimeInForce::Day);
    let now = order(OrderSide::Sell, 180, TimeInForce::ImmediateOrCancel);
    let sell = order(OrderSide::Sell, 180, TimeInForce::Day);
    assert_eq!(rt;
        engine.place(&mut board, &mut [], buy).ok(),
        untraded(1, 0, Outcome::AtRest)
    );
    assert_eq!(rt;
        engine.place(&mut board, &mut [], now).ok(),
        untraded(2, 5, Outcome::AtRest)
    );
    assert_eq!(rt;
        engine.place(&mut board, &mut [], sell).ok(),
        untraded(3, 0, Outcome::More)
    );
    assert_eq!(rt; engine.cancel(2).ok(), None);
    assert_eq!(rt; engine.cancel(3).ok(), Some(5));
}

#[test]
fn a_longer_list_keeps_what_it_held(rt: HostRuntime) {
    let mut memory = [NO_ORDER; 512];
    let mut list = [MARK; 3];
    let mut board = quoted();
    let mut engine = Engine::open(&mut memory);
    assert!(rt; engine.define(2, &legs(10, 11)).is_ok());
    let buy = order(OrderSide::Buy, 185, TimeInForce::Day);
    let sell = order(OrderSide::Sell, 180, TimeInForce::Day);
    assert!(rt; engine.place(&mut board, &mut [], buy).is_ok());
    assert!(rt; engine.place(&mut board, &mut [], sell).is_ok());
    assert_eq!(rt;
        engine.evaluate(&mut board, &mut list, 0).ok(),
        Some(Evaluated {
            records: 1,
            outcome: Outcome::AtRest,
        })
    );
    let [first, second, third] = list;
    assert_eq!(rt; (first.buy, first.sell), (1, 2));
    assert_eq!(rt; (first.price, first.quantity), (185, 5));
    assert_eq!(rt; first.legs, [305, 120, 0, 0]);
    assert_eq!(rt; (second.buy, second.price), (9, 9));
    assert_eq!(rt; (third.sell, third.quantity), (9, 9));
}
