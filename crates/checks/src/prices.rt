// Prices of strategies, on examples.
use crate::fillers::lot;
use boards::QuoteBoard;
use pricing::{NetPrice, StrategyMarket, displayed_price, market_of, net_market};
use refusals::Reason;
use simple::Side;
use std::test::Fail;
use strategies::{Leg, Strategy, StrategyRow};

// Quotes a series on both sides, 20 contracts each.
fn quote(board: &mut QuoteBoard, series: u32, bid: u32, offer: u32) {
    let _ = board.quote(series, Side::Bid, lot(false, bid, 20));
    let _ = board.quote(series, Side::Offer, lot(false, offer, 20));
}

// Quotes of series 10 and 11.
fn quoted(ten: (u32, u32), eleven: (u32, u32)) -> QuoteBoard {
    let mut board = QuoteBoard::new();
    quote(&mut board, 10, ten.0, ten.1);
    quote(&mut board, 11, eleven.0, eleven.1);
    board
}

fn leg(series: u32, bought: bool, ratio: u32) -> Leg {
    Leg {
        series,
        bought,
        ratio,
    }
}

// Series 10 bought, series 11 sold.
fn spread(ten: u32, eleven: u32) -> Result<Strategy, Reason> {
    let none = leg(0, false, 0);
    Strategy::try_from(StrategyRow {
        count: 2,
        legs: [leg(10, true, ten), leg(11, false, eleven), none, none],
    })
}

// The market of a spread of equal ratios, with or without a Priority Customer at the bid of its sold leg.
fn market(customer: bool) -> Option<StrategyMarket> {
    let mut board = quoted((300, 310), (120, 125));
    if customer {
        let _ = board.quote(11, Side::Bid, lot(true, 120, 20));
    }
    let Ok(strategy) = spread(1, 1) else {
        return None;
    };
    market_of(&mut board, &strategy)
}

// What a buy and a sell trade at there.
fn pair(customer: bool, buy: i64, sell: i64, buy_is_older: bool) -> Option<NetPrice> {
    market(customer)?.pair_price(buy, sell, buy_is_older)
}

fn trade(price: i64, ten: u32, eleven: u32) -> Option<NetPrice> {
    Some(NetPrice {
        price,
        legs: [ten, eleven, 0, 0],
    })
}

#[test]
fn a_net_market_stands_while_every_leg_is_open(rt: HostRuntime) -> Result<(), Fail> {
    let mut board = quoted((300, 310), (120, 125));
    let strategy = spread(1, 1)?;
    assert_eq!(rt; net_market(&mut board, &strategy), Some((175, 190)));
    quote(&mut board, 11, 120, 620);
    assert_eq!(rt; net_market(&mut board, &strategy), Some((-320, 190)));
    quote(&mut board, 11, 120, 621);
    assert_eq!(rt; net_market(&mut board, &strategy), None);
    Ok(())
}

#[test]
fn a_pair_trades_at_the_end_of_the_older_order(rt: HostRuntime) {
    assert_eq!(rt; pair(false, 185, 180, true), trade(185, 305, 120));
    assert_eq!(rt; pair(false, 185, 180, false), trade(180, 300, 120));
    assert_eq!(rt; pair(false, 179, 180, false), None);
}

#[test]
fn a_pair_does_not_pass_a_priority_customer(rt: HostRuntime) {
    assert_eq!(rt; pair(true, 190, 190, true), None);
    assert_eq!(rt; pair(true, 189, 189, true), trade(189, 309, 120));
    assert_eq!(rt; pair(true, 190, 180, true), trade(189, 309, 120));
}

#[test]
fn the_greatest_nets_keep_their_sign(rt: HostRuntime) -> Result<(), Fail> {
    let mut board = QuoteBoard::new();
    for series in 0..4 {
        quote(&mut board, series, 999_500, 1_000_000);
    }
    let row = StrategyRow {
        count: 4,
        legs: [
            leg(0, false, 8),
            leg(1, false, 8),
            leg(2, false, 8),
            leg(3, false, 7),
        ],
    };
    let strategy = Strategy::try_from(row)?;
    let Some(market) = market_of(&mut board, &strategy) else {
        assert!(rt; false);
        return Ok(());
    };
    assert_eq!(rt; market.net(), (-31_000_000, -30_984_500));
    assert_eq!(rt;
        market.pair_price(i64::MAX, i64::MIN, false),
        Some(NetPrice {
            price: -31_000_000,
            legs: [1_000_000; 4],
        })
    );
    assert_eq!(rt;
        market.pair_price(i64::MAX, i64::MIN, true),
        Some(NetPrice {
            price: -30_984_500,
            legs: [999_500; 4],
        })
    );
    Ok(())
}

#[test]
fn an_order_is_legged_as_far_as_the_bests_go(rt: HostRuntime) -> Result<(), Fail> {
    let mut board = quoted((300, 302), (120, 122));
    let strategy = spread(2, 3)?;
    let Some(market) = market_of(&mut board, &strategy) else {
        assert!(rt; false);
        return Ok(());
    };
    assert_eq!(rt; market.legged_quantity(true, 244, 10), 6);
    assert_eq!(rt; market.legged_quantity(true, 243, 10), 0);
    assert_eq!(rt; market.legged_quantity(false, 234, 4), 4);
    assert_eq!(rt; Some(market.taken_at(true)), trade(244, 302, 120));
    assert_eq!(rt; Some(market.taken_at(false)), trade(234, 300, 122));
    Ok(())
}

// What an order with a limit shows.
fn shown(market: Option<StrategyMarket>, buy: bool, limit: i64) -> Option<i64> {
    displayed_price(market, buy, Some(limit), limit)
}

#[test]
fn an_order_shows_what_it_can_trade_at(rt: HostRuntime) {
    assert_eq!(rt; shown(market(false), true, 195), Some(190));
    assert_eq!(rt; shown(market(false), true, 189), Some(189));
    assert_eq!(rt; shown(market(true), true, 190), Some(189));
    assert_eq!(rt; shown(market(true), false, 170), Some(175));
}

#[test]
fn a_market_order_shows_nothing_while_a_leg_is_missing(rt: HostRuntime) -> Result<(), Fail> {
    let mut board = quoted((300, 310), (120, 125));
    let _ = board.quote(11, Side::Offer, lot(false, 125, 0));
    let strategy = spread(1, 1)?;
    let missing = market_of(&mut board, &strategy);
    assert_eq!(rt; displayed_price(missing, true, None, 40_000_000), None);
    assert_eq!(rt; shown(missing, true, 195), Some(195));
    assert_eq!(rt;
        displayed_price(market(false), true, None, 40_000_000),
        Some(190)
    );
    Ok(())
}
