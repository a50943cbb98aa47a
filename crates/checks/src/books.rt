// Simple books at work.
ghost use Rattle.std.specs.Prelude.{◌≡◌, ◌≤◌};
ghost use Rattle.simple.specs.Limits.{last_series};

use crate::fillers::lot;
use boards::QuoteBoard;
use holds::HoldLayer;
use simple::{Best, Side, SimpleBook};

// Takes from any book while one of its series is on hold: that series keeps its lots.
fn take_beside<B: SimpleBook>(book: B, held: u32, series: u32, quantity: u32) -> B
    ensures { held ≤ last_series → (d : Side) → B.lots result held d ≡ B.lots book held d }
{
    let mut layer = HoldLayer::new(book);
    let _ = layer.hold(held);
    let _ = layer.take(series, Side::Offer, quantity);
    let (book, _) = layer.into_parts();
    book
}

#[test]
fn a_board_ranks_its_lots_and_gives_them_from_the_front(rt: HostRuntime) {
    let mut board = QuoteBoard::new();
    let _ = board.quote(3, Side::Bid, lot(false, 100, 10));
    let _ = board.quote(3, Side::Bid, lot(true, 100, 5));
    assert_eq!(rt;
        board.best(3, Side::Bid),
        Some(Best {
            price: 100,
            size: 15,
            customer: 5,
        })
    );
    let _ = board.take(3, Side::Bid, 7);
    assert_eq!(rt;
        board.best(3, Side::Bid),
        Some(Best {
            price: 100,
            size: 8,
            customer: 0,
        })
    );
    assert_eq!(rt; board.best(3, Side::Offer), None);
}

#[test]
fn a_layer_hides_a_series_and_keeps_it(rt: HostRuntime) {
    let mut board = QuoteBoard::new();
    let _ = board.quote(3, Side::Offer, lot(false, 100, 10));
    let _ = take_beside(&mut board, 3, 3, 10);
    let mut pile = HoldLayer::new(HoldLayer::new(&mut board));
    let _ = pile.take(3, Side::Offer, 4);
    assert_eq!(rt;
        board.best(3, Side::Offer),
        Some(Best {
            price: 100,
            size: 6,
            customer: 0,
        })
    );
}
