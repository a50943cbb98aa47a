// What a legged order takes of the simple book.
ghost use Rattle.std.specs.Prelude.{◌≡◌};
ghost use Rattle.rules.specs.Steps.{side_taken, leg_taken, legs_taken};

use simple::{Side, SimpleBook};
use strategies::Leg;

// The side of a leg that an order takes.
fn side_taken(leg: Leg, buy: bool) -> Side
    ensures { result ≡ side_taken buy leg }
{
    if leg.bought == buy {
        Side::Offer
    } else {
        Side::Bid
    }
}

// Takes so many strategies' contracts of one leg; a take that is refused changes nothing.
fn take_leg<B: SimpleBook>(book: &mut B, leg: Leg, buy: bool, quantity: u32)
    ensures lots { B.SimpleBook.lots book.new ≡ leg_taken buy quantity (B.SimpleBook.lots book.old) leg }
    ensures frame { B.SimpleBook.frame book.new ≡ B.SimpleBook.frame book.old }
{
    // no side has as many contracts as would not fit
    let Some(contracts) = leg.ratio.checked_mul(quantity) else {
        return;
    };
    let _ = book.take(leg.series, side_taken(leg, buy), contracts);
}

// Takes so many strategies' contracts of each leg, in order.
pub fn take_legs<B: SimpleBook>(book: &mut B, legs: &[Leg], buy: bool, quantity: u32)
    ensures lots { B.SimpleBook.lots book.new ≡ legs_taken legs.now buy quantity (B.SimpleBook.lots book.old) }
    ensures frame { B.SimpleBook.frame book.new ≡ B.SimpleBook.frame book.old }
{
    // a `for`, as a closure that holds the lent book is no plainer
    for leg in legs {
        take_leg(book, *leg, buy, quantity);
    }
}
