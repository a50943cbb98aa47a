// A board of quotes: a simple book over fixed fields.
ghost use Rattle.std.specs.Prelude.{◌≡◌, ℕ, ◌≤◌, [], slice_index_or};
ghost use Rattle.simple.specs.Lots.{empty_book, with_side};
ghost use Rattle.simple.specs.Take.{after};
ghost use Rattle.boards.specs.Limits.{last_quoted};
ghost use Rattle.boards.specs.Board.{board_lots, side_lots, quotes_of, no_sides, quote_answer, quoted, Requotes};
ghost use Rattle.boards.specs.Lawfulness.{board_lawful};

use crate::limits::{LAST_QUOTED, QUOTED_COUNT};
use crate::quote::{Quotes, Sides};
use refusals::{Reason, Refusal, Station};
use simple::{Best, HIGHEST_PRICE, LOT_LIMIT, Lot, Side, SimpleBook, allow_take};

// For each series from 0 to 31 and each side the quote of a maker and that of a Priority Customer.
#[derive(Drop)]
pub struct QuoteBoard {
    series: [Sides; QUOTED_COUNT],
}

// Sides without quotes, two for each series.
fn no_quotes() -> [Sides; QUOTED_COUNT]
    ensures { (s : ℕ) (d : Side) → s ≤ last_quoted → side_lots d (quotes_of (slice_index_or result s no_sides) d) ≡ [] }
{
    let none = Sides {
        bids: Quotes::none(),
        offers: Quotes::none(),
    };
    [none; QUOTED_COUNT]
}

impl QuoteBoard {
    // A board with no quote.
    pub fn new() -> QuoteBoard
        ensures { board_lots result ≡ empty_book }
    {
        QuoteBoard {
            series: no_quotes(),
        }
    }

    // Sets the quote of the maker or of the Priority Customer on one side; size 0 withdraws it.
    pub fn quote(&mut self, series: u32, side: Side, lot: Lot) -> Result<(), Refusal>
        ensures answer { result ≡ quote_answer series lot }
        ensures lots { board_lots self.new ≡ after result (quoted (board_lots self.old) series side lot) (board_lots self.old) }
        ensures sets { Requotes (board_lots self.old) (board_lots self.new) series side lot result }
    {
        if series > LAST_QUOTED {
            return Err(Refusal::at(Station::Quote, Reason::NoSeries));
        }
        if lot.price == 0 || lot.price > HIGHEST_PRICE || lot.size > LOT_LIMIT {
            return Err(Refusal::at(Station::Quote, Reason::BadLot));
        }
        let quotes = self.quotes(series, side);
        self.put(series, side, quotes.with(lot));
        Ok(())
    }

    // The two quotes of a side; none above the last series that a board carries.
    fn quotes(&self, series: u32, side: Side) -> Quotes
        ensures { side_lots side result ≡ board_lots self.now series side }
    {
        let Some(sides) = self.series.get(series as usize) else {
            return Quotes::none();
        };
        match side {
            Side::Bid => sides.bids,
            Side::Offer => sides.offers,
        }
    }

    // Replaces the two quotes of a side.
    fn put(&mut self, series: u32, side: Side, quotes: Quotes)
        requires { series ≤ last_quoted }
        ensures { board_lots self.new ≡ with_side (board_lots self.old) series side (side_lots side quotes) }
    {
        match side {
            Side::Bid => self.series[series as usize].bids = quotes,
            Side::Offer => self.series[series as usize].offers = quotes,
        }
    }
}

impl SimpleBook for QuoteBoard {
    ghost lots = { board_lots };

    ghost lawful = { board_lawful };

    ghost Frame = { Unit {0} };

    ghost frame = { λ _. tt };

    fn best(&mut self, series: u32, side: Side) -> Option<Best> {
        self.quotes(series, side).best(side)
    }

    fn take(&mut self, series: u32, side: Side, quantity: u32) -> Result<(), Refusal> {
        let quotes = self.quotes(series, side);
        allow_take(series, quotes.best(side), quantity)?;
        self.put(series, side, quotes.less(side, quantity));
        Ok(())
    }
}
