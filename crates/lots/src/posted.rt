//! A lot that stands on a depth book, and its rank.

ghost use Rattle.std.specs.Prelude.{◌≡◌, not, pos};
ghost use Rattle.lots.specs.Rank.{is_bid, lot_ahead, lot_number, lot_keys};
ghost use Rattle.ranked.specs.Lex.{better};
ghost use Rattle.ranked.proofs.Lexes.{keys_connected, keys_irreflexive, keys_transitive};

use ranked::Ranked;
use simple::{Lot, Side};

/// A lot, the side of a series on which it stands, and its number.
#[derive(Clone, Copy)]
pub struct PostedLot {
    pub series: u32,
    pub side: Side,
    pub lot: Lot,
    pub number: u32,
}

impl PostedLot {
    /// What ranks it, the least first: its series, bids before offers, the better price, Priority Customers
    /// before makers, its number.
    fn key(&self) -> (u32, bool, i64, bool, u32)
        ensures series { result.0 ≡ self.now.series }
        ensures offer { result.1 ≡ not (is_bid self.now.side) }
        ensures price { result.2 ≡ better (is_bid self.now.side) (pos self.now.lot.price) }
        ensures maker { result.3 ≡ not self.now.lot.customer }
        ensures number { result.4 ≡ self.now.number }
    {
        let price = i64::from(self.lot.price);
        let (offer, price) = match self.side {
            Side::Bid => (false, -price),
            Side::Offer => (true, price),
        };
        (self.series, offer, price, !self.lot.customer, self.number)
    }
}

impl Ranked for PostedLot {
    ghost ahead = { lot_ahead };

    ghost serial = { lot_number };

    ghost connected = { keys_connected lot_number lot_keys };

    ghost irreflexive = { keys_irreflexive lot_number lot_keys };

    ghost transitive = { keys_transitive lot_number lot_keys };

    fn is_ahead(&self, other: &PostedLot) -> bool {
        self.key() < other.key()
    }

    fn number(&self) -> u32 {
        self.number
    }
}
