//! What the calls of a depth book test, and how they move its lots.

ghost use Rattle.std.specs.Prelude.{◌≡◌, ◌+◌, ◌≤◌, is_some, Ok, MatchOption};
ghost use Rattle.simple.specs.Limits.{side_limit};
ghost use Rattle.simple.specs.Lots.{contracts};
ghost use Rattle.simple.specs.Take.{take_answer, taken};
ghost use Rattle.ranked.specs.Ranking.{Standing};
ghost use Rattle.lots.specs.Rank.{lot_number};
ghost use Rattle.depth.specs.Lots.{all_lots};
ghost use Rattle.depth.specs.Meaning.{standing, depth_lots, posted_count, places, counts};
ghost use Rattle.depth.specs.Post.{post_answer, with_posted, with_lot};
ghost use Rattle.depth.specs.Withdraw.{stands, without_lot, Withdrawn};
ghost use Rattle.depth.specs.Take.{take_lots, Taken};

use crate::depth::DepthBook;
use crate::limits::{LOT_PLACES, MOST_POSTED};
use crate::{side, trade};
use lots::PostedLot;
use refusals::{Reason, Refusal, Station};
use simple::{HIGHEST_PRICE, LAST_SERIES, LOT_LIMIT, Lot, SIDE_LIMIT, Side, allow_take};

impl<'a> DepthBook<'a> {
    /// The lots of a side.
    pub(crate) fn of_side(&self, series: u32, side: Side) -> &[PostedLot]
        ensures lots { all_lots result.now ≡ depth_lots self.now series side }
        ensures within { contracts (all_lots result.now) ≤ side_limit }
    {
        side::of_side(self.lots.entries(), series, side)
    }

    /// The number of the next lot, unless that lot is refused.
    pub(crate) fn admit(&self, series: u32, side: Side, lot: Lot) -> Result<u32, Refusal>
        ensures { result ≡ post_answer (places self.now) (standing self.now) (posted_count self.now) series side lot }
    {
        if self.lots.capacity() != LOT_PLACES {
            return Err(Refusal::at(Station::Opening, Reason::Memory));
        }
        if series > LAST_SERIES {
            return Err(Refusal::at(Station::Post, Reason::NoSeries));
        }
        if lot.price == 0 || lot.price > HIGHEST_PRICE || lot.size == 0 || lot.size > LOT_LIMIT {
            return Err(Refusal::at(Station::Post, Reason::BadLot));
        }
        if side::total(self.of_side(series, side)) + lot.size > SIDE_LIMIT {
            return Err(Refusal::at(Station::Post, Reason::BadLot));
        }
        if self.lots.len() >= LOT_PLACES {
            return Err(Refusal::at(Station::Post, Reason::LotsFull));
        }
        if self.posted >= MOST_POSTED {
            return Err(Refusal::at(Station::Post, Reason::LotNumbersSpent));
        }
        Ok(self.posted + 1)
    }

    /// Puts a lot that was admitted on its side.
    pub(crate) fn put(&mut self, series: u32, side: Side, lot: Lot, number: u32)
        requires { Ok number ≡ post_answer (places self.old) (standing self.old) (posted_count self.old) series side lot }
        ensures standing { standing self.new ≡ with_posted (standing self.old) series side lot (posted_count self.old + 1) }
        ensures lots { depth_lots self.new ≡ with_lot (depth_lots self.old) series side lot }
        ensures posted { posted_count self.new ≡ posted_count self.old + 1 }
        ensures places { places self.new ≡ places self.old }
    {
        let _ = self.lots.insert(PostedLot {
            series,
            side,
            lot,
            number,
        });
        self.posted = number;
    }

    /// The place of the lot that has the number, if one stands.
    pub(crate) fn place_of(&self, number: u32) -> Option<usize>
        ensures stands { is_some result ≡ stands number (standing self.now) }
        ensures found { MatchOption result (without_lot number (standing self.now) ≡ standing self.now) (Standing lot_number number (standing self.now)) }
    {
        self.lots.find(number)
    }

    /// Removes the lot of the number, which stands at a place.
    pub(crate) fn remove(&mut self, place: usize, number: u32)
        requires { Standing lot_number number (standing self.old) place }
        ensures standing { standing self.new ≡ without_lot number (standing self.old) }
        ensures moved { Withdrawn number (standing self.old) (standing self.new) }
        ensures counts { counts self.new ≡ counts self.old }
    {
        let _ = self.lots.remove(place);
    }

    /// Whether a quantity can be taken from a side, or why not; what is refused whatever stands there is not looked for.
    pub(crate) fn allow(&self, series: u32, side: Side, quantity: u32) -> Result<(), Refusal>
        ensures { result ≡ take_answer (depth_lots self.now) series side quantity }
    {
        if series > LAST_SERIES || quantity == 0 {
            return allow_take(series, None, quantity);
        }
        allow_take(series, side::best(self.of_side(series, side)), quantity)
    }

    /// Takes a quantity that was allowed from the front of a side.
    pub(crate) fn reduce(&mut self, series: u32, side: Side, quantity: u32)
        requires { Ok tt ≡ take_answer (depth_lots self.old) series side quantity }
        ensures standing { standing self.new ≡ take_lots series side quantity (standing self.old) }
        ensures moved { Taken series side quantity (standing self.old) (standing self.new) }
        ensures lots { depth_lots self.new ≡ taken (depth_lots self.old) series side quantity }
        ensures counts { counts self.new ≡ counts self.old }
    {
        trade::take(&mut self.lots, series, side, quantity);
    }
}
