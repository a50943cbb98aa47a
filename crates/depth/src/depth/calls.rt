//! The calls of a depth book.

ghost use Rattle.std.specs.Prelude.{◌≡◌, ℕ, ◌+◌, [], length};
ghost use Rattle.simple.specs.Lots.{empty_book};
ghost use Rattle.simple.specs.Take.{after, take_answer, taken};
ghost use Rattle.depth.specs.Lots.{lots_of};
ghost use Rattle.depth.specs.Meaning.{standing, depth_lots, posted_count, places, counts, depth_lawful};
ghost use Rattle.depth.specs.Post.{post_answer, with_posted, with_lot};
ghost use Rattle.depth.specs.Withdraw.{withdraw_answer, without_lot, Withdraws};
ghost use Rattle.depth.specs.Take.{take_lots, Takes};

use crate::depth::DepthBook;
use crate::side;
use lots::PostedLot;
use ranked::RankedList;
use refusals::{Reason, Refusal, Station};
use simple::{Best, Lot, Side, SimpleBook};

// Each removal says that the counts stay: a fact of before and after, which no type can hold.
impl<'a> DepthBook<'a> {
    /// A book with no lot, however the memory was filled.
    pub fn open(memory: &'a mut [PostedLot]) -> Self
        ensures standing { standing result ≡ [] }
        ensures lots { depth_lots result ≡ empty_book }
        ensures posted { posted_count result ≡ 0 }
        ensures places { places result ≡ length memory.old }
    {
        DepthBook {
            lots: RankedList::open(memory),
            posted: 0,
        }
    }

    /// Posts a lot behind those of its price and class, and answers its number.
    pub fn post(&mut self, series: u32, side: Side, lot: Lot) -> Result<u32, Refusal>
        ensures answer { result ≡ post_answer (places self.old) (standing self.old) (posted_count self.old) series side lot }
        ensures standing { standing self.new ≡ after result (with_posted (standing self.old) series side lot (posted_count self.old + 1)) (standing self.old) }
        ensures lots { depth_lots self.new ≡ after result (with_lot (depth_lots self.old) series side lot) (depth_lots self.old) }
        ensures posted { posted_count self.new ≡ after result (posted_count self.old + 1) (posted_count self.old) }
        ensures places { places self.new ≡ places self.old }
    {
        let number = self.admit(series, side, lot)?;
        self.put(series, side, lot, number);
        Ok(number)
    }

    /// Withdraws the lot that has the number; its place is free again.
    pub fn withdraw(&mut self, number: u32) -> Result<(), Refusal>
        ensures answer { result ≡ withdraw_answer number (standing self.old) }
        ensures standing { standing self.new ≡ without_lot number (standing self.old) }
        ensures lots { depth_lots self.new ≡ lots_of (without_lot number (standing self.old)) }
        ensures moved { Withdraws number (standing self.old) (standing self.new) result }
        ensures counts { counts self.new ≡ counts self.old }
    {
        let Some(place) = self.place_of(number) else {
            return Err(Refusal::at(Station::Withdraw, Reason::NoLot));
        };
        self.remove(place, number);
        Ok(())
    }

    /// Takes a quantity from the front of a side, lot by lot: a lot that is reduced keeps its place and
    /// its number, and one that is taken whole does not stand.
    pub fn take(&mut self, series: u32, side: Side, quantity: u32) -> Result<(), Refusal>
        ensures answer { result ≡ take_answer (depth_lots self.old) series side quantity }
        ensures standing { standing self.new ≡ after result (take_lots series side quantity (standing self.old)) (standing self.old) }
        ensures moved { Takes series side quantity (standing self.old) (standing self.new) result }
        ensures lots { depth_lots self.new ≡ after result (taken (depth_lots self.old) series side quantity) (depth_lots self.old) }
        ensures counts { counts self.new ≡ counts self.old }
    {
        self.allow(series, side, quantity)?;
        self.reduce(series, side, quantity);
        Ok(())
    }
}

impl<'a> SimpleBook for DepthBook<'a> {
    ghost lots = { depth_lots };

    ghost lawful = { depth_lawful };

    ghost Frame = { ℕ × ℕ };

    ghost frame = { counts };

    fn best(&mut self, series: u32, side: Side) -> Option<Best> {
        side::best(self.of_side(series, side))
    }

    fn take(&mut self, series: u32, side: Side, quantity: u32) -> Result<(), Refusal> {
        DepthBook::take(self, series, side, quantity)
    }
}
