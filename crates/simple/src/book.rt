// What every simple book does, and what it means.
ghost use Rattle.std.specs.Prelude.{◌≡◌};
ghost use Rattle.simple.specs.Lots.{Lots, Lawful};
ghost use Rattle.simple.specs.Best.{best_of, BestTold};
ghost use Rattle.simple.specs.Take.{take_answer, taken, after, TakeMoved};
ghost use Rattle.simple.specs.BestTold.{best_told};
ghost use Rattle.simple.specs.TakeMoved.{take_moved};

use crate::lot::{Best, Side};
use refusals::Refusal;

// A simple book: for each series and each side a list of lots, best price first.
pub trait SimpleBook {
    // its meaning
    ghost lots: { Self → Lots };

    // the lists of every value are those that a simple book can have
    ghost lawful: { (b : Self) → Lawful (lots b) };

    // what best tells: the first lot's price, than which no lot has a better one
    ghost told: { (b : Lots) → Lawful b → BestTold b } = { best_told };

    // what an accepted take moves: its quantity, from the front of its side, and nothing elsewhere
    ghost moved: { (b : Lots) → TakeMoved b } = { take_moved };

    // what best and take never change
    ghost Frame: { Type 0 };

    ghost frame: { Self → Frame };

    // The best of a side, or nothing where it has no lot. No lot changes.
    fn best(&mut self, series: u32, side: Side) -> Option<Best>
        ensures answer { result ≡ best_of (lots self.old series side) }
        ensures lots { lots self.new ≡ lots self.old }
        ensures frame { frame self.new ≡ frame self.old };

    // Removes a quantity from the front of a side, lot by lot; no more than stands at the best price.
    fn take(&mut self, series: u32, side: Side, quantity: u32) -> Result<(), Refusal>
        ensures answer { result ≡ take_answer (lots self.old) series side quantity }
        ensures lots { lots self.new ≡ after result (taken (lots self.old) series side quantity) (lots self.old) }
        ensures frame { frame self.new ≡ frame self.old };
}
