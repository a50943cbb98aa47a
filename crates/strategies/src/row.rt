// Rows of legs, as they come, and the rule that one breaks.
ghost use Rattle.std.specs.Prelude.{◌≡◌, true, min, length, is_ok};
ghost use Rattle.std.specs.Result.{result_err};
ghost use Rattle.strategies.specs.Limits.{most_legs};
ghost use Rattle.strategies.specs.Lawful.{Exactly};
ghost use Rattle.strategies.specs.Rows.{row_legs, row_fault, LawfulRow};

use crate::leg::Leg;
use crate::legs::{ratios_lawful, series_rise};
use crate::limits::{FEWEST_LEGS, LEG_PLACES, MOST_LEGS};
use refusals::Reason;

// Legs that may be lawful or not; those beyond the count are ignored.
// An array with a count, and no Vec: the crates of the engine have fixed memory.
#[derive(Clone, Copy, PartialEq, Eq, Debug)]
pub struct StrategyRow {
    pub count: u32,
    pub legs: [Leg; LEG_PLACES],
}

impl StrategyRow {
    // The first rule that the row breaks, where it is not lawful.
    pub fn check(&self) -> Result<(), Reason>
        ensures answer { result_err result ≡ row_fault self.now }
        ensures accepted { Exactly (is_ok result ≡ true) (LawfulRow self.now) }
    {
        if !(FEWEST_LEGS..=MOST_LEGS).contains(&self.count) {
            return Err(Reason::LegCount);
        }
        let legs = self.counted();
        if !series_rise(legs) {
            return Err(Reason::Series);
        }
        if !ratios_lawful(legs) {
            return Err(Reason::Ratio);
        }
        Ok(())
    }

    // The legs that the row counts, or all if it counts more.
    pub fn counted(&self) -> &[Leg]
        ensures value { result.now ≡ row_legs self.now }
        ensures all { length result.now ≡ min self.now.count most_legs }
    {
        &self.legs[..LEG_PLACES.min(self.count as usize)]
    }
}
