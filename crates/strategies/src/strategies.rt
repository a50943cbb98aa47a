// How a strategy is made of a row, and its legs.
ghost use Rattle.std.specs.Prelude.{◌≡◌, true, is_ok};
ghost use Rattle.strategies.specs.Lawful.{Exactly, LawfulLegs, PlacedLegs};
ghost use Rattle.strategies.specs.Rows.{LawfulRow};
ghost use Rattle.strategies.specs.Strategies.{strategy_legs, checked, legs_made};

use crate::leg::Leg;
use crate::row::StrategyRow;
use crate::strategy::Strategy;
use refusals::Reason;

// The strategy of a row, or the first rule that the row breaks.
impl TryFrom<StrategyRow> for Strategy {
    type Error = Reason;

    ghost try_from_gives = { λ row made. (legs_made made ≡ checked row) × Exactly (is_ok made ≡ true) (LawfulRow row) };

    fn try_from(row: StrategyRow) -> Result<Strategy, Reason> {
        row.check()?;
        Ok(Strategy { row })
    }
}

impl Strategy {
    // The legs, in order.
    pub fn legs(&self) -> &[Leg]
        ensures value { result.now ≡ strategy_legs self.now }
        ensures lawful { LawfulLegs result.now }
        ensures placed { PlacedLegs result.now }
    {
        self.row.counted()
    }
}
