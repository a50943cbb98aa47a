// The strategies that are defined, by number.
ghost use Rattle.std.specs.Prelude.{◌≡◌, ◌+◌, ◌<◌, ◌≤◌, [], ◌∷◌, ◌++◌, length, take};
ghost use Rattle.std.specs.Option.{option_map, ForSome};
ghost use Rattle.strategies.specs.Rows.{row_legs};
ghost use Rattle.strategies.specs.Strategies.{strategy_legs};
ghost use Rattle.rules.specs.Limits.{strategy_places};
ghost use Rattle.rules.specs.States.{strategy_at, stands_among};
ghost use Rattle.engine.specs.Table.{rows_of};

use crate::held::StrategyTable;
use crate::limits::STRATEGY_PLACES;
use stepping::Defined;
use strategies::{Leg, Strategy, StrategyRow};

// What a place holds that no strategy has: a lawful row.
const UNUSED: StrategyRow = StrategyRow {
    count: 2,
    legs: [
        Leg {
            series: 0,
            bought: true,
            ratio: 1,
        },
        Leg {
            series: 1,
            bought: false,
            ratio: 1,
        },
        Leg {
            series: 2,
            bought: false,
            ratio: 1,
        },
        Leg {
            series: 3,
            bought: false,
            ratio: 1,
        },
    ],
};

impl StrategyTable {
    // A table with no strategy.
    pub(crate) fn new() -> StrategyTable
        ensures { rows_of result ≡ [] }
    {
        StrategyTable {
            rows: [UNUSED; STRATEGY_PLACES],
            count: 0,
        }
    }

    // How many strategies are defined.
    pub(crate) fn len(&self) -> usize
        ensures count { result ≡ length (rows_of self.now) }
        ensures within { result ≤ strategy_places }
    {
        self.count
    }

    // The rows of the strategies that are defined.
    fn defined(&self) -> &[StrategyRow]
        ensures { result.now ≡ rows_of self.now }
    {
        &self.rows[..self.count]
    }

    // The strategy of a number.
    pub(crate) fn strategy(&self, number: u32) -> Option<Defined>
        ensures legs { option_map (λ x. strategy_legs x.strategy) result ≡ strategy_at (rows_of self.now) number }
        ensures number { ForSome result (λ x. x.number ≡ number) }
    {
        let row = self.defined().get(number as usize)?;
        let strategy = Strategy::try_from(*row).ok()?;
        Some(Defined { number, strategy })
    }

    // Whether a strategy of the row's legs is defined.
    pub(crate) fn stands(&self, row: &StrategyRow) -> bool
        ensures { result ≡ stands_among (row_legs row.now) (rows_of self.now) }
    {
        self.defined()
            .iter()
            .any(|other| other.counted() == row.counted())
    }

    // Defines one strategy more.
    pub(crate) fn push(&mut self, row: StrategyRow)
        requires { length (rows_of self.old) < strategy_places }
        ensures { rows_of self.new ≡ rows_of self.old ++ (row ∷ []) }
    {
        self.rows[self.count] = row;
        self.count += 1;
    }
}
