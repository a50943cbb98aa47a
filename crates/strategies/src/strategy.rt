// What a strategy is.
ghost use Rattle.std.specs.Prelude.{◌≡◌, None};
ghost use Rattle.strategies.specs.Rows.{row_fault};

use crate::row::StrategyRow;

// The legs of a lawful row.
#[derive(Clone, Copy, PartialEq, Eq, Debug)]
pub struct Strategy {
    pub(crate) row: StrategyRow,
    ghost lawful: { row_fault row ≡ None },
}
