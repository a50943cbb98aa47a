// What an engine holds.
ghost use Rattle.std.specs.Prelude.{◌≤◌};
ghost use Rattle.rules.specs.Limits.{strategy_places};

use crate::limits::STRATEGY_PLACES;
use ranked::RankedList;
use rules::Order;
use strategies::StrategyRow;

// Rows of strategies: the first `count` of its places.
// An array with a count, and no Vec: the engine has fixed memory.
#[derive(Drop)]
pub(crate) struct StrategyTable {
    pub(crate) rows: [StrategyRow; STRATEGY_PLACES],
    pub(crate) count: usize,
    ghost within: { count ≤ strategy_places },
}

// The orders at rest, in the host's memory, the strategies, and how many orders were accepted.
// The book and the list are the caller's and come with each call, as two parameters: no type of this crate can hold that the
// book's frame stays.
#[derive(Drop)]
pub struct Engine<'a> {
    pub(crate) orders: RankedList<'a, Order>,
    pub(crate) table: StrategyTable,
    pub(crate) accepted: u32,
}
