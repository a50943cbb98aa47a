// The markets of the legs of a strategy that is free.
ghost use Rattle.std.specs.Prelude.{◌≤◌, take};
ghost use Rattle.pricing.specs.Sound.{Sound};

use crate::market::LegMarket;

// The markets of the legs of one free strategy: the first `count` of `legs`, each of them open.
// An array with a count, and no Vec: the crates of the engine have fixed memory.
#[derive(Clone, Copy)]
pub struct StrategyMarket {
    pub(crate) legs: [LegMarket; 4],
    pub(crate) count: usize,
    ghost few: { count ≤ 4 },
    ghost sound: { Sound (take count legs) },
}
