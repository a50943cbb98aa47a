// The legs of strategies.

// A series, how it trades when the strategy is bought, and how many contracts of it to one strategy.
#[derive(Clone, Copy, PartialEq, Eq, Debug)]
pub struct Leg {
    pub series: u32,
    // whether it is bought when the strategy is bought; else it is sold
    pub bought: bool,
    pub ratio: u32,
}
