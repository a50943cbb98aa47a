// The numbers of the rules on strategies.

// A strategy has at least so many legs.
pub const FEWEST_LEGS: u32 = 2;

// And at most so many.
pub const MOST_LEGS: u32 = 4;

// So that a row and a strategy have this many places.
pub const LEG_PLACES: usize = 4;

// A ratio is 1 to this.
pub const HIGHEST_RATIO: u32 = 8;

// The largest ratio is at most so many times the smallest.
pub const RATIO_SPREAD: u32 = 3;
