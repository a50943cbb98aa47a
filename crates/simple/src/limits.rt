// The numbers of the rules on simple books.

// Series are numbered from 0 to this.
pub const LAST_SERIES: u32 = 1023;

// So that there are this many.
pub const SERIES_COUNT: usize = 1024;

// A lot's price is 1 cent to this many.
pub const HIGHEST_PRICE: u32 = 1_000_000;

// One side of one series holds at most so many contracts.
pub const SIDE_LIMIT: u32 = 1_000_000;

// A lot comes onto a book with at most so many contracts.
pub const LOT_LIMIT: u32 = 500_000;
