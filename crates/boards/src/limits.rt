// The numbers of the rules on quote boards.

// A quote board carries the series from 0 to this.
pub const LAST_QUOTED: u32 = 31;

// So that it carries this many.
pub const QUOTED_COUNT: usize = 32;
