//! The numbers of the rules on depth books.

/// A depth book stands in memory of so many places, one for each lot.
pub const LOT_PLACES: usize = 1024;

/// So many lots are posted to one book at most, in all its life.
pub const MOST_POSTED: u32 = 1_000_000;
