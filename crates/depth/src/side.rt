//! The lots of one side of one series, which stand together among all lots. A series and a side come as two parameters, as every
//! simple book is asked for them, and that the lots stand in rank is asked where it is needed: the list itself promises no rank.

ghost use Rattle.std.specs.Prelude.{◌≡◌, ◌+◌, ◌≤◌, length};
ghost use Rattle.std.specs.List.{prefix_len};
ghost use Rattle.simple.specs.Limits.{side_limit};
ghost use Rattle.simple.specs.Lots.{contracts};
ghost use Rattle.simple.specs.Best.{best_of, best_size, customer_part, joined};
ghost use Rattle.ranked.specs.Ranking.{Sorted};
ghost use Rattle.lots.specs.Rank.{lot_ahead};
ghost use Rattle.depth.specs.Lots.{stands_on, lots_of, all_lots};
ghost use Rattle.depth.specs.Running.{stands_before, Stretch};

use lots::PostedLot;
use simple::{Best, Lot, Side};
use std::ops::Range;

/// Whether a lot stands on that side of that series.
fn is_on(lot: &PostedLot, series: u32, side: Side) -> bool
    ensures { result ≡ stands_on series side lot.now }
{
    lot.series == series && lot.side == side
}

/// Whether a lot stands before all of that side.
fn is_before(lot: &PostedLot, series: u32, side: Side) -> bool
    ensures { result ≡ stands_before series side lot.now }
{
    // tuples of keys were tried here, and make the best of a small book a third dearer
    lot.series < series || lot.series == series && lot.side == Side::Bid && side == Side::Offer
}

/// Of lots in rank, a number behind which none stands before a side, at most about twice as many as do: looked for at places that
/// double, so that what follows costs little where the side is near. A `for`: a search over `successors` would be no plainer.
fn reach(lots: &[PostedLot], series: u32, side: Side) -> usize
    ensures within { result ≤ length lots.now }
    ensures enough { prefix_len (stands_before series side) lots.now ≤ result }
{
    let mut place = 0_usize;
    for _ in 0..usize::BITS {
        let Some(lot) = lots.get(place) else {
            return lots.len();
        };
        if !is_before(lot, series, side) {
            return place;
        }
        place = place.saturating_mul(2).saturating_add(1);
    }
    lots.len()
}

/// The places of a side's lots: all lots stand in rank, so the first is found by halving what is in reach, and the others behind it.
pub(crate) fn places(lots: &[PostedLot], series: u32, side: Side) -> Range<usize>
    requires { Sorted lot_ahead lots.now }
    ensures bounds { (result.start ≤ result.end) × (result.end ≤ length lots.now) }
    ensures stretch { Stretch series side lots.now result.start result.end }
{
    let near = &lots[..reach(lots, series, side)];
    let first = near.partition_point(|lot| is_before(lot, series, side));
    let rest = &lots[first..];
    let count = rest
        .iter()
        .position(|lot| !is_on(lot, series, side))
        .unwrap_or(rest.len());
    first..first + count
}

/// The lots of a side.
pub(crate) fn of_side(lots: &[PostedLot], series: u32, side: Side) -> &[PostedLot]
    requires { Sorted lot_ahead lots.now }
    ensures { all_lots result.now ≡ lots_of lots.now series side }
{
    &lots[places(lots, series, side)]
}

/// What is best of a side once a lot follows.
fn join(best: Option<Best>, lot: Lot) -> Option<Best>
    requires { (best_size best + lot.size ≤ side_limit) × (customer_part best ≤ best_size best) }
    ensures answer { result ≡ joined best lot }
    ensures size { best_size result ≤ best_size best + lot.size }
    ensures part { customer_part result ≤ best_size result }
{
    match best {
        None => Some(Best::of(lot)),
        Some(best) if lot.price == best.price => Some(Best {
            price: best.price,
            size: best.size + lot.size,
            customer: best.customer + lot.customer_size(),
        }),
        best => best,
    }
}

/// The best price of a side's lots, and what stands at it.
pub(crate) fn best(lots: &[PostedLot]) -> Option<Best>
    requires { contracts (all_lots lots.now) ≤ side_limit }
    ensures { result ≡ best_of (all_lots lots.now) }
{
    let mut best = None;
    // Tried as a `fold`, the proof did not close: that the sizes fit at each turn, which its closure asks, was not found.
    for entry in lots {
        best = join(best, entry.lot);
    }
    best
}

/// How many contracts a side's lots have.
pub(crate) fn total(lots: &[PostedLot]) -> u32
    requires { contracts (all_lots lots.now) ≤ side_limit }
    ensures { result ≡ contracts (all_lots lots.now) }
{
    lots.iter().map(|entry| entry.lot.size).sum()
}
