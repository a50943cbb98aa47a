//! A quantity taken from the front of one side.

ghost use Rattle.std.specs.Prelude.{◌≡◌, ◌+◌, ◌-◌, ◌<◌, ◌≤◌, length, take as head_of, IfSome, MatchOption, slice_set};
ghost use Rattle.std.specs.List.{slice_get};
ghost use Rattle.simple.specs.Lots.{contracts};
ghost use Rattle.ranked.specs.Held.{items, room};
ghost use Rattle.ranked.specs.Ranking.{Sorted};
ghost use Rattle.lots.specs.Rank.{lot_ahead};
ghost use Rattle.depth.specs.Lots.{all_lots};
ghost use Rattle.depth.specs.Take.{take_lots, reduced};

use crate::side;
use lots::PostedLot;
use ranked::RankedList;
use simple::Side;

/// How many of a side's lots go whole, from its front, where a quantity is taken, and what is left of it then.
fn whole(lots: &[PostedLot], quantity: u32) -> (usize, u32)
    ensures within { result.0 ≤ length lots.now }
    ensures gone { contracts (all_lots (head_of result.0 lots.now)) + result.1 ≡ quantity }
    ensures next { IfSome (slice_get lots.now result.0) (λ x. result.1 < x.lot.size) }
{
    let mut left = quantity;
    // `position` would be no plainer: its closure would have to count down what is left.
    for (i, entry) in lots.iter().enumerate() {
        if left < entry.lot.size {
            return (i, left);
        }
        left -= entry.lot.size;
    }
    (lots.len(), left)
}

/// Takes a quantity from the lot at a place, which keeps its place and its number.
fn reduce(lots: &mut RankedList<PostedLot>, place: usize, quantity: u32)
    requires { IfSome (slice_get (items lots.old) place) (λ x. quantity ≤ x.lot.size) }
    ensures items { MatchOption (slice_get (items lots.old) place) (items lots.new ≡ items lots.old) (λ x. items lots.new ≡ slice_set (items lots.old) place (reduced x (x.lot.size - quantity))) }
    ensures room { room lots.new ≡ room lots.old }
{
    if let Some(mut entry) = lots.get(place) {
        entry.lot.size -= quantity;
        let _ = lots.replace(place, entry);
    }
}

/// Takes a quantity from the front of a side, lot by lot.
pub(crate) fn take(lots: &mut RankedList<PostedLot>, series: u32, side: Side, quantity: u32)
    requires { Sorted lot_ahead (items lots.old) }
    ensures items { items lots.new ≡ take_lots series side quantity (items lots.old) }
    ensures room { room lots.new ≡ room lots.old }
{
    let own = side::places(lots.entries(), series, side);
    let (gone, left) = whole(&lots.entries()[own.start..own.end], quantity);
    let next = own.start + gone;
    if next < own.end {
        reduce(lots, next, left);
    }
    lots.remove_range(own.start..next);
}
