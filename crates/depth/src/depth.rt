//! The depth book.

ghost use Rattle.ranked.specs.Held.{items};
ghost use Rattle.depth.specs.Lots.{Sound};

use lots::PostedLot;
use ranked::RankedList;

/// Lots that stand, in rank, and how many were posted.
#[derive(Drop)]
pub struct DepthBook<'a> {
    lots: RankedList<'a, PostedLot>,
    posted: u32,
    ghost sound: { ∥ Sound (items lots) posted ∥₁ },
}

pub mod calls;
mod moves;
