//! What is looked for among the entries of a list, and how its slots are shifted.

ghost use Rattle.std.specs.Prelude.{◌≡◌, ◌+◌, ◌-◌, ◌<◌, ◌≤◌, ◌++◌, true, length, take, drop, is_some, if◌then◌else◌, Some, MatchOption, nat_lt, slice_set};
ghost use Rattle.std.specs.List.{slice_get, remove};
ghost use Rattle.ranked.specs.Ranking.{place_of, place_with, ranked_insert, range_of, Absent, Standing};
ghost use Rattle.ranked.specs.Laws.{LawfulInsertion, LawfulRemoval, LawfulRangeRemoval, LawfulReplacement};

use crate::rank::Ranked;
use std::mem;

/// The entry at a place, if there is such a place.
pub(crate) fn entry_at<E: Copy>(entries: &[E], place: usize) -> Option<E>
    ensures answer { result ≡ slice_get entries.now place }
    ensures within { is_some result ≡ nat_lt place (length entries.now) }
{
    entries.get(place).copied()
}

/// The first place at which an entry has the number, if any has it.
pub(crate) fn place_with<E: Ranked>(entries: &[E], number: u32) -> Option<usize>
    ensures answer { result ≡ place_with E.serial number entries.now }
    ensures found { MatchOption result (Absent E.serial number entries.now) (Standing E.serial number entries.now) }
{
    entries.iter().position(|entry| entry.number() == number)
}

/// Where an entry belongs among those of a list. A walk from the front: the entries need not be in rank.
pub(crate) fn place_of<E: Ranked>(entries: &[E], e: &E) -> usize
    ensures place { result ≡ place_of E.ahead e.now entries.now }
    ensures within { result ≤ length entries.now }
{
    entries
        .iter()
        .position(|entry| !entry.is_ahead(e))
        .unwrap_or(entries.len())
}

// `n` stands beside the slots: tried, the proof did not close: of a part lent out of `&mut self` only the length is known.
/// Puts an entry in among the first `n`, at the place where it belongs: those from there on move up by one slot.
pub(crate) fn put_in<E: Ranked>(slots: &mut [E], n: usize, place: usize, e: E)
    requires within { (place ≤ n) × (n < length slots.old) }
    requires place { place ≡ place_of E.ahead e (take n slots.old) }
    ensures after { take (n + 1) slots.new ≡ ranked_insert E.ahead e (take n slots.old) }
    ensures laws { LawfulInsertion E.ahead E.serial e (take n slots.old) true (take (n + 1) slots.new) }
{
    slots.copy_within(place..n, place + 1);
    slots[place] = e;
}

/// Takes the entry at a place out from among the first `n`: those behind it move down by one slot.
pub(crate) fn take_out<E: Ranked>(slots: &mut [E], n: usize, place: usize) -> E
    requires { (place < n) × (n ≤ length slots.old) }
    ensures answer { Some result ≡ slice_get (take n slots.old) place }
    ensures after { take (n - 1) slots.new ≡ remove (take n slots.old) place }
    ensures laws { LawfulRemoval E.ahead E.serial (take n slots.old) (Some result) (take (n - 1) slots.new) }
{
    let e = slots[place];
    slots.copy_within(place + 1..n, place);
    e
}

/// Takes the entries out from among the first `n` that stand from one place up to another: those behind them
/// move down.
pub(crate) fn take_range<E: Ranked>(slots: &mut [E], n: usize, first: usize, end: usize)
    requires { (first ≤ end) × (end ≤ n) × (n ≤ length slots.old) }
    ensures after { take (n - (end - first)) slots.new ≡ take first (take n slots.old) ++ drop end (take n slots.old) }
    ensures laws { LawfulRangeRemoval E.ahead E.serial (take n slots.old) (range_of first end (take n slots.old)) (take (n - (end - first)) slots.new) }
{
    slots.copy_within(end..n, first);
}

/// Puts an entry in the place of one of the first `n`, and answers that one, if there is such a place.
pub(crate) fn exchange<E: Ranked>(slots: &mut [E], n: usize, place: usize, e: E) -> Option<E>
    requires { n ≤ length slots.old }
    ensures answer { result ≡ slice_get (take n slots.old) place }
    ensures within { is_some result ≡ nat_lt place (length (take n slots.old)) }
    ensures after { take n slots.new ≡ (if is_some result then slice_set (take n slots.old) place e else take n slots.old) }
    ensures laws { LawfulReplacement E.ahead E.serial e (take n slots.old) result (take n slots.new) }
{
    if place >= n {
        return None;
    }
    Some(mem::replace(&mut slots[place], e))
}
