//! A list of entries in rank.

ghost use Rattle.std.specs.Prelude.{◌≡◌, ◌+◌, ◌^◌, ◌<◌, ◌≤◌, true, [], length, take, is_some, if◌then◌else◌, MatchOption, nat_lt, slice_set};
ghost use Rattle.std.specs.List.{slice_get, remove};
ghost use Rattle.ranked.specs.Ranking.{place_with, ranked_insert, range_of, without_range, Absent, Standing};
ghost use Rattle.ranked.specs.Held.{items, room};
ghost use Rattle.ranked.specs.Laws.{LawfulInsertion, LawfulRemoval, LawfulRangeRemoval, LawfulReplacement};

use crate::rank::Ranked;
use crate::slots;
use std::ops::Range;

/// Entries in rank, in slots that the caller lends: the first `len` of them, or all if there are fewer.
/// It has no invariant of its own, so that a struct that has one can hold it by value. The count stands beside
/// the slots: they are the caller's, and hold what they held behind the entries; a `Vec` needs a heap.
#[derive(Drop)]
pub struct RankedList<'a, E> {
    slots: &'a mut [E],
    len: usize,
}

// Each change says that the room stays: a fact of before and after, which no type can hold.
impl<'a, E: Ranked> RankedList<'a, E> {
    /// A list with no entry, whatever the slots hold.
    pub fn open(slots: &'a mut [E]) -> Self
        ensures items { items result ≡ [] }
        ensures room { room result ≡ length slots.old }
    {
        RankedList { slots, len: 0 }
    }

    /// How many entries there is room for.
    pub fn capacity(&self) -> usize
        ensures { result ≡ room self.now }
    {
        self.slots.len()
    }

    /// How many entries there are: they stand in the first slots.
    pub fn len(&self) -> usize
        ensures count { result ≡ length (items self.now) }
        ensures within { result ≤ room self.now }
        ensures front { take result self.now.slots.now ≡ items self.now }
    {
        self.len.min(self.capacity())
    }

    /// The entries, in order.
    pub fn entries(&self) -> &[E]
        ensures { result.now ≡ items self.now }
    {
        &self.slots[..self.len()]
    }

    /// The entry at a place, if there is such a place; then the next place is a number too.
    pub fn get(&self, place: usize) -> Option<E>
        ensures answer { result ≡ slice_get (items self.now) place }
        ensures within { is_some result ≡ nat_lt place (length (items self.now)) }
        ensures next { is_some result ≡ true → place + 1 < 2 ^ 64 }
    {
        slots::entry_at(self.entries(), place)
    }

    /// The first place at which an entry has the number, if any has it.
    pub fn find(&self, number: u32) -> Option<usize>
        ensures answer { result ≡ place_with E.serial number (items self.now) }
        ensures found { MatchOption result (Absent E.serial number (items self.now)) (Standing E.serial number (items self.now)) }
    {
        slots::place_with(self.entries(), number)
    }

    /// Puts an entry in behind every entry that is ahead of it, and before the rest, and answers whether there
    /// was room. Where there is none nothing changes.
    pub fn insert(&mut self, e: E) -> bool
        ensures answer { result ≡ nat_lt (length (items self.old)) (room self.old) }
        ensures items { items self.new ≡ (if result then ranked_insert E.ahead e (items self.old) else items self.old) }
        ensures count { length (items self.new) ≡ length (items self.old) + (if result then 1 else 0) }
        ensures room { room self.new ≡ room self.old }
        ensures laws { LawfulInsertion E.ahead E.serial e (items self.old) result (items self.new) }
    {
        let n = self.len();
        if n == self.slots.len() {
            return false;
        }
        let place = slots::place_of(self.entries(), &e);
        slots::put_in(self.slots, n, place, e);
        self.len = n + 1;
        true
    }

    /// Takes the entry at a place out, and answers it. Where there is no such place nothing changes.
    pub fn remove(&mut self, place: usize) -> Option<E>
        ensures answer { result ≡ slice_get (items self.old) place }
        ensures within { is_some result ≡ nat_lt place (length (items self.old)) }
        ensures items { items self.new ≡ (if is_some result then remove (items self.old) place else items self.old) }
        ensures count { length (items self.new) + (if is_some result then 1 else 0) ≡ length (items self.old) }
        ensures room { room self.new ≡ room self.old }
        ensures laws { LawfulRemoval E.ahead E.serial (items self.old) result (items self.new) }
    {
        let n = self.len();
        if place >= n {
            return None;
        }
        let e = slots::take_out(self.slots, n, place);
        self.len = n - 1;
        Some(e)
    }

    /// Takes the entries out that stand from one place up to another, as far as there are such.
    pub fn remove_range(&mut self, places: Range<usize>)
        ensures items { items self.new ≡ without_range places.start places.end (items self.old) }
        ensures room { room self.new ≡ room self.old }
        ensures laws { LawfulRangeRemoval E.ahead E.serial (items self.old) (range_of places.start places.end (items self.old)) (items self.new) }
    {
        let n = self.len();
        let end = places.end.min(n);
        if places.start < end {
            slots::take_range(self.slots, n, places.start, end);
            self.len = n - (end - places.start);
        }
    }

    /// Puts another entry in the place of one, and answers that one. Where there is no such place nothing
    /// changes.
    pub fn replace(&mut self, place: usize, e: E) -> Option<E>
        ensures answer { result ≡ slice_get (items self.old) place }
        ensures within { is_some result ≡ nat_lt place (length (items self.old)) }
        ensures items { items self.new ≡ (if is_some result then slice_set (items self.old) place e else items self.old) }
        ensures count { length (items self.new) ≡ length (items self.old) }
        ensures room { room self.new ≡ room self.old }
        ensures laws { LawfulReplacement E.ahead E.serial e (items self.old) result (items self.new) }
    {
        let n = self.len();
        slots::exchange(self.slots, n, place, e)
    }
}
