//! Which places an outlook has come to, and behind how many labels.
//!
//! It is a cache, and its room has a limit: where that is reached, or memory is refused, a place isn't noted, and what
//! comes to it again finds out again.
ghost use Rattle.std.specs.Prelude.{◌≡◌, ◌⊎◌, ℕ, ◌<◌, true, false, length, Some, OnOk};
ghost use Rattle.rp_words.specs.Later.{IsLater};
ghost use Rattle.rp_pattern.specs.Visited.{has_place, was_at, was_at_option};

use rp_words::End;
use std::alloc::{AllocError, Global};

/// In so many turns nothing is noted, so that what is short stays cheap.
const FIRST_TURNS: u32 = 1_000;

/// No place is noted once there are so many flags, of a byte each. With the room that lists grow by they take 16 MiB.
const MOST_FLAGS: usize = 8_388_608;

/// Which places were come to behind one number of labels: a flag for each place up to the last one of them.
#[derive(Drop)]
pub(crate) struct VisitedPlaces {
    flags: Vec<bool>,
}

/// Which places were come to, over the rows 1 to `known` and that end.
#[derive(Drop)]
pub(crate) struct Visited {
    alloc: Global,
    pub known: u64,
    pub end: End,
    /// The turns so far.
    turns: u32,
    /// How many flags there are in all.
    flags: usize,
    /// By the number of labels.
    depths: Vec<VisitedPlaces>,
}

#[tactic(auto, unfolding(crate::specs::Visited::was_at))]
impl Visited {
    /// No place was come to. It takes no memory.
    pub(crate) fn new(alloc: Global) -> Visited
        ensures { (place depth : ℕ) → was_at result place depth ≡ false }
    {
        Visited {
            alloc,
            known: 0,
            end: End::Open,
            turns: 0,
            flags: 0,
            depths: Vec::new(alloc),
        }
    }

    /// Another turn, over the rows 1 to n and that end. Where those before can't have come to these, all is forgotten.
    pub(crate) fn go_on(&mut self, n: u64, end: End)
        ensures known { self.new.known ≡ n }
        ensures end { self.new.end ≡ end }
        ensures keeps { IsLater self.old.known self.old.end n end → (place depth : ℕ) →
            was_at self.new place depth ≡ was_at self.old place depth }
        ensures only { (place depth : ℕ) → was_at self.new place depth ≡ true →
            IsLater self.old.known self.old.end n end × (was_at self.old place depth ≡ true) }
    {
        let later = comes_later(self.known, self.end, n, end);
        self.known = n;
        self.end = end;
        self.turns = self.turns.saturating_add(1);
        if later {
            return;
        }
        self.clear();
    }

    /// Whether the place was come to behind so many labels, if there is a place.
    pub(crate) fn has(&self, place: Option<u32>, depth: usize) -> bool
        ensures { result ≡ was_at_option self.now place depth }
    {
        let Some(place) = place else {
            return false;
        };
        match self.depths.get(depth) {
            None => false,
            Some(places) => places.has(place as usize),
        }
    }

    /// The place was come to behind so many labels, if there is a place. It isn't noted in the first turns, nor where
    /// there is no room, nor where memory is refused.
    pub(crate) fn note(&mut self, place: Option<u32>, depth: usize)
        ensures known { self.new.known ≡ self.old.known }
        ensures end { self.new.end ≡ self.old.end }
        ensures keeps { (q d : ℕ) → was_at self.old q d ≡ true → was_at self.new q d ≡ true }
        ensures only { (q d : ℕ) → was_at self.new q d ≡ true →
            (was_at self.old q d ≡ true) ⊎ ((place ≡ Some q) × (d ≡ depth)) }
    {
        let Some(place) = place else {
            return;
        };
        if self.turns <= FIRST_TURNS || self.flags >= MOST_FLAGS {
            return;
        }
        let _ = self.add(place as usize, depth);
    }

    /// Notes the place behind so many labels. Where memory is refused it isn't noted.
    fn add(&mut self, place: usize, depth: usize) -> Result<(), AllocError>
        ensures known { self.new.known ≡ self.old.known }
        ensures end { self.new.end ≡ self.old.end }
        ensures noted { OnOk result (was_at self.new place depth ≡ true) }
        ensures keeps { (q d : ℕ) → was_at self.old q d ≡ true → was_at self.new q d ≡ true }
        ensures only { (q d : ℕ) → was_at self.new q d ≡ true →
            (was_at self.old q d ≡ true) ⊎ ((q ≡ place) × (d ≡ depth)) }
    {
        self.make_room(depth)?;
        let more = self.depths[depth].add(place)?;
        self.flags = self.flags.saturating_add(more);
        Ok(())
    }

    /// Makes room for the places behind so many labels.
    fn make_room(&mut self, depth: usize) -> Result<(), AllocError>
        ensures known { self.new.known ≡ self.old.known }
        ensures end { self.new.end ≡ self.old.end }
        ensures room { OnOk result (depth < length self.new.depths.items) }
        ensures same { (q d : ℕ) → was_at self.new q d ≡ was_at self.old q d }
    {
        while self.depths.len() <= depth {
            self.depths.push(VisitedPlaces::new(self.alloc))?;
        }
        Ok(())
    }

    /// Forgets all.
    pub(crate) fn clear(&mut self)
        ensures known { self.new.known ≡ self.old.known }
        ensures end { self.new.end ≡ self.old.end }
        ensures none { (place depth : ℕ) → was_at self.new place depth ≡ false }
    {
        self.depths.clear();
        self.flags = 0;
    }
}

impl VisitedPlaces {
    /// None was come to. It takes no memory.
    fn new(alloc: Global) -> VisitedPlaces
        ensures { (place : ℕ) → has_place result place ≡ false }
    {
        VisitedPlaces {
            flags: Vec::new(alloc),
        }
    }

    fn has(&self, place: usize) -> bool
        ensures { result ≡ has_place self.now place }
    {
        match self.flags.get(place) {
            None => false,
            Some(flag) => *flag,
        }
    }

    /// Notes a place, and tells how many flags more there are.
    fn add(&mut self, place: usize) -> Result<usize, AllocError>
        ensures noted { OnOk result (has_place self.new place ≡ true) }
        ensures keeps { (q : ℕ) → has_place self.old q ≡ true → has_place self.new q ≡ true }
        ensures only { (q : ℕ) → has_place self.new q ≡ true → (has_place self.old q ≡ true) ⊎ (q ≡ place) }
    {
        let before = self.flags.len();
        self.make_room(place)?;
        self.flags[place] = true;
        Ok(self.flags.len().saturating_sub(before))
    }

    /// Makes room for the flag of a place.
    fn make_room(&mut self, place: usize) -> Result<(), AllocError>
        ensures room { OnOk result (place < length self.new.flags.items) }
        ensures same { (q : ℕ) → has_place self.new q ≡ has_place self.old q }
    {
        while self.flags.len() <= place {
            self.flags.push(false)?;
        }
        Ok(())
    }
}

/// Whether the rows 1 to `known` and `end` may come to the rows 1 to n and the end `last`.
fn comes_later(known: u64, end: End, n: u64, last: End) -> bool
    ensures is { result ≡ true → IsLater known end n last }
    ensures all { IsLater known end n last → result ≡ true }
{
    match end {
        End::Open => known <= n,
        End::Closed => known == n && last == End::Closed,
    }
}
