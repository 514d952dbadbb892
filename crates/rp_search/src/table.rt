//! A table over places and rows: below which start row a place has failed at a row.
//!
//! It is a cache, and its room has a limit. A place keeps what it has for a row in one of its slots, by the row's number modulo
//! theirs. Where another row that may still be asked for is there, the place doubles its slots, as long as the table has room for
//! them; from then on the slot is overwritten, and a search that comes to that other row again finds out again.
//!
//! Room is first for whichever place comes. Once that is taken, there is more for places that have less than an equal share: to parts of
//! the pattern that a search comes to late, as behind a long `X*`, it is worth as much to be remembered.
ghost use Rattle.std.specs.Prelude.{◌≡◌, ◌≢◌, ℕ, ◌*◌, ◌<◌, ◌≤◌, ◌%◌, ◌⊎◌, true, length, Some, Ok, IsTrue, IfOk, OnOk};
ghost use Rattle.rp_search.specs.Table.{until_at, until_row, until_of, IsFreeFor, KeepsFrom, RowsKeepFrom};

use std::alloc::{AllocError, Global};

/// So many slots a place has at first.
const FIRST_SLOTS: usize = 8;

/// Any place may double its slots while all of them are fewer: they take 16 MiB at most, but for the first ones of each place.
const MOST_SLOTS: usize = 524_288;

/// A place that has less than an equal share of `MOST_SLOTS` may double its slots while all of them are fewer than this: 36 MiB at most.
const MOST_SHARED_SLOTS: usize = 2_097_152;

/// Below which start row a place has failed at a row: 0 for nothing.
#[derive(Clone, Copy)]
pub(crate) struct Failure {
    row: u64,
    until: u64,
}

/// What became of the slots of a place where one was set.
#[derive(Clone, Copy)]
pub(crate) struct Added {
    /// So many more there are.
    slots: usize,
    /// Whether what there was for other rows is still there.
    kept: bool,
}

/// What a table has for the rows of one place.
#[derive(Drop)]
pub(crate) struct Rows {
    slots: Vec<Failure>,
}

/// What it has for places and rows.
#[derive(Drop)]
pub(crate) struct Table {
    alloc: Global,
    places: Vec<Rows>,
    /// How many slots the places have in all.
    slots: usize,
}

#[tactic(auto, unfolding(crate::specs::Table::until_of))]
impl Table {
    /// It has nothing, and takes no memory.
    pub(crate) fn new(alloc: Global) -> Table
        ensures { (place row : ℕ) → until_of result place row ≡ 0 }
    {
        Table {
            alloc,
            places: Vec::new(alloc),
            slots: 0,
        }
    }

    /// What it has for the place and the row.
    #[inline]
    pub(crate) fn until(&self, place: u32, row: u64) -> u64
        ensures { result ≡ until_of self.now place row }
    {
        match self.places.get(place as usize) {
            None => 0,
            Some(rows) => rows.until(row),
        }
    }

    /// Sets what it has for the place and the row. From the start row `from` on, rows below it aren't asked for any more. It tells
    /// whether it still has what it had for the others. Where memory is refused it isn't set.
    pub(crate) fn add(
        &mut self,
        place: u32,
        row: u64,
        until: u64,
        from: u64,
    ) -> Result<bool, AllocError>
        ensures held { OnOk result (until_of self.new place row ≡ until) }
        ensures kept { result ≡ Ok true → KeepsFrom from place row self.old self.new }
        ensures only { (q r : ℕ) → 0 < until_of self.new q r →
            (until_of self.new q r ≡ until_of self.old q r) ⊎ ((q ≡ place) × (r ≡ row) × (until_of self.new q r ≡ until)) }
    {
        self.make_room(place as usize)?;
        let has_room = self.has_room(place as usize);
        let added = self.places[place as usize].add(self.alloc, row, until, from, has_room)?;
        self.slots = self.slots.saturating_add(added.slots);
        Ok(added.kept)
    }

    /// Whether the place may double its slots.
    fn has_room(&self, place: usize) -> bool
        requires { place < length self.now.places.items }
    {
        if self.slots < MOST_SLOTS {
            return true;
        }
        let equals = self.places[place]
            .slots
            .len()
            .saturating_mul(self.places.len());
        self.slots < MOST_SHARED_SLOTS && equals < MOST_SLOTS
    }

    /// Makes room for the rows of a place.
    fn make_room(&mut self, place: usize) -> Result<(), AllocError>
        ensures room { OnOk result (place < length self.new.places.items) }
        ensures same { (q r : ℕ) → until_of self.new q r ≡ until_of self.old q r }
    {
        while self.places.len() <= place {
            self.places.push(Rows::new(self.alloc))?;
        }
        Ok(())
    }

    /// Forgets all.
    pub(crate) fn clear(&mut self)
        ensures { (place row : ℕ) → until_of self.new place row ≡ 0 }
    {
        self.places.clear();
        self.slots = 0;
    }
}

impl Rows {
    /// It has nothing, and takes no memory.
    fn new(alloc: Global) -> Rows
        ensures { (row : ℕ) → until_row result row ≡ 0 }
    {
        Rows {
            slots: Vec::new(alloc),
        }
    }

    #[inline]
    fn until(&self, row: u64) -> u64
        ensures { result ≡ until_row self.now row }
    {
        if self.slots.is_empty() {
            return 0;
        }
        self.slots[slot(row, self.slots.len())].until_at(row)
    }

    /// Sets what it has for a row. It takes more slots where that is needed, and where it may.
    fn add(
        &mut self,
        alloc: Global,
        row: u64,
        until: u64,
        from: u64,
        has_room: bool,
    ) -> Result<Added, AllocError>
        ensures held { OnOk result (until_row self.new row ≡ until) }
        ensures kept { IfOk result (λ added. added.kept ≡ true → RowsKeepFrom from row self.old self.new) }
        ensures only { (r : ℕ) → 0 < until_row self.new r →
            (until_row self.new r ≡ until_row self.old r) ⊎ ((r ≡ row) × (until_row self.new r ≡ until)) }
    {
        if self.is_ready(row, from, has_room) {
            let kept = self.is_free(row, from);
            self.set(row, until);
            return Ok(Added { slots: 0, kept });
        }
        let mut rows = self.with_more(alloc, from)?;
        let slots = rows.slots.len().saturating_sub(self.slots.len());
        let kept = rows.is_free(row, from);
        rows.set(row, until);
        *self = rows;
        Ok(Added { slots, kept })
    }

    /// Whether it has a slot for the row: one that is free, or any where there is no room for more.
    fn is_ready(&self, row: u64, from: u64, has_room: bool) -> bool
        ensures { IsTrue result → 0 < length self.now.slots.items }
    {
        if self.slots.is_empty() {
            return false;
        }
        !has_room || self.is_free(row, from)
    }

    /// Whether the slot of the row has nothing that may still be asked for of another row.
    fn is_free(&self, row: u64, from: u64) -> bool
        requires { 0 < length self.now.slots.items }
        ensures { result ≡ true → IsFreeFor from row self.now }
    {
        let found = self.slots[slot(row, self.slots.len())];
        found.row == row || found.row < from || found.until <= from
    }

    /// Twice as many slots, or the first ones.
    fn twice(&self) -> usize
        ensures some { 0 < result }
        ensures twice { 0 < length self.now.slots.items → result ≡ length self.now.slots.items * 2 }
    {
        if self.slots.is_empty() {
            return FIRST_SLOTS;
        }
        self.slots.len() * 2
    }

    /// The same for rows from that one on, with twice as many slots.
    fn with_more(&self, alloc: Global, from: u64) -> Result<Rows, AllocError>
        ensures some { IfOk result (λ rows. 0 < length rows.slots.items) }
        ensures same { IfOk result (λ rows. (r : ℕ) → from ≤ r → from < until_row self.now r → until_row rows r ≡ until_row self.now r) }
        ensures only { IfOk result (λ rows. (r : ℕ) → 0 < until_row rows r → until_row rows r ≡ until_row self.now r) }
    {
        let mut rows = Rows::unset(alloc, self.twice())?;
        for at in 0..self.slots.len() {
            rows.take_over(self, at, from);
        }
        Ok(rows)
    }

    /// Sets what others have in a slot, if that may be asked for from the start row `from` on. They have half as many slots.
    fn take_over(&mut self, others: &Rows, at: usize, from: u64)
        requires at { at < length others.now.slots.items }
        requires twice { length self.old.slots.items ≡ length others.now.slots.items * 2 }
        ensures slots { length self.new.slots.items ≡ length self.old.slots.items }
        ensures taken { (r : ℕ) → from ≤ r → from < until_row others.now r →
            (r % length others.now.slots.items ≡ at) ⊎ (until_row self.old r ≡ until_row others.now r) →
            until_row self.new r ≡ until_row others.now r }
        ensures only { (r : ℕ) → 0 < until_row self.new r →
            (until_row self.new r ≡ until_row self.old r) ⊎ (until_row self.new r ≡ until_row others.now r) }
    {
        let row = others.slots[at].row;
        let until = others.until(row);
        if row < from || until <= from {
            return;
        }
        self.set(row, until);
    }

    /// It has nothing, in so many slots.
    fn unset(alloc: Global, count: usize) -> Result<Rows, AllocError>
        ensures slots { IfOk result (λ rows. length rows.slots.items ≡ count) }
        ensures none { IfOk result (λ rows. (row : ℕ) → until_row rows row ≡ 0) }
    {
        let mut slots = Vec::new(alloc);
        slots.resize(count, Failure { row: 0, until: 0 })?;
        Ok(Rows { slots })
    }

    /// Sets what it has for a row, in the place of what was in its slot.
    #[inline]
    fn set(&mut self, row: u64, until: u64)
        requires { 0 < length self.old.slots.items }
        ensures slots { length self.new.slots.items ≡ length self.old.slots.items }
        ensures held { until_row self.new row ≡ until }
        ensures others { (r : ℕ) → r % length self.old.slots.items ≢ row % length self.old.slots.items →
            until_row self.new r ≡ until_row self.old r }
        ensures only { (r : ℕ) → 0 < until_row self.new r →
            (until_row self.new r ≡ until_row self.old r) ⊎ ((r ≡ row) × (until_row self.new r ≡ until)) }
    {
        let at = slot(row, self.slots.len());
        self.slots[at] = Failure { row, until };
    }
}

impl Failure {
    #[inline]
    fn until_at(&self, row: u64) -> u64
        ensures { result ≡ until_at (Some self.now) row }
    {
        if self.row == row { self.until } else { 0 }
    }
}

/// The slot of a row among so many.
#[inline]
fn slot(row: u64, slots: usize) -> usize
    requires { 0 < slots }
    ensures is { result ≡ row % slots }
    ensures below { result < slots }
{
    (row % slots as u64) as usize
}
