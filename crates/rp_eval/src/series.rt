//! What is kept of one total of a plan, by depth of the label list.
ghost use Rattle.std.specs.Prelude.{◌≡◌, ◌≤◌, true, Some, length, take};
ghost use Rattle.std.specs.List.Sorted.{IsNonDecreasing};
ghost use Rattle.rp_query.specs.declared.plan.Edge.TheVariants.{Last};
ghost use Rattle.rp_eval.specs.Mapped.{place_in};
ghost use Rattle.rp_eval.specs.Kept.{places_to};

use crate::Rows;
use crate::tally::Tally;
use rp_query::{Change, Edge};
use std::alloc::{AllocError, Global};
use std::marker::Model;

/// What one total keeps of a list of labels: the places of its labels where it lists rows, and else a tally for each depth.
#[derive(Drop)]
pub(crate) struct Series {
    /// That of the first label, that of the first two, and so on.
    tallies: Vec<Tally>,
    /// How many labels stand before each label of the total's variables, ascending: its row lies as far after the start row.
    places: Vec<usize>,
}

impl Model for Series {
    ghost use Rattle.rp_eval.specs.Kept.{Kept};

    ghost Value = { Kept };

    ghost view = { λ s. record { tallies = s.tallies.items; places = s.places.items } };
}

impl Series {
    ghost use Rattle.std.specs.Prelude.{ℕ, ◌+◌, ◌-◌, ◌^◌, ◌<◌, List, [], ◌∷◌, ◌++◌, map, OnOk, OnErr};
    ghost use Rattle.std.specs.List.{AllByRecursion};
    ghost use Rattle.rp_eval.specs.Kept.{tally_at, cut_back, changed};

    /// That of no label.
    pub fn new(alloc: Global) -> Series
        ensures { result ≡ record { tallies = []; places = [] } }
    {
        Series {
            tallies: Vec::new(alloc),
            places: Vec::new(alloc),
        }
    }

    /// The tally over the first `depth` labels. A total that lists rows has none.
    pub fn tally(&self, depth: usize) -> Tally
        ensures { result ≡ tally_at self.now.tallies depth }
    {
        if depth == 0 || depth > self.tallies.len() {
            Tally::new()
        } else {
            self.tallies[depth - 1]
        }
    }

    /// Whether the last row that is listed lies so far after the start row.
    pub fn ends_at(&self, distance: u64) -> bool
        ensures { result ≡ true → place_in Last 0 self.now.places ≡ Some distance }
    {
        match self.places.last() {
            None => false,
            Some(last) => *last as u64 == distance,
        }
    }

    /// The row at an offset from an end of those that are listed for the first `depth` labels, from a start row on.
    pub fn place(&self, start: u64, depth: usize, edge: Edge, offset: u64) -> Option<u64>
        requires ascend { IsNonDecreasing self.now.places }
        requires room { AllByRecursion (λ place. start + place < 2 ^ 64) self.now.places }
        ensures { result ≡ place_in edge offset (map (λ place. start + place) (places_to depth self.now.places)) }
    {
        let all = self.places.as_slice();
        let place = place_among(&all[..places_below(all, depth)], edge, offset)?;
        Some(start + place as u64)
    }

    /// One more label is entered that so many are before, by what its row changes.
    pub fn enter<R: Rows>(
        &mut self,
        change: Change,
        rows: &R,
        start: u64,
        place: usize,
    ) -> Result<(), AllocError>
        requires row { start + place < 2 ^ 64 }
        requires count { (tally_at self.old.tallies place).count < 2 ^ 64 - 1 }
        requires sum { (tally_at self.old.tallies place).sum.count < 2 ^ 64 - 1 }
        ensures entered { OnOk result (self.new ≡ changed (R.known rows.now) start place change self.old) }
        ensures err { OnErr result (self.new ≡ self.old) }
    {
        match change {
            Change::Nothing => Ok(()),
            Change::Listed => self.list(place),
            Change::Same => {
                let tally = self.tally(place);
                self.push(tally)
            }
            Change::Added(function) => {
                let tally = self.tally(place);
                self.push(tally.with_row(function, rows, start + place as u64))
            }
        }
    }

    fn push(&mut self, tally: Tally) -> Result<(), AllocError>
        ensures pushed { OnOk result (self.new ≡ record self.old { tallies = self.old.tallies ++ tally ∷ [] }) }
        ensures err { OnErr result (self.new ≡ self.old) }
    {
        self.tallies.push(tally)?;
        Ok(())
    }

    fn list(&mut self, place: usize) -> Result<(), AllocError>
        ensures listed { OnOk result (self.new ≡ record self.old { places = self.old.places ++ place ∷ [] }) }
        ensures err { OnErr result (self.new ≡ self.old) }
    {
        self.places.push(place)?;
        Ok(())
    }

    /// The labels are cut back to the first `depth`, where there are more.
    pub fn cut(&mut self, depth: usize)
        ensures { self.new ≡ cut_back depth self.old }
    {
        self.tallies.truncate(depth);
        let left = places_left(self.places.as_slice(), depth);
        self.places.truncate(left);
    }
}

/// How many of these places, which ascend, are below a depth.
fn places_below(places: &[usize], depth: usize) -> usize
    requires { IsNonDecreasing places.now }
    ensures within { result ≤ length places.now }
    ensures below { take result places.now ≡ places_to depth places.now }
{
    let Some(last) = places.last() else {
        return 0;
    };
    if *last < depth {
        return places.len();
    }
    // Where all labels from the depth on are the total's, the first place that isn't below it stands as far before the last
    // one as the depth is less than that.
    let at = (places.len() - 1).saturating_sub(*last - depth);
    if places[at] >= depth && (at == 0 || places[at - 1] < depth) {
        return at;
    }
    places.partition_point(|place| *place < depth)
}

/// How many places are left without the last ones that aren't below a depth: a cut mostly goes back by few labels.
fn places_left(places: &[usize], depth: usize) -> usize
    ensures { take result places.now ≡ places_to depth places.now }
{
    let mut left = places.len();
    while left > 0 && places[left - 1] >= depth {
        left -= 1;
    }
    left
}

/// The place at an offset from an end of these.
fn place_among(places: &[usize], edge: Edge, offset: u64) -> Option<usize>
    ensures { result ≡ place_in edge offset places.now }
{
    let place = match edge {
        Edge::First => places.get(offset as usize),
        Edge::Last => {
            if offset < places.len() as u64 {
                places.get(places.len() - 1 - offset as usize)
            } else {
                None
            }
        }
    };
    place.copied()
}
