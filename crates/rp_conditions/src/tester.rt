//! A query's conditions as the tests of a search.
ghost use Rattle.std.specs.Prelude.{◌≡◌, ◌+◌, ◌<◌, ◌≤◌, length};
ghost use Rattle.rp_eval.specs.Entered.{plan_of};
ghost use Rattle.rp_query.specs.QueryView.{totals_in};

use crate::entries::Entries;
use crate::laws::law_local_tests;
use rp_eval::{Rows, Totals, View, condition, law_conditions, refused_until};
use rp_query::Query;
use rp_search::{Tests, law_agreement};
use rp_words::{End, Label, Seen};
use std::alloc::AllocError;

/// The conditions of a query over the rows of a partition, which it borrows.
#[derive(Drop)]
pub struct Tester<'a, R: Rows> {
    rows: &'a R,
    query: &'a Query,
    totals: Totals,
    entries: Entries,
    ghost for_query: { plan_of totals ≡ totals_in query.now },
}

#[tactic(auto, unfolding(crate::specs::Entered::tested_by, crate::specs::Entered::HasEntered, crate::specs::Entered::entries_of))]
impl<'a, R: Rows> Tester<'a, R> {
    ghost use Rattle.std.specs.Prelude.{ℕ, List, IsTrue};
    ghost use Rattle.rp_words.specs.declared.word.Label.{Label as Marked};
    ghost use Rattle.rp_eval.specs.Entered.{AreTotals};
    ghost use Rattle.rp_conditions.specs.Entered.{tested_by, HasEntered, entries_of};
    ghost use Rattle.rp_conditions.specs.Decided.{AreKnownDecided};
    ghost use Rattle.rp_conditions.specs.Locality.{RefusedBelow};

    /// Tests by totals of the query's plan. The labels of the totals are entered, and further ones are counted.
    pub fn new(rows: &'a R, query: &'a Query, totals: Totals, entries: Entries) -> Tester<'a, R>
        requires totals { plan_of totals ≡ totals_in query.now }
        ensures subject { tested_by result ≡
            record { rows = R.known rows.now; ending = R.ending rows.now; query = query.now } }
        ensures entered { (start : ℕ) (labels : List Marked) →
            AreTotals totals (R.known rows.now) start labels → HasEntered result start labels }
        ensures counted { entries_of result ≡ entries }
    {
        Tester {
            rows,
            query,
            totals,
            entries,
        }
    }

    /// Whether it is known that the test of each known row is decided.
    fn decides_known_rows(&self) -> bool
        ensures { IsTrue result → AreKnownDecided (tested_by self.now) }
    {
        law_conditions();
        if self.query.looks_back() {
            return true;
        }
        match self.rows.end() {
            End::Closed => true,
            End::Open => false,
        }
    }

    /// Below which start row a condition refuses the row of the last label.
    fn refuses_until(&self, start: u64, labels: &[Label], most: u64) -> u64
        requires from_one { 1 ≤ start }
        requires some { 0 < length labels.now }
        requires known { start + length labels.now ≤ length (R.known self.now.rows.now) + 1 }
        requires entered { HasEntered self.now start labels.now }
        ensures { RefusedBelow (tested_by self.now) start labels.now result }
    {
        law_agreement();
        let last = labels.len() - 1;
        match self.query.definition(labels[last].var) {
            None => start,
            Some(defined) => {
                let current = start + last as u64;
                let view = View {
                    rows: self.rows,
                    start,
                    labels,
                    current,
                    number: 0,
                    totals: &self.totals,
                };
                refused_until(
                    defined,
                    &view,
                    self.query.totals().as_slice(),
                    self.query.lead(),
                    most,
                )
            }
        }
    }

    /// The totals of the labels that are entered, and the count of the calls of `enter`.
    pub fn into_parts(self) -> (Totals, Entries)
        ensures totals { plan_of result.0 ≡ totals_in (tested_by self.entry).query }
        ensures entered { (start : ℕ) (labels : List Marked) →
            HasEntered self.entry start labels → AreTotals result.0 (tested_by self.entry).rows start labels }
        ensures counted { result.1 ≡ entries_of self.entry }
    {
        (self.totals, self.entries)
    }
}

#[tactic(auto, unfolding(crate::specs::Entered::tested_by, crate::specs::Entered::HasEntered, crate::specs::Entered::entries_of))]
impl<'a, R: Rows> Tests for Tester<'a, R> {
    ghost use Rattle.rp_conditions.specs.Tested.{Tested, asked_of};
    ghost use Rattle.rp_conditions.specs.Entered.{tested_by, HasEntered, entries_of, few_are_asked};
    ghost use Rattle.rp_conditions.specs.Decided.{tested_decides};
    ghost use Rattle.rp_query.specs.Locality.{ConditionsAreLocal};
    ghost use Rattle.rp_query.specs.declared.locality.Locality.TheVariants.{Row};

    ghost Subject = { Tested };

    ghost subject = { λ t. tested_by t };

    ghost asked = { asked_of };

    ghost entered = { λ t start labels. HasEntered t start labels };

    ghost entries = { λ t. entries_of t };

    ghost always = { λ t. ConditionsAreLocal Row t.query.plan };

    fn known(&self) -> u64 {
        self.rows.last()
    }

    fn end(&self) -> End {
        self.rows.end()
    }

    fn variables(&self) -> usize {
        self.query.plan().definitions.len()
    }

    fn is_lasting(&self) -> bool {
        law_local_tests();
        if self.query.judges_rows() {
            return true;
        }
        self.decides_known_rows()
    }

    fn refused_until(&self, start: u64, labels: &[Label], most: u64) -> u64 {
        law_local_tests();
        if self.query.judges_rows() {
            return u64::MAX;
        }
        if !self.decides_known_rows() {
            return start;
        }
        self.refuses_until(start, labels, most)
    }

    fn test(&self, start: u64, labels: &[Label]) -> Seen {
        let last = labels.len() - 1;
        match self.query.definition(labels[last].var) {
            None => Seen::True,
            Some(defined) => {
                let view = View {
                    rows: self.rows,
                    start,
                    labels,
                    current: start + last as u64,
                    number: 0,
                    totals: &self.totals,
                };
                condition(defined, &view)
            }
        }
    }

    fn enter(&mut self, start: u64, labels: &[Label]) -> Result<(), AllocError> {
        self.entries.raise();
        self.totals.enter(self.rows, start, labels)
    }

    fn cut(&mut self, depth: usize) {
        self.totals.cut(depth);
    }

    ghost few = { λ t. few_are_asked t (R.few t.rows.now) };

    ghost decided = { λ t start labels closed. tested_decides (tested_by t) start labels closed };
}
