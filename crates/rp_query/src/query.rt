//! Queries, and what is computed for their matches.

ghost use Rattle.std.specs.Prelude.{◌≡◌, ◌↔◌, IfSome, IsTrue, Some};
ghost use Rattle.rp_query.specs.declared.locality.Leader.{Leader as Leads};
ghost use Rattle.rp_query.specs.Changes.{AreChangesOf};
ghost use Rattle.rp_query.specs.Locality.{ConditionsAreLocal, IsLeaderOf};
ghost use Rattle.rp_query.specs.LooksBack.{ConditionsLookBack};
ghost use Rattle.rp_query.specs.declared.locality.Locality.TheVariants.{Row};
ghost use Rattle.rp_query.specs.Sound.{IsSound};
ghost use Rattle.rp_words.specs.PatternForm.{form_of};
ghost use Rattle.rp_pattern.specs.Prepared.{Prepares};

use crate::changes::Changes;
use crate::locality::{Leader, Locality, leader_of};
use crate::plan::{Condition, Expr, Total, Variables};
use rp_pattern::Prepared;
use rp_value::{Kind, Table, Text};
use rp_words::Pattern;
use std::alloc::{AllocError, Global};
use std::marker::Model;
use std::rc::Rc;

/// Which rows a match gives.
#[derive(Clone, Copy, PartialEq, Eq)]
pub enum RowsPerMatch {
    /// ONE ROW PER MATCH, also where nothing is written.
    One,
    /// ALL ROWS PER MATCH, alone or with SHOW EMPTY MATCHES.
    AllShowEmpty,
    /// ALL ROWS PER MATCH OMIT EMPTY MATCHES.
    AllOmitEmpty,
    /// ALL ROWS PER MATCH WITH UNMATCHED ROWS.
    AllWithUnmatched,
}

/// A column by which rows are ordered.
#[derive(Clone, Copy)]
pub struct OrderColumn {
    /// Its number, from 1.
    pub column: usize,
    /// Whether greater values come first.
    pub descending: bool,
}

/// Where the cells of an output column come from.
#[derive(Clone, Copy)]
pub enum Source {
    /// The table's column of this number, from 1.
    Column(usize),
    /// The plan's measure at this place, from 0.
    Measure(usize),
}

/// A column of the output.
pub struct OutputColumn {
    /// Its name.
    pub name: Text,
    /// The kind of its cells, of which each may be null.
    pub kind: Kind,
    /// Where its cells come from.
    pub from: Source,
}

/// It is let go of by a call, wherever it is held.
impl Drop for OutputColumn {
    fn drop(self) {
        let OutputColumn {
            name: _,
            kind: _,
            from: _,
        } = self;
    }
}

/// Where the next search starts after a match, with names resolved.
pub enum SkipTo {
    /// The row after the match's last, also where nothing is written.
    PastLastRow,
    /// The row after the match's first.
    NextRow,
    /// The first row of these variables.
    First(Variables),
    /// The last row of these variables.
    Last(Variables),
}

/// It is let go of by a call, wherever it is held.
impl Drop for SkipTo {
    fn drop(self) {
        match self {
            SkipTo::PastLastRow => {}
            SkipTo::NextRow => {}
            SkipTo::First(_) => {}
            SkipTo::Last(_) => {}
        }
    }
}

/// What is computed for a match, with names resolved.
pub struct Plan {
    /// The measures, in text order.
    pub measures: Vec<Expr>,
    /// Which rows a match gives.
    pub rows: RowsPerMatch,
    /// Where the next search starts.
    pub skip: SkipTo,
    /// The conditions of DEFINE, in text order.
    pub conditions: Vec<Condition>,
    /// For each pattern variable the place of its condition, from 0; none: it admits every row.
    pub definitions: Vec<Option<usize>>,
    /// What is kept of the rows for navigation and aggregates, which name an entry by its place.
    pub totals: Rc<Vec<Total>>,
}

/// It is let go of by a call, wherever it is held.
impl Drop for Plan {
    fn drop(self) {
        let Plan {
            measures: _,
            rows: _,
            skip: _,
            conditions: _,
            definitions: _,
            totals: _,
        } = self;
    }
}

/// What a query is made of, as contracts see it.
pub struct QueryData {
    /// The text of the clause.
    pub text: Text,
    /// The table that it was checked against.
    pub table: Table,
    /// The row pattern, its variables numbered by first appearance.
    pub pattern: Pattern,
    /// The names of the pattern variables, by number.
    pub variables: Vec<Text>,
    /// The output columns: a row of output has a cell for each, in this order.
    pub output: Vec<OutputColumn>,
    /// The greatest offset of PREV, 0 where there is none.
    pub reach: u64,
    /// The columns of PARTITION BY, from 1.
    pub partition: Vec<usize>,
    /// The columns of ORDER BY.
    pub order: Vec<OrderColumn>,
    /// What is computed for a match.
    pub plan: Plan,
}

/// It is let go of by a call, wherever it is held.
impl Drop for QueryData {
    fn drop(self) {
        let QueryData {
            text: _,
            table: _,
            pattern: _,
            variables: _,
            output: _,
            reach: _,
            partition: _,
            order: _,
            plan: _,
        } = self;
    }
}

/// A clause that was checked against a table, its names resolved. A further owner costs a count.
/// Contracts see it as the data that it is made of.
pub struct Query {
    parts: Rc<QueryData>,
    /// Its pattern, made ready for searches.
    prepared: Prepared,
    /// Whether each condition judges its row alone.
    judges_rows: bool,
    /// Whether no condition looks ahead.
    looks_back: bool,
    /// A variable that each match begins with, if one is known.
    lead: Option<Leader>,
    /// What a row changes of the plan's totals.
    changes: Rc<Changes>,
    ghost sound: { IsSound parts.value },
    ghost ready: { Prepares (form_of parts.value.pattern) prepared },
    ghost alone: { IsTrue judges_rows ↔ ConditionsAreLocal Row parts.value.plan },
    ghost back: { IsTrue looks_back ↔ ConditionsLookBack parts.value.plan },
    ghost led: { (l : Leads) → lead ≡ Some l → IsLeaderOf (form_of parts.value.pattern) l },
    ghost changed: { AreChangesOf parts.value.plan.totals.value.items changes.value },
}

/// It is let go of by a call, wherever it is held.
impl Drop for Query {
    fn drop(self) {
        let Query {
            parts: _,
            prepared: _,
            judges_rows: _,
            looks_back: _,
            lead: _,
            changes: _,
        } = self;
    }
}

impl Plan {
    ghost use Rattle.std.specs.Prelude.{◌≡◌, option_map};
    ghost use Rattle.rp_query.specs.Definitions.{definition_of};

    /// The condition of the pattern variable of this number; none: it admits every row.
    pub fn definition(&self, variable: usize) -> Option<&Condition>
        ensures { option_map (λ c. c.now) result ≡ definition_of self.now variable }
    {
        let place = self.definitions.as_slice().get(variable)?;
        let place = (*place)?;
        self.conditions.as_slice().get(place)
    }
}

impl Model for Query {
    ghost use Rattle.rp_query.specs.declared.query.QueryData.{QueryData};
    ghost use Rattle.rp_query.specs.contracts.query.QueryData.{the_row};

    ghost Value = { QueryData };

    ghost coded = { the_row.coded };

    ghost view = { λ q. q.parts.value };
}

impl Query {
    ghost use Rattle.std.specs.Prelude.{◌≡◌, IfOk, option_map};
    ghost use Rattle.rp_query.specs.Definitions.{definition_of};
    ghost use Rattle.rp_query.specs.QueryView.{totals_in};

    /// The query of this data. The error says that no memory was left.
    ///
    /// It asks that the data is sound, so that nobody above looks again: `specs/Sound`. `compile` of rp_compile makes
    /// such data of a text; data that is put together by hand must be proved to be so.
    pub fn new(alloc: Global, parts: QueryData) -> Result<Query, AllocError>
        requires { IsSound parts }
        ensures { IfOk result (λ query. query ≡ parts) }
    {
        let prepared = Prepared::new(alloc, &parts.pattern)?;
        let judges_rows = parts.plan.is_local(Locality::Row);
        let looks_back = parts.plan.looks_back();
        let lead = leader_of(&parts);
        let changes = Rc::new(alloc, Changes::new(alloc, parts.plan.totals.as_slice())?)?;
        let parts = Rc::new(alloc, parts)?;
        Ok(Query {
            parts,
            prepared,
            judges_rows,
            looks_back,
            lead,
            changes,
        })
    }

    /// The text of the clause, as it was compiled.
    pub fn text(&self) -> &Text
        ensures { result.now ≡ self.now.text }
    {
        &self.parts.text
    }

    /// The table that it was checked against.
    pub fn table(&self) -> &Table
        ensures { result.now ≡ self.now.table }
    {
        &self.parts.table
    }

    /// The row pattern. Its variables are numbered from 0 by first appearance.
    pub fn pattern(&self) -> &Pattern
        ensures { result.now ≡ self.now.pattern }
    {
        &self.parts.pattern
    }

    /// The row pattern, made ready for searches, which share it.
    pub fn prepared(&self) -> &Prepared
        ensures { Prepares (form_of self.now.pattern) result.now }
    {
        &self.prepared
    }

    /// The names of the pattern variables, by number.
    pub fn variables(&self) -> &[Text]
        ensures { result.now ≡ self.now.variables.items }
    {
        self.parts.variables.as_slice()
    }

    /// The output columns, in order.
    pub fn output(&self) -> &[OutputColumn]
        ensures { result.now ≡ self.now.output.items }
    {
        self.parts.output.as_slice()
    }

    /// The greatest offset of PREV, 0 where there is none: so many rows before a match may be read.
    pub fn reach(&self) -> u64
        ensures { result ≡ self.now.reach }
    {
        self.parts.reach
    }

    /// The columns of PARTITION BY, by number from 1.
    pub fn partition(&self) -> &[usize]
        ensures { result.now ≡ self.now.partition.items }
    {
        self.parts.partition.as_slice()
    }

    /// The columns of ORDER BY, by number from 1, each with its direction.
    pub fn order(&self) -> &[OrderColumn]
        ensures { result.now ≡ self.now.order.items }
    {
        self.parts.order.as_slice()
    }

    /// The measures, rows per match, the skip rule and the variables' definitions.
    pub fn plan(&self) -> &Plan
        ensures plan { result.now ≡ self.now.plan }
        ensures sound { IsSound self.now }
    {
        &self.parts.plan
    }

    /// The condition that DEFINE gives the pattern variable of this number; none: it admits every row.
    pub fn definition(&self, variable: usize) -> Option<&Condition>
        ensures { option_map (λ c. c.now) result ≡ definition_of self.now.plan variable }
    {
        self.parts.plan.definition(variable)
    }

    /// Whether no condition depends on more than the row that it judges.
    pub fn judges_rows(&self) -> bool
        ensures { IsTrue result ↔ ConditionsAreLocal Row self.now.plan }
    {
        self.judges_rows
    }

    /// Whether no condition looks at a row after one that it goes from.
    pub fn looks_back(&self) -> bool
        ensures { IsTrue result ↔ ConditionsLookBack self.now.plan }
    {
        self.looks_back
    }

    /// A variable that each match begins with, and whether no other row is mapped to it. None: no such variable is known.
    pub fn lead(&self) -> Option<Leader>
        ensures { IfSome result (IsLeaderOf (form_of self.now.pattern)) }
    {
        self.lead
    }

    /// What is kept of the rows for navigation and aggregates.
    pub fn totals(&self) -> &Rc<Vec<Total>>
        ensures { result.now ≡ self.now.plan.totals }
    {
        &self.parts.plan.totals
    }

    /// What a row of a match changes of these, by the variable that it is mapped to.
    pub fn changes(&self) -> &Rc<Changes>
        ensures { AreChangesOf (totals_in self.now) result.now.value }
    {
        &self.changes
    }

    /// An equal query: a further owner of the same data. The error says that the count of owners is full.
    pub fn share(&self) -> Result<Query, AllocError>
        ensures { IfOk result (λ query. query ≡ self.now) }
    {
        let parts = self.parts.clone()?;
        let prepared = self.prepared.share()?;
        let changes = self.changes.clone()?;
        Ok(Query {
            parts,
            prepared,
            judges_rows: self.judges_rows,
            looks_back: self.looks_back,
            lead: self.lead,
            changes,
        })
    }
}
