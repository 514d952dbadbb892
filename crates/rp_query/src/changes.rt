//! What a row of a match changes of the totals of a plan, worked out once for each variable.
ghost use Rattle.std.specs.Prelude.{◌≡◌, ◌≤◌, map, IfOk};
ghost use Rattle.std.specs.List.{AllByRecursion};
ghost use Rattle.rp_query.specs.Changes.{change_of, IsUpTo, NamesUpTo};

use crate::plan::{Function, Total, Variables};
use std::alloc::{AllocError, Global};

/// What a row changes of a total.
#[derive(Clone, Copy)]
pub enum Change {
    /// Nothing: the total lists rows, and this isn't one of them.
    Nothing,
    /// It is one more of the rows that the total lists.
    Listed,
    /// It isn't one of the aggregate's rows, which has the same value as before it.
    Same,
    /// It is one more of the aggregate's rows.
    Added(Function),
}

/// What a row changes of each total of a plan, by the variable that it is mapped to.
pub struct Changes {
    /// In the order of the plan, for each variable up to the greatest that a total names.
    by_variable: Vec<Vec<Change>>,
    /// For each other variable.
    others: Vec<Change>,
}

/// It is let go of by a call, wherever it is held.
impl Drop for Changes {
    fn drop(self) {
        let Changes {
            by_variable: _,
            others: _,
        } = self;
    }
}

#[tactic(auto, unfolding(crate::specs::Changes::kept_for))]
impl Changes {
    ghost use Rattle.rp_query.specs.Changes.{kept_for, AreChangesOf};

    /// Those of the totals of a plan.
    pub fn new(alloc: Global, totals: &[Total]) -> Result<Changes, AllocError>
        ensures { IfOk result (AreChangesOf totals.now) }
    {
        let greatest = greatest_named(totals);
        let mut by_variable = Vec::new(alloc);
        while by_variable.len() <= greatest {
            let changes = changes_of(alloc, totals, by_variable.len())?;
            by_variable.push(changes)?;
        }
        let others = changes_of(alloc, totals, by_variable.len())?;
        Ok(Changes {
            by_variable,
            others,
        })
    }

    /// What a row that is mapped to this variable changes, in the order of the plan.
    pub fn of_variable(&self, variable: usize) -> &[Change]
        ensures { result.now ≡ kept_for self.now variable }
    {
        match self.by_variable.get(variable) {
            None => self.others.as_slice(),
            Some(changes) => changes.as_slice(),
        }
    }
}

/// What a row that is mapped to this variable changes, in the order of the totals.
fn changes_of(alloc: Global, totals: &[Total], variable: usize) -> Result<Vec<Change>, AllocError>
    ensures { IfOk result (λ changes. changes.items ≡ map (change_of variable) totals.now) }
{
    let mut changes = Vec::new(alloc);
    for total in totals {
        changes.push(change_of(total, variable))?;
    }
    Ok(changes)
}

fn change_of(total: &Total, variable: usize) -> Change
    ensures { result ≡ change_of variable total.now }
{
    let is_own = total.variables.includes(variable);
    if matches!(total.function, Function::Listed) {
        if is_own {
            Change::Listed
        } else {
            Change::Nothing
        }
    } else if is_own {
        Change::Added(total.function)
    } else {
        Change::Same
    }
}

/// No total names a variable above this number.
fn greatest_named(totals: &[Total]) -> usize
    ensures { NamesUpTo result totals.now }
{
    let mut greatest = 0;
    for total in totals {
        greatest = greatest_of(&total.variables, greatest);
    }
    greatest
}

/// None of the variables is above this number, which isn't below that one.
fn greatest_of(variables: &Variables, least: usize) -> usize
    ensures more { least ≤ result }
    ensures up_to { IsUpTo result variables.now }
{
    match variables {
        Variables::Universal => least,
        Variables::Among(members) => greatest_in(members.as_slice(), least),
    }
}

fn greatest_in(members: &[usize], least: usize) -> usize
    ensures more { least ≤ result }
    ensures up_to { AllByRecursion (λ m. m ≤ result) members.now }
{
    let mut greatest = least;
    for member in members {
        greatest = greatest.max(*member);
    }
    greatest
}
