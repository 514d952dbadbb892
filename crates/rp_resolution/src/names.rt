//! What an expression may name.

ghost use Rattle.std.specs.Prelude.{◌≡◌, map, option_map, IfSome, MatchResult, length, ◌<◌};
ghost use Rattle.rp_resolution.specs.Context.{column_named, members_named, naming_of, is_name};
ghost use Rattle.rp_query.specs.Formulas.{members_of};

use crate::fault::CheckFault;
use rp_query::Variables;
use rp_value::{Column, Text, Value};
use std::alloc::Global;
use std::rc::Rc;

/// A pattern variable or a union.
pub struct NamedSet {
    pub name: Text,
    /// The numbers of its members.
    pub members: Vec<usize>,
}

/// It is let go of by a call, wherever it is held.
impl Drop for NamedSet {
    fn drop(self) {
        let NamedSet {
            name: _,
            members: _,
        } = self;
    }
}

/// What an expression may name, and where it stands.
#[derive(Clone, Copy)]
pub struct Names<'a> {
    /// The pattern variables, and the unions after them.
    pub sets: &'a [NamedSet],
    pub columns: &'a [Column],
    /// Whether it is an expression of DEFINE.
    pub in_define: bool,
    /// What CLASSIFIER gives for each pattern variable.
    pub classes: &'a Rc<Vec<Value>>,
}

/// The place of the column with this name, from 0.
pub(crate) fn column_named(name: &Text, columns: &[Column]) -> Option<usize>
    ensures place { result ≡ column_named name.now columns.now }
    ensures bound { IfSome result (λ k. k < length columns.now) }
{
    columns.iter().position(|column| column.name == *name)
}

/// Whether two texts are the same name.
fn is_name(name: &Text, other: &Text) -> bool
    ensures { result ≡ is_name name.now other.now }
{
    *other == *name
}

/// The set with this name.
pub(crate) fn set_named<'a>(name: &Text, sets: &'a [NamedSet]) -> Option<&'a NamedSet>
    ensures { members_named name.now (map naming_of sets.now) ≡ option_map (λ s. s.now.members.items) result }
{
    let (first, rest) = sets.split_first()?;
    if is_name(name, &first.name) {
        return Some(first);
    }
    set_named(name, rest)
}

/// The members of a set, as those that are meant.
pub(crate) fn among(alloc: Global, set: &NamedSet) -> Result<Variables, CheckFault>
    ensures { MatchResult result (λ v. members_of v ≡ Some set.now.members.items)
        (λ e. e ≡ CheckFault.OutOfMemory) }
{
    let mut members = Vec::new(alloc);
    members.extend_from_slice(set.members.as_slice())?;
    Ok(Variables::Among(members))
}
