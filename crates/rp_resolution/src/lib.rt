//! The parts of a clause, each checked against a table: it becomes what a query has of it, its names resolved, or its first
//! fault is told.
//!
//! - the pattern: `read`, `allow_unmatched`
//! - variables and unions: `variable_sets`, `add_unions`, `classes`
//! - columns: `partition_columns`, `order_columns`, `output_of`
//! - names of DEFINE and MEASURES: `allow_definitions`, `definition_places`, `allow_measures`
//! - expressions: `measures`, `conditions`, `skip_to`, `whole_reach`
//!
//! The faults are `specs/PartFaults` and `ExprFaults`; what parts become is `specs/Shapes`, `Resolved`, `Queries` and `Output`.
//! In which order the parts are checked, and what they come to together, is rp_check's.
#![tactic(auto)]

mod expr;
mod expressions;
mod fault;
mod lists;
mod names;
mod operand;
mod output;
mod pattern;
mod place;
mod resolved;
mod shown;

pub use expressions::{conditions, measures, skip_to};
pub use fault::{CheckFault, CheckKind, Fault};
pub use lists::{
    add_unions, allow_definitions, allow_measures, order_columns, partition_columns, variable_sets,
};
pub use names::{NamedSet, Names};
pub use output::output_of;
pub use pattern::{allow_unmatched, read};
pub use shown::{classes, definition_places, whole_reach};
