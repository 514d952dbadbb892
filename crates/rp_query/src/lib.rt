//! Queries: what a matcher is given of a clause, its names resolved, and the items of which an answer is made.
//!
//! A [`Query`] stands between the crates that read clauses and those that match rows: `compile` of rp_compile
//! makes it of a clause's text, and the matcher asks it for its pattern, its table, its columns and its [`Plan`].
//! Pattern variables are numbered from 0 by first appearance, columns of the table from 1.
//!
//! What a query is made of is seen as plain data: `specs/QueryView`, `Keys`, `Formulas`, `Scopes`, `Reach`, `SkipRules`
//! and `Definitions`. What each query meets is `specs/Sound`, in the words of `Kinds` and `Allowed`: columns and totals
//! that are named are there, kinds agree, offsets are at most 1,000, and no definition sees the whole match. On which rows
//! of a match its conditions depend is `specs/Locality`, and which of them never look ahead `specs/LooksBack`. What a row that is
//! mapped to a variable changes of the plan's totals is `specs/Changes`.
#![tactic(auto)]

mod ahead;
mod changes;
mod item;
mod key;
mod laws;
mod locality;
mod plan;
mod query;

pub use changes::{Change, Changes};
pub use item::{Item, SkipFault};
pub use key::values_in;
pub use laws::law_keys;
pub use locality::{Leader, Locality, condition_is_local, goes_from_leader, goes_from_own_row};
pub use plan::{
    Condition, Edge, Expr, Function, Navigation, Operation, RowsOf, Step, Total, Variables,
};
pub use query::{OrderColumn, OutputColumn, Plan, Query, QueryData, RowsPerMatch, SkipTo, Source};
