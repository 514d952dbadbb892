//! A clause as the tree that its tokens derive: what `parse` of rp_syntax gives, and what is checked. The plain data that
//! the grammar speaks of is in `specs/Tree`, `Paths`, `Terms` and `Clauses`.
#![tactic(auto)]

mod tree;

pub use tree::{
    Aggregate, AggregateFunction, Bound, Clause, Column, Counted, Definition, Expr, Measure,
    Movement, Navigation, Offset, Operation, Operator, Order, Pattern, Quantifier, RowsPerMatch,
    Scope, Skip, Union,
};
