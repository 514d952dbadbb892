//! Rows as numbered packets of their partitions, wherever they come from.
//!
//!     x, 2, 8         Row 1 of ["x"]: x, 1, 10
//!     y, 1, 5         Row 2 of ["x"]: x, 2, 8
//!     x, 1, 10        Close of ["x"]: 2
//!                     Row 1 of ["y"]: y, 1, 5
//!                     Close of ["y"]: 1        by PARTITION BY sym ORDER BY t
//!
//! What the packets of rows are is said in `specs/Numbered`, over Partitions and Orders.
#![tactic(auto)]

mod number;
mod order;
mod partition;

pub use number::number_rows;
pub use order::{law_orders, order_rows};
pub use partition::{Part, partitions};
