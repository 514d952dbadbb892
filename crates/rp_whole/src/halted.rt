//! Answers that were given up.
ghost use Rattle.std.specs.Prelude.{◌≡◌, ◌++◌, OnOk};
ghost use Rattle.rp_whole.specs.Answers.{halted_at};

use rp_value::Cells;
use std::alloc::AllocError;

/// A partition whose answer was given up: what follows the items that were written isn't known.
#[derive(Drop)]
pub struct Halted {
    /// The key of the partition.
    pub key: Cells,
    /// The start row whose search took too many turns, from 1.
    pub row: u64,
}

/// Adds the partition of this key, if its answer was given up.
pub(crate) fn push_halted(
    halted: &mut Vec<Halted>,
    key: Cells,
    given_up: Option<u64>,
) -> Result<(), AllocError>
    ensures { OnOk result (halted.new.items ≡ halted.old.items ++ halted_at key given_up) }
{
    match given_up {
        Some(row) => {
            halted.push(Halted { key, row })?;
            Ok(())
        }
        None => Ok(()),
    }
}
