//! Answers that a skip fault ended.
ghost use Rattle.std.specs.Prelude.{◌≡◌, ◌∷◌, [], ◌++◌, OnOk};

use rp_query::SkipFault;
use rp_value::Cells;
use std::alloc::{AllocError, Global};

/// A partition whose answer a skip fault ended: after it no item follows, not even an end.
#[derive(Drop)]
pub struct Stopped {
    /// The key of the partition.
    pub key: Cells,
    /// Why the skip rule named no row to go on from.
    pub fault: SkipFault,
}

/// Adds the partition of this key.
pub(crate) fn push_stopped(
    alloc: Global,
    stopped: &mut Vec<Stopped>,
    key: &Cells,
    fault: SkipFault,
) -> Result<(), AllocError>
    ensures { OnOk result
        (stopped.new.items ≡ stopped.old.items ++ record { key = key.now; fault = fault } ∷ []) }
{
    let key = key.share(alloc)?;
    stopped.push(Stopped { key, fault })?;
    Ok(())
}
