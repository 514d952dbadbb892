//! Where the clause of a checkpoint differs.
ghost use Rattle.std.specs.Prelude.{◌≡◌, IfOk, Ok, Err, None};
ghost use Rattle.rp_checkpoint.specs.Checkpoints.{restored};
ghost use Rattle.rp_checkpoint.specs.declared.node_data.NodeData.{NodeData as Kept};
ghost use Rattle.rp_node.specs.ClauseTexts.{IsDifference};

use crate::clause_text::{are_one_clause, common_front};
use rp_checkpoint::{CheckpointFault, NodeData, read_checkpoint};
use std::alloc::{AllocError, Global};

/// From which byte on, counted from 0, the clause of a checkpoint differs from this one; None where it is the same, as it is where the
/// table differs, and where the bytes are no checkpoint.
pub fn clause_difference(
    alloc: Global,
    clause: &[u8],
    bytes: &[u8],
) -> Result<Option<usize>, AllocError>
    ensures differs { IfOk result (λ place. (kept : Kept) → restored bytes.now ≡ Ok kept →
        IsDifference clause.now kept.clause place) }
    ensures none { IfOk result (λ place. (fault : CheckpointFault) → restored bytes.now ≡ Err fault → place ≡ None) }
{
    match read_checkpoint(alloc, bytes) {
        Ok(kept) => Ok(difference(clause, &kept)),
        Err(CheckpointFault::OutOfMemory) => Err(AllocError),
        Err(_) => Ok(None),
    }
}

fn difference(clause: &[u8], kept: &NodeData) -> Option<usize>
    ensures { IsDifference clause.now kept.now.clause result }
{
    let other = kept.clause.as_str().as_bytes();
    if are_one_clause(clause, other) {
        return None;
    }
    Some(common_front(clause, other))
}
