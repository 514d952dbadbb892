//! Where a node begins: at what was saved of it, or with nothing.
ghost use Rattle.std.specs.Prelude.{◌≡◌, [], IfOk, IfErr, OnOk};
ghost use Rattle.std.specs.Option.{ForSome};
ghost use Rattle.rp_node.specs.NodeSeen.{AllBounded};
ghost use Rattle.rp_node.specs.Restarting.{IsRefused, RestartsTo};
ghost use Rattle.rp_serve.specs.Rounds.{kept_bytes};
ghost use Rattle.rp_node.specs.GoingBack.{Begins, CanRestart};

use crate::node::Node;
use rp_checkpoint::RestartFault;
use rp_query::Query;
use std::alloc::{AllocError, Global};
use std::collections::hash_map::RandomState;

/// A node as it begins.
#[derive(Drop)]
pub struct Begun {
    /// The node itself.
    pub node: Node,
    /// What it goes back to: the bytes that it began from, if it did.
    pub saved: Option<Vec<u8>>,
    /// Why it began with nothing although something was saved.
    pub refused: Option<RestartFault>,
}

/// A node that goes on from what was saved, where a node can, and else begins with nothing. Only being out of memory is no
/// answer: it says nothing of what was saved.
pub fn begin(
    alloc: Global,
    query: Query,
    hasher: RandomState,
    saved: Option<Vec<u8>>,
) -> Result<Begun, AllocError>
    ensures begins { IfOk result (λ begun. Begins query (kept_bytes saved) begun.refused
        begun.node (kept_bytes begun.saved)) }
    ensures again { IfOk result (λ begun. ForSome begun.saved (λ bytes. CanRestart begun.node.query bytes.items)) }
    ensures bounded { IfOk result (λ begun. AllBounded begun.node) }
{
    match saved {
        None => Ok(with_nothing(alloc, query, hasher, None)),
        Some(bytes) => go_on(alloc, query, hasher, bytes),
    }
}

/// Goes on from these bytes, or begins with nothing.
fn go_on(
    alloc: Global,
    query: Query,
    hasher: RandomState,
    bytes: Vec<u8>,
) -> Result<Begun, AllocError>
    ensures begins { IfOk result (λ begun. Begins query (Some bytes.items) begun.refused
        begun.node (kept_bytes begun.saved)) }
    ensures again { IfOk result (λ begun. ForSome begun.saved (λ bytes. CanRestart begun.node.query bytes.items)) }
    ensures bounded { IfOk result (λ begun. AllBounded begun.node) }
{
    match Node::restart(alloc, query, hasher, bytes.as_slice()) {
        Ok(node) => Ok(Begun {
            node,
            saved: Some(bytes),
            refused: None,
        }),
        Err(refused) if refused.fault == RestartFault::OutOfMemory => Err(AllocError),
        Err(refused) => Ok(with_nothing(alloc, refused.query, hasher, Some(refused.fault))),
    }
}

fn with_nothing(
    alloc: Global,
    query: Query,
    hasher: RandomState,
    refused: Option<RestartFault>,
) -> Begun
    ensures query { result.node.query ≡ query }
    ensures none { result.node.records ≡ [] }
    ensures bounded { AllBounded result.node }
    ensures saved { result.saved ≡ None }
    ensures refused { result.refused ≡ refused }
{
    Begun {
        node: Node::new(alloc, query, hasher),
        saved: None,
        refused,
    }
}
