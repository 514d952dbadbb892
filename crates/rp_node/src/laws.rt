//! The law of a node's calls: each is an event of the law over schedules.
//! A call does nothing, and its caller may then use it.
ghost use Rattle.rp_node.specs.Events.{ClosesAreEvents, PollsAreEvents, RefusedPollsAreEvents, RestartsAreOne, RestartsAreSame, RestartsAreTaken, RowsAreEvents};

/// The law of calls: what the contracts of a node's calls say is what the law over schedules calls an event, of a run of each
/// query that is the same as the node's. So whatever nodes are called with, as long as one number carries one row, is a run of
/// that law: `rp_schedules::law_schedules`. A packet that is not New, and a poll of an unknown key, leave the node as it is,
/// which is the event of a refused call. Bytes restart to what was saved in them, in another process too, whose query is the
/// same: it refuses them only where memory runs out.
pub fn law_calls()
    ensures rows { RowsAreEvents }
    ensures closes { ClosesAreEvents }
    ensures polls { PollsAreEvents }
    ensures refused { RefusedPollsAreEvents }
    ensures restarts { RestartsAreOne }
    ensures same { RestartsAreSame }
    ensures taken { RestartsAreTaken }
{
    rp_feed::law_new();
    rp_feed::law_same_rows();
    rp_schedules::law_same_query();
}
