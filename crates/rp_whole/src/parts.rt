//! The items of partitions.
ghost use Rattle.std.specs.Prelude.{◌≡◌, ◌<◌, IfErr, IfOk, OnErr};
ghost use Rattle.rp_numbering.specs.Gathering.{parts_of};
ghost use Rattle.rp_whole.specs.Answers.{limit_of};
ghost use Rattle.rp_whole.specs.Faults.{IsOfOutput, TellsWrite};
ghost use Rattle.rp_whole.specs.Writing.{PartsAreWritten, WritesPartsFront};

use crate::closed::Part;
use crate::fault::WholeFault;
use crate::gathered::{Gathered, write_gathered};
use crate::halted::{Halted, push_halted};
use crate::part::write_part;
use crate::turns::{Counting, Turns};
use crate::watch::Watch;
use rp_io::Outlet;
use rp_numbering::{Part as InputPart, law_orders, order_rows};
use rp_query::Query;
use std::alloc::Global;
use std::sync::ledger::Ledger;

/// Writes what is gathered, and then the items of partitions, one after another. Those whose answers are given up are given
/// back, in order.
///
/// The rows of each are put in order just before they are walked, so that the walk finds them in the cache.
pub(crate) fn write_parts<W: Outlet, G: Gathered, V: Watch, L: Ledger>(
    alloc: Global,
    query: &Query,
    parts: Vec<InputPart>,
    gathered: &mut G,
    writer: &mut W,
    watch: &mut V,
    counting: Counting,
) -> Result<Vec<Halted>, WholeFault>
    requires name { counting.blank.name ≡ L.name }
    requires parts { counting.blank.parts ≡ L.parts }
    requires counts { 0 < counting.blank.parts }
    ensures written { IfOk result (λ halted. PartsAreWritten G.form G.bytes G.stopped (limit_of counting.limit)
        query.now (parts_of parts.items) (W.contents writer.old) gathered.old
        (W.contents writer.new) gathered.new halted.items) }
    ensures front { OnErr result (WritesPartsFront (limit_of counting.limit) G.form query.now
        (parts_of parts.items) (W.contents writer.old) (G.bytes gathered.old) (W.contents writer.new)) }
    ensures fault { IfErr result IsOfOutput }
    ensures failures { TellsWrite result (W.failures writer.old) (W.failures writer.new) }
{
    // Any rows can be put into any order: what is still to be written after a fault has lines too.
    law_orders();
    let mut turns = Turns::<L>::new(counting);
    let mut halted = Vec::new(alloc);
    for InputPart { key, rows } in parts {
        let mut rows = rows;
        order_rows(query, &mut rows)?;
        let part = Part { key, rows };
        let given_up = write_part(alloc, query, &part, gathered, writer, watch, &mut turns)?;
        push_halted(&mut halted, part.key, given_up)?;
    }
    write_gathered(writer, gathered)?;
    Ok(halted)
}
