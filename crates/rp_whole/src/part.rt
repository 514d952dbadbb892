//! The items of one partition's answer.
ghost use Rattle.std.specs.Prelude.{◌≡◌, ◌++◌, IfErr, IfOk, OnErr, OnOk};
ghost use Rattle.rp_io.specs.Devices.{AppendsFront};
ghost use Rattle.rp_walker.specs.Walking.{record_of};
ghost use Rattle.rp_whole.specs.Answers.{limit_of, part_bytes};
ghost use Rattle.rp_whole.specs.Faults.{IsOfOutput, TellsWrite};
ghost use Rattle.rp_whole.specs.Pauses.{CanBePolled, ComesNext, WalksOver};
ghost use Rattle.rp_whole.specs.Writing.{NextIsWritten, PartIsWritten, bytes_to_come, part_of};

use crate::closed::Part;
use crate::fault::WholeFault;
use crate::gathered::{Gathered, write_block, write_gathered};
use crate::next::Next;
use crate::turns::Turns;
use crate::watch::Watch;
use rp_io::Outlet;
use rp_query::Query;
use rp_search::law_search;
use rp_walker::{Poll, Walker, law_left, law_records};
use std::alloc::Global;
use std::sync::ledger::Ledger;

/// Writes the items of a partition's answer; what makes no block yet stays gathered. Where the search from one start row takes
/// too many turns, the answer is given up, and the row is told.
pub(crate) fn write_part<W: Outlet, G: Gathered, V: Watch, L: Ledger>(
    alloc: Global,
    query: &Query,
    part: &Part,
    gathered: &mut G,
    writer: &mut W,
    watch: &mut V,
    turns: &mut Turns<L>,
) -> Result<Option<u64>, WholeFault>
    ensures written { IfOk result (λ given_up. PartIsWritten G.form G.bytes G.stopped (limit_of turns.old.limit)
        query.now (part_of part.now) given_up (W.contents writer.old) gathered.old
        (W.contents writer.new) gathered.new) }
    ensures front { OnErr result (AppendsFront (W.contents writer.old) (W.contents writer.new)
        (G.bytes gathered.old ++ part_bytes G.form query.now (part_of part.now))) }
    ensures limit { turns.new.limit ≡ turns.old.limit }
    ensures fault { IfErr result IsOfOutput }
    ensures failures { TellsWrite result (W.failures writer.old) (W.failures writer.new) }
{
    // A new walker's record fits each partition, and no more is left to it than all start rows take.
    law_records();
    law_left();
    let mut walker = Walker::new(alloc);
    watch.begins(&part.key);
    turns.begin_part();
    'items: loop {
        match write_next(query, part, &mut walker, gathered, writer, watch, turns)? {
            Next::More => {}
            Next::All => return Ok(None),
            Next::GivenUp(row) => return Ok(Some(row)),
        }
    }
}

/// Polls the walker once: writes the item that comes, or what is gathered where none comes yet, and says what comes next.
fn write_next<W: Outlet, G: Gathered, V: Watch, L: Ledger>(
    query: &Query,
    part: &Part,
    walker: &mut Walker,
    gathered: &mut G,
    writer: &mut W,
    watch: &mut V,
    turns: &mut Turns<L>,
) -> Result<Next, WholeFault>
    requires can_be_polled { CanBePolled query.now (part_of part.now) turns.old.row turns.old.taken walker.old }
    ensures walks { WalksOver query.now (part_of part.now) walker.new }
    ensures written { OnOk result (NextIsWritten G.form G.bytes G.stopped query.now (part_of part.now)
        (record_of walker.old) (record_of walker.new) (W.contents writer.old) gathered.old
        (W.contents writer.new) gathered.new) }
    ensures next { IfOk result (ComesNext (limit_of turns.old.limit) G.form query.now (part_of part.now)
        walker.old turns.new.row turns.new.taken walker.new) }
    ensures front { OnErr result (AppendsFront (W.contents writer.old) (W.contents writer.new)
        (G.bytes gathered.old ++ bytes_to_come G.form query.now (part_of part.now) (record_of walker.old))) }
    ensures limit { turns.new.limit ≡ turns.old.limit }
    ensures fault { IfErr result IsOfOutput }
    ensures failures { TellsWrite result (W.failures writer.old) (W.failures writer.new) }
{
    match walker.poll(query, part, turns.budget, &mut turns.steps)? {
        Poll::Item(place, item) => {
            gathered.push(query, &part.key, place, &item)?;
            write_block(writer, gathered)?;
            Ok(Next::More)
        }
        Poll::Paused => {
            // No more is left of a start row's search than where it begins.
            law_search();
            write_gathered(writer, gathered)?;
            let row = walker.state().at;
            watch.pauses(&part.key, row, turns.budget);
            Ok(turns.after_pause(row))
        }
        Poll::Idle => Ok(Next::All),
    }
}
