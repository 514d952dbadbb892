//! What is gathered of items before it is written.
ghost use Rattle.std.specs.Prelude.{◌≡◌, ℕ, List, [], ◌++◌, IfErr, IfOk, OnErr, OnOk};
ghost use Rattle.std.specs.Io.KnownBytes.{Appends};
ghost use Rattle.rp_io.specs.Devices.{AppendsFront, Moves};
ghost use Rattle.rp_whole.specs.Faults.{IsOfOutput, TellsWrite};
ghost use Rattle.rp_whole.specs.Answers.{Form};
ghost use Rattle.rp_whole.specs.declared.stopped.Stopped.{Stopped as StoppedPart};

use crate::fault::WholeFault;
use crate::stopped::Stopped;
use rp_io::{Outlet, write_all};
use rp_query::{Item, Query};
use rp_value::Cells;
use std::alloc::{AllocError, Global};

/// From how many bytes on what is gathered is written.
pub(crate) const BLOCK: usize = 65_536;

/// Answers in a form: bytes of items, one after another, and the partitions whose answers skip faults ended.
pub(crate) trait Gathered: Sized + Drop {
    /// What stands before the answers, and what an item comes to.
    ghost form: { Form };

    /// The bytes that are gathered.
    ghost bytes: { Self → List ℕ };

    /// The partitions whose answers skip faults ended.
    ghost stopped: { Self → List StoppedPart };

    /// What stands before the answers of a query.
    fn begin(alloc: Global, query: &Query) -> Result<Self, AllocError>
        ensures bytes { IfOk result (λ gathered. bytes gathered ≡ form.head query.now) }
        ensures stopped { IfOk result (λ gathered. stopped gathered ≡ []) };

    /// Adds an item of the query's answer in the partition of this key.
    fn push(
        &mut self,
        query: &Query,
        key: &Cells,
        place: u128,
        item: &Item,
    ) -> Result<(), AllocError>
        ensures bytes { OnOk result
            (bytes self.new ≡ bytes self.old ++ form.bytes query.now key.now place item.now) }
        ensures stopped { OnOk result (stopped self.new ≡ stopped self.old ++ form.stops key.now item.now) };

    /// Whether there is a block to be written. A few bytes may not be counted yet.
    fn is_block(&self) -> bool;

    /// Gives the bytes away. Where memory is refused, they are lost.
    fn take(&mut self) -> Result<Vec<u8>, AllocError>
        ensures taken { IfOk result (λ taken. taken.items ≡ bytes self.old) }
        ensures none { bytes self.new ≡ [] }
        ensures stopped { stopped self.new ≡ stopped self.old };

    /// Takes memory back that was given away, to gather later bytes in.
    fn give_back(&mut self, memory: Vec<u8>)
        ensures bytes { bytes self.new ≡ bytes self.old }
        ensures stopped { stopped self.new ≡ stopped self.old };

    /// The partitions whose answers skip faults ended.
    fn into_stopped(self) -> Vec<Stopped>
        ensures { result.items ≡ stopped self };
}

/// Writes what is gathered, if it is a block.
pub(crate) fn write_block<W: Outlet, G: Gathered>(
    writer: &mut W,
    gathered: &mut G,
) -> Result<(), WholeFault>
    ensures moves { OnOk result (Moves (W.contents writer.old) (G.bytes gathered.old)
        (W.contents writer.new) (G.bytes gathered.new)) }
    ensures stopped { OnOk result (G.stopped gathered.new ≡ G.stopped gathered.old) }
    ensures front { OnErr result (AppendsFront (W.contents writer.old) (W.contents writer.new) (G.bytes gathered.old)) }
    ensures fault { IfErr result IsOfOutput }
    ensures failures { TellsWrite result (W.failures writer.old) (W.failures writer.new) }
{
    if !gathered.is_block() {
        return Ok(());
    }
    write_gathered(writer, gathered)
}

/// Writes all that is gathered.
pub(crate) fn write_gathered<W: Outlet, G: Gathered>(
    writer: &mut W,
    gathered: &mut G,
) -> Result<(), WholeFault>
    ensures written { OnOk result (Appends (W.contents writer.old) (W.contents writer.new) (G.bytes gathered.old)) }
    ensures none { OnOk result (G.bytes gathered.new ≡ []) }
    ensures stopped { OnOk result (G.stopped gathered.new ≡ G.stopped gathered.old) }
    ensures front { OnErr result (AppendsFront (W.contents writer.old) (W.contents writer.new) (G.bytes gathered.old)) }
    ensures fault { IfErr result IsOfOutput }
    ensures failures { TellsWrite result (W.failures writer.old) (W.failures writer.new) }
{
    let bytes = gathered.take()?;
    write_all(writer, bytes.as_slice())?;
    gathered.give_back(bytes);
    Ok(())
}
