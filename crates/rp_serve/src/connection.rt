//! One connection: a session, after which what answers is saved, or goes back to what was saved last.
ghost use Rattle.std.specs.Prelude.{◌≡◌, ◌≢◌, ◌↔◌, Option, Some, None, IfOk, IsTrue, Ok, Err, false, true};
ghost use Rattle.std.specs.Option.{ForSome};
ghost use Rattle.rp_io.specs.Reading.{ReadsWithin};
ghost use Rattle.rp_serve.specs.Faults.{TellsWrite, reads_told};
ghost use Rattle.rp_serve.specs.Rounds.{EndsRound, IsSavedAs, kept_bytes};

use crate::fault::ServeFault;
use crate::keeps::Keeps;
use crate::session::serve_counted;
use crate::watched::Watched;
use rp_io::{Intake, Outlet};
use std::alloc::{AllocError, Global};

/// How a connection ended.
#[derive(Drop)]
pub struct RoundEnd<N> {
    /// What answers, as it was saved, or as it was when that was saved.
    pub node: N,
    /// What was saved last.
    pub saved: Option<Vec<u8>>,
    /// How many lines were answered.
    pub lines: u128,
    /// The session's fault, if it had one.
    pub fault: Option<ServeFault>,
    /// Whether what was saved last is known to be what would be saved now: it is, unless what answers went back.
    pub is_current: bool,
    /// Whether what was saved last is another than before the connection.
    pub is_new: bool,
}

/// One session. After a fault of the writer or of memory what answers goes back to what was saved last, or to its beginning
/// where nothing was; after any other end it is saved. Where memory is refused to that, nothing of it is left.
///
/// So a reply that wasn't written is as if it had not been: whoever asked asks again.
pub fn round<R: Intake, W: Outlet, N: Keeps + Drop>(
    alloc: Global,
    node: N,
    saved: Option<Vec<u8>>,
    reader: &mut R,
    writer: &mut W,
    reads: u64,
) -> Result<RoundEnd<N>, AllocError>
    requires { ForSome saved (λ bytes. N.can_go_back node bytes.items) }
    ensures round { IfOk result (EndsRound N.step N.cut_short N.is_saved N.goes_back (R.seen reader.old).remaining
        node saved (W.contents writer.old) (W.contents writer.new)) }
    ensures again { IfOk result (λ end. ForSome end.saved (λ bytes. N.can_go_back end.node bytes.items)) }
    ensures reads { IfOk result (λ end. ReadsWithin reads (reads_told end.fault)
        (R.seen reader.old) (R.seen reader.new)) }
    ensures write { IfOk result (λ end. TellsWrite end.fault (W.failures writer.old) (W.failures writer.new)) }
    ensures current { IfOk result (λ end.
        end.is_current ≡ true → IsSavedAs N.is_saved end.node (kept_bytes end.saved)) }
    ensures new { IfOk result (λ end. IsTrue end.is_new ↔ (kept_bytes end.saved ≢ kept_bytes saved)) }
{
    round_on(alloc, node, saved, false, reader, writer, reads)
}

/// The same, after another connection: where what was saved last is what would be saved now, and no reply of this one says that
/// what answers may have changed, it isn't saved again.
pub fn round_on<R: Intake, W: Outlet, N: Keeps + Drop>(
    alloc: Global,
    node: N,
    saved: Option<Vec<u8>>,
    is_current: bool,
    reader: &mut R,
    writer: &mut W,
    reads: u64,
) -> Result<RoundEnd<N>, AllocError>
    requires back { ForSome saved (λ bytes. N.can_go_back node bytes.items) }
    requires known { is_current ≡ true → IsSavedAs N.is_saved node (kept_bytes saved) }
    ensures round { IfOk result (EndsRound N.step N.cut_short N.is_saved N.goes_back (R.seen reader.old).remaining
        node saved (W.contents writer.old) (W.contents writer.new)) }
    ensures again { IfOk result (λ end. ForSome end.saved (λ bytes. N.can_go_back end.node bytes.items)) }
    ensures reads { IfOk result (λ end. ReadsWithin reads (reads_told end.fault)
        (R.seen reader.old) (R.seen reader.new)) }
    ensures write { IfOk result (λ end. TellsWrite end.fault (W.failures writer.old) (W.failures writer.new)) }
    ensures current { IfOk result (λ end.
        end.is_current ≡ true → IsSavedAs N.is_saved end.node (kept_bytes end.saved)) }
    ensures new { IfOk result (λ end. IsTrue end.is_new ↔ (kept_bytes end.saved ≢ kept_bytes saved)) }
{
    let mut watched = Watched {
        node,
        has_changed: false,
    };
    let mut lines = 0u128;
    match serve_counted(alloc, reader, writer, &mut watched, reads, &mut lines) {
        Ok(()) => kept_after(watched, saved, is_current, lines, None),
        Err(ServeFault::Read) => {
            kept_after(watched, saved, is_current, lines, Some(ServeFault::Read))
        }
        Err(ServeFault::Turns) => {
            kept_after(watched, saved, is_current, lines, Some(ServeFault::Turns))
        }
        Err(ServeFault::Write) => gone_back(watched.node, saved, lines, ServeFault::Write),
        Err(ServeFault::OutOfMemory) => {
            gone_back(watched.node, saved, lines, ServeFault::OutOfMemory)
        }
    }
}

/// What is kept where nothing has to be gone back to: what was saved last, if that is what would be saved now, or else what is.
fn kept_after<N: Keeps + Drop>(
    watched: Watched<N>,
    saved: Option<Vec<u8>>,
    is_current: bool,
    lines: u128,
    fault: Option<ServeFault>,
) -> Result<RoundEnd<N>, AllocError>
    requires { is_current ≡ true → watched.has_changed ≡ false →
        IsSavedAs N.is_saved watched.node (kept_bytes saved) }
    ensures node { IfOk result (λ end. end.node ≡ watched.node) }
    ensures saved { IfOk result (λ end. IsSavedAs N.is_saved watched.node (kept_bytes end.saved)) }
    ensures ended { IfOk result (λ end. (end.fault ≡ fault) × (end.lines ≡ lines)) }
    ensures again { IfOk result (λ end. ForSome end.saved (λ bytes. N.can_go_back end.node bytes.items)) }
    ensures new { IfOk result (λ end. IsTrue end.is_new ↔ (kept_bytes end.saved ≢ kept_bytes saved)) }
{
    if watched.has_changed || !is_current {
        return saved_after(watched.node, &saved, lines, fault);
    }
    Ok(RoundEnd {
        node: watched.node,
        saved,
        lines,
        fault,
        is_current: true,
        is_new: false,
    })
}

fn saved_after<N: Keeps + Drop>(
    node: N,
    before: &Option<Vec<u8>>,
    lines: u128,
    fault: Option<ServeFault>,
) -> Result<RoundEnd<N>, AllocError>
    ensures node { IfOk result (λ end. end.node ≡ node) }
    ensures saved { IfOk result (λ end. IsSavedAs N.is_saved node (kept_bytes end.saved)) }
    ensures ended { IfOk result (λ end. (end.fault ≡ fault) × (end.lines ≡ lines)) }
    ensures again { IfOk result (λ end. ForSome end.saved (λ bytes. N.can_go_back end.node bytes.items)) }
    ensures new { IfOk result (λ end. IsTrue end.is_new ↔ (kept_bytes end.saved ≢ kept_bytes before.now)) }
{
    let bytes = node.save()?;
    let is_new = !are_kept(before, bytes.as_slice());
    Ok(RoundEnd {
        node,
        saved: Some(bytes),
        lines,
        fault,
        is_current: true,
        is_new,
    })
}

/// Whether these bytes are kept.
fn are_kept(saved: &Option<Vec<u8>>, bytes: &[u8]) -> bool
    ensures { IsTrue result ↔ (Some bytes.now ≡ kept_bytes saved.now) }
{
    match saved {
        Some(kept) => kept.as_slice() == bytes,
        None => false,
    }
}

fn gone_back<N: Keeps + Drop>(
    node: N,
    saved: Option<Vec<u8>>,
    lines: u128,
    fault: ServeFault,
) -> Result<RoundEnd<N>, AllocError>
    requires { ForSome saved (λ bytes. N.can_go_back node bytes.items) }
    ensures node { IfOk result (λ end. N.goes_back node (kept_bytes saved) end.node) }
    ensures saved { IfOk result (λ end. kept_bytes end.saved ≡ kept_bytes saved) }
    ensures ended { IfOk result (λ end. (end.fault ≡ Some fault) × (end.lines ≡ lines)) }
    ensures again { IfOk result (λ end. ForSome end.saved (λ bytes. N.can_go_back end.node bytes.items)) }
    ensures known { IfOk result (λ end. (end.is_current ≡ false) × (end.is_new ≡ false)) }
{
    let node = node.go_back(&saved)?;
    Ok(RoundEnd {
        node,
        saved,
        lines,
        fault: Some(fault),
        is_current: false,
        is_new: false,
    })
}
