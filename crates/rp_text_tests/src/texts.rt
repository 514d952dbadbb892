//! What faults are told as.
use crate::support::same;
use rp_checkpoint::CheckpointFault;
use rp_drive::DriveFault;
use rp_feed::FeedFault;
use rp_protocol::LineFault;
use rp_serve::ServeFault;
use std::test::Fail;

/// Those that neither a session, a conversation nor a script tells.
#[test]
fn texts_of_faults(rt: HostRuntime) -> Result<(), Fail> {
    let alloc = rt.alloc();
    let told = format!(in alloc;
        "{} {} {} {} {} {}",
        FeedFault::NumberRange,
        FeedFault::PastClose,
        FeedFault::Conflict,
        FeedFault::TooFar,
        FeedFault::CloseDiffers,
        FeedFault::CloseBelow,
    )?;
    let wanted = "NumberRange PastClose Conflict TooFar CloseDiffers CloseBelow";
    same(&rt, "a feed", told.as_str(), wanted);
    let told = format!(in alloc;
        "{}, {}: {}, {}, {}, {}, {}",
        CheckpointFault::Digest,
        LineFault::TooLong,
        CheckpointFault::OutOfMemory,
        FeedFault::OutOfMemory,
        LineFault::OutOfMemory,
        ServeFault::OutOfMemory,
        DriveFault::OutOfMemory,
    )?;
    let wanted =
        "Digest, TooLong: out of memory, out of memory, out of memory, out of memory, out of memory";
    same(&rt, "others", told.as_str(), wanted);
    Ok(())
}
