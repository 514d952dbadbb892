//! All bytes of a device.
ghost use Rattle.std.specs.Prelude.{◌≡◌, IfOk};
ghost use Rattle.std.specs.Io.KnownBytes.{Consumes};
ghost use Rattle.rp_io.specs.Reading.{ReadsWithin};
ghost use Rattle.rp_input.specs.Devices.{bytes_told};
ghost use Rattle.rp_input.specs.declared.device.DeviceFault.TheVariants.{OutOfMemory};

use rp_io::Intake;
use std::alloc::{AllocError, AllocFailed, Global};

/// The most bytes that one call reads.
const CHUNK: usize = 65_536;

/// Why a device's bytes weren't read to their end.
#[derive(Clone, Copy)]
pub(crate) enum DeviceFault {
    Read,
    Turns,
    OutOfMemory,
}

impl From<AllocError> for DeviceFault {
    ghost from_gives = { λ _ fault. fault ≡ OutOfMemory };

    fn from(_error: AllocError) -> DeviceFault {
        DeviceFault::OutOfMemory
    }
}

impl<T: Drop> From<AllocFailed<T>> for DeviceFault {
    ghost from_gives = { λ _ fault. fault ≡ OutOfMemory };

    fn from(_error: AllocFailed<T>) -> DeviceFault {
        DeviceFault::OutOfMemory
    }
}

/// All bytes of an input, by at most so many calls.
pub(crate) fn read_all<R: Intake>(
    alloc: Global,
    reader: &mut R,
    reads: u64,
) -> Result<Vec<u8>, DeviceFault>
    ensures ok { IfOk result (λ bytes.
        Consumes (R.seen reader.old).remaining (R.seen reader.new).remaining bytes.items) }
    ensures reads { ReadsWithin reads (bytes_told result) (R.seen reader.old) (R.seen reader.new) }
{
    let mut chunk = Vec::new(alloc);
    chunk.resize(CHUNK, 0)?;
    let mut bytes = Vec::new(alloc);
    for _read in 0..reads {
        let Ok(count) = reader.read(chunk.as_mut_slice()) else {
            return Err(DeviceFault::Read);
        };
        if count == 0 {
            return Ok(bytes);
        }
        bytes.extend_from_slice(&chunk[..count])?;
    }
    Err(DeviceFault::Turns)
}
