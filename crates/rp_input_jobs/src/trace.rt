//! `trace`: the matches of lines of letters.
use rp_io::{CountedDevice, READS};
use rp_job::ProgramFault;
use rp_trace::{run_trace, trace_pattern};

/// Prints for each line of standard input the match of a pattern.
pub fn run_trace_job(rt: &HostRuntime, pattern: &str) -> Result<(), ProgramFault> {
    let pattern = trace_pattern(rt.alloc(), pattern)?;
    let mut reader = CountedDevice::new(rt.stdin());
    let mut writer = CountedDevice::new(rt.stdout());
    run_trace(rt.alloc(), &mut reader, &mut writer, &pattern, READS)?;
    Ok(())
}
