//! What is printed on standard error.
ghost use Rattle.rp_job.specs.Statuses.{Ends};

use crate::fault::ProgramFault;
use std::fmt::Display;
use std::io::IsTerminal;

/// What says more of a mistake, to people.
const MORE: &str =
    "`rowmatch check` says of the same clause, columns and input where that is, and what to write";

/// Reports a fault that ends the program, and gives the exit status: that of a device where help or the version can't be written. What
/// standard error doesn't take is lost.
pub fn end_with(rt: &HostRuntime, fault: &ProgramFault) -> u8
    ensures { Ends fault.now result }
{
    if let ProgramFault::CommandLine(error) = fault {
        if error.print(rt).is_err() && !error.use_stderr() {
            tell(rt, &ProgramFault::Write);
            return 3;
        }
    } else {
        tell_lines(rt, fault);
    }
    fault.status().unwrap_or(0)
}

/// Prints the line of a fault, and that of a node which refused what it was sent. On a terminal it says of a mistake what says more of it.
fn tell_lines(rt: &HostRuntime, fault: &ProgramFault) {
    tell(rt, fault);
    if let ProgramFault::Refused(_, Some(text)) = fault {
        tell(rt, text);
    }
    if fault.is_explained() && rt.stderr().is_terminal() {
        tell(rt, &MORE);
    }
}

/// Prints a line after the program's name. What standard error doesn't take is lost.
pub fn tell<T: Display>(rt: &HostRuntime, line: &T) {
    let _ = eprintln!(rt; "rowmatch: {line}");
}
