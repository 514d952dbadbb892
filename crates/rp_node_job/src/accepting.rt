//! How connections are accepted.
use rp_job::ProgramFault;
use std::net::{TcpListener, TcpStream};
use std::time::Duration;
use std::{io, thread};

/// How many times accepting may fail one after another.
const ATTEMPTS: u32 = 1_000_000;

/// How many seconds the node waits before it accepts again.
const PAUSE: u64 = 1;

/// The numbers that Linux has for errors of accepting which pass: memory, descriptors or buffers are used up for now, or the network of
/// the one that was to be accepted has failed (accept(2)).
const ENOMEM: i32 = 12;

const ENFILE: i32 = 23;

const EMFILE: i32 = 24;

const ENONET: i32 = 64;

const EPROTO: i32 = 71;

const ENOPROTOOPT: i32 = 92;

const ENETDOWN: i32 = 100;

const ENETUNREACH: i32 = 101;

const ENOBUFS: i32 = 105;

const EHOSTDOWN: i32 = 112;

const EHOSTUNREACH: i32 = 113;

const PASSING: [i32; 11] = [
    ENOMEM,
    ENFILE,
    EMFILE,
    ENONET,
    EPROTO,
    ENOPROTOOPT,
    ENETDOWN,
    ENETUNREACH,
    ENOBUFS,
    EHOSTDOWN,
    EHOSTUNREACH,
];

/// What to do after an error of accepting.
enum Next {
    /// Accept again.
    Again,
    /// Accept again after a pause.
    Later,
    /// Give up.
    Never,
}

/// The next connection. One that its client has given up before it was accepted is passed over. An error that passes is reported, once
/// in a row, and accepting goes on after a pause.
pub fn accepted(rt: &HostRuntime, listener: &TcpListener) -> Result<TcpStream, ProgramFault> {
    let mut is_told = false;
    for _attempt in 0..ATTEMPTS {
        let error = match listener.accept() {
            Ok((stream, _from)) => return Ok(stream),
            Err(error) => error,
        };
        match next_after(&error) {
            Next::Again => {}
            Next::Later => {
                pause(rt, &error, is_told);
                is_told = true;
            }
            Next::Never => {
                let _ = eprintln!(rt; "rowmatch: no connection can be accepted: {error}");
                return Err(ProgramFault::Listen);
            }
        }
    }
    Err(ProgramFault::Listen)
}

fn pause(rt: &HostRuntime, error: &io::Error, is_told: bool) {
    if !is_told {
        let _ = eprintln!(rt;
            "rowmatch: no connection can be accepted, which is tried again each second: {error}"
        );
    }
    thread::sleep(rt, Duration::from_secs(PAUSE));
}

fn next_after(error: &io::Error) -> Next {
    match error.kind() {
        io::ErrorKind::ConnectionAborted | io::ErrorKind::Interrupted => Next::Again,
        _ => match error.raw_os_error() {
            Some(code) if is_passing(code) => Next::Later,
            _ => Next::Never,
        },
    }
}

fn is_passing(code: i32) -> bool {
    PASSING.as_slice().contains(&code)
}
