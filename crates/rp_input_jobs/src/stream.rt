//! The stream to a node. A call that a signal interrupts is made again: so a job that is stopped goes on where it was.
use std::io::{self, ErrorKind, Read, Write};
use std::net::TcpStream;

/// How often a call is made that signals interrupt.
const TRIES: u32 = 1_000_000;

/// So many bytes of what was read last are remembered.
const REMEMBERED: usize = 64;

/// What is sent to a node and what it replies.
#[derive(Drop)]
pub(crate) struct NodeStream<'a> {
    stream: &'a TcpStream,
    /// The first bytes of what was read last.
    start: [u8; REMEMBERED],
    /// How many of them there are.
    start_len: usize,
    /// Why a call failed, if one did.
    failure: Option<io::Error>,
}

impl<'a> NodeStream<'a> {
    /// The stream of this connection.
    pub(crate) fn new(stream: &'a TcpStream) -> NodeStream<'a> {
        NodeStream {
            stream,
            start: [0; REMEMBERED],
            start_len: 0,
            failure: None,
        }
    }

    /// The first line of what was read last, or as much of it as is remembered.
    pub(crate) fn last_line(&self) -> &[u8] {
        let start = self.start.get(..self.start_len).unwrap_or(&[]);
        let end = start
            .iter()
            .position(|byte| *byte == b'\n' || *byte == b'\r');
        start.get(..end.unwrap_or(start.len())).unwrap_or(start)
    }

    /// Why a call failed; None where none did.
    pub(crate) fn failure(&self) -> Option<io::Error> {
        self.failure
    }

    /// Remembers how what was read begins.
    fn remember(&mut self, read: &[u8]) {
        self.start_len = read.len().min(REMEMBERED);
        for (kept, byte) in self.start.iter_mut().zip(read.iter()) {
            *kept = *byte;
        }
    }
}

impl Read for NodeStream<'_> {
    fn read(&mut self, buffer: &mut [u8]) -> io::Result<usize> {
        let mut stream = self.stream;
        for _attempt in 0..TRIES {
            match stream.read(buffer) {
                Ok(count) => {
                    self.remember(buffer.get(..count).unwrap_or(&[]));
                    return Ok(count);
                }
                Err(error) if error.kind() == ErrorKind::Interrupted => {}
                Err(error) => {
                    self.failure = Some(error);
                    return Err(error);
                }
            }
        }
        Err(io::Error::from(ErrorKind::TimedOut))
    }
}

impl Write for NodeStream<'_> {
    fn write(&mut self, bytes: &[u8]) -> io::Result<usize> {
        let mut stream = self.stream;
        for _attempt in 0..TRIES {
            match stream.write(bytes) {
                Ok(count) => return Ok(count),
                Err(error) if error.kind() == ErrorKind::Interrupted => {}
                Err(error) => {
                    self.failure = Some(error);
                    return Err(error);
                }
            }
        }
        Err(io::Error::from(ErrorKind::TimedOut))
    }

    fn flush(&mut self) -> io::Result<()> {
        Ok(())
    }
}
