//! What a node's client sends and takes. A call that a signal interrupts is made again.
use rp_serve::{Patience, begins_http};
use std::io::{self, ErrorKind, Read, Write};
use std::net::TcpStream;
use std::time::{Duration, Instant};

/// How often a call is made that signals interrupt.
const TRIES: u32 = 1_000_000;

/// What a client sends. The read fails where nothing comes for too long, or a line takes too long, and where the client's first bytes
/// begin a request of HTTP.
#[derive(Drop)]
pub struct ClientInput<'a> {
    rt: &'a HostRuntime,
    stream: &'a TcpStream,
    /// How long a line is waited for, if not forever.
    patience: Option<Patience>,
    /// Whether nothing has come yet.
    is_first: bool,
    /// Whether the client speaks HTTP.
    pub is_http: bool,
    /// Whether a line was waited for as long as the job allows, and didn't come.
    pub is_silent: bool,
}

impl<'a> ClientInput<'a> {
    ghost use Rattle.std.specs.Io.{ReadsAtMost};

    /// What this client sends, of whom nothing has come yet.
    pub fn new(rt: &'a HostRuntime, stream: &'a TcpStream, idle: Option<u32>) -> ClientInput<'a> {
        ClientInput {
            rt,
            stream,
            patience: idle.map(|seconds| Patience::new(u64::from(seconds) * 1_000_000)),
            is_first: true,
            is_http: false,
            is_silent: false,
        }
    }

    /// One call of the stream.
    fn read_once(&mut self, buffer: &mut [u8]) -> io::Result<usize>
        ensures { ReadsAtMost result buffer.new }
    {
        let mut stream = self.stream;
        let Some(patience) = &mut self.patience else {
            return stream.read(buffer);
        };
        let began = Instant::now(self.rt)?;
        stream.set_read_timeout(Some(time_left(patience)?))?;
        let read = stream.read(buffer);
        let took = micros(began.elapsed(self.rt)?);
        match read {
            Ok(count) => patience.came(&buffer[..count], took),
            Err(_) => patience.came(&[], took),
        }
        read
    }

    /// Looks at the first bytes that come.
    fn look_at(&mut self, bytes: &[u8]) -> io::Result<()> {
        if !self.is_first {
            return Ok(());
        }
        self.is_first = false;
        self.is_http = begins_http(bytes);
        if self.is_http {
            return Err(io::Error::from(ErrorKind::InvalidData));
        }
        Ok(())
    }
}

impl Read for ClientInput<'_> {
    fn read(&mut self, buffer: &mut [u8]) -> io::Result<usize> {
        for _attempt in 0..TRIES {
            match self.read_once(buffer) {
                Ok(count) => {
                    self.look_at(&buffer[..count])?;
                    return Ok(count);
                }
                Err(error) if error.kind() == ErrorKind::Interrupted => {}
                Err(error) => {
                    self.is_silent = self.patience.is_some() && is_silence(&error);
                    return Err(error);
                }
            }
        }
        Err(io::Error::from(ErrorKind::TimedOut))
    }
}

/// Whether this is the error of a wait that was too long.
fn is_silence(error: &io::Error) -> bool {
    matches!(error.kind(), ErrorKind::WouldBlock | ErrorKind::TimedOut)
}

/// How long the next bytes may be waited for.
fn time_left(patience: &Patience) -> io::Result<Duration> {
    match patience.left() {
        0 => Err(io::Error::from(ErrorKind::TimedOut)),
        left => Ok(Duration::from_micros(left)),
    }
}

fn micros(time: Duration) -> u64 {
    u64::try_from(time.as_micros()).unwrap_or(u64::MAX)
}

/// What a client takes.
#[derive(Drop)]
pub struct ClientOutput<'a> {
    stream: &'a TcpStream,
}

impl<'a> ClientOutput<'a> {
    /// What this client takes.
    pub fn new(stream: &'a TcpStream) -> ClientOutput<'a> {
        ClientOutput { stream }
    }
}

impl Write for ClientOutput<'_> {
    fn write(&mut self, bytes: &[u8]) -> io::Result<usize> {
        let mut stream = self.stream;
        for _attempt in 0..TRIES {
            match stream.write(bytes) {
                Err(error) if error.kind() == ErrorKind::Interrupted => {}
                written => return written,
            }
        }
        Err(io::Error::from(ErrorKind::TimedOut))
    }

    fn flush(&mut self) -> io::Result<()> {
        Ok(())
    }
}
