//! Devices with counts of the lines that go through them.
ghost use Rattle.std.specs.Prelude.{◌≡◌};
ghost use Rattle.rp_drive.specs.Counted.{ends_in_line, lines_begun};

use rp_io::{Intake, Outlet, ReadFailed, WriteFailed};

/// The byte that ends a line.
const LF: u8 = b'\n';

/// A reader or a writer, with the count of the lines that went through it.
#[derive(Drop)]
pub struct Counted<D> {
    /// The device itself.
    pub device: D,
    /// How many lines have begun in what went through it, up to 2^128 - 1, where the count stays.
    pub lines: u128,
    /// Whether the last of them has not ended.
    pub in_line: bool,
}

impl<D> Counted<D> {
    ghost use Rattle.std.specs.Prelude.{◌≡◌, false};
    ghost use Rattle.rp_drive.specs.Counted.{ends_in_line, lines_begun, raised_by};

    /// A device of which nothing is counted yet.
    pub fn new(device: D) -> Self
        ensures device { result.device ≡ device }
        ensures lines { result.lines ≡ 0 }
        ensures in_line { result.in_line ≡ false }
    {
        Counted {
            device,
            lines: 0,
            in_line: false,
        }
    }

    /// Counts the lines of bytes that went through.
    pub fn count(&mut self, bytes: &[u8])
        ensures lines { self.new.lines ≡ raised_by (lines_begun self.old.in_line bytes.now) self.old.lines }
        ensures in_line { self.new.in_line ≡ ends_in_line self.old.in_line bytes.now }
        ensures device { self.new.device ≡ self.old.device }
    {
        let passed = tally(self.in_line, bytes);
        self.lines = self.lines.saturating_add(passed.lines as u128);
        self.in_line = passed.in_line;
    }
}

/// What bytes bring: how many lines begin in them, and whether the last one hasn't ended.
#[derive(Clone, Copy)]
struct Passed {
    lines: usize,
    in_line: bool,
}

/// What the bytes bring, where a line has begun before them or not.
fn tally(in_line: bool, bytes: &[u8]) -> Passed
    ensures lines { result.lines ≡ lines_begun in_line bytes.now }
    ensures in_line { result.in_line ≡ ends_in_line in_line bytes.now }
{
    let mut lines = 0usize;
    let mut inside = in_line;
    for byte in bytes {
        lines += usize::from(!inside);
        inside = *byte != LF;
    }
    Passed {
        lines,
        in_line: inside,
    }
}

impl<R: Intake> Intake for Counted<R> {
    ghost seen = { λ counted. R.seen counted.device };

    fn read(&mut self, buffer: &mut [u8]) -> Result<usize, ReadFailed> {
        match self.device.read(buffer) {
            Ok(taken) => {
                self.count(&buffer[..taken]);
                Ok(taken)
            }
            Err(fault) => Err(fault),
        }
    }
}

impl<W: Outlet> Outlet for Counted<W> {
    ghost contents = { λ counted. W.contents counted.device };

    ghost calls = { λ counted. W.calls counted.device };

    ghost failures = { λ counted. W.failures counted.device };

    fn write(&mut self, bytes: &[u8]) -> Result<usize, WriteFailed> {
        match self.device.write(bytes) {
            Ok(taken) => {
                self.count(&bytes[..taken]);
                Ok(taken)
            }
            Err(fault) => Err(fault),
        }
    }
}
