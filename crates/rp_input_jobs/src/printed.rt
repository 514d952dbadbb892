//! Where `source` prints items. A node gives an item once: so a line that can't be written is reported.
use rp_job::tell;
use std::io::{self, Write};

/// Standard output, as it takes items, a line each. A line that it doesn't take is printed on standard error.
#[derive(Drop)]
pub(crate) struct ItemOutput<'a> {
    rt: &'a HostRuntime,
    /// What was taken of a line that hasn't ended.
    taken: Vec<u8>,
}

impl<'a> ItemOutput<'a> {
    /// Standard output, which has taken nothing yet.
    pub(crate) fn new(rt: &'a HostRuntime) -> ItemOutput<'a> {
        ItemOutput {
            rt,
            taken: Vec::new(rt.alloc()),
        }
    }

    /// Keeps what was taken until its line has ended. Where memory is refused, less of the line is reported.
    fn keep(&mut self, bytes: &[u8]) {
        if bytes.last() == Some(&b'\n') {
            self.taken.clear();
        } else {
            let _ = self.taken.extend_from_slice(bytes);
        }
    }

    /// Reports the line that wasn't taken, of which this is the rest.
    fn tell_lost(&self, rest: &[u8]) {
        tell(
            self.rt,
            &"an item wasn't written, and its node doesn't give it again: keep this line",
        );
        let _ = self.rt.stderr().write_all(self.taken.as_slice());
        let _ = self.rt.stderr().write_all(rest);
    }
}

impl Write for ItemOutput<'_> {
    fn write(&mut self, bytes: &[u8]) -> io::Result<usize> {
        match self.rt.stdout().write(bytes) {
            Ok(count) => {
                self.keep(bytes.get(..count).unwrap_or(&[]));
                Ok(count)
            }
            Err(error) => {
                self.tell_lost(bytes);
                Err(error)
            }
        }
    }

    fn flush(&mut self) -> io::Result<()> {
        Ok(())
    }
}
