//! The records of a CSV text, one after another.

use csv::{ByteRecord, Reader};
use rp_input::{MAX_RECORDS, reader_of, take_record};
use std::alloc::{AllocError, Global};

/// The records of a CSV text, one after another. Going on never fails: where memory is refused there is no further record, and
/// whoever asks for what was found is told.
pub struct Records<'a> {
    alloc: Global,
    /// In a box, since a reader is large; None where memory was refused to it.
    reader: Option<Box<Reader<&'a [u8]>>>,
    fields: ByteRecord,
    is_cut: bool,
}

/// It is let go of by a call, wherever it is held.
impl<'a> Drop for Records<'a> {
    fn drop(self) {
        let Records {
            alloc: _,
            reader: _,
            fields: _,
            is_cut: _,
        } = self;
    }
}

impl<'a> Records<'a> {
    /// Before the first record of a text, in which this byte is between fields.
    pub fn of(alloc: Global, bytes: &'a [u8], delimiter: u8) -> Records<'a> {
        let reader = Box::new(alloc, reader_of(alloc, bytes, delimiter)).ok();
        Records {
            alloc,
            is_cut: reader.is_none(),
            reader,
            fields: ByteRecord::new(alloc),
        }
    }

    /// Goes on to the next record. False: there is none.
    pub fn next(&mut self) -> bool {
        let Some(reader) = &mut self.reader else {
            return false;
        };
        match take_record(reader, &mut self.fields) {
            Ok(found) => found,
            Err(_) => {
                self.is_cut = true;
                false
            }
        }
    }

    /// Goes on by so many records. False: there aren't so many.
    pub fn pass(&mut self, count: u64) -> bool {
        for _record in 0..count {
            if !self.next() {
                return false;
            }
        }
        true
    }

    /// Goes on to the next record of which this holds. False: there is none.
    pub fn find<F: Fn(&ByteRecord) -> bool>(&mut self, holds: F) -> bool
        requires { F.IsAlwaysCallable holds }
    {
        for _record in 0..MAX_RECORDS {
            if !self.next() {
                return false;
            }
            if holds(&self.fields) {
                return true;
            }
        }
        false
    }

    /// The fields of the record at hand.
    pub fn fields(&self) -> &ByteRecord {
        &self.fields
    }

    /// The next record as its own; one without a field where there is none.
    pub fn take(&mut self) -> ByteRecord {
        let fields = ByteRecord::new(self.alloc);
        if self.next() {
            return std::mem::replace(&mut self.fields, fields);
        }
        fields
    }

    /// What was found in the records, unless memory was refused to one.
    pub fn finish<T: Drop>(&self, found: T) -> Result<T, AllocError> {
        if self.is_cut {
            return Err(AllocError);
        }
        Ok(found)
    }
}

/// The offset at which a record begins.
pub fn start_of(fields: &ByteRecord, bytes: &[u8]) -> usize {
    let from = match fields.position() {
        Some(position) => usize::try_from(position.byte()).unwrap_or(0),
        None => 0,
    };
    record_start(bytes, from)
}

/// The first offset from this one on at which no line end and no byte order mark stands.
pub fn record_start(bytes: &[u8], from: usize) -> usize {
    let from = if from == 0 && has_mark(bytes) {
        3
    } else {
        from
    };
    for (at, byte) in bytes.iter().enumerate().skip(from) {
        if *byte != b'\n' && *byte != b'\r' {
            return at;
        }
    }
    bytes.len()
}

/// Whether the bytes begin with a byte order mark, as spreadsheets write one.
pub fn has_mark(bytes: &[u8]) -> bool {
    bytes.starts_with(b"\xef\xbb\xbf")
}

/// The bytes without a byte order mark in front.
pub fn without_mark(bytes: &[u8]) -> &[u8] {
    match bytes.strip_prefix(b"\xef\xbb\xbf".as_slice()) {
        Some(behind) => behind,
        None => bytes,
    }
}
