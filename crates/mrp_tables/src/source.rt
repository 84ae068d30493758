//! The reader of tables: what it reads from, bytes in front, those that were taken and are to be read
//! again, and a reader behind them.

ghost use Rattle.std.specs.Prelude.{◌≤◌, length};

use std::alloc::{AllocError, Global};
use std::io::{Error, Read, Result as IoResult};

pub(crate) const LINE_FEED: u8 = 10;

const CARRIAGE_RETURN: u8 = 13;

/// The bytes ahead of a reader, and then the reader. Where the reader failed, its error comes behind the bytes ahead.
#[derive(Drop)]
pub(crate) struct Source<R> {
    alloc: Global,
    ahead: Vec<u8>,
    /// How many of the bytes ahead were read.
    at: usize,
    failed: Option<Error>,
    /// Whether the reader has told its end. It isn't asked again.
    is_ended: bool,
    reader: R,
    ghost within: { at ≤ length ahead.items },
}

impl<R: Read> Read for Source<R> {
    ghost use Rattle.mrp_tables.specs.Sources.{left_of};

    ghost remaining = { λ s. left_of R.remaining s };

    fn read(&mut self, buf: &mut [u8]) -> IoResult<usize> {
        if self.at < self.ahead.len() {
            let mut ahead = &self.ahead[self.at..];
            let count = ahead.read(buf)?;
            self.at += count;
            return Ok(count);
        }
        if self.is_ended {
            return Ok(0);
        }
        match self.failed.take() {
            Some(error) => Err(error),
            None => self.read_behind(buf),
        }
    }
}

impl<R: Read> Source<R> {
    ghost use Rattle.std.specs.Prelude.{◌≡◌, ◌≤◌, false, OnOk, length, take};
    ghost use Rattle.std.specs.Io.{ReadsAtMost};
    ghost use Rattle.std.specs.Io.KnownBytes.{Consumes, Keeps, ReadConsumes, prepend_known};
    ghost use Rattle.mrp_tables.specs.Sources.{left_of};

    /// The reader, of which no byte was taken.
    pub(crate) fn new(alloc: Global, reader: R) -> Source<R>
        ensures { left_of R.remaining result ≡ R.remaining reader }
    {
        Source {
            alloc,
            ahead: Vec::new(alloc),
            at: 0,
            failed: None,
            is_ended: false,
            reader,
        }
    }

    /// Reads the reader, behind all bytes ahead.
    fn read_behind(&mut self, buf: &mut [u8]) -> IoResult<usize>
        requires none { length self.old.ahead.items ≤ self.old.at }
        requires open { self.old.is_ended ≡ false }
        ensures bound { ReadsAtMost result buf.new }
        ensures bytes { ReadConsumes (left_of R.remaining self.old) (left_of R.remaining self.new) result buf.new }
    {
        if buf.is_empty() {
            return self.reader.read(buf);
        }
        match self.reader.read(buf) {
            Ok(0) => {
                self.is_ended = true;
                Ok(0)
            }
            Ok(count) => Ok(count),
            Err(error) => Err(error),
        }
    }

    /// Reads the first byte alone, as a csv reader does to see a byte order mark, and gives it back. So a reader that
    /// fails does so at the same row.
    pub(crate) fn look(&mut self) -> Result<(), AllocError>
        ensures { OnOk result (Keeps (left_of R.remaining self.old) (left_of R.remaining self.new)) }
    {
        let mut byte = [0u8];
        let used = self.fill(&mut byte);
        self.give_back(&byte[..used])
    }

    /// Takes the bytes ahead and what the reader gives until some row ends, but no more than there is room for, and says
    /// how many bytes. The text may end or the reader fail before.
    pub(crate) fn fill(&mut self, room: &mut [u8]) -> usize
        ensures within { result ≤ length room.old }
        ensures taken { Consumes (left_of R.remaining self.old) (left_of R.remaining self.new) (take result room.new) }
    {
        let mut used = 0;
        'bytes: while used < room.len() {
            let is_ahead = self.at < self.ahead.len();
            match self.read(&mut room[used..]) {
                Ok(0) => return used,
                Ok(count) => {
                    let start = used;
                    used += count;
                    if !is_ahead && ends_a_row(&room[start..used]) {
                        return used;
                    }
                }
                Err(error) => {
                    self.failed = Some(error);
                    return used;
                }
            }
        }
        used
    }

    /// Gives back bytes, to be read again before all others.
    pub(crate) fn give_back(&mut self, bytes: &[u8]) -> Result<(), AllocError>
        ensures given { OnOk result (left_of R.remaining self.new
            ≡ prepend_known bytes.now (left_of R.remaining self.old)) }
    {
        let mut ahead = Vec::new(self.alloc);
        ahead.extend_from_slice(bytes)?;
        ahead.extend_from_slice(&self.ahead[self.at..])?;
        self.ahead = ahead;
        self.at = 0;
        Ok(())
    }
}

/// Whether some row ends in these bytes.
fn ends_a_row(bytes: &[u8]) -> bool {
    bytes.contains(&LINE_FEED) || bytes.contains(&CARRIAGE_RETURN)
}
