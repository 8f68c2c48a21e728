// The calls on one reader, by its index.

ghost use Rattle.std.specs.Prelude.{◌≡◌, ◌+◌, ◌-◌, ◌<◌, ◌≤◌, ◌^◌, ◌++◌, [], ◌∷◌, length, IfSome, IfOk, OnOk, OnErr, MatchOption, slice_get};
ghost use Rattle.nk_pipe.specs.Pipe.{numbered, reader_at, open_answer, end_answer, is_open};
ghost use Rattle.nk_pipe.specs.Kept.{count, Forgets, OpenAt, ReadsBy, without};
ghost use Rattle.nk_pipe.specs.Answers.{ClonedBy};

use crate::answer::{CloneError, Read};
use crate::pipe::Pipe;
use crate::reader::Reader;
use crate::readers::any_open;
use crate::status::{close_of_reader, kept_status};
use crate::store::{hold, release};
use nk_base::Status;

impl Pipe {
    /// The index of a reader. They are numbered from 1.
    pub(crate) fn index(&self, reader: u32) -> Option<usize>
        ensures { MatchOption result (numbered self.now.readers reader ≡ None) (λ i. (reader ≡ i + 1) × (i < length self.now.readers)) }
    {
        let n = reader as usize;
        if 0 < n && n <= self.readers.len() {
            Some(n - 1)
        } else {
            None
        }
    }

    /// The answer where nothing is left to read.
    fn at_end(&self) -> Read
        ensures { result ≡ end_answer self.now.closed }
    {
        match self.closed {
            None => Read::WouldBlock,
            Some(status) => {
                if status.0 == Status::STREAM_CLOSED.0 {
                    Read::End
                } else {
                    Read::Failed(status)
                }
            }
        }
    }

    /// A read of the reader at this index.
    pub(crate) fn read_at(&mut self, i: usize, buffer: &mut [u8]) -> Read
        requires index { i < length self.old.readers }
        requires few { length buffer.old < 2 ^ 32 }
        ensures answer { IfSome (slice_get self.old.readers i) (λ r. result ≡ open_answer r.closed (count self.old - r.position) (length buffer.old) self.old.closed) }
        ensures reads { IfSome (slice_get self.old.readers i) (λ r. ReadsBy self.old self.new i r buffer.old buffer.new r.closed) }
    {
        let reader = self.readers[i];
        if let Some(status) = reader.closed {
            return Read::Failed(status);
        }
        let left = self.written - reader.position;
        if left == 0 {
            return self.at_end();
        }
        let n = buffer.len().min(left as usize);
        self.hand_out(i, &mut buffer[..n]);
        Read::Read(n as u32)
    }

    /// Whether the reader at this index is open.
    pub(crate) fn is_open(&self, i: usize) -> bool
        requires { i < length self.now.readers }
        ensures { IfSome (slice_get self.now.readers i) (λ r. result ≡ is_open r.closed) }
    {
        self.readers[i].closed.is_none()
    }

    /// A close of the open reader at this index.
    pub(crate) fn close_at(&mut self, i: usize, status: Status)
        requires { OpenAt self.old.readers i }
        ensures { IfSome (slice_get self.old.readers i) (λ r. Forgets (without self.old i r status) self.new) }
    {
        let reader = self.readers[i];
        self.readers[i] = Reader {
            start: reader.start,
            position: reader.position,
            closed: Some(kept_status(status)),
            cursor: reader.cursor,
        };
        release(&mut self.segments, reader.cursor.place);
        self.closed = close_of_reader(any_open(&self.readers), self.closed, status);
    }

    /// A clone of the reader at this index.
    pub(crate) fn clone_at(&mut self, i: usize) -> Result<u32, CloneError>
        requires { i < length self.old.readers }
        ensures { IfSome (slice_get self.old.readers i) (λ r. ClonedBy self.old self.new r result) }
    {
        let reader = self.readers[i];
        if let Some(status) = reader.closed {
            return Err(CloneError::Closed(status));
        }
        let made = self.readers.len() as u32;
        if 8 <= made {
            return Err(CloneError::TooManyReaders);
        }
        let at = reader.position;
        let clone = Reader {
            start: at,
            position: at,
            closed: None,
            cursor: reader.cursor,
        };
        if self.readers.push(clone).is_err() {
            return Err(CloneError::Memory);
        }
        hold(&mut self.segments, reader.cursor.place);
        Ok(made + 1)
    }
}
