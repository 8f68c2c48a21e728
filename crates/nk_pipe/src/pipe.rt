// The pipe and its calls.

ghost use Rattle.std.specs.Prelude.{◌≡◌, ◌+◌, ◌<◌, ◌≤◌, ◌^◌, ◌++◌, [], ◌∷◌, true, length, drop, IfOk, OnOk, OnErr, None};
ghost use Rattle.nk_pipe.specs.Pipe.{Pipe as PipeModel, new_pipe, numbered, has_open, write_count, write_answer, written_to, read_answer, read_from, handed, clone_answer, cloned, close_answer, without_reader, without_writer, position_of};
ghost use Rattle.nk_pipe.specs.Kept.{Stands, count, Reaches};
ghost use Rattle.nk_pipe.specs.Answers.{OrMemory};

use crate::answer::{CloneError, NoReader, Read, Write};
use crate::cursor::Cursor;
use crate::reader::Reader;
use crate::status::first_close;
use nk_base::{Memory, Status};
use nk_segments::Segments;
use std::alloc::Global;
use std::marker::Model;

/// A pipe, seen as what it keeps of the pipe model. After Firefox's nsPipe.
#[derive(Drop)]
pub struct Pipe {
    pub(crate) segments: Segments,
    pub(crate) segment: u32,
    pub(crate) limit: u32,
    pub(crate) readers: Vec<Reader>,
    pub(crate) writer: Cursor,
    pub(crate) written: u64,
    // How many bytes find room in the segments behind the written ones.
    pub(crate) ahead: u64,
    pub(crate) closed: Option<Status>,
}

impl Model for Pipe {
    ghost use Rattle.nk_pipe.specs.Kept.{Kept};

    ghost Value = { Kept };

    ghost use Rattle.nk_pipe.specs.Laid.{kept_bytes, past, all_seen, IsPipe};

    ghost view = { λ s. record {
      segment = s.segment;
      limit = s.limit;
      past = past s.segments.segments s.written s.ahead;
      bytes = kept_bytes s.segments.segments s.ahead;
      readers = all_seen s.readers.items;
      closed = s.closed;
      ahead = s.ahead;
    } };

    ghost invariant = { λ s. IsPipe s.segment s.limit s.segments s.readers.items s.writer s.written s.ahead s.closed };
}

impl Pipe {
    /// An empty pipe that takes `limit` segments of `segment` bytes ahead of its furthest reader, and its reader 1.
    pub fn new(alloc: Global, segment: u32, limit: u32) -> Result<(Pipe, u32), Memory>
        requires least { 4 ≤ segment }
        requires most { segment ≤ 65536 }
        requires least_limit { 1 ≤ limit }
        requires most_limit { limit ≤ 1024 }
        ensures pipe { IfOk result (λ r. Stands r.0 (new_pipe segment limit)) }
        ensures reader { IfOk result (λ r. r.1 ≡ 1) }
        ensures count { IfOk result (λ r. count r.0 ≡ 0) }
    {
        let cursor = Cursor {
            place: None,
            offset: 0,
        };
        let first = Reader {
            start: 0,
            position: 0,
            closed: None,
            cursor,
        };
        let Ok(readers) = vec![in alloc; first] else {
            return Err(Memory);
        };
        let pipe = Pipe {
            segments: Segments::new(alloc, segment),
            segment,
            limit,
            readers,
            writer: cursor,
            written: 0,
            ahead: 0,
            closed: None,
        };
        Ok((pipe, 1))
    }

    /// Writes the first of the bytes, as many as there is room for. All memory is taken before anything changes; after
    /// `Memory` only what finds room in segments may have grown.
    pub fn write(&mut self, bytes: &[u8]) -> Result<Write, Memory>
        requires { count self.old < 2 ^ 62 }
        ensures answer { (p : PipeModel) → Stands self.old p → IfOk result (λ w. w ≡ write_answer p.closed (write_count p bytes.now) (length bytes.now)) }
        ensures state { (p : PipeModel) → Stands self.old p → OnOk result (Stands self.new (written_to p.closed bytes.now p)) }
        ensures err { OnErr result (self.new ≡ record self.old { ahead = self.new.ahead }) }
        ensures told { self.old.closed ≡ None → has_open self.old.readers ≡ true }
        ensures count { count self.new ≤ count self.old + length bytes.now }
    {
        if let Some(status) = self.closed {
            return Ok(Write::Closed(status));
        }
        let n = self.room().min(bytes.len() as u64);
        if n == 0 && !bytes.is_empty() {
            return Ok(Write::WouldBlock);
        }
        self.make_room(n)?;
        self.append(&bytes[..n as usize]);
        Ok(Write::Wrote(n as u32))
    }

    /// Hands a reader out what is left for it, as much as the buffer takes, into the front of the buffer.
    pub fn read_into(&mut self, reader: u32, buffer: &mut [u8]) -> Result<Read, NoReader>
        requires { length buffer.old < 2 ^ 32 }
        ensures answer { (p : PipeModel) → Stands self.old p → result ≡ read_answer (numbered p.readers reader) reader (length buffer.old) p }
        ensures state { (p : PipeModel) → Stands self.old p → Stands self.new (read_from (numbered p.readers reader) reader (length buffer.old) p) }
        ensures bytes { (p : PipeModel) → Stands self.old p → let h = handed (numbered p.readers reader) (length buffer.old) p.written in buffer.new ≡ h ++ drop (length h) buffer.old }
        ensures count { count self.new ≡ count self.old }
    {
        match self.index(reader) {
            Some(i) => Ok(self.read_at(i, buffer)),
            None => Err(NoReader(reader)),
        }
    }

    /// Makes a reader that starts where another stands, and gives its number. The writer may have closed.
    pub fn clone_reader(&mut self, reader: u32) -> Result<u32, CloneError>
        ensures answer { (p : PipeModel) → Stands self.old p → OrMemory (clone_answer (numbered p.readers reader) reader (length p.readers)) result }
        ensures state { (p : PipeModel) → Stands self.old p → OnOk result (Stands self.new (cloned (numbered p.readers reader) p)) }
        ensures err { OnErr result (self.new ≡ self.old) }
        ensures count { count self.new ≡ count self.old }
    {
        match self.index(reader) {
            Some(i) => self.clone_at(i),
            None => Err(CloneError::NoReader(reader)),
        }
    }

    /// Closes a reader alone; the close of the last open one closes the pipe. The first close is kept.
    pub fn close_reader(&mut self, reader: u32, status: Status) -> Result<(), NoReader>
        ensures answer { (p : PipeModel) → Stands self.old p → result ≡ close_answer (numbered p.readers reader) reader }
        ensures state { (p : PipeModel) → Stands self.old p → Stands self.new (without_reader (numbered p.readers reader) reader status p) }
        ensures count { count self.new ≡ count self.old }
    {
        match self.index(reader) {
            Some(i) => {
                if self.is_open(i) {
                    self.close_at(i, status);
                }
                Ok(())
            }
            None => Err(NoReader(reader)),
        }
    }

    /// Closes the pipe from the writer's side: what was written can still be read. The first close is kept.
    pub fn close_writer(&mut self, status: Status)
        ensures state { (p : PipeModel) → Stands self.old p → Stands self.new (without_writer status p) }
        ensures count { count self.new ≡ count self.old }
    {
        self.closed = first_close(self.closed, status);
    }

    /// The number of bytes written.
    pub fn written(&self) -> u64
        ensures count { result ≡ count self.now }
        ensures written { (p : PipeModel) → Stands self.now p → result ≡ length p.written }
    {
        self.written
    }

    /// How far a reader is, `None` exactly where that number was never given.
    pub fn position(&self, reader: u32) -> Option<u64>
        ensures position { (p : PipeModel) → Stands self.now p → result ≡ position_of (numbered p.readers reader) }
        ensures reaches { Reaches (numbered self.now.readers reader) self.now.past }
    {
        match self.index(reader) {
            Some(i) => Some(self.readers[i].position),
            None => None,
        }
    }
}
