// The steps of a pipe within one segment, which its calls repeat.

ghost use Rattle.std.specs.Prelude.{◌≡◌, ◌+◌, ◌-◌, ◌<◌, ◌≤◌, ◌^◌, ◌++◌, true, length, take, drop, OnOk, OnErr, IfSome, slice_get, MatchOption, None, Some, slice_set, slice_index};
ghost use Rattle.nk_pipe.specs.Pipe.{has_open, room_for, numbered, moved};
ghost use Rattle.nk_pipe.specs.Kept.{count, Forgets, OpenAt};

use crate::cursor::Cursor;
use crate::pipe::Pipe;
use crate::reader::Reader;
use crate::readers::{all_reach, count_open, furthest};
use crate::store::{copy_out, put_in};
use nk_base::Memory;

impl Pipe {
    /// The number of bytes that there is room for.
    pub(crate) fn room(&self) -> u64
        requires { count self.now < 2 ^ 62 }
        ensures room { result ≡ room_for self.now.segment self.now.limit self.now.readers (count self.now) }
        ensures few { result ≤ 67108864 }
    {
        let (segment, limit) = (u64::from(self.segment), u64::from(self.limit));
        let taken = furthest(&self.readers) / segment + limit;
        (taken * segment).saturating_sub(self.written)
    }

    /// Adds a segment behind the last one.
    pub(crate) fn add_segment(&mut self) -> Result<(), Memory>
        requires opens { has_open self.old.readers ≡ true }
        requires fits { self.old.ahead < 2 ^ 63 }
        ensures ok { OnOk result (self.new ≡ record self.old { ahead = self.old.ahead + self.old.segment }) }
        ensures err { OnErr result (self.new ≡ self.old) }
    {
        let readers = count_open(&self.readers);
        let place = self.segments.add_back(readers)?;
        all_reach(&mut self.readers, place);
        self.writer = self.writer.reaching(place);
        self.ahead += u64::from(self.segment);
        Ok(())
    }

    /// Puts the first bytes into the segment where the writer stands, as many as it takes.
    pub(crate) fn fill(&mut self, bytes: &[u8]) -> usize
        requires opens { has_open self.old.readers ≡ true }
        requires some { 0 < length bytes.now }
        requires fits { length bytes.now ≤ self.old.ahead }
        requires few { count self.old < 2 ^ 63 }
        ensures some { 0 < result }
        ensures most { result ≤ length bytes.now }
        ensures filled { self.new ≡ record self.old {
          bytes = self.old.bytes ++ take result bytes.now;
          ahead = self.old.ahead - result;
        } }
    {
        let Cursor { place, offset } = self.writer;
        let Some(place) = place else {
            return 0;
        };
        let n = put_in(&mut self.segments, place, offset, self.segment, bytes);
        self.writer = Cursor::within(&self.segments, place, offset + n as u32, self.segment);
        self.written += n as u64;
        self.ahead -= n as u64;
        n
    }

    /// Hands out the next bytes of the segment where an open reader stands, as many as the buffer takes.
    pub(crate) fn take(&mut self, i: usize, buffer: &mut [u8]) -> usize
        requires opens { OpenAt self.old.readers i }
        requires some { 0 < length buffer.old }
        requires fits { IfSome (slice_get self.old.readers i) (λ r. r.position + length buffer.old ≤ count self.old) }
        ensures some { 0 < result }
        ensures most { result ≤ length buffer.old }
        ensures within { IfSome (slice_get self.old.readers i) (λ r. self.old.past ≤ r.position) }
        ensures handed { IfSome (slice_get self.old.readers i) (λ r. buffer.new ≡ take result (drop (r.position - self.old.past) self.old.bytes) ++ drop result buffer.old) }
        ensures moved { IfSome (slice_get self.old.readers i) (λ r. Forgets (record self.old { readers = slice_set self.old.readers i (moved r result) }) self.new) }
    {
        let reader = self.readers[i];
        let Cursor { place, offset } = reader.cursor;
        let Some(place) = place else {
            return 0;
        };
        let n = copy_out(&self.segments, place, offset, buffer);
        let cursor = Cursor::passing(&mut self.segments, place, offset + n as u32, self.segment);
        self.readers[i] = Reader {
            start: reader.start,
            position: reader.position + n as u64,
            closed: reader.closed,
            cursor,
        };
        n
    }

    /// Makes room for `n` bytes in segments behind the last one. After `Memory` some may be there, which the next write
    /// finds.
    pub(crate) fn make_room(&mut self, n: u64) -> Result<(), Memory>
        requires opens { has_open self.old.readers ≡ true }
        requires few { n < 2 ^ 32 }
        ensures same { self.new ≡ record self.old { ahead = self.new.ahead } }
        ensures ok { OnOk result (n ≤ self.new.ahead) }
    {
        while self.ahead < n {
            self.add_segment()?;
        }
        Ok(())
    }

    /// Writes bytes that there is room for in the segments.
    pub(crate) fn append(&mut self, bytes: &[u8])
        requires opens { has_open self.old.readers ≡ true }
        requires fits { length bytes.now ≤ self.old.ahead }
        requires few { count self.old + length bytes.now < 2 ^ 63 }
        ensures written { self.new ≡ record self.old {
          bytes = self.old.bytes ++ bytes.now;
          ahead = self.old.ahead - length bytes.now;
        } }
    {
        let mut done = 0;
        while done < bytes.len() {
            done += self.fill(&bytes[done..]);
        }
    }

    /// Hands out bytes to an open reader, segment by segment, until the buffer is full.
    pub(crate) fn hand_out(&mut self, i: usize, buffer: &mut [u8])
        requires opens { OpenAt self.old.readers i }
        requires within { IfSome (slice_get self.old.readers i) (λ r. self.old.past ≤ r.position) }
        requires fits { IfSome (slice_get self.old.readers i) (λ r. r.position + length buffer.old ≤ count self.old) }
        ensures handed { IfSome (slice_get self.old.readers i) (λ r. buffer.new ≡ take (length buffer.old) (drop (r.position - self.old.past) self.old.bytes)) }
        ensures moved { IfSome (slice_get self.old.readers i) (λ r. Forgets (record self.old { readers = slice_set self.old.readers i (moved r (length buffer.old)) }) self.new) }
    {
        let mut done = 0;
        while done < buffer.len() {
            done += self.take(i, &mut buffer[done..]);
        }
    }
}
