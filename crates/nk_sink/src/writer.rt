// The writing side of a listener's pipe.

ghost use Rattle.std.specs.Prelude.{◌≡◌, ◌<◌, ◌≤◌, ◌^◌, min, length, drop, OnOk, IfOk, List, None};
ghost use Rattle.nk_pipe.specs.Pipe.{Pipe as PipeModel, written_to};
ghost use Rattle.nk_pipe.specs.Kept.{Stands, count};
ghost use Rattle.nk_pump.specs.Shown.{Shown};
ghost use Rattle.nk_sink.specs.Listener.{flowed};
ghost use Rattle.nk_plan.specs.Readers.{body_of};
ghost use Rattle.nk_sink.specs.Fed.{piped_with, room_in, HasPassed, MayPass, Passes, IsAt};

use nk_base::{Entry, Memory};
use nk_pipe::{Pipe, Write};

/// A pipe, and how far the entries are in it. What is not stands among the entries still, so it is kept for nothing.
#[derive(Drop)]
pub(crate) struct Writer {
    pub(crate) pipe: Pipe,
    // The first entry that is not whole in the pipe, and how many of its bytes are.
    pub(crate) place: usize,
    pub(crate) offset: usize,
}

impl Writer {
    /// Writes the entries as far as they fit, and closes the pipe at the stop.
    pub(crate) fn flow(&mut self, entries: &[Entry]) -> Result<(), Memory>
        requires at { IsAt entries.now self.old.pipe self.old.place self.old.offset }
        requires few { length (body_of entries.now) < 2 ^ 62 }
        ensures at { OnOk result (IsAt entries.now self.new.pipe self.new.place self.new.offset) }
        ensures flowed { (pumps : List Shown) → OnOk result (piped_with entries.now self.new.pipe pumps ≡ flowed (piped_with entries.now self.old.pipe pumps)) }
    {
        while self.place < entries.len() {
            if !self.pass(&entries[self.place])? {
                return Ok(());
            }
            self.place += 1;
        }
        Ok(())
    }

    /// Writes the rest of one entry as far as it fits, and answers whether the next may follow.
    fn pass(&mut self, entry: &Entry) -> Result<bool, Memory>
        requires may { MayPass entry.now self.old.pipe self.old.offset }
        requires few { count self.old.pipe < 2 ^ 62 }
        ensures passes { IfOk result (λ all. Passes entry.now self.old.pipe self.old.offset self.new.pipe self.new.offset all) }
        ensures place { self.new.place ≡ self.old.place }
    {
        match entry {
            Entry::Start { .. } => Ok(true),
            Entry::Bytes { piece, .. } => self.pass_bytes(piece.as_slice()),
            Entry::Stop { status, .. } => {
                self.pipe.close_writer(*status);
                Ok(false)
            }
        }
    }

    /// Writes the rest of a piece as far as it fits, and answers whether all did.
    fn pass_bytes(&mut self, piece: &[u8]) -> Result<bool, Memory>
        requires within { self.old.offset ≤ length piece.now }
        requires opens { self.old.pipe.closed ≡ None }
        requires few { count self.old.pipe < 2 ^ 62 }
        ensures wrote { (p : PipeModel) → Stands self.old.pipe p → OnOk result (Stands self.new.pipe (written_to p.closed (drop self.old.offset piece.now) p)) }
        ensures passed { IfOk result (λ all. HasPassed all self.old.pipe self.old.offset self.new.offset (drop self.old.offset piece.now)) }
        ensures place { self.new.place ≡ self.old.place }
    {
        let rest = &piece[self.offset..];
        let count = pour(&mut self.pipe, rest)?;
        let all = count == rest.len();
        self.offset = if all { 0 } else { self.offset + count };
        Ok(all)
    }
}

/// Writes the first of the bytes, and answers how many found room.
fn pour(pipe: &mut Pipe, bytes: &[u8]) -> Result<usize, Memory>
    requires opens { pipe.old.closed ≡ None }
    requires few { count pipe.old < 2 ^ 62 }
    ensures wrote { (p : PipeModel) → Stands pipe.old p → OnOk result (Stands pipe.new (written_to p.closed bytes.now p)) }
    ensures count { IfOk result (λ n. n ≡ min (room_in pipe.old) (length bytes.now)) }
{
    match pipe.write(bytes)? {
        Write::Wrote(count) => Ok(count as usize),
        Write::WouldBlock | Write::Closed(_) => Ok(0),
    }
}
