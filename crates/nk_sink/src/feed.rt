// The pipe of a listener, with the pumps that read it.

ghost use Rattle.std.specs.Prelude.{◌≡◌, ◌<◌, ◌≤◌, ◌-◌, ◌^◌, length, replicate, OnOk, IfOk};
ghost use Rattle.nk_pipe.specs.Pipe.{new_pipe, reader_at};
ghost use Rattle.nk_pipe.specs.Kept.{Stands, count};
ghost use Rattle.nk_pump.specs.Shown.{nothing_shown};
ghost use Rattle.nk_sink.specs.Listener.{turn_enabled, pump_of, read_by, flowed};
ghost use Rattle.nk_plan.specs.Readers.{body_of, stop_of};
ghost use Rattle.nk_base.specs.Status.{moved_if};
ghost use Rattle.nk_sink.specs.Reached.{IsPipeKind};
ghost use Rattle.nk_sink.specs.Held.{IsPiped};
ghost use Rattle.nk_sink.specs.Fed.{piped_with};
ghost use Rattle.nk_sink.specs.Sunk.{IsFed};

use crate::given::turn;
use crate::writer::Writer;
use nk_base::{Entry, Memory, Moved};
use nk_pipe::Pipe;
use nk_pump::Pump;
use std::alloc::Global;

/// A pipe into which a listener writes, and the pump of each of its readers, in their order.
#[derive(Drop)]
pub(crate) struct Feed {
    pub(crate) writer: Writer,
    pub(crate) pumps: Vec<Pump>,
    // One segment long; what a read gives stands here before its pump shows it.
    pub(crate) buffer: Vec<u8>,
}

impl Feed {
    /// A new pipe with this number of readers.
    pub(crate) fn new(alloc: Global, segment: u32, limit: u32, readers: u8) -> Result<Feed, Memory>
        requires { IsPipeKind segment limit readers }
        ensures pipe { IfOk result (λ f. Stands f.writer.pipe (record (new_pipe segment limit) { readers = replicate readers (reader_at 0) })) }
        ensures count { IfOk result (λ f. count f.writer.pipe ≡ 0) }
        ensures place { IfOk result (λ f. f.writer.place ≡ 0) }
        ensures offset { IfOk result (λ f. f.writer.offset ≡ 0) }
        ensures pumps { IfOk result (λ f. f.pumps.items ≡ replicate readers (nothing_shown segment)) }
        ensures buffer { IfOk result (λ f. length f.buffer.items ≡ segment) }
    {
        let pipe = new_pipe(alloc, segment, limit, readers)?;
        let pumps = new_pumps(alloc, segment, readers)?;
        let Ok(buffer) = vec![in alloc; 0_u8; segment as usize] else {
            return Err(Memory);
        };
        let writer = Writer {
            pipe,
            place: 0,
            offset: 0,
        };
        Ok(Feed {
            writer,
            pumps,
            buffer,
        })
    }

    /// Lets what is kept flow.
    pub(crate) fn flow(&mut self, entries: &[Entry]) -> Result<(), Memory>
        requires fed { IsFed entries.now self.old }
        requires few { length (body_of entries.now) < 2 ^ 62 }
        ensures fed { OnOk result (IsFed entries.now self.new) }
        ensures flowed { OnOk result (piped_with entries.now self.new.writer.pipe self.new.pumps.items ≡ flowed (piped_with entries.now self.old.writer.pipe self.old.pumps.items)) }
    {
        self.writer.flow(entries)
    }

    /// One turn of the pump of this reader, behind which what is kept flows.
    pub(crate) fn read(&mut self, reader: u32, entries: &[Entry]) -> Result<Moved, Memory>
        requires fed { IsFed entries.now self.old }
        requires piped { IsPiped (body_of entries.now) (stop_of entries.now) (piped_with entries.now self.old.writer.pipe self.old.pumps.items) }
        requires few { length (body_of entries.now) < 2 ^ 62 }
        ensures fed { OnOk result (IsFed entries.now self.new) }
        ensures read { OnOk result (piped_with entries.now self.new.writer.pipe self.new.pumps.items ≡ read_by (pump_of self.old.pumps.items reader) reader (piped_with entries.now self.old.writer.pipe self.old.pumps.items)) }
        ensures answer { IfOk result (λ r. r ≡ moved_if (turn_enabled (pump_of self.old.pumps.items reader) reader (piped_with entries.now self.old.writer.pipe self.old.pumps.items).pipe)) }
    {
        let number = reader as usize;
        if number == 0 || self.pumps.len() < number {
            return Ok(Moved::Idle);
        }
        let moved = turn(
            &mut self.pumps[number - 1],
            &mut self.writer.pipe,
            reader,
            &mut self.buffer,
        )?;
        self.writer.flow(entries)?;
        Ok(moved)
    }
}

/// A pipe with reader 1 and its clones.
fn new_pipe(alloc: Global, segment: u32, limit: u32, readers: u8) -> Result<Pipe, Memory>
    requires { IsPipeKind segment limit readers }
    ensures pipe { IfOk result (λ p. Stands p (record (new_pipe segment limit) { readers = replicate readers (reader_at 0) })) }
    ensures count { IfOk result (λ p. count p ≡ 0) }
{
    let (mut pipe, first) = Pipe::new(alloc, segment, limit)?;
    let mut made = 1;
    while made < readers {
        let Ok(_) = pipe.clone_reader(first) else {
            return Err(Memory);
        };
        made += 1;
    }
    Ok(pipe)
}

/// So many pumps, each with a buffer one segment long.
fn new_pumps(alloc: Global, segment: u32, readers: u8) -> Result<Vec<Pump>, Memory>
    requires least { 1 ≤ segment }
    requires most { segment ≤ 65536 }
    ensures { IfOk result (λ v. v.items ≡ replicate readers (nothing_shown segment)) }
{
    let mut pumps = Vec::new(alloc);
    for _ in 0..readers {
        let Ok(()) = pumps.push(Pump::new(alloc, segment)?) else {
            return Err(Memory);
        };
    }
    Ok(pumps)
}
