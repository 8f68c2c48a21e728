// A listener, and the end of the lane from which it is fed.

ghost use Rattle.std.specs.Prelude.{◌≡◌, ◌<◌, [], false, length, IfOk, OnOk, OnErr, MatchOption};
ghost use Rattle.nk_base.specs.declared.status.Moved.TheVariants as moved;
ghost use Rattle.nk_base.specs.Status.{moved_if};
ghost use Rattle.nk_lane.specs.Ends.{taken_from, take_capacity, left_known, SameTakeEnd, IsBare as IsBareEnd, IsNext};
ghost use Rattle.nk_sink.specs.Listener.{read_turn, read_enabled};
ghost use Rattle.nk_sink_cell.specs.Sunk.{new_book, working, HasSeen, IsBare, IsWaiting, HasLeft, HasDelivered, IsBroken, MayBreak};

use nk_base::{Entry, Memory, Moved};
use nk_lane::{AnyEntry, TakeEnd};
use nk_sink::Listener;
use std::marker::Model;

/// The number of a channel, the taking end of its delivery lane and its listener, which was shown what was taken from the
/// lane. This project's own.
#[derive(Drop)]
pub struct SinkBook {
    number: u32,
    end: TakeEnd<Entry, AnyEntry>,
    listener: Listener,
}

impl Model for SinkBook {
    ghost use Rattle.nk_sink_cell.specs.Sunk.{Book};

    ghost Value = { Book };

    ghost use Rattle.nk_sink_cell.specs.Kept.{book_of, IsKept};

    ghost view = { book_of };

    ghost invariant = { IsKept };
}

impl SinkBook {
    /// The book of an end from which nothing was taken, and of a listener that was shown nothing.
    pub fn new(number: u32, end: TakeEnd<Entry, AnyEntry>, listener: Listener) -> SinkBook
        requires taken { taken_from end ≡ [] }
        requires shown { listener.listener.entries ≡ [] }
        ensures { result ≡ new_book number (left_known end) (take_capacity end) listener }
    {
        SinkBook {
            number,
            end,
            listener,
        }
    }

    /// The number of its channel.
    pub fn number(&self) -> u32
        ensures number { result ≡ self.now.number }
        ensures seen { HasSeen self.now }
    {
        self.number
    }

    /// Hands the next entry of the lane to the listener, and takes it. It is `Idle` where this look at the lane knew of
    /// none, or all were taken that can be sent; another thread may have sent one by then. After `Memory` the entry is
    /// still on its lane; a listener that met want of memory answers `Memory` from then on.
    pub fn deliver(&mut self) -> Result<Moved, Memory>
        ensures did { IfOk result (λ r. r ≡ moved.Did → HasDelivered self.old self.new) }
        ensures idle { IfOk result (λ r. r ≡ moved.Idle → HasLeft self.old self.new × (self.new.listener ≡ self.old.listener) × IsBare self.new) }
        ensures err { OnErr result (HasLeft self.old self.new × MayBreak self.old.listener self.new.listener × IsWaiting self.new) }
        ensures seen { HasSeen self.new }
    {
        let Some(entry) = next_entry(&mut self.end)? else {
            return Ok(Moved::Idle);
        };
        self.listener.entry(entry)?;
        self.end.take();
        Ok(Moved::Did)
    }

    /// One turn of the pump of a reader, as `Listener::read`: `Idle`, with nothing changed, where there is no such reader,
    /// or its pump waits or is dead. After `Memory` the listener answers `Memory` from then on.
    pub fn read(&mut self, reader: u8) -> Result<Moved, Memory>
        ensures ok { OnOk result (self.new ≡ record self.old { listener = working (read_turn reader self.old.listener.listener) }) }
        ensures works { OnOk result (self.old.listener.failed ≡ false) }
        ensures answer { IfOk result (λ r. r ≡ moved_if (read_enabled reader self.old.listener.listener)) }
        ensures idle { IfOk result (λ r. r ≡ moved.Idle → self.new ≡ self.old) }
        ensures err { OnErr result (IsBroken self.old.listener self.new.listener × (self.new ≡ record self.old { listener = self.new.listener })) }
        ensures seen { HasSeen self.new }
    {
        self.listener.read(reader)
    }

    /// The end and the listener, as they stand.
    pub fn into_parts(self) -> (TakeEnd<Entry, AnyEntry>, Listener)
        ensures taken { taken_from result.0 ≡ self.taken }
        ensures left { left_known result.0 ≡ self.left }
        ensures capacity { take_capacity result.0 ≡ self.capacity }
        ensures listener { result.1 ≡ self.listener }
        ensures seen { HasSeen self }
    {
        let SinkBook {
            number: _,
            end,
            listener,
        } = self;
        (end, listener)
    }
}

/// An equal entry over the bytes of the next one, which stays.
fn next_entry(end: &mut TakeEnd<Entry, AnyEntry>) -> Result<Option<Entry>, Memory>
    ensures same { SameTakeEnd end.old end.new × (taken_from end.new ≡ taken_from end.old) }
    ensures next { IfOk result (λ o. MatchOption o (IsBareEnd end.new) (λ e. IsNext end.new e)) }
    ensures waits { OnErr result ((0 < length (left_known end.new)) × (length (taken_from end.new) < take_capacity end.new)) }
{
    match end.peek() {
        None => Ok(None),
        Some(entry) => Ok(Some(entry.share()?)),
    }
}
