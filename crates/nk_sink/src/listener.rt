// The listener of one channel, and its calls.

ghost use Rattle.std.specs.Prelude.{◌≡◌, ◌+◌, ◌<◌, ◌≤◌, ◌^◌, ◌++◌, ◌∷◌, [], true, false, List, length, OnOk, OnErr, IfOk};
ghost use Rattle.nk_base.specs.declared.message.Entry.{Entry as Shows};
ghost use Rattle.nk_base.specs.declared.status.Moved.TheVariants as moved;
ghost use Rattle.nk_sink.specs.Listener.{new_listener, if_piped, fed, flowed, entered, read_turn, read_enabled, piped_enabled, pump_of, read_by, ends_of, ends_by};
ghost use Rattle.nk_plan.specs.Readers.{body_of, readers_of};
ghost use Rattle.nk_base.specs.Status.{moved_if};
ghost use Rattle.nk_sink.specs.Reached.{IsGoodKind, IsReached};
ghost use Rattle.nk_sink.specs.Sunk.{piped_in, ends_in, IsFedIn, IsPipedIn};

use crate::feed::Feed;
use nk_base::{Entry, Grow, Memory, Moved};
use nk_plan::{ListenerKind, ReaderEnd, Readers, Trace};
use nk_pump::Pump;
use std::alloc::Global;
use std::marker::Model;
use std::mem::replace;

/// A listener: it keeps what it is shown, and may feed a pipe with the body, from which its readers pump it. After
/// Firefox's nsIStreamListener.
#[derive(Drop)]
pub struct Listener {
    kind: ListenerKind,
    entries: Trace,
    feed: Option<Feed>,
    failed: bool,
    alloc: Global,
}

impl Model for Listener {
    ghost use Rattle.std.specs.Prelude.{◌≡◌, false};
    ghost use Rattle.nk_sink.specs.Reached.{ListenerView};
    ghost use Rattle.nk_sink.specs.Sunk.{listener_of, IsListening};

    ghost Value = { ListenerView };

    ghost view = { λ s. record { listener = listener_of s.kind s.entries s.feed; failed = s.failed } };

    ghost invariant = { λ s. s.failed ≡ false → IsListening s.kind s.entries s.feed };
}

impl Listener {
    /// A listener that was shown nothing.
    pub fn new(alloc: Global, kind: ListenerKind) -> Result<Listener, Memory>
        requires { IsGoodKind kind }
        ensures { IfOk result (λ l. l ≡ record { listener = new_listener kind; failed = false }) }
    {
        let feed = match kind {
            ListenerKind::Plain => None,
            ListenerKind::Pipe {
                segment,
                limit,
                readers,
            } => Some(Feed::new(alloc, segment, limit, readers)?),
        };
        Ok(Listener {
            kind,
            entries: Trace::new(alloc),
            feed,
            failed: false,
            alloc,
        })
    }

    /// What it was shown, in order.
    pub fn entries(&self) -> &Trace
        ensures entries { result.now ≡ self.now.listener.entries }
        ensures reached { self.now.failed ≡ false → IsReached self.now.listener }
    {
        &self.entries
    }

    /// Its kind.
    pub fn kind(&self) -> ListenerKind
        ensures { result ≡ self.now.listener.kind }
    {
        self.kind
    }

    /// The number of its readers; 0 of a plain listener.
    pub fn readers(&self) -> u8
        ensures { result ≡ readers_of self.now.listener.kind }
    {
        match self.kind {
            ListenerKind::Plain => 0,
            ListenerKind::Pipe { readers, .. } => readers,
        }
    }

    /// Whether it met want of memory. Then every call answers `Memory`.
    pub fn has_failed(&self) -> bool
        ensures { result ≡ self.now.failed }
    {
        self.failed
    }

    /// Is shown an entry. Its data goes into the pipe, what does not fit is kept, and behind a stop the pipe is closed
    /// once nothing is kept. After `Memory` the entries are as before, and every later call answers `Memory`.
    pub fn entry(&mut self, e: Entry) -> Result<(), Memory>
        requires { length self.old.listener.entries < 2 ^ 32 }
        ensures ok { OnOk result (self.new ≡ record { listener = entered e self.old.listener; failed = false }) }
        ensures works { OnOk result (self.old.failed ≡ false) }
        ensures err { OnErr result (self.new.failed ≡ true) }
        ensures err_entries { OnErr result (self.new.listener.entries ≡ self.old.listener.entries) }
        ensures err_kind { OnErr result (self.new.listener.kind ≡ self.old.listener.kind) }
    {
        if self.failed {
            return Err(Memory);
        }
        let shown = show(self.alloc, &mut self.entries, &mut self.feed, e);
        self.failed = shown.is_err();
        shown
    }

    /// One turn of the pump of a reader, counted from 1, behind which what is kept is written as far as it fits. It is
    /// `Idle`, and changes nothing, where there is no such reader, or its pump waits or is dead. After `Memory` it is as
    /// after `entry`.
    pub fn read(&mut self, reader: u8) -> Result<Moved, Memory>
        ensures ok { OnOk result (self.new ≡ record { listener = read_turn reader self.old.listener; failed = false }) }
        ensures answer { IfOk result (λ r. r ≡ moved_if (read_enabled reader self.old.listener)) }
        ensures idle { IfOk result (λ r. r ≡ moved.Idle → self.new ≡ self.old) }
        ensures works { OnOk result (self.old.failed ≡ false) }
        ensures err { OnErr result (self.new.failed ≡ true) }
        ensures err_entries { OnErr result (self.new.listener.entries ≡ self.old.listener.entries) }
        ensures err_kind { OnErr result (self.new.listener.kind ≡ self.old.listener.kind) }
    {
        if self.failed {
            return Err(Memory);
        }
        let moved = read(self.entries.as_slice(), &mut self.feed, reader);
        self.failed = moved.is_err();
        moved
    }

    /// What it was shown, in order, given away; and the bytes and the stop of each reader's pump, in the order of the
    /// readers; none of a plain listener.
    pub fn into_parts(self) -> (Trace, Result<Readers, Memory>)
        ensures entries { result.0 ≡ self.listener.entries }
        ensures readers { IfOk result.1 (λ r. r ≡ ends_of self.listener) }
    {
        let Listener {
            entries,
            feed,
            alloc,
            ..
        } = self;
        (entries, reader_ends(alloc, feed))
    }
}

/// Adds an entry, and lets it flow. On want of memory the entries are as before.
fn show(alloc: Global, entries: &mut Trace, feed: &mut Option<Feed>, e: Entry) -> Result<(), Memory>
    requires fed { IsFedIn entries.old feed.old }
    requires piped { IsPipedIn entries.old (piped_in entries.old feed.old) }
    requires few { length (body_of entries.old) < 2 ^ 61 }
    ensures entries { OnOk result (entries.new ≡ entries.old ++ e ∷ []) }
    ensures fed { OnOk result (IsFedIn entries.new feed.new) }
    ensures shown { OnOk result (piped_in entries.new feed.new ≡ if_piped (λ w. fed w.stop e w) (piped_in entries.old feed.old)) }
    ensures grown { OnOk result (length (body_of entries.new) ≤ length (body_of entries.old) + 131072) }
    ensures err { OnErr result (entries.new ≡ entries.old) }
{
    check_size(&e);
    entries.push(e)?;
    let Ok(()) = flow(feed, entries.as_slice()) else {
        take_back(alloc, entries);
        return Err(Memory);
    };
    Ok(())
}

/// A piece is short, so that a pipe can count the bytes of all entries.
fn check_size(e: &Entry)
    ensures { length (body_of (e.now ∷ [])) ≤ 131072 }
{
    if let Entry::Bytes { piece, .. } = e {
        piece.size();
    }
}

/// Lets what is kept flow, where there is a pipe.
fn flow(feed: &mut Option<Feed>, entries: &[Entry]) -> Result<(), Memory>
    requires fed { IsFedIn entries.now feed.old }
    requires few { length (body_of entries.now) < 2 ^ 62 }
    ensures fed { OnOk result (IsFedIn entries.now feed.new) }
    ensures flowed { OnOk result (piped_in entries.now feed.new ≡ if_piped (λ w. flowed w) (piped_in entries.now feed.old)) }
{
    match feed {
        None => Ok(()),
        Some(feed) => feed.flow(entries),
    }
}

/// Takes the last entry back.
fn take_back(alloc: Global, entries: &mut Trace)
    ensures { (es : List Shows) (e : Shows) → entries.old ≡ es ++ e ∷ [] → entries.new ≡ es }
{
    let mut items = replace(entries, Trace::new(alloc)).into_grow().into_vec();
    items.pop();
    *entries = Trace::from_grow(Grow::from_vec(items));
}

/// One turn of the pump of a reader, where there is a pipe.
fn read(entries: &[Entry], feed: &mut Option<Feed>, reader: u8) -> Result<Moved, Memory>
    requires fed { IsFedIn entries.now feed.old }
    requires piped { IsPipedIn entries.now (piped_in entries.now feed.old) }
    requires few { length (body_of entries.now) < 2 ^ 62 }
    ensures fed { OnOk result (IsFedIn entries.now feed.new) }
    ensures read { OnOk result (piped_in entries.now feed.new ≡ if_piped (λ w. read_by (pump_of w.pumps reader) reader w) (piped_in entries.now feed.old)) }
    ensures answer { IfOk result (λ r. r ≡ moved_if (piped_enabled reader (piped_in entries.now feed.old))) }
{
    match feed {
        None => Ok(Moved::Idle),
        Some(feed) => feed.read(u32::from(reader), entries),
    }
}

/// What the pumps of a pipe have shown; nothing where there is none.
fn reader_ends(alloc: Global, feed: Option<Feed>) -> Result<Readers, Memory>
    ensures { IfOk result (λ r. r ≡ ends_in feed) }
{
    let mut ends = Readers::new(alloc);
    if let Some(feed) = feed {
        push_ends(feed.pumps, &mut ends)?;
    }
    Ok(ends)
}

/// Adds what each pump has shown.
fn push_ends(pumps: Vec<Pump>, ends: &mut Readers) -> Result<(), Memory>
    ensures { OnOk result (ends.new ≡ ends.old ++ ends_by pumps.items) }
{
    for pump in pumps {
        let status = pump.stop();
        let bytes = pump.into_bytes();
        ends.push(ReaderEnd { bytes, status })?;
    }
    Ok(())
}
