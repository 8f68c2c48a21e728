// The pump of one stream.

ghost use Rattle.std.specs.Prelude.{◌≡◌, ◌++◌, ◌<◌, ◌≤◌, ◌^◌, [], length, take, drop, true, OnOk, OnErr, IfOk, Some, None};
ghost use Rattle.nk_base.specs.declared.status.Status.{Status};
ghost use Rattle.nk_base.specs.Status.{is_failure};
ghost use Rattle.nk_pump.specs.Shown.{nothing_shown, turned, turn_leaves, turn_answer, cancelled, IsShown};
ghost use Rattle.nk_pump.specs.Stream.{Stream, answer_of};

use crate::stream::{PumpStream, Read};
use nk_base::{ByteList, Grow, Memory, Status};
use std::alloc::Global;
use std::marker::Model;
use std::mem::replace;

/// What a turn of a pump did.
#[derive(Clone, Copy, Debug, Drop, PartialEq, Eq)]
pub enum Turn {
    /// It has shown the start, bytes or the stop.
    Did,
    /// The stream has nothing for now.
    Waiting,
    /// The stop has been shown before.
    Dead,
}

/// A pump, and what it has shown. After Firefox's `nsInputStreamPump`.
#[derive(Drop)]
pub struct Pump {
    buffer: Vec<u8>,
    started: bool,
    bytes: ByteList,
    stop: Option<Status>,
    // The first cancel.
    cancelled: Option<Status>,
}

impl Model for Pump {
    ghost use Rattle.std.specs.Prelude.{length};
    ghost use Rattle.nk_pump.specs.Shown.{Shown, IsShown};

    ghost Value = { Shown };

    ghost view = { λ s. record { size = length s.buffer.items; started = s.started; bytes = s.bytes; stop = s.stop; cancelled = s.cancelled } };

    ghost invariant = { λ s. IsShown (record { size = length s.buffer.items; started = s.started; bytes = s.bytes; stop = s.stop; cancelled = s.cancelled }) };
}

impl Pump {
    /// A pump that reads so many bytes at once, 1 to 65,536.
    pub fn new(alloc: Global, buffer: u32) -> Result<Pump, Memory>
        requires least { 1 ≤ buffer }
        requires most { buffer ≤ 65536 }
        ensures { IfOk result (λ r. r ≡ nothing_shown buffer) }
    {
        let Ok(buffer) = vec![in alloc; 0_u8; buffer as usize] else {
            return Err(Memory);
        };
        Ok(Pump {
            buffer,
            started: false,
            bytes: ByteList::new(alloc),
            stop: None,
            cancelled: None,
        })
    }

    /// Shows the start; then reads once and shows what came; or, after a cancel, closes the stream and shows the stop.
    pub fn turn<S: PumpStream>(&mut self, stream: &mut S) -> Result<Turn, Memory>
        ensures shown { OnOk result (self.new ≡ turned self.old (record { left = S.left stream.old; end = S.end stream.old; closed = S.closed stream.old })) }
        ensures answer { IfOk result (λ r. r ≡ turn_answer self.old (record { left = S.left stream.old; end = S.end stream.old; closed = S.closed stream.old })) }
        ensures stream { OnOk result (record { left = S.left stream.new; end = S.end stream.new; closed = S.closed stream.new } ≡ turn_leaves self.old (record { left = S.left stream.old; end = S.end stream.old; closed = S.closed stream.old })) }
        ensures given { OnOk result (self.old.cancelled ≡ None → self.new.bytes ++ S.left stream.new ≡ self.old.bytes ++ S.left stream.old) }
        ensures none_given { OnOk result ((s : Status) → self.old.cancelled ≡ Some s → self.new.bytes ≡ self.old.bytes) }
        ensures none_behind { OnOk result ((s : Status) → self.old.stop ≡ Some s → self.new ≡ self.old) }
        ensures err { OnErr result (self.new ≡ self.old) }
        ensures err_left { OnErr result (S.left stream.new ≡ S.left stream.old) }
        ensures err_end { OnErr result (S.end stream.new ≡ S.end stream.old) }
        ensures err_closed { OnErr result (S.closed stream.new ≡ S.closed stream.old) }
    {
        if self.stop.is_some() {
            return Ok(Turn::Dead);
        }
        if !self.started {
            self.started = true;
            return Ok(Turn::Did);
        }
        if let Some(status) = self.cancelled {
            stream.close(status);
            self.stop = Some(status);
            return Ok(Turn::Did);
        }
        let empty = ByteList::new(*self.buffer.allocator());
        let mut bytes = replace(&mut self.bytes, empty).into_grow();
        let read = read(stream, &mut self.buffer, &mut bytes);
        self.bytes = ByteList::from_grow(bytes);
        match read? {
            Read::Read(_) => Ok(Turn::Did),
            Read::End => {
                self.stop = Some(Status::OK);
                Ok(Turn::Did)
            }
            Read::WouldBlock => Ok(Turn::Waiting),
            Read::Failed(status) => {
                self.stop = Some(status);
                Ok(Turn::Did)
            }
        }
    }

    /// Keeps the first cancel, a failure: the next turn but the start is the stop. After the stop it changes nothing.
    pub fn cancel(&mut self, status: Status)
        requires { is_failure status ≡ true }
        ensures { self.new ≡ cancelled status self.old }
    {
        if self.stop.is_none() && self.cancelled.is_none() {
            self.cancelled = Some(status);
        }
    }

    /// Whether the start has been shown.
    pub fn started(&self) -> bool
        ensures { result ≡ self.now.started }
    {
        self.started
    }

    /// The bytes that were shown. Nothing is shown before the start.
    pub fn bytes(&self) -> &ByteList
        ensures bytes { result.now ≡ self.now.bytes }
        ensures shown { IsShown self.now }
    {
        &self.bytes
    }

    /// The status of the stop, once it has been shown.
    pub fn stop(&self) -> Option<Status>
        ensures { result ≡ self.now.stop }
    {
        self.stop
    }

    /// The bytes that were shown, given away. It takes no memory.
    pub fn into_bytes(self) -> ByteList
        ensures { result ≡ self.bytes }
    {
        self.bytes
    }
}

/// Reads once, behind what was read before, for which room is made first.
fn read<S: PumpStream>(
    stream: &mut S,
    buffer: &mut [u8],
    bytes: &mut Grow<u8>,
) -> Result<Read, Memory>
    requires not_empty { 0 < length buffer.old }
    requires small { length buffer.old ≤ 65536 }
    ensures answer { IfOk result (λ r. r ≡ answer_of (length buffer.old) (S.left stream.old) (S.end stream.old)) }
    ensures bytes { OnOk result (bytes.new.items ≡ bytes.old.items ++ take (length buffer.old) (S.left stream.old)) }
    ensures left { OnOk result (S.left stream.new ≡ drop (length buffer.old) (S.left stream.old)) }
    ensures end { S.end stream.new ≡ S.end stream.old }
    ensures closed { S.closed stream.new ≡ S.closed stream.old }
    ensures err_bytes { OnErr result (bytes.new.items ≡ bytes.old.items) }
    ensures err_left { OnErr result (S.left stream.new ≡ S.left stream.old) }
{
    bytes.reserve(buffer.len())?;
    let answer = stream.read_into(buffer);
    if let Read::Read(count) = answer {
        append(&buffer[..count as usize], bytes);
    }
    Ok(answer)
}

/// Adds bytes in the room behind a list.
fn append(source: &[u8], bytes: &mut Grow<u8>)
    requires { length source.now ≤ bytes.old.room }
    ensures { bytes.new.items ≡ bytes.old.items ++ source.now }
{
    for &byte in source {
        bytes.push(byte);
    }
}
