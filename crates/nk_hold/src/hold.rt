// The hold of one channel, which its child keeps.

ghost use Rattle.std.specs.Prelude.{◌≡◌, ◌≤◌, ◌<◌, ◌++◌, ◌+◌, length, OnOk, OnErr, [], ◌∷◌};
ghost use Rattle.std.specs.VecDeque.{deque_len, deque_capacity};
ghost use Rattle.nk_base.specs.Hold.{back_hop, hold_with, reporting, of_hop, not_of_hop};
ghost use Rattle.nk_hold.specs.RoomyHold.{RoomyHold};
ghost use Rattle.nk_hold.specs.Answers.{HeldCases, ReleasedCases};

use crate::hops::Hops;
use crate::kept::Kept;
use nk_base::{BackMsg, Memory};
use std::alloc::Global;
use std::collections::VecDeque;
use std::marker::Model;
use std::mem::replace;

/// What becomes of a message of the background lane. This project's own.
#[derive(Drop)]
pub enum Held {
    /// Its hop was released: here it is.
    Pass(BackMsg),
    /// It is kept until its hop is released.
    Kept,
    /// It says that a start was sent, and asks nothing of the hold.
    Noted,
}

/// What a release gives. This project's own.
#[derive(Drop)]
pub enum Released {
    /// No report was noted.
    Idle,
    /// The kept messages of the reported hop.
    Messages(Kept),
}

/// What is held back of the background lane. After the queue of Firefox's `HttpBackgroundChannelChild`.
#[derive(Drop)]
pub struct Hold {
    released: Hops,
    report: Option<u32>,
    kept: VecDeque<BackMsg>,
    // Where a release puts the messages that it gives; empty between calls.
    leaving: VecDeque<BackMsg>,
    // For how many more messages there is room in both.
    spare: usize,
}

impl Model for Hold {
    ghost use Rattle.std.specs.VecDeque.{deque_capacity};
    ghost use Rattle.nk_hold.specs.RoomyHold.{RoomyHold, HasRoom};

    ghost Value = { RoomyHold };

    ghost view = { λ s. record {
      state = record { released = s.released; report = s.report; kept = s.kept.items };
      spare = s.spare;
    } };

    ghost invariant = { λ s. HasRoom s.report s.kept.items s.leaving.items s.spare (deque_capacity s.kept) (deque_capacity s.leaving) };
}

/// The hop of a message.
fn hop_of(m: &BackMsg) -> u32
    ensures { result ≡ back_hop m.now }
{
    match m {
        BackMsg::Start { hop, .. }
        | BackMsg::StartSent { hop }
        | BackMsg::Bytes { hop, .. }
        | BackMsg::Stop { hop, .. } => *hop,
    }
}

/// Adds a message to those that leave where it is of this hop, and to those that stay where it is not.
fn part(m: BackMsg, hop: u32, leaving: &mut VecDeque<BackMsg>, staying: &mut VecDeque<BackMsg>)
    requires leaving_room { deque_len leaving.old < deque_capacity leaving.old }
    requires staying_room { deque_len staying.old < deque_capacity staying.old }
    ensures leaving { leaving.new.items ≡ leaving.old.items ++ of_hop hop (m ∷ []) }
    ensures staying { staying.new.items ≡ staying.old.items ++ not_of_hop hop (m ∷ []) }
    ensures leaving_len { deque_len leaving.new ≤ deque_len leaving.old + 1 }
    ensures leaving_capacity { deque_capacity leaving.new ≡ deque_capacity leaving.old }
    ensures staying_capacity { deque_capacity staying.new ≡ deque_capacity staying.old }
{
    if hop == hop_of(&m) {
        leaving.push_back_reserved(m);
    } else {
        staying.push_back_reserved(m);
    }
}

impl Hold {
    /// A hold in which no hop counts as released.
    pub fn new(alloc: Global) -> Hold
        ensures { result.state ≡ hold_with [] }
    {
        Hold::with(alloc, Hops::new())
    }

    /// A hold in which hop 0 counts as released, for a channel whose starts travel on the background lane.
    pub fn with_first(alloc: Global) -> Hold
        ensures { result.state ≡ hold_with (0 ∷ []) }
    {
        Hold::with(alloc, Hops::first())
    }

    fn with(alloc: Global, released: Hops) -> Hold
        ensures { result.state ≡ hold_with released }
    {
        Hold {
            released,
            report: None,
            kept: VecDeque::new(alloc),
            leaving: VecDeque::new(alloc),
            spare: 0,
        }
    }

    /// Makes room for n messages more than are kept, to be kept and to be released. On want of memory the hold is as before.
    pub fn reserve(&mut self, n: usize) -> Result<(), Memory>
        ensures state { self.new.state ≡ self.old.state }
        ensures spare { self.old.spare ≤ self.new.spare }
        ensures ok { OnOk result (n ≤ self.new.spare) }
        ensures err { OnErr result (self.new ≡ self.old) }
    {
        if self.kept.reserve(n).is_err() || self.leaving.reserve(n).is_err() {
            return Err(Memory);
        }
        self.spare = self.spare.max(n);
        Ok(())
    }

    /// Takes a message of the background lane.
    pub fn back(&mut self, m: BackMsg) -> Held
        requires { 0 < self.old.spare }
        ensures { HeldCases self.old m result self.new }
    {
        if let BackMsg::StartSent { .. } = m {
            return Held::Noted;
        }
        if self.released.contains(hop_of(&m)) {
            return Held::Pass(m);
        }
        self.kept.push_back_reserved(m);
        self.spare -= 1;
        Held::Kept
    }

    /// The start of this hop is in the child's queue. The report takes the place of an earlier one.
    pub fn start_queued(&mut self, hop: u32)
        requires { hop ≤ 32 }
        ensures { self.new ≡ record self.old { state = reporting hop self.old.state } }
    {
        self.report = Some(hop);
    }

    /// The hop that the next release is for.
    pub fn report(&self) -> Option<u32>
        ensures { result ≡ self.now.state.report }
    {
        self.report
    }

    /// The number of kept messages.
    pub fn kept(&self) -> usize
        ensures { result ≡ length self.now.state.kept }
    {
        self.kept.len()
    }

    /// Gives the kept messages of the reported hop, which counts as released from then on. It looks at each kept
    /// message once.
    pub fn release(&mut self) -> Released
        requires { length self.old.state.kept ≤ self.old.spare }
        ensures { ReleasedCases self.old result self.new }
    {
        let Some(hop) = self.report else {
            return Released::Idle;
        };
        self.report = None;
        self.released.insert(hop);
        for _ in 0..self.kept.len() {
            if let Some(m) = self.kept.pop_front() {
                part(m, hop, &mut self.leaving, &mut self.kept);
            }
        }
        let alloc = *self.leaving.allocator();
        self.spare = 0;
        Released::Messages(Kept::of(replace(&mut self.leaving, VecDeque::new(alloc))))
    }
}
