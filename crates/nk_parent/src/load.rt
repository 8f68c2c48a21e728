// The load of one response: the parent's table, over parts whose journal has its room.

ghost use Rattle.std.specs.Prelude.{◌≡◌, ◌++◌, ◌∷◌, ◌<◌, ◌≤◌, ◌-◌, ◌+◌, [], length, OnOk, OnErr, IfOk};
ghost use Rattle.nk_plan.specs.Accepted.{Accepted, body_of, last_of};
ghost use Rattle.nk_plan.specs.Parent.{ParentState, new_parent, take_up};
ghost use Rattle.nk_base.specs.declared.message.UpMsg.TheVariants as up;
ghost use Rattle.nk_base.specs.Status.{kept_status};
ghost use Rattle.nk_parent.specs.Load.{IsBody};

use nk_base::{Grow, Memory, Status, UpMsg};
use nk_cancel::First;
use nk_flow::Window;
use nk_plan::{ChannelPlan, Hop, ParentEntry, ParentJournal, Phase};
use nk_redirect::{ParentHalf, Verified};
use nk_source::ResponseSource;
use std::alloc::Global;
use std::marker::Model;
use std::mem::replace;

mod body;
mod fetch;
mod sending;

/// A load, and its journal with the room behind it.
#[derive(Drop)]
pub struct Load {
    alloc: Global,
    plan: ChannelPlan,
    phase: Phase,
    hop: u32,
    // The question counts only while the phase is `Asking`.
    redirects: ParentHalf,
    failure: First,
    suspended: bool,
    window: Window,
    // The body of the plan's last hop.
    body: ResponseSource,
    journal: Grow<ParentEntry>,
}

impl Model for Load {
    ghost use Rattle.nk_parent.specs.Views.{LoadView};
    ghost use Rattle.nk_parent.specs.Load.{IsLoad};

    ghost Value = { LoadView };

    ghost view = { λ s. record {
      plan = s.plan;
      state = record {
        phase = s.phase;
        hop = s.hop;
        followed = s.redirects.followed;
        piece = s.body.next;
        kept = s.failure;
        suspended = s.suspended;
        credit = s.window.credit;
        journal = s.journal.items;
      };
      alloc = s.alloc;
      room = s.journal.room;
    } };

    ghost invariant = { λ s. IsLoad s.plan s.phase s.hop s.redirects s.failure s.window s.body };
}

impl Load {
    /// The load of a plan, before its first step.
    pub fn new(alloc: Global, plan: ChannelPlan) -> Result<Load, Memory>
        ensures plan { IfOk result (λ r. r.plan ≡ plan) }
        ensures state { IfOk result (λ r. r.state ≡ new_parent plan) }
        ensures alloc { IfOk result (λ r. r.alloc ≡ alloc) }
    {
        let body = body_of(alloc, &plan)?;
        Ok(Load {
            alloc,
            phase: Phase::Closed,
            hop: 0,
            redirects: ParentHalf::new(),
            failure: First::new(),
            suspended: false,
            window: Window::new(plan.window),
            body,
            journal: Grow::new(alloc),
            plan,
        })
    }

    /// The allocator of its lists: the one that `new` was given.
    pub fn alloc(&self) -> Global
        ensures { result ≡ self.now.alloc }
    {
        self.alloc
    }

    /// Takes the journal over, with the room that it has.
    pub fn put_journal(&mut self, journal: ParentJournal)
        ensures plan { self.new.plan ≡ self.old.plan }
        ensures state { self.new.state ≡ record self.old.state { journal = journal } }
        ensures alloc { self.new.alloc ≡ self.old.alloc }
    {
        self.journal = journal.into_grow();
    }

    /// Gives the journal away.
    pub fn take_journal(&mut self) -> ParentJournal
        ensures journal { result ≡ self.old.state.journal }
        ensures plan { self.new.plan ≡ self.old.plan }
        ensures state { self.new.state ≡ record self.old.state { journal = [] } }
        ensures alloc { self.new.alloc ≡ self.old.alloc }
    {
        ParentJournal::from_grow(replace(&mut self.journal, Grow::new(self.alloc)))
    }

    /// The plan of the load.
    pub fn plan(&self) -> &ChannelPlan
        ensures plan { result.now ≡ self.now.plan }
        ensures accepted { Accepted self.now.plan }
    {
        &self.plan
    }

    /// Where the load stands.
    pub fn phase(&self) -> Phase
        ensures { result ≡ self.now.state.phase }
    {
        self.phase
    }

    /// Whether the page has suspended the load.
    pub fn is_suspended(&self) -> bool
        ensures { result ≡ self.now.state.suspended }
    {
        self.suspended
    }

    /// How many bytes the page may still be sent.
    pub fn credit(&self) -> i64
        ensures { result ≡ self.now.state.credit }
    {
        self.window.credit()
    }

    /// The failure that is kept, or 0.
    pub fn status(&self) -> Status
        ensures { result ≡ kept_status self.now.state.kept }
    {
        self.failure.get()
    }

    /// Takes a message of the up lane.
    pub fn take(&mut self, m: UpMsg)
        ensures { self.new ≡ record self.old { state = take_up self.old.plan self.old.state m } }
    {
        match m {
            UpMsg::Open => {
                if self.phase == Phase::Closed {
                    self.phase = Phase::Ready;
                }
            }
            UpMsg::Suspend => self.suspended = true,
            UpMsg::Resume => self.suspended = false,
            UpMsg::Cancel { status } => {
                if self.phase != Phase::Done {
                    self.failure.merge(status);
                }
            }
            UpMsg::Verify { hop, status } => self.verified(hop, status),
            UpMsg::BytesRead { count } => self.window.read(count),
            UpMsg::Deleting => self.phase = Phase::Done,
        }
    }

    /// Takes the child's answer on a redirect.
    fn verified(&mut self, hop: u32, status: Status)
        ensures { self.new ≡ record self.old { state = take_up self.old.plan self.old.state (up.Verify hop status) } }
    {
        if self.phase != Phase::Asking {
            return;
        }
        match self.redirects.verified(hop, status) {
            Verified::Stray => {}
            Verified::Follow => self.phase = Phase::Follow,
            Verified::Refuse(status) => {
                self.failure.merge(status);
                self.phase = Phase::Follow;
            }
        }
    }
}

/// The source of the load's body: that of the last hop, or an empty one where that has none.
fn body_of(alloc: Global, plan: &ChannelPlan) -> Result<ResponseSource, Memory>
    ensures body { IfOk result (λ r. IsBody plan.now r) }
    ensures next { IfOk result (λ r. r.next ≡ 0) }
{
    let last = plan.hops.get(plan.hops.len() - 1);
    match last {
        Hop::Response { .. } => Ok(ResponseSource::new(last.share()?)),
        _ => Ok(ResponseSource::empty(alloc)),
    }
}
