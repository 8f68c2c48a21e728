// The plan of a channel: what its load will meet, what its listener does, and what the page calls.

ghost use Rattle.std.specs.Prelude.{◌≡◌, ◌++◌, ◌∷◌, ◌<◌, ◌↔◌, [], length, slice_get, Some, All, IsTrue, IfOk, OnOk, OnErr};
ghost use Rattle.nk_plan.specs.Accepted.{Accepted};

use nk_base::{Fields, Head, Memory, Piece, Share, Shared, Status};
use std::alloc::Global;
use std::marker::Model;

/// What the child answers where it is asked to follow a redirect. This project's own.
#[derive(Clone, Copy, Debug, Drop, PartialEq, Eq)]
pub enum Verdict {
    /// The redirect is followed.
    Allow,
    /// The redirect is refused with this status, a failure.
    Veto(Status),
}

/// How the body of a response ends. This project's own.
#[derive(Clone, Copy, Debug, Drop, PartialEq, Eq)]
pub enum Finish {
    /// The stop has status 0, and trailers may follow the body.
    Good,
    /// The stop has this status, a failure.
    Fail(Status),
}

/// The lane on which the start of a load travels. This project's own.
#[derive(Clone, Copy, Debug, Drop, PartialEq, Eq)]
pub enum StartLane {
    /// The main lane, with a word on the background lane that it was sent.
    Main,
    /// The background lane, in front of the data.
    Back,
}

/// The listener that a channel shows its load to.
#[derive(Clone, Copy, Debug, Drop, PartialEq, Eq)]
pub enum ListenerKind {
    /// A listener that keeps what it sees (nsIStreamListener).
    Plain,
    /// A listener that writes the body into a pipe (nsPipe3), from which readers pump it.
    Pipe {
        /// The size of a segment of the pipe, 4 to 65,536 bytes.
        segment: u32,
        /// The most segments that the pipe holds, 1 to 1,024.
        limit: u32,
        /// The number of readers, 1 to 8.
        readers: u8,
    },
}

/// What a listener does in a callback. This project's own, after the calls of nsIRequest and
/// nsIThreadRetargetableRequest that a listener may make there.
#[derive(Clone, Copy, Debug, Drop, PartialEq, Eq)]
pub enum Reaction {
    /// In its start callback it asks for its data on this worker, 1 to 16.
    StartRetarget(u8),
    /// In its start callback it suspends the channel.
    StartSuspend,
    /// In its start callback it cancels the channel with this status, a failure.
    StartCancel(Status),
    /// Its start callback fails with this status, a failure.
    StartFail(Status),
    /// Its nth data callback, counted from 1 to 65,536, fails with this status, a failure.
    BytesFail { nth: u32, status: Status },
}

/// A call that the page makes of a channel, after HttpChannelChild. This project's own.
#[derive(Clone, Copy, Debug, Drop, PartialEq, Eq)]
pub enum Act {
    /// Stops the channel's callbacks until as many resumes have come.
    Suspend,
    /// Takes one suspend back.
    Resume,
    /// Cancels the load with this status, a failure.
    Cancel(Status),
    /// Asks for the data on this worker, 1 to 16.
    Retarget(u8),
    /// The parent process is gone: the load ends with this status, a failure.
    Break(Status),
}

/// A call of the page, and when it may come. This project's own.
#[derive(Clone, Copy, Debug, Drop, PartialEq, Eq)]
pub struct Control {
    /// The number of callbacks that have to be finished before it, 0 to 100,000.
    pub after: u32,
    /// The call.
    pub act: Act,
}

/// The pieces of a body, in order. This project's own.
pub type Pieces = Shared<Piece>;

/// One hop of a load: what the server answers to one request. This project's own.
#[derive(Drop)]
pub enum Hop {
    /// The request could not be opened, with this status, a failure.
    Fail(Status),
    /// A redirect to the next hop.
    Redirect {
        /// The status code, 300 to 399.
        code: u16,
        /// What the child answers where it is asked.
        verdict: Verdict,
    },
    /// A response.
    Response {
        /// Its code and its fields.
        head: Head,
        /// The pieces of its body, at most 65,536.
        pieces: Pieces,
        /// How the body ends.
        finish: Finish,
        /// The fields behind the body, at most 64, and none where the finish is a failure.
        trailers: Fields,
    },
}

impl Hop {
    /// An equal hop, over the same bytes.
    pub fn share(&self) -> Result<Hop, Memory>
        ensures { IfOk result (λ r. r ≡ self.now) }
    {
        match self {
            Hop::Fail(status) => Ok(Hop::Fail(*status)),
            Hop::Redirect { code, verdict } => Ok(Hop::Redirect {
                code: *code,
                verdict: *verdict,
            }),
            Hop::Response {
                head,
                pieces,
                finish,
                trailers,
            } => {
                let head = head.share()?;
                let pieces = pieces.share()?;
                let trailers = trailers.share()?;
                Ok(Hop::Response {
                    head,
                    pieces,
                    finish: *finish,
                    trailers,
                })
            }
        }
    }

    /// Whether the two are equal.
    pub fn same(&self, other: &Hop) -> bool
        ensures { IsTrue result ↔ (self.now ≡ other.now) }
    {
        match (self, other) {
            (Hop::Fail(status), Hop::Fail(status2)) => status == status2,
            (
                Hop::Redirect { code, verdict },
                Hop::Redirect {
                    code: code2,
                    verdict: verdict2,
                },
            ) => code == code2 && verdict == verdict2,
            (
                Hop::Response {
                    head,
                    pieces,
                    finish,
                    trailers,
                },
                Hop::Response {
                    head: head2,
                    pieces: pieces2,
                    finish: finish2,
                    trailers: trailers2,
                },
            ) => {
                head.same(head2)
                    && pieces.same(pieces2)
                    && finish == finish2
                    && trailers.same(trailers2)
            }
            _ => false,
        }
    }
}

/// The hops of a load, in order. This project's own.
pub type Hops = Shared<Hop>;

/// The reactions of a listener, in the order in which it performs them. This project's own.
pub type Reactions = Shared<Reaction>;

/// The calls of the page after the opening, in the order in which they come. This project's own.
pub type Controls = Shared<Control>;

impl Share for Hop {
    fn shared(&self) -> Result<Hop, Memory> {
        self.share()
    }

    fn is(&self, other: &Hop) -> bool {
        self.same(other)
    }
}

impl Share for Reaction {
    fn shared(&self) -> Result<Reaction, Memory> {
        Ok(*self)
    }

    fn is(&self, other: &Reaction) -> bool {
        self == other
    }
}

impl Share for Control {
    fn shared(&self) -> Result<Control, Memory> {
        Ok(*self)
    }

    fn is(&self, other: &Control) -> bool {
        self == other
    }
}

/// The plan of a channel, which is always one that `ChannelPlan::new` accepts. This project's own.
///
/// The opening is not in `controls`: a plan that is not `closed` is opened by its first step.
#[derive(Drop)]
pub struct ChannelPlan {
    /// What the load meets, 1 to 32 hops, all but the last of them redirects.
    pub hops: Hops,
    /// The listener that sees the load.
    pub listener: ListenerKind,
    /// Whether the data may be delivered on a worker.
    pub retargetable: bool,
    /// What the listener does in its callbacks, at most 64.
    pub reactions: Reactions,
    /// The calls of the page, at most 64, and none where the plan is closed.
    pub controls: Controls,
    /// The bytes that the parent may send before some of them were read, 1 to 16,777,216.
    pub window: u32,
    /// Whether the page never opens the channel.
    pub closed: bool,
    /// The lane on which the start travels.
    pub start: StartLane,
}

impl Model for ChannelPlan {
    ghost use Rattle.nk_plan.specs.PlanParts.{PlanParts};
    ghost use Rattle.nk_plan.specs.Accepted.{Accepted, plan_of};

    ghost Value = { PlanParts };

    ghost view = { λ s. plan_of s.hops s.listener s.retargetable s.reactions s.controls s.window s.closed s.start };

    ghost invariant = { λ s. Accepted (plan_of s.hops s.listener s.retargetable s.reactions s.controls s.window s.closed s.start) };
}

impl ChannelPlan {
    /// An equal plan, over the same bytes.
    pub fn share(&self) -> Result<ChannelPlan, Memory>
        ensures { IfOk result (λ r. r ≡ self.now) }
    {
        let hops = self.hops.share()?;
        let reactions = self.reactions.share()?;
        let controls = self.controls.share()?;
        Ok(ChannelPlan {
            hops,
            listener: self.listener,
            retargetable: self.retargetable,
            reactions,
            controls,
            window: self.window,
            closed: self.closed,
            start: self.start,
        })
    }

    /// Whether the two are equal. It takes no memory.
    pub fn same(&self, other: &ChannelPlan) -> bool
        ensures { IsTrue result ↔ (self.now ≡ other.now) }
    {
        self.hops.same(&other.hops)
            && self.listener == other.listener
            && self.retargetable == other.retargetable
            && self.reactions.same(&other.reactions)
            && self.controls.same(&other.controls)
            && self.window == other.window
            && self.closed == other.closed
            && self.start == other.start
    }
}

/// The plans of a run's channels, in their order, each accepted. This project's own.
#[derive(Drop)]
pub struct Plans {
    plans: Vec<ChannelPlan>,
}

impl Model for Plans {
    ghost use Rattle.std.specs.Prelude.{List, All};
    ghost use Rattle.nk_plan.specs.declared.plan.ChannelPlan.{ChannelPlan};
    ghost use Rattle.nk_plan.specs.Accepted.{Accepted};

    ghost Value = { List ChannelPlan };

    ghost view = { λ s. s.plans.items };

    ghost invariant = { λ s. All Accepted s.plans.items };
}

impl Plans {
    /// No plans.
    pub fn new(alloc: Global) -> Plans
        ensures { result ≡ [] }
    {
        Plans {
            plans: Vec::new(alloc),
        }
    }

    /// Adds a plan behind the others. On want of memory the list is as before.
    pub fn push(&mut self, item: ChannelPlan) -> Result<(), Memory>
        ensures ok { OnOk result (self.new ≡ self.old ++ item ∷ []) }
        ensures err { OnErr result (self.new ≡ self.old) }
    {
        // A field is read for what the type keeps of a plan.
        let _window = item.window;
        match self.plans.push(item) {
            Ok(()) => Ok(()),
            Err(_) => Err(Memory),
        }
    }

    /// The number of plans.
    pub fn len(&self) -> usize
        ensures { result ≡ length self.now }
    {
        self.plans.len()
    }

    /// Plan i, counted from 0.
    pub fn get(&self, i: usize) -> &ChannelPlan
        requires { i < length self.now }
        ensures { slice_get self.now i ≡ Some result.now }
    {
        &self.plans[i]
    }

    /// All plans, in order.
    pub fn as_slice(&self) -> &[ChannelPlan]
        ensures { result.now ≡ self.now }
    {
        self.plans.as_slice()
    }

    /// A law: each plan is accepted. It does nothing.
    pub fn accepted_law(&self)
        ensures { All Accepted self.now }
    {
        let _plans = &self.plans;
    }
}

/// Why a plan was refused. Hops, reactions and calls are counted from 0. This project's own.
#[derive(Clone, Copy, Debug, Drop, PartialEq, Eq)]
pub enum PlanError {
    /// There is no hop.
    NoHop,
    /// There are this many hops, over 32.
    TooManyHops(usize),
    /// The last hop is a redirect.
    LastIsRedirect,
    /// This hop is the first that ends the load before the last hop.
    EarlyEnd(usize),
    /// This hop is the first with a status, a redirect code or trailers that no hop may have.
    BadHop(usize),
    /// The last hop has this many pieces, over 65,536.
    TooManyPieces(usize),
    /// The last hop's pieces have this many bytes, over 67,108,864.
    TooManyBytes(u64),
    /// The pipe's sizes are out of range, or its readers would read too much.
    BadListener,
    /// This reaction is the first with a worker, a status or a number out of range, or the 65th.
    BadReaction(usize),
    /// This call is the first with a worker, a status or a number out of range, the 65th, or one
    /// of a plan that is closed.
    BadControl(usize),
    /// The window is outside 1 to 16,777,216.
    BadWindow,
}
