// Which plans are accepted: the refusals of ChannelPlan::new, row by row in their order.

ghost use Rattle.std.specs.Prelude.{◌≡◌, ◌<◌, ◌≤◌, ◌↔◌, length, sum_by, All, IsTrue, IsOk, IsNone, IfSome, OnOk, IfOk, IfErr, MatchOption};
ghost use Rattle.nk_base.specs.Ranges.{IsRedirectCode};
ghost use Rattle.nk_plan.specs.Accepted.{plan_of, IsWorker, IsRedirect, IsGoodVerdict, IsGoodFinish, IsGoodHop, body_of, body_size, IsGoodListener, IsGoodReaction, IsGoodAct, IsGoodControl, IsFirstWithout, IsFirstBeyond, Accepted, IsFirstRefusal, IsPlanAnswer, last_of, pieces_of};
ghost use Rattle.nk_plan.specs.Rows.{parts_of, PassesRows, IsRefusedFrom};

use crate::plan::{
    Act, ChannelPlan, Control, Controls, Finish, Hop, Hops, ListenerKind, PlanError, Reaction,
    Reactions, StartLane, Verdict,
};
use http::StatusCode;
use nk_base::{Fields, Piece};

impl ChannelPlan {
    /// The most hops of a plan.
    pub const MOST_HOPS: usize = 32;

    /// The most pieces of a body.
    pub const MOST_PIECES: usize = 65_536;

    /// The most bytes of a body.
    pub const MOST_BYTES: u64 = 67_108_864;

    /// The most reactions of a plan, and the most calls of its page.
    pub const MOST_CALLS: usize = 64;

    /// The most segments that a pipe's readers may go through, all together.
    pub const MOST_SEGMENTS_READ: u64 = 1_000_000;

    /// The most bytes that a pipe's readers may read, all together.
    pub const MOST_BYTES_READ: u64 = 134_217_728;

    /// The most callbacks that a call of the page may wait for.
    pub const MOST_AFTER: u32 = 100_000;

    /// The largest window, in bytes.
    pub const MOST_WINDOW: u32 = 16_777_216;

    /// The plan with these parts. It is refused by the first row of `PlanError`, in the order of its variants, that the
    /// parts do not pass. It takes no memory; on a refusal the parts are dropped.
    pub fn new(
        hops: Hops,
        listener: ListenerKind,
        retargetable: bool,
        reactions: Reactions,
        controls: Controls,
        window: u32,
        closed: bool,
        start: StartLane,
    ) -> Result<ChannelPlan, PlanError>
        ensures answer { IsPlanAnswer (plan_of hops listener retargetable reactions controls window closed start) result }
        ensures accepted { IsOk result ↔ Accepted (plan_of hops listener retargetable reactions controls window closed start) }
    {
        let parts = Parts {
            hops,
            listener,
            retargetable,
            reactions,
            controls,
            window,
            closed,
            start,
        };
        match parts.check() {
            Ok(()) => Ok(parts.into_plan()),
            Err(refusal) => Err(refusal),
        }
    }
}

/// The parts of a plan, as long as it is not known whether there may be one.
#[derive(Drop)]
struct Parts {
    hops: Hops,
    listener: ListenerKind,
    retargetable: bool,
    reactions: Reactions,
    controls: Controls,
    window: u32,
    closed: bool,
    start: StartLane,
}

impl Parts {
    /// The plan with these parts, where each row is passed.
    fn into_plan(self) -> ChannelPlan
        requires { Accepted (parts_of self) }
        ensures { result ≡ parts_of self }
    {
        ChannelPlan {
            hops: self.hops,
            listener: self.listener,
            retargetable: self.retargetable,
            reactions: self.reactions,
            controls: self.controls,
            window: self.window,
            closed: self.closed,
            start: self.start,
        }
    }

    /// The first row that the parts do not pass.
    fn check(&self) -> Result<(), PlanError>
        ensures ok { OnOk result (Accepted (parts_of self.now)) }
        ensures err { IfErr result (λ e. IsFirstRefusal e (parts_of self.now)) }
    {
        self.check_hop_count()?;
        self.check_hop_order()?;
        self.check_hops()?;
        let size = self.check_body()?;
        self.check_listener(size)?;
        self.check_reactions()?;
        self.check_controls()?;
        self.check_window()
    }

    /// The rows on the number of hops.
    fn check_hop_count(&self) -> Result<(), PlanError>
        ensures ok { OnOk result (PassesRows (parts_of self.now) 0 2) }
        ensures err { IfErr result (IsRefusedFrom (parts_of self.now) 0) }
    {
        let count = self.hops.len();
        if count == 0 {
            return Err(PlanError::NoHop);
        }
        if count > ChannelPlan::MOST_HOPS {
            return Err(PlanError::TooManyHops(count));
        }
        Ok(())
    }

    /// The rows on where the redirects stand.
    fn check_hop_order(&self) -> Result<(), PlanError>
        requires { PassesRows (parts_of self.now) 0 2 }
        ensures ok { OnOk result (PassesRows (parts_of self.now) 2 4) }
        ensures err { IfErr result (IsRefusedFrom (parts_of self.now) 2) }
    {
        let hops = self.hops.as_slice();
        let last = hops.len() - 1;
        if hops[last].is_redirect() {
            return Err(PlanError::LastIsRedirect);
        }
        match first_end(&hops[..last]) {
            Some(i) => Err(PlanError::EarlyEnd(i)),
            None => Ok(()),
        }
    }

    /// The row on each hop by itself.
    fn check_hops(&self) -> Result<(), PlanError>
        ensures ok { OnOk result (PassesRows (parts_of self.now) 4 5) }
        ensures err { IfErr result (IsRefusedFrom (parts_of self.now) 4) }
    {
        match first_bad_hop(self.hops.as_slice()) {
            Some(i) => Err(PlanError::BadHop(i)),
            None => Ok(()),
        }
    }

    /// The rows on the body, and its size.
    fn check_body(&self) -> Result<u64, PlanError>
        ensures ok { OnOk result (PassesRows (parts_of self.now) 5 7) }
        ensures size { IfOk result (λ n. n ≡ body_size (parts_of self.now)) }
        ensures err { IfErr result (IsRefusedFrom (parts_of self.now) 5) }
    {
        let body = self.body();
        if body.len() > ChannelPlan::MOST_PIECES {
            return Err(PlanError::TooManyPieces(body.len()));
        }
        let size = total(body);
        if size > ChannelPlan::MOST_BYTES {
            return Err(PlanError::TooManyBytes(size));
        }
        Ok(size)
    }

    /// The row on the listener, at a body of this size.
    fn check_listener(&self, size: u64) -> Result<(), PlanError>
        requires size { size ≡ body_size (parts_of self.now) }
        requires few { size ≤ 67108864 }
        ensures ok { OnOk result (PassesRows (parts_of self.now) 7 8) }
        ensures err { IfErr result (IsRefusedFrom (parts_of self.now) 7) }
    {
        if self.listener.is_good(size) {
            Ok(())
        } else {
            Err(PlanError::BadListener)
        }
    }

    /// The row on the reactions.
    fn check_reactions(&self) -> Result<(), PlanError>
        ensures ok { OnOk result (PassesRows (parts_of self.now) 8 9) }
        ensures err { IfErr result (IsRefusedFrom (parts_of self.now) 8) }
    {
        match first_bad_reaction(self.reactions.as_slice()) {
            Some(i) => Err(PlanError::BadReaction(i)),
            None => Ok(()),
        }
    }

    /// The row on the page's calls.
    fn check_controls(&self) -> Result<(), PlanError>
        ensures ok { OnOk result (PassesRows (parts_of self.now) 9 10) }
        ensures err { IfErr result (IsRefusedFrom (parts_of self.now) 9) }
    {
        match first_bad_control(self.controls.as_slice(), self.closed) {
            Some(i) => Err(PlanError::BadControl(i)),
            None => Ok(()),
        }
    }

    /// The row on the window.
    fn check_window(&self) -> Result<(), PlanError>
        ensures ok { OnOk result (PassesRows (parts_of self.now) 10 11) }
        ensures err { IfErr result (IsRefusedFrom (parts_of self.now) 10) }
    {
        if self.window < 1 || self.window > ChannelPlan::MOST_WINDOW {
            return Err(PlanError::BadWindow);
        }
        Ok(())
    }

    /// The pieces of the body: those of the last hop.
    fn body(&self) -> &[Piece]
        ensures { result.now ≡ body_of (parts_of self.now) }
    {
        body_pieces(self.hops.as_slice())
    }
}

/// The pieces of the body of a load that meets these hops: those of the last one.
pub(crate) fn body_pieces(hops: &[Hop]) -> &[Piece]
    ensures { result.now ≡ pieces_of (last_of hops.now) }
{
    match hops.last() {
        Some(Hop::Response { pieces, .. }) => pieces.as_slice(),
        _ => &[],
    }
}

/// The first hop that is not a redirect.
fn first_end(hops: &[Hop]) -> Option<usize>
    ensures { MatchOption result (All IsRedirect hops.now) (IsFirstWithout IsRedirect hops.now) }
{
    for (i, hop) in hops.iter().enumerate() {
        if !hop.is_redirect() {
            return Some(i);
        }
    }
    None
}

/// The first hop that no plan may have.
fn first_bad_hop(hops: &[Hop]) -> Option<usize>
    ensures { MatchOption result (All IsGoodHop hops.now) (IsFirstWithout IsGoodHop hops.now) }
{
    for (i, hop) in hops.iter().enumerate() {
        if !hop.is_good() {
            return Some(i);
        }
    }
    None
}

/// The first reaction that no plan may have, or the 65th.
fn first_bad_reaction(reactions: &[Reaction]) -> Option<usize>
    ensures all { IsNone result → All IsGoodReaction reactions.now }
    ensures few { IsNone result → length reactions.now ≤ 64 }
    ensures first { IfSome result (IsFirstBeyond 64 IsGoodReaction reactions.now) }
{
    for (i, reaction) in reactions.iter().enumerate() {
        if i == ChannelPlan::MOST_CALLS || !reaction.is_good() {
            return Some(i);
        }
    }
    None
}

/// The first call of the page that no plan may have that is closed or not, or the 65th.
fn first_bad_control(controls: &[Control], closed: bool) -> Option<usize>
    ensures all { IsNone result → All (IsGoodControl closed) controls.now }
    ensures few { IsNone result → length controls.now ≤ 64 }
    ensures first { IfSome result (IsFirstBeyond 64 (IsGoodControl closed) controls.now) }
{
    for (i, control) in controls.iter().enumerate() {
        if i == ChannelPlan::MOST_CALLS || !control.is_good(closed) {
            return Some(i);
        }
    }
    None
}

/// The number of bytes of these pieces.
fn total(pieces: &[Piece]) -> u64
    requires { length pieces.now ≤ 65536 }
    ensures { result ≡ sum_by length pieces.now }
{
    let mut size = 0u64;
    for piece in pieces {
        size += piece.size() as u64;
    }
    size
}

/// Whether a worker has this number.
fn is_worker(number: u8) -> bool
    ensures { IsTrue result ↔ IsWorker number }
{
    1 <= number && number <= 16
}

impl Hop {
    /// Whether it leads to another hop.
    fn is_redirect(&self) -> bool
        ensures { IsTrue result ↔ IsRedirect self.now }
    {
        match self {
            Hop::Redirect { .. } => true,
            _ => false,
        }
    }

    /// Whether its statuses, its code and its trailers may stand in a plan.
    fn is_good(&self) -> bool
        ensures { IsTrue result ↔ IsGoodHop self.now }
    {
        match self {
            Hop::Fail(status) => status.is_failure(),
            Hop::Redirect { code, verdict } => is_redirection(*code) && verdict.is_good(),
            Hop::Response {
                finish,
                trailers,
                ..
            } => trailers.len() <= Fields::MOST && trailers.are_good() && finish.is_good(trailers),
        }
    }
}

/// Whether a code is one of a redirect: 300 to 399.
fn is_redirection(code: u16) -> bool
    ensures { IsTrue result ↔ IsRedirectCode code }
{
    match StatusCode::from_u16(code) {
        Ok(status) => status.is_redirection(),
        Err(_) => false,
    }
}

impl Verdict {
    /// Whether its status, if it has one, is a failure.
    fn is_good(&self) -> bool
        ensures { IsTrue result ↔ IsGoodVerdict self.now }
    {
        match self {
            Verdict::Allow => true,
            Verdict::Veto(status) => status.is_failure(),
        }
    }
}

impl Finish {
    /// Whether these trailers may follow it.
    fn is_good(&self, trailers: &Fields) -> bool
        ensures { IsTrue result ↔ IsGoodFinish self.now trailers.now }
    {
        match self {
            Finish::Good => true,
            Finish::Fail(status) => status.is_failure() && trailers.len() == 0,
        }
    }
}

impl ListenerKind {
    /// Whether its sizes are in range, and its readers read no more than they may of a body of this size.
    fn is_good(&self, size: u64) -> bool
        requires { size ≤ 67108864 }
        ensures { IsTrue result ↔ IsGoodListener self.now size }
    {
        match self {
            ListenerKind::Plain => true,
            ListenerKind::Pipe {
                segment,
                limit,
                readers,
            } => {
                let read = *readers as u64 * size;
                4 <= *segment
                    && *segment <= 65_536
                    && 1 <= *limit
                    && *limit <= 1_024
                    && 1 <= *readers
                    && *readers <= 8
                    && read.div_ceil(*segment as u64) <= ChannelPlan::MOST_SEGMENTS_READ
                    && read <= ChannelPlan::MOST_BYTES_READ
            }
        }
    }
}

impl Reaction {
    /// Whether its worker, its status and its number are in range.
    fn is_good(&self) -> bool
        ensures { IsTrue result ↔ IsGoodReaction self.now }
    {
        match self {
            Reaction::StartRetarget(worker) => is_worker(*worker),
            Reaction::StartSuspend => true,
            Reaction::StartCancel(status) => status.is_failure(),
            Reaction::StartFail(status) => status.is_failure(),
            Reaction::BytesFail { nth, status } => {
                1 <= *nth && *nth <= 65_536 && status.is_failure()
            }
        }
    }
}

impl Act {
    /// Whether its worker and its status are in range.
    fn is_good(&self) -> bool
        ensures { IsTrue result ↔ IsGoodAct self.now }
    {
        match self {
            Act::Suspend => true,
            Act::Resume => true,
            Act::Cancel(status) => status.is_failure(),
            Act::Retarget(worker) => is_worker(*worker),
            Act::Break(status) => status.is_failure(),
        }
    }
}

impl Control {
    /// Whether the page may make this call in a plan that is closed or not.
    fn is_good(&self, closed: bool) -> bool
        ensures { IsTrue result ↔ IsGoodControl closed self.now }
    {
        !closed && self.after <= ChannelPlan::MOST_AFTER && self.act.is_good()
    }
}
