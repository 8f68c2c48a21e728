// Plans, and what refuses them.

use crate::base::add_field;
use crate::rows::none_wrong;
use nk_base::{Fields, Head, Piece, Status};
use nk_plan::{
    Act, ChannelPlan, Control, Controls, Finish, Hop, Hops, ListenerKind, Pieces, PlanError,
    Reaction, Reactions, StartLane, Verdict,
};
use std::alloc::Global;

mod kept;
mod page;

/// A hop that is to be made. A body is so many shares of one piece of this size, with so many trailers behind it, which
/// are good or not.
#[derive(Clone, Copy, Drop)]
enum Met {
    Fail(Status),
    Redirect(u16, Verdict),
    Response(usize, usize, Finish, usize, bool),
}

/// The parts of a plan that is to be made.
#[derive(Clone, Copy, Drop)]
struct Parts<'a> {
    hops: &'a [Met],
    listener: ListenerKind,
    reactions: &'a [Reaction],
    controls: &'a [Control],
    window: u32,
    closed: bool,
}

const OK: Status = Status::OK;

const RESET: Status = Status::NET_RESET;

const FAILS: Met = Met::Fail(RESET);

const REDIRECTS: Met = Met::Redirect(302, Verdict::Allow);

const EMPTY: Met = Met::Response(0, 0, Finish::Good, 0, true);

const RESUME: Control = Control {
    after: 0,
    act: Act::Resume,
};

/// A plan with these hops, and with no fault but theirs.
fn plan_of(hops: &[Met]) -> Parts {
    Parts {
        hops,
        listener: ListenerKind::Plain,
        reactions: &[],
        controls: &[],
        window: 1_048_576,
        closed: false,
    }
}

fn piece(alloc: Global, size: usize) -> Option<Piece> {
    let bytes = vec![in alloc; 0x2e_u8; size].ok()?;
    Piece::new(alloc, &bytes).ok()
}

fn add_shares(pieces: &mut Pieces, piece: &Piece, count: usize) -> Option<()> {
    for _ in 0..count {
        let share = piece.share().ok()?;
        pieces.push(share).ok()?;
    }
    Some(())
}

/// Adds so many shares of one piece of this size.
fn add_pieces(alloc: Global, pieces: &mut Pieces, count: usize, size: usize) -> Option<()> {
    if count == 0 {
        return Some(());
    }
    let piece = piece(alloc, size)?;
    add_shares(pieces, &piece, count)
}

/// Adds so many trailers, which are good or not.
fn add_trailers(alloc: Global, all: &mut Fields, count: usize, are_good: bool) -> Option<()> {
    let name = if are_good {
        b"expires".as_slice()
    } else {
        b"Expires".as_slice()
    };
    for _ in 0..count {
        add_field(alloc, all, name, b"0")?;
    }
    Some(())
}

fn response(alloc: Global, pieces: Pieces, finish: Finish, trailers: Fields) -> Option<Hop> {
    let head = Head::new(200, Fields::new(alloc)).ok()?;
    Some(Hop::Response {
        head,
        pieces,
        finish,
        trailers,
    })
}

fn hop(alloc: Global, met: Met) -> Option<Hop> {
    match met {
        Met::Fail(status) => Some(Hop::Fail(status)),
        Met::Redirect(code, verdict) => Some(Hop::Redirect { code, verdict }),
        Met::Response(count, size, finish, behind, are_good) => {
            let mut pieces = Pieces::new(alloc);
            add_pieces(alloc, &mut pieces, count, size)?;
            let mut trailers = Fields::new(alloc);
            add_trailers(alloc, &mut trailers, behind, are_good)?;
            response(alloc, pieces, finish, trailers)
        }
    }
}

fn add_hops(alloc: Global, hops: &mut Hops, met: &[Met]) -> Option<()> {
    for one in met {
        let hop = hop(alloc, *one)?;
        hops.push(hop).ok()?;
    }
    Some(())
}

fn add_reactions(reactions: &mut Reactions, items: &[Reaction]) -> Option<()> {
    for item in items {
        reactions.push(*item).ok()?;
    }
    Some(())
}

fn add_controls(controls: &mut Controls, items: &[Control]) -> Option<()> {
    for item in items {
        controls.push(*item).ok()?;
    }
    Some(())
}

/// The lists of a plan.
#[derive(Drop)]
struct Lists {
    hops: Hops,
    reactions: Reactions,
    controls: Controls,
}

fn add_all(alloc: Global, lists: &mut Lists, parts: Parts) -> Option<()> {
    add_hops(alloc, &mut lists.hops, parts.hops)?;
    add_reactions(&mut lists.reactions, parts.reactions)?;
    add_controls(&mut lists.controls, parts.controls)
}

/// The plan with these parts, or why it is refused; nothing where there is no memory for it.
fn made(alloc: Global, parts: Parts) -> Option<Result<ChannelPlan, PlanError>> {
    let mut lists = Lists {
        hops: Hops::new(alloc),
        reactions: Reactions::new(alloc),
        controls: Controls::new(alloc),
    };
    add_all(alloc, &mut lists, parts)?;
    Some(ChannelPlan::new(
        lists.hops,
        parts.listener,
        true,
        lists.reactions,
        lists.controls,
        parts.window,
        parts.closed,
        StartLane::Main,
    ))
}

/// Whether a plan is refused with this cause, or not refused where there is none.
fn meets(alloc: Global, parts: Parts, cause: Option<PlanError>) -> bool {
    match made(alloc, parts) {
        Some(made) => made.err() == cause,
        None => false,
    }
}

/// As many redirects as there may be, with a failure behind them.
const MOST_HOPS: &[Met] = &[
    REDIRECTS, REDIRECTS, REDIRECTS, REDIRECTS, REDIRECTS, REDIRECTS, REDIRECTS, REDIRECTS,
    REDIRECTS, REDIRECTS, REDIRECTS, REDIRECTS, REDIRECTS, REDIRECTS, REDIRECTS, REDIRECTS,
    REDIRECTS, REDIRECTS, REDIRECTS, REDIRECTS, REDIRECTS, REDIRECTS, REDIRECTS, REDIRECTS,
    REDIRECTS, REDIRECTS, REDIRECTS, REDIRECTS, REDIRECTS, REDIRECTS, REDIRECTS, FAILS,
];

/// One redirect more.
const ONE_HOP_MORE: &[Met] = &[
    REDIRECTS, REDIRECTS, REDIRECTS, REDIRECTS, REDIRECTS, REDIRECTS, REDIRECTS, REDIRECTS,
    REDIRECTS, REDIRECTS, REDIRECTS, REDIRECTS, REDIRECTS, REDIRECTS, REDIRECTS, REDIRECTS,
    REDIRECTS, REDIRECTS, REDIRECTS, REDIRECTS, REDIRECTS, REDIRECTS, REDIRECTS, REDIRECTS,
    REDIRECTS, REDIRECTS, REDIRECTS, REDIRECTS, REDIRECTS, REDIRECTS, REDIRECTS, REDIRECTS, FAILS,
];

/// Hops, and why a plan with them is refused.
#[derive(Clone, Copy, Drop)]
struct HopRow<'a>(&'a [Met], Option<PlanError>);

/// The number of the first row that is not so.
fn first_wrong(alloc: Global, rows: &[HopRow]) -> Option<usize> {
    for (i, row) in rows.iter().enumerate() {
        if !meets(alloc, plan_of(row.0), row.1) {
            return Some(i);
        }
    }
    None
}

#[test]
fn hops_are_refused_by_their_number_and_their_order(rt: HostRuntime) {
    let rows = &[
        HopRow(&[], Some(PlanError::NoHop)),
        HopRow(&[FAILS; 33], Some(PlanError::TooManyHops(33))),
        HopRow(&[FAILS, FAILS], Some(PlanError::EarlyEnd(0))),
        HopRow(&[FAILS, REDIRECTS], Some(PlanError::LastIsRedirect)),
        HopRow(&[FAILS], None),
        HopRow(&[EMPTY], None),
        HopRow(MOST_HOPS, None),
        HopRow(ONE_HOP_MORE, Some(PlanError::TooManyHops(33))),
        HopRow(&[REDIRECTS; 32], Some(PlanError::LastIsRedirect)),
        HopRow(
            &[REDIRECTS, EMPTY, REDIRECTS, FAILS],
            Some(PlanError::EarlyEnd(1)),
        ),
        HopRow(&[REDIRECTS, FAILS, EMPTY], Some(PlanError::EarlyEnd(1))),
    ];
    none_wrong(&rt, first_wrong(rt.alloc(), rows));
}

#[test]
fn hops_are_refused_by_what_they_hold(rt: HostRuntime) {
    const FIRST: Option<PlanError> = Some(PlanError::BadHop(0));
    const SECOND: Option<PlanError> = Some(PlanError::BadHop(1));
    const VETO: Met = Met::Redirect(399, Verdict::Veto(RESET));
    const NO_VETO: Met = Met::Redirect(300, Verdict::Veto(OK));
    const CUT: Finish = Finish::Fail(RESET);
    let rows = &[
        HopRow(
            &[REDIRECTS, Met::Redirect(400, Verdict::Allow), FAILS],
            SECOND,
        ),
        HopRow(&[Met::Fail(OK)], FIRST),
        HopRow(&[Met::Response(0, 0, CUT, 1, true)], FIRST),
        HopRow(&[Met::Redirect(299, Verdict::Allow), EMPTY], FIRST),
        HopRow(&[Met::Redirect(300, Verdict::Allow), VETO, EMPTY], None),
        HopRow(&[VETO, NO_VETO, EMPTY], SECOND),
        HopRow(&[Met::Fail(Status(0x7fff_ffff))], FIRST),
        HopRow(&[Met::Response(2, 5, CUT, 0, true)], None),
        HopRow(&[Met::Response(0, 0, Finish::Fail(OK), 0, true)], FIRST),
        HopRow(&[Met::Response(0, 0, Finish::Good, 64, true)], None),
        HopRow(&[Met::Response(0, 0, Finish::Good, 65, true)], FIRST),
        HopRow(&[Met::Response(0, 0, Finish::Good, 1, false)], FIRST),
    ];
    none_wrong(&rt, first_wrong(rt.alloc(), rows));
}

#[test]
fn a_body_is_refused_by_its_size(rt: HostRuntime) {
    const MANY: Option<PlanError> = Some(PlanError::TooManyPieces(65_537));
    const LARGE: Option<PlanError> = Some(PlanError::TooManyBytes(67_239_936));
    let rows = &[
        HopRow(&[Met::Response(65_536, 1, Finish::Good, 0, true)], None),
        HopRow(&[Met::Response(65_537, 1, Finish::Good, 0, true)], MANY),
        HopRow(&[Met::Response(512, 131_072, Finish::Good, 0, true)], None),
        HopRow(&[Met::Response(513, 131_072, Finish::Good, 0, true)], LARGE),
    ];
    none_wrong(&rt, first_wrong(rt.alloc(), rows));
}
