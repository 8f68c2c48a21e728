// Texts that are scripts, and what each of their lines says.

use crate::rows::none_wrong;
use nk_base::{Fields, Head, Status, Target};
use nk_plan::{
    Act, ChannelPlan, Control, Finish, Hop, ListenerKind, Pieces, Reaction, StartLane, Step,
    Verdict,
};
use nk_script::{ScheduleItem, Script, read_script};
use std::alloc::Global;

/// A name and a value.
type Header = (&'static [u8], &'static [u8]);

/// What a hop is, or something of a response.
#[derive(Clone, Copy)]
enum OfHop {
    Fail(Status),
    Redirect(u16, Verdict),
    Code(u16),
    Fields(usize),
    Field(usize, Header),
    Pieces(usize),
    Piece(usize, &'static [u8]),
    Finish(Finish),
    Trailers(usize),
    Trailer(usize, Header),
}

/// Something that a channel's lines say.
#[derive(Clone, Copy)]
enum Told {
    Hops(usize),
    Hop(usize, OfHop),
    Listener(ListenerKind),
    Retargetable(bool),
    Window(u32),
    Start(StartLane),
    Closed(bool),
    Reactions(usize),
    Reaction(usize, Reaction),
    Controls(usize),
    Control(usize, u32, Act),
}

// Whether that is field i.
fn has_field(fields: &Fields, i: usize, header: Header) -> bool {
    if i >= fields.len() {
        return false;
    }
    let field = fields.get(i);
    field.name.as_slice() == header.0 && field.value.as_slice() == header.1
}

fn is_failure(status: Status, told: OfHop) -> bool {
    match told {
        OfHop::Fail(told) => status == told,
        _ => false,
    }
}

fn is_redirect(code: u16, verdict: Verdict, told: OfHop) -> bool {
    match told {
        OfHop::Redirect(told, allowed) => code == told && verdict == allowed,
        _ => false,
    }
}

fn is_body(pieces: &Pieces, told: OfHop) -> bool {
    match told {
        OfHop::Pieces(count) => pieces.len() == count,
        OfHop::Piece(i, bytes) => i < pieces.len() && pieces.get(i).as_slice() == bytes,
        _ => false,
    }
}

fn is_head(head: &Head, told: OfHop) -> bool {
    match told {
        OfHop::Code(code) => head.code == code,
        OfHop::Fields(count) => head.fields.len() == count,
        OfHop::Field(i, header) => has_field(&head.fields, i, header),
        _ => false,
    }
}

fn is_end(finish: Finish, trailers: &Fields, told: OfHop) -> bool {
    match told {
        OfHop::Finish(told) => finish == told,
        OfHop::Trailers(count) => trailers.len() == count,
        OfHop::Trailer(i, header) => has_field(trailers, i, header),
        _ => false,
    }
}

// Whether the hop is so.
fn is_hop(hop: &Hop, told: OfHop) -> bool {
    match hop {
        Hop::Fail(status) => is_failure(*status, told),
        Hop::Redirect { code, verdict } => is_redirect(*code, *verdict, told),
        Hop::Response {
            head,
            pieces,
            finish,
            trailers,
        } => is_head(head, told) || is_body(pieces, told) || is_end(*finish, trailers, told),
    }
}

fn has_hop(plan: &ChannelPlan, i: usize, told: OfHop) -> bool {
    i < plan.hops.len() && is_hop(plan.hops.get(i), told)
}

fn has_reaction(plan: &ChannelPlan, i: usize, reaction: Reaction) -> bool {
    i < plan.reactions.len() && *plan.reactions.get(i) == reaction
}

fn has_control(plan: &ChannelPlan, i: usize, control: Control) -> bool {
    i < plan.controls.len() && *plan.controls.get(i) == control
}

// Whether the plan is so.
fn is_plan(plan: &ChannelPlan, told: Told) -> bool {
    match told {
        Told::Hops(count) => plan.hops.len() == count,
        Told::Hop(i, told) => has_hop(plan, i, told),
        Told::Listener(kind) => plan.listener == kind,
        Told::Retargetable(retargetable) => plan.retargetable == retargetable,
        Told::Window(window) => plan.window == window,
        Told::Start(lane) => plan.start == lane,
        Told::Closed(closed) => plan.closed == closed,
        Told::Reactions(count) => plan.reactions.len() == count,
        Told::Reaction(i, reaction) => has_reaction(plan, i, reaction),
        Told::Controls(count) => plan.controls.len() == count,
        Told::Control(i, after, act) => has_control(plan, i, Control { after, act }),
    }
}

// The script of a text; `None` for want of memory, and where it is none.
fn read(alloc: Global, text: &str) -> Option<Script> {
    if text.len() > 10_000 {
        return None;
    }
    read_script(alloc, text.as_bytes()).ok()
}

// The number of the first row that is not so of this plan, counted from 0.
fn first_other(plan: &ChannelPlan, rows: &[Told]) -> Option<usize> {
    let mut number: usize = 0;
    for told in rows {
        if !is_plan(plan, *told) {
            return Some(number);
        }
        number = number.wrapping_add(1);
    }
    None
}

// The same of this channel's plan.
fn first_other_of(script: &Script, channel: usize, rows: &[Told]) -> Option<usize> {
    if channel < script.plans.len() {
        first_other(script.plans.get(channel), rows)
    } else {
        Some(0)
    }
}

// The same of the channels' plans, one behind the other.
fn first_other_plan(script: &Script, plans: &[&[Told]]) -> Option<usize> {
    let mut number: usize = 0;
    for rows in plans {
        let other = first_other_of(script, number, rows);
        if other.is_some() {
            return other;
        }
        number = number.wrapping_add(1);
    }
    None
}

fn is_item(script: &Script, i: usize, item: ScheduleItem) -> bool {
    i < script.schedule.len() && *script.schedule.get(i) == item
}

// The number of the first step that the schedule has otherwise, or that of all where it has more of them.
fn first_other_step(script: &Script, steps: &[(u32, Step)]) -> Option<usize> {
    let mut number: usize = 0;
    for &(channel, step) in steps {
        if !is_item(script, number, ScheduleItem { channel, step }) {
            return Some(number);
        }
        number = number.wrapping_add(1);
    }
    if script.schedule.len() == number {
        None
    } else {
        Some(number)
    }
}

// The number of the first row that is not so of a script that has a plan for each of these, or of its schedule.
fn first_of_script(script: &Script, plans: &[&[Told]], steps: &[(u32, Step)]) -> Option<usize> {
    if script.plans.len() == plans.len() {
        first_other_plan(script, plans).or(first_other_step(script, steps))
    } else {
        Some(0)
    }
}

// The same of a text.
fn first_wrong(
    alloc: Global,
    text: &str,
    plans: &[&[Told]],
    steps: &[(u32, Step)],
) -> Option<usize> {
    match read(alloc, text) {
        Some(script) => first_of_script(&script, plans, steps),
        None => Some(0),
    }
}

const FULL: &str = "script 1\nchannel\n\
    hop redirect 301 veto 804b0002\nhop response 200\n\
    field a b c\npiece hello\nhex 00ff\nfill 61 3\nend ok\ntrailer x-sum 17\n\
    listener pipe 4 2 2\nretargetable no\nwindow 9\nstart back\n\
    at data 1 fail 80004005\nwhen 2 break 804b0014\n\
    channel\nhop response 204\nend ok\n\
    schedule\n2 begin w16\n1 read 8\n";

const FIRST: &[Told] = &[
    Told::Hops(2),
    Told::Hop(
        0,
        OfHop::Redirect(301, Verdict::Veto(Status::BINDING_ABORTED)),
    ),
    Told::Hop(1, OfHop::Code(200)),
    Told::Hop(1, OfHop::Fields(1)),
    Told::Hop(1, OfHop::Field(0, (b"a", b"b c"))),
    Told::Hop(1, OfHop::Pieces(3)),
    Told::Hop(1, OfHop::Piece(0, b"hello")),
    Told::Hop(1, OfHop::Piece(1, b"\0\xff")),
    Told::Hop(1, OfHop::Piece(2, b"aaa")),
    Told::Hop(1, OfHop::Finish(Finish::Good)),
    Told::Hop(1, OfHop::Trailers(1)),
    Told::Hop(1, OfHop::Trailer(0, (b"x-sum", b"17"))),
    Told::Listener(ListenerKind::Pipe {
        segment: 4,
        limit: 2,
        readers: 2,
    }),
    Told::Retargetable(false),
    Told::Window(9),
    Told::Start(StartLane::Back),
    Told::Closed(false),
    Told::Reactions(1),
    Told::Reaction(
        0,
        Reaction::BytesFail {
            nth: 1,
            status: Status::FAILURE,
        },
    ),
    Told::Controls(1),
    Told::Control(0, 2, Act::Break(Status::NET_RESET)),
];

// Of a channel with no options.
const SECOND: &[Told] = &[
    Told::Hops(1),
    Told::Hop(0, OfHop::Code(204)),
    Told::Hop(0, OfHop::Fields(0)),
    Told::Hop(0, OfHop::Pieces(0)),
    Told::Hop(0, OfHop::Finish(Finish::Good)),
    Told::Hop(0, OfHop::Trailers(0)),
    Told::Listener(ListenerKind::Plain),
    Told::Retargetable(true),
    Told::Window(1_048_576),
    Told::Start(StartLane::Main),
    Told::Closed(false),
    Told::Reactions(0),
    Told::Controls(0),
];

const FULL_STEPS: &[(u32, Step)] = &[(2, Step::Begin(Target::Worker(16))), (1, Step::Read(8))];

#[test]
fn each_line_says_its_part_of_the_script(rt: HostRuntime) {
    let plans = [FIRST, SECOND];
    none_wrong(&rt, first_wrong(rt.alloc(), FULL, &plans, FULL_STEPS));
}

const MORE: &str = "script 1\nchannel\nhop redirect 399 allow\nhop fail 804b000d\n\
    listener plain\nwindow 16777216\n\
    at start retarget w16\nat start suspend\nat start cancel 804b0002\n\
    at start fail 80004005\nat data 65536 fail 804b0014\n\
    when 0 suspend\nwhen 100000 resume\nwhen 1 cancel 804b0002\nwhen 1 retarget w1\n\
    channel\nhop response 999\nfield a b\nfield a c\n\
    piece  \npiece a b\nend fail 804b0014\nclosed\nat start suspend\n\
    schedule\n\
    1 act\n2 verdict\n1 fetch\n2 up\n1 forward\n2 main\n1 back\n2 release\n\
    1 begin main\n2 begin w1\n1 finish main\n2 finish w16\n1 read 1\n1 read 8";

const CALLS: &[Told] = &[
    Told::Hops(2),
    Told::Hop(0, OfHop::Redirect(399, Verdict::Allow)),
    Told::Hop(1, OfHop::Fail(Status::CONNECTION_REFUSED)),
    Told::Listener(ListenerKind::Plain),
    Told::Window(16_777_216),
    Told::Reactions(5),
    Told::Reaction(0, Reaction::StartRetarget(16)),
    Told::Reaction(1, Reaction::StartSuspend),
    Told::Reaction(2, Reaction::StartCancel(Status::BINDING_ABORTED)),
    Told::Reaction(3, Reaction::StartFail(Status::FAILURE)),
    Told::Reaction(
        4,
        Reaction::BytesFail {
            nth: 65_536,
            status: Status::NET_RESET,
        },
    ),
    Told::Controls(4),
    Told::Control(0, 0, Act::Suspend),
    Told::Control(1, 100_000, Act::Resume),
    Told::Control(2, 1, Act::Cancel(Status::BINDING_ABORTED)),
    Told::Control(3, 1, Act::Retarget(1)),
];

const CLOSED: &[Told] = &[
    Told::Hops(1),
    Told::Hop(0, OfHop::Code(999)),
    Told::Hop(0, OfHop::Fields(2)),
    Told::Hop(0, OfHop::Field(0, (b"a", b"b"))),
    Told::Hop(0, OfHop::Field(1, (b"a", b"c"))),
    Told::Hop(0, OfHop::Piece(0, b" ")),
    Told::Hop(0, OfHop::Piece(1, b"a b")),
    Told::Hop(0, OfHop::Finish(Finish::Fail(Status::NET_RESET))),
    Told::Closed(true),
    Told::Reactions(1),
];

const MORE_STEPS: &[(u32, Step)] = &[
    (1, Step::Act),
    (2, Step::Verdict),
    (1, Step::Fetch),
    (2, Step::Up),
    (1, Step::Forward),
    (2, Step::Main),
    (1, Step::Back),
    (2, Step::Release),
    (1, Step::Begin(Target::Main)),
    (2, Step::Begin(Target::Worker(1))),
    (1, Step::Finish(Target::Main)),
    (2, Step::Finish(Target::Worker(16))),
    (1, Step::Read(1)),
    (1, Step::Read(8)),
];

#[test]
fn each_call_and_step_is_the_one_of_its_line(rt: HostRuntime) {
    let plans = [CALLS, CLOSED];
    none_wrong(&rt, first_wrong(rt.alloc(), MORE, &plans, MORE_STEPS));
}
