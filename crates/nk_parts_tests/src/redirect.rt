// The two halves of a redirect: the questions that a parent asks, and the answers that a child gives.

use crate::rows::none_wrong;
use nk_base::Status;
use nk_plan::Verdict;
use nk_redirect::{Answer, Begin, ChildHalf, ParentHalf, Verified};

/// A call of a parent's half.
#[derive(Clone, Copy, Drop)]
enum ParentCall {
    Begin(u32),
    Verified(u32, Status),
    Followed,
}

/// What it answered.
#[derive(Clone, Copy, Drop, PartialEq, Eq)]
enum ParentAnswer {
    Begun(Begin),
    Verified(Verified),
    Counted,
    Refused,
}

const ASK: ParentAnswer = ParentAnswer::Begun(Begin::Ask);

const LOOP: ParentAnswer = ParentAnswer::Begun(Begin::Loop);

const FOLLOW: ParentAnswer = ParentAnswer::Verified(Verified::Follow);

const STRAY: ParentAnswer = ParentAnswer::Verified(Verified::Stray);

const OK: Status = Status::OK;

const RESET: Status = Status::NET_RESET;

const REFUSED: Status = Status::CONNECTION_REFUSED;

const ALLOW: ChildCall = ChildCall::Verdict(OK, Verdict::Allow);

/// A call, its answer, the hop whose question is open then, and the number of redirects that were followed.
#[derive(Clone, Copy, Drop)]
struct ParentRow(ParentCall, ParentAnswer, Option<u32>, u32);

fn ask(parent: &mut ParentHalf, call: ParentCall) -> ParentAnswer {
    match call {
        ParentCall::Begin(hop) => ParentAnswer::Begun(parent.begin(hop)),
        ParentCall::Verified(hop, status) => ParentAnswer::Verified(parent.verified(hop, status)),
        ParentCall::Followed => {
            if parent.count() >= ParentHalf::MOST {
                return ParentAnswer::Refused;
            }
            parent.followed();
            ParentAnswer::Counted
        }
    }
}

/// The number of the first row that is not as it says.
fn first_wrong_of_parent(parent: &mut ParentHalf, rows: &[ParentRow]) -> Option<usize> {
    for (i, row) in rows.iter().enumerate() {
        if ask(parent, row.0) != row.1 || parent.asked() != row.2 || parent.count() != row.3 {
            return Some(i);
        }
    }
    None
}

/// A call of a child's half.
#[derive(Clone, Copy, Drop)]
enum ChildCall {
    Begin(u32),
    Verdict(Status, Verdict),
    Answer(Status, Verdict),
}

/// A call, its answer if it has one, and the hop whose question is open then.
#[derive(Clone, Copy, Drop)]
struct ChildRow(ChildCall, Option<Answer>, Option<u32>);

fn tell(child: &mut ChildHalf, call: ChildCall) -> Option<Answer> {
    match call {
        ChildCall::Begin(hop) => {
            child.begin(hop);
            None
        }
        ChildCall::Verdict(status, verdict) => Some(child.verdict(status, verdict)),
        ChildCall::Answer(status, verdict) => Some(child.answer(status, verdict)),
    }
}

/// The number of the first row that is not as it says.
fn first_wrong_of_child(child: &mut ChildHalf, rows: &[ChildRow]) -> Option<usize> {
    for (i, row) in rows.iter().enumerate() {
        if tell(child, row.0) != row.1 || child.asked() != row.2 {
            return Some(i);
        }
    }
    None
}

/// Whether a redirect that is allowed is followed once, where so many were followed before.
fn is_followed(parent: &mut ParentHalf, child: &mut ChildHalf, done: u32) -> bool {
    let asked = [
        ParentRow(ParentCall::Begin(7), ASK, Some(7), done),
        ParentRow(ParentCall::Verified(8, OK), STRAY, Some(7), done),
        ParentRow(ParentCall::Verified(7, OK), FOLLOW, None, done),
        ParentRow(
            ParentCall::Followed,
            ParentAnswer::Counted,
            None,
            done.wrapping_add(1),
        ),
    ];
    let answered = [
        ChildRow(ChildCall::Begin(7), None, Some(7)),
        ChildRow(
            ChildCall::Verdict(OK, Verdict::Allow),
            Some(Answer::Verify { hop: 7, status: OK }),
            None,
        ),
    ];
    first_wrong_of_parent(parent, &asked).is_none()
        && first_wrong_of_child(child, &answered).is_none()
}

/// The number of the first of twenty redirects that is not followed.
fn first_not_followed(parent: &mut ParentHalf, child: &mut ChildHalf) -> Option<usize> {
    for done in 0..20 {
        if !is_followed(parent, child, done) {
            return Some(done as usize);
        }
    }
    None
}

#[test]
fn twenty_redirects_are_followed_and_no_more(rt: HostRuntime) {
    let mut parent = ParentHalf::new();
    let mut child = ChildHalf::new();
    none_wrong(&rt, first_not_followed(&mut parent, &mut child));
    let rows = &[
        ParentRow(ParentCall::Begin(7), LOOP, None, 20),
        ParentRow(ParentCall::Verified(7, OK), STRAY, None, 20),
        ParentRow(ParentCall::Followed, ParentAnswer::Refused, None, 20),
    ];
    none_wrong(&rt, first_wrong_of_parent(&mut parent, rows));
    let idle = &[ChildRow(ALLOW, Some(Answer::Idle), None)];
    none_wrong(&rt, first_wrong_of_child(&mut child, idle));
}

#[test]
fn an_allowed_redirect_is_answered_once(rt: HostRuntime) {
    let rows = &[
        ChildRow(ALLOW, Some(Answer::Idle), None),
        ChildRow(ChildCall::Begin(7), None, Some(7)),
        ChildRow(
            ChildCall::Answer(OK, Verdict::Allow),
            Some(Answer::Verify { hop: 7, status: OK }),
            Some(7),
        ),
        ChildRow(ALLOW, Some(Answer::Verify { hop: 7, status: OK }), None),
        ChildRow(ALLOW, Some(Answer::Idle), None),
        ChildRow(
            ChildCall::Answer(RESET, Verdict::Allow),
            Some(Answer::Idle),
            None,
        ),
        ChildRow(ChildCall::Begin(0), None, Some(0)),
        ChildRow(ChildCall::Begin(31), None, Some(31)),
        ChildRow(
            ALLOW,
            Some(Answer::Verify {
                hop: 31,
                status: OK,
            }),
            None,
        ),
    ];
    none_wrong(&rt, first_wrong_of_child(&mut ChildHalf::new(), rows));
}

#[test]
fn a_veto_is_sent_unless_the_child_has_failed(rt: HostRuntime) {
    const VETO: Verdict = Verdict::Veto(REFUSED);
    const ODD: Status = Status(0x7fff_ffff);
    let rows = &[
        ChildRow(ChildCall::Begin(3), None, Some(3)),
        ChildRow(
            ChildCall::Answer(OK, VETO),
            Some(Answer::Verify {
                hop: 3,
                status: REFUSED,
            }),
            Some(3),
        ),
        ChildRow(
            ChildCall::Verdict(OK, VETO),
            Some(Answer::Verify {
                hop: 3,
                status: REFUSED,
            }),
            None,
        ),
        ChildRow(ChildCall::Begin(3), None, Some(3)),
        ChildRow(
            ChildCall::Verdict(RESET, VETO),
            Some(Answer::Verify {
                hop: 3,
                status: RESET,
            }),
            None,
        ),
        ChildRow(ChildCall::Begin(4), None, Some(4)),
        ChildRow(
            ChildCall::Verdict(RESET, Verdict::Allow),
            Some(Answer::Verify {
                hop: 4,
                status: RESET,
            }),
            None,
        ),
        ChildRow(ChildCall::Begin(5), None, Some(5)),
        ChildRow(
            ChildCall::Verdict(ODD, VETO),
            Some(Answer::Verify {
                hop: 5,
                status: REFUSED,
            }),
            None,
        ),
        ChildRow(ChildCall::Verdict(RESET, VETO), Some(Answer::Idle), None),
    ];
    none_wrong(&rt, first_wrong_of_child(&mut ChildHalf::new(), rows));
}

#[test]
fn a_refused_redirect_closes_its_question_alone(rt: HostRuntime) {
    const REFUSE: ParentAnswer = ParentAnswer::Verified(Verified::Refuse(RESET));
    let rows = &[
        ParentRow(ParentCall::Verified(0, RESET), STRAY, None, 0),
        ParentRow(ParentCall::Begin(0), ASK, Some(0), 0),
        ParentRow(ParentCall::Verified(1, RESET), STRAY, Some(0), 0),
        ParentRow(ParentCall::Verified(0, RESET), REFUSE, None, 0),
        ParentRow(ParentCall::Verified(0, RESET), STRAY, None, 0),
        ParentRow(ParentCall::Begin(2), ASK, Some(2), 0),
        ParentRow(
            ParentCall::Begin(4_294_967_295),
            ASK,
            Some(4_294_967_295),
            0,
        ),
        ParentRow(ParentCall::Verified(2, OK), STRAY, Some(4_294_967_295), 0),
        ParentRow(
            ParentCall::Verified(4_294_967_295, Status(1)),
            FOLLOW,
            None,
            0,
        ),
        ParentRow(ParentCall::Followed, ParentAnswer::Counted, None, 1),
    ];
    none_wrong(&rt, first_wrong_of_parent(&mut ParentHalf::new(), rows));
}
