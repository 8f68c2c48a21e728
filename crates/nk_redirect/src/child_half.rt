// The child's half of a redirect: the question that was asked, and the answer to it.

ghost use Rattle.std.specs.Prelude.{◌≡◌, None, Some};
ghost use Rattle.nk_redirect.specs.Verdict.{verdict_answer, verdict_status};

use nk_base::Status;
use nk_plan::Verdict;
use std::marker::Model;

/// What a child answers on a redirect.
#[derive(Clone, Copy, Debug, Drop, PartialEq, Eq)]
pub enum Answer {
    /// The redirect of this hop is allowed, where the status is 0, or refused with it.
    Verify { hop: u32, status: Status },
    /// No question is open.
    Idle,
}

/// The question that a child was asked, or none. After Firefox's `HttpChannelChild`, whose OnRedirectVerifyCallback
/// answers it.
#[derive(Drop)]
pub struct ChildHalf {
    question: Option<u32>,
}

impl Model for ChildHalf {
    ghost use Rattle.std.specs.Prelude.{Option, ℕ};

    ghost Value = { Option ℕ };

    ghost view = { λ s. s.question };
}

impl ChildHalf {
    /// No question is open.
    pub fn new() -> ChildHalf
        ensures { result ≡ None }
    {
        ChildHalf { question: None }
    }

    /// Opens the question on this hop, in the place of an earlier one.
    pub fn begin(&mut self, hop: u32)
        ensures { self.new ≡ Some hop }
    {
        self.question = Some(hop);
    }

    /// The hop of the open question.
    pub fn asked(&self) -> Option<u32>
        ensures { result ≡ self.now }
    {
        self.question
    }

    /// What the open question is answered: the given status where that is a failure, else the verdict.
    pub fn answer(&self, status: Status, verdict: Verdict) -> Answer
        ensures { result ≡ verdict_answer self.now status verdict }
    {
        match self.question {
            None => Answer::Idle,
            Some(hop) => {
                let status = verdict_status(status, verdict);
                Answer::Verify { hop, status }
            }
        }
    }

    /// Answers the open question and closes it: with the given status where that is a failure, else by the verdict.
    pub fn verdict(&mut self, status: Status, verdict: Verdict) -> Answer
        ensures answer { result ≡ verdict_answer self.old status verdict }
        ensures closed { self.new ≡ None }
    {
        let answer = self.answer(status, verdict);
        self.question = None;
        answer
    }
}

/// The status that is sent for this verdict, where this failure, or 0, is kept.
fn verdict_status(status: Status, verdict: Verdict) -> Status
    ensures { result ≡ verdict_status status verdict }
{
    if status.is_failure() {
        return status;
    }
    match verdict {
        Verdict::Allow => Status::OK,
        Verdict::Veto(veto) => veto,
    }
}
