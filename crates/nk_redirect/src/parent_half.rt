// The parent's half of a redirect: whether it is asked about, and what becomes of the answer.

ghost use Rattle.std.specs.Prelude.{◌≡◌, ◌<◌, ◌≤◌, ◌+◌};
ghost use Rattle.nk_redirect.specs.Asking.{never_asked, begin_answer, begun, verified_answer, verified};

use nk_base::Status;
use std::marker::Model;

/// Whether a redirect is asked about.
#[derive(Clone, Copy, Debug, Drop, PartialEq, Eq)]
pub enum Begin {
    /// The question on its hop is open.
    Ask,
    /// 20 redirects were followed: it is refused.
    Loop,
}

/// What becomes of an answer on a redirect.
#[derive(Clone, Copy, Debug, Drop, PartialEq, Eq)]
pub enum Verified {
    /// The redirect is followed.
    Follow,
    /// It is refused with this status, a failure.
    Refuse(Status),
    /// No question on that hop is open.
    Stray,
}

/// The question that a parent has asked, and the number of redirects that it has followed. After Firefox's
/// `HttpChannelParentListener`, whose mRedirectChannelId names the question.
#[derive(Drop)]
pub struct ParentHalf {
    question: Option<u32>,
    followed: u32,
}

impl Model for ParentHalf {
    ghost use Rattle.std.specs.Prelude.{◌≤◌};
    ghost use Rattle.nk_redirect.specs.Asking.{Asking};

    ghost Value = { Asking };

    ghost view = { λ s. record { question = s.question; followed = s.followed } };

    ghost invariant = { λ s. s.followed ≤ 20 };
}

impl ParentHalf {
    /// The most redirects that are followed.
    pub const MOST: u32 = 20;

    /// No question is open, and no redirect was followed.
    pub fn new() -> ParentHalf
        ensures { result ≡ never_asked }
    {
        ParentHalf {
            question: None,
            followed: 0,
        }
    }

    /// A redirect came as this hop: opens the question on it, unless 20 were followed. Then nothing changes.
    pub fn begin(&mut self, hop: u32) -> Begin
        ensures answer { result ≡ begin_answer self.old }
        ensures state { self.new ≡ begun hop self.old }
    {
        if self.followed == ParentHalf::MOST {
            return Begin::Loop;
        }
        self.question = Some(hop);
        Begin::Ask
    }

    /// The child's answer on this hop: 0, or why the redirect is refused. It closes the question on this hop; where
    /// none is open, nothing changes.
    pub fn verified(&mut self, hop: u32, status: Status) -> Verified
        ensures answer { result ≡ verified_answer hop status self.old }
        ensures state { self.new ≡ verified hop self.old }
    {
        if self.question != Some(hop) {
            return Verified::Stray;
        }
        self.question = None;
        if status.is_failure() {
            Verified::Refuse(status)
        } else {
            Verified::Follow
        }
    }

    /// A redirect was followed.
    pub fn followed(&mut self)
        requires { self.old.followed < 20 }
        ensures { self.new ≡ record self.old { followed = self.old.followed + 1 } }
    {
        self.followed += 1;
    }

    /// The hop of the open question.
    pub fn asked(&self) -> Option<u32>
        ensures { result ≡ self.now.question }
    {
        self.question
    }

    /// The number of redirects that were followed.
    pub fn count(&self) -> u32
        ensures count { result ≡ self.now.followed }
        ensures most { result ≤ 20 }
    {
        self.followed
    }
}
