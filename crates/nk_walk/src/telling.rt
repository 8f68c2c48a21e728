// What a child's journal tells of the messages that the child sent, entry by entry.

ghost use Rattle.std.specs.Prelude.{◌≡◌, ◌+◌, ◌<◌, ◌^◌};
ghost use Rattle.nk_plan.specs.Telling.{new_telling, sends_at, telling_after};
ghost use Rattle.nk_walk.specs.Listed.{listed};

use nk_base::UpMsg;
use nk_plan::ChildEntry;
use std::marker::Model;

/// What the entries of a child's journal tell so far: how many suspends are not resumed, whether a
/// failure is kept, and what the callback that runs sends when it returns. No plan is needed for it.
/// This project's own.
#[derive(Drop)]
pub struct Telling {
    suspends: usize,
    failed: bool,
    owed: Option<UpMsg>,
}

impl Model for Telling {
    ghost use Rattle.nk_plan.specs.Telling.{Telling};
    ghost use Rattle.nk_walk.specs.Listed.{listed};

    ghost Value = { Telling };

    ghost view = { λ s. record { suspends = s.suspends; failed = s.failed; owed = listed s.owed } };
}

impl Telling {
    /// No entries.
    pub fn new() -> Telling
        ensures { result ≡ new_telling }
    {
        Telling {
            suspends: 0,
            failed: false,
            owed: None,
        }
    }

    /// The message that the child sent with this entry, the next one, if it sent any.
    pub fn sends(&self, entry: &ChildEntry) -> Option<UpMsg>
        ensures { listed result ≡ sends_at self.now entry.now }
    {
        match *entry {
            ChildEntry::Open => Some(UpMsg::Open),
            ChildEntry::Suspend => {
                if self.suspends == 0 {
                    Some(UpMsg::Suspend)
                } else {
                    None
                }
            }
            ChildEntry::Resume => {
                if self.suspends == 1 {
                    Some(UpMsg::Resume)
                } else {
                    None
                }
            }
            ChildEntry::Cancel(status) => Some(UpMsg::Cancel { status }),
            ChildEntry::Break(_) => None,
            ChildEntry::Retarget(_) => None,
            ChildEntry::NoRetarget(_) => None,
            ChildEntry::NoEffect => None,
            ChildEntry::Verdict { hop, status } => Some(UpMsg::Verify { hop, status }),
            ChildEntry::TookMain(_) => None,
            ChildEntry::TookBack(_) => None,
            ChildEntry::Release(_) => None,
            ChildEntry::RunStart { .. } => None,
            ChildEntry::RunBytes { .. } => None,
            ChildEntry::RunDrop { .. } => None,
            ChildEntry::RunStop { .. } => None,
            ChildEntry::RunRedirect1 { .. } => None,
            ChildEntry::RunRedirect3 { .. } => None,
            ChildEntry::RunCancel { status, .. } => {
                if self.failed {
                    None
                } else {
                    Some(UpMsg::Cancel { status })
                }
            }
            ChildEntry::HandOver { .. } => None,
            ChildEntry::Ended(_) => None,
            ChildEntry::Complete(_) => None,
            ChildEntry::Finish(_) => self.owed,
            ChildEntry::Prepend(_) => None,
        }
    }

    /// Takes the next entry into account. A journal in memory has fewer than 2^64 entries, so whoever
    /// notes those of one journal can tell that the count of suspends does not wrap.
    pub fn note(&mut self, entry: &ChildEntry)
        requires { self.old.suspends + 1 < 2 ^ 64 }
        ensures { self.new ≡ telling_after self.old entry.now }
    {
        match *entry {
            ChildEntry::Open => {}
            ChildEntry::Suspend => self.suspends += 1,
            ChildEntry::Resume => self.suspends = self.suspends.saturating_sub(1),
            ChildEntry::Cancel(status) => self.failed = self.failed || status.is_failure(),
            ChildEntry::Break(status) => self.failed = self.failed || status.is_failure(),
            ChildEntry::Retarget(_) => {}
            ChildEntry::NoRetarget(_) => {}
            ChildEntry::NoEffect => {}
            ChildEntry::Verdict { .. } => {}
            ChildEntry::TookMain(_) => {}
            ChildEntry::TookBack(_) => {}
            ChildEntry::Release(_) => {}
            ChildEntry::RunStart { status, .. } => {
                self.failed = self.failed || status.is_failure();
                self.owed = None;
            }
            ChildEntry::RunBytes { length, .. } => {
                self.owed = Some(UpMsg::BytesRead { count: length });
            }
            ChildEntry::RunDrop { status, .. } => {
                self.failed = self.failed || status.is_failure();
            }
            ChildEntry::RunStop { status, .. } => {
                self.failed = self.failed || status.is_failure();
                self.owed = Some(UpMsg::Deleting);
            }
            ChildEntry::RunRedirect1 { .. } => {}
            ChildEntry::RunRedirect3 { .. } => {}
            ChildEntry::RunCancel { status, .. } => {
                self.failed = self.failed || status.is_failure();
            }
            ChildEntry::HandOver { .. } => {}
            ChildEntry::Ended(_) => {}
            ChildEntry::Complete(_) => {}
            ChildEntry::Finish(_) => self.owed = None,
            ChildEntry::Prepend(_) => {}
        }
    }
}
