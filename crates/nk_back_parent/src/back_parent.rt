// The background half of one parent.

ghost use Rattle.std.specs.Prelude.{◌≡◌, ◌++◌, ◌≤◌, ◌+◌, [], length, take, drop, OnOk, OnErr, IfOk};
ghost use Rattle.nk_back_parent.specs.Forward.{forward_answer, counted};

use nk_base::{BackMsg, Memory, Moved, Out, OutList};
use std::marker::Model;

/// The background half of a parent, and the number of messages that it has moved. After Firefox's
/// `HttpBackgroundChannelParent`.
#[derive(Drop)]
pub struct BackParent {
    count: usize,
}

impl Model for BackParent {
    ghost use Rattle.std.specs.Prelude.{ℕ};

    ghost Value = { ℕ };

    ghost view = { λ s. s.count };
}

impl BackParent {
    /// Nothing was moved yet.
    pub fn new() -> BackParent
        ensures { result ≡ 0 }
    {
        BackParent { count: 0 }
    }

    /// Moves the first message that was handed to it on to the background lane. It is `Idle` where there is none. On
    /// want of memory the message stays where it was.
    pub fn forward<B: Out<BackMsg>>(
        &mut self,
        inner: &mut OutList<BackMsg>,
        out: &mut B,
    ) -> Result<Moved, Memory>
        requires room { 1 ≤ B.room out.old }
        requires empty { B.staged out.old ≡ [] }
        ensures answer { IfOk result (λ r. r ≡ forward_answer inner.old.held) }
        ensures order { B.held out.new ++ inner.new.held ≡ B.held out.old ++ inner.old.held }
        ensures inner { OnOk result (inner.new ≡ record inner.old { held = drop 1 inner.old.held }) }
        ensures out { OnOk result (B.held out.new ≡ B.held out.old ++ take 1 inner.old.held) }
        ensures room { OnOk result (B.room out.new + length (take 1 inner.old.held) ≡ B.room out.old) }
        ensures staged { B.staged out.new ≡ [] }
        ensures count { OnOk result (self.new ≡ counted usize.MAX inner.old.held self.old) }
        ensures err { OnErr result (self.new ≡ self.old) }
        ensures err_inner { OnErr result (inner.new ≡ inner.old) }
        ensures err_out { OnErr result (B.held out.new ≡ B.held out.old) }
        ensures err_room { OnErr result (B.room out.new ≡ B.room out.old) }
    {
        let Some(first) = inner.first() else {
            return Ok(Moved::Idle);
        };
        out.stage(first.share()?)?;
        out.send_staged();
        inner.take();
        self.count = self.count.saturating_add(1);
        Ok(Moved::Did)
    }

    /// The number of messages that it has moved; from `usize::MAX` on it stays there.
    pub fn count(&self) -> usize
        ensures { result ≡ self.now }
    {
        self.count
    }
}
