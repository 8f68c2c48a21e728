// The delivery target of one channel, which its child keeps.

ghost use Rattle.std.specs.Prelude.{◌≡◌, ◌≤◌, OnOk, IfErr, None, Some};
ghost use Rattle.nk_base.specs.Queue.{IsTarget};
ghost use Rattle.nk_retarget.specs.Delivery.{at_first, target_of, refusal};

use crate::view::ChannelView;
use nk_base::{RetargetError, Target};
use std::marker::Model;

/// Whether the data of a channel may be delivered on a worker, and on which it is. After Firefox's `HttpChannelChild`,
/// whose ODA target is set once.
#[derive(Drop)]
pub struct Delivery {
    retargetable: bool,
    worker: Option<u8>,
}

impl Model for Delivery {
    ghost use Rattle.nk_base.specs.Queue.{IsTarget};
    ghost use Rattle.nk_retarget.specs.Delivery.{Delivering, target_of};

    ghost Value = { Delivering };

    ghost view = { λ s. record { retargetable = s.retargetable; worker = s.worker } };

    ghost invariant = { λ s. IsTarget (target_of s.worker) };
}

impl Delivery {
    /// Data is delivered on the main thread, and may or may not be moved.
    pub fn new(retargetable: bool) -> Delivery
        ensures { result ≡ at_first retargetable }
    {
        Delivery {
            retargetable,
            worker: None,
        }
    }

    /// Where data is delivered.
    pub fn target(&self) -> Target
        ensures target { result ≡ target_of self.now.worker }
        ensures is_target { IsTarget result }
    {
        match self.worker {
            None => Target::Main,
            Some(worker) => Target::Worker(worker),
        }
    }

    /// From now on data is delivered on this worker. Of several refusals the first one of `RetargetError` comes, and
    /// a refusal changes nothing.
    pub fn retarget(&mut self, view: ChannelView, worker: u8) -> Result<(), RetargetError>
        requires least { 1 ≤ worker }
        requires most { worker ≤ 16 }
        ensures ok { OnOk result (refusal view self.old ≡ None) }
        ensures moved { OnOk result (self.new ≡ record self.old { worker = Some worker }) }
        ensures err { IfErr result (λ e. (refusal view self.old ≡ Some e) × (self.new ≡ self.old)) }
    {
        if !view.opened {
            return Err(RetargetError::NotOpened);
        }
        if view.stopped {
            return Err(RetargetError::Stopped);
        }
        if view.status.is_failure() {
            return Err(RetargetError::Failed(view.status));
        }
        if !self.retargetable {
            return Err(RetargetError::NotRetargetable);
        }
        if let Some(old) = self.worker {
            return Err(RetargetError::AlreadyRetargeted(old));
        }
        self.worker = Some(worker);
        Ok(())
    }
}
