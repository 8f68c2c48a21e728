// The first failure of one channel, which its parent and its child each keep.

ghost use Rattle.std.specs.Prelude.{◌≡◌, ◌&&◌, IfSome, None, is_none, true};
ghost use Rattle.nk_base.specs.Status.{is_failure, is_legal_status, merged, kept_status};
ghost use Rattle.nk_cancel.specs.First.{IsFailure};

use nk_base::Status;
use std::marker::Model;

/// The first failure of a channel, or none. After the mStatus of Firefox's `HttpBaseChannel`.
#[derive(Drop)]
pub struct First {
    kept: Option<Status>,
}

impl Model for First {
    ghost use Rattle.std.specs.Prelude.{Option};
    ghost use Rattle.nk_base.specs.declared.status.Status.{Status};
    ghost use Rattle.nk_cancel.specs.First.{IsFailureIfAny};

    ghost Value = { Option Status };

    ghost view = { λ s. s.kept };

    ghost invariant = { λ s. IsFailureIfAny s.kept };
}

impl First {
    /// No failure yet.
    pub fn new() -> First
        ensures { result ≡ None }
    {
        First { kept: None }
    }

    /// Keeps the status where it is a failure and none is kept, and answers whether it did.
    pub fn merge(&mut self, status: Status) -> bool
        ensures answer { result ≡ (is_none self.old && is_failure status) }
        ensures kept { self.new ≡ merged self.old status }
    {
        if self.kept.is_some() || !status.is_failure() {
            return false;
        }
        self.kept = Some(status);
        true
    }

    /// The failure that is kept, or 0 where there is none.
    pub fn get(&self) -> Status
        ensures kept { result ≡ kept_status self.now }
        ensures legal { is_legal_status result ≡ true }
    {
        self.kept.unwrap_or(Status::OK)
    }

    /// The failure that is kept.
    pub fn kept(&self) -> Option<Status>
        ensures kept { result ≡ self.now }
        ensures failure { IfSome result IsFailure }
    {
        self.kept
    }
}
