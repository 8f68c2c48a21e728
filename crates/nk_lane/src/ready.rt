// A frame that is known to be a message's.

ghost use Rattle.std.specs.Prelude.{◌≡◌, true, is_some};

use nk_wire::{Frame, Framed};
use std::marker::PhantomData;

/// A frame of a message of this kind.
#[derive(Drop)]
pub(crate) struct Ready<M: Framed> {
    pub(crate) frame: Frame,
    of: PhantomData<M>,
    ghost spelled: { is_some (M.read frame) ≡ true },
}

impl<M: Framed> Ready<M> {
    pub(crate) fn new(frame: Frame) -> Ready<M>
        requires { is_some (M.read frame) ≡ true }
        ensures { result.frame ≡ frame }
    {
        Ready {
            frame,
            of: PhantomData,
        }
    }
}
