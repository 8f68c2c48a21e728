// One frame, from a channel's lane onto the shared one.

ghost use Rattle.std.specs.Prelude.{◌≡◌, ◌<◌, length};
ghost use Rattle.nk_lane.specs.Ends.{sent_on, send_capacity, taken_from, take_capacity, left_known, SameSendEnd, SameTakeEnd};
ghost use Rattle.nk_base.specs.declared.status.Moved.TheVariants.{Did};
ghost use Rattle.nk_shared.specs.Moves.{MovedBy};

use crate::tagged::{Tagged, Tags};
use nk_base::Moved;
use nk_lane::{Protocol, SendEnd, TakeEnd};
use nk_wire::Frame;

/// Moves the next frame of an end, under this id. `Idle` where the end gives none.
pub(crate) fn move_next<P: Protocol<Frame>>(
    id: u32,
    from: &mut TakeEnd<Frame, P>,
    out: &mut SendEnd<Tagged, Tags<P>>,
) -> Moved
    requires { length (sent_on out.old) < send_capacity out.old }
    ensures moved { MovedBy result id from.old from.new out.old out.new }
    ensures known { 0 < length (left_known from.old) → length (taken_from from.old) < take_capacity from.old → result ≡ Did }
    ensures from_end { SameTakeEnd from.old from.new }
    ensures out_end { SameSendEnd out.old out.new }
{
    match from.take() {
        Some(frame) => {
            out.send(Tagged { id, frame });
            Moved::Did
        }
        None => Moved::Idle,
    }
}
