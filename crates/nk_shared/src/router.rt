// The frames of one lane onto many.

ghost use Rattle.std.specs.Prelude.{◌≡◌, ℕ, List, Some, take};
ghost use Rattle.nk_lane.specs.Ends.{sent_on, send_capacity, taken_from};
ghost use Rattle.nk_lane.specs.declared.ends.SendEnd.{SendEnd};
ghost use Rattle.nk_shared.specs.Of.{of};
ghost use Rattle.nk_shared.specs.Live.{item_at};

use crate::desk::Desk;
use crate::routed::Routed;
use crate::tagged::{Tagged, TaggedAs};
use nk_lane::{Protocol, SendEnd, TakeEnd};
use nk_wire::Frame;

/// Moves frames from one lane onto that of the id that each has. What was sent on the end of a live id is the first part of what
/// came under that id, as much as the end's capacity. In the place of the receiving side of Firefox's PNecko.
#[derive(Drop)]
pub struct Router<P: Protocol<Frame>, Q: TaggedAs<P>> {
    pub(crate) from: TakeEnd<Tagged, Q>,
    pub(crate) desk: Desk<SendEnd<Frame, P>>,
    ghost projected: { (id : ℕ) (end_of : SendEnd (List ℕ) P) → item_at desk id ≡ Some end_of → sent_on end_of ≡ take (send_capacity end_of) (of id (taken_from from)) },
}

impl<P: Protocol<Frame>, Q: TaggedAs<P>> Router<P, Q> {
    ghost use Rattle.std.specs.Prelude.{◌≡◌, ◌≢◌, ◌<◌, ℕ, List, Some, [], length, take};
    ghost use Rattle.nk_lane.specs.Ends.{sent_on, send_capacity, taken_from, take_capacity, left_known, SameTakeEnd};
    ghost use Rattle.nk_lane.specs.declared.ends.SendEnd.{SendEnd};
    ghost use Rattle.nk_shared.specs.Of.{of};
    ghost use Rattle.nk_shared.specs.Live.{item_at};
    ghost use Rattle.nk_shared.specs.Routes.{RoutedBy};
    ghost use Rattle.nk_shared.specs.declared.routed.Routed.TheVariants.{Idle};

    /// A router that takes from this end, and sends on the ends of this desk.
    pub fn new(from: TakeEnd<Tagged, Q>, desk: Desk<SendEnd<Frame, P>>) -> Router<P, Q>
        requires from { taken_from from ≡ [] }
        requires desk { (id : ℕ) (end_of : SendEnd (List ℕ) P) → item_at desk id ≡ Some end_of → sent_on end_of ≡ [] }
        ensures parts { (result.from ≡ from) × (result.desk ≡ desk) }
    {
        Router { from, desk }
    }

    /// Takes the next frame, and sends it on the end of its id. It takes no memory, and a look-up in the desk is all that
    /// it costs.
    pub fn turn(&mut self) -> Routed
        ensures routed { RoutedBy self.old.from self.new.from self.old.desk self.new.desk result }
        ensures known { 0 < length (left_known self.old.from) → length (taken_from self.old.from) < take_capacity self.old.from → result ≢ Idle }
        ensures from_end { SameTakeEnd self.old.from self.new.from }
    {
        match self.from.take() {
            Some(tagged) => {
                let Tagged { id, frame } = tagged;
                match self.desk.slot(id) {
                    Ok(end) => {
                        if end.room() == 0 {
                            return Routed::Full(id);
                        }
                        end.send(frame);
                        Routed::Did(id)
                    }
                    Err(_) => Routed::Stray(id),
                }
            }
            None => Routed::Idle,
        }
    }

    /// The end and the desk as they are.
    pub fn into_parts(self) -> (TakeEnd<Tagged, Q>, Desk<SendEnd<Frame, P>>)
        ensures parts { (result.0 ≡ self.from) × (result.1 ≡ self.desk) }
        ensures projected { (id : ℕ) (end_of : SendEnd (List ℕ) P) → item_at result.1 id ≡ Some end_of → sent_on end_of ≡ take (send_capacity end_of) (of id (taken_from result.0)) }
    {
        let Router { from, desk } = self;
        (from, desk)
    }
}
