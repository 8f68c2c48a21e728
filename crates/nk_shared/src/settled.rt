// A mux and a router on the two ends of one shared lane, in one thread.

ghost use Rattle.std.specs.Prelude.{◌≡◌, ℕ, List, Some, slice_get};
ghost use mathlib.Core.List.{IsPrefix};
ghost use Rattle.nk_lane.specs.declared.ends.SendEnd.{SendEnd};
ghost use Rattle.nk_lane.specs.Ends.{sent_on, taken_from, IsLane};
ghost use Rattle.nk_shared.specs.Live.{item_at};

use crate::mux::Mux;
use crate::router::Router;
use crate::tagged::Tags;
use nk_lane::{Protocol, settle};
use nk_wire::Frame;

/// With a mux and a router on the two ends of one lane in one thread: what the router sent on a live id's end is a first part of
/// what the mux took from the end of that id. It looks at the shared ring, and changes nothing else. This project's own.
pub fn settle_lanes<P: Protocol<Frame>>(mux: &mut Mux<P>, router: &mut Router<P, Tags<P>>)
    requires { IsLane mux.old.out router.old.from }
    ensures carried { (i id : ℕ) (from : _) (to : SendEnd (List ℕ) P) → slice_get mux.new.ids.items i ≡ Some id → slice_get mux.new.ends.items i ≡ Some from → item_at router.new.desk id ≡ Some to → IsPrefix (sent_on to) (taken_from from) }
    ensures mux_same { (mux.new.ids ≡ mux.old.ids) × (mux.new.ends ≡ mux.old.ends) × (sent_on mux.new.out ≡ sent_on mux.old.out) }
    ensures router_same { (router.new.desk ≡ router.old.desk) × (taken_from router.new.from ≡ taken_from router.old.from) }
{
    settle(&mut mux.out, &mut router.from);
}
