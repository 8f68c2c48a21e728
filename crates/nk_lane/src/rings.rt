// A lane's two ends together.

ghost use Rattle.std.specs.Prelude.{◌≡◌, ◌++◌, [], IfOk};
ghost use Rattle.nk_lane.specs.Ends.{sent_on, send_capacity, SameSendEnd, taken_from, take_capacity, left_known, SameTakeEnd, IsLane};

use crate::ends::{SendEnd, TakeEnd};
use crate::protocol::{Protocol, Ruled};
use nk_base::Memory;
use rtrb::RingBuffer;
use std::alloc::Global;

/// A lane that carries so many items in all. In the place of Firefox's IPC channels; the ring is `rtrb`'s.
pub fn lane<T: Drop, P: Protocol<T>>(
    alloc: Global,
    capacity: u32,
) -> Result<(SendEnd<T, P>, TakeEnd<T, P>), Memory>
    ensures lane { IfOk result (λ r. IsLane r.0 r.1) }
    ensures sender { IfOk result (λ r. (sent_on r.0 ≡ []) × (send_capacity r.0 ≡ capacity)) }
    ensures taker { IfOk result (λ r. (taken_from r.1 ≡ []) × (take_capacity r.1 ≡ capacity)) }
{
    let ring = RingBuffer::with_protocol::<Global, Ruled<P>>(alloc, capacity as usize);
    let Ok((producer, consumer)) = ring else {
        return Err(Memory);
    };
    Ok((
        SendEnd::new(producer, capacity),
        TakeEnd::new(consumer, capacity),
    ))
}

/// With both ends in one thread: what was taken, and then what is left, is what was sent. It looks at the ring, so that all
/// that was sent is known to the taking end from then on, and changes nothing else.
pub fn settle<T: Drop, P: Protocol<T>>(s: &mut SendEnd<T, P>, t: &mut TakeEnd<T, P>)
    requires { IsLane s.old t.old }
    ensures sender { SameSendEnd s.old s.new × (sent_on s.new ≡ sent_on s.old) }
    ensures taker { SameTakeEnd t.old t.new × (taken_from t.new ≡ taken_from t.old) }
    ensures fifo { taken_from t.new ++ left_known t.new ≡ sent_on s.new }
{
    t.ring.slots_beside(&mut s.ring);
}
