// What a pipe does with its segments: bytes go in and out, and readers come and go.

ghost use Rattle.std.specs.Prelude.{◌≡◌, ◌+◌, ◌<◌, ◌≤◌, ◌++◌, IfSome, length, take, drop};
ghost use Rattle.nk_segments.specs.Places.{IsLive, item_at};
ghost use Rattle.nk_segments.specs.Segments.{changed_at, with_bytes, AreSegments};
ghost use Rattle.nk_pipe.specs.Laid.{HeldAt, released_at, MayHoldAt, held_at, KeepsSegments};

use nk_segments::{Place, Segments};

/// Copies the bytes of a segment from an offset on, as many as the buffer takes.
pub(crate) fn copy_out(segments: &Segments, place: Place, offset: u32, buffer: &mut [u8]) -> usize
    requires live { IsLive segments.now.segments place }
    requires within { offset < segments.now.size }
    requires some { 0 < length buffer.old }
    ensures some { 0 < result }
    ensures most { result ≤ length buffer.old }
    ensures fits { offset + result ≤ segments.now.size }
    ensures copied { IfSome (item_at segments.now.segments place) (λ s. buffer.new ≡ take result (drop offset s.bytes) ++ drop result buffer.old) }
{
    let rest = &segments.bytes(place)[offset as usize..];
    let n = buffer.len().min(rest.len());
    buffer[..n].copy_from_slice(&rest[..n]);
    n
}

/// Puts the first bytes into a segment from an offset on, as many as it takes.
pub(crate) fn put_in(
    segments: &mut Segments,
    place: Place,
    offset: u32,
    size: u32,
    bytes: &[u8],
) -> usize
    requires live { IsLive segments.old.segments place }
    requires size { size ≡ segments.old.size }
    requires within { offset < size }
    requires some { 0 < length bytes.now }
    ensures some { 0 < result }
    ensures most { result ≤ length bytes.now }
    ensures fits { offset + result ≤ size }
    ensures put { segments.new ≡ record segments.old { segments = changed_at (with_bytes offset (take result bytes.now)) segments.old.segments place } }
    ensures told { AreSegments segments.new.size segments.new.segments }
{
    let n = bytes.len().min((size - offset) as usize);
    segments.put(place, offset, &bytes[..n]);
    n
}

/// A reader that stands at this place is closed.
pub(crate) fn release(segments: &mut Segments, place: Option<Place>)
    requires { HeldAt segments.old.segments place }
    ensures released { segments.new ≡ record segments.old { segments = released_at segments.old.segments place } }
    ensures told { KeepsSegments segments.old segments.new }
{
    if let Some(place) = place {
        segments.release(place);
    }
}

/// One more reader stands at this place.
pub(crate) fn hold(segments: &mut Segments, place: Option<Place>)
    requires { MayHoldAt segments.old.segments place }
    ensures held { segments.new ≡ record segments.old { segments = held_at segments.old.segments place } }
    ensures told { KeepsSegments segments.old segments.new }
{
    if let Some(place) = place {
        segments.hold(place);
    }
}
