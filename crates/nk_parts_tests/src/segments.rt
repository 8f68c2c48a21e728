// The segments of a pipe: their order, their bytes, and when they are given back.

ghost use Rattle.std.specs.Prelude.{◌≡◌, []};
ghost use Rattle.nk_chain.specs.Chain.{IsLive};

use crate::rows::right;
use nk_chain::Place;
use nk_segments::Segments;
use std::alloc::Global;

/// Whether the second segment is behind the first.
fn is_behind(segments: &Segments, first: Place, second: Place) -> bool
    requires { IsLive segments.now.segments first }
{
    segments.next(first) == Some(second)
}

/// Whether a segment is the last one, and whether it has these bytes.
fn is_last_with(segments: &Segments, place: Place, bytes: &[u8]) -> [bool; 2]
    requires { IsLive segments.now.segments place }
{
    [
        segments.next(place).is_none(),
        segments.bytes(place) == bytes,
    ]
}

/// Whether of two segments the second is behind the first, is the last one once no reader needs the first, and has then
/// the bytes that were put there.
fn seen(segments: &mut Segments) -> Option<(bool, [bool; 2])>
    requires size { segments.old.size ≡ 4 }
    requires empty { segments.old.segments ≡ [] }
{
    let a = segments.add_back(1).ok()?;
    let b = segments.add_back(1).ok()?;
    let is_behind = is_behind(segments, a, b);
    segments.put(b, 1, b"xy");
    segments.hold(b);
    segments.leave(a);
    let is_last = is_last_with(segments, b, b"\0xy\0");
    segments.release(b);
    segments.leave(b);
    Some((is_behind, is_last))
}

#[test]
fn segments_no_reader_needs_are_given_back(rt: HostRuntime) {
    let seen = seen(&mut Segments::new(rt.alloc(), 4));
    right(&rt, seen == Some((true, [true; 2])));
}
