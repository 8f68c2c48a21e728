// Where a reader or the writer stands in the segments.

ghost use Rattle.std.specs.Prelude.{◌≡◌, ◌<◌, IfSome};
ghost use Rattle.nk_segments.specs.Places.{IsLive, item_at};

use nk_segments::{Place, Segments};

/// A segment and an offset in it; no segment where the next byte has none yet.
#[derive(Clone, Copy, Drop)]
pub(crate) struct Cursor {
    pub(crate) place: Option<Place>,
    pub(crate) offset: u32,
}

impl Cursor {
    ghost use Rattle.nk_pipe.specs.Laid.{cursor_in, left_at, reaching, KeepsSegments};

    /// At this offset of a segment, or at the start of the next where that is the segment's end.
    pub(crate) fn within(segments: &Segments, place: Place, offset: u32, size: u32) -> Cursor
        requires { IsLive segments.now.segments place }
        ensures { result ≡ cursor_in size segments.now.segments place offset }
    {
        if offset < size {
            Cursor {
                place: Some(place),
                offset,
            }
        } else {
            Cursor {
                place: segments.next(place),
                offset: 0,
            }
        }
    }

    /// Where a reader comes to at this offset of its segment, which it leaves at the end.
    pub(crate) fn passing(segments: &mut Segments, place: Place, offset: u32, size: u32) -> Cursor
        requires live { IsLive segments.old.segments place }
        requires held { IfSome (item_at segments.old.segments place) (λ s. 0 < s.readers) }
        ensures cursor { result ≡ cursor_in size segments.old.segments place offset }
        ensures segments { segments.new ≡ record segments.old { segments = left_at size segments.old.segments place offset } }
        ensures told { KeepsSegments segments.old segments.new }
    {
        let cursor = Cursor::within(segments, place, offset, size);
        if size <= offset {
            segments.leave(place);
        }
        cursor
    }

    /// Once a segment was added behind the last one: in it, if it stood behind them all.
    pub(crate) fn reaching(self, place: Place) -> Cursor
        ensures { result ≡ reaching place self }
    {
        Cursor {
            place: match self.place {
                Some(own) => Some(own),
                None => Some(place),
            },
            offset: self.offset,
        }
    }
}
