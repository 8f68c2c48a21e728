// What one line of a script says, and the words that lines begin with.

use crate::script::ScheduleItem;
use nk_base::{Field, Piece, Status};
use nk_plan::{Control, Finish, ListenerKind, Reaction, Verdict};

/// What a line `hop ..` says. This project's own.
#[derive(Clone, Copy, Debug, Drop, PartialEq, Eq)]
pub enum HopLine {
    /// `hop fail S`
    Fail(Status),
    /// `hop redirect CODE allow`, `hop redirect CODE veto S`
    Redirect { code: u16, verdict: Verdict },
    /// `hop response CODE`
    Response(u16),
}

/// What a line of a script says, where it has one of the forms of the grammar. This project's own.
#[derive(Drop)]
pub enum Line {
    /// `script 1`
    Script,
    /// `channel`
    Channel,
    /// `hop ..`
    Hop(HopLine),
    /// `field NAME VALUE`
    Field(Field),
    /// `piece TEXT`, `hex HH..`, `fill HH COUNT`
    Piece(Piece),
    /// `end ok`, `end fail S`
    End(Finish),
    /// `trailer NAME VALUE`
    Trailer(Field),
    /// `listener plain`, `listener pipe SEGMENT LIMIT READERS`
    Listener(ListenerKind),
    /// `retargetable no`
    NotRetargetable,
    /// `window N`
    Window(u32),
    /// `start back`
    StartBack,
    /// `closed`
    Closed,
    /// `at ..`
    Reaction(Reaction),
    /// `when N ..`
    Control(Control),
    /// `schedule`
    Schedule,
    /// `CHANNEL STEP`
    Step(ScheduleItem),
}

/// The first word of a line. This project's own.
#[derive(Clone, Copy, Debug, Drop, PartialEq, Eq)]
pub enum Keyword {
    /// `script`
    Script,
    /// `channel`
    Channel,
    /// `hop`
    Hop,
    /// `field`
    Field,
    /// `piece`
    Piece,
    /// `hex`
    Hex,
    /// `fill`
    Fill,
    /// `end`
    End,
    /// `trailer`
    Trailer,
    /// `listener`
    Listener,
    /// `retargetable`
    Retargetable,
    /// `window`
    Window,
    /// `start`
    Start,
    /// `closed`
    Closed,
    /// `at`
    At,
    /// `when`
    When,
    /// `schedule`
    Schedule,
    /// A decimal number, as the lines behind `schedule` begin.
    Number,
}

/// Where in a script one stands: what may come next. This project's own.
#[derive(Clone, Copy, Debug, Drop, PartialEq, Eq)]
pub enum Place {
    /// Before the first line.
    Start,
    /// Behind the first line: a channel must come.
    Channels,
    /// A hop must come.
    Hop,
    /// Behind `hop response` or a field.
    Fields,
    /// Behind a piece.
    Pieces,
    /// Behind `end ok` or a trailer.
    Trailers,
    /// Behind the last hop.
    Listener,
    /// Behind the place of `listener`.
    Retargetable,
    /// Behind the place of `retargetable`.
    Window,
    /// Behind the place of `window`.
    StartLane,
    /// Behind the place of `start`.
    Closed,
    /// Behind the options of a channel that is opened.
    Reactions,
    /// Behind the options of a channel that is closed.
    ClosedReactions,
    /// Behind a control.
    Controls,
    /// Behind `schedule`.
    Steps,
}
