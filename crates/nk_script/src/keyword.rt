// The first words of lines, and where a line that begins with one may stand.

ghost use Rattle.std.specs.Prelude.{◌≡◌, Some, IfSome, MatchOption};
ghost use Rattle.nk_script.specs.declared.line.Keyword.{Keyword as AnyKeyword};
ghost use Rattle.nk_script.specs.Order.{IsKeyword, ends, from_control, from_reaction, from_closed_reaction, from_closed, from_start_lane, from_window, from_retargetable, from_listener, from_trailer, from_piece, from_field, is_script, is_channel, is_hop, allows, may_end, behind_reaction};

use crate::line::{Keyword, Place};
use crate::number::is_count;

// The keyword that the word is.
pub(crate) fn read_keyword(word: &[u8]) -> Option<Keyword>
    ensures keyword { IfSome result (IsKeyword word.now) }
    ensures each { (keyword : AnyKeyword) → IsKeyword word.now keyword → result ≡ Some keyword }
{
    if is_count(word) {
        return Some(Keyword::Number);
    }
    match str::from_utf8(word) {
        Ok(text) => read_named(text),
        Err(_) => None,
    }
}

// The keyword that the word is, where it is no number.
fn read_named(word: &str) -> Option<Keyword>
    ensures { MatchOption result ((keyword : AnyKeyword) → IsKeyword word.now keyword → keyword ≡ Keyword.Number) (IsKeyword word.now) }
{
    match word {
        "script" => Some(Keyword::Script),
        "channel" => Some(Keyword::Channel),
        "hop" => Some(Keyword::Hop),
        "field" => Some(Keyword::Field),
        "piece" => Some(Keyword::Piece),
        "hex" => Some(Keyword::Hex),
        "fill" => Some(Keyword::Fill),
        "end" => Some(Keyword::End),
        "trailer" => Some(Keyword::Trailer),
        "listener" => Some(Keyword::Listener),
        "retargetable" => Some(Keyword::Retargetable),
        "window" => Some(Keyword::Window),
        "start" => Some(Keyword::Start),
        "closed" => Some(Keyword::Closed),
        "at" => Some(Keyword::At),
        "when" => Some(Keyword::When),
        "schedule" => Some(Keyword::Schedule),
        _ => None,
    }
}

// Whether a line with this first word may stand at or behind a place of a channel.
impl Keyword {
    // Behind the controls.
    fn ends(self) -> bool
        ensures { result ≡ ends self }
    {
        matches!(self, Keyword::Channel | Keyword::Schedule)
    }

    // From the controls on.
    fn from_control(self) -> bool
        ensures { result ≡ from_control self }
    {
        matches!(self, Keyword::When) || self.ends()
    }

    // From the reactions of a closed channel on.
    fn from_closed_reaction(self) -> bool
        ensures { result ≡ from_closed_reaction self }
    {
        matches!(self, Keyword::At) || self.ends()
    }

    // From the reactions on.
    fn from_reaction(self) -> bool
        ensures { result ≡ from_reaction self }
    {
        matches!(self, Keyword::At) || self.from_control()
    }

    // From the option `closed` on.
    fn from_closed(self) -> bool
        ensures { result ≡ from_closed self }
    {
        matches!(self, Keyword::Closed) || self.from_reaction()
    }

    // From the option `start` on.
    fn from_start_lane(self) -> bool
        ensures { result ≡ from_start_lane self }
    {
        matches!(self, Keyword::Start) || self.from_closed()
    }

    // From the option `window` on.
    fn from_window(self) -> bool
        ensures { result ≡ from_window self }
    {
        matches!(self, Keyword::Window) || self.from_start_lane()
    }

    // From the option `retargetable` on.
    fn from_retargetable(self) -> bool
        ensures { result ≡ from_retargetable self }
    {
        matches!(self, Keyword::Retargetable) || self.from_window()
    }

    // From the option `listener` on.
    fn from_listener(self) -> bool
        ensures { result ≡ from_listener self }
    {
        matches!(self, Keyword::Listener) || self.from_retargetable()
    }

    // From the trailers on.
    fn from_trailer(self) -> bool
        ensures { result ≡ from_trailer self }
    {
        matches!(self, Keyword::Trailer) || self.from_listener()
    }

    // From the pieces on.
    fn from_piece(self) -> bool
        ensures { result ≡ from_piece self }
    {
        matches!(
            self,
            Keyword::Piece | Keyword::Hex | Keyword::Fill | Keyword::End
        )
    }

    // From the fields on.
    fn from_field(self) -> bool
        ensures { result ≡ from_field self }
    {
        matches!(self, Keyword::Field) || self.from_piece()
    }
}

impl Place {
    // Whether a line with this first word may stand here.
    pub(crate) fn allows(self, keyword: Keyword) -> bool
        ensures { result ≡ allows self keyword }
    {
        match self {
            Place::Start => matches!(keyword, Keyword::Script),
            Place::Channels => matches!(keyword, Keyword::Channel),
            Place::Hop => matches!(keyword, Keyword::Hop),
            Place::Fields => keyword.from_field(),
            Place::Pieces => keyword.from_piece(),
            Place::Trailers => keyword.from_trailer(),
            Place::Listener => keyword.from_listener(),
            Place::Retargetable => keyword.from_retargetable(),
            Place::Window => keyword.from_window(),
            Place::StartLane => keyword.from_start_lane(),
            Place::Closed => keyword.from_closed(),
            Place::Reactions => keyword.from_reaction(),
            Place::ClosedReactions => keyword.from_closed_reaction(),
            Place::Controls => keyword.from_control(),
            Place::Steps => matches!(keyword, Keyword::Number),
        }
    }

    // Whether a script may end here.
    pub(crate) fn may_end(self) -> bool
        ensures { result ≡ may_end self }
    {
        match self {
            Place::Start | Place::Channels | Place::Hop | Place::Fields | Place::Pieces => false,
            Place::Trailers | Place::Listener | Place::Retargetable | Place::Window => true,
            Place::StartLane | Place::Closed | Place::Reactions | Place::ClosedReactions => true,
            Place::Controls | Place::Steps => true,
        }
    }

    // The place behind a reaction that stands here.
    pub(crate) fn behind_reaction(self) -> Place
        ensures { result ≡ behind_reaction self }
    {
        match self {
            Place::ClosedReactions => Place::ClosedReactions,
            _ => Place::Reactions,
        }
    }
}
