// What the lines of a script say so far.

ghost use Rattle.std.specs.Prelude.{◌≡◌, ◌≤◌, nat_lt, length, OnOk};
ghost use Rattle.nk_script.specs.Order.{behind};
ghost use Rattle.nk_script.specs.Draft.{start, told, after, is_within, is_hop_within, is_piece_within, is_listener_within, IsSoundListener, size_of, read_of, channel_count, response_count, plans_of, IsComplete, IsSound};
ghost use Rattle.nk_script.specs.Grammar.{script_of};
ghost use Rattle.nk_plan.specs.Accepted.{rounded_up};

use crate::draft::Draft;
use crate::line::{HopLine, Line, Place};
use crate::script::Steps;
use nk_base::{Fields, Memory, Piece};
use nk_plan::{ChannelPlan, Finish, ListenerKind, Plans};
use std::alloc::Global;

/// The most channels of a script.
const MOST_CHANNELS: usize = 1024;

/// The most pieces of a script.
const MOST_PIECES: u32 = 262_144;

/// The most body bytes of a script.
const MOST_BYTES: u32 = 67_108_864;

/// The most bytes that the readers of all listeners read.
const MOST_READ: u64 = 134_217_728;

/// The most steps of a schedule.
const MOST_STEPS: usize = 1_000_000;

/// A script, as far as its lines have come. This project's own.
#[derive(Drop)]
pub struct Reader {
    /// Where the next line stands.
    pub place: Place,
    /// The plans of the channels that are complete.
    pub plans: Plans,
    /// The channel that is not.
    pub draft: Option<Draft>,
    /// The steps so far.
    pub schedule: Steps,
    /// The pieces of all bodies.
    pub pieces: u32,
    /// The bytes of all bodies.
    pub bytes: u32,
    /// The bytes that the readers of all listeners read.
    pub read: u32,
}

impl Place {
    // The place behind a line that stands here.
    pub(crate) fn behind(self, line: &Line) -> Place
        ensures { result ≡ behind self line.now }
    {
        match line {
            Line::Script => Place::Channels,
            Line::Channel => Place::Hop,
            Line::Hop(HopLine::Fail(_)) => Place::Listener,
            Line::Hop(HopLine::Redirect { .. }) => Place::Hop,
            Line::Hop(HopLine::Response(_)) => Place::Fields,
            Line::Field(_) => Place::Fields,
            Line::Piece(_) => Place::Pieces,
            Line::End(Finish::Good) => Place::Trailers,
            Line::End(Finish::Fail(_)) => Place::Listener,
            Line::Trailer(_) => Place::Trailers,
            Line::Listener(_) => Place::Retargetable,
            Line::NotRetargetable => Place::Window,
            Line::Window(_) => Place::StartLane,
            Line::StartBack => Place::Closed,
            Line::Closed => Place::ClosedReactions,
            Line::Reaction(_) => self.behind_reaction(),
            Line::Control(_) => Place::Controls,
            Line::Schedule => Place::Steps,
            Line::Step(_) => Place::Steps,
        }
    }
}

impl Reader {
    /// Before the first line.
    pub(crate) fn new(alloc: Global) -> Reader
        ensures { result ≡ start }
    {
        Reader {
            place: Place::Start,
            plans: Plans::new(alloc),
            draft: None,
            schedule: Steps::new(alloc),
            pieces: 0,
            bytes: 0,
            read: 0,
        }
    }

    // Whether one more channel may come.
    fn has_room_for_channel(&self) -> bool
        ensures { result ≡ nat_lt (length (plans_of self.now)) 1024 }
    {
        match &self.draft {
            Some(_) => self.plans.len() < MOST_CHANNELS - 1,
            None => self.plans.len() < MOST_CHANNELS,
        }
    }

    // The body bytes of the channel.
    pub(crate) fn size(&self) -> u64
        ensures size { result ≡ size_of self.now }
        ensures bounded { result ≤ 8589934592 }
    {
        match &self.draft {
            Some(draft) => draft.size(),
            None => 0,
        }
    }

    // Closes the last channel, if there is one.
    pub(crate) fn close_channel(&mut self) -> Result<(), Memory>
        requires { IsComplete self.old }
        ensures { OnOk result (self.new ≡ told self.old Line.Schedule) }
    {
        if let Some(draft) = self.draft.take() {
            self.plans.push(draft.into_plan()?)?;
        }
        Ok(())
    }

    // Whether the line is not one too many, and makes no body and no listener too large.
    pub(crate) fn is_within(&self, line: &Line) -> bool
        requires { IsSound line.now }
        ensures { result ≡ is_within self.now line.now }
    {
        match line {
            Line::Channel => self.has_room_for_channel(),
            Line::Hop(hop) => self.is_hop_within(hop),
            Line::Field(_) => self.fields() < Fields::MOST,
            Line::Piece(piece) => self.is_piece_within(piece),
            Line::Trailer(_) => self.trailers() < Fields::MOST,
            Line::Listener(listener) => self.is_listener_within(listener),
            Line::Reaction(_) => self.reactions() < ChannelPlan::MOST_CALLS,
            Line::Control(_) => self.controls() < ChannelPlan::MOST_CALLS,
            Line::Step(_) => self.schedule.len() < MOST_STEPS,
            Line::Script => true,
            Line::End(_) => true,
            Line::NotRetargetable => true,
            Line::Window(_) => true,
            Line::StartBack => true,
            Line::Closed => true,
            Line::Schedule => true,
        }
    }

    // A redirect is not the last hop that a channel may have.
    fn is_hop_within(&self, hop: &HopLine) -> bool
        ensures { result ≡ is_hop_within self.now hop.now }
    {
        match hop {
            HopLine::Fail(_) => true,
            HopLine::Redirect { .. } => self.hops() < ChannelPlan::MOST_HOPS - 1,
            HopLine::Response(_) => true,
        }
    }

    fn is_piece_within(&self, piece: &Piece) -> bool
        ensures { result ≡ is_piece_within self.now piece.now }
    {
        let size = piece.size();
        self.pieces_of_body() < ChannelPlan::MOST_PIECES
            && self.pieces < MOST_PIECES
            && self.bytes <= MOST_BYTES - size
    }

    fn is_listener_within(&self, listener: &ListenerKind) -> bool
        requires { IsSoundListener listener.now }
        ensures { result ≡ is_listener_within self.now listener.now }
    {
        match listener {
            ListenerKind::Plain => true,
            ListenerKind::Pipe {
                segment,
                readers,
                ..
            } => {
                let read = u64::from(*readers) * self.size();
                let segment = u64::from(*segment);
                read / segment + (read % segment).min(1) <= ChannelPlan::MOST_SEGMENTS_READ
                    && read <= MOST_READ
                    && u64::from(self.read) <= MOST_READ - read
            }
        }
    }

    fn hops(&self) -> usize
        ensures { result ≡ channel_count (λ d. length d.hops) self.now }
    {
        match &self.draft {
            Some(draft) => draft.hops.len(),
            None => 0,
        }
    }

    fn fields(&self) -> usize
        ensures { result ≡ channel_count (response_count (λ s. length s.fields)) self.now }
    {
        match &self.draft {
            Some(draft) => draft.fields(),
            None => 0,
        }
    }

    fn pieces_of_body(&self) -> usize
        ensures { result ≡ channel_count (response_count (λ s. length s.pieces)) self.now }
    {
        match &self.draft {
            Some(draft) => draft.pieces(),
            None => 0,
        }
    }

    fn trailers(&self) -> usize
        ensures { result ≡ channel_count (response_count (λ s. length s.trailers)) self.now }
    {
        match &self.draft {
            Some(draft) => draft.trailers(),
            None => 0,
        }
    }

    fn reactions(&self) -> usize
        ensures { result ≡ channel_count (λ d. length d.reactions) self.now }
    {
        match &self.draft {
            Some(draft) => draft.reactions.len(),
            None => 0,
        }
    }

    fn controls(&self) -> usize
        ensures { result ≡ channel_count (λ d. length d.controls) self.now }
    {
        match &self.draft {
            Some(draft) => draft.controls.len(),
            None => 0,
        }
    }
}
