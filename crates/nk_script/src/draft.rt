// The channel that the lines read so far describe, until the next channel begins or the channels end.

ghost use Rattle.std.specs.Prelude.{◌≡◌, ◌++◌, ◌∷◌, ◌+◌, ◌≤◌, ◌<◌, [], true, length, option_to_list, OnOk, IfOk};
ghost use Rattle.std.specs.Option.{option_map};
ghost use Rattle.nk_base.specs.Fields.{is_good_field};
ghost use Rattle.nk_plan.specs.Accepted.{Accepted};
ghost use Rattle.nk_script.specs.Draft.{hop_of, plan_of, new_draft, new_response, with_hop, with_response, response_count, IsGoodCode};

use crate::line::HopLine;
use nk_base::{Field, Fields, Head, Memory, Piece};
use nk_plan::{
    ChannelPlan, Controls, Finish, Hop, Hops, ListenerKind, Pieces, Reactions, StartLane,
};
use std::alloc::Global;
use std::marker::Model;

/// A response, as far as its lines have come. This project's own.
#[derive(Drop)]
pub struct Response {
    code: u16,
    fields: Fields,
    pieces: Pieces,
    size: u64,
    finish: Finish,
    trailers: Fields,
}

impl Model for Response {
    ghost use Rattle.nk_script.specs.Responses.{ResponseParts, IsGoodResponse};

    ghost Value = { ResponseParts };

    ghost view = { λ s. record { code = s.code; fields = s.fields; pieces = s.pieces; size = s.size; finish = s.finish; trailers = s.trailers } };

    ghost invariant = { λ s. IsGoodResponse (record { code = s.code; fields = s.fields; pieces = s.pieces; size = s.size; finish = s.finish; trailers = s.trailers }) };
}

impl Response {
    /// A response with this code, 100 to 999, and nothing else yet.
    pub fn new(alloc: Global, code: u16) -> Response
        requires least { 100 ≤ code }
        requires most { code ≤ 999 }
        ensures { result ≡ new_response code }
    {
        Response {
            code,
            fields: Fields::new(alloc),
            pieces: Pieces::new(alloc),
            size: 0,
            finish: Finish::Good,
            trailers: Fields::new(alloc),
        }
    }

    /// The number of fields so far.
    pub fn fields(&self) -> usize
        ensures { result ≡ length self.now.fields }
    {
        self.fields.len()
    }

    /// The number of pieces so far.
    pub fn pieces(&self) -> usize
        ensures { result ≡ length self.now.pieces }
    {
        self.pieces.len()
    }

    /// The bytes of the pieces so far.
    pub fn size(&self) -> u64
        ensures size { result ≡ self.now.size }
        ensures bounded { result ≤ 8589934592 }
    {
        self.size
    }

    /// The number of trailers so far.
    pub fn trailers(&self) -> usize
        ensures { result ≡ length self.now.trailers }
    {
        self.trailers.len()
    }

    /// Adds a good field, where there are fewer than 64.
    pub fn add_field(&mut self, field: Field) -> Result<(), Memory>
        requires good { is_good_field field ≡ true }
        requires room { length self.old.fields < 64 }
        ensures { OnOk result (self.new ≡ record self.old { fields = self.old.fields ++ field ∷ [] }) }
    {
        self.fields.push(field)
    }

    /// Adds a piece, where there are fewer than 65,536.
    pub fn add_piece(&mut self, piece: Piece) -> Result<(), Memory>
        requires { length self.old.pieces < 65536 }
        ensures { OnOk result (self.new ≡ record self.old { pieces = self.old.pieces ++ piece ∷ []; size = self.old.size + length piece }) }
    {
        let size = piece.size();
        self.pieces.push(piece)?;
        self.size += u64::from(size);
        Ok(())
    }

    /// Sets how the body ends.
    pub fn set_finish(&mut self, finish: Finish)
        ensures { self.new ≡ record self.old { finish = finish } }
    {
        self.finish = finish;
    }

    /// Adds a trailer.
    pub fn add_trailer(&mut self, trailer: Field) -> Result<(), Memory>
        ensures { OnOk result (self.new ≡ record self.old { trailers = self.old.trailers ++ trailer ∷ [] }) }
    {
        self.trailers.push(trailer)
    }

    /// The hop that this is.
    pub fn into_hop(self) -> Hop
        ensures { result ≡ hop_of self }
    {
        match Head::new(self.code, self.fields) {
            Ok(head) => Hop::Response {
                head,
                pieces: self.pieces,
                finish: self.finish,
                trailers: self.trailers,
            },
            Err(_) => unreachable!(),
        }
    }
}

/// A channel, as far as its lines have come. This project's own.
#[derive(Drop)]
pub struct Draft {
    /// The hops before a response.
    pub hops: Hops,
    /// The last hop, where it is a response.
    pub response: Option<Response>,
    /// Its listener.
    pub listener: ListenerKind,
    /// Whether data may be delivered on a worker.
    pub retargetable: bool,
    /// What the listener does at its callbacks.
    pub reactions: Reactions,
    /// The calls of the page.
    pub controls: Controls,
    /// The bytes that may be under way.
    pub window: u32,
    /// Whether the channel is never opened.
    pub closed: bool,
    /// The lane of the start.
    pub start: StartLane,
}

impl Draft {
    /// A channel of which no line has come yet.
    pub fn new(alloc: Global) -> Draft
        ensures { result ≡ new_draft }
    {
        Draft {
            hops: Hops::new(alloc),
            response: None,
            listener: ListenerKind::Plain,
            retargetable: true,
            reactions: Reactions::new(alloc),
            controls: Controls::new(alloc),
            window: 1_048_576,
            closed: false,
            start: StartLane::Main,
        }
    }

    /// Adds a hop.
    pub fn add_hop(&mut self, alloc: Global, hop: HopLine) -> Result<(), Memory>
        requires { IsGoodCode hop }
        ensures { OnOk result (self.new ≡ with_hop hop self.old) }
    {
        match hop {
            HopLine::Fail(status) => self.hops.push(Hop::Fail(status)),
            HopLine::Redirect { code, verdict } => self.hops.push(Hop::Redirect { code, verdict }),
            HopLine::Response(code) => {
                self.response = Some(Response::new(alloc, code));
                Ok(())
            }
        }
    }

    /// The response's fields so far; none, where there is no response.
    pub fn fields(&self) -> usize
        ensures { result ≡ response_count (λ s. length s.fields) self.now }
    {
        match &self.response {
            Some(response) => response.fields(),
            None => 0,
        }
    }

    /// The response's pieces so far.
    pub fn pieces(&self) -> usize
        ensures { result ≡ response_count (λ s. length s.pieces) self.now }
    {
        match &self.response {
            Some(response) => response.pieces(),
            None => 0,
        }
    }

    /// The bytes of the response's pieces so far.
    pub fn size(&self) -> u64
        ensures size { result ≡ response_count (λ s. s.size) self.now }
        ensures bounded { result ≤ 8589934592 }
    {
        match &self.response {
            Some(response) => response.size(),
            None => 0,
        }
    }

    /// The response's trailers so far.
    pub fn trailers(&self) -> usize
        ensures { result ≡ response_count (λ s. length s.trailers) self.now }
    {
        match &self.response {
            Some(response) => response.trailers(),
            None => 0,
        }
    }

    /// Adds a good field to the response, where it has fewer than 64.
    pub fn add_field(&mut self, field: Field) -> Result<(), Memory>
        requires good { is_good_field field ≡ true }
        requires room { response_count (λ s. length s.fields) self.old < 64 }
        ensures { OnOk result (self.new ≡ with_response (λ s. record s { fields = s.fields ++ field ∷ [] }) self.old) }
    {
        if let Some(response) = &mut self.response {
            response.add_field(field)?;
        }
        Ok(())
    }

    /// Adds a piece to the response, where it has fewer than 65,536.
    pub fn add_piece(&mut self, piece: Piece) -> Result<(), Memory>
        requires { response_count (λ s. length s.pieces) self.old < 65536 }
        ensures { OnOk result (self.new ≡ with_response (λ s. record s { pieces = s.pieces ++ piece ∷ []; size = s.size + length piece }) self.old) }
    {
        if let Some(response) = &mut self.response {
            response.add_piece(piece)?;
        }
        Ok(())
    }

    /// Sets how the response's body ends.
    pub fn set_finish(&mut self, finish: Finish)
        ensures { self.new ≡ with_response (λ s. record s { finish = finish }) self.old }
    {
        if let Some(response) = &mut self.response {
            response.set_finish(finish);
        }
    }

    /// Adds a trailer to the response.
    pub fn add_trailer(&mut self, trailer: Field) -> Result<(), Memory>
        ensures { OnOk result (self.new ≡ with_response (λ s. record s { trailers = s.trailers ++ trailer ∷ [] }) self.old) }
    {
        if let Some(response) = &mut self.response {
            response.add_trailer(trailer)?;
        }
        Ok(())
    }

    /// The plan that the channel is, once its lines have come.
    pub(crate) fn into_plan(self) -> Result<ChannelPlan, Memory>
        requires { Accepted (plan_of self) }
        ensures { IfOk result (λ plan. plan ≡ plan_of self) }
    {
        let Draft {
            hops,
            response,
            listener,
            retargetable,
            reactions,
            controls,
            window,
            closed,
            start,
        } = self;
        let hops = all_hops(hops, response)?;
        let made = ChannelPlan::new(
            hops,
            listener,
            retargetable,
            reactions,
            controls,
            window,
            closed,
            start,
        );
        match made {
            Ok(plan) => Ok(plan),
            Err(_) => unreachable!(),
        }
    }
}

// The hops of a channel: those before the response, and the response, where there is one.
fn all_hops(mut hops: Hops, response: Option<Response>) -> Result<Hops, Memory>
    ensures { IfOk result (λ all. all ≡ hops ++ option_to_list (option_map hop_of response)) }
{
    if let Some(response) = response {
        hops.push(response.into_hop())?;
    }
    Ok(hops)
}
