// What a line adds to the script that was read before it.

ghost use Rattle.std.specs.Prelude.{◌≡◌, ◌++◌, ◌∷◌, ◌+◌, ◌<◌, [], true, false, length, OnOk};
ghost use Rattle.nk_base.specs.Fields.{is_good_field};
ghost use Rattle.nk_plan.specs.declared.plan.StartLane.TheVariants as lane;
ghost use Rattle.nk_script.specs.Draft.{told, after, is_within, is_piece_within, is_listener_within, with_hop, in_draft, in_response, size_of, read_of, channel_count, response_count, plans_of, new_draft, IsComplete, EndsComplete, IsSound, IsSoundListener, IsGoodCode};

use crate::draft::Draft;
use crate::line::{HopLine, Line};
use crate::reader::Reader;
use nk_base::{Field, Memory, Piece};
use nk_plan::{Control, Finish, ListenerKind, Reaction, StartLane};
use std::alloc::Global;

impl Reader {
    // Takes in a line that can stand here.
    pub(crate) fn take(&mut self, alloc: Global, line: Line) -> Result<(), Memory>
        requires sound { IsSound line }
        requires within { is_within self.old line ≡ true }
        requires complete { EndsComplete self.old line }
        ensures { OnOk result (self.new ≡ after self.old line) }
    {
        let place = self.place.behind(&line);
        self.tell(alloc, line)?;
        self.place = place;
        Ok(())
    }

    fn tell(&mut self, alloc: Global, line: Line) -> Result<(), Memory>
        requires sound { IsSound line }
        requires within { is_within self.old line ≡ true }
        requires complete { EndsComplete self.old line }
        ensures { OnOk result (self.new ≡ told self.old line) }
    {
        match line {
            Line::Script => Ok(()),
            Line::Channel => self.open_channel(alloc),
            Line::Hop(hop) => self.add_hop(alloc, hop),
            Line::Field(field) => self.add_field(field),
            Line::Piece(piece) => self.add_piece(piece),
            Line::End(finish) => {
                self.set_finish(finish);
                Ok(())
            }
            Line::Trailer(trailer) => self.add_trailer(trailer),
            Line::Listener(listener) => {
                self.set_listener(listener);
                Ok(())
            }
            Line::NotRetargetable => {
                self.set_not_retargetable();
                Ok(())
            }
            Line::Window(window) => {
                self.set_window(window);
                Ok(())
            }
            Line::StartBack => {
                self.set_start_back();
                Ok(())
            }
            Line::Closed => {
                self.set_closed();
                Ok(())
            }
            Line::Reaction(reaction) => self.add_reaction(reaction),
            Line::Control(control) => self.add_control(control),
            Line::Schedule => self.close_channel(),
            Line::Step(item) => self.schedule.push(item),
        }
    }

    fn open_channel(&mut self, alloc: Global) -> Result<(), Memory>
        requires { IsComplete self.old }
        ensures { OnOk result (self.new ≡ told self.old Line.Channel) }
    {
        self.close_channel()?;
        self.draft = Some(Draft::new(alloc));
        Ok(())
    }

    fn add_hop(&mut self, alloc: Global, hop: HopLine) -> Result<(), Memory>
        requires { IsGoodCode hop }
        ensures { OnOk result (self.new ≡ told self.old (Line.Hop hop)) }
    {
        if let Some(draft) = &mut self.draft {
            draft.add_hop(alloc, hop)?;
        }
        Ok(())
    }

    fn add_field(&mut self, field: Field) -> Result<(), Memory>
        requires good { is_good_field field ≡ true }
        requires within { is_within self.old (Line.Field field) ≡ true }
        ensures { OnOk result (self.new ≡ told self.old (Line.Field field)) }
    {
        if let Some(draft) = &mut self.draft {
            draft.add_field(field)?;
        }
        Ok(())
    }

    fn add_piece(&mut self, piece: Piece) -> Result<(), Memory>
        requires { is_within self.old (Line.Piece piece) ≡ true }
        ensures { OnOk result (self.new ≡ told self.old (Line.Piece piece)) }
    {
        let size = piece.size();
        if let Some(draft) = &mut self.draft {
            draft.add_piece(piece)?;
        }
        self.pieces += 1;
        self.bytes += size;
        Ok(())
    }

    fn set_finish(&mut self, finish: Finish)
        ensures { self.new ≡ told self.old (Line.End finish) }
    {
        if let Some(draft) = &mut self.draft {
            draft.set_finish(finish);
        }
    }

    fn add_trailer(&mut self, trailer: Field) -> Result<(), Memory>
        ensures { OnOk result (self.new ≡ told self.old (Line.Trailer trailer)) }
    {
        if let Some(draft) = &mut self.draft {
            draft.add_trailer(trailer)?;
        }
        Ok(())
    }

    fn set_listener(&mut self, listener: ListenerKind)
        requires sound { IsSoundListener listener }
        requires within { is_listener_within self.old listener ≡ true }
        ensures { self.new ≡ told self.old (Line.Listener listener) }
    {
        if let ListenerKind::Pipe { readers, .. } = listener {
            self.read += (u64::from(readers) * self.size()) as u32;
        }
        if let Some(draft) = &mut self.draft {
            draft.listener = listener;
        }
    }

    fn set_not_retargetable(&mut self)
        ensures { self.new ≡ told self.old Line.NotRetargetable }
    {
        if let Some(draft) = &mut self.draft {
            draft.retargetable = false;
        }
    }

    fn set_window(&mut self, window: u32)
        ensures { self.new ≡ told self.old (Line.Window window) }
    {
        if let Some(draft) = &mut self.draft {
            draft.window = window;
        }
    }

    fn set_start_back(&mut self)
        ensures { self.new ≡ told self.old Line.StartBack }
    {
        if let Some(draft) = &mut self.draft {
            draft.start = StartLane::Back;
        }
    }

    fn set_closed(&mut self)
        ensures { self.new ≡ told self.old Line.Closed }
    {
        if let Some(draft) = &mut self.draft {
            draft.closed = true;
        }
    }

    fn add_reaction(&mut self, reaction: Reaction) -> Result<(), Memory>
        ensures { OnOk result (self.new ≡ told self.old (Line.Reaction reaction)) }
    {
        if let Some(draft) = &mut self.draft {
            draft.reactions.push(reaction)?;
        }
        Ok(())
    }

    fn add_control(&mut self, control: Control) -> Result<(), Memory>
        ensures { OnOk result (self.new ≡ told self.old (Line.Control control)) }
    {
        if let Some(draft) = &mut self.draft {
            draft.controls.push(control)?;
        }
        Ok(())
    }
}
