// Plans, journals and ends of a channel. The tables of its steps and the sequential channel are defined in specs/.
#![tactic(auto)]

mod accept;
mod capacity;
mod ends;
mod event;
mod journal;
mod plan;
mod step;

pub use ends::{ChannelEnd, Ending, Ends, ReaderEnd, Readers, Trace};
pub use event::ChildEvent;
pub use journal::{ChildEntry, ChildJournal, ParentEntry, ParentJournal};
pub use plan::{
    Act, ChannelPlan, Control, Controls, Finish, Hop, Hops, ListenerKind, Pieces, PlanError, Plans,
    Reaction, Reactions, StartLane, Verdict,
};
pub use step::{ChildStep, ParentStep, Phase, Step};
