// Plans as they are shared and compared, and entries and journals as they are kept.

use super::{FAILS, Met, OK, Parts, REDIRECTS, RESET, RESUME, made, plan_of};
use crate::base::{Numbered, first_confused, is_as, share_of};
use crate::rows::{none_wrong, right};
use nk_base::{ByteList, Class, Classed, Entry, Memory, Piece, Status, Target, UpMsg};
use nk_plan::{
    ChannelEnd, ChannelPlan, ChildEntry, ChildEvent, ChildJournal, Ending, Ends, Finish,
    ListenerKind, ParentEntry, ParentJournal, Plans, Reaction, ReaderEnd, Readers, Trace, Verdict,
};
use std::alloc::Global;
use std::mem::size_of;

const PIPE: ListenerKind = ListenerKind::Pipe {
    segment: 4,
    limit: 1,
    readers: 1,
};

/// A plan in which all parts have something.
const FULL: Parts = Parts {
    hops: &[
        Met::Redirect(399, Verdict::Allow),
        Met::Response(2, 5, Finish::Good, 1, true),
    ],
    listener: ListenerKind::Plain,
    reactions: &[Reaction::StartSuspend],
    controls: &[RESUME],
    window: 1_048_576,
    closed: false,
};

/// The full plan, and then with one of its parts changed.
const PLANS: &[Parts<'static>] = &[
    FULL,
    Parts { window: 1, ..FULL },
    Parts {
        listener: PIPE,
        ..FULL
    },
    Parts {
        reactions: &[Reaction::StartRetarget(1)],
        ..FULL
    },
    Parts {
        reactions: &[],
        ..FULL
    },
    Parts {
        controls: &[RESUME, RESUME],
        ..FULL
    },
    Parts {
        controls: &[],
        ..FULL
    },
    Parts {
        controls: &[],
        closed: true,
        ..FULL
    },
    Parts {
        hops: &[Met::Response(2, 5, Finish::Good, 1, true)],
        ..FULL
    },
    Parts {
        hops: &[Met::Response(2, 5, Finish::Good, 2, true)],
        ..FULL
    },
    Parts {
        hops: &[Met::Response(1, 5, Finish::Good, 1, true)],
        ..FULL
    },
    Parts {
        hops: &[Met::Response(2, 6, Finish::Good, 1, true)],
        ..FULL
    },
    Parts {
        hops: &[Met::Response(2, 5, Finish::Fail(RESET), 0, true)],
        ..FULL
    },
    Parts {
        hops: &[REDIRECTS, FAILS],
        ..FULL
    },
    Parts {
        hops: &[FAILS],
        ..FULL
    },
];

/// The plan of this number, or the full one.
fn parts(number: usize) -> Parts<'static> {
    if number < PLANS.len() {
        PLANS[number]
    } else {
        FULL
    }
}

impl Numbered for ChannelPlan {
    fn numbered(alloc: Global, number: usize) -> Option<ChannelPlan> {
        made(alloc, parts(number))?.ok()
    }

    fn shared(&self) -> Result<ChannelPlan, Memory> {
        self.share()
    }

    fn is(&self, other: &ChannelPlan) -> bool {
        self.same(other)
    }
}

/// How many plans there are once this one is kept.
fn kept(alloc: Global, plan: ChannelPlan) -> Option<usize> {
    let mut plans = Plans::new(alloc);
    plans.push(plan).ok()?;
    Some(plans.len())
}

/// How many plans there are once a share of the plan of this number is kept.
fn kept_share(alloc: Global, number: usize) -> Option<usize> {
    let share = share_of::<ChannelPlan>(alloc, number)?;
    kept(alloc, share)
}

#[test]
fn a_plan_is_made_shared_and_compared(rt: HostRuntime) {
    let alloc = rt.alloc();
    none_wrong(&rt, first_confused::<ChannelPlan>(alloc, 15));
    right(&rt, is_as::<ChannelPlan>(alloc, 0, 1) == Some(false));
    right(&rt, kept_share(alloc, 1) == Some(1));
}

/// Puts a reader and something of each list into the end of a channel.
fn fill(alloc: Global, end: &mut ChannelEnd) -> Option<()> {
    let (code, status) = (200, OK);
    end.trace.push(Entry::Start { code, status }).ok()?;
    let bytes = ByteList::new(alloc);
    let status = None;
    end.readers.push(ReaderEnd { bytes, status }).ok()?;
    end.parent.push(ParentEntry::Took(UpMsg::Open)).ok()?;
    let dropped = ChildEntry::RunDrop {
        target: Target::Worker(1),
        offset: 5,
        status: RESET,
    };
    end.child.push(dropped).ok()
}

/// How many ends there are once this one is kept.
fn kept_end(alloc: Global, end: ChannelEnd) -> Option<usize> {
    let mut ends = Ends::new(alloc);
    ends.push(end).ok()?;
    Some(ends.len())
}

/// How many entries, readers and events of both journals the end of a channel has, and how many ends there are then.
fn counts(alloc: Global) -> Option<([usize; 4], usize)> {
    let mut end = ChannelEnd {
        trace: Trace::new(alloc),
        readers: Readers::new(alloc),
        ending: Ending::Going,
        parent: ParentJournal::new(alloc),
        child: ChildJournal::new(alloc),
        forwarded: 0,
    };
    let filled = fill(alloc, &mut end);
    let counts = [
        end.trace.len(),
        end.readers.len(),
        end.parent.len(),
        end.child.len(),
    ];
    let kept = kept_end(alloc, end);
    filled?;
    Some((counts, kept?))
}

#[test]
fn entries_are_kept(rt: HostRuntime) {
    right(&rt, counts(rt.alloc()) == Some(([1; 4], 1)));
}

#[test]
fn entries_of_journals_are_small(rt: HostRuntime) {
    right(&rt, size_of::<ParentEntry>() == 48);
    right(&rt, size_of::<ChildEntry>() == 48);
}

/// The class of one event of each kind.
fn classes(alloc: Global) -> Option<[Class; 6]> {
    let (offset, status) = (0, OK);
    let piece = Piece::new(alloc, b"a").ok()?;
    Some([
        ChildEvent::Start { code: 200, status }.class(),
        ChildEvent::Bytes {
            offset,
            piece,
            status,
        }
        .class(),
        ChildEvent::Stop { status }.class(),
        ChildEvent::Redirect1 { hop: 0 }.class(),
        ChildEvent::Redirect3 { hop: 0 }.class(),
        ChildEvent::Cancel { status }.class(),
    ])
}

#[test]
fn data_alone_goes_where_data_is_delivered(rt: HostRuntime) {
    const MAIN: Class = Class::Fixed(Target::Main);
    let all = [MAIN, Class::Delivery, MAIN, MAIN, MAIN, MAIN];
    right(&rt, classes(rt.alloc()) == Some(all));
}
