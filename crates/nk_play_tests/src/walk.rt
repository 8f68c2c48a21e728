//! How much of two journals the walk places, entry by entry and block by block.

use crate::scripts::script;
use nk_base::{BackMsg, MainMsg, Memory, Status, Target, UpMsg};
use nk_plan::{ChannelEnd, ChildEntry, ChildJournal, Ends, ParentEntry, ParentJournal};
use nk_walk::{
    ChildBlock, ParentBlock, child_blocks, parent_blocks, place, place_journals, places_all,
    places_all_journals,
};
use nk_world::World;
use std::alloc::Global;
use std::test::Fail;

/// What an entry of a parent's journal does. The walk does not look into messages.
#[derive(Clone, Copy, Drop)]
enum Parent {
    /// It takes an up message.
    Took,
    /// It sends a message on the main lane, or hands one to the background half.
    Main,
    Back,
}

/// What an entry of a child's journal does.
#[derive(Clone, Copy, Drop)]
enum Child {
    Open,
    Suspend,
    Resume,
    /// It takes a message of the main lane, or of the background lane.
    Main,
    Back,
    /// The data or the stop is shown: what is sent when the callback returns.
    Bytes,
    Stop,
    Finish,
    /// It neither takes nor sends.
    Quiet,
}

fn parent_entry(parent: Parent) -> ParentEntry {
    match parent {
        Parent::Took => ParentEntry::Took(UpMsg::Open),
        Parent::Main => ParentEntry::SentMain(MainMsg::Redirect3 { hop: 0 }),
        Parent::Back => ParentEntry::SentBack(BackMsg::StartSent { hop: 0 }),
    }
}

fn child_entry(child: Child) -> ChildEntry {
    let target = Target::Main;
    match child {
        Child::Open => ChildEntry::Open,
        Child::Suspend => ChildEntry::Suspend,
        Child::Resume => ChildEntry::Resume,
        Child::Main => ChildEntry::TookMain(MainMsg::Redirect3 { hop: 0 }),
        Child::Back => ChildEntry::TookBack(BackMsg::StartSent { hop: 0 }),
        Child::Bytes => ChildEntry::RunBytes {
            target,
            offset: 0,
            length: 5,
        },
        Child::Stop => ChildEntry::RunStop {
            target,
            status: Status::OK,
        },
        Child::Finish => ChildEntry::Finish(target),
        Child::Quiet => ChildEntry::Ended(target),
    }
}

fn parent_journal(alloc: Global, parents: &[Parent]) -> Result<ParentJournal, Memory> {
    let mut journal = ParentJournal::new(alloc);
    for &parent in parents {
        journal.push(parent_entry(parent))?;
    }
    Ok(journal)
}

fn child_journal(alloc: Global, children: &[Child]) -> Result<ChildJournal, Memory> {
    let mut journal = ChildJournal::new(alloc);
    for &child in children {
        journal.push(child_entry(child))?;
    }
    Ok(journal)
}

/// How many blocks or entries of the parent, forwards, and blocks or entries of the child are placed.
type Counts = (usize, usize, usize);

/// Two journals, entry by entry and as the blocks that steps enter, and how much of them is placed. A block is told as
/// whether it takes a message of each lane to its side, and how many it sends on each lane from there.
#[derive(Clone, Copy, Drop)]
struct Row<'a> {
    parent: &'a [Parent],
    forwards: usize,
    child: &'a [Child],
    entries: Counts,
    parent_blocks: &'a [(bool, u8, u8)],
    child_blocks: &'a [(bool, bool, u8)],
    blocks: Counts,
}

/// Walks over the entries of two journals.
fn entries(parent: &[ParentEntry], forwards: usize, child: &[ChildEntry]) -> Counts {
    let placed = place_journals(parent, forwards, child);
    (placed.parents, placed.forwards, placed.children)
}

/// The same over lists of blocks, of which each entry is one.
fn packed(
    alloc: Global,
    parent: &[ParentEntry],
    forwards: usize,
    child: &[ChildEntry],
) -> Result<Counts, Memory> {
    let parents = parent_blocks(alloc, parent)?;
    let children = child_blocks(alloc, child)?;
    let placed = place(parents.as_slice(), forwards, children.as_slice());
    Ok((placed.parents, placed.forwards, placed.children))
}

/// Walks over the entries of this row, and compares.
fn places_entries(alloc: Global, row: &Row) -> Result<(), Fail> {
    let parent = parent_journal(alloc, row.parent)?;
    let child = child_journal(alloc, row.child)?;
    let all = (row.parent.len(), row.forwards, row.child.len());
    if entries(parent.as_slice(), row.forwards, child.as_slice()) != row.entries {
        Err("other entries")?
    }
    if packed(alloc, parent.as_slice(), row.forwards, child.as_slice())? != row.entries {
        Err("other blocks of one entry")?
    }
    if places_all_journals(parent.as_slice(), row.forwards, child.as_slice())
        != (row.entries == all)
    {
        Err("not all entries")?
    }
    Ok(())
}

/// Walks over the blocks of this row, and compares.
fn places_blocks(alloc: Global, row: &Row) -> Result<(), Fail> {
    let mut parents = Vec::new(alloc);
    for &(takes_up, mains, backs) in row.parent_blocks {
        parents.push(ParentBlock::new(takes_up, mains, backs))?;
    }
    let mut children = Vec::new(alloc);
    for &(takes_main, takes_back, ups) in row.child_blocks {
        children.push(ChildBlock::new(takes_main, takes_back, ups))?;
    }
    let placed = place(&parents, row.forwards, &children);
    let all = (
        row.parent_blocks.len(),
        row.forwards,
        row.child_blocks.len(),
    );
    if (placed.parents, placed.forwards, placed.children) != row.blocks {
        Err("other blocks")?
    }
    if places_all(&parents, row.forwards, &children) != (row.blocks == all) {
        Err("not all blocks")?
    }
    Ok(())
}

/// The same for all these rows.
fn walks(alloc: Global, rows: &[Row]) -> Result<(), Fail> {
    for row in rows {
        places_entries(alloc, row)?;
        places_blocks(alloc, row)?;
    }
    Ok(())
}

/// The journals of a load without a body: the parent is asked, sends the start and tells its background half, sends the
/// stop, and hears that the page is done.
const PARENT: &[Parent] = &[
    Parent::Took,
    Parent::Main,
    Parent::Back,
    Parent::Back,
    Parent::Took,
];

const PARENT_BLOCKS: &[(bool, u8, u8)] = &[
    (true, 0, 0),
    (false, 1, 1),
    (false, 0, 1),
    (true, 0, 0),
];

/// The page opens, takes the start and shows it, hears that it was sent, lets the stop in and shows it.
const CHILD: &[Child] = &[
    Child::Open,
    Child::Main,
    Child::Quiet,
    Child::Back,
    Child::Quiet,
    Child::Finish,
    Child::Back,
    Child::Stop,
    Child::Finish,
    Child::Quiet,
];

const CHILD_BLOCKS: &[(bool, bool, u8)] = &[
    (false, false, 1),
    (true, false, 0),
    (false, true, 0),
    (false, false, 0),
    (false, false, 0),
    (false, true, 0),
    (false, false, 0),
    (false, false, 1),
    (false, false, 0),
];

#[test]
fn a_whole_load_is_placed(rt: HostRuntime) -> Result<(), Fail> {
    const ROWS: &[Row] = &[
        Row {
            parent: PARENT,
            forwards: 2,
            child: CHILD,
            entries: (5, 2, 10),
            parent_blocks: PARENT_BLOCKS,
            child_blocks: CHILD_BLOCKS,
            blocks: (4, 2, 9),
        },
        Row {
            parent: &[],
            forwards: 0,
            child: &[],
            entries: (0, 0, 0),
            parent_blocks: &[],
            child_blocks: &[],
            blocks: (0, 0, 0),
        },
    ];
    walks(rt.alloc(), ROWS)
}

#[test]
fn behind_a_missing_block_the_rest_waits(rt: HostRuntime) -> Result<(), Fail> {
    const ROWS: &[Row] = &[
        // the page never opened
        Row {
            parent: PARENT,
            forwards: 2,
            child: &[
                Child::Main,
                Child::Quiet,
                Child::Back,
                Child::Quiet,
                Child::Finish,
                Child::Back,
                Child::Stop,
                Child::Finish,
                Child::Quiet,
            ],
            entries: (0, 0, 0),
            parent_blocks: PARENT_BLOCKS,
            child_blocks: &[
                (true, false, 0),
                (false, true, 0),
                (false, false, 0),
                (false, false, 0),
                (false, true, 0),
                (false, false, 0),
                (false, false, 1),
                (false, false, 0),
            ],
            blocks: (0, 0, 0),
        },
        // the parent never sent the stop
        Row {
            parent: &[Parent::Took, Parent::Main, Parent::Back, Parent::Took],
            forwards: 2,
            child: CHILD,
            entries: (3, 1, 6),
            parent_blocks: &[(true, 0, 0), (false, 1, 1), (true, 0, 0)],
            child_blocks: CHILD_BLOCKS,
            blocks: (2, 1, 5),
        },
        // the stop was never moved on
        Row {
            parent: PARENT,
            forwards: 1,
            child: CHILD,
            entries: (4, 1, 6),
            parent_blocks: PARENT_BLOCKS,
            child_blocks: CHILD_BLOCKS,
            blocks: (3, 1, 5),
        },
    ];
    walks(rt.alloc(), ROWS)
}

#[test]
fn behind_swapped_blocks_the_rest_waits(rt: HostRuntime) -> Result<(), Fail> {
    const ROWS: &[Row] = &[
        // the parent hears that the page is done, and then sends the stop
        Row {
            parent: &[
                Parent::Took,
                Parent::Main,
                Parent::Back,
                Parent::Took,
                Parent::Back,
            ],
            forwards: 2,
            child: CHILD,
            entries: (3, 1, 6),
            parent_blocks: &[(true, 0, 0), (false, 1, 1), (true, 0, 0), (false, 0, 1)],
            child_blocks: CHILD_BLOCKS,
            blocks: (2, 1, 5),
        },
        // the page takes the start, and then opens: it is taken before it is sent
        Row {
            parent: &[Parent::Took, Parent::Main],
            forwards: 0,
            child: &[Child::Main, Child::Quiet, Child::Open],
            entries: (0, 0, 0),
            parent_blocks: &[(true, 0, 0), (false, 1, 0)],
            child_blocks: &[(true, false, 0), (false, false, 1)],
            blocks: (0, 0, 0),
        },
    ];
    walks(rt.alloc(), ROWS)
}

#[test]
fn what_an_entry_sends_is_told_by_those_before_it(rt: HostRuntime) -> Result<(), Fail> {
    const ROWS: &[Row] = &[
        // the first suspend and the last resume are sent, so there are three messages to take, and not five
        Row {
            parent: &[Parent::Took, Parent::Took, Parent::Took, Parent::Took],
            forwards: 0,
            child: &[
                Child::Open,
                Child::Suspend,
                Child::Suspend,
                Child::Resume,
                Child::Resume,
            ],
            entries: (3, 0, 5),
            parent_blocks: &[(true, 0, 0), (true, 0, 0), (true, 0, 0), (true, 0, 0)],
            child_blocks: &[
                (false, false, 1),
                (false, false, 1),
                (false, false, 0),
                (false, false, 0),
                (false, false, 1),
            ],
            blocks: (3, 0, 5),
        },
        // the bytes are reported when their callback returns
        Row {
            parent: &[Parent::Back, Parent::Took],
            forwards: 1,
            child: &[Child::Back, Child::Bytes, Child::Finish],
            entries: (2, 1, 3),
            parent_blocks: &[(false, 0, 1), (true, 0, 0)],
            child_blocks: &[(false, true, 0), (false, false, 1)],
            blocks: (2, 1, 2),
        },
    ];
    walks(rt.alloc(), ROWS)
}

/// Whether the walk places all of the two journals of this end.
fn is_placed(end: &ChannelEnd) -> bool {
    places_all_journals(end.parent.as_slice(), end.forwarded, end.child.as_slice())
}

/// The ends of this script, after a drain alone.
fn ends_of(mut world: World) -> Result<Ends, Memory> {
    let drained = world.drain();
    let ends = world.into_ends();
    drained?;
    ends
}

/// Whether the journals of these scripts, played, are placed.
fn plays_are_placed(alloc: Global, texts: &[&[u8]]) -> Result<(), Fail> {
    for text in texts {
        let plans = script(alloc, text)?.plans;
        let ends = ends_of(World::new(alloc, plans)?)?;
        if !ends.as_slice().iter().all(|end| is_placed(end)) {
            Err("not all entries")?
        }
    }
    Ok(())
}

#[test]
fn the_journals_of_a_play_are_placed(rt: HostRuntime) -> Result<(), Fail> {
    const TEXTS: &[&[u8]] = &[
        b"script 1\nchannel\nhop response 200\npiece ab\npiece cd\nend ok\nwindow 1\n",
        b"script 1\nchannel\nhop redirect 302 allow\nhop response 200\npiece a\nend ok\nstart back\n",
        b"script 1\nchannel\nhop response 200\npiece a\npiece b\nend ok\nat start retarget w1\nat data 1 fail 80004005\n",
        b"script 1\nchannel\nhop fail 804b000d\nchannel\nhop response 200\nend ok\nclosed\n",
    ];
    plays_are_placed(rt.alloc(), TEXTS)
}
