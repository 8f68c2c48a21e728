// The greedy walk over two journals, of which each entry is a block of its own.

ghost use Rattle.std.specs.Prelude.{◌≡◌, ◌+◌, ◌<◌, ◌^◌};
ghost use Rattle.nk_plan.specs.Telling.{child_entries, new_telling, parent_entries};
ghost use Rattle.nk_plan.specs.Walk.{may_child, may_parent, places_all, rest, walk_start};
ghost use Rattle.nk_walk.specs.Counted.{AreCloseTo, AreSmall, with_first_child, with_first_parent};
ghost use Rattle.nk_walk.specs.Placed.{count_placed};
ghost use Rattle.nk_walk.specs.Rest.{telling_of_rest};

use crate::counts::Counts;
use crate::pack::{child_block, parent_block};
use crate::telling::Telling;
use crate::walk::Placed;
use nk_plan::{ChildEntry, ParentEntry};

fn may_parent(parents: &[ParentEntry], counts: &Counts) -> bool
    ensures { result ≡ may_parent (parent_entries parents.now) counts.now.ups_taken counts.now.ups_sent }
{
    match parents {
        [] => false,
        [first, ..] => counts.may_parent(&parent_block(first)),
    }
}

fn may_child(children: &[ChildEntry], telling: &Telling, counts: &Counts) -> bool
    ensures { result ≡ may_child (child_entries telling.now children.now) counts.now.mains_taken counts.now.mains_sent counts.now.backs_taken counts.now.backs_moved }
{
    match children {
        [] => false,
        [first, ..] => counts.may_child(&child_block(telling, first)),
    }
}

fn count_parent(counts: &mut Counts, parents: &[ParentEntry])
    requires { AreSmall counts.old }
    ensures value { counts.new ≡ with_first_parent (parent_entries parents.now) counts.old }
    ensures most { AreCloseTo counts.old counts.new }
{
    match parents {
        [] => {}
        [first, ..] => counts.place_parent(&parent_block(first)),
    }
}

fn count_child(counts: &mut Counts, children: &[ChildEntry], telling: &Telling)
    requires { AreSmall counts.old }
    ensures value { counts.new ≡ with_first_child (child_entries telling.now children.now) counts.old }
    ensures most { AreCloseTo counts.old counts.new }
{
    match children {
        [] => {}
        [first, ..] => counts.place_child(&child_block(telling, first)),
    }
}

fn rest_of_parents(parents: &[ParentEntry]) -> &[ParentEntry]
    ensures { result.now ≡ rest parents.now }
{
    match parents {
        [] => parents,
        [_, rest @ ..] => rest,
    }
}

fn rest_of_children(children: &[ChildEntry]) -> &[ChildEntry]
    ensures { result.now ≡ rest children.now }
{
    match children {
        [] => children,
        [_, rest @ ..] => rest,
    }
}

// Takes the next entry into account, if there is one.
fn note_next(telling: &mut Telling, children: &[ChildEntry])
    requires { telling.old.suspends + 1 < 2 ^ 64 }
    ensures { telling.new ≡ telling_of_rest telling.old children.now }
{
    match children {
        [] => {}
        [first, ..] => telling.note(first),
    }
}

/// How many entries of a parent's journal, forwards and entries of a child's journal the greedy walk
/// places, each entry as a block of its own. It takes no memory.
///
/// The first entry of a list that is left takes a message that was never sent, or not before it.
pub fn place_journals(parent: &[ParentEntry], forwards: usize, child: &[ChildEntry]) -> Placed
    ensures { result ≡ count_placed (walk_start (parent_entries parent.now) forwards (child_entries new_telling child.now)) }
{
    let mut parents_left = parent;
    let mut forwards_left = forwards;
    let mut children_left = child;
    let mut telling = Telling::new();
    let mut counts = Counts::new();
    'placing: loop {
        if may_parent(parents_left, &counts) {
            count_parent(&mut counts, parents_left);
            parents_left = rest_of_parents(parents_left);
        } else if counts.may_forward(forwards_left) {
            counts.place_forward();
            forwards_left -= 1;
        } else if may_child(children_left, &telling, &counts) {
            count_child(&mut counts, children_left, &telling);
            note_next(&mut telling, children_left);
            children_left = rest_of_children(children_left);
        } else {
            return Placed {
                parents: parent.len() - parents_left.len(),
                forwards: forwards - forwards_left,
                children: child.len() - children_left.len(),
            };
        }
    }
}

/// Whether the greedy walk places all entries of the two journals and all forwards, which it does
/// exactly where any order of them does.
pub fn places_all_journals(parent: &[ParentEntry], forwards: usize, child: &[ChildEntry]) -> bool
    ensures { result ≡ places_all (walk_start (parent_entries parent.now) forwards (child_entries new_telling child.now)) }
{
    let placed = place_journals(parent, forwards, child);
    placed.is_all(parent.len(), forwards, child.len())
}
