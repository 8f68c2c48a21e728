// The greedy walk over the blocks of a parent and of a child: it places the next block of the parent, the next forward or
// the next block of the child, the first of these that can be placed, as long as one can. Each turn places one item.

ghost use Rattle.std.specs.Prelude.{◌≡◌, ◌&&◌, nat_eq};
ghost use Rattle.nk_plan.specs.Walk.{may_child, may_parent, places_all, rest, walk_start};
ghost use Rattle.nk_walk.specs.Counted.{AreCloseTo, AreSmall, with_first_child, with_first_parent};
ghost use Rattle.nk_walk.specs.Placed.{count_placed};

use crate::block::{ChildBlock, ParentBlock};
use crate::counts::Counts;

/// How many items of each list a walk has placed, from the first one on. This project's own.
#[derive(Clone, Copy, Debug, Drop, PartialEq, Eq)]
pub struct Placed {
    /// The blocks of the parent.
    pub parents: usize,
    /// The forwards of its background half.
    pub forwards: usize,
    /// The blocks of the child.
    pub children: usize,
}

impl Placed {
    /// Whether these are all items of lists of these lengths.
    pub(crate) fn is_all(self, parents: usize, forwards: usize, children: usize) -> bool
        ensures { result ≡ (nat_eq self.parents parents && (nat_eq self.forwards forwards && nat_eq self.children children)) }
    {
        self.parents == parents && (self.forwards == forwards && self.children == children)
    }
}

fn may_parent(parents: &[ParentBlock], counts: &Counts) -> bool
    ensures { result ≡ may_parent parents.now counts.now.ups_taken counts.now.ups_sent }
{
    match parents {
        [] => false,
        [first, ..] => counts.may_parent(first),
    }
}

fn may_child(children: &[ChildBlock], counts: &Counts) -> bool
    ensures { result ≡ may_child children.now counts.now.mains_taken counts.now.mains_sent counts.now.backs_taken counts.now.backs_moved }
{
    match children {
        [] => false,
        [first, ..] => counts.may_child(first),
    }
}

fn count_parent(counts: &mut Counts, parents: &[ParentBlock])
    requires { AreSmall counts.old }
    ensures value { counts.new ≡ with_first_parent parents.now counts.old }
    ensures most { AreCloseTo counts.old counts.new }
{
    match parents {
        [] => {}
        [first, ..] => counts.place_parent(first),
    }
}

fn count_child(counts: &mut Counts, children: &[ChildBlock])
    requires { AreSmall counts.old }
    ensures value { counts.new ≡ with_first_child children.now counts.old }
    ensures most { AreCloseTo counts.old counts.new }
{
    match children {
        [] => {}
        [first, ..] => counts.place_child(first),
    }
}

fn rest_of_parents(parents: &[ParentBlock]) -> &[ParentBlock]
    ensures { result.now ≡ rest parents.now }
{
    match parents {
        [] => parents,
        [_, rest @ ..] => rest,
    }
}

fn rest_of_children(children: &[ChildBlock]) -> &[ChildBlock]
    ensures { result.now ≡ rest children.now }
{
    match children {
        [] => children,
        [_, rest @ ..] => rest,
    }
}

/// How many blocks of the parent, forwards and blocks of the child the greedy walk places. It takes
/// no memory.
pub fn place(parents: &[ParentBlock], forwards: usize, children: &[ChildBlock]) -> Placed
    ensures { result ≡ count_placed (walk_start parents.now forwards children.now) }
{
    let mut parents_left = parents;
    let mut forwards_left = forwards;
    let mut children_left = children;
    let mut counts = Counts::new();
    'placing: loop {
        if may_parent(parents_left, &counts) {
            count_parent(&mut counts, parents_left);
            parents_left = rest_of_parents(parents_left);
        } else if counts.may_forward(forwards_left) {
            counts.place_forward();
            forwards_left -= 1;
        } else if may_child(children_left, &counts) {
            count_child(&mut counts, children_left);
            children_left = rest_of_children(children_left);
        } else {
            return Placed {
                parents: parents.len() - parents_left.len(),
                forwards: forwards - forwards_left,
                children: children.len() - children_left.len(),
            };
        }
    }
}

/// Whether the greedy walk places everything, which it does exactly where any order does.
pub fn places_all(parents: &[ParentBlock], forwards: usize, children: &[ChildBlock]) -> bool
    ensures { result ≡ places_all (walk_start parents.now forwards children.now) }
{
    let placed = place(parents, forwards, children);
    placed.is_all(parents.len(), forwards, children.len())
}
