// The list with stable places: its order, and that an item keeps its place while others come and go.

use crate::rows::{none_wrong, right};
use nk_chain::Chain;
use std::alloc::Global;

/// A call of a chain. Room is made before an item is put in.
#[derive(Clone, Copy, Drop)]
enum Call {
    Reserve(usize),
    Back(u32),
    Front(u32),
    Pop,
    First,
    Length,
    IsEmpty,
    Clear,
}

/// What it answered.
#[derive(Clone, Copy, Drop, PartialEq, Eq)]
enum Answer {
    Done,
    Item(Option<u32>),
    Length(usize),
    Yes(bool),
    Memory,
}

fn push(chain: &mut Chain<u32>, item: u32, is_front: bool) -> Answer {
    if chain.reserve(1).is_err() {
        return Answer::Memory;
    }
    if is_front {
        let _ = chain.push_front(item);
    } else {
        let _ = chain.push_back(item);
    }
    Answer::Done
}

fn first(chain: &Chain<u32>) -> Option<u32> {
    match chain.first() {
        Some(place) => Some(*chain.get(place)),
        None => None,
    }
}

fn make(chain: &mut Chain<u32>, call: Call) -> Answer {
    match call {
        Call::Reserve(n) => match chain.reserve(n) {
            Ok(()) => Answer::Done,
            Err(_) => Answer::Memory,
        },
        Call::Back(item) => push(chain, item, false),
        Call::Front(item) => push(chain, item, true),
        Call::Pop => Answer::Item(chain.pop_front()),
        Call::First => Answer::Item(first(chain)),
        Call::Length => Answer::Length(chain.len()),
        Call::IsEmpty => Answer::Yes(chain.is_empty()),
        Call::Clear => {
            chain.clear();
            Answer::Done
        }
    }
}

/// The number of the first call of a new chain that answers otherwise than its row says.
fn first_wrong(alloc: Global, rows: &[(Call, Answer)]) -> Option<usize> {
    let mut chain = Chain::new(alloc);
    for (i, row) in rows.iter().enumerate() {
        if make(&mut chain, row.0) != row.1 {
            return Some(i);
        }
    }
    None
}

/// What a chain of 0, 1 and 2 says of its places and gives: whether each leads to the next, the items there, the first
/// one out, the two that keep their places, and the rest, of which the last was changed to 7.
type Seen = (bool, [u32; 3], Option<u32>, [u32; 2], [Option<u32>; 3]);

fn seen(alloc: Global) -> Option<Seen> {
    let mut chain = Chain::new(alloc);
    if chain.reserve(3).is_err() {
        return None;
    }
    let one = chain.push_back(1u32);
    let two = chain.push_back(2);
    let zero = chain.push_front(0);
    let links = [
        chain.first(),
        chain.next(zero),
        chain.next(one),
        chain.next(two),
    ];
    let is_linked = links == [Some(zero), Some(one), Some(two), None];
    let items = [*chain.get(zero), *chain.get(one), *chain.get(two)];
    let first = chain.pop_front();
    let kept = [*chain.get(one), *chain.get(two)];
    *chain.get_mut(two) = 7;
    let rest = [chain.pop_front(), chain.pop_front(), chain.pop_front()];
    Some((is_linked, items, first, kept, rest))
}

#[test]
fn chain_calls(rt: HostRuntime) {
    let rest = [Some(1), Some(7), None];
    let all = (true, [0, 1, 2], Some(0), [1, 2], rest);
    right(&rt, seen(rt.alloc()) == Some(all));
}

#[test]
fn items_come_out_from_the_front(rt: HostRuntime) {
    let rows = &[
        (Call::Pop, Answer::Item(None)),
        (Call::First, Answer::Item(None)),
        (Call::IsEmpty, Answer::Yes(true)),
        (Call::Reserve(0), Answer::Done),
        (Call::Front(3), Answer::Done),
        (Call::Front(2), Answer::Done),
        (Call::Back(4), Answer::Done),
        (Call::First, Answer::Item(Some(2))),
        (Call::Length, Answer::Length(3)),
        (Call::Pop, Answer::Item(Some(2))),
        (Call::Back(5), Answer::Done),
        (Call::Front(1), Answer::Done),
        (Call::Pop, Answer::Item(Some(1))),
        (Call::Pop, Answer::Item(Some(3))),
        (Call::Pop, Answer::Item(Some(4))),
        (Call::IsEmpty, Answer::Yes(false)),
        (Call::Pop, Answer::Item(Some(5))),
        (Call::IsEmpty, Answer::Yes(true)),
        (Call::Pop, Answer::Item(None)),
        (Call::Back(6), Answer::Done),
        (Call::Front(7), Answer::Done),
        (Call::Clear, Answer::Done),
        (Call::Length, Answer::Length(0)),
        (Call::First, Answer::Item(None)),
        (Call::Reserve(1000), Answer::Done),
        (Call::Back(8), Answer::Done),
        (Call::Pop, Answer::Item(Some(8))),
    ];
    none_wrong(&rt, first_wrong(rt.alloc(), rows));
}
