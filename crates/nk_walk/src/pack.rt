// Entries as blocks: what each takes, and how many messages were sent with it.

ghost use Rattle.std.specs.Prelude.{◌≡◌, IfOk, length};
ghost use Rattle.nk_base.specs.Queue.{has_some};
ghost use Rattle.nk_plan.specs.Journal.{main_in, back_in};
ghost use Rattle.nk_plan.specs.Telling.{new_telling, sends_at, parent_entry_block, parent_entries, child_entry_block, child_entries};

use crate::block::{ChildBlock, ParentBlock};
use crate::telling::Telling;
use nk_base::{Grow, Memory};
use nk_plan::{ChildEntry, ParentEntry};
use std::alloc::Global;

/// An entry of a parent as a block of its own.
pub(crate) fn parent_block(entry: &ParentEntry) -> ParentBlock
    ensures { result ≡ parent_entry_block entry.now }
{
    match *entry {
        ParentEntry::Took(_) => ParentBlock::new(true, 0, 0),
        ParentEntry::SentMain(_) => ParentBlock::new(false, 1, 0),
        ParentEntry::SentBack(_) => ParentBlock::new(false, 0, 1),
    }
}

// How many messages were sent with this entry.
fn sent(telling: &Telling, entry: &ChildEntry) -> u8
    ensures { result ≡ length (sends_at telling.now entry.now) }
{
    match telling.sends(entry) {
        None => 0,
        Some(_) => 1,
    }
}

/// An entry of a child as a block of its own, behind the entries that were noted.
pub(crate) fn child_block(telling: &Telling, entry: &ChildEntry) -> ChildBlock
    ensures { result ≡ child_entry_block telling.now entry.now }
{
    let ups = sent(telling, entry);
    let main = takes_main(entry);
    let back = takes_back(entry);
    ChildBlock::new(main, back, ups)
}

fn takes_main(entry: &ChildEntry) -> bool
    ensures { result ≡ has_some (main_in entry.now) }
{
    matches!(*entry, ChildEntry::TookMain(_))
}

fn takes_back(entry: &ChildEntry) -> bool
    ensures { result ≡ has_some (back_in entry.now) }
{
    matches!(*entry, ChildEntry::TookBack(_))
}

/// The entries of a parent's journal, in order, each as a block of its own. The one refusal is want of
/// memory.
pub fn parent_blocks(alloc: Global, journal: &[ParentEntry]) -> Result<Grow<ParentBlock>, Memory>
    ensures { IfOk result (λ blocks. blocks.items ≡ parent_entries journal.now) }
{
    let mut blocks = Grow::new(alloc);
    blocks.reserve(journal.len())?;
    for entry in journal {
        blocks.push(parent_block(entry));
    }
    Ok(blocks)
}

/// The entries of a child's journal, in order, each as a block of its own. The one refusal is want of
/// memory.
pub fn child_blocks(alloc: Global, journal: &[ChildEntry]) -> Result<Grow<ChildBlock>, Memory>
    ensures { IfOk result (λ blocks. blocks.items ≡ child_entries new_telling journal.now) }
{
    let mut blocks = Grow::new(alloc);
    blocks.reserve(journal.len())?;
    let mut telling = Telling::new();
    for entry in journal {
        blocks.push(child_block(&telling, entry));
        telling.note(entry);
    }
    Ok(blocks)
}
