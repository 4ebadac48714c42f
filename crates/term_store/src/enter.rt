//! Clauses whose heads are met in a goal: what the goal has is not built once more.
ghost use Rattle.std.specs.Prelude.{◌≡◌, ◌+◌, ◌<◌, ◌^◌, length, IfOk, OnOk, OnErr};
ghost use Rattle.std.specs.List.{All};
ghost use Rattle.pl_term.specs.Variables.{variables};
ghost use Rattle.term_store.specs.Blocks.{IsBlock, IsFirst, part_of};
ghost use Rattle.term_store.specs.Cells.{IsFit, heap_of};
ghost use Rattle.term_store.specs.Contents.{Adds, Holds, IsAbove};
ghost use Rattle.term_store.specs.Entering.{BlockEntered, ClauseEntered, Enters, Extends, IsFacing, IsParts};
ghost use Rattle.term_store.specs.Fit.{IsIn};

use crate::block::{Block, block_of};
use crate::cells::Cells;
use crate::copies::copy_part;
use crate::heads::{meet_at, meet_goal, take_next};
use crate::known::make_others;
use crate::shorts::Words;
use crate::store::Store;
use crate::stored::Stored;
use crate::walk::{Pending, Walk};
use crate::words::{Place, Rest, Word};
use pl_term::Memory;
use std::alloc::Global;

/// Room for entering a clause: what stands for each of the clause's variables that were met, and the arguments of compound terms of
/// the store and of the clause's block that are still to be made the same.
#[derive(Drop)]
pub struct Entry {
    pub known: Words,
    pub rests: Vec<Rest>,
}

impl Entry {
    /// An empty room.
    pub fn new(alloc: Global) -> Entry {
        Entry {
            known: Words::new(alloc),
            rests: Vec::new(alloc),
        }
    }
}

impl Store {
    /// Unifies the head of a clause with the goal at a place, as `unify` does, where the clause's variables are new ones,
    /// numbered from `from` on in the order in which they first occur; that is above the numbers of all variables, and with
    /// the number of the clause's variables below 2^64. The answer is the place of its body, or none where they do not unify.
    /// Only those variables are made that something is made of. No cells are counted. After none and after running out of
    /// memory, which is the only error, nothing has changed.
    #[inline(always)]
    pub fn enter(
        &mut self,
        goal: Place,
        clause: &Stored,
        from: u64,
    ) -> Result<Option<Place>, Memory>
        requires goal { Holds self.old goal }
        requires above { IsAbove from self.old }
        requires room { from + length (variables clause.now) < 2 ^ 64 }
        ensures entered { IfOk result (λ r. ClauseEntered self.old goal from clause.now r self.new) }
        ensures adds { Adds self.old self.new }
        ensures used { self.new.used ≡ self.old.used }
        ensures budget { self.new.budget ≡ self.old.budget }
        ensures above { OnOk result (IsAbove (from + length (variables clause.now)) self.new) }
        ensures kept { OnErr result (self.new ≡ self.old) }
    {
        match clause.block() {
            Some(block) => self.enter_kept(goal, block, from),
            None => self.enter_anew(goal, clause, from),
        }
    }

    /// Does what `enter` does, of a term that is not kept as a block.
    #[cold]
    #[inline(never)]
    fn enter_anew(
        &mut self,
        goal: Place,
        clause: &Stored,
        from: u64,
    ) -> Result<Option<Place>, Memory>
        requires goal { Holds self.old goal }
        requires above { IsAbove from self.old }
        requires room { from + length (variables clause.now) < 2 ^ 64 }
        ensures entered { IfOk result (λ r. ClauseEntered self.old goal from clause.now r self.new) }
        ensures adds { Adds self.old self.new }
        ensures used { self.new.used ≡ self.old.used }
        ensures budget { self.new.budget ≡ self.old.budget }
        ensures above { OnOk result (IsAbove (from + length (variables clause.now)) self.new) }
        ensures kept { OnErr result (self.new ≡ self.old) }
    {
        let block = block_of(self.alloc, clause.nodes(), clause.variables())?;
        self.enter_kept(goal, &block, from)
    }

    /// Does what `enter` does, of the block of a clause.
    fn enter_kept(&mut self, goal: Place, block: &Block, from: u64) -> Result<Option<Place>, Memory>
        requires goal { Holds self.old goal }
        requires block { IsBlock block.now }
        requires parts { IsParts block.now block.now.head block.now.body }
        requires first { IsFirst block.now }
        requires above { IsAbove from self.old }
        requires room { from + block.now.variables < 2 ^ 64 }
        ensures entered { IfOk result (λ r. ClauseEntered self.old goal from (part_of block.now block.now.root) r self.new) }
        ensures adds { Adds self.old self.new }
        ensures used { self.new.used ≡ self.old.used }
        ensures budget { self.new.budget ≡ self.old.budget }
        ensures above { OnOk result (IsAbove (from + block.now.variables) self.new) }
        ensures kept { OnErr result (self.new ≡ self.old) }
    {
        let mark = self.mark();
        match enter_block(
            &mut self.cells,
            &mut self.entry,
            &mut self.pending,
            &mut self.walk,
            block,
            from,
            goal.word,
        ) {
            Ok(Some(word)) => Ok(Some(Place { word })),
            Ok(None) => {
                self.undo_to(mark);
                Ok(None)
            }
            Err(_) => {
                self.undo_to(mark);
                Err(Memory)
            }
        }
    }
}

/// Unifies the head of a clause with the goal that a word stands for, and makes the clause's body, the word of which is the
/// answer; or none, where they do not unify. After none and after an error, which is out of memory, some of it may have been
/// made.
fn enter_block(
    cells: &mut Cells,
    entry: &mut Entry,
    pending: &mut Pending,
    walk: &mut Walk,
    block: &Block,
    from: u64,
    goal: Word,
) -> Result<Option<Word>, Memory>
    requires fit { IsFit cells.old }
    requires block { IsBlock block.now }
    requires parts { IsParts block.now block.now.head block.now.body }
    requires first { IsFirst block.now }
    requires goal { IsIn (heap_of cells.old) goal }
    requires above { All (λ m. m < from) cells.old.numbers.items }
    requires room { from + block.now.variables < 2 ^ 64 }
    ensures fit { IsFit cells.new }
    ensures extends { Extends (heap_of cells.old) (heap_of cells.new) }
    ensures entered { IfOk result (λ r. BlockEntered block.now (heap_of cells.old) from goal r (heap_of cells.new)) }
{
    if !meet_head(cells, entry, pending, walk, block, from, goal)? {
        return Ok(None);
    }
    make_others(cells, &mut entry.known, block.variables as usize, from)?;
    let body = copy_part(cells, block, &entry.known, block.body)?;
    Ok(Some(body))
}

/// Unifies the goal that a word stands for and the head.
fn meet_head(
    cells: &mut Cells,
    entry: &mut Entry,
    pending: &mut Pending,
    walk: &mut Walk,
    block: &Block,
    from: u64,
    goal: Word,
) -> Result<bool, Memory>
    requires fit { IsFit cells.old }
    requires block { IsBlock block.now }
    requires first { IsFirst block.now }
    requires facing { IsFacing (heap_of cells.old) block.now (record { left = goal; right = block.now.head }) }
    requires above { All (λ m. m < from) cells.old.numbers.items }
    requires room { from + block.now.variables < 2 ^ 64 }
    ensures fit { IsFit cells.new }
    ensures extends { Extends (heap_of cells.old) (heap_of cells.new) }
    ensures enters { IfOk result (λ r. Enters r block.now (heap_of cells.old) from goal block.now.head (heap_of cells.new) entry.new.known.items) }
{
    entry.known.clear();
    entry.rests.clear();
    let started = meet_goal(
        cells,
        &mut entry.known,
        &mut entry.rests,
        pending,
        walk,
        block,
        from,
        goal,
    )?;
    let Some(first) = started else {
        return Ok(false);
    };
    let mut rest = first;
    while let Some(now) = take_next(&mut entry.rests, rest) {
        let met = meet_at(
            cells,
            &mut entry.known,
            &mut entry.rests,
            pending,
            walk,
            block,
            from,
            now,
        )?;
        let Some(after) = met else {
            return Ok(false);
        };
        rest = after;
    }
    Ok(true)
}
