//! A file that is being checked, item by item.
ghost use Rattle.std.specs.Prelude.{◌≡◌, ◌<◌, ◌≤◌, ◌+◌, ◌^◌, OnOk, IfOk};
ghost use Rattle.pl_term.specs.Tree.{Chars};
ghost use Rattle.pl_model.specs.TermGrammar.{item_of};
ghost use Rattle.run_model.specs.Execution.{behind_fault as rest_behind, directive_of};
ghost use Rattle.source_check.specs.Listings.{Checking, from_start, with_item, with_term};
ghost use Rattle.source_check.specs.Checkers.{Stands, counted, effect_of, rest_of, with_fault};
ghost use Rattle.source_check.specs.GoalNodes.{after};

use crate::change::Change;
use crate::goal::{change_in, goal_in};
use crate::operators::{is_any_refused, put_operators};
use op_table::OpTable;
use pl_model::grammar::Quotes;
use pl_model::syntax::SyntaxKind;
use pl_report::{put_syntax_fault, put_too_large};
use pl_term::{Flat, Memory, Text};
use prolog_reader::{Read, read_term, skip};
use std::alloc::Global;

/// The most bytes that a file may have: 16 MiB.
const MOST_BYTES: usize = 16_777_216;

/// Where reading goes on.
#[derive(Debug, Clone, Copy, PartialEq, Eq, Drop)]
pub enum Place {
    /// At the item that stands at this byte or after it.
    Item(usize),
    /// Nowhere: the file was read to its end.
    End,
}

/// How far a file is checked: the lines of its faults so far, and what follows is read by.
#[derive(Debug, Drop)]
pub struct Checker {
    pub place: Place,
    pub operators: OpTable,
    pub quotes: Quotes,
    pub out: Vec<u8>,
    pub faults: u64,
    pub clauses: u64,
    pub directives: u64,
}

impl Checker {
    /// The file with this name and these bytes, before its first item. The only error is out of memory.
    pub fn new(alloc: Global, name: &Text, bytes: &[u8]) -> Result<Checker, Memory>
        ensures stands { IfOk result (λ k. Stands name.now k (from_start bytes.now)) }
        ensures counted { IfOk result (λ k. counted k ≤ 1) }
    {
        let mut checker = Checker {
            place: Place::Item(0),
            operators: OpTable::iso(alloc)?,
            quotes: Quotes::Codes,
            out: Vec::new(alloc),
            faults: 0,
            clauses: 0,
            directives: 0,
        };
        if bytes.len() > MOST_BYTES {
            put_too_large(&mut checker.out, name)?;
            checker.faults = 1;
            checker.place = Place::End;
        }
        Ok(checker)
    }

    /// Takes up the item at the byte `at` or after it. The only error is out of memory.
    pub fn take(
        &mut self,
        alloc: Global,
        name: &Text,
        bytes: &[u8],
        at: usize,
    ) -> Result<(), Memory>
        requires room { counted self.old + 1 < 2 ^ 64 }
        ensures stands { (c : Checking) → Stands name.now self.old c
            → OnOk result (Stands name.now self.new (with_item bytes.now at c (item_of bytes.now at c.operators c.quotes))) }
        ensures counted { OnOk result (counted self.new ≤ counted self.old + 1) }
    {
        match read_term(alloc, bytes, at, &self.operators, self.quotes) {
            Read::Clause { term, next, .. } => {
                self.place = Place::Item(next);
                self.take_term(alloc, &term)
            }
            Read::End => {
                self.place = Place::End;
                Ok(())
            }
            Read::Syntax { kind, at: fault } => {
                self.place = behind_fault(bytes, at, kind);
                self.take_fault(name, kind, fault)
            }
            Read::Memory => Err(Memory),
        }
    }

    /// Takes up the fault of this kind at this byte.
    fn take_fault(&mut self, name: &Text, kind: SyntaxKind, at: usize) -> Result<(), Memory>
        requires room { counted self.old + 1 < 2 ^ 64 }
        ensures stands { (c : Checking) → Stands name.now self.old c → OnOk result (Stands name.now self.new (with_fault c kind at)) }
        ensures counted { OnOk result (counted self.new ≤ counted self.old + 1) }
    {
        put_syntax_fault(&mut self.out, name, kind, at)?;
        self.faults += 1;
        Ok(())
    }

    /// Takes up the item that is this term.
    fn take_term(&mut self, alloc: Global, term: &Flat) -> Result<(), Memory>
        requires room { counted self.old + 1 < 2 ^ 64 }
        ensures stands { (name : Chars) (c : Checking) → Stands name self.old c → OnOk result (Stands name self.new (with_term c (directive_of term.now))) }
        ensures counted { OnOk result (counted self.new ≤ counted self.old + 1) }
    {
        match goal_in(term.nodes()) {
            None => {
                self.clauses += 1;
                Ok(())
            }
            Some(goal) => {
                self.directives += 1;
                let change = change_in(alloc, goal)?;
                self.make(change)
            }
        }
    }

    /// Makes a change. Where one of the operators is refused, none of them is put into the table.
    fn make(&mut self, change: Change) -> Result<(), Memory>
        ensures stands { (name : Chars) (c : Checking) → Stands name self.old c → OnOk result (Stands name self.new (after (effect_of change) c)) }
        ensures counted { counted self.new ≡ counted self.old }
    {
        match change {
            Change::Operators {
                priority,
                kind,
                names,
            } => {
                if is_any_refused(&self.operators, priority, kind, names.as_slice()) {
                    return Ok(());
                }
                put_operators(&mut self.operators, priority, kind, names.as_slice())
            }
            Change::Quotes(quotes) => {
                self.quotes = quotes;
                Ok(())
            }
            Change::Nothing => Ok(()),
        }
    }
}

/// Where reading goes on after a fault of this kind in the item that was looked for at the byte `at`.
fn behind_fault(bytes: &[u8], at: usize, kind: SyntaxKind) -> Place
    ensures { rest_of result ≡ rest_behind bytes.now at kind }
{
    match kind {
        SyntaxKind::OpenQuote => Place::End,
        SyntaxKind::OpenComment => Place::End,
        _ => Place::Item(skip(bytes, at)),
    }
}
