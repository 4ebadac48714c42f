//! Consulting a file (ISO 7.4.2): its items one after the other, each read under the operators and the flag of its own
//! visit, and after its end the goals of initialization/1.
ghost use Rattle.std.specs.Prelude.{◌≡◌, List, ℕ, [], None, Some, IfOk, OnOk, encode_utf8_all};
ghost use Rattle.pl_term.specs.Tree.{Chars, Tree};
ghost use Rattle.pl_model.specs.Requests.{standing, refused};
ghost use Rattle.pl_model.specs.Resolution.{Ending as EndOfSearch};
ghost use Rattle.pl_model.specs.BodyChecks.{clause_of_term};
ghost use Rattle.pl_model.specs.OperatorTable.{OperatorTable};
ghost use Rattle.run_model.specs.Execution.{directive_of as goal_of_directive, initialization_of as goal_for_later, Job, consults, Execution, at_start, item_taken, with_term, with_clause, with_goal, clause_added, reported, next_initialization, behind_fault as rest_behind};
ghost use Rattle.run_model.specs.Report.{all_consulted};
ghost use Rattle.run_model.specs.Lawful.{EndsSo};
ghost use Rattle.pl_consult.specs.declared.consult.Place.TheVariants.{Item};
ghost use Rattle.pl_consult.specs.Consults.{is_too_large, first_place, first_lines, rest_of, activity_of, Stands, Took, Initializes};
ghost use Rattle.pl_consult.specs.Taking.{IsTakenOf, IsTakenAt, HasPutOff, MayPutOff, IsNextOf, HasLost};

use crate::bodies::{Checked, bounded_variables, checked_clause};
use crate::items::{directive_of, initialization_of};
use crate::words::consulting_ball;
use named_terms::NamedTerm;
use op_table::OpTable;
use pl_model::ends::How;
use pl_model::grammar::Quotes;
use pl_model::syntax::SyntaxKind;
use pl_report::{
    put_failed_directive, put_halted_directive, put_no_atom_space, put_refused_item,
    put_syntax_fault, put_too_large, put_uncaught_item,
};
use pl_term::{Flat, Memory, Text};
use prolog_reader::{Read, read_term, skip};
use std::alloc::Global;
use std::collections::VecDeque;

/// The most bytes that a file may have: 16 MiB.
const MOST_BYTES: usize = 16_777_216;

/// Where consulting goes on.
#[derive(Debug, Clone, Copy, PartialEq, Eq, Drop)]
pub enum Place {
    /// At the item that stands at this byte or after it.
    Item(usize),
    /// With the goals of initialization/1, after the end of the file.
    Initialization,
}

/// What is to be done with an item that was taken up.
#[derive(Debug, Drop)]
pub enum Taken {
    /// This clause is to be added, `Head :- Body` with its variables numbered from 0; its item is at this byte.
    Clause { clause: Flat, place: usize },
    /// This goal of a directive is to be run; its item is at this byte.
    Directive { goal: Flat, place: usize },
    /// Nothing more.
    Passed,
}

/// A file that is being consulted: its text and its name, where consulting goes on, and the goals of initialization/1 that
/// were not run yet, each with the byte of its item.
#[derive(Debug, Drop)]
pub struct Consult {
    pub text: Vec<u8>,
    pub name: Text,
    pub place: Place,
    pub later: VecDeque<(usize, Flat)>,
}

impl Consult {
    /// A file with this text and this name, before its first item. A file of more than 16 MiB has no items, and `out`
    /// gets the line that says so. The only error is out of memory.
    pub fn new(
        alloc: Global,
        text: Vec<u8>,
        name: &Text,
        out: &mut Vec<u8>,
    ) -> Result<Consult, Memory>
        requires { out.old.items ≡ [] }
        ensures stands { (job : Job) (words : List Chars) → job.script ≡ consults text.items words
            → IfOk result (λ c. Stands c job (at_start job) out.new.items × ((at_start job).activity ≡ activity_of c.place)) }
        ensures file { IfOk result (λ c. (c.name ≡ name.now) × (c.text.items ≡ text.items) × (c.later.items ≡ [])) }
    {
        let place = first_place(text.as_slice(), name, out)?;
        Ok(Consult {
            text,
            name: name.copy(alloc)?,
            place,
            later: VecDeque::new(alloc),
        })
    }

    /// Takes up the item at the byte `at` or after it, under these operators, and with texts in double quotes as
    /// `quotes` says. A fault of it is written on `out`. The only error is out of memory.
    pub fn take(
        &mut self,
        alloc: Global,
        at: usize,
        ops: &OpTable,
        quotes: Quotes,
        out: &mut Vec<u8>,
    ) -> Result<Taken, Memory>
        ensures named { self.new.name ≡ self.old.name }
        ensures took { (job : Job) (x : Execution) → Stands self.old job x out.old.items
            → IfOk result (λ taken. Took taken self.old.name self.new job ops.now (item_taken job x at (standing ops.now quotes)) out.new.items) }
        ensures text { self.new.text.items ≡ self.old.text.items }
        ensures item { IfOk result (IsTakenAt self.old.text.items at ops.now quotes) }
        ensures later { HasPutOff self.old.text.items at ops.now quotes self.old.later.items self.new.later.items }
    {
        match read_term(alloc, self.text.as_slice(), at, ops, quotes) {
            Read::Clause {
                term,
                names: _,
                start,
                next,
            } => self.take_term(alloc, term, start, next, ops, out),
            Read::End => {
                self.place = Place::Initialization;
                Ok(Taken::Passed)
            }
            Read::Syntax { kind, at: fault } => {
                put_syntax_fault(out, &self.name, kind, fault)?;
                self.place = self.behind_fault(at, kind);
                Ok(Taken::Passed)
            }
            Read::Memory => Err(Memory),
        }
    }

    /// Where reading goes on after a fault of the item that was looked for at the byte `at`.
    fn behind_fault(&self, at: usize, kind: SyntaxKind) -> Place
        ensures { rest_of result ≡ rest_behind self.now.text.items at kind }
    {
        match kind {
            SyntaxKind::OpenQuote => Place::Initialization,
            SyntaxKind::OpenComment => Place::Initialization,
            _ => Place::Item(skip(self.text.as_slice(), at)),
        }
    }

    /// Takes up the item that is this term, between these bytes.
    fn take_term(
        &mut self,
        alloc: Global,
        term: Flat,
        start: usize,
        next: usize,
        ops: &OpTable,
        out: &mut Vec<u8>,
    ) -> Result<Taken, Memory>
        ensures named { self.new.name ≡ self.old.name }
        ensures took { (job : Job) (x : Execution) → Stands self.old job x out.old.items
            → IfOk result (λ taken. Took taken self.old.name self.new job ops.now (with_term job x ops.now start next term (goal_of_directive term)) out.new.items) }
        ensures text { self.new.text.items ≡ self.old.text.items }
        ensures item { IfOk result (IsTakenOf term) }
        ensures later { MayPutOff term self.old.later.items self.new.later.items }
    {
        self.place = Place::Item(next);
        match directive_of(alloc, &term)? {
            None => self.take_clause(alloc, &term, start, ops, out),
            Some(goal) => self.take_directive(alloc, goal, start),
        }
    }

    /// Takes up the item that is this clause-term, at this byte.
    fn take_clause(
        &self,
        alloc: Global,
        term: &Flat,
        start: usize,
        ops: &OpTable,
        out: &mut Vec<u8>,
    ) -> Result<Taken, Memory>
        ensures took { (job : Job) (x : Execution) (next : ℕ) → Stands self.now job x out.old.items → self.now.place ≡ Item next
            → IfOk result (λ taken. Took taken self.now.name self.now job ops.now (with_clause x ops.now start next (clause_of_term term.now)) out.new.items) }
        ensures item { goal_of_directive term.now ≡ None → IfOk result (IsTakenOf term.now) }
    {
        let checked = checked_clause(alloc, term)?;
        match checked {
            Checked::Clause(clause) => Ok(Taken::Clause {
                clause,
                place: start,
            }),
            Checked::Refused(error) => {
                self.refuse(alloc, start, error, ops, out)?;
                Ok(Taken::Passed)
            }
        }
    }

    /// Takes up the goal of the directive at this byte.
    fn take_directive(&mut self, alloc: Global, goal: Flat, start: usize) -> Result<Taken, Memory>
        ensures named { self.new.name ≡ self.old.name }
        ensures took { (job : Job) (x : Execution) (next : ℕ) (out : List ℕ) (ops : OperatorTable) → Stands self.old job x out → self.old.place ≡ Item next
            → IfOk result (λ taken. Took taken self.old.name self.new job ops (with_goal job x start next goal (goal_for_later goal)) out) }
        ensures text { self.new.text.items ≡ self.old.text.items }
        ensures item { (t : Tree) → goal_of_directive t ≡ Some goal → IfOk result (IsTakenOf t) }
        ensures later { (t : Tree) → goal_of_directive t ≡ Some goal → MayPutOff t self.old.later.items self.new.later.items }
    {
        match initialization_of(alloc, &goal)? {
            None => Ok(Taken::Directive { goal, place: start }),
            Some(later) => {
                self.later.push_back((start, later))?;
                Ok(Taken::Passed)
            }
        }
    }

    /// Writes on `out` that the clause of the item at the byte `place` is refused with this error term. The only error is
    /// out of memory.
    pub fn refuse(
        &self,
        alloc: Global,
        place: usize,
        error: Flat,
        ops: &OpTable,
        out: &mut Vec<u8>,
    ) -> Result<(), Memory>
        ensures { (job : Job) (x : Execution) (next : ℕ) → Stands self.now job x out.old.items
            → OnOk result (Stands self.now job (clause_added x ops.now place next (refused error)) out.new.items) }
    {
        let ball = consulting_ball(alloc, error)?;
        put_refused_item(alloc, out, &self.name, place, &ball, ops)
    }

    /// Writes on `out` how the directive of the item at the byte `place` ended, under these operators. The only error is
    /// out of memory.
    pub fn report(
        &self,
        alloc: Global,
        place: usize,
        how: &How<NamedTerm>,
        ops: &OpTable,
        out: &mut Vec<u8>,
    ) -> Result<(), Memory>
        ensures { (job : Job) (x : Execution) (e : EndOfSearch) → Stands self.now job x out.old.items → EndsSo e how.now
            → OnOk result (Stands self.now job (reported x place (rest_of self.now.place) e ops.now) out.new.items) }
    {
        match how {
            How::False => put_failed_directive(out, &self.name, place),
            How::Threw(ball) => put_uncaught_item(alloc, out, &self.name, place, ball, ops),
            How::Halted(status) => put_halted_directive(out, &self.name, place, *status),
            How::AtomSpace(_) => put_no_atom_space(out, &self.name, place),
            How::Solved => Ok(()),
            How::Exited(_) => Ok(()),
        }
    }

    /// The next goal of initialization/1 that is to be run, its variables numbered from 0, with the byte of its item; or
    /// none. The only error is out of memory.
    pub fn next_goal(&mut self, alloc: Global) -> Result<Option<(usize, Flat)>, Memory>
        ensures named { self.new.name ≡ self.old.name }
        ensures gives { (job : Job) (x : Execution) (out : List ℕ) → Stands self.old job x out
            → IfOk result (λ g. Stands self.new job (next_initialization job x x.later) out
            × Initializes g job (next_initialization job x x.later).activity
            × (self.new.place ≡ self.old.place) × (self.new.name ≡ self.old.name)) }
        ensures text { self.new.text.items ≡ self.old.text.items }
        ensures goal { IfOk result (λ g. IsNextOf g self.old.later.items self.new.later.items) }
        ensures later { HasLost self.old.later.items self.new.later.items }
    {
        match self.later.pop_front() {
            None => Ok(None),
            Some((place, goal)) => {
                bounded_variables(&goal);
                let (copy, _) = goal.rename(alloc, 0)?;
                Ok(Some((place, copy)))
            }
        }
    }
}

/// Where consulting of this text begins.
fn first_place(text: &[u8], name: &Text, out: &mut Vec<u8>) -> Result<Place, Memory>
    requires { out.old.items ≡ [] }
    ensures place { IfOk result (λ p. p ≡ first_place (is_too_large text.now)) }
    ensures lines { OnOk result (out.new.items ≡ encode_utf8_all (all_consulted name.now [] (first_lines (is_too_large text.now)))) }
{
    if text.len() > MOST_BYTES {
        put_too_large(out, name)?;
        return Ok(Place::Initialization);
    }
    Ok(Place::Item(0))
}
