//! All solutions of a goal (ISO 8.10.1).
ghost use Rattle.std.specs.Prelude.{◌≡◌, ◌≤◌, ◌<◌, ◌+◌, ◌*◌, ◌^◌, ℕ, length, map, reverse, zero, IfOk, IsTrue, MatchOption, OnOk};
ghost use Rattle.std.specs.List.{All};
ghost use Rattle.pl_term.specs.Cells.{cells};
ghost use Rattle.pl_term.specs.Tree.{Tree};
ghost use Rattle.pl_term.specs.Variables.{variables};
ghost use Rattle.pl_model.specs.Predicates.{proc_of};
ghost use Rattle.pl_model.specs.Control.{collected, findall_proc, list_made, with_findall};
ghost use Rattle.term_store.specs.Contents.{Holds, IsAbove, term_at};
ghost use Rattle.iso_search.specs.Collecting.{AreBuilt, IsCollectionIn, IsJoined, Rise, cells_held, copies_of, copy_over};
ghost use Rattle.iso_search.specs.Lists.{IsListBuilt};
ghost use Rattle.iso_search.specs.Outcomes.{IsAfter, Setting, limits_in, result_in, state_in};
ghost use Rattle.iso_search.specs.Reading.{IsView, reads};
ghost use Rattle.iso_search.specs.Searching.{IsWhole, node_of};

use crate::choices::{Alternative, ChoicePoint};
use crate::control::Exit;
use crate::copies::{Collection, Copied};
use crate::lists::{is_list_or_partial, make_list};
use crate::outcome::{Fault, Outcome};
use crate::recovering::MOST_DOUBLED;
use crate::search::Search;
use pl_term::Memory;
use std::alloc::Global;
use term_store::{Place, Store, View as Kind};

impl Search {
    /// `findall/3` of a template, a goal and a list: calls the goal over a choice point that collects, in which a cut is
    /// local. The only error is out of memory.
    pub fn find_all(
        &mut self,
        alloc: Global,
        template: Place,
        inner: Place,
        list: Place,
        rest: usize,
    ) -> Result<Outcome, Memory>
        requires whole { IsWhole self.old }
        requires template { Holds self.old.store template }
        requires inner { Holds self.old.store inner }
        requires list { Holds self.old.store list }
        requires rest { rest ≤ length self.old.frames.items }
        ensures whole { OnOk result (IsWhole self.new) }
        ensures after { IfOk result (IsAfter self.old self.new) }
        ensures step { IfOk result (λ o. (t : Setting) (g : Tree) → IsView t.view
            → let r = reads t.view self.old.store in let n = node_of t.view self.old rest in
            result_in t self.new n (proc_of g) o
            ≡ with_findall (limits_in t self.old) (state_in t self.old) n g (r template) (r inner) (r list)) }
    {
        match self.store.look(inner) {
            Kind::Variable(_) => Ok(Outcome::Raise(Fault::Instantiation)),
            Kind::Integer(_) => Ok(Outcome::Raise(Fault::NotCallable(inner))),
            _ => {
                let partial = is_list_or_partial(&self.store, list)?;
                if !partial {
                    return Ok(Outcome::Raise(Fault::NotList(list)));
                }
                let found = Collection {
                    copies: Vec::new(alloc),
                    cells: 0,
                };
                let running = Alternative::Findall { list, found };
                let outcome = self.call_over(alloc, running, inner, Exit::Collect(template), rest)?;
                Ok(outcome)
            }
        }
    }

    /// Puts a copy of the template, whose variables are new ones, after those that the `findall/3` whose choice point stands
    /// at the height has collected, and fails. The copy's cells stay taken until that choice point goes. The only error is
    /// out of memory.
    pub fn collect(&mut self, template: Place, height: usize) -> Result<Outcome, Memory>
        requires whole { IsWhole self.old }
        requires template { Holds self.old.store template }
        ensures whole { OnOk result (IsWhole self.new) }
        ensures after { IfOk result (IsAfter self.old self.new) }
        ensures step { IfOk result (λ o. (t : Setting) (rest : ℕ) → IsView t.view
            → let n = node_of t.view self.old rest in
            result_in t self.new n findall_proc o
            ≡ collected (limits_in t self.old) (state_in t self.old) n (reads t.view self.old.store template) height) }
    {
        let too_large = self.is_too_large(template)?;
        if too_large {
            return Ok(Outcome::Raise(Fault::Cells));
        }
        let term = self.store.save(template)?;
        let cells = term.cells();
        let count = term.variables();
        if count > u64::MAX - self.next_variable {
            return Ok(Outcome::Raise(Fault::Inferences));
        }
        match self.store.reserve(cells) {
            Err(_) => Ok(Outcome::Raise(Fault::Cells)),
            Ok(()) => {
                let _most = self.budgets.cells;
                let from = self.next_variable;
                self.next_variable += count;
                let joined = join(&mut self.choices, height, Copied { term, from })?;
                if !joined {
                    self.store.release(cells);
                }
                Ok(Outcome::Fail)
            }
        }
    }

    /// Whether the term at a place has more cells than the whole budget, in time linear in the budget, where there are numbers
    /// for as many variables as the term can have. The only error is out of memory.
    fn is_too_large(&self, place: Place) -> Result<bool, Memory>
        requires whole { IsWhole self.now }
        requires place { Holds self.now.store place }
        ensures cells { IfOk result (λ b. IsTrue b → self.now.budgets.cells < cells (term_at self.now.store place)) }
        ensures numbers { IfOk result (λ b. IsTrue b → self.now.next_variable + length (variables (term_at self.now.store place)) < 2 ^ 64) }
    {
        if self.next_variable > MOST_DOUBLED {
            return Ok(false);
        }
        let _here = self.store.mark();
        let counted = self.store.cells_within(place, self.budgets.cells)?;
        Ok(counted.is_none())
    }

    /// The end of a `findall/3` whose goal has no further solution: unifies its third argument with the list of the copies
    /// that it has collected. The only error is out of memory.
    pub fn give_list(
        &mut self,
        alloc: Global,
        list: Place,
        found: Collection,
        rest: usize,
    ) -> Result<Outcome, Memory>
        requires whole { IsWhole self.old }
        requires list { Holds self.old.store list }
        requires found { IsCollectionIn self.old.store found }
        requires rise { Rise zero found.copies.items self.old.next_variable }
        ensures whole { OnOk result (IsWhole self.new) }
        ensures after { IfOk result (IsAfter self.old self.new) }
        ensures step { IfOk result (λ o. (t : Setting) → IsView t.view
            → let n = node_of t.view self.old rest in
            result_in t self.new n findall_proc o
            ≡ list_made (limits_in t self.old) (state_in t self.old) n (reads t.view self.old.store list) (copies_of t.view found)) }
    {
        let _next = self.next_variable;
        let _most = self.budgets.cells;
        let Some(need) = list_cells(&found) else {
            return Ok(Outcome::Raise(Fault::Cells));
        };
        match self.take(0, need) {
            Some(fault) => Ok(Outcome::Raise(fault)),
            None => {
                let made = self.build_list(alloc, &found.copies)?;
                let outcome = self.unify(list, made, rest)?;
                Ok(outcome)
            }
        }
    }

    /// Builds the list of the copies, whose numbers and cells were taken.
    fn build_list(&mut self, alloc: Global, copies: &[Copied]) -> Result<Place, Memory>
        requires whole { IsWhole self.old }
        requires above { All (λ c. IsAbove c.from self.old.store) copies.now }
        requires rise { Rise zero copies.now self.old.next_variable }
        ensures whole { OnOk result (IsWhole self.new) }
        ensures built { IfOk result (λ p. IsListBuilt self.old.store (map copy_over copies.now) self.new.store p) }
        ensures kept { self.new ≡ record self.old { store = self.new.store } }
    {
        let _next = self.next_variable;
        let items = build_all(alloc, &mut self.store, copies)?;
        let place = make_list(&mut self.store, &items)?;
        Ok(place)
    }
}

/// Puts a copy after the others where the choice point at the height is that of a `findall/3`, and says whether it is. The
/// only error is out of memory.
fn join(choices: &mut Vec<ChoicePoint>, height: usize, copy: Copied) -> Result<bool, Memory>
    requires { All (λ k. cells_held k.alternative + cells copy.term < 2 ^ 64) choices.old.items }
    ensures { IfOk result (λ b. IsJoined b copy height (reverse choices.old.items) (reverse choices.new.items)) }
{
    if height >= choices.len() {
        return Ok(false);
    }
    match &mut choices[height].alternative {
        Alternative::Findall { found, .. } => {
            found.cells += copy.term.cells();
            found.copies.push(copy)?;
            Ok(true)
        }
        _ => Ok(false),
    }
}

/// The cells of the list of the copies, where they are fewer than 2^64.
fn list_cells(found: &Collection) -> Option<u64>
    ensures { MatchOption result (2 ^ 64 ≤ found.now.cells + 3 * length found.now.copies.items) (λ n. n ≡ found.now.cells + 3 * length found.now.copies.items) }
{
    let most = found.copies.len() as u64;
    found.cells.checked_add(most.checked_mul(3)?)
}

/// Builds the copies, whose numbers and cells were taken. The only error is out of memory.
fn build_all(alloc: Global, store: &mut Store, copies: &[Copied]) -> Result<Vec<Place>, Memory>
    requires above { All (λ c. IsAbove c.from store.old) copies.now }
    requires rise { (high : ℕ) × (Rise zero copies.now high × (high < 2 ^ 64)) }
    ensures built { IfOk result (λ ps. AreBuilt store.old copies.now store.new ps.items) }
    ensures above { OnOk result ((low : ℕ) → IsAbove low store.old → Rise zero copies.now low → IsAbove low store.new) }
{
    let mut places = Vec::new(alloc);
    for copy in copies {
        let place = store.build(&copy.term, copy.from)?;
        places.push(place)?;
    }
    Ok(places)
}
