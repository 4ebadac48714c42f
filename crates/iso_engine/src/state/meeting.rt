//! Clauses that retractall/1 looks at: whether their heads unify with its own (ISO Cor.2 8.9.5).
ghost use Rattle.std.specs.Prelude.{◌≡◌, ◌≤◌, ◌+◌, length, is_some, IfOk, IfSome, OnOk};
ghost use Rattle.pl_term.specs.Variables.{variables};
ghost use Rattle.pl_model.specs.History.{head_part};
ghost use Rattle.pl_model.specs.Terms.{raised_by};
ghost use Rattle.pl_model.specs.Unify.{unify};
ghost use Rattle.term_store.specs.Contents.{Adds, Holds, IsAbove};
ghost use Rattle.term_store.specs.NumberedNames.{term_by};
ghost use Rattle.world_api.specs.Texts.{text_of};
ghost use Rattle.iso_search.specs.Errors.{IsOfBudget};
ghost use Rattle.iso_search.specs.Reading.{IsView, View, reads};
ghost use Rattle.iso_search.specs.Searching.{IsWhole};
ghost use Rattle.iso_engine.specs.Clearing.{IsMet, IsMetFault};

use crate::call::clauses::{build_clause, parts_at};
use iso_search::outcome::Fault;
use iso_search::search::Search;
use pl_model::kept::Kept;
use pl_term::Memory;
use term_store::{Place, Stored};

/// What came of a clause that is looked at.
#[derive(Clone, Copy, Debug, Drop)]
pub enum Met {
    /// Its head unifies.
    Meets,
    /// It does not.
    Differs,
    /// There were no numbers or no cells for it.
    Raises(Fault),
}

/// Looks at a clause: whether its head unifies with the head at a place. Numbers are taken for its variables; its cells and bindings
/// go back at once. The only error is out of memory.
pub fn meet_clause(search: &mut Search, head: Place, clause: &Stored) -> Result<Met, Memory>
    requires whole { IsWhole search.old }
    requires head { Holds search.old.store head }
    ensures whole { OnOk result (IsWhole search.new) }
    ensures met { IfOk result (IsMet search.old head clause.now search.new) }
    ensures fault { IfOk result IsMetFault }
    ensures kept { OnOk result (search.new ≡ record search.old { next_variable = search.new.next_variable }) }
{
    let from = search.next_variable;
    let _nodes = clause.nodes();
    let mark = search.store.mark();
    let cells = Kept::cells(clause);
    match search.take(clause.variables(), cells) {
        Some(fault) => Ok(Met::Raises(fault)),
        None => {
            let meets = unifies(search, head, clause, from)?;
            search.store.undo_to(mark);
            if meets {
                Ok(Met::Meets)
            } else {
                Ok(Met::Differs)
            }
        }
    }
}

/// Whether the head of a clause whose numbers and cells were taken unifies with the head at a place. A copy of it is made. The only
/// error is out of memory.
fn unifies(search: &mut Search, head: Place, clause: &Stored, from: u64) -> Result<bool, Memory>
    requires whole { IsWhole search.old }
    requires head { Holds search.old.store head }
    requires above { IsAbove from search.old.store }
    requires taken { from + length (variables clause.now) ≤ search.old.next_variable }
    ensures unified { IfOk result (λ b. (v : View) → IsView v
        → is_some (unify (reads v search.old.store head) (raised_by from (head_part (term_by (text_of v.names) clause.now)))) ≡ b) }
    ensures adds { OnOk result (Adds search.old.store search.new.store) }
    ensures budget { OnOk result (search.new.store.budget ≡ search.old.store.budget) }
    ensures kept { OnOk result (search.new ≡ record search.old { store = search.new.store }) }
{
    let copy = build_clause(search, clause, from)?;
    let parts = parts_at(&search.store, copy);
    let same = search.store.unify(head, parts.0)?;
    Ok(same)
}
