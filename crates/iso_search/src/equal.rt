//! Term unification (ISO 8.2).
ghost use Rattle.std.specs.Prelude.{◌≡◌, ◌≤◌, length, IfOk, OnOk};
ghost use Rattle.pl_term.specs.Tree.{more, none};
ghost use Rattle.pl_model.specs.BuiltinRows.{one_answer};
ghost use Rattle.pl_model.specs.History.{Proc};
ghost use Rattle.pl_model.specs.Control.{unified, with_row};
ghost use Rattle.pl_model.specs.Unify.{unify};
ghost use Rattle.term_store.specs.Contents.{Holds};
ghost use Rattle.iso_search.specs.Outcomes.{IsAfter, Setting, limits_in, state_in, result_in};
ghost use Rattle.iso_search.specs.Reading.{IsView, reads};
ghost use Rattle.iso_search.specs.Searching.{IsWhole, node_of};

use crate::outcome::Outcome;
use crate::search::Search;
use pl_term::Memory;
use term_store::Place;

impl Search {
    /// Unifies two terms: the tasks of the list are next, or the goal fails. The only error is out of memory.
    pub fn unify(&mut self, left: Place, right: Place, rest: usize) -> Result<Outcome, Memory>
        requires whole { IsWhole self.old }
        requires left { Holds self.old.store left }
        requires right { Holds self.old.store right }
        ensures whole { OnOk result (IsWhole self.new) }
        ensures after { IfOk result (IsAfter self.old self.new) }
        ensures step { IfOk result (λ o. (t : Setting) (p : Proc) → IsView t.view
            → let r = reads t.view self.old.store in let n = node_of t.view self.old rest in
            result_in t self.new n p o ≡ unified (state_in t self.old) n (unify (r left) (r right))) }
    {
        let same = self.store.unify(left, right)?;
        if same {
            Ok(Outcome::Run(rest))
        } else {
            Ok(Outcome::Fail)
        }
    }

    /// The built-in predicate `=`, whose inference was made (ISO 8.2.1). The only error is out of memory.
    pub fn equal(&mut self, left: Place, right: Place, rest: usize) -> Result<Outcome, Memory>
        requires whole { IsWhole self.old }
        requires left { Holds self.old.store left }
        requires right { Holds self.old.store right }
        ensures whole { OnOk result (IsWhole self.new) }
        ensures after { IfOk result (IsAfter self.old self.new) }
        ensures step { IfOk result (λ o. (t : Setting) (p : Proc) → IsView t.view
            → let r = reads t.view self.old.store in let n = node_of t.view self.old rest in
            result_in t self.new n p o
            ≡ with_row (limits_in t self.old) (state_in t self.old) n p (more (r left) (more (r right) none)) (one_answer (more (r right) (more (r right) none)))) }
    {
        match self.take(0, 0) {
            Some(fault) => Ok(Outcome::Raise(fault)),
            None => {
                let outcome = self.unify(left, right, rest)?;
                Ok(outcome)
            }
        }
    }
}
