//! Unification with the head of a clause (ISO 7.7.10).
ghost use Rattle.std.specs.Prelude.{◌≡◌, IfOk, OnOk};
ghost use Rattle.pl_model.specs.History.{Proc};
ghost use Rattle.pl_model.specs.Control.{unified};
ghost use Rattle.pl_model.specs.Unify.{unify};
ghost use Rattle.term_store.specs.Contents.{Holds, IsMark};
ghost use Rattle.iso_search.specs.Outcomes.{IsAfter, Setting, state_in, result_in};
ghost use Rattle.iso_search.specs.Reading.{IsView, reads};
ghost use Rattle.iso_search.specs.Searching.{IsWhole, node_of};

use crate::outcome::Outcome;
use crate::search::Search;
use pl_term::Memory;
use term_store::{Place, StoreMark};

impl Search {
    /// Does what `unify` does, in less time where a term was made since the mark and nothing was bound since, as the copy of a
    /// clause. The only error is out of memory.
    pub fn unify_since(
        &mut self,
        mark: StoreMark,
        left: Place,
        right: Place,
        rest: usize,
    ) -> Result<Outcome, Memory>
        requires whole { IsWhole self.old }
        requires mark { IsMark mark self.old.store }
        requires left { Holds self.old.store left }
        requires right { Holds self.old.store right }
        ensures whole { OnOk result (IsWhole self.new) }
        ensures after { IfOk result (IsAfter self.old self.new) }
        ensures step { IfOk result (λ o. (t : Setting) (p : Proc) → IsView t.view
            → let r = reads t.view self.old.store in let n = node_of t.view self.old rest in
            result_in t self.new n p o ≡ unified (state_in t self.old) n (unify (r left) (r right))) }
    {
        let same = self.store.unify_since(mark, left, right)?;
        if same {
            Ok(Outcome::Run(rest))
        } else {
            Ok(Outcome::Fail)
        }
    }
}
