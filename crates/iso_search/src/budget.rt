//! What is taken from the budgets.
ghost use Rattle.std.specs.Prelude.{◌≡◌, ◌+◌, ◌<◌, ◌^◌, ℕ, IfNone, IfSome};
ghost use Rattle.pl_term.specs.Tree.{Tree};
ghost use Rattle.pl_model.specs.History.{Proc};
ghost use Rattle.pl_model.specs.Resolution.{Node, State, Next};
ghost use Rattle.pl_model.specs.Control.{costing, fitting, taking};
ghost use Rattle.iso_search.specs.Budgeting.{IsCopyOf, after_inference, after_taking, fitted};
ghost use Rattle.iso_search.specs.Errors.{IsOfBudget};
ghost use Rattle.iso_search.specs.Outcomes.{Setting, limits_in, state_in};
ghost use Rattle.iso_search.specs.Reading.{View};
ghost use Rattle.iso_search.specs.Searching.{IsWhole, choices_of, node_of};

use crate::outcome::Fault;
use crate::search::Search;

impl Search {
    /// Makes one inference, and says whether it could: it cannot where the budget is spent.
    pub fn infer(&mut self) -> bool
        requires { IsWhole self.old }
        ensures whole { IsWhole self.new }
        ensures step { (t : Setting) (n : Node) (g : Tree) (next : State → Next)
            → after_inference t self.new n g next result ≡ costing (limits_in t self.old) (state_in t self.old) n g next }
        ensures kept { self.new ≡ record self.old { inferences = self.new.inferences } }
    {
        if self.inferences >= self.budgets.inferences {
            return false;
        }
        self.inferences += 1;
        true
    }

    /// Takes numbers for so many new variables, and so many cells. Where the numbers or the budget of cells are spent it
    /// answers which of them is, and takes none of either.
    #[inline(always)]
    pub fn take(&mut self, variables: u64, cells: u64) -> Option<Fault>
        requires { IsWhole self.old }
        ensures whole { IsWhole self.new }
        ensures step { (t : Setting) (list : ℕ) (p : Proc) (next : State → Node → State)
            → let n = node_of t.view self.old list in
            after_taking t self.new list n p next result ≡ taking (limits_in t self.old) (state_in t self.old) n p variables cells next }
        ensures choices { (v : View) → choices_of v self.new ≡ choices_of v self.old }
        ensures fits { (t : Setting) (list : ℕ) (ball : Tree) → IsCopyOf ball variables cells
            → fitted t self.old ball result ≡ fitting (limits_in t self.old) (state_in t self.old) (node_of t.view self.old list) ball }
        ensures taken { IfNone result (self.new.next_variable ≡ self.old.next_variable + variables) }
        ensures used { IfNone result (self.new.store.used ≡ self.old.store.used + cells) }
        ensures budgets { IfSome result IsOfBudget }
        ensures refused { IfSome result (λ _. self.new ≡ self.old) }
        ensures kept { self.new ≡ record self.old {
          store = record self.old.store { used = self.new.store.used };
          next_variable = self.new.next_variable;
        } }
    {
        if variables > u64::MAX - self.next_variable {
            return Some(Fault::Inferences);
        }
        match self.store.charge(cells) {
            Ok(()) => {
                self.next_variable += variables;
                None
            }
            Err(_) => Some(Fault::Cells),
        }
    }
}
