//! The start of a search.
ghost use Rattle.std.specs.Prelude.{◌≡◌, [], length, zero, IfOk, IsSome, OnOk};
ghost use Rattle.std.specs.List.{All};
ghost use Rattle.atom_api.specs.Names.{Names};
ghost use Rattle.term_store.specs.NumberedNames.{atoms_in};
ghost use Rattle.world_api.specs.Told.{Told};
ghost use Rattle.iso_engine.specs.Views.{view_of};
ghost use Rattle.iso_engine.specs.Ready.{IsReady};
ghost use Rattle.pl_model.specs.History.{Proc};
ghost use Rattle.pl_model.specs.BodyChecks.{body_of};
ghost use Rattle.pl_model.specs.Control.{start};
ghost use Rattle.term_store.specs.Contents.{Holds};
ghost use Rattle.iso_search.specs.Outcomes.{Setting, doing_by, result_in};
ghost use Rattle.iso_search.specs.Reading.{IsView, View, reads};
ghost use Rattle.iso_search.specs.Searching.{IsWhole, node_of};
ghost use Rattle.iso_search.specs.Spelling.{spelled, text_of};
ghost use Rattle.iso_engine.specs.Following.{IsPlaced};
ghost use Rattle.iso_engine.specs.Standing.{doing_of, limits_of, state_now};
ghost use Rattle.iso_engine.specs.Starting.{IsFresh, IsKind, IsNamed, begun, outcome_of, proc_begun};

use crate::doing::Doing;
use crate::engine::{Engine, Stays};
use crate::following::follow;
use crate::procedure::procedure_at;
use crate::variables::variables_at;
use atom_api::fixed;
use iso_search::calls::Checked;
use iso_search::frames::Task;
use iso_search::outcome::{Fault, Outcome};
use iso_search::search::{Budgets, Search};
use pl_term::Memory;
use std::alloc::Global;
use term_store::{Place, Store, Stored};
use world_api::Procedure;

/// What comes of a goal at its start.
#[derive(Clone, Copy, Drop)]
pub enum Begun {
    /// It is no goal.
    Refused(Fault),
    /// It takes its cells, or there are too few.
    Taken(Outcome),
}

/// Checks the goal at a place whole, which then takes so many cells. The only error is out of memory.
fn begin(alloc: Global, search: &mut Search, place: Place, cells: u64) -> Result<Begun, Memory>
    requires whole { IsWhole search.old }
    requires place { Holds search.old.store place }
    ensures whole { OnOk result (IsWhole search.new) }
    ensures budgets { OnOk result (search.new.budgets ≡ search.old.budgets) }
    ensures placed { IfOk result (λ b. IsPlaced search.new.store (outcome_of b)) }
    ensures step { IfOk result (λ b. (t : Setting) (p : Proc) → IsView t.view
        → result_in t search.new (node_of t.view search.old 0) p (outcome_of b) ≡ begun t search.old p (reads t.view search.old.store place) cells) }
    ensures kind { IfOk result (λ b. (v : View) → IsView v → IsKind b (body_of (reads v search.old.store place))) }
{
    let checked = search.check_body(alloc, place)?;
    match checked {
        Checked::Refused(fault) => Ok(Begun::Refused(fault)),
        Checked::Goal(goal) => match search.take(0, cells) {
            Some(fault) => Ok(Begun::Taken(Outcome::Raise(fault))),
            None => {
                let height = search.choices.len();
                let list = search.push(Task::Goal(goal, height), 0)?;
                Ok(Begun::Taken(Outcome::Run(list)))
            }
        },
    }
}

/// What is done first, where the goal has this predicate. The only error is out of memory.
fn started(
    alloc: Global,
    search: &Search,
    begun: Begun,
    procedure: Option<Procedure>,
) -> Result<Doing, Memory>
    requires { IsPlaced search.now.store (outcome_of begun) }
    ensures doing { IfOk result (λ d. (t : Setting) → IsView t.view → doing_of t.view search.now d
        ≡ doing_by t search.now (node_of t.view search.now 0) (proc_begun t.view begun procedure) (outcome_of begun)) }
    ensures named { OnOk result (IsNamed begun procedure) }
{
    match begun {
        Begun::Refused(fault) => {
            let consult = Procedure {
                name: fixed::CONSULT,
                arity: 1,
            };
            let doing = follow(alloc, search, Outcome::Raise(fault), consult, 0)?;
            Ok(doing)
        }
        Begun::Taken(outcome) => {
            let Some(known) = procedure else {
                return Err(Memory);
            };
            let doing = follow(alloc, search, outcome, known, 0)?;
            Ok(doing)
        }
    }
}

impl Engine {
    /// An engine that searches for so many solutions of a goal, whose variables are numbered from 0 on in the order in which they
    /// first occur. The goal is checked whole, and takes its own cells. Whether thread_exit/1 leaves what is run is `stays`. The
    /// only error is out of memory.
    pub fn new(
        alloc: Global,
        goal: &Stored,
        budgets: Budgets,
        solutions: u64,
        stays: Stays,
    ) -> Result<Engine, Memory>
        ensures whole { IfOk result (λ e. IsWhole e.search) }
        ensures fresh { IfOk result (IsFresh budgets solutions stays) }
        ensures ready { IfOk result (λ e. (m : Names) (t : Told) → IsView (view_of m t) → All (λ a. IsSome (m a)) (atoms_in goal.now) → IsReady m t e) }
        ensures starts { IfOk result (λ e. (v : View) → IsView v → state_now v e []
            ≡ start (limits_of e) (spelled (text_of v.names) goal.now)) }
    {
        let _numbered = goal.nodes();
        let count = goal.variables();
        let need = goal.cells();
        let mut store = Store::new(alloc, budgets.cells)?;
        let place = store.build(goal, 0)?;
        let answer = variables_at(alloc, &store, place, count)?;
        let mut search = Search {
            store,
            frames: Vec::new(alloc),
            choices: Vec::new(alloc),
            answer,
            next_variable: count,
            inferences: 0,
            budgets,
        };
        let procedure = procedure_at(&search.store, place);
        let begun = begin(alloc, &mut search, place, need)?;
        let doing = started(alloc, &search, begun, procedure)?;
        Ok(Engine {
            search,
            doing,
            solution_limit: solutions,
            solutions_found: 0,
            stays,
            out_of_memory: false,
            alloc,
        })
    }
}
