//! Refusals of requests.
ghost use Rattle.std.specs.Prelude.{◌≡◌, ℕ, zero, IfOk, IfSome, IsSome};
ghost use Rattle.std.specs.List.{All};
ghost use Rattle.pl_term.specs.Tree.{Tree};
ghost use Rattle.pl_term.specs.Variables.{rename};
ghost use Rattle.pl_model.specs.BuiltinRows.{error as gives_error};
ghost use Rattle.pl_model.specs.Terms.{arguments};
ghost use Rattle.atom_api.specs.Names.{Names};
ghost use Rattle.builtin_rows.specs.Lists.{IsNaming};
ghost use Rattle.term_store.specs.NumberedNames.{names_of, term_by};
ghost use Rattle.world_api.specs.Texts.{text_of};
ghost use Rattle.world_builtins.specs.Naming.{IsHeldAt};
ghost use Rattle.world_builtins.specs.Spelling.{reads};
ghost use Rattle.shared_builtins.specs.Faults.{IsFaultIn};
ghost use Rattle.shared_builtins.specs.Following.{IsErrorBy, IsErrorOf, IsKindNamed, first_of, has_options, kind_by, kind_one, kind_two, third_of};
ghost use Rattle.shared_builtins.specs.Goals.{IsStateGoal};
ghost use Rattle.shared_builtins.specs.Replies.{IsFaultNamed, IsFaultOfOptions, IsReplied};

use crate::faults::Fault;
use crate::goal::StateGoal;
use crate::names::{Listed, list_at};
use crate::options::options_at;
use crate::preds::{StateOne, StatePred, StateThree, StateTwo};
use crate::replies::Replied;
use atom_api::{Atom, fixed};
use pl_term::Memory;
use std::alloc::Global;
use term_store::{Store, Stored, View};

/// The error for which a request was refused. The only error of the call is out of memory.
pub fn refused(
    alloc: Global,
    store: &Store,
    goal: &StateGoal,
    error: Stored,
) -> Result<Replied, Memory>
    requires { IsStateGoal store.now goal.now }
    ensures { IfOk result (λ t. (m : Names) (e : Tree) (next : ℕ) → IsNaming m → IsHeldAt m store.now goal.now.place → All (λ a. IsSome (m a)) (names_of error)
        → rename zero e ≡ term_by (text_of m) error → IsErrorOf goal.now.pred (arguments (reads m store.now goal.now.place)) e
        → IsReplied m store.now next goal.now (gives_error e) store.now t) }
{
    if has_options(goal.pred) {
        creation_refused(alloc, store, goal, error)
    } else {
        Ok(refused_by(store, goal, error))
    }
}

/// Whether the predicate is thread_create/3, which takes options.
fn has_options(pred: StatePred) -> bool
    ensures { result ≡ has_options pred }
{
    match pred {
        StatePred::One(_) => false,
        StatePred::Two(_) => false,
        StatePred::Three(StateThree::Op) => false,
        StatePred::Three(StateThree::CurrentOp) => false,
        StatePred::Three(StateThree::CreateThread) => true,
    }
}

/// What is named by a compound term or a variable is there never, and that term, which may have variables, is the culprit as it stands; all
/// other errors have no variables.
pub fn refused_by(store: &Store, goal: &StateGoal, error: Stored) -> Replied
    requires { IsStateGoal store.now goal.now }
    ensures { (m : Names) (e : Tree) (next : ℕ) → IsNaming m → IsHeldAt m store.now goal.now.place → All (λ a. IsSome (m a)) (names_of error)
        → rename zero e ≡ term_by (text_of m) error → IsErrorBy (kind_by goal.now.pred) (first_of (arguments (reads m store.now goal.now.place))) e
        → IsReplied m store.now next goal.now (gives_error e) store.now result }
{
    match fault_named(store, goal) {
        Some(fault) => Replied::Refused(fault),
        None => Replied::Error(error),
    }
}

/// The error that what a compound term names is not there, where the first argument is one and is to name something.
fn fault_named(store: &Store, goal: &StateGoal) -> Option<Fault>
    requires { IsStateGoal store.now goal.now }
    ensures { (m : Names) → IsNaming m → IsHeldAt m store.now goal.now.place
        → IsFaultNamed m store.now (kind_by goal.now.pred) (first_of (arguments (reads m store.now goal.now.place))) result }
{
    let first = store.argument(goal.arguments, 0);
    match named_kind(goal.pred) {
        None => None,
        Some(kind) => match store.look(first) {
            View::Compound(_, _) => Some(Fault::For(fixed::EXISTENCE_ERROR, kind, first)),
            View::Variable(_) => Some(Fault::For(fixed::EXISTENCE_ERROR, kind, first)),
            View::Integer(_) => None,
            View::Atom(_) => None,
        },
    }
}

/// The error for which thread_create/3 was refused: that of the first wrong option, as the option stands, where it has variables.
/// The only error of the call is out of memory. So below.
fn creation_refused(
    alloc: Global,
    store: &Store,
    goal: &StateGoal,
    error: Stored,
) -> Result<Replied, Memory>
    requires goal { IsStateGoal store.now goal.now }
    requires creates { goal.now.pred ≡ StatePred.Three (StateThree.CreateThread) }
    ensures { IfOk result (λ t. (m : Names) (e : Tree) (next : ℕ) → IsNaming m → IsHeldAt m store.now goal.now.place → All (λ a. IsSome (m a)) (names_of error)
        → rename zero e ≡ term_by (text_of m) error → IsErrorOf goal.now.pred (arguments (reads m store.now goal.now.place)) e
        → IsReplied m store.now next goal.now (gives_error e) store.now t) }
{
    let count = error.variables();
    if count == 0 {
        return Ok(Replied::Error(error));
    }
    let wrong = option_fault(alloc, store, goal)?;
    match wrong {
        Some(fault) => Ok(Replied::Refused(fault)),
        None => Ok(Replied::Error(error)),
    }
}

/// The error of the first wrong option of a goal of thread_create/3, if one is wrong.
fn option_fault(alloc: Global, store: &Store, goal: &StateGoal) -> Result<Option<Fault>, Memory>
    requires goal { IsStateGoal store.now goal.now }
    requires creates { goal.now.pred ≡ StatePred.Three (StateThree.CreateThread) }
    ensures inside { IfOk result (λ o. IfSome o (IsFaultIn store.now)) }
    ensures error { IfOk result (λ o. (m : Names) → IsNaming m → IsHeldAt m store.now goal.now.place
        → IsFaultOfOptions m store.now (third_of (arguments (reads m store.now goal.now.place))) o) }
{
    let list = store.argument(goal.arguments, 2);
    let listed = list_at(alloc, store, list)?;
    match listed {
        Listed::Terms(terms) => {
            let options = options_at(alloc, store, terms.as_slice())?;
            Ok(options.fault)
        }
        Listed::Refused(_) => Ok(None),
    }
}

/// What the first argument names, if it names something.
fn named_kind(pred: StatePred) -> Option<Atom>
    ensures { IsKindNamed (kind_by pred) result }
{
    match pred {
        StatePred::One(pred) => named_kind_one(pred),
        StatePred::Two(pred) => named_kind_two(pred),
        StatePred::Three(_) => None,
    }
}

fn named_kind_one(pred: StateOne) -> Option<Atom>
    ensures { IsKindNamed (kind_one pred) result }
{
    match pred {
        StateOne::Asserta => None,
        StateOne::Assertz => None,
        StateOne::Abolish => None,
        StateOne::Dynamic => None,
        StateOne::Declares => None,
        StateOne::CurrentPredicate => None,
        StateOne::ThreadSelf => None,
        StateOne::GetOwn => None,
        StateOne::PeekOwn => None,
        StateOne::CreateQueue => None,
        StateOne::DestroyQueue => Some(fixed::MESSAGE_QUEUE),
    }
}

fn named_kind_two(pred: StateTwo) -> Option<Atom>
    ensures { IsKindNamed (kind_two pred) result }
{
    match pred {
        StateTwo::SetFlag => None,
        StateTwo::CurrentFlag => None,
        StateTwo::CreateThread => None,
        StateTwo::JoinThread => Some(fixed::THREAD),
        StateTwo::Send => Some(fixed::MESSAGE_QUEUE),
        StateTwo::Get => Some(fixed::MESSAGE_QUEUE),
        StateTwo::Peek => Some(fixed::MESSAGE_QUEUE),
    }
}
