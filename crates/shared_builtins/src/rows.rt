//! Rows that follow replies.
ghost use Rattle.std.specs.Prelude.{◌≡◌, [], IfOk, IsSome};
ghost use Rattle.std.specs.List.{All};
ghost use Rattle.pl_model.specs.BuiltinRows.{one_answer};
ghost use Rattle.pl_model.specs.Predicates.{proc_of};
ghost use Rattle.pl_model.specs.SharedBuiltins.{copied_row};
ghost use Rattle.pl_model.specs.Terms.{arguments};
ghost use Rattle.atom_api.specs.Names.{Names};
ghost use Rattle.builtin_rows.specs.Given.{given};
ghost use Rattle.builtin_rows.specs.Lists.{IsNaming};
ghost use Rattle.builtin_rows.specs.Rows.{ArePlaced, IsRow, IsSingle, listed, row_refusals, terms_at};
ghost use Rattle.term_store.specs.Contents.{Contents, Holds, IsAbove};
ghost use Rattle.term_store.specs.NumberedNames.{names_of, term_by};
ghost use Rattle.world_api.specs.Replies.{name_term};
ghost use Rattle.world_api.specs.Texts.{text_of};
ghost use Rattle.world_builtins.specs.Naming.{IsHeldAt};
ghost use Rattle.world_builtins.specs.Spelling.{reads};
ghost use Rattle.shared_builtins.specs.Following.{IsNameHeld, with_answer};
ghost use Rattle.shared_builtins.specs.Goals.{IsStateGoal, arity_of};
ghost use Rattle.shared_builtins.specs.Others.{AreOthers, with_given};

use crate::goal::StateGoal;
use crate::preds::StatePred;
use builtin_rows::{Places, Row, take_room};
use pl_term::Memory;
use term_store::{Place, Store, Stored};
use world_api::Name;

/// How many arguments the predicate has.
pub fn arity_of(pred: StatePred) -> u32
    ensures { result ≡ arity_of pred }
{
    match pred {
        StatePred::One(_) => 1,
        StatePred::Two(_) => 2,
        StatePred::Three(_) => 3,
    }
}

/// The predicate succeeds once, and its arguments stay as they are. The only error is out of memory. So below.
pub fn succeeded(store: &mut Store, goal: &StateGoal, next: u64) -> Result<Row, Memory>
    requires { IsStateGoal store.old goal.now }
    ensures row { IfOk result (λ r. (m : Names) → IsNaming m → IsHeldAt m store.old goal.now.place →
        IsRow store.old next (arguments (reads m store.old goal.now.place)) (given (proc_of (reads m store.old goal.now.place)) (arguments (reads m store.old goal.now.place)) next store.old.used store.old.budget (one_answer (arguments (reads m store.old goal.now.place)))) m store.new r) }
    ensures refuses { IfOk result (λ r. row_refusals r ≡ []) }
    ensures single { IfOk result IsSingle }
{
    let arity = arity_of(goal.pred);
    let full = take_room(store, next, 0, 0, goal.name, arity)?;
    match full {
        Some(row) => Ok(row),
        None => Ok(Row::Holds),
    }
}

/// It gives the name of a thread or a queue.
pub fn named(store: &mut Store, goal: &StateGoal, name: Name, next: u64) -> Result<Row, Memory>
    requires { IsStateGoal store.old goal.now }
    ensures row { IfOk result (λ r. (m : Names) → IsNaming m → IsHeldAt m store.old goal.now.place → IsNameHeld m name →
        IsRow store.old next (arguments (reads m store.old goal.now.place)) (given (proc_of (reads m store.old goal.now.place)) (arguments (reads m store.old goal.now.place)) next store.old.used store.old.budget (one_answer ((with_answer goal.now.pred (arguments (reads m store.old goal.now.place))) (name_term (text_of m) name)))) m store.new r) }
    ensures refuses { IfOk result (λ r. row_refusals r ≡ []) }
    ensures single { IfOk result IsSingle }
{
    let given = name_place(name)?;
    let arity = arity_of(goal.pred);
    let full = take_room(store, next, 0, 0, goal.name, arity)?;
    match full {
        Some(row) => Ok(row),
        None => {
            let places = answer(store, goal, given);
            Ok(Row::Answer { places, fresh: 0 })
        }
    }
}

/// The place of a name.
fn name_place(name: Name) -> Result<Place, Memory>
    ensures inside { IfOk result (λ p. (s : Contents) → Holds s p) }
    ensures read { IfOk result (λ p. (m : Names) (s : Contents) → reads m s p ≡ name_term (text_of m) name) }
    ensures held { IfOk result (λ p. (m : Names) (s : Contents) → IsNameHeld m name → IsHeldAt m s p) }
{
    match name {
        Name::Alias(alias) => Ok(Place::atom(alias)),
        Name::Number(number) => {
            let Ok(number) = i64::try_from(number) else {
                return Err(Memory);
            };
            Ok(Place::integer(number))
        }
    }
}

/// It gives a copy of a term of the shared state, with new variables.
pub fn copied(store: &mut Store, goal: &StateGoal, term: &Stored, next: u64) -> Result<Row, Memory>
    requires goal { IsStateGoal store.old goal.now }
    requires above { IsAbove next store.old }
    ensures row { IfOk result (λ r. (m : Names) → IsNaming m → IsHeldAt m store.old goal.now.place → All (λ a. IsSome (m a)) (names_of term.now) →
        IsRow store.old next (arguments (reads m store.old goal.now.place)) (given (proc_of (reads m store.old goal.now.place)) (arguments (reads m store.old goal.now.place)) next store.old.used store.old.budget (copied_row (with_answer goal.now.pred (arguments (reads m store.old goal.now.place))) (term_by (text_of m) term.now) next)) m store.new r) }
    ensures refuses { IfOk result (λ r. row_refusals r ≡ []) }
    ensures single { IfOk result IsSingle }
{
    let others = others_of(store, goal);
    let fresh = term.variables();
    let made = term.cells();
    let arity = arity_of(goal.pred);
    let full = take_room(store, next, fresh, made, goal.name, arity)?;
    match full {
        Some(row) => Ok(row),
        None => {
            let given = store.build(term, next)?;
            let _whole = store.mark();
            let places = with_given(others, given);
            Ok(Row::Answer { places, fresh })
        }
    }
}

/// The places of the arguments, with this one for that which an answer gives.
fn answer(store: &Store, goal: &StateGoal, given: Place) -> Places
    requires goal { IsStateGoal store.now goal.now }
    requires given { Holds store.now given }
    ensures { (m : Names) → IsNaming m → IsHeldAt m store.now goal.now.place → IsHeldAt m store.now given
        → (terms_at m store.now (listed result) ≡ with_answer goal.now.pred (arguments (reads m store.now goal.now.place)) (reads m store.now given))
        × ArePlaced m store.now (listed result) }
{
    match goal.pred {
        StatePred::One(_) => Places::One(given),
        StatePred::Two(_) => {
            let first = store.argument(goal.arguments, 0);
            Places::Two(first, given)
        }
        StatePred::Three(_) => {
            let first = store.argument(goal.arguments, 0);
            let third = store.argument(goal.arguments, 2);
            Places::Three(first, given, third)
        }
    }
}

/// The places of the arguments, where that which an answer gives is still to be put into its place.
fn others_of(store: &Store, goal: &StateGoal) -> Places
    requires { IsStateGoal store.now goal.now }
    ensures { (m : Names) → IsNaming m → IsHeldAt m store.now goal.now.place → AreOthers m store.now goal.now result }
{
    let nothing = Place::integer(0);
    match goal.pred {
        StatePred::One(_) => Places::One(nothing),
        StatePred::Two(_) => {
            let first = store.argument(goal.arguments, 0);
            Places::Two(first, nothing)
        }
        StatePred::Three(_) => {
            let first = store.argument(goal.arguments, 0);
            let third = store.argument(goal.arguments, 2);
            Places::Three(first, nothing, third)
        }
    }
}

/// The places with this one for that which an answer gives.
fn with_given(places: Places, given: Place) -> Places
    ensures { result ≡ with_given places given }
{
    match places {
        Places::One(_) => Places::One(given),
        Places::Two(first, _) => Places::Two(first, given),
        Places::Three(first, _, third) => Places::Three(first, given, third),
    }
}
