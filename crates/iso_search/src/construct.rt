//! Goals by their names and the number of their arguments.
ghost use Rattle.std.specs.Prelude.{◌≡◌, ◌<◌, IfSome};
ghost use Rattle.pl_term.specs.Tree.{compound};
ghost use Rattle.pl_model.specs.Control.{construct, construct_of_two, or_else};
ghost use Rattle.term_store.specs.Heap.{atom_name};
ghost use Rattle.term_store.specs.Contents.{Contents, Holds, IsArguments, arguments_at, term_at};
ghost use Rattle.iso_search.specs.Spelling.{spelled, text_of};
ghost use Rattle.iso_search.specs.Constructs.{IsByCount, IsConstructIn, construction, atom_construct, one_construct, output_construct, three_construct};
ghost use Rattle.iso_search.specs.Reading.{View, IsView, reads};

use atom_api::{Atom, fixed};
use term_store::{Arguments, Place, Store, View as Kind};

/// What a goal is by its name and the number of its arguments (ISO 7.8, 8.10, 8.14, 8.15, 8.17).
#[derive(Clone, Copy, Drop)]
pub enum Construct {
    Succeeds,
    Cuts,
    Conjunction(Place, Place),
    Disjunction(Place, Place),
    IfThen(Place, Place),
    IfThenElse(Place, Place, Place),
    Fails,
    Repeats,
    /// A goal with further arguments: those of the goal itself, of which the first is the goal to be called.
    Calls(Place, Arguments),
    NotProvable(Place),
    Once(Place),
    Catches(Place, Place, Place),
    Throws(Place),
    FindsAll(Place, Place, Place),
    Halts(Place),
    /// `halt/0`.
    HaltsWithZero,
    Exits(Place),
    Inspects(Place, Place),
    Retracts(Place),
    Clears(Place),
    Writes(Place),
    WritesQuoted(Place),
    WritesCanonical(Place),
    WritesNewline,
    /// `put_char/1`.
    Puts(Place),
    /// A built-in predicate, or a call of the program's clauses.
    Other,
}

/// What an atom is as a goal.
fn of_atom(name: Atom) -> Construct
    ensures { result ≡ atom_construct name }
{
    if name == fixed::TRUE {
        Construct::Succeeds
    } else if name == fixed::CUT {
        Construct::Cuts
    } else if name == fixed::FAIL {
        Construct::Fails
    } else if name == fixed::FALSE {
        Construct::Fails
    } else if name == fixed::REPEAT {
        Construct::Repeats
    } else if name == fixed::HALT {
        Construct::HaltsWithZero
    } else if name == fixed::NL {
        Construct::WritesNewline
    } else {
        Construct::Other
    }
}

/// What a compound term of one argument is as a goal.
fn of_one(name: Atom, first: Place) -> Construct
    ensures { result ≡ one_construct name first }
{
    if name == fixed::NOT_PROVABLE {
        Construct::NotProvable(first)
    } else if name == fixed::ONCE {
        Construct::Once(first)
    } else if name == fixed::THROW {
        Construct::Throws(first)
    } else if name == fixed::HALT {
        Construct::Halts(first)
    } else if name == fixed::THREAD_EXIT {
        Construct::Exits(first)
    } else if name == fixed::RETRACT {
        Construct::Retracts(first)
    } else if name == fixed::RETRACTALL {
        Construct::Clears(first)
    } else {
        output_of_one(name, first)
    }
}

/// What a compound term of one argument is, if it writes that argument.
fn output_of_one(name: Atom, first: Place) -> Construct
    ensures { result ≡ output_construct name first }
{
    if name == fixed::WRITE {
        Construct::Writes(first)
    } else if name == fixed::WRITEQ {
        Construct::WritesQuoted(first)
    } else if name == fixed::PRINT {
        Construct::WritesQuoted(first)
    } else if name == fixed::PUT_CHAR {
        Construct::Puts(first)
    } else if name == fixed::WRITE_CANONICAL {
        Construct::WritesCanonical(first)
    } else {
        Construct::Other
    }
}

/// What a compound term of three arguments is as a goal.
fn of_three(name: Atom, first: Place, second: Place, third: Place) -> Construct
    ensures { result ≡ three_construct name first second third }
{
    if name == fixed::CATCH {
        Construct::Catches(first, second, third)
    } else if name == fixed::FINDALL {
        Construct::FindsAll(first, second, third)
    } else {
        Construct::Other
    }
}

/// What a compound term of two arguments is as a goal.
fn of_two(store: &Store, name: Atom, first: Place, second: Place) -> Construct
    requires first { Holds store.now first }
    requires second { Holds store.now second }
    ensures inside { IsConstructIn store.now result }
    ensures stands { (v : View) → IsView v → construction v store.now result
        ≡ construct_of_two (text_of v.names (atom_name name)) (reads v store.now first) (reads v store.now second) }
{
    if name == fixed::COMMA {
        Construct::Conjunction(first, second)
    } else if name == fixed::SEMICOLON {
        either(store, first, second)
    } else if name == fixed::THEN {
        Construct::IfThen(first, second)
    } else if name == fixed::CLAUSE {
        Construct::Inspects(first, second)
    } else {
        Construct::Other
    }
}

/// Two alternatives (ISO 7.8.6), or a condition with a branch for its failure (ISO 7.8.8).
fn either(store: &Store, first: Place, second: Place) -> Construct
    requires first { Holds store.now first }
    requires second { Holds store.now second }
    ensures inside { IsConstructIn store.now result }
    ensures stands { (v : View) → IsView v → construction v store.now result ≡ or_else (reads v store.now first) (reads v store.now second) }
{
    match store.look(first) {
        Kind::Variable(_) => Construct::Disjunction(first, second),
        Kind::Integer(_) => Construct::Disjunction(first, second),
        Kind::Atom(_) => Construct::Disjunction(first, second),
        Kind::Compound(name, arguments) => { with_condition(store, name, arguments, first, second) }
    }
}

/// Two alternatives, of which the first is a compound term.
fn with_condition(
    store: &Store,
    name: Atom,
    arguments: Arguments,
    first: Place,
    second: Place,
) -> Construct
    requires first { Holds store.now first }
    requires second { Holds store.now second }
    requires stands { term_at store.now first ≡ compound (atom_name name) (arguments_at store.now arguments) }
    requires arguments { IsArguments store.now arguments }
    ensures inside { IsConstructIn store.now result }
    ensures stands { (v : View) → IsView v → construction v store.now result ≡ or_else (reads v store.now first) (reads v store.now second) }
{
    if name != fixed::THEN {
        return Construct::Disjunction(first, second);
    }
    if arguments.len() != 2 {
        return Construct::Disjunction(first, second);
    }
    let condition = store.argument(arguments, 0);
    let then_goal = store.argument(arguments, 1);
    Construct::IfThenElse(condition, then_goal, second)
}

/// What a compound term is as a goal, by the number of its arguments. It is no call of its first argument.
#[inline(always)]
fn by_count(store: &Store, name: Atom, arguments: Arguments) -> Construct
    requires arguments { IsArguments store.now arguments }
    requires some { 0 < arguments.count }
    ensures inside { IsConstructIn store.now result }
    ensures stands { (v : View) → IsView v → IsByCount v store.now name (arguments_at store.now arguments) result }
{
    let first = store.argument(arguments, 0);
    let count = arguments.len();
    if count == 1 {
        return of_one(name, first);
    }
    let second = store.argument(arguments, 1);
    if count == 2 {
        return of_two(store, name, first, second);
    }
    let third = store.argument(arguments, 2);
    if count == 3 {
        return of_three(name, first, second, third);
    }
    Construct::Other
}

/// What the term at a place is as a goal.
pub fn construct_at(store: &Store, goal: Place) -> Construct
    requires { Holds store.now goal }
    ensures inside { IsConstructIn store.now result }
    ensures stands { (v : View) → IsView v → construction v store.now result ≡ construct (reads v store.now goal) }
{
    match store.look(goal) {
        Kind::Variable(_) => Construct::Other,
        Kind::Integer(_) => Construct::Other,
        Kind::Atom(name) => of_atom(name),
        Kind::Compound(name, arguments) => of_compound(store, name, arguments),
    }
}

/// What the goal at a place is, where it is `true`, a cut or a conjunction: these are asked for first, since they are the most of a
/// body beside its calls.
#[inline(always)]
pub fn passing_at(store: &Store, goal: Place) -> Option<Construct>
    requires { Holds store.now goal }
    ensures inside { IfSome result (IsConstructIn store.now) }
    ensures stands { IfSome result (λ k. (v : View) → IsView v → construction v store.now k ≡ construct (reads v store.now goal)) }
{
    match store.look(goal) {
        Kind::Variable(_) => None,
        Kind::Integer(_) => None,
        Kind::Atom(name) => passing_atom(name),
        Kind::Compound(name, arguments) => passing_compound(store, name, arguments),
    }
}

/// The same of an atom.
#[inline(always)]
fn passing_atom(name: Atom) -> Option<Construct>
    ensures inside { (s : Contents) → IfSome result (IsConstructIn s) }
    ensures named { IfSome result (λ k. k ≡ atom_construct name) }
{
    if name == fixed::TRUE {
        return Some(Construct::Succeeds);
    }
    if name == fixed::CUT {
        return Some(Construct::Cuts);
    }
    None
}

/// The same of a compound term.
#[inline(always)]
fn passing_compound(store: &Store, name: Atom, arguments: Arguments) -> Option<Construct>
    requires arguments { IsArguments store.now arguments }
    requires some { 0 < arguments.count }
    ensures inside { IfSome result (IsConstructIn store.now) }
    ensures stands { IfSome result (λ k. (v : View) → IsView v → construction v store.now k
        ≡ construct (spelled (text_of v.names) (compound (atom_name name) (arguments_at store.now arguments)))) }
{
    if name != fixed::COMMA {
        return None;
    }
    let kind = of_compound(store, name, arguments);
    Some(kind)
}

/// What a compound term is as a goal: `call/1` to `call/8` are calls of their first argument.
#[inline(always)]
fn of_compound(store: &Store, name: Atom, arguments: Arguments) -> Construct
    requires arguments { IsArguments store.now arguments }
    requires some { 0 < arguments.count }
    ensures inside { IsConstructIn store.now result }
    ensures stands { (v : View) → IsView v → construction v store.now result
        ≡ construct (spelled (text_of v.names) (compound (atom_name name) (arguments_at store.now arguments))) }
{
    if name != fixed::CALL {
        return by_count(store, name, arguments);
    }
    if arguments.len() > 8 {
        return by_count(store, name, arguments);
    }
    let first = store.argument(arguments, 0);
    Construct::Calls(first, arguments)
}
