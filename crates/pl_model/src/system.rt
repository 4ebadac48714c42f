//! The predicates of the system, and laws of them: the dispatch knows a predicate where the list of them says so.
ghost use Rattle.std.specs.Prelude.{◌≡◌, ◌==◌, ◌&&◌, ℕ, is_some, bytes_eq};
ghost use Rattle.std.specs.Str.{chars};
ghost use Rattle.std.specs.List.{list_any};
ghost use Rattle.pl_term.specs.Tree.{Chars, Trees, count};
ghost use Rattle.pl_model.specs.History.{proc};
ghost use Rattle.pl_model.specs.Builtins.{row};
ghost use Rattle.pl_model.specs.SharedBuiltins.{shared};
ghost use Rattle.pl_model.specs.Control.{construct};
ghost use Rattle.pl_model.specs.SystemPredicates.{is_system, system_kind, is_of_arguments, is_of_state, is_search};
ghost use Rattle.pl_model.specs.laws.Dispatch.{goal_of, is_search_step};

use PredicateKind::{Arguments, Control, Item, Search, State};
use pl_term::Text;

/// Where the meaning of a predicate stands.
#[derive(Clone, Copy, Debug, PartialEq, Eq, Drop)]
pub enum PredicateKind {
    /// A control construct, or halt/0,1 (`Control.construct`).
    Control,
    /// A built-in predicate that is a step of the search: it tries clauses, collects solutions, leaves its thread or writes
    /// (`Control.construct`).
    Search,
    /// A function of its arguments alone (`Builtins.row`).
    Arguments,
    /// It asks the shared state, or checks for it (`SharedBuiltins.shared`).
    State,
    /// An item of a text, which has no clauses.
    Item,
}

/// The predicates of the system by name, number of arguments and kind: the control constructs (ISO 7.8), the built-in
/// predicates (ISO 8, and of ISO Cor.2 false/0, callable/1, ground/1, subsumes_term/2, term_variables/2, sort/2, msort/2,
/// keysort/2 and retractall/1), those of SWI-Prolog for threads, message queues and the collection of atoms and clauses,
/// and the items of a text that are no facts (ISO 7.4.2). All of them are static.
static SYSTEM: [(&str, u64, PredicateKind); 106] = [
    // control constructs (ISO 7.8, 8.15, 8.17.3)
    ("true", 0, Control),
    ("fail", 0, Control),
    ("false", 0, Control),
    ("!", 0, Control),
    (",", 2, Control),
    (";", 2, Control),
    ("->", 2, Control),
    ("call", 1, Control),
    ("call", 2, Control),
    ("call", 3, Control),
    ("call", 4, Control),
    ("call", 5, Control),
    ("call", 6, Control),
    ("call", 7, Control),
    ("call", 8, Control),
    ("catch", 3, Control),
    ("throw", 1, Control),
    ("\\+", 1, Control),
    ("once", 1, Control),
    ("repeat", 0, Control),
    ("halt", 0, Control),
    ("halt", 1, Control),
    // type testing (ISO 8.3)
    ("var", 1, Arguments),
    ("nonvar", 1, Arguments),
    ("atom", 1, Arguments),
    ("integer", 1, Arguments),
    ("float", 1, Arguments),
    ("number", 1, Arguments),
    ("atomic", 1, Arguments),
    ("compound", 1, Arguments),
    ("callable", 1, Arguments),
    ("ground", 1, Arguments),
    // unification and comparison (ISO 8.2, 8.4)
    ("=", 2, Arguments),
    ("unify_with_occurs_check", 2, Arguments),
    ("\\=", 2, Arguments),
    ("subsumes_term", 2, Arguments),
    ("==", 2, Arguments),
    ("\\==", 2, Arguments),
    ("@<", 2, Arguments),
    ("@=<", 2, Arguments),
    ("@>", 2, Arguments),
    ("@>=", 2, Arguments),
    ("compare", 3, Arguments),
    ("sort", 2, Arguments),
    ("msort", 2, Arguments),
    ("keysort", 2, Arguments),
    // terms (ISO 8.5)
    ("functor", 3, Arguments),
    ("arg", 3, Arguments),
    ("=..", 2, Arguments),
    ("copy_term", 2, Arguments),
    ("term_variables", 2, Arguments),
    // arithmetic (ISO 8.6, 8.7)
    ("is", 2, Arguments),
    ("=:=", 2, Arguments),
    ("=\\=", 2, Arguments),
    ("<", 2, Arguments),
    ("=<", 2, Arguments),
    (">", 2, Arguments),
    (">=", 2, Arguments),
    // atoms (ISO 8.16)
    ("atom_length", 2, Arguments),
    ("atom_concat", 3, Arguments),
    ("sub_atom", 5, Arguments),
    ("atom_chars", 2, Arguments),
    ("atom_codes", 2, Arguments),
    ("char_code", 2, Arguments),
    ("number_chars", 2, Arguments),
    ("number_codes", 2, Arguments),
    // clauses (ISO 8.8, 8.9, 7.4.2)
    ("clause", 2, Search),
    ("retract", 1, Search),
    ("retractall", 1, Search),
    ("current_predicate", 1, State),
    ("asserta", 1, State),
    ("assertz", 1, State),
    ("assert", 1, State),
    ("abolish", 1, State),
    ("dynamic", 1, State),
    ("discontiguous", 1, State),
    ("multifile", 1, State),
    ("garbage_collect_clauses", 0, State),
    // all solutions (ISO 8.10)
    ("findall", 3, Search),
    // output (ISO 8.12, 8.14.2)
    ("nl", 0, Search),
    ("put_char", 1, Search),
    ("write", 1, Search),
    ("writeq", 1, Search),
    ("print", 1, Search),
    ("write_canonical", 1, Search),
    // operators (ISO 8.14.3, 8.14.4)
    ("op", 3, State),
    ("current_op", 3, State),
    // flags (ISO 8.17)
    ("set_prolog_flag", 2, State),
    ("current_prolog_flag", 2, State),
    // the atoms that are not used any more (SWI-Prolog manual)
    ("garbage_collect_atoms", 0, State),
    // threads and queues (SWI-Prolog manual, section 'Multithreaded applications')
    ("thread_self", 1, State),
    ("thread_create", 2, State),
    ("thread_create", 3, State),
    ("thread_join", 2, State),
    ("thread_exit", 1, Search),
    ("thread_send_message", 2, State),
    ("thread_get_message", 1, State),
    ("thread_get_message", 2, State),
    ("thread_peek_message", 1, State),
    ("thread_peek_message", 2, State),
    ("message_queue_create", 1, State),
    ("message_queue_destroy", 1, State),
    // items of a text (ISO 7.4.2)
    (":-", 1, Item),
    (":-", 2, Item),
    ("?-", 1, Item),
    ("-->", 2, Item),
];

/// Whether the predicate is that of the row.
fn is_row(name: &Text, arity: u64, row: &(&str, u64, PredicateKind)) -> bool
    ensures { result ≡ ((arity == row.now.1) && bytes_eq name.now (chars row.now.0.now)) }
{
    arity == row.1 && name.is(row.0)
}

/// Whether the predicate is that of a row.
fn is_among(name: &Text, arity: u64, rows: &[(&str, u64, PredicateKind)]) -> bool
    ensures { result ≡ list_any (λ r. (arity == r.1) && bytes_eq name.now (chars r.0.now)) rows.now }
{
    for i in 0..rows.len() {
        if is_row(name, arity, &rows[i]) {
            return true;
        }
    }
    false
}

/// Whether the predicate is one of the system, which no program can change.
pub fn is_system(name: &Text, arity: u64) -> bool
    ensures { result ≡ is_system (proc name.now arity) }
{
    is_among(name, arity, &SYSTEM)
}

/// There is a row for a name and arguments exactly where the list has it as a predicate of its arguments alone.
#[tactic(auto, using(crate::proofs::SystemLaws::rows_told))]
pub fn rows_are_listed()
    ensures { (f : Chars) (ts : Trees) (next : ℕ) → is_some (row f ts next) ≡ is_of_arguments (system_kind (proc f (count ts))) }
{}

/// Something is asked or checked for the shared state exactly where the list has it as a predicate of that kind.
#[tactic(auto, using(crate::proofs::SystemLaws::shared_told))]
pub fn shared_predicates_are_listed()
    ensures { (f : Chars) (ts : Trees) → is_some (shared f ts) ≡ is_of_state (system_kind (proc f (count ts))) }
{}

/// A goal is a step of the search that is no control construct exactly where the list has it as a predicate of that kind.
#[tactic(auto, using(crate::proofs::SearchNames::steps_told))]
pub fn steps_of_the_search_are_listed()
    ensures { (f : Chars) (ts : Trees) → is_search_step (construct (goal_of f ts)) ≡ is_search (system_kind (proc f (count ts))) }
{}
