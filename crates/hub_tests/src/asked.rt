//! Visits as data, over fixed atoms and one atom that an engine has interned.
ghost use Rattle.std.specs.Prelude.{◌≡◌, ◌∷◌, [], IsSome, IfOk};
ghost use Rattle.atom_api.specs.Names.{FixedStand, Names};
ghost use Rattle.hub_tests.specs.Open.{key_by};
ghost use Rattle.hub_tests.specs.Ready.{AreHeldBeside, IsReady};
ghost use Rattle.term_store.specs.ArgumentKeys.{key_atoms};
ghost use Rattle.term_store.specs.NumberedNames.{names_of};
ghost use Rattle.world_api.specs.Visits.{optional_names};

use atom_api::{Atom, fixed};
use counted_terms::{atom_term, int_term, wrapped};
use pl_model::operators::Kind;
use pl_term::Memory;
use std::alloc::Global;
use term_store::{ArgumentKey, AtomNode, Stored};
use world_api::{Procedure, Visit};

/// A name.
#[derive(Clone, Copy)]
pub enum Word {
    /// The atom that the engine has interned.
    Own,
    Chars,
    Codes,
    Fail,
    Main,
    Quotes,
    Unknown,
}

/// What names a thread or a queue.
#[derive(Clone, Copy)]
pub enum Called {
    Number(u64),
    Alias(Word),
}

/// A visit. A predicate has one argument, the key of a goal is a number or any, and a message is the own name of a number.
#[derive(Clone, Copy)]
pub enum Ask {
    Look,
    Operators,
    AllOperators,
    Call(Word, Option<i64>),
    Inspect(Word, Option<i64>),
    Retract(Word, Option<i64>),
    Clear(Word, Option<i64>),
    Erase(u64),
    First(Word, u64),
    Last(Word, u64),
    Consult(Word, u64),
    Abolish(Word),
    Dynamic(Word),
    Procedures,
    PutOperator(u16, Kind, Word),
    PutFlag(Word, Word),
    Flags,
    Name,
    Create(u64, Option<Word>),
    /// With an option that is wrong, whose error is this message.
    CreateWrong(u64),
    Goal(u64),
    Join(Called),
    Send(Called, u64),
    Get(Option<Called>, Option<u64>),
    Peek(Option<Called>, Option<u64>),
    Queue(Option<Word>),
    Destroy(Called),
    Atoms,
    Clauses,
}

pub fn atom(word: Word, own: Atom) -> Atom
    ensures { (m : Names) → FixedStand m → IsSome (m own) → IsSome (m result) }
{
    match word {
        Word::Own => own,
        Word::Chars => fixed::CHARS,
        Word::Codes => fixed::CODES,
        Word::Fail => fixed::FAIL,
        Word::Main => fixed::MAIN,
        Word::Quotes => fixed::DOUBLE_QUOTES,
        Word::Unknown => fixed::UNKNOWN,
    }
}

fn predicate(word: Word, own: Atom) -> Procedure
    ensures { (m : Names) → FixedStand m → IsSome (m own) → IsSome (m result.name) }
{
    Procedure {
        name: atom(word, own),
        arity: 1,
    }
}

pub fn key(i: Option<i64>) -> ArgumentKey
    ensures none { key_atoms result ≡ [] }
    ensures key { result ≡ key_by i }
{
    match i {
        Some(i) => ArgumentKey::Int(i),
        None => ArgumentKey::Any,
    }
}

/// The term name(i).
pub fn fact(alloc: Global, word: Word, own: Atom, i: u64) -> Result<Stored, Memory>
    ensures { IfOk result (λ t. AreHeldBeside own (names_of t)) }
{
    let argument = int_term(alloc, i)?;
    wrapped(alloc, atom(word, own), &argument)
}

/// A variable.
fn variable(alloc: Global) -> Result<Stored, Memory>
    ensures { IfOk result (λ t. names_of t ≡ 12 ∷ []) }
{
    Stored::from_nodes(alloc, &[AtomNode::Var(0)])
}

/// The message own(i), or a variable.
fn pattern(alloc: Global, own: Atom, i: Option<u64>) -> Result<Stored, Memory>
    ensures { IfOk result (λ t. AreHeldBeside own (names_of t)) }
{
    match i {
        Some(i) => fact(alloc, Word::Own, own, i),
        None => variable(alloc),
    }
}

/// The term that names a thread or a queue.
fn name(alloc: Global, own: Atom, called: Called) -> Result<Stored, Memory>
    ensures { IfOk result (λ t. AreHeldBeside own (names_of t)) }
{
    match called {
        Called::Number(n) => int_term(alloc, n),
        Called::Alias(word) => atom_term(alloc, atom(word, own)),
    }
}

// The goal of the thread, its alias, and the error of an option that is wrong.
fn create(
    alloc: Global,
    own: Atom,
    i: u64,
    alias: Option<Word>,
    error: Option<u64>,
) -> Result<Visit<Stored, ArgumentKey>, Memory>
    ensures { IfOk result (λ v. IsReady own v) }
{
    let goal = fact(alloc, Word::Own, own, i)?;
    let aliases = aliases(alloc, own, alias)?;
    let error = option_error(alloc, own, error)?;
    Ok(Visit::CreateThread {
        goal,
        aliases,
        error,
    })
}

fn aliases(alloc: Global, own: Atom, alias: Option<Word>) -> Result<Vec<Atom>, Memory>
    ensures { IfOk result (λ all. AreHeldBeside own all.items) }
{
    match alias {
        None => Ok(Vec::new(alloc)),
        Some(word) => Ok(vec![in alloc; atom(word, own)]?),
    }
}

fn option_error(alloc: Global, own: Atom, error: Option<u64>) -> Result<Option<Stored>, Memory>
    ensures { IfOk result (λ e. AreHeldBeside own (optional_names names_of e)) }
{
    match error {
        None => Ok(None),
        Some(i) => Ok(Some(fact(alloc, Word::Own, own, i)?)),
    }
}

fn option_name(alloc: Global, own: Atom, called: Option<Called>) -> Result<Option<Stored>, Memory>
    ensures { IfOk result (λ e. AreHeldBeside own (optional_names names_of e)) }
{
    match called {
        None => Ok(None),
        Some(called) => Ok(Some(name(alloc, own, called)?)),
    }
}

fn get(
    alloc: Global,
    own: Atom,
    of: Option<Called>,
    i: Option<u64>,
) -> Result<Visit<Stored, ArgumentKey>, Memory>
    ensures { IfOk result (λ v. IsReady own v) }
{
    let queue = option_name(alloc, own, of)?;
    let pattern = pattern(alloc, own, i)?;
    Ok(Visit::GetMessage { queue, pattern })
}

fn peek(
    alloc: Global,
    own: Atom,
    of: Option<Called>,
    i: Option<u64>,
) -> Result<Visit<Stored, ArgumentKey>, Memory>
    ensures { IfOk result (λ v. IsReady own v) }
{
    let queue = option_name(alloc, own, of)?;
    let pattern = pattern(alloc, own, i)?;
    Ok(Visit::PeekMessage { queue, pattern })
}

fn send(alloc: Global, own: Atom, to: Called, i: u64) -> Result<Visit<Stored, ArgumentKey>, Memory>
    ensures { IfOk result (λ v. IsReady own v) }
{
    let queue = name(alloc, own, to)?;
    let message = fact(alloc, Word::Own, own, i)?;
    Ok(Visit::SendMessage { queue, message })
}

fn dynamic(alloc: Global, own: Atom, word: Word) -> Result<Visit<Stored, ArgumentKey>, Memory>
    ensures { IfOk result (λ v. IsReady own v) }
{
    let p = predicate(word, own);
    let procedures = vec![in alloc; p]?;
    Ok(Visit::MakeDynamic { procedures })
}

fn operator(
    alloc: Global,
    own: Atom,
    priority: u16,
    kind: Kind,
    word: Word,
) -> Result<Visit<Stored, ArgumentKey>, Memory>
    ensures { IfOk result (λ v. IsReady own v) }
{
    let a = atom(word, own);
    let names = vec![in alloc; a]?;
    Ok(Visit::PutOperators {
        priority,
        kind,
        names,
    })
}

fn call(own: Atom, word: Word, i: Option<i64>) -> Visit<Stored, ArgumentKey>
    ensures { IsReady own result }
{
    Visit::Call {
        procedure: predicate(word, own),
        first: key(i),
    }
}

fn inspect(own: Atom, word: Word, i: Option<i64>) -> Visit<Stored, ArgumentKey>
    ensures { IsReady own result }
{
    Visit::Inspect {
        procedure: predicate(word, own),
        first: key(i),
    }
}

fn retract(own: Atom, word: Word, i: Option<i64>) -> Visit<Stored, ArgumentKey>
    ensures { IsReady own result }
{
    Visit::Retract {
        procedure: predicate(word, own),
        first: key(i),
    }
}

fn clear(own: Atom, word: Word, i: Option<i64>) -> Visit<Stored, ArgumentKey>
    ensures { IsReady own result }
{
    Visit::Clear {
        procedure: predicate(word, own),
        first: key(i),
    }
}

fn first(alloc: Global, own: Atom, word: Word, i: u64) -> Result<Visit<Stored, ArgumentKey>, Memory>
    ensures { IfOk result (λ v. IsReady own v) }
{
    let clause = fact(alloc, word, own, i)?;
    Ok(Visit::AssertFirst { clause })
}

fn last(alloc: Global, own: Atom, word: Word, i: u64) -> Result<Visit<Stored, ArgumentKey>, Memory>
    ensures { IfOk result (λ v. IsReady own v) }
{
    let clause = fact(alloc, word, own, i)?;
    Ok(Visit::AssertLast { clause })
}

fn consult(
    alloc: Global,
    own: Atom,
    word: Word,
    i: u64,
) -> Result<Visit<Stored, ArgumentKey>, Memory>
    ensures { IfOk result (λ v. IsReady own v) }
{
    let clause = fact(alloc, word, own, i)?;
    Ok(Visit::Consult { clause })
}

fn abolish(own: Atom, word: Word) -> Visit<Stored, ArgumentKey>
    ensures { IsReady own result }
{
    Visit::Abolish {
        procedure: predicate(word, own),
    }
}

fn put_flag(own: Atom, flag: Word, value: Word) -> Visit<Stored, ArgumentKey>
    ensures { IsReady own result }
{
    Visit::PutFlag {
        flag: atom(flag, own),
        value: atom(value, own),
    }
}

fn goal(alloc: Global, own: Atom, number: u64) -> Result<Visit<Stored, ArgumentKey>, Memory>
    ensures { IfOk result (λ v. IsReady own v) }
{
    let goal = fact(alloc, Word::Own, own, number)?;
    Ok(Visit::StartGoal { number, goal })
}

fn join(alloc: Global, own: Atom, called: Called) -> Result<Visit<Stored, ArgumentKey>, Memory>
    ensures { IfOk result (λ v. IsReady own v) }
{
    let thread = name(alloc, own, called)?;
    Ok(Visit::JoinThread { thread })
}

fn destroy(alloc: Global, own: Atom, called: Called) -> Result<Visit<Stored, ArgumentKey>, Memory>
    ensures { IfOk result (λ v. IsReady own v) }
{
    let queue = name(alloc, own, called)?;
    Ok(Visit::DestroyQueue { queue })
}

fn queue(own: Atom, alias: Option<Word>) -> Visit<Stored, ArgumentKey>
    ensures { IsReady own result }
{
    match alias {
        None => Visit::CreateQueue { alias: None },
        Some(word) => Visit::CreateQueue {
            alias: Some(atom(word, own)),
        },
    }
}

/// The visit, which an engine can make that holds the atom.
pub fn visit_of(alloc: Global, own: Atom, ask: Ask) -> Result<Visit<Stored, ArgumentKey>, Memory>
    ensures { IfOk result (λ v. IsReady own v) }
{
    match ask {
        Ask::Look => Ok(Visit::Look),
        Ask::Operators => Ok(Visit::ReadOperators),
        Ask::AllOperators => Ok(Visit::AllOperators),
        Ask::Call(word, i) => Ok(call(own, word, i)),
        Ask::Inspect(word, i) => Ok(inspect(own, word, i)),
        Ask::Retract(word, i) => Ok(retract(own, word, i)),
        Ask::Clear(word, i) => Ok(clear(own, word, i)),
        Ask::Erase(place) => Ok(Visit::Erase { place }),
        Ask::First(word, i) => first(alloc, own, word, i),
        Ask::Last(word, i) => last(alloc, own, word, i),
        Ask::Consult(word, i) => consult(alloc, own, word, i),
        Ask::Abolish(word) => Ok(abolish(own, word)),
        Ask::Dynamic(word) => dynamic(alloc, own, word),
        Ask::Procedures => Ok(Visit::AllProcedures),
        Ask::PutOperator(priority, kind, word) => operator(alloc, own, priority, kind, word),
        Ask::PutFlag(flag, value) => Ok(put_flag(own, flag, value)),
        Ask::Flags => Ok(Visit::AllFlags),
        Ask::Name => Ok(Visit::OwnName),
        Ask::Create(i, alias) => create(alloc, own, i, alias, None),
        Ask::CreateWrong(i) => create(alloc, own, i, None, Some(i)),
        Ask::Goal(number) => goal(alloc, own, number),
        Ask::Join(called) => join(alloc, own, called),
        Ask::Send(to, i) => send(alloc, own, to, i),
        Ask::Get(of, i) => get(alloc, own, of, i),
        Ask::Peek(of, i) => peek(alloc, own, of, i),
        Ask::Queue(alias) => Ok(queue(own, alias)),
        Ask::Destroy(called) => destroy(alloc, own, called),
        Ask::Atoms => Ok(Visit::CollectAtoms),
        Ask::Clauses => Ok(Visit::CollectClauses),
    }
}
