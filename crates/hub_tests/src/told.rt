//! Answers as texts: the generation and what was answered. A term is written by its nodes in prefix order.
ghost use Rattle.std.specs.Prelude.{◌≡◌, IsSome, map};
ghost use Rattle.std.specs.List.{All};
ghost use Rattle.term_store.specs.NumberedNames.{names_of};
ghost use Rattle.world_api.specs.Answers.{alias_names, answer_names, on_names};
ghost use Rattle.world_api.specs.Replies.{found_names, reply_names};
ghost use Rattle.world_api.specs.declared.reply.Operator.{Operator};

use atom_api::Atoms;
use counted_terms::text_of_atom;
use op_table::OpTable;
use pl_model::grammar::Quotes;
use pl_term::{Flat, Memory, Node, Text};
use std::alloc::Global;
use std::convert::AsStr;
use term_store::Stored;
use world_api::{Answer, Found, Name, On, Operator, Reply, with_texts};

/// What was answered.
pub fn told<A: Atoms>(
    alloc: Global,
    atoms: &mut A,
    answer: &Answer<Stored>,
) -> Result<String, Memory>
    requires { All (λ a. IsSome (A.held atoms.old a)) (answer_names names_of answer.now) }
    ensures { A.held atoms.new ≡ A.held atoms.old }
{
    match answer {
        Answer::Served { reply, generation } => {
            let said = said(alloc, atoms, reply)?;
            Ok(format!(in alloc; "{generation}: {}", said.as_str())?)
        }
        Answer::Waits { on, generation } => {
            let said = awaited(alloc, atoms, on)?;
            Ok(format!(in alloc; "{generation}: waits for {}", said.as_str())?)
        }
        Answer::NeedsAtoms(_) => Ok(String::from_str(alloc, "needs atoms")?),
        Answer::Retry(_) => Ok(String::from_str(alloc, "again")?),
        Answer::Worn(_) => Ok(String::from_str(alloc, "worn")?),
        Answer::Memory => Ok(String::from_str(alloc, "out of memory")?),
    }
}

/// What is said of the call at the place where the answer that came is another than was wanted.
pub fn another(
    alloc: Global,
    place: u64,
    came: &str,
    wanted: &str,
) -> Result<Option<String>, Memory> {
    if came == wanted {
        return Ok(None);
    }
    Ok(Some(format!(in alloc; "at {place}: {came}, not {wanted}")?))
}

fn said<A: Atoms>(alloc: Global, atoms: &mut A, reply: &Reply<Stored>) -> Result<String, Memory>
    requires { All (λ a. IsSome (A.held atoms.old a)) (reply_names names_of reply.now) }
    ensures { A.held atoms.new ≡ A.held atoms.old }
{
    match reply {
        Reply::Standing { operators, quotes } => standing(alloc, operators, *quotes),
        Reply::Clauses(found) => clauses(alloc, atoms, found),
        Reply::Procedures(all) => Ok(format!(in alloc; "{} procedures", all.len())?),
        Reply::Flags(all) => Ok(format!(in alloc; "{} flags", all.len())?),
        Reply::Operators(all) => operators(alloc, atoms, all.as_slice()),
        Reply::Named(name) => {
            let name = name_text(alloc, atoms, name)?;
            Ok(format!(in alloc; "named {}", name.as_str())?)
        }
        Reply::Message(t) => with_term(alloc, atoms, "message", t),
        Reply::NoMessage => Ok(String::from_str(alloc, "no message")?),
        Reply::Status(t) => with_term(alloc, atoms, "status", t),
        Reply::Done => Ok(String::from_str(alloc, "done")?),
        Reply::Gone => Ok(String::from_str(alloc, "gone")?),
        Reply::Refused(t) => with_term(alloc, atoms, "error", t),
    }
}

fn with_term<A: Atoms>(
    alloc: Global,
    atoms: &mut A,
    what: &str,
    t: &Stored,
) -> Result<String, Memory>
    requires { All (λ a. IsSome (A.held atoms.old a)) (names_of t.now) }
    ensures { A.held atoms.new ≡ A.held atoms.old }
{
    let term = with_texts(alloc, t, atoms)?;
    let mut out = String::from_str(alloc, what)?;
    add_term(alloc, &mut out, &term)?;
    Ok(out)
}

/// Appends the nodes of the term, each after a blank.
fn add_term(alloc: Global, out: &mut String, term: &Flat) -> Result<(), Memory> {
    for node in term.nodes() {
        let text = node_text(alloc, node)?;
        out.push_str(text.as_str())?;
    }
    Ok(())
}

fn node_text(alloc: Global, node: &Node) -> Result<String, Memory> {
    match node {
        Node::Var(x) => Ok(format!(in alloc; " _{x}")?),
        Node::Int(i) => Ok(format!(in alloc; " {i}")?),
        Node::Atom(name) => Ok(format!(in alloc; " {}", name.as_str())?),
        Node::Comp(name, k) => Ok(format!(in alloc; " {}/{k}", name.as_str())?),
    }
}

/// The flag, and the priority of the operator `zz` between its arguments, where there is one.
fn standing(alloc: Global, operators: &OpTable, quotes: Quotes) -> Result<String, Memory> {
    let own = Text::from_str(alloc, "zz")?;
    let priority = match operators.infix(&own) {
        Some((priority, _)) => priority,
        None => 0,
    };
    Ok(format!(in alloc; "{quotes:?}, zz {priority}")?)
}

/// How many operators there are, and the last of them.
fn operators<A: Atoms>(alloc: Global, atoms: &mut A, all: &[Operator]) -> Result<String, Memory>
    requires { All (λ a. IsSome (A.held atoms.old a)) (map (λ (o : Operator). o.name) all.now) }
    ensures { A.held atoms.new ≡ A.held atoms.old }
{
    let count = all.len();
    if count == 0 {
        return Ok(String::from_str(alloc, "no operators")?);
    }
    let last = all[count - 1];
    let name = text_of_atom(alloc, atoms, last.name)?;
    Ok(format!(in alloc;
        "{count} operators, last {} {:?} {}",
        last.priority,
        last.kind,
        name.as_str()
    )?)
}

fn clauses<A: Atoms>(
    alloc: Global,
    atoms: &mut A,
    found: &Option<Found<Stored>>,
) -> Result<String, Memory>
    requires { All (λ a. IsSome (A.held atoms.old a)) (found_names names_of found.now) }
    ensures { A.held atoms.new ≡ A.held atoms.old }
{
    match found {
        None => Ok(String::from_str(alloc, "no clause")?),
        Some(found) => {
            let term = with_term(alloc, atoms, "clause", &found.clause)?;
            let more = if found.more { ", more" } else { "" };
            Ok(format!(in alloc; "{} at {}{more}", term.as_str(), found.place)?)
        }
    }
}

fn name_text<A: Atoms>(alloc: Global, atoms: &mut A, name: &Name) -> Result<String, Memory>
    requires { All (λ a. IsSome (A.held atoms.old a)) (alias_names name.now) }
    ensures { A.held atoms.new ≡ A.held atoms.old }
{
    match name {
        Name::Number(n) => Ok(format!(in alloc; "{n}")?),
        Name::Alias(a) => {
            let text = text_of_atom(alloc, atoms, *a)?;
            Ok(String::from_str(alloc, text.as_str())?)
        }
    }
}

fn awaited<A: Atoms>(alloc: Global, atoms: &mut A, on: &On) -> Result<String, Memory>
    requires { All (λ a. IsSome (A.held atoms.old a)) (on_names on.now) }
    ensures { A.held atoms.new ≡ A.held atoms.old }
{
    match on {
        On::Queue(name) => {
            let name = name_text(alloc, atoms, name)?;
            Ok(format!(in alloc; "queue {}", name.as_str())?)
        }
        On::Thread(name) => {
            let name = name_text(alloc, atoms, name)?;
            Ok(format!(in alloc; "thread {}", name.as_str())?)
        }
    }
}
