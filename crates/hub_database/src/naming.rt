//! Predicates over atoms, and what they are in texts.
ghost use Rattle.std.specs.Prelude.{◌≡◌, ℕ, IsSome, IfOk, IfSome, Some, map, true};
ghost use Rattle.std.specs.List.{All};
ghost use Rattle.pl_model.specs.History.{head_part};
ghost use Rattle.pl_model.specs.Predicates.{proc_of as predicate_of};
ghost use Rattle.pl_model.specs.laws.Shown.{proc_of};
ghost use Rattle.atom_api.specs.Names.{Names};
ghost use Rattle.atom_words.specs.Seats.{seen};
ghost use Rattle.atom_table.specs.Naming.{Lawful, names};
ghost use Rattle.term_store.specs.Nodes.{node_view};
ghost use Rattle.term_store.specs.NumberedNames.{names_of};
ghost use Rattle.world_api.specs.Texts.{text_of};
ghost use Rattle.world_api.specs.Visits.{proc_named};
ghost use Rattle.world_api.specs.declared.visit.Procedure as predicates;
ghost use Rattle.counted_terms.specs.CountedTerms.{said};
ghost use Rattle.hub_database.specs.Heads.{node_procedure};
ghost use Rattle.hub_database.specs.Rows.{IsQuiet};

use atom_api::{Atom, Atoms, TextBuf, fixed};
use atom_table::{NamesTable, TableAtoms};
use counted_terms::text_of_atom;
use pl_model::shows::Proc;
use pl_term::{Memory, Text};
use std::alloc::Global;
use std::convert::AsStr;
use term_store::{AtomNode, Stored};
use world_api::Procedure;

// The predicate in texts. The only error is out of memory.
fn spelled<A: Atoms>(alloc: Global, atoms: &mut A, p: &Procedure) -> Result<Proc, Memory>
    requires { IsSome (A.held atoms.old p.now.name) }
    ensures spelled { IfOk result (λ q. proc_of q ≡ proc_named (text_of (A.held atoms.old)) p.now) }
    ensures same { A.held atoms.new ≡ A.held atoms.old }
    ensures refusals { A.refusals atoms.new ≡ A.refusals atoms.old }
    ensures asked { A.asked atoms.new ≡ A.asked atoms.old }
{
    let name = text_of_atom(alloc, atoms, p.name)?;
    Ok(Proc {
        name,
        arity: p.arity,
    })
}

/// The predicate in texts, by what the engine holds. The only error is out of memory.
pub(crate) fn predicate_text<K: NamesTable>(
    alloc: Global,
    atoms: &mut TableAtoms<K>,
    p: &Procedure,
) -> Result<Proc, Memory>
    requires { IsSome (names (seen atoms.old.seat) p.now.name) }
    ensures spelled { IfOk result (λ q. proc_of q ≡ proc_named (text_of (names (seen atoms.old.seat))) p.now) }
    ensures held { names (seen atoms.new.seat) ≡ names (seen atoms.old.seat) }
    ensures quiet { IsQuiet (seen atoms.old.seat) (seen atoms.new.seat) }
{
    spelled(alloc, atoms, p)
}

// Whether this is the text in the buffer.
fn is_text(text: &Text, buf: &TextBuf) -> bool
    ensures { result ≡ true → text.now ≡ buf.now }
{
    text.is(buf.as_str())
}

// Whether the atom, which is held, has the text. It takes no memory.
fn reads<A: Atoms>(atoms: &mut A, a: Atom, text: &Text) -> bool
    requires { IsSome (A.held atoms.old a) }
    ensures reads { result ≡ true → A.held atoms.old a ≡ Some text.now }
    ensures same { A.held atoms.new ≡ A.held atoms.old }
    ensures refusals { A.refusals atoms.new ≡ A.refusals atoms.old }
    ensures asked { A.asked atoms.new ≡ A.asked atoms.old }
{
    let mut buf = TextBuf::new();
    atoms.text(a, &mut buf);
    is_text(text, &buf)
}

/// Whether this is the predicate in texts, by what the engine holds. It takes no memory.
pub(crate) fn is_spelled<K: NamesTable>(
    atoms: &mut TableAtoms<K>,
    p: &Procedure,
    spelled: &Proc,
) -> bool
    requires { IsSome (names (seen atoms.old.seat) p.now.name) }
    ensures spelled { result ≡ true → proc_of spelled.now ≡ proc_named (text_of (names (seen atoms.old.seat))) p.now }
    ensures held { names (seen atoms.new.seat) ≡ names (seen atoms.old.seat) }
    ensures quiet { IsQuiet (seen atoms.old.seat) (seen atoms.new.seat) }
{
    if p.arity != spelled.arity {
        return false;
    }
    reads(atoms, p.name, &spelled.name)
}

/// The predicate in texts, by what the engine holds, where it may be the one that is given: that is compared and takes no
/// memory. The only error is out of memory.
pub(crate) fn spelled_as<K: NamesTable>(
    alloc: Global,
    atoms: &mut TableAtoms<K>,
    p: &Procedure,
    given: Proc,
) -> Result<Proc, Memory>
    requires { IsSome (names (seen atoms.old.seat) p.now.name) }
    ensures spelled { IfOk result (λ q. proc_of q ≡ proc_named (text_of (names (seen atoms.old.seat))) p.now) }
    ensures held { names (seen atoms.new.seat) ≡ names (seen atoms.old.seat) }
    ensures quiet { IsQuiet (seen atoms.old.seat) (seen atoms.new.seat) }
{
    if is_spelled(atoms, p, &given) {
        return Ok(given);
    }
    predicate_text(alloc, atoms, p)
}

/// The predicates in texts, by what the engine holds. The only error is out of memory.
pub(crate) fn predicate_texts<K: NamesTable>(
    alloc: Global,
    atoms: &mut TableAtoms<K>,
    ps: &[Procedure],
) -> Result<Vec<Proc>, Memory>
    requires { All (λ (p : predicates.Procedure). IsSome (names (seen atoms.old.seat) p.name)) ps.now }
    ensures spelled { IfOk result (λ v. map proc_of v.items ≡ map (proc_named (text_of (names (seen atoms.old.seat)))) ps.now) }
    ensures held { names (seen atoms.new.seat) ≡ names (seen atoms.old.seat) }
    ensures quiet { IsQuiet (seen atoms.old.seat) (seen atoms.new.seat) }
{
    let mut texts = Vec::new(alloc);
    for i in 0..ps.len() {
        texts.push(predicate_text(alloc, atoms, &ps[i])?)?;
    }
    Ok(texts)
}

/// The text of an atom that the engine holds. The only error is out of memory.
pub(crate) fn name_text<K: NamesTable>(
    alloc: Global,
    atoms: &mut TableAtoms<K>,
    a: Atom,
) -> Result<Text, Memory>
    requires { IsSome (names (seen atoms.old.seat) a) }
    ensures text { IfOk result (λ t. t ≡ text_of (names (seen atoms.old.seat)) a) }
    ensures held { names (seen atoms.new.seat) ≡ names (seen atoms.old.seat) }
    ensures quiet { IsQuiet (seen atoms.old.seat) (seen atoms.new.seat) }
{
    text_of_atom(alloc, atoms, a)
}

/// The predicate of the head of a clause that is kept as one term (ISO 6.2.1). A head that is an integer has none.
pub(crate) fn head_procedure(clause: &Stored) -> Option<Procedure>
    ensures says { IfSome result (λ p. (m : Names) → Lawful m → proc_named (text_of m) p ≡ predicate_of (head_part (said m clause.now))) }
    ensures named { IfSome result (λ p. (m : Names) → Lawful m → All (λ a. IsSome (m a)) (names_of clause.now) → IsSome (m p.name)) }
{
    predicate(clause.head_node())
}

// The predicate of a term that begins with this node. A variable stands for call/1 of it.
fn predicate(node: AtomNode) -> Option<Procedure>
    ensures { result ≡ node_procedure (node_view node) }
{
    match node {
        AtomNode::Var(_) => Some(Procedure {
            name: fixed::CALL,
            arity: 1,
        }),
        AtomNode::Int(_) => None,
        AtomNode::Atom(a) => Some(Procedure {
            name: Atom::at(a),
            arity: 0,
        }),
        AtomNode::Comp(f, k) => Some(Procedure {
            name: Atom::at(f),
            arity: k as u64,
        }),
    }
}
