//! Terms that answers are made of, over atoms: errors (ISO 7.12.2), statuses and numbers. All that a clause says of such a
//! term it says for every map from atoms to texts that has the fixed atoms.
ghost use Rattle.std.specs.Prelude.{◌≡◌, ◌++◌, ◌∷◌, ℕ, pos, Some, IsSome, IfOk};
ghost use Rattle.std.specs.List.{All};
ghost use Rattle.pl_term.specs.Tree.{Chars, Tree, int, atom, comp, none, more};
ghost use Rattle.pl_model.specs.Errors.{indicator};
ghost use Rattle.pl_model.specs.ErrorTerms as errors;
ghost use Rattle.atom_api.specs.Names.{FixedStand, Names};
ghost use Rattle.term_store.specs.NumberedNames.{names_of};
ghost use Rattle.world_api.specs.Texts.{text_of};
ghost use Rattle.world_api.specs.Visits.{proc_named};
ghost use Rattle.counted_terms.specs.CountedTerms.{said};

use atom_api::{Atom, fixed};
use pl_term::Memory;
use std::alloc::Global;
use term_store::{AtomNode, Stored};
use world_api::Procedure;

/// The term that is this atom. The only error is out of memory.
pub fn atom_term(alloc: Global, a: Atom) -> Result<Stored, Memory>
    ensures says { IfOk result (λ e. (m : Names) (t : Chars) → FixedStand m → m a ≡ Some t → said m e ≡ atom t) }
    ensures named { IfOk result (λ e. (m : Names) → FixedStand m → IsSome (m a) → All (λ k. IsSome (m k)) (names_of e)) }
{
    Stored::from_nodes(alloc, &[AtomNode::Atom(a.slot())])
}

/// The term that is this number. Of a number of 2^63 or more the answer is out of memory, which is the only error.
pub fn int_term(alloc: Global, n: u64) -> Result<Stored, Memory>
    ensures says { IfOk result (λ e. (m : Names) → said m e ≡ int (pos n)) }
    ensures named { IfOk result (λ e. (m : Names) → FixedStand m → All (λ k. IsSome (m k)) (names_of e)) }
{
    if n > i64::MAX as u64 {
        return Err(Memory);
    }
    Stored::from_nodes(alloc, &[AtomNode::Int(n as i64)])
}

/// The term Name(Argument). The only error is out of memory.
pub fn wrapped(alloc: Global, name: Atom, argument: &Stored) -> Result<Stored, Memory>
    ensures says { IfOk result (λ e. (m : Names) (t : Chars) → FixedStand m → m name ≡ Some t → said m e ≡ comp t (said m argument.now) none) }
    ensures named { IfOk result (λ e. (m : Names) → IsSome (m name) → All (λ k. IsSome (m k)) (names_of argument.now) → All (λ k. IsSome (m k)) (names_of e)) }
{
    let nodes = spelled(alloc, &[AtomNode::Comp(name.slot(), 1)], argument.nodes())?;
    Stored::from_nodes(alloc, nodes.as_slice())
}

/// The error that a resource is used up (ISO 7.12.2 h). The only error is out of memory.
pub fn resource_error(alloc: Global, resource: Atom) -> Result<Stored, Memory>
    ensures says { IfOk result (λ e. (m : Names) (t : Chars) → FixedStand m → m resource ≡ Some t → said m e ≡ errors.resource_error t) }
    ensures named { IfOk result (λ e. (m : Names) → FixedStand m → IsSome (m resource) → All (λ k. IsSome (m k)) (names_of e)) }
{
    let argument = atom_term(alloc, resource)?;
    wrapped(alloc, fixed::RESOURCE_ERROR, &argument)
}

/// The error that something is not there (ISO 7.12.2 d). The only error is out of memory.
pub fn existence_error(alloc: Global, kind: Atom, culprit: &Stored) -> Result<Stored, Memory>
    ensures says { IfOk result (λ e. (m : Names) (t : Chars) → FixedStand m → m kind ≡ Some t → said m e ≡ errors.existence_error t (said m culprit.now)) }
    ensures named { IfOk result (λ e. (m : Names) → FixedStand m → IsSome (m kind) → All (λ k. IsSome (m k)) (names_of culprit.now) → All (λ k. IsSome (m k)) (names_of e)) }
{
    paired(alloc, fixed::EXISTENCE_ERROR, kind, culprit)
}

/// The term Name/Arity (ISO 7.1.6.6). Of an arity of 2^63 or more the answer is out of memory, which is the only error.
pub fn indicator_term(alloc: Global, p: Procedure) -> Result<Stored, Memory>
    ensures says { IfOk result (λ e. (m : Names) → FixedStand m → IsSome (m p.name) → said m e ≡ indicator (proc_named (text_of m) p)) }
    ensures named { IfOk result (λ e. (m : Names) → FixedStand m → IsSome (m p.name) → All (λ k. IsSome (m k)) (names_of e)) }
{
    let arity = int_term(alloc, p.arity)?;
    paired(alloc, fixed::SLASH, p.name, &arity)
}

/// The error that something must not be done (ISO 7.12.2 e). The only error is out of memory.
pub fn permission_error(
    alloc: Global,
    action: Atom,
    kind: Atom,
    culprit: &Stored,
) -> Result<Stored, Memory>
    ensures says { IfOk result (λ e. (m : Names) (t u : Chars) → FixedStand m → m action ≡ Some t → m kind ≡ Some u → said m e ≡ errors.permission_error t u (said m culprit.now)) }
    ensures named { IfOk result (λ e. (m : Names) → FixedStand m → IsSome (m action) → IsSome (m kind) → All (λ k. IsSome (m k)) (names_of culprit.now) → All (λ k. IsSome (m k)) (names_of e)) }
{
    let front = [
        AtomNode::Comp(fixed::PERMISSION_ERROR.slot(), 3),
        AtomNode::Atom(action.slot()),
        AtomNode::Atom(kind.slot()),
    ];
    let nodes = spelled(alloc, &front, culprit.nodes())?;
    Stored::from_nodes(alloc, nodes.as_slice())
}

// The term Name(Word, Behind). The only error is out of memory.
fn paired(alloc: Global, name: Atom, word: Atom, behind: &Stored) -> Result<Stored, Memory>
    ensures says { IfOk result (λ e. (m : Names) (t u : Chars) → FixedStand m → m name ≡ Some t → m word ≡ Some u → said m e ≡ comp t (atom u) (more (said m behind.now) none)) }
    ensures named { IfOk result (λ e. (m : Names) → IsSome (m name) → IsSome (m word) → All (λ k. IsSome (m k)) (names_of behind.now) → All (λ k. IsSome (m k)) (names_of e)) }
{
    let front = [AtomNode::Comp(name.slot(), 2), AtomNode::Atom(word.slot())];
    let nodes = spelled(alloc, &front, behind.nodes())?;
    Stored::from_nodes(alloc, nodes.as_slice())
}

// The nodes of the front, and those behind them. The only error is out of memory.
fn spelled(alloc: Global, front: &[AtomNode], behind: &[AtomNode]) -> Result<Vec<AtomNode>, Memory>
    ensures { IfOk result (λ v. v.items ≡ front.now ++ behind.now) }
{
    let mut all = Vec::new(alloc);
    all.extend_from_slice(front)?;
    all.extend_from_slice(behind)?;
    Ok(all)
}
