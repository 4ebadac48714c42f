//! Terms that are kept: stored clauses and messages.
ghost use Rattle.std.specs.Prelude.{◌≡◌, ◌<◌, IfOk, length};
ghost use Rattle.pl_model.specs.KeptNodes.{is_rule_node, head_nodes, node_key, first_key};

use crate::first_argument::FirstArgument;
use crate::unifying::unify;
use pl_term::{Flat, Memory, Node};
use std::alloc::Global;

/// A term that is kept: a clause in the database or a message in a queue. A clause is kept as one term, a rule as its
/// `:-` term and a fact as its head.
pub trait Kept: Drop {
    ghost use Rattle.std.specs.Prelude.{◌≡◌, ℕ, Bool, IfOk};
    ghost use Rattle.pl_term.specs.Tree.{Chars, Tree};
    ghost use Rattle.pl_model.specs.FirstArguments.{are_apart, head_of, unify_apart};
    ghost use Rattle.pl_model.specs.KeptCells.{kept_cells};
    ghost use Rattle.pl_model.specs.Predicates.{is_excluded};

    /// What a first argument is found by.
    type Key: Ord + Drop;

    // The term for which the value stands, where each number of an atom stands for the text that a map gives it.
    ghost term: { (ℕ → Chars) → Self → Tree };

    // The key of the first argument of the clause's head.
    ghost key_of: { Self → Self.Key };

    // Whether a key is that of a first argument that may be equal to any.
    ghost any: { Self.Key → Bool };

    // The cells that it costs as a clause in the database.
    ghost size: { Self → ℕ };

    // Whether two terms unify.
    ghost unified: { Self → Self → Bool };

    /// The key of the first argument of the clause's head. The only error is out of memory.
    fn key(&self, alloc: Global) -> Result<Self::Key, Memory>
        ensures { IfOk result (λ k. k ≡ key_of self.now) };

    /// Whether this is the key of a variable, or of no argument: such a first argument may be equal to any.
    fn is_any(key: &Self::Key) -> bool
        ensures { result ≡ any key.now };

    /// The number of cells that it costs as a clause in the database: those of its head and its body, where a variable
    /// of both counts once and a rule's `:-` itself takes none.
    fn cells(&self) -> u64
        ensures { result ≡ size self.now };

    /// Whether the two terms unify, where the variables of the one are others than those of the other. The only
    /// error is out of memory.
    fn unifies(&self, alloc: Global, other: &Self) -> Result<bool, Memory>
        ensures { IfOk result (λ b. b ≡ unified self.now other.now) };

    // By their keys a goal and a clause are kept apart exactly where their first arguments exclude the clause, whatever
    // texts the numbers of atoms stand for, as long as different ones stand for different texts.
    ghost keys_tell: { (text : ℕ → Chars) → ((x y : ℕ) → text x ≡ text y → x ≡ y)
        → (goal clause : Self)
        → are_apart Self.Key.Ord.cmp any (key_of goal) (key_of clause)
        ≡ is_excluded (head_of (term text goal)) (head_of (term text clause)) };

    // A clause costs the cells of its head and its body, whatever texts the numbers of atoms stand for.
    ghost sizes_tell: { (text : ℕ → Chars) → ((x y : ℕ) → text x ≡ text y → x ≡ y)
        → (clause : Self) → size clause ≡ kept_cells (term text clause) };

    // Two values unify exactly where the terms do for which they stand.
    ghost terms_tell: { (text : ℕ → Chars) → ((x y : ℕ) → text x ≡ text y → x ≡ y)
        → (left right : Self) → unified left right ≡ unify_apart (term text left) (term text right) };
}

impl Kept for Flat {
    ghost use Rattle.std.specs.Prelude.{refl};
    ghost use Rattle.pl_model.specs.KeptCells.{kept_cells};
    ghost use Rattle.pl_model.specs.FirstArguments.{head_of, head_key, is_any, unify_apart};
    ghost use Rattle.pl_model.specs.laws.FirstArgumentLaws.{heads_tell};

    type Key = FirstArgument;

    ghost term = { λ _ t. t };

    ghost key_of = { λ t. head_key (head_of t) };

    ghost any = { is_any };

    ghost size = { kept_cells };

    ghost unified = { unify_apart };

    ghost keys_tell = { λ _ _ goal clause. heads_tell (head_of goal) (head_of clause) };

    ghost sizes_tell = { λ _ _ clause. refl };

    ghost terms_tell = { λ _ _ left right. refl };

    fn key(&self, alloc: Global) -> Result<FirstArgument, Memory> {
        first_argument(alloc, head(self.nodes()))
    }

    fn is_any(key: &FirstArgument) -> bool {
        match key {
            FirstArgument::Any => true,
            FirstArgument::Int(_) => false,
            FirstArgument::Atom(_) => false,
            FirstArgument::Compound(_, _) => false,
        }
    }

    fn cells(&self) -> u64 {
        if is_rule(&self.nodes()[0]) {
            self.cells() - 3
        } else {
            self.cells()
        }
    }

    #[tactic(auto, unfolding(crate::specs::FirstArguments::unify_apart))]
    fn unifies(&self, alloc: Global, other: &Flat) -> Result<bool, Memory> {
        let _mine = self.variable_count();
        let _others = other.variable_count();
        let (left, free) = self.rename(alloc, 0)?;
        let (right, _) = other.rename(alloc, free)?;
        Ok(unify(alloc, &left, &right)?.is_some())
    }
}

/// Whether this is the first node of a rule Head :- Body.
fn is_rule(node: &Node) -> bool
    ensures { result ≡ is_rule_node node.now }
{
    match node {
        Node::Comp(f, k) => *k == 2 && f.is(":-"),
        _ => false,
    }
}

/// The nodes of a clause from its head's first one on.
fn head(nodes: &[Node]) -> &[Node]
    requires { 0 < length nodes.now }
    ensures { result.now ≡ head_nodes nodes.now }
{
    if is_rule(&nodes[0]) {
        &nodes[1..]
    } else {
        nodes
    }
}

/// The key of an argument by its first node. The only error is out of memory.
fn argument_key(alloc: Global, node: &Node) -> Result<FirstArgument, Memory>
    ensures { IfOk result (λ k. k ≡ node_key node.now) }
{
    match node {
        Node::Var(_) => Ok(FirstArgument::Any),
        Node::Int(i) => Ok(FirstArgument::Int(*i)),
        Node::Atom(a) => Ok(FirstArgument::Atom(a.copy(alloc)?)),
        Node::Comp(f, k) => Ok(FirstArgument::Compound(f.copy(alloc)?, *k)),
    }
}

/// The key of the first argument of the term that these nodes begin with. The only error is out of memory.
fn first_argument(alloc: Global, nodes: &[Node]) -> Result<FirstArgument, Memory>
    ensures { IfOk result (λ k. k ≡ first_key nodes.now) }
{
    match nodes {
        [Node::Comp(_, _), argument, ..] => argument_key(alloc, argument),
        _ => Ok(FirstArgument::Any),
    }
}
