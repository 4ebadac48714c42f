//! Stored terms with the lists of the atoms that they count.
ghost use Rattle.std.specs.Prelude.{◌≡◌, ℕ, ◌||◌, ◌∷◌, [], ◌==◌, ◌&&◌, not, IfOk, OnOk};
ghost use Rattle.std.specs.Ordering.{nat_cmp};
ghost use Rattle.std.specs.BTreeSet as set;
ghost use Rattle.counted_terms.specs.Keeping.{times};
ghost use Rattle.counted_terms.specs.CountedTerms.{IsListed, bit, has_counted, naming, slots_of};

use atom_api::fixed::COUNT;
use atom_table::Atom;
use pl_model::kept::Kept;
use pl_term::Memory;
use std::alloc::Global;
use std::collections::BTreeSet;
use std::marker::Model;
use term_store::{ArgumentKey, AtomNode, Stored};
use world_api::Named;

/// A stored term with the list of the atoms that it counts, seen by contracts as the term: each atom that it names, once,
/// but the fixed ones.
#[derive(Drop)]
pub struct CountedTerm {
    term: Stored,
    atoms: Vec<Atom>,
}

impl Model for CountedTerm {
    ghost use Rattle.std.specs.Prelude.{◌≡◌, ℕ};
    ghost use Rattle.pl_term.specs.Tree.{Tree};
    ghost use Rattle.pl_term.specs.Nodes.{coded_tree};
    ghost use Rattle.counted_terms.specs.Keeping.{times};
    ghost use Rattle.counted_terms.specs.CountedTerms.{naming};

    ghost Value = { Tree };

    ghost coded = { coded_tree };

    ghost view = { λ c. c.term };

    ghost invariant = { λ c. (k : ℕ) → times k c.atoms.items ≡ naming k c.term };
}

impl CountedTerm {
    /// The term with the list of its atoms. The only error is out of memory.
    pub fn new(alloc: Global, term: Stored) -> Result<CountedTerm, Memory>
        ensures { IfOk result (λ c. c ≡ term) }
    {
        let atoms = listed(alloc, term.nodes())?;
        Ok(CountedTerm { term, atoms })
    }

    /// The term.
    pub fn term(&self) -> &Stored
        ensures { result.now ≡ self.now }
    {
        &self.term
    }

    /// The term by itself.
    pub fn into_term(self) -> Stored
        ensures { result ≡ self }
    {
        self.term
    }

    /// The atoms that it counts.
    pub fn atoms(&self) -> &[Atom]
        ensures { (k : ℕ) → times k result.now ≡ naming k self.now }
    {
        self.atoms.as_slice()
    }
}

// Lists an atom that is not fixed and is not yet listed. The only error is out of memory.
fn add(met: &mut BTreeSet<u32>, atoms: &mut Vec<Atom>, slot: u32) -> Result<(), Memory>
    requires listed { IsListed met.old atoms.old.items }
    ensures listed { OnOk result (IsListed met.new atoms.new.items) }
    ensures met { OnOk result ((k : ℕ) → set.contains nat_cmp met.new k ≡ (set.contains nat_cmp met.old k || has_counted k (slot ∷ []))) }
{
    if (slot as usize) < COUNT {
        return Ok(());
    }
    if met.insert(slot)? {
        atoms.push(Atom::at(slot))?;
    }
    Ok(())
}

// The atoms that the node names are listed.
fn add_node(met: &mut BTreeSet<u32>, atoms: &mut Vec<Atom>, node: AtomNode) -> Result<(), Memory>
    requires listed { IsListed met.old atoms.old.items }
    ensures listed { OnOk result (IsListed met.new atoms.new.items) }
    ensures met { OnOk result ((k : ℕ) → set.contains nat_cmp met.new k ≡ (set.contains nat_cmp met.old k || has_counted k (slots_of (node ∷ [])))) }
{
    match node {
        AtomNode::Var(_) => Ok(()),
        AtomNode::Int(_) => Ok(()),
        AtomNode::Atom(a) => add(met, atoms, a),
        AtomNode::Comp(f, _) => add(met, atoms, f),
    }
}

// The atoms that the nodes name, each once, but the fixed ones. The only error is out of memory.
fn listed(alloc: Global, nodes: &[AtomNode]) -> Result<Vec<Atom>, Memory>
    ensures { IfOk result (λ v. (k : ℕ) → times k v.items ≡ bit (has_counted k (slots_of nodes.now))) }
{
    let mut met = BTreeSet::new(alloc);
    let mut atoms = Vec::new(alloc);
    for node in nodes {
        add_node(&mut met, &mut atoms, *node)?;
    }
    Ok(atoms)
}

/// A counted term is kept as its term is.
impl Kept for CountedTerm {
    ghost use Rattle.term_store.specs.ArgumentKeys.{clause_key, is_any};
    ghost use Rattle.term_store.specs.NumberedNames.{clause_size, term_by, unify_by_number};
    ghost use Rattle.term_store.specs.KeptLaws.{keys_are_told, sizes_are_told, terms_are_told};

    type Key = ArgumentKey;

    ghost term = { term_by };

    ghost key_of = { clause_key };

    ghost any = { is_any };

    ghost size = { clause_size };

    ghost unified = { unify_by_number };

    ghost keys_tell = { keys_are_told };

    ghost sizes_tell = { sizes_are_told };

    ghost terms_tell = { terms_are_told };

    fn key(&self, alloc: Global) -> Result<ArgumentKey, Memory> {
        <Stored as Kept>::key(&self.term, alloc)
    }

    fn is_any(key: &ArgumentKey) -> bool {
        <Stored as Kept>::is_any(key)
    }

    fn cells(&self) -> u64 {
        <Stored as Kept>::cells(&self.term)
    }

    fn unifies(&self, alloc: Global, other: &CountedTerm) -> Result<bool, Memory> {
        <Stored as Kept>::unifies(&self.term, alloc, &other.term)
    }
}

/// A counted term names the atoms that its term names.
impl Named for CountedTerm {
    ghost use Rattle.term_store.specs.ArgumentKeys.{key_atoms};
    ghost use Rattle.term_store.specs.NameLaws.{keys_are_named, names_are_told};
    ghost use Rattle.term_store.specs.NumberedNames.{names_of};

    ghost names = { names_of };

    ghost key_names = { key_atoms };

    ghost names_tell = { names_are_told };

    ghost keys_named = { keys_are_named };
}
