//! The atoms that a store, its places and kept terms name.
ghost use Rattle.std.specs.Prelude.{◌≡◌, ◌<◌, ◌++◌, OnOk, flat_map, length};
ghost use Rattle.std.specs.List.{All};
ghost use Rattle.pl_term.specs.Tree.{Chars};
ghost use Rattle.term_store.specs.Contents.{term_at};
ghost use Rattle.term_store.specs.Live.{Gathers, SpellsAlike, cell_atoms, head_atoms, node_atoms, place_atoms, word_atoms};
ghost use Rattle.term_store.specs.NumberedNames.{atoms_in, spelled};

use crate::atom_set::AtomSet;
use crate::bonds::Bonds;
use crate::nodes::AtomNode;
use crate::shorts::Words;
use crate::store::Store;
use crate::stored::Stored;
use crate::words::{Head, Place, Word};
use atom_api::Atom;
use pl_term::Memory;

impl Store {
    /// Puts the atoms that the store's cells name to those of a set. What a term of the store reads as depends on their
    /// texts alone, and on that of the atom which stands at the place itself. The only error is out of memory.
    pub fn live_in(&self, live: &mut AtomSet) -> Result<(), Memory>
        ensures gathers { OnOk result (Gathers (cell_atoms self.now) live.old live.new) }
        ensures read { (f g : Chars → Chars) (p : Place) → SpellsAlike f g (place_atoms p ++ cell_atoms self.now)
            → spelled f (term_at self.now p) ≡ spelled g (term_at self.now p) }
    {
        list_heads(&self.cells.heads, live)?;
        list_words(&self.cells.args, live)?;
        list_bonds(&self.cells.bonds, live)?;
        Ok(())
    }
}

impl Place {
    /// Puts the atom that stands here, if one stands here in every store, to those of a set. The only error is out of memory.
    pub fn live_in(self, live: &mut AtomSet) -> Result<(), Memory>
        ensures { OnOk result (Gathers (place_atoms self) live.old live.new) }
    {
        list_word(self.word, live)
    }
}

impl Stored {
    /// Puts the atoms that the term names to those of a set. The only error is out of memory.
    pub fn live_in(&self, live: &mut AtomSet) -> Result<(), Memory>
        ensures { OnOk result (Gathers (atoms_in self.now) live.old live.new) }
    {
        list_nodes(self.nodes(), live)?;
        Ok(())
    }
}

/// Puts the names of compound terms to the atoms of a set. The only error is out of memory.
fn list_heads(heads: &[Head], live: &mut AtomSet) -> Result<(), Memory>
    ensures { OnOk result (Gathers (flat_map head_atoms heads.now) live.old live.new) }
{
    for head in heads {
        live.insert(Atom::at(head.name))?;
    }
    Ok(())
}

/// Puts the atoms among words to those of a set. The only error is out of memory.
fn list_words(words: &Words, live: &mut AtomSet) -> Result<(), Memory>
    ensures { OnOk result (Gathers (flat_map word_atoms words.now.items) live.old live.new) }
{
    for i in 0..words.len() {
        list_word(words.get(i), live)?;
    }
    Ok(())
}

/// Puts the atoms that variables are bound to to those of a set. The only error is out of memory.
fn list_bonds(bonds: &Bonds, live: &mut AtomSet) -> Result<(), Memory>
    requires { All (λ b. b.slot < length bonds.now.values) bonds.now.items }
    ensures { OnOk result (Gathers (flat_map (λ b. word_atoms b.word) bonds.now.items) live.old live.new) }
{
    for i in 0..bonds.len() {
        list_word(bonds.word(i), live)?;
    }
    Ok(())
}

/// Puts an atom to those of a set, if the word is one. The only error is out of memory.
fn list_word(word: Word, live: &mut AtomSet) -> Result<(), Memory>
    ensures { OnOk result (Gathers (word_atoms word) live.old live.new) }
{
    match word {
        Word::Atom(a) => live.insert(Atom::at(a)),
        _ => Ok(()),
    }
}

/// Puts the atoms that nodes name to those of a set. The only error is out of memory.
fn list_nodes(nodes: &[AtomNode], live: &mut AtomSet) -> Result<(), Memory>
    ensures { OnOk result (Gathers (flat_map node_atoms nodes.now) live.old live.new) }
{
    for node in nodes {
        list_node(*node, live)?;
    }
    Ok(())
}

/// Puts the atom of a node to those of a set, if it has one. The only error is out of memory.
fn list_node(node: AtomNode, live: &mut AtomSet) -> Result<(), Memory>
    ensures { OnOk result (Gathers (node_atoms node) live.old live.new) }
{
    match node {
        AtomNode::Atom(a) => live.insert(Atom::at(a)),
        AtomNode::Comp(a, _) => live.insert(Atom::at(a)),
        _ => Ok(()),
    }
}
