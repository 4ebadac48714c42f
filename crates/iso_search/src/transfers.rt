//! Copies of terms in another store.
ghost use Rattle.std.specs.Prelude.{◌≡◌, [], IfOk, IfSome, OnErr, OnOk, map};
ghost use Rattle.std.specs.List.{All};
ghost use Rattle.pl_term.specs.Tree.{Tree, var};
ghost use Rattle.term_store.specs.Heap.{atom_name};
ghost use Rattle.term_store.specs.Contents.{Adds, Contents, Holds, IsArguments, Makes, Views, arguments_at, numbers_of, term_at};
ghost use Rattle.iso_search.specs.Parts.{AreCopies, Grows, IsCompoundIn, compound_at, StandsFor};

use crate::parts::{Compound, Parts};
use crate::walk::parts_of;
use atom_api::Atom;
use pl_term::Memory;
use std::alloc::Global;
use term_store::{Arguments, Place, Store, View};

/// A variable of the other store, by its number.
#[derive(Clone, Copy, Drop)]
pub struct VariableCopy {
    pub number: u64,
    pub place: Place,
}

/// A compound term of the first store, and where it stands in the other one.
#[derive(Clone, Copy, Drop)]
pub struct CompoundCopy {
    pub compound: Compound,
    pub place: Place,
}

/// What was copied: the variables, whose numbers rise, and the compound terms in the order of the parts.
#[derive(Drop)]
pub struct Copies {
    pub variables: Vec<VariableCopy>,
    pub compounds: Vec<CompoundCopy>,
}

/// The place in another store of the same term as stands at a place: its variables have the numbers that they have in the
/// first store. A part that the term shares is made once. The other store has no variables. The only error is out of memory,
/// after which the other store is as before.
pub fn copy_into(
    alloc: Global,
    store: &Store,
    place: Place,
    other: &mut Store,
) -> Result<Place, Memory>
    requires place { Holds store.now place }
    requires empty { numbers_of other.old ≡ [] }
    ensures copied { IfOk result (Makes other.old (term_at store.now place) other.new) }
    ensures adds { Adds other.old other.new }
    ensures kept { OnErr result (other.new ≡ other.old) }
{
    let mark = other.mark();
    match copy_parts(alloc, store, place, other) {
        Ok(copy) => Ok(copy),
        Err(_) => {
            other.undo_to(mark);
            Err(Memory)
        }
    }
}

/// Makes the parts of a term in another store. The only error is out of memory, after which some of them may be made.
fn copy_parts(
    alloc: Global,
    store: &Store,
    place: Place,
    other: &mut Store,
) -> Result<Place, Memory>
    requires place { Holds store.now place }
    ensures grows { Grows other.old other.new }
    ensures copied { IfOk result (StandsFor other.new (term_at store.now place)) }
{
    let mut parts = parts_of(alloc, store, place)?;
    parts.numbers.sort_unstable();
    let mut copies = Copies {
        variables: Vec::new(alloc),
        compounds: Vec::new(alloc),
    };
    make_variables(other, &mut copies, &parts.numbers)?;
    copy_compounds(alloc, store, &parts, &mut copies, other)?;
    match copies.place_of(&parts, store.look(place)) {
        Some(copy) => Ok(copy),
        None => Err(Memory),
    }
}

/// Makes variables with these numbers, which rise, each once. The only error is out of memory, after which some may be made.
fn make_variables(other: &mut Store, copies: &mut Copies, numbers: &[u64]) -> Result<(), Memory>
    requires copies { (s : Contents) → AreCopies s other.old copies.old }
    ensures grows { Grows other.old other.new }
    ensures copies { OnOk result ((s : Contents) → AreCopies s other.new copies.new) }
{
    for number in numbers {
        make_variable(other, copies, *number)?;
    }
    Ok(())
}

/// Makes a variable with this number, unless one is there whose number is not below it. The only error is out of memory.
fn make_variable(other: &mut Store, copies: &mut Copies, number: u64) -> Result<(), Memory>
    requires copies { (s : Contents) → AreCopies s other.old copies.old }
    ensures grows { Grows other.old other.new }
    ensures copies { OnOk result ((s : Contents) → AreCopies s other.new copies.new) }
{
    if !other.is_above(number) {
        return Ok(());
    }
    let place = other.make_variable(number)?;
    copies.variables.push(VariableCopy { number, place })?;
    Ok(())
}

/// Makes the compound terms among the parts. The only error is out of memory, after which some of them may be made.
fn copy_compounds(
    alloc: Global,
    store: &Store,
    parts: &Parts,
    copies: &mut Copies,
    other: &mut Store,
) -> Result<(), Memory>
    requires parts { All (IsCompoundIn store.now) parts.now.compounds.items }
    requires copies { AreCopies store.now other.old copies.old }
    ensures grows { Grows other.old other.new }
    ensures copies { OnOk result (AreCopies store.now other.new copies.new) }
{
    let mut words = Vec::new(alloc);
    for compound in &parts.compounds {
        copy_compound(store, parts, *compound, copies, other, &mut words)?;
    }
    Ok(())
}

/// Makes a compound term over what was copied before. `words` is room for the places of its arguments. The only error is out of
/// memory.
fn copy_compound(
    store: &Store,
    parts: &Parts,
    compound: Compound,
    copies: &mut Copies,
    other: &mut Store,
    words: &mut Vec<Place>,
) -> Result<(), Memory>
    requires compound { IsCompoundIn store.now compound }
    requires copies { AreCopies store.now other.old copies.old }
    ensures grows { Grows other.old other.new }
    ensures copies { OnOk result (AreCopies store.now other.new copies.new) }
{
    copy_arguments(store, parts, compound.arguments, copies, other, words)?;
    let place = other.make_compound(compound.name, words)?;
    copies.compounds.push(CompoundCopy { compound, place })?;
    Ok(())
}

/// The places in the other store of a compound term's arguments. The only error is out of memory.
fn copy_arguments(
    store: &Store,
    parts: &Parts,
    arguments: Arguments,
    copies: &Copies,
    other: &Store,
    words: &mut Vec<Place>,
) -> Result<(), Memory>
    requires arguments { IsArguments store.now arguments }
    requires copies { AreCopies store.now other.now copies.now }
    ensures holds { OnOk result (All (Holds other.now) words.new.items) }
    ensures means { OnOk result (map (term_at other.now) words.new.items ≡ arguments_at store.now arguments) }
{
    words.clear();
    for i in 0..arguments.len() {
        let at = store.argument(arguments, i);
        let Some(place) = copies.place_of(parts, store.look(at)) else {
            return Err(Memory);
        };
        words.push(place)?;
    }
    Ok(())
}

impl Copies {
    /// Where the term that was looked at stands in the other store, if it was copied.
    fn place_of(&self, parts: &Parts, view: View) -> Option<Place>
        ensures { (s t : Contents) (term : Tree) → AreCopies s t self.now → Views s term view → IfSome result (StandsFor t term) }
    {
        match view {
            View::Variable(number) => self.variable(number),
            View::Integer(i) => Some(Place::integer(i)),
            View::Atom(a) => Some(Place::atom(a)),
            View::Compound(name, arguments) => {
                self.compound(parts.place(arguments.start())?, name, arguments)
            }
        }
    }

    /// Where the variable with this number stands in the other store, if it was made.
    fn variable(&self, number: u64) -> Option<Place>
        ensures { (s t : Contents) → AreCopies s t self.now → IfSome result (StandsFor t (var number)) }
    {
        let Ok(at) = self.variables.binary_search_by_key(&number, |v| v.number) else {
            return None;
        };
        let found = self.variables[at];
        if found.number == number {
            Some(found.place)
        } else {
            None
        }
    }

    /// Where the compound term with this name and these arguments stands in the other store, if it was the one to be copied at
    /// this place.
    fn compound(&self, at: usize, name: Atom, arguments: Arguments) -> Option<Place>
        ensures { (s t : Contents) → AreCopies s t self.now → IfSome result (StandsFor t (compound_at s (record { name = name; arguments = arguments }))) }
    {
        if at >= self.compounds.len() {
            return None;
        }
        let found = self.compounds[at];
        if found.compound.name == name && found.compound.arguments.is_same(arguments) {
            Some(found.place)
        } else {
            None
        }
    }
}
