//! Looking at the terms of a store.
ghost use Rattle.std.specs.Prelude.{◌≡◌, ◌<◌, ◌↔◌, [], slice_index_or, IsTrue};
ghost use Rattle.pl_term.specs.Tree.{int, atom};
ghost use Rattle.term_store.specs.Heap.{atom_name};
ghost use Rattle.term_store.specs.Contents.{Contents, Holds, IsAbove, IsArguments, Views, arguments_at, term_at};

use crate::cells::{deref, head_at, word_at};
use crate::store::Store;
use crate::views::{Arguments, View};
use crate::words::{Place, Word};
use atom_api::Atom;

impl Place {
    /// A place at which an integer stands, in every store.
    pub fn integer(i: i64) -> Place
        ensures { (s : Contents) → Holds s result × (term_at s result ≡ int i) }
    {
        Place { word: Word::Int(i) }
    }

    /// A place at which an atom stands, in every store.
    pub fn atom(a: Atom) -> Place
        ensures { (s : Contents) → Holds s result × (term_at s result ≡ atom (atom_name a)) }
    {
        Place {
            word: Word::Atom(a.slot()),
        }
    }
}

impl Store {
    /// Whether a place is one of the store.
    pub fn holds(&self, place: Place) -> bool
        ensures { IsTrue result ↔ Holds self.now place }
    {
        match place.word {
            Word::Var(slot) => slot < self.cells.numbers.len(),
            Word::Int(_) => true,
            Word::Atom(_) => true,
            Word::Comp(k) => k < self.cells.heads.len(),
        }
    }

    /// Whether a number is above those of all variables.
    pub fn is_above(&self, number: u64) -> bool
        ensures { IsTrue result ↔ IsAbove number self.now }
    {
        let count = self.cells.numbers.len();
        count == 0 || self.cells.numbers[count - 1] < number
    }

    /// What kind of term stands at a place: an unbound variable with its number, an integer, an atom, or a compound term
    /// with its name and where its arguments stand.
    pub fn look(&self, place: Place) -> View
        requires { Holds self.now place }
        ensures { Views self.now (term_at self.now place) result }
    {
        match deref(&self.cells, place.word) {
            Word::Var(slot) => View::Variable(self.cells.numbers[slot]),
            Word::Int(i) => View::Integer(i),
            Word::Atom(a) => View::Atom(Atom::at(a)),
            Word::Comp(k) => {
                let head = head_at(&self.cells, k);
                View::Compound(
                    Atom::at(head.name),
                    Arguments {
                        start: head.start as usize,
                        count: head.count as usize,
                    },
                )
            }
        }
    }

    /// The place of an argument of a compound term, counted from 0.
    pub fn argument(&self, arguments: Arguments, i: usize) -> Place
        requires arguments { IsArguments self.now arguments }
        requires within { i < arguments.count }
        ensures holds { Holds self.now result }
        ensures stands { term_at self.now result ≡ slice_index_or (arguments_at self.now arguments) i (atom []) }
    {
        let _words = self.cells.args.len();
        Place {
            word: word_at(&self.cells, arguments.start + i),
        }
    }
}

impl Arguments {
    /// How many arguments there are.
    pub fn len(self) -> usize
        ensures { result ≡ self.count }
    {
        self.count
    }

    /// Whether these are the very same arguments as others of the store. Other arguments may be the same terms too.
    pub fn is_same(self, other: Arguments) -> bool
        ensures { IsTrue result ↔ (self ≡ other) }
    {
        self.start == other.start && self.count == other.count
    }
}
