//! Characters as elements of lists (ISO 7.1.2.2, 7.1.4.1).
ghost use Rattle.std.specs.Prelude.{◌≡◌, [], Some, IfOk, MatchBool};
ghost use Rattle.pl_term.specs.Tree.{Chars, Trees};
ghost use Rattle.pl_model.specs.BuiltinRows.{error};
ghost use Rattle.pl_model.specs.History.{proc};
ghost use Rattle.atom_api.specs.Fixed.{fixed};
ghost use Rattle.atom_api.specs.Names.{Names, FixedStand};
ghost use Rattle.term_store.specs.Contents.{Holds};
ghost use Rattle.world_builtins.specs.Naming.{IsHeldAt};
ghost use Rattle.world_builtins.specs.Spelling.{reads};
ghost use Rattle.builtin_rows.specs.Rows.{IsSingle, refusals_of};
ghost use Rattle.builtin_atom.specs.Answering.{IsRowOf};
ghost use Rattle.builtin_atom.specs.Forms.{IsBound, IsFaultHeld, IsFaultIn, IsRead, error_of};

use crate::errors::{past_limit, unbound, wrong_type};
use crate::texts::{character_at, character_of};
use atom_api::{Atom, Atoms, fixed};
use builtin_rows::Row;
use pl_term::Memory;
use term_store::{Place, Store, View as Kind};

/// How the characters of a text stand in a list: as atoms of one character, or as their codes.
#[derive(Clone, Copy, Debug, PartialEq, Eq, Drop)]
pub enum Form {
    Characters,
    Codes,
}

/// What is wrong with an element: it is a variable, it is no character, it is no integer, or it is no code of a character.
#[derive(Clone, Copy, Drop)]
pub enum Fault {
    Unbound,
    NoCharacter(Place),
    NoInteger(Place),
    NoCode,
}

/// What an element is read as.
#[derive(Clone, Copy, Drop)]
pub enum Read {
    Character(char),
    Bad(Fault),
}

/// The character that an atom of one character is.
fn read_character<A: Atoms>(store: &Store, place: Place, atoms: &mut A) -> Read
    requires inside { Holds store.now place }
    requires held { IsHeldAt (A.held atoms.old) store.now place }
    ensures read { IsRead Form.Characters (A.held atoms.old) store.now (reads (A.held atoms.old) store.now place) result }
    ensures same { A.held atoms.new ≡ A.held atoms.old }
    ensures refusals { A.refusals atoms.new ≡ A.refusals atoms.old }
    ensures asked { A.asked atoms.new ≡ A.asked atoms.old }
{
    match store.look(place) {
        Kind::Variable(_) => Read::Bad(Fault::Unbound),
        Kind::Atom(name) => match character_of(name, atoms) {
            Some(c) => Read::Character(c),
            None => Read::Bad(Fault::NoCharacter(place)),
        },
        Kind::Integer(_) => Read::Bad(Fault::NoCharacter(place)),
        Kind::Compound(_, _) => Read::Bad(Fault::NoCharacter(place)),
    }
}

/// The character of a code.
fn read_code(store: &Store, place: Place) -> Read
    requires { Holds store.now place }
    ensures { (m : Names) → IsHeldAt m store.now place → IsRead Form.Codes m store.now (reads m store.now place) result }
{
    match store.look(place) {
        Kind::Variable(_) => Read::Bad(Fault::Unbound),
        Kind::Integer(i) => match character_at(i) {
            Some(c) => Read::Character(c),
            None => Read::Bad(Fault::NoCode),
        },
        Kind::Atom(_) => Read::Bad(Fault::NoInteger(place)),
        Kind::Compound(_, _) => Read::Bad(Fault::NoInteger(place)),
    }
}

/// What the element at a place is read as.
pub fn read_element<A: Atoms>(form: Form, store: &Store, place: Place, atoms: &mut A) -> Read
    requires inside { Holds store.now place }
    requires held { IsHeldAt (A.held atoms.old) store.now place }
    ensures read { IsRead form (A.held atoms.old) store.now (reads (A.held atoms.old) store.now place) result }
    ensures same { A.held atoms.new ≡ A.held atoms.old }
    ensures refusals { A.refusals atoms.new ≡ A.refusals atoms.old }
    ensures asked { A.asked atoms.new ≡ A.asked atoms.old }
{
    match form {
        Form::Characters => read_character(store, place, atoms),
        Form::Codes => read_code(store, place),
    }
}

/// Whether an element is a variable.
pub fn is_unbound(fault: Fault) -> bool
    ensures { MatchBool result (fault ≡ Fault.Unbound) (IsBound fault) }
{
    match fault {
        Fault::Unbound => true,
        Fault::NoCharacter(_) => false,
        Fault::NoInteger(_) => false,
        Fault::NoCode => false,
    }
}

/// The row of the predicate with this name, where this is wrong with an element. The only error is out of memory.
pub fn fault_row(store: &mut Store, fault: Fault, name: Atom) -> Result<Row, Memory>
    requires { IsFaultIn store.old fault }
    ensures row { IfOk result (λ r. (m : Names) (p : Chars) (ts : Trees) → FixedStand m → IsFaultHeld m store.old fault → fixed name ≡ Some p
        → IsRowOf store.old (proc p 2) ts (error (error_of m store.old fault)) m store.new r) }
    ensures refusals { refusals_of result ≡ [] }
    ensures single { IfOk result IsSingle }
{
    match fault {
        Fault::Unbound => unbound(store, name, 2),
        Fault::NoCharacter(place) => wrong_type(store, fixed::CHARACTER, place, name, 2),
        Fault::NoInteger(place) => wrong_type(store, fixed::INTEGER, place, name, 2),
        Fault::NoCode => past_limit(store, fixed::CHARACTER_CODE, name, 2),
    }
}
