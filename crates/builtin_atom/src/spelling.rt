//! atom_chars/2 and atom_codes/2 (ISO 8.16.4, 8.16.5).
ghost use Rattle.std.specs.Prelude.{◌≡◌, ◌++◌, ℕ, Some, IfOk, codes};
ghost use Rattle.pl_term.specs.Tree.{var};
ghost use Rattle.pl_model.specs.AtomBuiltins.{as_character, character_error, character_in, code_error, number, spells};
ghost use Rattle.pl_model.specs.Checks.{natural_of};
ghost use Rattle.atom_api.specs.Fixed.{fixed};
ghost use Rattle.term_store.specs.Contents.{Holds};
ghost use Rattle.world_api.specs.Texts.{Holds as Keeps};
ghost use Rattle.world_builtins.specs.Naming.{IsHeldAt};
ghost use Rattle.world_builtins.specs.Spelling.{reads};
ghost use Rattle.builtin_rows.specs.Rows.{IsSingle, refusals_of};
ghost use Rattle.builtin_atom.specs.Answering.{Asks, Gives};
ghost use Rattle.builtin_atom.specs.Forms.{atom_predicate, check_by, from_by, to_by};

use crate::characters::{atom_characters, integer_characters, text_from};
use crate::errors::{past_limit, unbound, wrong_type};
use crate::forms::{Form, fault_row};
use crate::listed::answer_list;
use crate::making::answer_atom;
use crate::spelled::{Spelled, spelled_at};
use atom_api::{Atom, Atoms, fixed};
use builtin_rows::Row;
use pl_term::Memory;
use std::alloc::Global;
use term_store::{Place, Store, View as Kind};

/// atom_chars/2 (ISO 8.16.4): the second argument is the list of the characters of the atom, or of the integer in decimal, that is
/// the first one. Where that is a variable, it is the atom that the list spells: then a partial list gives an instantiation
/// error, what is no list a type error, and the first element that is a variable, or no character, its own error; a text of more
/// than 248 bytes a representation error. A compound term as the first argument gives a type error. Where the cells do not fit
/// the row says so. The only error of the call is out of memory, after which nothing is said of the store.
pub fn atom_chars<A: Atoms>(
    alloc: Global,
    store: &mut Store,
    atom: Place,
    list: Place,
    atoms: &mut A,
) -> Result<Row, Memory>
    requires atom_inside { Holds store.old atom }
    requires list_inside { Holds store.old list }
    requires atom_held { IsHeldAt (A.held atoms.old) store.old atom }
    requires list_held { IsHeldAt (A.held atoms.old) store.old list }
    ensures row { IfOk result (Gives (A.held atoms.old) store.old (codes "atom_chars") (spells character_error character_in as_character) atom list (A.held atoms.new) store.new) }
    ensures holds { Keeps (A.held atoms.old) (A.held atoms.new) }
    ensures refusals { A.refusals atoms.new ≡ A.refusals atoms.old ++ refusals_of result }
    ensures single { IfOk result IsSingle }
    ensures asked { Asks (A.held atoms.old) store.old (codes "atom_chars") (spells character_error character_in as_character) atom list (A.asked atoms.old) (A.asked atoms.new) }
{
    spell(Form::Characters, alloc, store, atom, list, atoms)
}

/// atom_codes/2 (ISO 8.16.5): the same with the codes of the characters. An element that is an integer but no code of a
/// character gives a representation error, and any other that is no integer a type error.
pub fn atom_codes<A: Atoms>(
    alloc: Global,
    store: &mut Store,
    atom: Place,
    list: Place,
    atoms: &mut A,
) -> Result<Row, Memory>
    requires atom_inside { Holds store.old atom }
    requires list_inside { Holds store.old list }
    requires atom_held { IsHeldAt (A.held atoms.old) store.old atom }
    requires list_held { IsHeldAt (A.held atoms.old) store.old list }
    ensures row { IfOk result (Gives (A.held atoms.old) store.old (codes "atom_codes") (spells code_error natural_of number) atom list (A.held atoms.new) store.new) }
    ensures holds { Keeps (A.held atoms.old) (A.held atoms.new) }
    ensures refusals { A.refusals atoms.new ≡ A.refusals atoms.old ++ refusals_of result }
    ensures single { IfOk result IsSingle }
    ensures asked { Asks (A.held atoms.old) store.old (codes "atom_codes") (spells code_error natural_of number) atom list (A.asked atoms.old) (A.asked atoms.new) }
{
    spell(Form::Codes, alloc, store, atom, list, atoms)
}

/// The name of the predicate for a form.
fn name_of(form: Form) -> Atom
    ensures { fixed result ≡ Some (atom_predicate form) }
{
    match form {
        Form::Characters => fixed::ATOM_CHARS,
        Form::Codes => fixed::ATOM_CODES,
    }
}

/// Both predicates, by their form.
fn spell<A: Atoms>(
    form: Form,
    alloc: Global,
    store: &mut Store,
    atom: Place,
    list: Place,
    atoms: &mut A,
) -> Result<Row, Memory>
    requires atom_inside { Holds store.old atom }
    requires list_inside { Holds store.old list }
    requires atom_held { IsHeldAt (A.held atoms.old) store.old atom }
    requires list_held { IsHeldAt (A.held atoms.old) store.old list }
    ensures row { IfOk result (Gives (A.held atoms.old) store.old (atom_predicate form) (spells (check_by form) (from_by form) (to_by form)) atom list (A.held atoms.new) store.new) }
    ensures holds { Keeps (A.held atoms.old) (A.held atoms.new) }
    ensures refusals { A.refusals atoms.new ≡ A.refusals atoms.old ++ refusals_of result }
    ensures single { IfOk result IsSingle }
    ensures asked { Asks (A.held atoms.old) store.old (atom_predicate form) (spells (check_by form) (from_by form) (to_by form)) atom list (A.asked atoms.old) (A.asked atoms.new) }
{
    match store.look(atom) {
        Kind::Variable(_) => spell_list(form, alloc, store, atom, list, atoms),
        Kind::Atom(name) => {
            let text = atom_characters(alloc, name, atoms)?;
            answer_list(form, alloc, store, atom, &text, atoms)
        }
        Kind::Integer(i) => {
            let text = integer_characters(alloc, i)?;
            answer_list(form, alloc, store, atom, &text, atoms)
        }
        Kind::Compound(_, _) => wrong_type(store, fixed::ATOMIC, atom, name_of(form), 2),
    }
}

/// The same where the first argument is a variable. The only error is out of memory.
fn spell_list<A: Atoms>(
    form: Form,
    alloc: Global,
    store: &mut Store,
    atom: Place,
    list: Place,
    atoms: &mut A,
) -> Result<Row, Memory>
    requires list_inside { Holds store.old list }
    requires list_held { IsHeldAt (A.held atoms.old) store.old list }
    requires unbound { (x : ℕ) × (reads (A.held atoms.old) store.old atom ≡ var x) }
    ensures row { IfOk result (Gives (A.held atoms.old) store.old (atom_predicate form) (spells (check_by form) (from_by form) (to_by form)) atom list (A.held atoms.new) store.new) }
    ensures holds { Keeps (A.held atoms.old) (A.held atoms.new) }
    ensures refusals { A.refusals atoms.new ≡ A.refusals atoms.old ++ refusals_of result }
    ensures single { IfOk result IsSingle }
    ensures asked { Asks (A.held atoms.old) store.old (atom_predicate form) (spells (check_by form) (from_by form) (to_by form)) atom list (A.asked atoms.old) (A.asked atoms.new) }
{
    let spelled = spelled_at(form, alloc, store, list, atoms)?;
    match spelled {
        Spelled::Open => unbound(store, name_of(form), 2),
        Spelled::Broken => wrong_type(store, fixed::LIST, list, name_of(form), 2),
        Spelled::Bad(fault) => fault_row(store, fault, name_of(form)),
        Spelled::Text(characters) => {
            let text = text_from(alloc, &characters)?;
            if text.size() > 248 {
                past_limit(store, fixed::MAX_ATOM_LENGTH, name_of(form), 2)
            } else {
                answer_atom(store, &text, list, atoms)
            }
        }
    }
}
