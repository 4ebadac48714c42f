//! number_chars/2 and number_codes/2 (ISO 8.16.7, 8.16.8).
ghost use Rattle.std.specs.Prelude.{◌≡◌, ◌++◌, ℕ, ℤ, [], Option, Some, IfOk, codes};
ghost use Rattle.pl_term.specs.Tree.{Chars, Trees, var};
ghost use Rattle.pl_model.specs.AtomBuiltins.{as_character, character_error, character_in, code_error, number, number_row, spells_number};
ghost use Rattle.pl_model.specs.Checks.{natural_of};
ghost use Rattle.pl_model.specs.History.{proc};
ghost use Rattle.atom_api.specs.Fixed.{fixed};
ghost use Rattle.atom_api.specs.Names.{Names, FixedStand};
ghost use Rattle.term_store.specs.Contents.{Holds};
ghost use Rattle.world_api.specs.Texts.{Holds as Keeps};
ghost use Rattle.world_builtins.specs.Naming.{IsHeldAt};
ghost use Rattle.world_builtins.specs.Spelling.{reads};
ghost use Rattle.builtin_rows.specs.Rows.{IsSingle, refusals_of};
ghost use Rattle.lex_core.specs.NumberTexts.{IsNumber};
ghost use Rattle.builtin_atom.specs.Answering.{Asks, Gives, IsRowOf};
ghost use Rattle.builtin_atom.specs.Forms.{check_by, from_by, number_predicate, to_by};

use crate::answers::answer;
use crate::characters::{integer_characters, string_from};
use crate::errors::{bad_syntax, unbound, wrong_type};
use crate::forms::{Form, fault_row};
use crate::listed::answer_list;
use crate::spelled::{Spelled, spelled_at};
use atom_api::{Atom, Atoms, fixed};
use builtin_rows::Row;
use lex_core::{NumberText, number_in};
use pl_term::Memory;
use std::alloc::Global;
use term_store::{Place, Store, View as Kind};

/// number_chars/2 (ISO 8.16.7): the second argument is the list of the characters of the integer that is the first one. Where
/// that is a variable, it is the integer that the list spells: layout, a minus sign if there is one, and a numeral, up to the end
/// of the list. Then a partial list gives an instantiation error, what is no list a type error, the first element that is a
/// variable, or no character, its own error, and a list that spells no integer, or one of more than 64 bits, a syntax error. Any
/// other first argument gives a type error. Where the cells do not fit the row says so. The only error of the call is out of
/// memory, after which nothing is said of the store.
pub fn number_chars<A: Atoms>(
    alloc: Global,
    store: &mut Store,
    integer: Place,
    list: Place,
    atoms: &mut A,
) -> Result<Row, Memory>
    requires integer_inside { Holds store.old integer }
    requires list_inside { Holds store.old list }
    requires integer_held { IsHeldAt (A.held atoms.old) store.old integer }
    requires list_held { IsHeldAt (A.held atoms.old) store.old list }
    ensures row { IfOk result (Gives (A.held atoms.old) store.old (codes "number_chars") (spells_number character_error character_in as_character) integer list (A.held atoms.new) store.new) }
    ensures holds { Keeps (A.held atoms.old) (A.held atoms.new) }
    ensures refusals { A.refusals atoms.new ≡ A.refusals atoms.old ++ refusals_of result }
    ensures single { IfOk result IsSingle }
    ensures asked { Asks (A.held atoms.old) store.old (codes "number_chars") (spells_number character_error character_in as_character) integer list (A.asked atoms.old) (A.asked atoms.new) }
{
    spell_number(Form::Characters, alloc, store, integer, list, atoms)
}

/// number_codes/2 (ISO 8.16.8): the same with the codes of the characters. An element that is an integer but no code of a
/// character gives a representation error, and any other that is no integer a type error.
pub fn number_codes<A: Atoms>(
    alloc: Global,
    store: &mut Store,
    integer: Place,
    list: Place,
    atoms: &mut A,
) -> Result<Row, Memory>
    requires integer_inside { Holds store.old integer }
    requires list_inside { Holds store.old list }
    requires integer_held { IsHeldAt (A.held atoms.old) store.old integer }
    requires list_held { IsHeldAt (A.held atoms.old) store.old list }
    ensures row { IfOk result (Gives (A.held atoms.old) store.old (codes "number_codes") (spells_number code_error natural_of number) integer list (A.held atoms.new) store.new) }
    ensures holds { Keeps (A.held atoms.old) (A.held atoms.new) }
    ensures refusals { A.refusals atoms.new ≡ A.refusals atoms.old ++ refusals_of result }
    ensures single { IfOk result IsSingle }
    ensures asked { Asks (A.held atoms.old) store.old (codes "number_codes") (spells_number code_error natural_of number) integer list (A.asked atoms.old) (A.asked atoms.new) }
{
    spell_number(Form::Codes, alloc, store, integer, list, atoms)
}

/// The name of the predicate for a form.
fn number_name(form: Form) -> Atom
    ensures { fixed result ≡ Some (number_predicate form) }
{
    match form {
        Form::Characters => fixed::NUMBER_CHARS,
        Form::Codes => fixed::NUMBER_CODES,
    }
}

/// Both predicates, by their form.
fn spell_number<A: Atoms>(
    form: Form,
    alloc: Global,
    store: &mut Store,
    integer: Place,
    list: Place,
    atoms: &mut A,
) -> Result<Row, Memory>
    requires integer_inside { Holds store.old integer }
    requires list_inside { Holds store.old list }
    requires integer_held { IsHeldAt (A.held atoms.old) store.old integer }
    requires list_held { IsHeldAt (A.held atoms.old) store.old list }
    ensures row { IfOk result (Gives (A.held atoms.old) store.old (number_predicate form) (spells_number (check_by form) (from_by form) (to_by form)) integer list (A.held atoms.new) store.new) }
    ensures holds { Keeps (A.held atoms.old) (A.held atoms.new) }
    ensures refusals { A.refusals atoms.new ≡ A.refusals atoms.old ++ refusals_of result }
    ensures single { IfOk result IsSingle }
    ensures asked { Asks (A.held atoms.old) store.old (number_predicate form) (spells_number (check_by form) (from_by form) (to_by form)) integer list (A.asked atoms.old) (A.asked atoms.new) }
{
    match store.look(integer) {
        Kind::Variable(_) => read_number(form, alloc, store, integer, list, atoms),
        Kind::Integer(i) => {
            let text = integer_characters(alloc, i)?;
            answer_list(form, alloc, store, integer, &text, atoms)
        }
        Kind::Atom(_) => wrong_type(store, fixed::NUMBER, integer, number_name(form), 2),
        Kind::Compound(_, _) => wrong_type(store, fixed::NUMBER, integer, number_name(form), 2),
    }
}

/// The same where the first argument is a variable. The only error is out of memory.
fn read_number<A: Atoms>(
    form: Form,
    alloc: Global,
    store: &mut Store,
    integer: Place,
    list: Place,
    atoms: &mut A,
) -> Result<Row, Memory>
    requires list_inside { Holds store.old list }
    requires list_held { IsHeldAt (A.held atoms.old) store.old list }
    requires unbound { (x : ℕ) × (reads (A.held atoms.old) store.old integer ≡ var x) }
    ensures row { IfOk result (Gives (A.held atoms.old) store.old (number_predicate form) (spells_number (check_by form) (from_by form) (to_by form)) integer list (A.held atoms.new) store.new) }
    ensures same { A.held atoms.new ≡ A.held atoms.old }
    ensures refusals { A.refusals atoms.new ≡ A.refusals atoms.old ++ refusals_of result }
    ensures single { IfOk result IsSingle }
    ensures asked { A.asked atoms.new ≡ A.asked atoms.old }
{
    let spelled = spelled_at(form, alloc, store, list, atoms)?;
    match spelled {
        Spelled::Open => unbound(store, number_name(form), 2),
        Spelled::Broken => wrong_type(store, fixed::LIST, list, number_name(form), 2),
        Spelled::Bad(fault) => fault_row(store, fault, number_name(form)),
        Spelled::Text(characters) => {
            let text = string_from(alloc, &characters)?;
            number_row(store, number_in(text.as_str()), list, number_name(form))
        }
    }
}

/// The row of the predicate with this name for a list that is read as a number. The only error is out of memory.
fn number_row(store: &mut Store, number: NumberText, list: Place, name: Atom) -> Result<Row, Memory>
    requires { Holds store.old list }
    ensures row { IfOk result (λ r. (m : Names) (p : Chars) (ts : Trees) (o : Option ℤ) → FixedStand m → IsHeldAt m store.old list → fixed name ≡ Some p
        → IsNumber o number → IsRowOf store.old (proc p 2) ts (number_row (reads m store.old list) o) m store.new r) }
    ensures refusals { refusals_of result ≡ [] }
    ensures single { IfOk result IsSingle }
{
    match number {
        NumberText::Illegal => bad_syntax(store, fixed::ILLEGAL_NUMBER, name, 2),
        NumberText::TooLarge => bad_syntax(store, fixed::INTEGER_TOO_LARGE, name, 2),
        NumberText::Integer(i) => Ok(answer(store, Place::integer(i), list)),
    }
}
