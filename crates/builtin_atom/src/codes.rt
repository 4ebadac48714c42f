//! char_code/2 (ISO 8.16.6).
ghost use Rattle.std.specs.Prelude.{◌≡◌, ◌++◌, [], IfOk, codes};
ghost use Rattle.pl_model.specs.AtomBuiltins.{as_character, codes_character, number};
ghost use Rattle.term_store.specs.Contents.{Contents, Holds, term_at};
ghost use Rattle.world_api.specs.Texts.{Holds as Keeps};
ghost use Rattle.world_builtins.specs.Naming.{IsHeldAt};
ghost use Rattle.world_builtins.specs.Spelling.{reads};
ghost use Rattle.builtin_rows.specs.Rows.{IsSingle, refusals_of};
ghost use Rattle.builtin_atom.specs.declared.forms.Fault.{Fault};
ghost use Rattle.builtin_atom.specs.Answering.{Asks, Gives};
ghost use Rattle.builtin_atom.specs.Forms.{IsFaultOf, IsRead};

use crate::answers::{answer, unchanged};
use crate::forms::{Form, Read, fault_row, is_unbound, read_element};
use crate::making::answer_atom;
use crate::texts::one_character;
use atom_api::{Atoms, fixed};
use builtin_rows::Row;
use pl_term::Memory;
use std::alloc::Global;
use term_store::{Place, Store};

/// char_code/2 (ISO 8.16.6): the second argument is the code of the character that is the first one. At least one of them is
/// bound. What is bound but no character is refused in the first place, and in the second one what is bound but no integer, and
/// an integer that is no code of a character. The only error is out of memory.
pub fn char_code<A: Atoms>(
    alloc: Global,
    store: &mut Store,
    character: Place,
    code: Place,
    atoms: &mut A,
) -> Result<Row, Memory>
    requires character_inside { Holds store.old character }
    requires code_inside { Holds store.old code }
    requires character_held { IsHeldAt (A.held atoms.old) store.old character }
    requires code_held { IsHeldAt (A.held atoms.old) store.old code }
    ensures row { IfOk result (Gives (A.held atoms.old) store.old (codes "char_code") codes_character character code (A.held atoms.new) store.new) }
    ensures holds { Keeps (A.held atoms.old) (A.held atoms.new) }
    ensures refusals { A.refusals atoms.new ≡ A.refusals atoms.old ++ refusals_of result }
    ensures single { IfOk result IsSingle }
    ensures asked { Asks (A.held atoms.old) store.old (codes "char_code") codes_character character code (A.asked atoms.old) (A.asked atoms.new) }
{
    let first = read_element(Form::Characters, store, character, atoms);
    let second = read_element(Form::Codes, store, code, atoms);
    match first {
        Read::Bad(fault) => {
            if is_unbound(fault) {
                return of_code(alloc, store, second, character, code, atoms);
            }
            fault_row(store, fault, fixed::CHAR_CODE)
        }
        Read::Character(c) => of_character(store, c, second, character, code, atoms),
    }
}

/// The same where the first argument is a variable. The only error is out of memory.
fn of_code<A: Atoms>(
    alloc: Global,
    store: &mut Store,
    second: Read,
    character: Place,
    code: Place,
    atoms: &mut A,
) -> Result<Row, Memory>
    requires unbound { IsFaultOf (reads (A.held atoms.old) store.old character) Fault.Unbound }
    requires read { IsRead Form.Codes (A.held atoms.old) store.old (reads (A.held atoms.old) store.old code) second }
    requires inside { Holds store.old code }
    requires held { IsHeldAt (A.held atoms.old) store.old code }
    ensures row { IfOk result (Gives (A.held atoms.old) store.old (codes "char_code") codes_character character code (A.held atoms.new) store.new) }
    ensures holds { Keeps (A.held atoms.old) (A.held atoms.new) }
    ensures refusals { A.refusals atoms.new ≡ A.refusals atoms.old ++ refusals_of result }
    ensures single { IfOk result IsSingle }
    ensures asked { Asks (A.held atoms.old) store.old (codes "char_code") codes_character character code (A.asked atoms.old) (A.asked atoms.new) }
{
    match second {
        Read::Bad(fault) => fault_row(store, fault, fixed::CHAR_CODE),
        Read::Character(c) => {
            let text = one_character(alloc, c)?;
            answer_atom(store, &text, code, atoms)
        }
    }
}

/// The same where the first argument is a character. The only error is out of memory.
fn of_character<A: Atoms>(
    store: &mut Store,
    c: char,
    second: Read,
    character: Place,
    code: Place,
    atoms: &A,
) -> Result<Row, Memory>
    requires first { reads (A.held atoms.now) store.old character ≡ as_character c }
    requires second { IsRead Form.Codes (A.held atoms.now) store.old (reads (A.held atoms.now) store.old code) second }
    requires inside { Holds store.old character }
    requires held { IsHeldAt (A.held atoms.now) store.old character }
    ensures row { IfOk result (Gives (A.held atoms.now) store.old (codes "char_code") codes_character character code (A.held atoms.now) store.new) }
    ensures refusals { refusals_of result ≡ [] }
    ensures single { IfOk result IsSingle }
{
    match second {
        Read::Bad(fault) => {
            if is_unbound(fault) {
                return Ok(answer(store, character, code_of(c)));
            }
            fault_row(store, fault, fixed::CHAR_CODE)
        }
        Read::Character(d) => {
            if c == d {
                return Ok(unchanged(store));
            }
            Ok(answer(store, character, code_of(c)))
        }
    }
}

/// The code of a character.
pub fn code_of(c: char) -> Place
    ensures { (s : Contents) → Holds s result × (term_at s result ≡ number c) }
{
    Place::integer(i64::from(u32::from(c)))
}
