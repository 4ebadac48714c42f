//! atom_concat/3 (ISO 8.16.2).
ghost use Rattle.std.specs.Prelude.{◌≡◌, ◌++◌, ◌≤◌, ℕ, [], None, true, false, ◌&&◌, length, IfNone, IfOk, IfSome};
ghost use Rattle.pl_term.specs.Tree.{Trees, atom};
ghost use Rattle.pl_term.specs.Texts.{size};
ghost use Rattle.pl_model.specs.AtomBuiltins.{concatenates};
ghost use Rattle.pl_model.specs.BuiltinRows.{one_answer};
ghost use Rattle.pl_model.specs.Checks.{atom_error, text_of_atom};
ghost use Rattle.pl_model.specs.Terms.{is_atom, is_variable};
ghost use Rattle.pl_model.specs.TermBuiltins.{three};
ghost use Rattle.pl_model.specs.History.{Proc};
ghost use Rattle.atom_api.specs.Names.{Names};
ghost use Rattle.term_store.specs.Contents.{Holds};
ghost use Rattle.world_api.specs.Texts.{Holds as Keeps};
ghost use Rattle.world_builtins.specs.Naming.{IsHeldAt};
ghost use Rattle.world_builtins.specs.Spelling.{reads};
ghost use Rattle.builtin_rows.specs.Rows.{refusals_of};
ghost use Rattle.builtin_atom.specs.Answering.{AsksFor, IsRowOf};
ghost use Rattle.atom_parts.specs.Lined.{AreSplits, AsksFromLine, IsFromLine, atom_concat_proc, concatenation_at, lines_in, three_at};
ghost use Rattle.atom_parts.specs.Misfits.{IsMisfitHeld, IsMisfitIn, concatenation_error, misfit_error};
ghost use Rattle.atom_parts.specs.Reading.{IsAtom};
ghost use Rattle.atom_parts.specs.Splits.{splits_of};

use crate::joining::join;
use crate::misfits::{Check, Misfit, first_misfit, misfit_row};
use crate::reading::{wanted_atom, whole_text};
use crate::splits::{Splits, next_split, split_columns};
use crate::tables::line_row;
use atom_api::{Atoms, fixed};
use builtin_rows::Row;
use pl_term::Memory;
use std::alloc::Global;
use term_store::{Place, Store, View as Kind};

/// atom_concat/3 (ISO 8.16.2): the third argument is the atom of the characters of the first and then those of the second.
/// Where one of these is a variable, the two parts of the third at each place are the answers, from the shortest first part on,
/// as lines of a table. Where the third is a variable, so may be neither of the others: an instantiation error. What is neither
/// a variable nor an atom is a type error, the first argument before the second and the third; a text of more than 248 bytes a
/// representation error. Where the cells do not fit the row says so. The only error of the call is out of memory, after which
/// nothing is said of the store.
pub fn atom_concat<A: Atoms>(
    alloc: Global,
    store: &mut Store,
    first: Place,
    second: Place,
    whole: Place,
    atoms: &mut A,
) -> Result<Row, Memory>
    requires first_inside { Holds store.old first }
    requires second_inside { Holds store.old second }
    requires whole_inside { Holds store.old whole }
    requires first_held { IsHeldAt (A.held atoms.old) store.old first }
    requires second_held { IsHeldAt (A.held atoms.old) store.old second }
    requires whole_held { IsHeldAt (A.held atoms.old) store.old whole }
    ensures row { IfOk result (IsRowOf store.old atom_concat_proc (three_at (A.held atoms.old) store.old first second whole)
        (concatenation_at (A.held atoms.old) store.old first second whole) (A.held atoms.new) store.new) }
    ensures holds { Keeps (A.held atoms.old) (A.held atoms.new) }
    ensures refusals { A.refusals atoms.new ≡ A.refusals atoms.old ++ refusals_of result }
    ensures asked { AsksFor store.old atom_concat_proc (three_at (A.held atoms.old) store.old first second whole)
        (concatenation_at (A.held atoms.old) store.old first second whole) (A.asked atoms.old) (A.asked atoms.new) }
{
    if let Some(misfit) = misfit_of(store, first, second, whole) {
        return misfit_row(store, misfit, fixed::ATOM_CONCAT, 3);
    }
    if are_atoms(store, first, second) {
        return join(alloc, store, first, second, atoms);
    }
    split_row(alloc, store, first, second, whole, 0, atoms)
}

/// The answer of atom_concat/3 that is the first one of its table from a line on, counted from 0, and the line of the next one.
/// The only error is out of memory.
pub fn atom_concat_line<A: Atoms>(
    alloc: Global,
    store: &Store,
    first: Place,
    second: Place,
    whole: Place,
    line: usize,
    atoms: &mut A,
) -> Result<Row, Memory>
    requires first_inside { Holds store.now first }
    requires second_inside { Holds store.now second }
    requires whole_inside { Holds store.now whole }
    requires first_held { IsHeldAt (A.held atoms.old) store.now first }
    requires second_held { IsHeldAt (A.held atoms.old) store.now second }
    requires whole_held { IsHeldAt (A.held atoms.old) store.now whole }
    ensures row { IfOk result (IsFromLine store.now (three_at (A.held atoms.old) store.now first second whole)
        (lines_in (concatenation_at (A.held atoms.old) store.now first second whole)) line (A.held atoms.new)) }
    ensures holds { Keeps (A.held atoms.old) (A.held atoms.new) }
    ensures refusals { A.refusals atoms.new ≡ A.refusals atoms.old ++ refusals_of result }
    ensures asked { AsksFromLine (three_at (A.held atoms.old) store.now first second whole)
        (lines_in (concatenation_at (A.held atoms.old) store.now first second whole)) line (A.asked atoms.old) (A.asked atoms.new) }
{
    if let Some(_) = misfit_of(store, first, second, whole) {
        return Ok(Row::Fails);
    }
    if are_atoms(store, first, second) {
        return Ok(Row::Fails);
    }
    split_row(alloc, store, first, second, whole, line, atoms)
}

/// What is wrong with the arguments.
fn misfit_of(store: &Store, first: Place, second: Place, whole: Place) -> Option<Misfit>
    requires first_inside { Holds store.now first }
    requires second_inside { Holds store.now second }
    requires whole_inside { Holds store.now whole }
    ensures error { (m : Names) → misfit_error m store.now result
        ≡ concatenation_error (reads m store.now first) (reads m store.now second) (reads m store.now whole) }
    ensures place { IfSome result (IsMisfitIn store.now) }
    ensures held { (m : Names) → IsHeldAt m store.now first → IsHeldAt m store.now second → IsHeldAt m store.now whole → IfSome result (IsMisfitHeld m store.now) }
{
    if is_variable_at(store, whole) {
        let unbound = first_misfit(store, &[Check::Bound(first), Check::Bound(second)]);
        if let Some(misfit) = unbound {
            return Some(misfit);
        }
    }
    first_misfit(
        store,
        &[Check::Atom(first), Check::Atom(second), Check::Atom(whole)],
    )
}

/// Whether a variable stands at a place.
fn is_variable_at(store: &Store, place: Place) -> bool
    requires { Holds store.now place }
    ensures { (m : Names) → is_variable (reads m store.now place) ≡ result }
{
    match store.look(place) {
        Kind::Variable(_) => true,
        Kind::Integer(_) => false,
        Kind::Atom(_) => false,
        Kind::Compound(_, _) => false,
    }
}

/// Whether an atom stands at a place.
fn is_atom_at(store: &Store, place: Place) -> bool
    requires { Holds store.now place }
    ensures { (m : Names) → is_atom (reads m store.now place) ≡ result }
{
    match store.look(place) {
        Kind::Variable(_) => false,
        Kind::Integer(_) => false,
        Kind::Atom(_) => true,
        Kind::Compound(_, _) => false,
    }
}

/// Whether atoms stand at both places.
fn are_atoms(store: &Store, first: Place, second: Place) -> bool
    requires first { Holds store.now first }
    requires second { Holds store.now second }
    ensures { (m : Names) → (is_atom (reads m store.now first) && is_atom (reads m store.now second)) ≡ result }
{
    if is_atom_at(store, first) {
        return is_atom_at(store, second);
    }
    false
}

/// The answer from a line of the table on. The only error is out of memory.
fn split_row<A: Atoms>(
    alloc: Global,
    store: &Store,
    first: Place,
    second: Place,
    whole: Place,
    line: usize,
    atoms: &mut A,
) -> Result<Row, Memory>
    requires first_inside { Holds store.now first }
    requires second_inside { Holds store.now second }
    requires whole_inside { Holds store.now whole }
    requires first_held { IsHeldAt (A.held atoms.old) store.now first }
    requires second_held { IsHeldAt (A.held atoms.old) store.now second }
    requires whole_held { IsHeldAt (A.held atoms.old) store.now whole }
    requires first { atom_error (reads (A.held atoms.old) store.now first) ≡ None }
    requires second { atom_error (reads (A.held atoms.old) store.now second) ≡ None }
    requires whole { IsAtom (reads (A.held atoms.old) store.now whole) }
    ensures row { IfOk result (IsFromLine store.now (three_at (A.held atoms.old) store.now first second whole)
        (splits_of (text_of_atom (reads (A.held atoms.old) store.now whole))) line (A.held atoms.new)) }
    ensures holds { Keeps (A.held atoms.old) (A.held atoms.new) }
    ensures refusals { A.refusals atoms.new ≡ A.refusals atoms.old ++ refusals_of result }
    ensures asked { AsksFromLine (three_at (A.held atoms.old) store.now first second whole)
        (splits_of (text_of_atom (reads (A.held atoms.old) store.now whole))) line (A.asked atoms.old) (A.asked atoms.new) }
{
    let read = read_splits(alloc, store, first, second, whole, atoms)?;
    split_answer(
        alloc,
        store,
        &read.text,
        read.splits,
        first,
        second,
        whole,
        line,
        atoms,
    )
}

/// The same, where this is what the arguments want. The only error is out of memory.
fn split_answer<A: Atoms>(
    alloc: Global,
    store: &Store,
    text: &[char],
    splits: Splits,
    first: Place,
    second: Place,
    whole: Place,
    line: usize,
    atoms: &mut A,
) -> Result<Row, Memory>
    requires first_inside { Holds store.now first }
    requires second_inside { Holds store.now second }
    requires whole_inside { Holds store.now whole }
    requires first_held { IsHeldAt (A.held atoms.old) store.now first }
    requires second_held { IsHeldAt (A.held atoms.old) store.now second }
    requires whole_held { IsHeldAt (A.held atoms.old) store.now whole }
    requires read { AreSplits (A.held atoms.old) store.now first second whole text.now splits }
    ensures row { IfOk result (IsFromLine store.now (three_at (A.held atoms.old) store.now first second whole)
        (splits_of (text_of_atom (reads (A.held atoms.old) store.now whole))) line (A.held atoms.new)) }
    ensures holds { Keeps (A.held atoms.old) (A.held atoms.new) }
    ensures refusals { A.refusals atoms.new ≡ A.refusals atoms.old ++ refusals_of result }
    ensures asked { AsksFromLine (three_at (A.held atoms.old) store.now first second whole)
        (splits_of (text_of_atom (reads (A.held atoms.old) store.now whole))) line (A.asked atoms.old) (A.asked atoms.new) }
{
    let Some(at) = next_split(text, splits, line) else {
        return Ok(Row::Fails);
    };
    let following = next_split(text, splits, at + 1);
    let columns = split_columns(splits, at);
    line_row(
        alloc,
        text,
        &columns,
        &[first, second, whole],
        following,
        atoms,
    )
}

/// What the arguments want, and the text of which that speaks.
#[derive(Drop)]
struct ReadSplits {
    text: Vec<char>,
    splits: Splits,
}

/// What the arguments want. The only error is out of memory.
fn read_splits<A: Atoms>(
    alloc: Global,
    store: &Store,
    first: Place,
    second: Place,
    whole: Place,
    atoms: &mut A,
) -> Result<ReadSplits, Memory>
    requires first_inside { Holds store.now first }
    requires second_inside { Holds store.now second }
    requires whole_inside { Holds store.now whole }
    requires first_held { IsHeldAt (A.held atoms.old) store.now first }
    requires second_held { IsHeldAt (A.held atoms.old) store.now second }
    requires whole_held { IsHeldAt (A.held atoms.old) store.now whole }
    requires first { atom_error (reads (A.held atoms.old) store.now first) ≡ None }
    requires second { atom_error (reads (A.held atoms.old) store.now second) ≡ None }
    requires whole { IsAtom (reads (A.held atoms.old) store.now whole) }
    ensures read { IfOk result (λ r. AreSplits (A.held atoms.old) store.now first second whole r.text.items r.splits) }
    ensures same { A.held atoms.new ≡ A.held atoms.old }
    ensures refusals { A.refusals atoms.new ≡ A.refusals atoms.old }
    ensures asked { A.asked atoms.new ≡ A.asked atoms.old }
{
    let mut text = whole_text(alloc, store, whole, atoms)?;
    let length = text.len();
    let first = wanted_atom(&mut text, store, first, atoms)?;
    let second = wanted_atom(&mut text, store, second, atoms)?;
    let splits = Splits {
        length,
        first,
        second,
    };
    Ok(ReadSplits { text, splits })
}
