//! sub_atom/5 (ISO 8.16.3).
ghost use Rattle.std.specs.Prelude.{◌≡◌, ◌++◌, None, IfOk, IfSome};
ghost use Rattle.pl_model.specs.AtomBuiltins.{counted_error};
ghost use Rattle.pl_model.specs.Checks.{atom_error, text_of_atom};
ghost use Rattle.atom_api.specs.Names.{Names};
ghost use Rattle.term_store.specs.Contents.{Holds};
ghost use Rattle.world_api.specs.Texts.{Holds as Keeps};
ghost use Rattle.world_builtins.specs.Naming.{IsHeldAt};
ghost use Rattle.world_builtins.specs.Spelling.{reads};
ghost use Rattle.builtin_rows.specs.Rows.{refusals_of};
ghost use Rattle.builtin_atom.specs.Answering.{AsksFor, IsRowOf};
ghost use Rattle.atom_parts.specs.Lined.{AreParts, AsksFromLine, IsFromLine, five_at, lines_in, sub_atom_proc, sub_atoms_at};
ghost use Rattle.atom_parts.specs.Misfits.{IsMisfitHeld, IsMisfitIn, misfit_error, sub_atoms_error};
ghost use Rattle.atom_parts.specs.Parts.{parts_of};
ghost use Rattle.atom_parts.specs.Reading.{IsAtom};

use crate::misfits::{Check, Misfit, first_misfit, misfit_row};
use crate::parts::{Parts, following_part, part_columns, part_from};
use crate::reading::{wanted_atom, wanted_number, whole_text};
use crate::tables::line_row;
use atom_api::{Atoms, fixed};
use builtin_rows::Row;
use pl_term::Memory;
use std::alloc::Global;
use term_store::{Place, Store};

/// sub_atom/5 (ISO 8.16.3): the last argument is the atom of so many characters of the first one as the third says, with so many
/// before it as the second says and so many after it as the fourth says. The parts of the first are the answers, by the place
/// and then by the length, as lines of a table. The first argument that does not fit gives its error: a variable as the first
/// an instantiation error; what is no atom as the first or the last, or no integer in between, a type error; an integer below
/// zero a domain error. The only error of the call is out of memory, after which nothing is said of the store.
pub fn sub_atom<A: Atoms>(
    alloc: Global,
    store: &mut Store,
    whole: Place,
    before: Place,
    count: Place,
    after: Place,
    part: Place,
    atoms: &mut A,
) -> Result<Row, Memory>
    requires whole_inside { Holds store.old whole }
    requires before_inside { Holds store.old before }
    requires count_inside { Holds store.old count }
    requires after_inside { Holds store.old after }
    requires part_inside { Holds store.old part }
    requires whole_held { IsHeldAt (A.held atoms.old) store.old whole }
    requires before_held { IsHeldAt (A.held atoms.old) store.old before }
    requires count_held { IsHeldAt (A.held atoms.old) store.old count }
    requires after_held { IsHeldAt (A.held atoms.old) store.old after }
    requires part_held { IsHeldAt (A.held atoms.old) store.old part }
    ensures row { IfOk result (IsRowOf store.old sub_atom_proc (five_at (A.held atoms.old) store.old whole before count after part)
        (sub_atoms_at (A.held atoms.old) store.old whole before count after part) (A.held atoms.new) store.new) }
    ensures holds { Keeps (A.held atoms.old) (A.held atoms.new) }
    ensures refusals { A.refusals atoms.new ≡ A.refusals atoms.old ++ refusals_of result }
    ensures asked { AsksFor store.old sub_atom_proc (five_at (A.held atoms.old) store.old whole before count after part)
        (sub_atoms_at (A.held atoms.old) store.old whole before count after part) (A.asked atoms.old) (A.asked atoms.new) }
{
    match misfit_of(store, whole, before, count, after, part) {
        Some(misfit) => misfit_row(store, misfit, fixed::SUB_ATOM, 5),
        None => part_row(alloc, store, whole, before, count, after, part, 0, atoms),
    }
}

/// The answer of sub_atom/5 that is the first one of its table from a line on, counted from 0, and the line of the next one. The
/// only error is out of memory.
pub fn sub_atom_line<A: Atoms>(
    alloc: Global,
    store: &Store,
    whole: Place,
    before: Place,
    count: Place,
    after: Place,
    part: Place,
    line: usize,
    atoms: &mut A,
) -> Result<Row, Memory>
    requires whole_inside { Holds store.now whole }
    requires before_inside { Holds store.now before }
    requires count_inside { Holds store.now count }
    requires after_inside { Holds store.now after }
    requires part_inside { Holds store.now part }
    requires whole_held { IsHeldAt (A.held atoms.old) store.now whole }
    requires before_held { IsHeldAt (A.held atoms.old) store.now before }
    requires count_held { IsHeldAt (A.held atoms.old) store.now count }
    requires after_held { IsHeldAt (A.held atoms.old) store.now after }
    requires part_held { IsHeldAt (A.held atoms.old) store.now part }
    ensures row { IfOk result (IsFromLine store.now (five_at (A.held atoms.old) store.now whole before count after part)
        (lines_in (sub_atoms_at (A.held atoms.old) store.now whole before count after part)) line (A.held atoms.new)) }
    ensures holds { Keeps (A.held atoms.old) (A.held atoms.new) }
    ensures refusals { A.refusals atoms.new ≡ A.refusals atoms.old ++ refusals_of result }
    ensures asked { AsksFromLine (five_at (A.held atoms.old) store.now whole before count after part)
        (lines_in (sub_atoms_at (A.held atoms.old) store.now whole before count after part)) line (A.asked atoms.old) (A.asked atoms.new) }
{
    match misfit_of(store, whole, before, count, after, part) {
        Some(_) => Ok(Row::Fails),
        None => part_row(alloc, store, whole, before, count, after, part, line, atoms),
    }
}

/// What is wrong with the arguments.
fn misfit_of(
    store: &Store,
    whole: Place,
    before: Place,
    count: Place,
    after: Place,
    part: Place,
) -> Option<Misfit>
    requires whole_inside { Holds store.now whole }
    requires before_inside { Holds store.now before }
    requires count_inside { Holds store.now count }
    requires after_inside { Holds store.now after }
    requires part_inside { Holds store.now part }
    ensures error { (m : Names) → misfit_error m store.now result
        ≡ sub_atoms_error (reads m store.now whole) (reads m store.now before) (reads m store.now count) (reads m store.now after) (reads m store.now part) }
    ensures place { IfSome result (IsMisfitIn store.now) }
    ensures held { (m : Names) → IsHeldAt m store.now whole → IsHeldAt m store.now before → IsHeldAt m store.now count → IsHeldAt m store.now after → IsHeldAt m store.now part → IfSome result (IsMisfitHeld m store.now) }
{
    first_misfit(
        store,
        &[
            Check::Bound(whole),
            Check::Atom(whole),
            Check::Count(before),
            Check::Count(count),
            Check::Count(after),
            Check::Atom(part),
        ],
    )
}

/// The answer from a line of the table on. The only error is out of memory.
fn part_row<A: Atoms>(
    alloc: Global,
    store: &Store,
    whole: Place,
    before: Place,
    count: Place,
    after: Place,
    part: Place,
    line: usize,
    atoms: &mut A,
) -> Result<Row, Memory>
    requires whole_inside { Holds store.now whole }
    requires before_inside { Holds store.now before }
    requires count_inside { Holds store.now count }
    requires after_inside { Holds store.now after }
    requires part_inside { Holds store.now part }
    requires whole_held { IsHeldAt (A.held atoms.old) store.now whole }
    requires before_held { IsHeldAt (A.held atoms.old) store.now before }
    requires count_held { IsHeldAt (A.held atoms.old) store.now count }
    requires after_held { IsHeldAt (A.held atoms.old) store.now after }
    requires part_held { IsHeldAt (A.held atoms.old) store.now part }
    requires fits { (m : Names) → sub_atoms_error (reads m store.now whole) (reads m store.now before) (reads m store.now count) (reads m store.now after) (reads m store.now part) ≡ None }
    ensures row { IfOk result (IsFromLine store.now (five_at (A.held atoms.old) store.now whole before count after part)
        (parts_of (text_of_atom (reads (A.held atoms.old) store.now whole))) line (A.held atoms.new)) }
    ensures holds { Keeps (A.held atoms.old) (A.held atoms.new) }
    ensures refusals { A.refusals atoms.new ≡ A.refusals atoms.old ++ refusals_of result }
    ensures asked { AsksFromLine (five_at (A.held atoms.old) store.now whole before count after part)
        (parts_of (text_of_atom (reads (A.held atoms.old) store.now whole))) line (A.asked atoms.old) (A.asked atoms.new) }
{
    let read = read_parts(alloc, store, whole, before, count, after, part, atoms)?;
    part_answer(
        alloc, store, &read.text, read.parts, whole, before, count, after, part, line, atoms,
    )
}

/// The same, where this is what the arguments want. The only error is out of memory.
fn part_answer<A: Atoms>(
    alloc: Global,
    store: &Store,
    text: &[char],
    parts: Parts,
    whole: Place,
    before: Place,
    count: Place,
    after: Place,
    part: Place,
    line: usize,
    atoms: &mut A,
) -> Result<Row, Memory>
    requires whole_inside { Holds store.now whole }
    requires before_inside { Holds store.now before }
    requires count_inside { Holds store.now count }
    requires after_inside { Holds store.now after }
    requires part_inside { Holds store.now part }
    requires whole_held { IsHeldAt (A.held atoms.old) store.now whole }
    requires before_held { IsHeldAt (A.held atoms.old) store.now before }
    requires count_held { IsHeldAt (A.held atoms.old) store.now count }
    requires after_held { IsHeldAt (A.held atoms.old) store.now after }
    requires part_held { IsHeldAt (A.held atoms.old) store.now part }
    requires read { AreParts (A.held atoms.old) store.now whole before count after part text.now parts }
    ensures row { IfOk result (IsFromLine store.now (five_at (A.held atoms.old) store.now whole before count after part)
        (parts_of (text_of_atom (reads (A.held atoms.old) store.now whole))) line (A.held atoms.new)) }
    ensures holds { Keeps (A.held atoms.old) (A.held atoms.new) }
    ensures refusals { A.refusals atoms.new ≡ A.refusals atoms.old ++ refusals_of result }
    ensures asked { AsksFromLine (five_at (A.held atoms.old) store.now whole before count after part)
        (parts_of (text_of_atom (reads (A.held atoms.old) store.now whole))) line (A.asked atoms.old) (A.asked atoms.new) }
{
    let Some(found) = part_from(text, parts, line) else {
        return Ok(Row::Fails);
    };
    let following = following_part(text, parts, found);
    let columns = part_columns(parts, found);
    let arguments = [whole, before, count, after, part];
    line_row(alloc, text, &columns, &arguments, following, atoms)
}

/// What the arguments want, and the text of which that speaks.
#[derive(Drop)]
struct ReadParts {
    text: Vec<char>,
    parts: Parts,
}

/// What the arguments want. The only error is out of memory.
fn read_parts<A: Atoms>(
    alloc: Global,
    store: &Store,
    whole: Place,
    before: Place,
    count: Place,
    after: Place,
    part: Place,
    atoms: &mut A,
) -> Result<ReadParts, Memory>
    requires whole_inside { Holds store.now whole }
    requires before_inside { Holds store.now before }
    requires count_inside { Holds store.now count }
    requires after_inside { Holds store.now after }
    requires part_inside { Holds store.now part }
    requires whole_held { IsHeldAt (A.held atoms.old) store.now whole }
    requires part_held { IsHeldAt (A.held atoms.old) store.now part }
    requires fits { (m : Names) → sub_atoms_error (reads m store.now whole) (reads m store.now before) (reads m store.now count) (reads m store.now after) (reads m store.now part) ≡ None }
    ensures read { IfOk result (λ r. AreParts (A.held atoms.old) store.now whole before count after part r.text.items r.parts) }
    ensures same { A.held atoms.new ≡ A.held atoms.old }
    ensures refusals { A.refusals atoms.new ≡ A.refusals atoms.old }
    ensures asked { A.asked atoms.new ≡ A.asked atoms.old }
{
    let mut text = whole_text(alloc, store, whole, atoms)?;
    let length = text.len();
    let wanted = wanted_atom(&mut text, store, part, atoms)?;
    let parts = Parts {
        length,
        before: wanted_number(store, before),
        count: wanted_number(store, count),
        after: wanted_number(store, after),
        part: wanted,
    };
    Ok(ReadParts { text, parts })
}
