//! The line of a solution, whose values are written from where they stand in the store.
ghost use Rattle.std.specs.Prelude.{◌≡◌, ◌++◌, ◌∷◌, [], ℕ, List, map, get_or, encode_utf8_all, false, IfOk, OnOk};
ghost use Rattle.std.specs.List.{All};
ghost use Rattle.pl_term.specs.Tree.{Chars, atom};
ghost use Rattle.pl_model.specs.TermWriting.{writeq};
ghost use Rattle.run_model.specs.Report.{solution_line, with_line};
ghost use Rattle.term_store.specs.Contents.{Holds};
ghost use Rattle.pl_report.specs.Bindings.{HasBindings};
ghost use Rattle.world_builtins.specs.Spelling.{reads};
ghost use Rattle.world_builtins.specs.Naming.{IsHeldAt};

use atom_api::Atoms;
use op_table::OpTable;
use pl_report::{begin_solution, end_solution, put_name, put_no_value};
use pl_term::{Memory, Text};
use std::alloc::Global;
use std::mem;
use term_store::{Place, Store};
use term_writer::Writing;
use world_builtins::put_term_at;

/// The largest priority of the value of a variable.
const VALUE: u16 = 699;

/// Puts the line of a solution after `out`: the goal's variables with the terms at their places, under these operators. The only
/// error is out of memory.
pub fn put_shown<A: Atoms>(
    alloc: Global,
    store: &Store,
    places: &[Place],
    names: &[(Text, u64)],
    operators: &OpTable,
    atoms: &mut A,
    out: &mut Vec<u8>,
) -> Result<(), Memory>
    requires inside { All (Holds store.now) places.now }
    requires held { All (IsHeldAt (A.held atoms.old) store.now) places.now }
    ensures puts { OnOk result ((t : Chars) → out.old.items ≡ encode_utf8_all t
        → out.new.items ≡ encode_utf8_all (with_line t (solution_line names.now operators.now (map (reads (A.held atoms.old) store.now) places.now)))) }
    ensures same { A.held atoms.new ≡ A.held atoms.old }
    ensures refusals { A.refusals atoms.new ≡ A.refusals atoms.old }
{
    begin_solution(out)?;
    let some = put_bindings(alloc, store, places, names, operators, atoms, out)?;
    end_solution(out, some)?;
    Ok(())
}

/// Puts the bindings that are shown of these variables, and says whether there are some. The only error is out of memory.
fn put_bindings<A: Atoms>(
    alloc: Global,
    store: &Store,
    places: &[Place],
    names: &[(Text, u64)],
    operators: &OpTable,
    atoms: &mut A,
    out: &mut Vec<u8>,
) -> Result<bool, Memory>
    requires inside { All (Holds store.now) places.now }
    requires held { All (IsHeldAt (A.held atoms.old) store.now) places.now }
    ensures bound { IfOk result (λ some. (t : Chars) → HasBindings t operators.now (map (reads (A.held atoms.old) store.now) places.now) [] false out.old.items
        → HasBindings t operators.now (map (reads (A.held atoms.old) store.now) places.now) names.now some out.new.items) }
    ensures same { A.held atoms.new ≡ A.held atoms.old }
    ensures refusals { A.refusals atoms.new ≡ A.refusals atoms.old }
{
    let mut some = false;
    for named in names {
        some = put_next(alloc, store, places, some, named, operators, atoms, out)?;
    }
    Ok(some)
}

/// Puts the binding of one variable more, if it is shown, and says whether there are some now. The only error is out of memory.
fn put_next<A: Atoms>(
    alloc: Global,
    store: &Store,
    places: &[Place],
    some: bool,
    named: &(Text, u64),
    operators: &OpTable,
    atoms: &mut A,
    out: &mut Vec<u8>,
) -> Result<bool, Memory>
    requires inside { All (Holds store.now) places.now }
    requires held { All (IsHeldAt (A.held atoms.old) store.now) places.now }
    ensures bound { IfOk result (λ now. (t : Chars) (ns : List (Chars × ℕ))
        → HasBindings t operators.now (map (reads (A.held atoms.old) store.now) places.now) ns some out.old.items
        → HasBindings t operators.now (map (reads (A.held atoms.old) store.now) places.now) (ns ++ named.now ∷ []) now out.new.items) }
    ensures same { A.held atoms.new ≡ A.held atoms.old }
    ensures refusals { A.refusals atoms.new ≡ A.refusals atoms.old }
{
    let shown = put_name(out, some, &named.0)?;
    if !shown {
        return Ok(some);
    }
    put_value(alloc, store, places, named.1, operators, atoms, out)?;
    Ok(true)
}

/// Puts the value of the variable with this number. The only error is out of memory.
fn put_value<A: Atoms>(
    alloc: Global,
    store: &Store,
    places: &[Place],
    number: u64,
    operators: &OpTable,
    atoms: &mut A,
    out: &mut Vec<u8>,
) -> Result<(), Memory>
    requires inside { All (Holds store.now) places.now }
    requires held { All (IsHeldAt (A.held atoms.old) store.now) places.now }
    ensures puts { OnOk result (out.new.items ≡ out.old.items
        ++ encode_utf8_all (writeq operators.now 699 (get_or (map (reads (A.held atoms.old) store.now) places.now) number (atom [])))) }
    ensures same { A.held atoms.new ≡ A.held atoms.old }
    ensures refusals { A.refusals atoms.new ≡ A.refusals atoms.old }
{
    if number < places.len() as u64 {
        return put_term(alloc, store, places[number as usize], operators, atoms, out);
    }
    put_no_value(alloc, out, operators)
}

/// Puts the text of the term at a place. The only error is out of memory, which is found out at once where shared parts make
/// the term larger than any memory.
fn put_term<A: Atoms>(
    alloc: Global,
    store: &Store,
    place: Place,
    operators: &OpTable,
    atoms: &mut A,
    out: &mut Vec<u8>,
) -> Result<(), Memory>
    requires inside { Holds store.now place }
    requires held { IsHeldAt (A.held atoms.old) store.now place }
    ensures puts { OnOk result (out.new.items
        ≡ out.old.items ++ encode_utf8_all (writeq operators.now 699 (reads (A.held atoms.old) store.now place))) }
    ensures same { A.held atoms.new ≡ A.held atoms.old }
    ensures refusals { A.refusals atoms.new ≡ A.refusals atoms.old }
{
    store.find_room(place)?;
    let bytes = mem::replace(out, Vec::new(alloc));
    let mut writing = Writing::quoted(alloc, operators, VALUE, bytes)?;
    put_term_at(alloc, store, place, &mut writing, atoms)?;
    *out = writing.end()?;
    Ok(())
}
