//! Terms that are written after what an engine has written.
ghost use Rattle.std.specs.Prelude.{◌≡◌, ◌++◌, ◌∷◌, [], false, IfOk, OnOk, encode_utf8_all};
ghost use Rattle.std.specs.Arc.{arc_value};
ghost use Rattle.pl_model.specs.TermWriting.{write_canonical};
ghost use Rattle.term_store.specs.Contents.{Holds};
ghost use Rattle.term_writer.specs.Writings.{IsBegun};
ghost use Rattle.world_api.specs.Replies.{HasTable};
ghost use Rattle.world_api.specs.Told.{has_ended};
ghost use Rattle.world_api.specs.Texts.{Holds as HoldsOn};
ghost use Rattle.world_api.specs.Unserved.{OnRefusal, refusals_in};
ghost use Rattle.world_builtins.specs.Naming.{IsHeldAt};
ghost use Rattle.world_builtins.specs.Operators.{Stands};
ghost use Rattle.world_builtins.specs.Spelling.{reads};
ghost use Rattle.world_builtins.specs.Styles.{text_by};
ghost use Rattle.world_builtins.specs.Writing.{IsWritten};

use crate::following::put_term_at;
use crate::styles::Style;
use atom_api::Atoms;
use op_table::OpTable;
use pl_term::Memory;
use std::alloc::Global;
use std::mem;
use std::sync::Arc;
use term_store::{Place, Store};
use term_writer::Writing;
use world_api::{Answer, Reply, Unserved, Visit, World};

/// The operators of a reply that has some.
fn operators_of<T: Drop>(reply: Reply<T>) -> Arc<OpTable>
    requires { HasTable reply }
    ensures { Stands reply (arc_value result) }
{
    match reply {
        Reply::Standing { operators, .. } => operators,
        _ => unreachable!(),
    }
}

/// Begins the text of a term after these bytes. The only error is out of memory.
fn begin<'a>(
    alloc: Global,
    style: Style,
    operators: &'a OpTable,
    bytes: Vec<u8>,
) -> Result<Writing<'a>, Memory>
    ensures { IfOk result (IsBegun (λ t. text_by style t operators.now) bytes.items) }
{
    match style {
        Style::Bare => Writing::bare(alloc, operators, 1200, bytes),
        Style::Quoted => Writing::quoted(alloc, operators, 1200, bytes),
    }
}

/// Puts the text of the term at a place after what was written. The only error is out of memory.
fn put_term<A: Atoms>(
    alloc: Global,
    style: Style,
    store: &Store,
    term: Place,
    operators: &OpTable,
    atoms: &mut A,
    out: &mut Vec<u8>,
) -> Result<(), Memory>
    requires inside { Holds store.now term }
    requires held { IsHeldAt (A.held atoms.old) store.now term }
    ensures writes { OnOk result (out.new.items
        ≡ out.old.items ++ encode_utf8_all (text_by style (reads (A.held atoms.old) store.now term) operators.now)) }
    ensures same { A.held atoms.new ≡ A.held atoms.old }
    ensures refusals { A.refusals atoms.new ≡ A.refusals atoms.old }
    ensures asked { A.asked atoms.new ≡ A.asked atoms.old }
{
    let bytes = mem::replace(out, Vec::new(alloc));
    let mut writing = begin(alloc, style, operators, bytes)?;
    put_term_at(alloc, store, term, &mut writing, atoms)?;
    *out = writing.end()?;
    Ok(())
}

/// write/1, writeq/1 and print/1 (ISO 8.14.2; SWI-Prolog manual, section 'Term reading and writing'): puts the text of the
/// term at a place after what was written, under the operators of the shared state, which one visit reads. Where the visit is
/// not served, nothing has changed.
pub fn write<W: World>(
    alloc: Global,
    style: Style,
    store: &Store,
    term: Place,
    world: &mut W,
    atoms: &mut W::A,
    out: &mut Vec<u8>,
) -> Result<(), Unserved>
    requires runs { has_ended (W.told world.old).engine (W.told world.old).history ≡ false }
    requires inside { Holds store.now term }
    requires held { IsHeldAt (W.A.held atoms.old) store.now term }
    ensures writes { OnOk result (IsWritten (text_by style (reads (W.A.held atoms.old) store.now term))
        (W.told world.old) (W.told world.new) out.old.items out.new.items) }
    ensures taken_back { OnRefusal result ((W.told world.new ≡ W.told world.old) × (out.new.items ≡ out.old.items)) }
    ensures runs { has_ended (W.told world.new).engine (W.told world.new).history ≡ false }
    ensures holds { HoldsOn (W.A.held atoms.old) (W.A.held atoms.new) }
    ensures refusals { W.A.refusals atoms.new ≡ W.A.refusals atoms.old ++ refusals_in result }
    ensures asked { W.A.asked atoms.new ≡ W.A.asked atoms.old }
{
    store.find_room(term)?;
    match world.visit(Visit::ReadOperators, atoms) {
        Answer::Served { reply, .. } => {
            let operators = operators_of(reply);
            put_term(alloc, style, store, term, &operators, atoms, out)?;
            Ok(())
        }
        Answer::Waits { .. } => unreachable!(),
        Answer::NeedsAtoms(pass) => Err(Unserved::NeedsAtoms(pass)),
        Answer::Retry(cause) => Err(Unserved::Retry(cause)),
        Answer::Worn(word) => Err(Unserved::Worn(word)),
        Answer::Memory => Err(Unserved::Memory),
    }
}

/// write_canonical/1 (ISO 8.14.2): puts the text of the term at a place after what was written, with quotes and without
/// operators. The only error is out of memory.
pub fn write_canonical<A: Atoms>(
    alloc: Global,
    store: &Store,
    term: Place,
    atoms: &mut A,
    out: &mut Vec<u8>,
) -> Result<(), Memory>
    requires inside { Holds store.now term }
    requires held { IsHeldAt (A.held atoms.old) store.now term }
    ensures writes { OnOk result (out.new.items
        ≡ out.old.items ++ encode_utf8_all (write_canonical (reads (A.held atoms.old) store.now term))) }
    ensures same { A.held atoms.new ≡ A.held atoms.old }
    ensures refusals { A.refusals atoms.new ≡ A.refusals atoms.old }
    ensures asked { A.asked atoms.new ≡ A.asked atoms.old }
{
    store.find_room(term)?;
    let bytes = mem::replace(out, Vec::new(alloc));
    let mut writing = Writing::canonical(alloc, bytes)?;
    put_term_at(alloc, store, term, &mut writing, atoms)?;
    *out = writing.end()?;
    Ok(())
}

/// nl/0 (ISO 8.12.1): puts a new line after what was written. The only error is out of memory: then nothing has changed.
pub fn nl(out: &mut Vec<u8>) -> Result<(), Memory>
    ensures writes { OnOk result (out.new.items ≡ out.old.items ++ encode_utf8_all (10 ∷ [])) }
{
    out.push(b'\n')?;
    Ok(())
}
