//! Passes terms from one seat of an atom table to another through the counts of its keeper, and writes whether they came
//! as they went.
#![tactic(auto)]

ghost use Rattle.std.specs.Prelude.{◌≡◌, ℕ, IfOk, IfSome};
ghost use Rattle.atom_table.specs.Opening.{FreshFrom};
ghost use Rattle.counted_terms.specs.Keeping.{KeeperAt, keeper_view, kept, tally};
ghost use Rattle.hub_tests.specs.NewSeats.{IsNewSeat};
ghost use Rattle.counted_terms.specs.CountedTerms.{naming, said};

#[cfg(test)]
mod asked;
#[cfg(test)]
mod parts;
#[cfg(test)]
mod plain_queues;
#[cfg(test)]
mod plain_state;
#[cfg(test)]
mod players;
#[cfg(test)]
mod queue_rows;
#[cfg(test)]
mod reclaimed;
#[cfg(test)]
mod shared_visits;
#[cfg(test)]
mod soak;
#[cfg(test)]
mod told;
#[cfg(test)]
mod two_engines;
#[cfg(test)]
mod worn_names;

use anyhow::{Context, Result, bail};
use atom_api::Atoms;
use atom_table::{AtomSeat, AtomTable, Interned, Keeper, NamesTable, Opened, TableAtoms};
use counted_terms::{CountedTerm, forget_by, lend_to, store_from};
use pl_term::{Flat, Text};
use std::alloc::Global;
use std::marker::Brand;
use term_store::{AtomNode, Stored};
use world_api::with_texts;

fn main(rt: HostRuntime) -> Result<()> {
    for name in ["zz", "[]", "été", "a longer name, of two words"] {
        let text = Text::from_str(rt.alloc(), name)?;
        let came = pass_through(rt.alloc(), &text)?;
        let same = came.same(&term_of(rt.alloc(), &text)?);
        let told = if same { "as it went" } else { "another" };
        println!(rt; "{name}: {told}")?;
    }
    Ok(())
}

/// The term name(name, X).
fn term_of(alloc: Global, name: &Text) -> Result<Flat> {
    let mut args = Vec::new(alloc);
    args.push(Flat::atom(alloc, name)?)?;
    args.push(Flat::var(alloc, 0)?)?;
    Ok(Flat::comp(alloc, name, args.as_slice())?)
}

/// That term as it comes through a new table.
fn pass_through(alloc: Global, name: &Text) -> Result<Flat> {
    let Opened {
        table,
        mut seats,
        keeper,
        collector: _,
    } = AtomTable::new(alloc, 512, 2)?;
    let mut place = Some(keeper);
    let reader = take_last(&table, &mut seats).context("a seat")?;
    let writer = take_last(&table, &mut seats).context("a seat")?;
    pass_on::<Brand>(alloc, &table, &mut place, writer, reader, name)
}

/// The seat of the engine with the highest number that is still there.
fn take_last(table: &AtomTable, seats: &mut Vec<AtomSeat>) -> Option<AtomSeat>
    requires { FreshFrom table.now.words 1 seats.old.items }
    ensures rest { FreshFrom table.now.words 1 seats.new.items }
    ensures seat { IfSome result (λ s. IsNewSeat table.now.words s) }
{
    seats.pop()
}

/// What the atoms read of a stored term, which the keeper counts. The term is forgotten then.
fn read<K: NamesTable>(
    alloc: Global,
    keeper: &mut Option<Keeper>,
    mut atoms: TableAtoms<K>,
    counted: &CountedTerm,
) -> Result<Flat>
    requires keeper { KeeperAt K.atoms K.size keeper.old }
    requires counted { (k : ℕ) → tally (keeper_view keeper.old) k ≡ naming k counted.now }
    ensures { IfOk result (λ t. t ≡ said (kept (keeper_view keeper.old)) counted.now) }
{
    let term = lend_to(&mut atoms, keeper, counted)?;
    forget_by(&mut atoms, keeper, counted);
    Ok(with_texts(alloc, &term, &mut atoms)?)
}

/// The term name(name, X) as the second seat reads it after the first has stored it.
fn pass_on<K: NamesTable>(
    alloc: Global,
    table: &AtomTable,
    keeper: &mut Option<Keeper>,
    writer: AtomSeat,
    reader: AtomSeat,
    name: &Text,
) -> Result<Flat>
    requires named { (table.now.words.table.shared.table_id ≡ K.atoms) × (table.now.words.size ≡ K.size) }
    requires writer { IsNewSeat table.now.words writer }
    requires reader { IsNewSeat table.now.words reader }
    requires keeper { KeeperAt K.atoms K.size keeper.old }
    requires none { (k : ℕ) → tally (keeper_view keeper.old) k ≡ 0 }
{
    let mut atoms = TableAtoms::<K>::new(table, writer);
    let reader = TableAtoms::<K>::new(table, reader);
    let counted = store_named(alloc, keeper, &mut atoms, name)?;
    read(alloc, keeper, reader, &counted)
}

/// Stores the term name(name, X) over the atoms.
fn store_named<K: NamesTable>(
    alloc: Global,
    keeper: &mut Option<Keeper>,
    atoms: &mut TableAtoms<K>,
    name: &Text,
) -> Result<CountedTerm>
    requires keeper { KeeperAt K.atoms K.size keeper.old }
    requires none { (k : ℕ) → tally (keeper_view keeper.old) k ≡ 0 }
    ensures keeper { IfOk result (λ _. KeeperAt K.atoms K.size keeper.new) }
    ensures counted { IfOk result (λ t. (k : ℕ) → tally (keeper_view keeper.new) k ≡ naming k t) }
{
    let Interned::Is(a) = atoms.intern(name) else {
        bail!("no atom")
    };
    let slot = a.slot();
    let term = Stored::from_nodes(
        alloc,
        &[
            AtomNode::Comp(slot, 2),
            AtomNode::Atom(slot),
            AtomNode::Var(0),
        ],
    )?;
    let counted = CountedTerm::new(alloc, term)?;
    store_from(atoms, keeper, &counted);
    Ok(counted)
}
