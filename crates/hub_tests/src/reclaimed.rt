//! Clauses of a database by itself are added, found, erased and reclaimed, with ample memory.
ghost use Rattle.std.specs.Prelude.{◌≡◌, ◌+◌, ℕ, false, true};
ghost use Rattle.atom_words.specs.Seats.{seen};
ghost use Rattle.counted_terms.specs.Keeping.{KeepsAt, tally};
ghost use Rattle.hub_database.specs.Rows.{generation_after};
ghost use Rattle.hub_tests.specs.NewSeats.{IsNewSeat};

use crate::asked::{Word, fact, key};
use crate::players::{number, own_atom};
use crate::take_last;
use atom_api::Atom;
use atom_table::{AtomSeat, AtomTable, Keeper, NamesTable, Opened, TableAtoms};
use clause_db::Db;
use counted_terms::{CountedTerm, Row};
use gen_core::Reclaimer;
use hub_database::{Adding, Hints, add_clause, call_clauses, erase_clause, reclaim_clauses};
use pl_term::Memory;
use std::alloc::Global;
use std::marker::{Brand, Model};
use std::process::Abort;
use std::test::Fail;
use world_api::{Procedure, Reply};

/// How many updates there are at most.
const MOST: u64 = 100;

/// A step, which is taken or not.
#[derive(Clone, Copy)]
enum Step {
    /// The fact zz(i) is added.
    Add(u64),
    /// The clause that was added at the place is erased.
    Erase(u64),
    /// The clauses that one of so many first updates erased are reclaimed.
    Reclaim(u64),
    /// The first clause for the goal zz(i), or zz(X), has this number, or there is none.
    Find(Option<i64>, Option<i64>),
}

/// Steps that are taken one after the other. What is reclaimed is found no more, and what is left is found.
const STEPS: [Step; 22] = [
    Step::Find(Some(1), None),
    Step::Add(1),
    Step::Add(2),
    Step::Find(Some(1), Some(1)),
    Step::Find(None, Some(1)),
    Step::Erase(0),
    Step::Find(Some(1), None),
    // None of the first two updates erased it.
    Step::Reclaim(2),
    Step::Find(None, Some(2)),
    Step::Reclaim(3),
    Step::Find(Some(1), None),
    Step::Find(None, Some(2)),
    Step::Add(1),
    Step::Find(Some(1), Some(1)),
    Step::Erase(3),
    Step::Erase(1),
    Step::Find(None, None),
    Step::Reclaim(6),
    Step::Find(None, None),
    Step::Find(Some(2), None),
    Step::Add(7),
    Step::Find(None, Some(7)),
];

/// A database with what counts its atoms.
#[derive(Drop)]
struct Stand<'a, K: NamesTable> {
    db: Db<CountedTerm>,
    hints: Hints,
    atoms: TableAtoms<'a, K>,
    keeper: Option<Keeper>,
    /// How many updates there were.
    generation: u64,
    /// The atom `zz`.
    own: Atom,
}

impl<'a, K: NamesTable> Model for Stand<'a, K> {
    ghost use Rattle.std.specs.Prelude.{ℕ};
    ghost use Rattle.atom_words.specs.Seats.{seen};
    ghost use Rattle.atom_table.specs.Naming.{names};
    ghost use Rattle.hub_tests.specs.Stands.{IsStand};

    ghost Value = { ℕ };

    ghost view = { λ s. s.generation };

    ghost invariant = { λ s. IsStand K.atoms K.size s.db s.keeper s.generation s.own (names (seen s.atoms.seat)) };
}

/// Whether the row has made an update.
fn is_made(row: &Row) -> bool
    ensures made { result ≡ true → (g : ℕ) → generation_after row.now g ≡ g + 1 }
    ensures unmade { result ≡ false → (g : ℕ) → generation_after row.now g ≡ g }
{
    match row {
        Row::Makes(_) => true,
        _ => false,
    }
}

impl<'a, K: NamesTable> Stand<'a, K> {
    /// A database without clauses.
    fn new(
        alloc: Global,
        mut atoms: TableAtoms<'a, K>,
        keeper: Keeper,
    ) -> Result<Stand<'a, K>, Memory>
        requires keeper { KeepsAt K.atoms K.size keeper.seat }
        requires none { (k : ℕ) → tally (seen keeper.seat) k ≡ 0 }
    {
        let own = own_atom(alloc, &mut atoms)?;
        let db = Db::new(alloc)?;
        Ok(Stand {
            db,
            hints: Hints::new(alloc),
            atoms,
            keeper: Some(keeper),
            generation: 0,
            own,
        })
    }

    fn add(&mut self, alloc: Global, i: u64) -> Result<bool, Memory> {
        if self.generation >= MOST {
            return Ok(false);
        }
        let term = fact(alloc, Word::Own, self.own, i)?;
        let clause = CountedTerm::new(alloc, term)?;
        let row = add_clause(
            alloc,
            &mut self.db,
            &mut self.atoms,
            &mut self.keeper,
            clause,
            Adding::Last,
            self.generation,
        );
        if is_made(&row) {
            self.generation += 1;
            return Ok(true);
        }
        Ok(false)
    }

    fn erase(&mut self, alloc: Global, place: u64) -> bool {
        if self.generation >= MOST {
            return false;
        }
        let row = erase_clause(
            alloc,
            &mut self.db,
            &mut self.atoms,
            &mut self.keeper,
            place,
            self.generation,
        );
        if is_made(&row) {
            self.generation += 1;
            return true;
        }
        false
    }

    /// Of the procedure that was added first.
    fn reclaim(&mut self, floor: u64) -> bool {
        if self.db.procedures() == 0 || self.generation < floor {
            return false;
        }
        let reclaimed = reclaim_clauses(
            &mut self.db,
            &mut self.atoms,
            &mut self.keeper,
            0,
            &Reclaimer,
            floor,
            self.generation,
        );
        reclaimed.is_ok()
    }

    fn find(&mut self, alloc: Global, i: Option<i64>) -> Option<i64> {
        let procedure = Procedure {
            name: self.own,
            arity: 1,
        };
        let row = call_clauses(
            alloc,
            &self.db,
            &mut self.hints,
            &mut self.atoms,
            &mut self.keeper,
            &procedure,
            &key(i),
            self.generation,
        );
        match row {
            Row::Reads(Reply::Clauses(Some(found))) => Some(number(&found.clause)),
            _ => None,
        }
    }

    fn take(&mut self, alloc: Global, step: Step) -> Result<bool, Memory> {
        match step {
            Step::Add(i) => self.add(alloc, i),
            Step::Erase(place) => Ok(self.erase(alloc, place)),
            Step::Reclaim(floor) => Ok(self.reclaim(floor)),
            Step::Find(i, wanted) => Ok(self.find(alloc, i) == wanted),
        }
    }
}

/// The first of the steps that is not taken.
fn not_taken<K: NamesTable>(
    alloc: Global,
    table: &AtomTable,
    seat: AtomSeat,
    keeper: Keeper,
) -> Result<Option<usize>, Memory>
    requires named { (table.now.words.table.shared.table_id ≡ K.atoms) × (table.now.words.size ≡ K.size) }
    requires seat { IsNewSeat table.now.words seat }
    requires keeper { KeepsAt K.atoms K.size keeper.seat }
    requires none { (k : ℕ) → tally (seen keeper.seat) k ≡ 0 }
{
    let mut stand = Stand::<K>::new(alloc, TableAtoms::<K>::new(table, seat), keeper)?;
    for i in 0..STEPS.len() {
        if !stand.take(alloc, STEPS[i])? {
            return Ok(Some(i));
        }
    }
    Ok(None)
}

#[test]
fn erased_clauses_are_reclaimed(rt: HostRuntime) -> Result<(), Fail> {
    let Opened {
        table,
        mut seats,
        keeper,
        collector: _,
    } = AtomTable::new(rt.alloc(), 512, 1)?;
    let seat = take_last(&table, &mut seats).ok_or("a seat")?;
    let wrong = not_taken::<Brand>(rt.alloc(), &table, seat, keeper)?;
    assert_eq!(rt; wrong, None);
    Ok(())
}
