//! The keeper's and the collector's seats, and what the keeper's seat does.
ghost use Rattle.std.specs.Prelude.{◌≡◌, ℕ, ◌+◌, ◌<◌, ◌≤◌, List, [], ◌∷◌, Some};
ghost use Rattle.atom_words.specs.Kinds.{Sitting, after, counted};
ghost use Rattle.atom_words.specs.Views.{with_keeper, without_keeper, keeper_of};
ghost use Rattle.atom_words.specs.Seats.{seen, Same, Has};
ghost use Rattle.atom_words.specs.declared.view.Held.{Held};
ghost use Rattle.atom_words.specs.declared.view.Counted.{Counted};
ghost use Rattle.atom_words.specs.declared.kind.Kind.TheVariants.{Fetch, Register, Unregister};
ghost use Rattle.atom_api.specs.Fixed.{fixed_count};
ghost use Rattle.atom_table.specs.Holding.{Sits};
ghost use Rattle.atom_table.specs.Collecting.{Collects};
ghost use Rattle.atom_table.specs.Resizing.{RowsTied};

use crate::resizing::Rows;
use crate::table::AtomTable;
use atom_api::Atom;
use atom_words::{AtomSeat, Fetching};

/// The seat that counts how often stored clauses and messages name each atom.
#[derive(Drop)]
pub struct Keeper {
    pub seat: AtomSeat,
}

/// The seat that collects atoms that nobody uses any more, and what of its view is needed at run time.
#[derive(Drop)]
pub struct Collector {
    pub seat: AtomSeat,
    /// The epoch word, which this seat alone writes.
    pub word: u64,
    /// How many engines it has found to have acknowledged this epoch.
    pub checked: u64,
    /// The slot that the sweep has come to.
    pub cursor: u32,
    /// How many atoms the sweep has found and left so far, and the fixed atoms.
    pub live: u32,
    /// What it knows of the rows of buckets.
    pub rows: Rows,
    pub ghost collects: { Collects (seen seat) word checked cursor },
    pub ghost rowed: { RowsTied (seen seat) rows },
    pub ghost few: { live ≤ fixed_count + cursor },
}

impl AtomTable {
    /// The seat carries the keeper's until `part`.
    pub fn with_both(&self, seat: &mut AtomSeat, keeper: Keeper)
        requires seat { Sits self.now.words seat.old }
        requires keeper { Sits self.now.words keeper.seat }
        ensures same { Same seat.old seat.new }
        ensures both { seen seat.new ≡ with_keeper (seen seat.old) (seen keeper.seat) }
        ensures sits { Sits self.now.words seat.new }
    {
        self.words.with_keeper(seat, keeper.seat);
    }

    /// The keeper's seat is given back, with its counts.
    pub fn part(&self, seat: &mut AtomSeat) -> Keeper
        requires { Sits self.now.words seat.old }
        ensures same { Same seat.old seat.new }
        ensures left { seen seat.new ≡ without_keeper (seen seat.old) }
        ensures right { seen result.seat ≡ keeper_of (seen seat.old) }
        ensures sits { Sits self.now.words seat.new × Sits self.now.words result.seat }
    {
        Keeper {
            seat: self.words.part_keeper(seat),
        }
    }

    /// Counts an atom once more, by one exchange. The seat carries the keeper's, and holds the atom, or it is fixed. Its count
    /// is below 2^61 - 1.
    pub fn register(&self, seat: &mut AtomSeat, a: Atom)
        requires sits { Sits self.now.words seat.old }
        requires held { (h : Held) × Has (seen seat.old) h × (h.slot ≡ a) }
        requires room { (cs : List Counted) × ((seen seat.old).counts ≡ Some cs) × ((counted cs a).count < 2305843009213693951) }
        ensures same { Same seat.old seat.new }
        ensures steps { (h : Held) → Has (seen seat.old) h → h.slot ≡ a → seen seat.new ≡ after (seen seat.old) (Register h ∷ []) }
        ensures sits { Sits self.now.words seat.new }
    {
        self.words.register(seat, a.slot());
    }

    /// Counts an atom once less, by one exchange. The seat carries the keeper's, and the atom's count is not 0.
    pub fn unregister(&self, seat: &mut AtomSeat, a: Atom)
        requires sits { Sits self.now.words seat.old }
        requires counted { (cs : List Counted) × ((seen seat.old).counts ≡ Some cs) × (0 < (counted cs a).count) }
        ensures same { Same seat.old seat.new }
        ensures steps { seen seat.new ≡ after (seen seat.old) (Unregister a ∷ []) }
        ensures sits { Sits self.now.words seat.new }
    {
        self.words.unregister(seat, a.slot());
    }

    /// Holds an atom that is counted, by one exchange. The seat is an engine's, and carries the keeper's. Afterwards it holds
    /// the atom with the keeper's text.
    pub fn fetch(&self, seat: &mut AtomSeat, a: Atom)
        requires sits { Sits self.now.words seat.old }
        requires sitting { Sitting (seen seat.old) }
        requires counted { (cs : List Counted) × ((seen seat.old).counts ≡ Some cs) × (0 < (counted cs a).count) }
        ensures same { Same seat.old seat.new }
        ensures steps { seen seat.new ≡ after (seen seat.old) (Fetch a ∷ []) }
        ensures sits { Sits self.now.words seat.new }
    {
        let place = self.words.atom_place(a.slot());
        self.words
            .table
            .shared
            .fetch_or::<Fetching>(&mut seat.seat, place, 4);
    }
}
