//! Atoms over the table and one seat.
ghost use Rattle.std.specs.Prelude.{◌≡◌, ◌<◌, ℕ, true, false, List, [], ◌∷◌, Some};
ghost use Rattle.pl_term.specs.Tree.{Chars};
ghost use Rattle.atom_words.specs.Kinds.{view_after, after};
ghost use Rattle.atom_words.specs.Chains.{In};
ghost use Rattle.atom_words.specs.Seats.{seen, Fits, Same};
ghost use Rattle.atom_words.specs.declared.view.Held.{Held};
ghost use Rattle.atom_words.specs.declared.kind.Kind.TheVariants.{Keep};
ghost use Rattle.atom_table.specs.Holding.{Sits, IsEngine};
ghost use Rattle.atom_table.specs.Opening.{fixed_slots};
ghost use Rattle.atom_table.specs.Naming.{names, requests, those, Lawful};
ghost use Rattle.atom_table.specs.Collecting.{AcksBy, HoldsAfter};
ghost use Rattle.atom_table.specs.Tables.{SitsAt, are_so, size_is, table_is};

use crate::marking::Marked;
use crate::table::AtomTable;
use atom_api::{Atom, Atoms, Interned, TextBuf};
use atom_words::{AtomSeat, Keeping, Keeps, View, Words};
use atomic_table::Seat;
use pl_term::Text;
use std::marker::{Brand, PhantomData};

/// Which table it is, and its size. The call picks it, so that each type that names it speaks of one table.
pub trait NamesTable {
    ghost use Rattle.atomic_table.specs.Seated.{TableId};
    ghost use Rattle.atom_words.specs.declared.size.Size.{Size};

    ghost atoms: { TableId };

    ghost size: { Size };
}

impl NamesTable for Brand {
    ghost use Rattle.atom_table.specs.Tables.{no_size, no_table};

    ghost atoms = { no_table };

    ghost size = { no_size };
}

/// The atoms that a seat holds at the table `K`, of which each engine has one.
#[derive(Drop)]
pub struct TableAtoms<'a, K: NamesTable> {
    pub table: &'a AtomTable,
    pub seat: AtomSeat,
    pub of: PhantomData<K>,
    pub ghost named: { table.now.words.table.shared.table_id ≡ K.atoms } by { table_is table.now.words.table.shared.table_id K.atoms },
    pub ghost sized: { table.now.words.size ≡ K.size } by { size_is table.now.words.size K.size },
    pub ghost sits: { Sits table.now.words seat },
    pub ghost engine: { IsEngine (seen seat) },
    pub ghost fixed: { (seen seat).fixed ≡ fixed_slots },
    pub ghost lawful: { Lawful (names (seen seat)) },
    /// What the seat's refusals say is so.
    pub ghost refused: { are_so (seen seat) ≡ true },
}

impl<'a, K: NamesTable> TableAtoms<'a, K> {
    /// The atoms that the seat holds. It is an engine's seat of that table, between its calls.
    pub fn new(table: &'a AtomTable, seat: AtomSeat) -> TableAtoms<'a, K>
        requires named { (table.now.words.table.shared.table_id ≡ K.atoms) × (table.now.words.size ≡ K.size) }
        requires sits { Sits table.now.words seat }
        requires engine { IsEngine (seen seat) }
        requires fixed { (seen seat).fixed ≡ fixed_slots }
        requires refused { are_so (seen seat) ≡ true }
        ensures { (result.table.now ≡ table.now) × (result.seat ≡ seat) }
    {
        TableAtoms {
            table,
            seat,
            of: PhantomData,
        }
    }

    /// The seat by itself.
    pub fn into_seat(self) -> AtomSeat
        ensures seat { result ≡ self.entry.seat }
        ensures sits { SitsAt K.atoms K.size result × ((seen result).fixed ≡ fixed_slots) }
        ensures engine { IsEngine (seen result) }
        ensures refused { are_so (seen result) ≡ true }
    {
        self.seat
    }

    /// The engine takes part in a cycle of collection with the atoms of the list. Where a cycle marks that it has not
    /// acknowledged, it marks each of them and acknowledges, after which it holds just those that it held and the fixed atoms:
    /// an atom of the list that it does not hold keeps its slot through this cycle. Else nothing is changed. It takes no
    /// memory, and makes at most two steps more than the list is long.
    pub fn acknowledge(&mut self, live: &[Atom]) -> Marked
        ensures same { Same self.old.seat self.new.seat }
        ensures names { HoldsAfter live.now (names (seen self.old.seat)) result (names (seen self.new.seat)) }
        ensures refusals { (seen self.new.seat).refusals ≡ (seen self.old.seat).refusals }
        ensures asked { requests (seen self.new.seat) ≡ requests (seen self.old.seat) }
        ensures steps { AcksBy live.now (seen self.old.seat) result (seen self.new.seat) }
    {
        self.table.mark_and_ack(&mut self.seat, live)
    }
}

// The load with which the slots that are picked, of those held, are held on.
fn load_kept<K: Keeps>(words: &Words, seat: &mut Seat<(), View>, _live: &[Atom])
    requires fits { (seat.old.table_id ≡ words.now.table.shared.table_id) × (seat.old.me.0.size ≡ words.now.size) × (seat.old.me.0.gone ≡ false) }
    requires ours { (a : Held) → In a K.those → In a seat.old.me.0.held }
    ensures same { (seat.new.table_id ≡ seat.old.table_id) × (seat.new.id ≡ seat.old.id) × (seat.new.me.1 ≡ seat.old.me.1) }
    ensures step { seat.new.me.0 ≡ view_after seat.old.me.0 (Keep K.those) }
{
    words.table.shared.load::<Keeping<K>>(seat, 0);
}

// Only the slots of the list are held on, of those held.
fn keep(words: &Words, seat: &mut AtomSeat, live: &[Atom])
    requires fits { Fits words.now seat.old }
    ensures same { Same seat.old seat.new }
    ensures steps { seen seat.new ≡ after (seen seat.old) (Keep (those live.now (seen seat.old).held) ∷ []) }
{
    load_kept::<Brand>(words, &mut seat.seat, live);
}

impl<'a, K: NamesTable> Atoms for TableAtoms<'a, K> {
    ghost held = { λ s. names (seen s.seat) };

    ghost refusals = { λ s. (seen s.seat).refusals };

    ghost asked = { λ s. Some (requests (seen s.seat)) };

    fn intern(&mut self, text: &Text) -> Interned {
        text.scalars();
        self.table.intern(&mut self.seat, text)
    }

    fn text(&mut self, a: Atom, buf: &mut TextBuf) {
        self.table.text(&mut self.seat, a, buf);
    }

    /// It answers false always, since a text stands in the table alone, where it takes a load of each of its words to read.
    fn reads(&self, _a: Atom, _text: &Text) -> bool {
        false
    }

    fn keep_only(&mut self, live: &[Atom]) {
        keep(&self.table.words, &mut self.seat, live);
    }

    ghost fixed_held = { λ s. s.lawful.stand };

    ghost unlike = { λ s. s.lawful.unlike };

    ghost finite = { λ s. s.lawful.finite };
}
