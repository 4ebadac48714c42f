//! The collector of the table of atoms, whose work is done in pieces.
ghost use Rattle.std.specs.Prelude.{◌≡◌, ◌<◌, ◌↔◌, IsTrue, ℕ, true};
ghost use Rattle.atom_words.specs.Layout.{phase_of};
ghost use Rattle.atom_words.specs.Seats.{seen};
ghost use Rattle.atom_table.specs.Collecting.{TurnsBy};
ghost use Rattle.atom_table.specs.Holding.{Sits};
ghost use Rattle.atom_table.specs.Tables.{size_is, table_is};
ghost use Rattle.atom_table.specs.declared.resizing.Stage.TheVariants.{Still};
ghost use Rattle.atom_collector.specs.Pieces.{GoesOn, IsAtRest};
ghost use Rattle.atom_collector.specs.declared.collecting.Piece.TheVariants.{Rests};

use atom_table::{AtomTable, Checked, Collector, Due, NamesTable, Resized, Stage, Swept, Turn};
use std::marker::PhantomData;

/// The binary logarithm of how many buckets the largest row has.
const LARGEST_ROW: u32 = 21;

/// How many cycles in a row are to leave too few atoms for the row of buckets in use before one of half as many takes its place.
/// Where atoms are made as fast as cycles free them, one cycle may leave almost none and the next one many; a change of rows
/// costs a step for each slot that has a text, and those who intern wait for it.
const SPARSE_CYCLES: u32 = 4;

/// What a piece of the collector's work came to.
#[derive(Clone, Copy, Debug, PartialEq, Eq, Drop)]
pub enum Piece {
    /// No cycle is at work, nor a change of rows: nothing is left to do.
    Rests,
    /// This engine has not acknowledged the cycle: it was seen to have acknowledged that epoch last.
    Awaits { engine: u32, seen: u64 },
    /// All engines have acknowledged the cycle, which sweeps from now on.
    Marked,
    /// The sweep has come to that slot.
    SweptTo(u32),
    /// All slots were swept, and the cycle has ended.
    SweptAll,
    /// A change of rows of buckets has begun, goes on or has ended.
    Resized(Resized),
}

/// The collector of the table that `K` names, between its calls.
#[derive(Drop)]
pub struct TableCollector<'a, K: NamesTable> {
    pub table: &'a AtomTable,
    pub collector: Collector,
    /// Whether a cycle has ended since the row of buckets was last compared with the number of atoms.
    pub has_swept: bool,
    /// How many cycles in a row, of those after which the row was compared, have left too few atoms for it.
    pub sparse: u32,
    pub of: PhantomData<K>,
    pub ghost named: { table.now.words.table.shared.table_id ≡ K.atoms } by { table_is table.now.words.table.shared.table_id K.atoms },
    pub ghost sized: { table.now.words.size ≡ K.size } by { size_is table.now.words.size K.size },
    pub ghost sits: { Sits table.now.words collector.seat },
}

impl<'a, K: NamesTable> TableCollector<'a, K> {
    /// The collector of that table.
    pub fn new(table: &'a AtomTable, collector: Collector) -> TableCollector<'a, K>
        requires named { (table.now.words.table.shared.table_id ≡ K.atoms) × (table.now.words.size ≡ K.size) }
        requires sits { Sits table.now.words collector.seat }
        ensures { (result.table.now ≡ table.now) × (result.collector ≡ collector) }
    {
        TableCollector {
            table,
            collector,
            has_swept: false,
            sparse: 0,
            of: PhantomData,
        }
    }

    /// Whether no change of rows is at work, so that a cycle can begin.
    pub fn is_still(&self) -> bool
        ensures { IsTrue result ↔ (self.now.collector.rows.stage ≡ Still) }
    {
        self.collector.rows.stage == Stage::Still
    }

    /// A cycle begins, where none is at work and the epoch is not the last.
    pub fn begin(&mut self) -> Turn
        requires still { self.old.collector.rows.stage ≡ Still }
        ensures steps { TurnsBy (seen self.old.collector.seat) result (seen self.new.collector.seat) }
        ensures table { self.new.table.now ≡ self.old.table.now }
    {
        self.table.begin(&mut self.collector)
    }

    /// At the start, before engines get their seats: the row of buckets is doubled until there is a bucket for eight of the
    /// slots, where the table has such a row. Later that would cost a step for each slot that has a text.
    pub fn grow_first(&mut self, slots: u32)
        requires some { 0 < slots }
        ensures table { self.new.table.now ≡ self.old.table.now }
    {
        let row = slots.ilog2().saturating_sub(3) as u64;
        for _ in 0..LARGEST_ROW {
            if self.collector.rows.row >= row || !self.is_idle() {
                return;
            }
            self.table.grow(&mut self.collector, u32::MAX);
        }
    }

    // Whether no cycle is at work, nor a change of rows.
    fn is_idle(&self) -> bool
        ensures { result ≡ true → (phase_of self.now.collector.word ≡ 0) × (self.now.collector.rows.stage ≡ Still) }
    {
        self.collector.word % 4 == 0 && self.is_still()
    }

    /// The next piece of what is at work: a check whether all engines have acknowledged the cycle, a sweep of at most `most`
    /// slots, or as much of a change of rows, which begins after a sweep that leaves too many atoms for the row of buckets in
    /// use, or after several in a row that leave too few.
    pub fn go_on(&mut self, most: u32) -> Piece
        ensures steps { GoesOn self.old.collector most result self.new.collector }
        ensures rests { result ≡ Rests → IsAtRest self.old.collector }
        ensures table { self.new.table.now ≡ self.old.table.now }
    {
        if self.collector.rows.stage != Stage::Still {
            return Piece::Resized(self.table.go_on(&mut self.collector, most));
        }
        match self.collector.word % 4 {
            0 => self.resize(most),
            1 => self.check(),
            2 => self.sweep(most),
            _ => Piece::Rests,
        }
    }

    // The next check of the engines.
    fn check(&mut self) -> Piece
        requires marking { phase_of self.old.collector.word ≡ 1 }
        ensures steps { (most : ℕ) → GoesOn self.old.collector most result self.new.collector }
        ensures works { result ≡ Rests → ⊥ }
        ensures table { self.new.table.now ≡ self.old.table.now }
    {
        match self.table.check(&mut self.collector) {
            Checked::All => Piece::Marked,
            Checked::NotYet { engine, seen } => Piece::Awaits { engine, seen },
        }
    }

    // The next slots are swept.
    fn sweep(&mut self, most: u32) -> Piece
        requires sweeping { phase_of self.old.collector.word ≡ 2 }
        ensures steps { GoesOn self.old.collector most result self.new.collector }
        ensures works { result ≡ Rests → ⊥ }
        ensures table { self.new.table.now ≡ self.old.table.now }
    {
        match self.table.sweep_some(&mut self.collector, most) {
            Swept::At(slot) => Piece::SweptTo(slot),
            Swept::Done => {
                self.has_swept = true;
                Piece::SweptAll
            }
        }
    }

    // After a sweep the row of buckets is replaced, where it does not suit the number of atoms.
    fn resize(&mut self, most: u32) -> Piece
        requires idle { phase_of self.old.collector.word ≡ 0 }
        requires still { self.old.collector.rows.stage ≡ Still }
        ensures steps { GoesOn self.old.collector most result self.new.collector }
        ensures table { self.new.table.now ≡ self.old.table.now }
    {
        if !self.has_swept {
            return Piece::Rests;
        }
        self.has_swept = false;
        match self.table.due(&self.collector) {
            Due::Grow => {
                self.sparse = 0;
                Piece::Resized(self.table.grow(&mut self.collector, most))
            }
            Due::Shrink => self.shrink(most),
            Due::Stay => {
                self.sparse = 0;
                Piece::Rests
            }
        }
    }

    // The row of buckets is replaced by a smaller one, where enough cycles in a row have left too few atoms for it.
    fn shrink(&mut self, most: u32) -> Piece
        requires idle { phase_of self.old.collector.word ≡ 0 }
        requires still { self.old.collector.rows.stage ≡ Still }
        ensures steps { GoesOn self.old.collector most result self.new.collector }
        ensures table { self.new.table.now ≡ self.old.table.now }
    {
        if self.sparse < SPARSE_CYCLES - 1 {
            self.sparse += 1;
            return Piece::Rests;
        }
        self.sparse = 0;
        Piece::Resized(self.table.shrink(&mut self.collector, most))
    }
}
