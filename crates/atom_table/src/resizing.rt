//! The collector puts a larger or a smaller row of buckets in the place of the one in use.
ghost use Rattle.std.specs.Prelude.{◌≡◌, ◌≢◌, ◌+◌, ◌-◌, ◌*◌, ◌^◌, ◌<◌, ◌≤◌, ℕ, true, false, Some, None, MatchOption};
ghost use Rattle.atom_words.specs.Layout.{phase_of};
ghost use Rattle.atom_words.specs.Kinds.{RowOk};
ghost use Rattle.atom_words.specs.Seats.{seen, Same};
ghost use Rattle.bucket_rows.specs.RowChanges.{RowSteps};
ghost use Rattle.atom_table.specs.Holding.{Sits};
ghost use Rattle.atom_table.specs.Resizing.{HasFound, AllOpen, ResizesBy};
ghost use Rattle.atom_table.specs.declared.resizing.Due.TheVariants.{Grow, Shrink};
ghost use Rattle.atom_table.specs.declared.resizing.Resized.TheVariants.{AtLimit};
ghost use Rattle.atom_table.specs.declared.resizing.Stage.TheVariants.{Still, Sounding, Closing, Moving, Opening};

use crate::seats::Collector;
use crate::table::AtomTable;
use bucket_rows::{aim_at, close_row, move_row, open_row, publish_row, row_heads, sound_row};

/// How far the collector has come with putting another row of buckets in the place of the one in use.
#[derive(Clone, Copy, Debug, PartialEq, Eq, Drop)]
pub enum Stage {
    /// It has not begun: all heads of the row in use are open.
    Still,
    /// The first head of the row in use is closed, and it looks at the heads of the other row.
    Sounding,
    /// No head of the other row is worn, and it closes the heads of the row in use.
    Closing,
    /// All are closed, and it moves their chains.
    Moving,
    /// It opens the heads of the row in use: the other one by now, or the same, where a head was worn.
    Opening,
}

/// What the collector's seat knows of the rows of buckets. A row is named by the binary logarithm of how many heads it has.
#[derive(Clone, Copy, Debug, PartialEq, Eq, Drop)]
pub struct Rows {
    pub stage: Stage,
    /// The row in use.
    pub row: u64,
    /// The row that is to take its place, or has.
    pub aim: u64,
    /// How many heads of the row in use, from the first on, are closed.
    pub shut: u32,
    /// How many heads of the other row, from the first on, are not worn.
    pub sound: u32,
    /// How many chains of the row in use, from the first on, are moved.
    pub moved: u32,
    /// The word of the worn head for which the row in use stays.
    pub worn: Option<u64>,
}

/// What a call that puts another row in the place of the one in use came to.
#[derive(Clone, Copy, Debug, PartialEq, Eq, Drop)]
pub enum Resized {
    /// The row in use has twice or half as many heads as before, and they are open.
    Changed,
    /// The row in use stays, and its heads are open. So many it has, which is the most or the least that it may have; or, by
    /// that word, one of its heads or of the other row's is worn.
    AtLimit(u32, Option<u64>),
    /// So many heads or slots as were allowed were worked at, and heads of the row in use are closed. `go_on` goes on.
    Going,
}

/// Whether the row of buckets in use suits the number of atoms.
#[derive(Clone, Copy, Debug, PartialEq, Eq, Drop)]
pub enum Due {
    /// There are more atoms than buckets, and the table has a row of twice as many.
    Grow,
    /// There are fewer atoms than a quarter of the buckets, and more than 256 buckets.
    Shrink,
    /// The row is to stay.
    Stay,
}

// The rows of a new table: the one of 256 heads is in use.
pub fn first_rows() -> Rows
    ensures { (result.stage ≡ Still) × (result.row ≡ 8) }
{
    Rows {
        stage: Stage::Still,
        row: 8,
        aim: 8,
        shut: 0,
        sound: 0,
        moved: 0,
        worn: None,
    }
}

// How far n more from `from` on come, where there are `all`.
fn at_most(from: u32, n: u32, all: u32) -> u32
    requires { from ≤ all }
    ensures inside { (from ≤ result) × (result ≤ all) × (result ≤ from + n) }
{
    if n < all - from { from + n } else { all }
}

impl AtomTable {
    // Whether the table has a row of twice as many heads.
    fn has_larger(&self, row: u64) -> bool
        requires { RowOk self.now.words.size row }
        ensures has { result ≡ true → RowOk self.now.words.size (row + 1) }
        ensures lacks { result ≡ false → RowOk self.now.words.size (row + 1) → ⊥ }
    {
        4 * row_heads(row) <= self.words.size.heads + 256
    }

    /// Whether the row in use suits the number of atoms that the last sweep found and left: at the end of a cycle.
    pub fn due(&self, collector: &Collector) -> Due
        requires sits { Sits self.now.words collector.now.seat }
        ensures grow { result ≡ Grow → (2 ^ collector.now.rows.row < collector.now.live) × RowOk self.now.words.size (collector.now.rows.row + 1) }
        ensures shrink { result ≡ Shrink → (4 * collector.now.live < 2 ^ collector.now.rows.row) × (8 < collector.now.rows.row) }
    {
        let row = collector.rows.row;
        let heads = row_heads(row);
        let live = collector.live as u64;
        if live > heads && self.has_larger(row) {
            Due::Grow
        } else if 4 * live < heads && row > 8 {
            Due::Shrink
        } else {
            Due::Stay
        }
    }

    // The row `aim` is to take the place of the one in use, and the first head of that is closed; or its word, where it is
    // worn, and nothing is changed.
    fn start(&self, collector: &mut Collector, aim: u64) -> Option<u64>
        requires sits { Sits self.now.words collector.old.seat }
        requires idle { phase_of collector.old.word ≡ 0 }
        requires still { collector.old.rows.stage ≡ Still }
        requires aim { RowOk self.now.words.size aim × (aim ≢ collector.old.rows.row) }
        ensures same { Same collector.old.seat collector.new.seat }
        ensures sits { Sits self.now.words collector.new.seat }
        ensures steps { RowSteps (seen collector.old.seat) (seen collector.new.seat) }
        ensures stage { MatchOption result ((collector.new.rows.stage ≡ Sounding) × (collector.new.rows.aim ≡ aim) × (collector.new.rows.row ≡ collector.old.rows.row)) (λ x. (collector.new.rows.stage ≡ Still) × (collector.new.rows.row ≡ collector.old.rows.row) × HasFound x (seen collector.new.seat)) }
    {
        let row = collector.rows.row;
        aim_at(&self.words, &mut collector.seat, aim);
        match close_row(&self.words, &mut collector.seat, row, 0, 1) {
            Ok(()) => {
                collector.rows = Rows {
                    stage: Stage::Sounding,
                    row,
                    aim,
                    shut: 1,
                    sound: 0,
                    moved: 0,
                    worn: None,
                };
                None
            }
            Err(worn) => Some(worn.word),
        }
    }

    // Looks at the next heads of the other row, as many as `most`, and answers how many of them may still be worked at.
    fn sound_some(&self, collector: &mut Collector, most: u32) -> u32
        requires sits { Sits self.now.words collector.old.seat }
        ensures same { Same collector.old.seat collector.new.seat }
        ensures sits { Sits self.now.words collector.new.seat }
        ensures steps { RowSteps (seen collector.old.seat) (seen collector.new.seat) }
        ensures rows { (collector.new.rows.aim ≡ collector.old.rows.aim) × (collector.new.rows.row ≡ collector.old.rows.row) }
        ensures begun { collector.old.rows.stage ≢ Still → collector.new.rows.stage ≢ Still }
        ensures left { result ≤ most }
    {
        let rows = collector.rows;
        if rows.stage != Stage::Sounding {
            return most;
        }
        let heads = row_heads(rows.aim) as u32;
        let end = at_most(rows.sound, most, heads);
        match sound_row(&self.words, &mut collector.seat, rows.aim, rows.sound, end) {
            Ok(()) => {
                collector.rows.sound = end;
                if end == heads {
                    collector.rows.stage = Stage::Closing;
                }
                most - (end - rows.sound)
            }
            Err(worn) => {
                collector.rows.worn = Some(worn.word);
                collector.rows.stage = Stage::Opening;
                most - (end - rows.sound)
            }
        }
    }

    // Closes the next heads of the row in use, as many as `most`, and answers how many may still be worked at.
    fn close_some(&self, collector: &mut Collector, most: u32) -> u32
        requires sits { Sits self.now.words collector.old.seat }
        ensures same { Same collector.old.seat collector.new.seat }
        ensures sits { Sits self.now.words collector.new.seat }
        ensures steps { RowSteps (seen collector.old.seat) (seen collector.new.seat) }
        ensures rows { (collector.new.rows.aim ≡ collector.old.rows.aim) × (collector.new.rows.row ≡ collector.old.rows.row) }
        ensures begun { collector.old.rows.stage ≢ Still → collector.new.rows.stage ≢ Still }
        ensures left { result ≤ most }
    {
        let rows = collector.rows;
        if rows.stage != Stage::Closing {
            return most;
        }
        let heads = row_heads(rows.row) as u32;
        let end = at_most(rows.shut, most, heads);
        match close_row(&self.words, &mut collector.seat, rows.row, rows.shut, end) {
            Ok(()) => {
                collector.rows.shut = end;
                if end == heads {
                    collector.rows.stage = Stage::Moving;
                }
                most - (end - rows.shut)
            }
            Err(worn) => {
                collector.rows.shut = worn.before;
                collector.rows.worn = Some(worn.word);
                collector.rows.stage = Stage::Opening;
                most - (end - rows.shut)
            }
        }
    }

    // Moves the next slots of the row in use, as many as `most`. Where all its chains are empty, the other row takes its place.
    fn move_some(&self, collector: &mut Collector, most: u32) -> u32
        requires sits { Sits self.now.words collector.old.seat }
        ensures same { Same collector.old.seat collector.new.seat }
        ensures sits { Sits self.now.words collector.new.seat }
        ensures steps { RowSteps (seen collector.old.seat) (seen collector.new.seat) }
        ensures rows { collector.new.rows.aim ≡ collector.old.rows.aim }
        ensures worn { (x : ℕ) → collector.new.rows.worn ≡ Some x → collector.new.rows.row ≡ collector.old.rows.row }
        ensures begun { collector.old.rows.stage ≢ Still → collector.new.rows.stage ≢ Still }
        ensures left { result ≤ most }
    {
        let rows = collector.rows;
        if rows.stage != Stage::Moving {
            return most;
        }
        let moved = move_row(
            &self.words,
            &mut collector.seat,
            rows.row,
            rows.aim,
            rows.moved,
            most,
        );
        collector.rows.moved = moved.chains;
        if moved.chains as u64 == row_heads(rows.row) {
            publish_row(&self.words, &mut collector.seat, rows.row, rows.aim);
            collector.rows.row = rows.aim;
            collector.rows.shut = row_heads(rows.aim) as u32;
            collector.rows.stage = Stage::Opening;
        }
        moved.left
    }

    // Opens closed heads of the row in use, as many as `most`, where that is what is next.
    fn open_some(&self, collector: &mut Collector, most: u32) -> Resized
        requires sits { Sits self.now.words collector.old.seat }
        requires begun { collector.old.rows.stage ≢ Still }
        ensures same { Same collector.old.seat collector.new.seat }
        ensures sits { Sits self.now.words collector.new.seat }
        ensures real { (n : ℕ) → result ≡ AtLimit n None → ⊥ }
        ensures worn { (n : ℕ) (x : ℕ) → result ≡ AtLimit n (Some x) → collector.old.rows.worn ≡ Some x }
        ensures steps { ResizesBy collector.old.rows.row collector.old.rows.aim (seen collector.old.seat) result (seen collector.new.seat) }
    {
        let rows = collector.rows;
        if rows.stage != Stage::Opening {
            return Resized::Going;
        }
        let end = rows.shut - at_most(0, most, rows.shut);
        open_row(&self.words, &mut collector.seat, rows.row, rows.shut, end);
        collector.rows.shut = end;
        if end != 0 {
            return Resized::Going;
        }
        collector.rows.stage = Stage::Still;
        match rows.worn {
            None => Resized::Changed,
            Some(word) => Resized::AtLimit(row_heads(rows.row) as u32, Some(word)),
        }
    }

    /// Goes on with the change of rows that `grow` or `shrink` began. At most `most` heads are looked at, closed or opened, or
    /// slots moved.
    pub fn go_on(&self, collector: &mut Collector, most: u32) -> Resized
        requires sits { Sits self.now.words collector.old.seat }
        requires begun { collector.old.rows.stage ≢ Still }
        ensures same { Same collector.old.seat collector.new.seat }
        ensures sits { Sits self.now.words collector.new.seat }
        ensures real { (n : ℕ) → result ≡ AtLimit n None → ⊥ }
        ensures steps { ResizesBy collector.old.rows.row collector.old.rows.aim (seen collector.old.seat) result (seen collector.new.seat) }
    {
        let left = self.sound_some(collector, most);
        let left = self.close_some(collector, left);
        let left = self.move_some(collector, left);
        self.open_some(collector, left)
    }

    // The row `aim`, which the table has, is to take the place of the one in use.
    fn resize(&self, collector: &mut Collector, aim: u64, most: u32) -> Resized
        requires sits { Sits self.now.words collector.old.seat }
        requires idle { phase_of collector.old.word ≡ 0 }
        requires still { collector.old.rows.stage ≡ Still }
        requires aim { RowOk self.now.words.size aim × (aim ≢ collector.old.rows.row) }
        ensures same { Same collector.old.seat collector.new.seat }
        ensures sits { Sits self.now.words collector.new.seat }
        ensures steps { ResizesBy collector.old.rows.row aim (seen collector.old.seat) result (seen collector.new.seat) }
    {
        let row = collector.rows.row;
        match self.start(collector, aim) {
            None => self.go_on(collector, most),
            Some(word) => Resized::AtLimit(row_heads(row) as u32, Some(word)),
        }
    }

    /// Puts the row of twice as many buckets in the place of the one in use: its heads are closed, the slots of its chains are
    /// moved, one after the other, and the heads of the other row are opened. Meanwhile an `intern` of another seat that comes
    /// to a closed head is answered `Again`, with `Closed`. At most `most` heads are looked at, closed or opened, or slots
    /// moved; then `go_on` goes on. No cycle of collection is at work, and no change of rows.
    pub fn grow(&self, collector: &mut Collector, most: u32) -> Resized
        requires sits { Sits self.now.words collector.old.seat }
        requires idle { phase_of collector.old.word ≡ 0 }
        requires still { collector.old.rows.stage ≡ Still }
        ensures same { Same collector.old.seat collector.new.seat }
        ensures sits { Sits self.now.words collector.new.seat }
        ensures steps { ResizesBy collector.old.rows.row (collector.old.rows.row + 1) (seen collector.old.seat) result (seen collector.new.seat) }
    {
        let row = collector.rows.row;
        if self.has_larger(row) {
            self.resize(collector, row + 1, most)
        } else {
            Resized::AtLimit(row_heads(row) as u32, None)
        }
    }

    /// The same with the row of half as many buckets.
    pub fn shrink(&self, collector: &mut Collector, most: u32) -> Resized
        requires sits { Sits self.now.words collector.old.seat }
        requires idle { phase_of collector.old.word ≡ 0 }
        requires still { collector.old.rows.stage ≡ Still }
        ensures same { Same collector.old.seat collector.new.seat }
        ensures sits { Sits self.now.words collector.new.seat }
        ensures steps { ResizesBy collector.old.rows.row (collector.old.rows.row - 1) (seen collector.old.seat) result (seen collector.new.seat) }
    {
        let row = collector.rows.row;
        if row > 8 {
            self.resize(collector, row - 1, most)
        } else {
            Resized::AtLimit(row_heads(row) as u32, None)
        }
    }
}
