//! Where clauses were added, by numbers that their procedures and keys give: hints, which are looked at before they are used.
use std::alloc::Global;

/// The places of a row, which are looked through one after the other: a line of the processor's cache.
const ROW: usize = 4;

/// The fewest and the most rows of a table, powers of two.
const FEWEST: usize = 16;

const MOST: usize = 0x4_0000;

/// A place at which nothing is noted.
const NOTHING: Noted = Noted {
    number: 0,
    place: u64::MAX,
};

/// A number, and the place at which a clause was added that was found by it.
#[derive(Clone, Copy, Debug, Drop)]
struct Noted {
    number: u64,
    place: u64,
}

/// Places of clauses by numbers. Where a row is full, what is noted later takes the place of another.
#[derive(Drop)]
pub(crate) struct Guesses {
    noted: Vec<[Noted; ROW]>,
    taken: usize,
}

impl Guesses {
    /// Nothing noted.
    pub(crate) fn new(alloc: Global) -> Guesses {
        Guesses {
            noted: Vec::new(alloc),
            taken: 0,
        }
    }

    /// What was noted for the number.
    pub(crate) fn find(&self, number: u64) -> Option<u64> {
        match self.noted.get(row_of(number, self.noted.len())) {
            Some(row) => find_in(row, number),
            None => None,
        }
    }

    /// Notes a place for the number. Where there is no memory for a larger table, that stays as it is.
    pub(crate) fn note(&mut self, alloc: Global, number: u64, place: u64) {
        self.widen(alloc);
        if put(&mut self.noted, Noted { number, place }) {
            self.taken = self.taken.saturating_add(1);
        }
    }

    // Makes the table larger where half of it is taken.
    fn widen(&mut self, alloc: Global) {
        let rows = self.noted.len();
        if self.taken / (ROW / 2) < rows || rows >= MOST {
            return;
        }
        if let Ok(mut wider) = vec![in alloc; [NOTHING; ROW]; rows.saturating_mul(2).max(FEWEST)] {
            self.taken = put_all(&mut wider, &self.noted);
            self.noted = wider;
        }
    }
}

// In which of so many rows, a power of two, a number is noted. Numbers that follow one on the other, 65,536 at a time, come into rows
// that do, so that none is full before the others are, and what stands above spreads them.
fn row_of(number: u64, rows: usize) -> usize {
    let high = (number >> 16).wrapping_mul(0x9e37_79b9_7f4a_7c15);
    number.wrapping_add(high ^ high >> 32) as usize & rows.wrapping_sub(1)
}

// What the row has for the number.
fn find_in(row: &[Noted; ROW], number: u64) -> Option<u64> {
    for noted in row {
        if noted.number == number {
            return Some(noted.place);
        }
    }
    None
}

// At which place of the row something is noted: where the number stands, or nothing does, or else at one of all.
fn place_in(row: &[Noted; ROW], number: u64) -> usize {
    for (at, noted) in row.iter().enumerate() {
        if noted.number == number || noted.place == u64::MAX {
            return at;
        }
    }
    (number >> 32) as usize % ROW
}

// Puts what is noted into a table, and says whether it took a place at which there was nothing.
fn put(table: &mut Vec<[Noted; ROW]>, noted: Noted) -> bool {
    let row = row_of(noted.number, table.len());
    let Some(row) = table.get_mut(row) else {
        return false;
    };
    let at = place_in(row, noted.number);
    let Some(slot) = row.get_mut(at) else {
        return false;
    };
    let is_new = slot.place == u64::MAX;
    *slot = noted;
    is_new
}

// Puts all that is noted into a table, and counts it.
fn put_all(table: &mut Vec<[Noted; ROW]>, rows: &Vec<[Noted; ROW]>) -> usize {
    let mut taken: usize = 0;
    for row in rows {
        taken = taken.saturating_add(put_row(table, row));
    }
    taken
}

// The same of a row.
fn put_row(table: &mut Vec<[Noted; ROW]>, row: &[Noted; ROW]) -> usize {
    let mut taken: usize = 0;
    for noted in row {
        if noted.place != u64::MAX && put(table, *noted) {
            taken = taken.saturating_add(1);
        }
    }
    taken
}
