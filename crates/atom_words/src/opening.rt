//! A new table.
ghost use Rattle.std.specs.Prelude.{◌≡◌, ◌++◌, ◌<◌, ℕ, false, IfOk, List, [], replicate};
ghost use Rattle.atom_words.specs.Board.{laid};
ghost use Rattle.atom_words.specs.Views.{first_view};
ghost use Rattle.atom_words.specs.Opening.{Allowed, opening_board, shut};
ghost use Rattle.atom_words.specs.Kinds.{rising};
ghost use Rattle.atom_words.specs.Seats.{seen, AtTable, Fits, Same, Raises, Unchanged};

use crate::plays::{Raising, Rising};
use crate::size::Size;
use crate::view::View;
use crate::words::{AtomSeat, Words};
use atomic_table::{Seat, Table};
use std::alloc::{AllocError, Global};

// Puts a number of equal words after the others.
fn extend(words: &mut Vec<u64>, many: u64, word: u64) -> Result<(), AllocError>
    ensures { IfOk result (λ _. words.new.items ≡ words.old.items ++ replicate many word) }
{
    let Some(n) = words.len().checked_add(many as usize) else {
        return Err(AllocError);
    };
    words.resize(n, word)?;
    Ok(())
}

// Puts the eight words of each of a number of reserved slots after the others.
fn extend_shut(words: &mut Vec<u64>, many: u64) -> Result<(), AllocError>
    ensures { IfOk result (λ _. words.new.items ≡ words.old.items ++ shut many) }
{
    for _i in 0..many {
        extend(words, 1, 1)?;
        extend(words, 7, 0)?;
    }
    Ok(())
}

// The words of a new table.
fn opening_words(alloc: Global, size: Size) -> Result<Vec<u64>, AllocError>
    requires { Allowed size }
    ensures { IfOk result (λ v. v.items ≡ laid size (opening_board size)) }
{
    let mut words = Vec::new(alloc);
    words.push(0).map_err(|_| AllocError)?;
    words.push(8).map_err(|_| AllocError)?;
    extend(&mut words, size.engines, 0)?;
    extend(&mut words, 256, 0)?;
    extend(
        &mut words,
        size.heads - 256,
        2_097_152 + 4_194_304 * size.start,
    )?;
    extend(&mut words, (4 + 7 * (size.engines + size.heads)) % 8, 0)?;
    extend(&mut words, 8 * size.fixed, 0)?;
    extend_shut(&mut words, 256 - size.fixed)?;
    extend(&mut words, 8 * (size.slots - 256) + 26 * size.slots, 0)?;
    Ok(words)
}

impl Words {
    /// A new table, and its first seat, which is the keeper's and the collector's, and from which the engines' seats are
    /// dealt. The version of each bucket is 0 until `raise` makes it the one that the table begins with. The only error is
    /// Out of memory.
    pub fn new(alloc: Global, size: Size) -> Result<(Words, AtomSeat), AllocError>
        requires { Allowed size }
        ensures { IfOk result (λ r. (r.0.size ≡ size) × AtTable r.0 r.1 × (seen r.1 ≡ first_view size)) }
    {
        let words = opening_words(alloc, size)?;
        let (table, seat) = Table::of_words(alloc, words.as_slice(), &size)?;
        Ok((
            Words { table, size },
            AtomSeat {
                seat,
                engine: 0,
                acked: 0,
                own: 0,
                head: 0,
                word: 0,
                began: 0,
                first: 0,
                counted: 0,
            },
        ))
    }

    // The load of a head's word, and the exchange that raises its version.
    fn raise_head(&self, seat: &mut Seat<(), View>, head: u32) -> Result<(), u64>
        requires fits { (seat.old.table_id ≡ self.now.table.shared.table_id) × (seat.old.me.0.size ≡ self.now.size) × (seat.old.me.0.gone ≡ false) }
        requires head { head < self.now.size.heads }
        requires first { 0 < seat.old.me.0.undealt }
        ensures same { (seat.new.table_id ≡ seat.old.table_id) × (seat.new.id ≡ seat.old.id) × (seat.new.me.1 ≡ seat.old.me.1) }
        ensures steps { Raises head seat.old.me.0 result seat.new.me.0 }
    {
        let place = self.head_place(head);
        let word = self.table.shared.load::<Rising>(seat, place);
        if word / 4_194_304 >= self.size.start {
            return Ok(());
        }
        if word / 2_097_152 % 2 == 1 {
            return Err(word);
        }
        let new = word % 4_194_304 + 4_194_304 * self.size.start;
        let found = self
            .table
            .shared
            .compare_exchange::<Raising>(seat, place, word, new);
        if found == word { Ok(()) } else { Err(found) }
    }

    /// Raises the version of a head to the one that the table begins with, where it is below. The seat is the first, and
    /// engines have still to be dealt from it. Where all heads before this one are known to have risen, this one is too.
    ///
    /// # Errors
    /// The word that was found, where the head is closed, or another seat has exchanged its word in between.
    pub fn raise(&self, seat: &mut AtomSeat, head: u32) -> Result<(), u64>
        requires fits { Fits self.now seat.old }
        requires head { head < self.now.size.heads }
        requires first { 0 < (seen seat.old).undealt }
        ensures same { Same seat.old seat.new }
        ensures steps { Raises head (seen seat.old) result (seen seat.new) }
        ensures unchanged { Unchanged (seen seat.old) (seen seat.new) }
        ensures risen { IfOk result (λ _. (seen seat.new).risen ≡ rising head (seen seat.old).risen) }
    {
        self.raise_head(&mut seat.seat, head)
    }
}
