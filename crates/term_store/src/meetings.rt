//! Pairs of compound terms that one unification has come by.
ghost use Rattle.std.specs.Prelude.{◌≡◌, ◌++◌, ◌∷◌, [], IsTrue, OnOk};
ghost use Rattle.std.specs.List.{Contains};

use crate::words::Meeting;
use pl_term::Memory;
use std::alloc::Global;

/// How many pairs of one place of the table are looked at.
const STEPS: usize = 8;

/// Pairs of compound terms. A table of places tells whether a pair is among them: at the place that a pair's numbers give
/// stands where in the list the last pair of that place stands, and `earlier` has the one before each. What the list does
/// not confirm counts for nothing, so the table is never cleared; it grows with the list.
#[derive(Drop)]
pub struct Meetings {
    pub list: Vec<Meeting>,
    earlier: Vec<usize>,
    places: Vec<usize>,
}

impl Meetings {
    /// No pairs.
    pub fn new(alloc: Global) -> Meetings {
        Meetings {
            list: Vec::new(alloc),
            earlier: Vec::new(alloc),
            places: Vec::new(alloc),
        }
    }

    /// Lets all pairs go.
    pub fn clear(&mut self)
        ensures { self.new.list.items ≡ [] }
    {
        self.list.clear();
        self.earlier.clear();
    }

    /// Whether a pair is known to be among them.
    pub fn holds(&self, left: usize, right: usize) -> bool
        ensures { IsTrue result → Contains self.now.list.items (record { left = left; right = right }) }
    {
        let mut at = self.last_at(left, right);
        for _ in 0..STEPS {
            if at >= self.list.len() || at >= self.earlier.len() {
                return false;
            }
            let meeting = self.list[at];
            if meeting.left == left && meeting.right == right {
                return true;
            }
            at = self.earlier[at];
        }
        false
    }

    /// Where in the list the last pair stands that has the same place as this one, if one does.
    fn last_at(&self, left: usize, right: usize) -> usize {
        if self.places.is_empty() {
            return 0;
        }
        self.places[mixed(left, right) % self.places.len()]
    }

    /// Puts a pair to the others. The only error is out of memory.
    pub fn add(&mut self, left: usize, right: usize) -> Result<(), Memory>
        ensures { OnOk result (self.new.list.items ≡ self.old.list.items ++ record { left = left; right = right } ∷ []) }
    {
        let at = self.list.len();
        self.list.push(Meeting { left, right })?;
        make_room(&mut self.places, at)?;
        set_last(&mut self.places, &mut self.earlier, mixed(left, right), at)
    }
}

/// A number of two numbers.
fn mixed(left: usize, right: usize) -> usize {
    left.wrapping_add(right.wrapping_mul(31))
}

/// Makes sure that there are more places than pairs, twice as many and more where there were too few. The only error is out
/// of memory.
fn make_room(places: &mut Vec<usize>, pairs: usize) -> Result<(), Memory> {
    if places.len() > pairs {
        return Ok(());
    }
    for _ in 0..pairs {
        places.push(0)?;
    }
    for _ in 0..64 {
        places.push(0)?;
    }
    Ok(())
}

/// Sets where the last pair of a place stands. The only error is out of memory.
fn set_last(
    places: &mut Vec<usize>,
    earlier: &mut Vec<usize>,
    number: usize,
    at: usize,
) -> Result<(), Memory> {
    let count = places.len();
    if count > 0 {
        let place = number % count;
        earlier.push(places[place])?;
        places[place] = at;
    }
    Ok(())
}
