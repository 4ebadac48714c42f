//! Where in a list an item may stand.
use pl_term::Memory;
use std::alloc::Global;

/// Places of a list by the numbers of its items: `places` has for each remainder where the last item of such a number stands,
/// and `earlier` has for each item where the one before it stands. A place that it gives is one to look at: what the list does
/// not confirm counts for nothing, so `places` is never cleared; it grows with the list.
#[derive(Drop)]
pub struct Chains {
    earlier: Vec<usize>,
    places: Vec<usize>,
}

impl Chains {
    /// Chains of an empty list.
    pub fn new(alloc: Global) -> Chains {
        Chains {
            earlier: Vec::new(alloc),
            places: Vec::new(alloc),
        }
    }

    /// Lets all items go.
    pub fn clear(&mut self) {
        self.earlier.clear();
    }

    /// Where the last item stands that may have this number, or a place past the end.
    pub fn last(&self, number: usize) -> usize {
        if self.places.is_empty() {
            return usize::MAX;
        }
        self.places[spread(number) % self.places.len()]
    }

    /// Where the item before the one at a place stands, or a place past the end.
    pub fn before(&self, at: usize) -> usize {
        if at < self.earlier.len() {
            self.earlier[at]
        } else {
            usize::MAX
        }
    }

    /// Adds the item with this number, which stands at the end of the list. The only error is out of memory.
    pub fn add(&mut self, number: usize) -> Result<(), Memory> {
        let at = self.earlier.len();
        make_room(&mut self.places, at)?;
        let before = self.last(number);
        self.earlier
            .push(if before < at { before } else { usize::MAX })?;
        let count = self.places.len();
        if count > 0 {
            self.places[spread(number) % count] = at;
        }
        Ok(())
    }
}

/// The same number, its digits mixed.
fn spread(number: usize) -> usize {
    number.wrapping_mul(0x9E37_79B9_7F4A_7C15) >> 20
}

/// Makes sure that there are more places than items, twice as many and more where there were too few. The only error is out
/// of memory.
fn make_room(places: &mut Vec<usize>, items: usize) -> Result<(), Memory> {
    if places.len() > items {
        return Ok(());
    }
    for _ in 0..items {
        places.push(usize::MAX)?;
    }
    for _ in 0..64 {
        places.push(usize::MAX)?;
    }
    Ok(())
}
