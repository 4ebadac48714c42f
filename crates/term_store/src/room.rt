//! Room for a term that is spelled out.
ghost use Rattle.term_store.specs.Contents.{Holds};

use crate::nodes::AtomNode;
use crate::size::count_cells;
use crate::store::Store;
use crate::walk::Walk;
use crate::words::Place;
use pl_term::Memory;
use std::alloc::Global;

/// Up to how many cells room is not looked for.
const FEW: usize = 4096;

/// How often the memory of a node is taken while it is spelled: by itself, and with the text of its atom.
const TIMES: usize = 4;

impl Store {
    /// Finds out whether there is room for the term at a place with each of its parts as often as it stands there, so that a
    /// term whose shared parts make it larger than any memory is refused at once. It takes time linear in the cells of the term at
    /// most. The only error is out of memory.
    pub fn find_room(&self, place: Place) -> Result<(), Memory>
        requires { Holds self.now place }
    {
        let few = self.cells.heads.len().max(FEW);
        if let Some(_) = self.cells_within(place, few as u64)? {
            return Ok(());
        }
        let mut walk = Walk::new(self.alloc);
        let cells = count_cells(self.alloc, &self.cells, &mut walk, place.word)?;
        room_for(self.alloc, cells)
    }
}

/// Whether there is room for the nodes of so many cells. The only error is that there is none.
fn room_for(alloc: Global, cells: Option<u64>) -> Result<(), Memory> {
    let Some(cells) = cells else {
        return Err(Memory);
    };
    let Ok(nodes) = usize::try_from(cells) else {
        return Err(Memory);
    };
    let Some(all) = nodes.checked_mul(TIMES) else {
        return Err(Memory);
    };
    let room: Vec<AtomNode> = Vec::with_capacity(alloc, all)?;
    drop(room);
    Ok(())
}
