//! What holds of the atoms that seats use.
ghost use Rattle.atom_table.specs.Laws.{One, Lasts};

use atom_words::Size;

/// Of the atoms that seats use, which they hold or count, or which are fixed, in every state that is reached by any list of
/// steps, through any number of seats: what two seats use is one slot exactly where it is one text (`one`). So a number that
/// one thread has registered and another fetches has the same text there, and is the number that interning that text gives.
/// And over every list of steps, as long as some seat uses a slot, whichever it is, the slot keeps its text (`lasts`). It does
/// nothing.
pub fn atoms_are_one(size: Size)
    ensures one { One size }
    ensures lasts { Lasts size }
{
    let _ = size;
}
