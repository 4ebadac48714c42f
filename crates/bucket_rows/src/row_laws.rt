//! What a change of rows leaves.
ghost use Rattle.bucket_rows.specs.RowLaws.{Stays, InUse, Leaves};

use atom_words::Size;

/// A change of rows loses no text and lets no slot go. In every state that is reached, a valid slot whose text's bucket in the
/// row in use is open stands in the chain of that bucket (`stays`); where the collector knows that no head of the row in use
/// is closed, just the heads of that row are open (`in_use`). And no step of a change of rows touches the word of a slot, its
/// text, or what a seat holds or counts (`leaves`). It does nothing.
pub fn rows_keep_texts(size: Size)
    ensures stays { Stays size }
    ensures in_use { InUse size }
    ensures leaves { Leaves size }
{
    let _ = size;
}
