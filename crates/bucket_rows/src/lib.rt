//! Walks over the chains of the atom table's buckets, links of new slots in front of them, and cycles of collection.
//!
//! A walk begins at a bucket's head, whose word has a version, and reads the texts and link words of the slots of the
//! chain. What it has read holds as long as the head has that version. So a slot that has the text is held only by a load
//! of the head that finds the version again, and a new slot is linked only by an exchange of the whole head word as the
//! walk found it.
//!
//! A cycle of collection marks, then sweeps. The collector's seat begins it, at the next epoch. Each engine reads the epoch
//! word, sets the mark of every atom that it goes on to hold, and acknowledges the epoch. When the collector has found that
//! all engines have acknowledged, the cycle goes over to the sweep, which frees each slot that nobody uses.
#![tactic(auto)]

mod closing;
mod cycles;
mod laws;
mod links;
mod marks;
mod missed;
mod moving;
mod opening;
mod plays;
mod removal;
mod row_laws;
mod row_plays;
mod rows;
mod runs;
mod slots;
mod spells;
mod sweeps;
#[cfg(test)]
mod tests;
mod treads;
mod unlinks;
mod walks;

pub use closing::{WornHead, aim_at, close_row, row_start, sound_row};
pub use cycles::{Checked, begin, check};
pub use laws::two_cycles;
pub use links::link;
pub use marks::{ack, mark, scan};
pub use missed::Missed;
pub use moving::{Moved, move_chain, move_row};
pub use opening::{open_row, publish_row};
pub use removal::unlink;
pub use row_laws::rows_keep_texts;
pub use rows::{bucket, hash, row_heads, row_in_use, text_row};
pub use runs::sweep_run;
pub use slots::{Verdict, sweep_slot};
pub use spells::{row_bucket, spell_row};
pub use sweeps::{condemn, finish, look, pass, pass_unmarked, trace};
pub use treads::tread;
pub use unlinks::{bump, free, note, read_behind, unlink_at, unlink_head};
pub use walks::walk;
