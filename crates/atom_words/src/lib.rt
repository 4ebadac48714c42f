//! The words of the atom table, the steps that threads make on them, and the rule that every step keeps.
//!
//! The table is a row of words of one `atomic_table`, shared by all threads without a lock. A thread steps with a seat,
//! whose view is what the thread knows. Each step is one exchange on one word, and is of a kind that `specs/Kinds.antt`
//! lists: what it asks of the words and of the seat's view, what it does to the words, and the view after it. The rule
//! of the table is that its state was reached by such steps (`specs/Rule.antt`). That every state so reached keeps the
//! invariants of `specs/Kept.antt` is the contract of `every_state`.
//!
//! The design follows J. Wielemaker and K. Harris, "Lock-free atom garbage collection for multithreaded Prolog", Theory
//! and Practice of Logic Programming, 2016; `docs/ATOM_TABLE.md` says where it differs.
#![tactic(auto)]

mod counts;
mod kind;
mod opening;
mod passes;
mod places;
mod plays;
mod rule;
mod seats;
mod size;
mod slots;
#[cfg(test)]
mod tests;
mod texts;
mod view;
mod words;
mod worn;

pub use kind::Kind;
pub use plays::{
    Asking, Dealing, EndingPass, Fetching, FindingMoved, FindingWorn, Fixing, GoingOn, Holding,
    Keeping, Keeps, Linking, Loading, PartingCollector, PartingKeeper, Protecting, PuttingLink,
    PuttingWord, Raising, ReadingHeld, ReadingWord, Registering, Releasing, Reserving, Rising,
    Seating, SeeingFree, ShowingPending, Skipping, Spells, StartingPass, StartingWalk,
    Unregistering, Validating, WithKeeper,
};
pub use rule::{AtomRule, every_state, slots_are_safe};
pub use size::Size;
pub use slots::in_circle;
pub use texts::{MOST_BYTES, row_word};
pub use view::{
    Cause, Counted, Cycling, Growing, Held, Own, Pass, Passing, Refusal, Sweeping, View, Walk,
    WornWord,
};
pub use words::{AtomSeat, Words};
pub use worn::WORN;
