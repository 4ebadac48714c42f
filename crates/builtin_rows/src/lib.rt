//! Built-in predicates (ISO/IEC 13211-1:1995, 8): which one a goal calls, by the number of its atom and the number of its
//! arguments, and what they give for their arguments: the answers, as places of a store, or the ball of an error.
#![tactic(auto)]

mod errors;
mod kinds;
mod lists;
mod names;
mod predicates;
mod room;
mod row;

pub use errors::{ball_of, raised, refused_for, refused_with};
pub use kinds::{Kinds, kinds_of, passes};
pub use lists::{ListEnd, list_elements, make_list};
pub use names::predicate_of;
pub use predicates::{Comparison, Meaning, OfOne, OfThree, OfTwo, Pred};
pub use room::take_room;
pub use row::{Places, Row};
