//! Output: the predicates that write terms, characters and new lines after what an engine has written.
#![tactic(auto)]

mod characters;
mod following;
mod naming;
mod output;
mod styles;
mod terms;

pub use characters::{Character, put_char};
pub use following::put_term_at;
pub use naming::named_at;
pub use output::{nl, write, write_canonical};
pub use styles::Style;
