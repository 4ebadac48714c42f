//! The built-in predicates between atoms and their characters (ISO/IEC 13211-1:1995, 8.16), over a store: what each gives for the
//! terms at two places.
#![tactic(auto)]

mod answers;
mod characters;
mod codes;
mod errors;
mod forms;
mod lengths;
mod listed;
mod making;
mod numbers;
mod spelled;
mod spelling;
mod texts;

pub use answers::take_cells;
pub use characters::text_from;
pub use codes::char_code;
pub use errors::{below_zero, past_limit, unbound, wrong_type};
pub use lengths::atom_length;
pub use making::{Made, make_atom};
pub use numbers::{number_chars, number_codes};
pub use spelling::{atom_chars, atom_codes};
