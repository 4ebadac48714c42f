//! The lexer: the token that stands at a place of a text, with its value (ISO/IEC 13211-1:1995, 6.4 and 6.5).
#![tactic(auto)]

mod bytes;
mod characters;
mod layout;
mod lex_fault;
mod number_texts;
mod numerals;
mod passing;
mod quoted;
mod tokens;
mod whole_numerals;

pub use bytes::{behind, byte_at, first};
pub use characters::{Run, run_end};
pub use layout::skip_layout;
pub use lex_fault::LexFault;
pub use number_texts::{NumberText, number_in};
pub use numerals::{begins_code, begins_radix, radix_of};
pub use passing::pass;
pub use pl_model::skipping::Passing;
pub use quoted::{digits_value, piece};
pub use tokens::next;
