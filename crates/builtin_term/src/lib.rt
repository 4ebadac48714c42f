//! The built-in predicates on terms (ISO/IEC 13211-1:1995, 8.2 to 8.5; Cor.2:2012): type tests, unification, comparison,
//! sorting, and predicates that make terms and take them apart, over the places of a store.
#![tactic(auto)]

mod answers;
mod argument;
mod comparisons;
mod composition;
mod copies;
mod course;
mod decomposition;
mod duplicates;
mod faults;
mod functors;
mod heads;
mod keyed_lists;
mod keyed_pairs;
mod lists;
mod merge_sort;
mod met_variables;
mod order;
mod orders;
mod place_pairs;
mod renaming;
mod room;
mod seen_variables;
mod signs;
mod sorted_lists;
mod sorted_places;
mod subsumption;
mod type_tests;
mod unification;
mod variable_lists;
mod variable_walk;

pub use argument::arg;
pub use comparisons::{compare, comparison};
pub use copies::copy_term;
pub use decomposition::univ;
pub use functors::functor;
pub use keyed_lists::keysort;
pub use sorted_lists::{msort, sort};
pub use subsumption::subsumes_term;
pub use type_tests::type_test;
pub use unification::{not_unifiable, unifies};
pub use variable_lists::term_variables;
