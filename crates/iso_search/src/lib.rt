//! The states of a search, and the steps of resolution on a store of terms (ISO/IEC 13211-1:1995, 7.7 and 7.8).
#![tactic(auto)]

pub mod balls;
pub mod bodies;
pub mod budget;
pub mod calls;
pub mod choices;
pub mod construct;
pub mod control;
pub mod copies;
pub mod equal;
pub mod extending;
pub mod failure;
pub mod findall;
pub mod frames;
pub mod goals;
pub mod heads;
pub mod leaving;
pub mod lists;
pub mod live;
pub mod outcome;
pub mod parts;
pub mod recovering;
pub mod resolving;
pub mod search;
pub mod spelling;
pub mod throwing;
pub mod thrown;
pub mod told;
pub mod transfers;
pub mod walk;
