//! The collector of the table of atoms, whose work is done in pieces beside the engines (Wielemaker and Harris, TPLP 2016).
#![tactic(auto)]

mod collecting;

pub use collecting::{Piece, TableCollector};
