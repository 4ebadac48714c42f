//! Rows of terms over atoms.
ghost use Rattle.std.specs.Prelude.{IsSome};
ghost use Rattle.std.specs.List.{All};
ghost use Rattle.term_store.specs.NumberedNames.{names_of};

use crate::fields::Fields;
use crate::flat_terms::one_term;
use crate::output::put_text;
use crate::settings::Settings;
use crate::shown::put_nodes;
use anyhow::{Result, bail};
use atom_api::{Atoms, PlainAtoms};
use std::alloc::Global;
use term_store::Stored;
use world_api::{NoTerm, interned, with_texts};

/// Adds the nodes of a term over atoms with their texts.
fn put_term<A: Atoms>(alloc: Global, atoms: &mut A, term: &Stored, out: &mut Vec<u8>) -> Result<()>
    requires { All (λ a. IsSome (A.held atoms.old a)) (names_of term.now) }
{
    let term = with_texts(alloc, term, atoms)?;
    put_nodes(out, &term)
}

/// A term over atoms with its texts, or that one of its names is too long.
pub fn over_atoms(alloc: Global, settings: &Settings, fields: &mut Fields) -> Result<Vec<u8>> {
    let term = one_term(alloc, settings, fields.next_field()?)?;
    let mut atoms = PlainAtoms::new(alloc)?;
    let mut out = Vec::new(alloc);
    match interned(alloc, &term, &mut atoms) {
        Ok(kept) => put_term(alloc, &mut atoms, &kept, &mut out)?,
        Err(NoTerm::TooLong) => put_text(&mut out, "too long")?,
        Err(_) => bail!("no atom"),
    }
    Ok(out)
}
