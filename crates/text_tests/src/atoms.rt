//! Rows of atoms for one thread.

use crate::fields::{Fields, text_of};
use crate::output::put_number;
use anyhow::Result;
use atom_api::{Atom, Atoms, Interned, PlainAtoms, TextBuf, fixed};
use pl_term::Text;
use std::alloc::Global;

/// The numbers of atoms, in the order of their introduction: what each operation of a row answers, with a blank after it.
pub fn numbers(alloc: Global, fields: &mut Fields) -> Result<Vec<u8>> {
    let mut atoms = PlainAtoms::new(alloc)?;
    let mut out = Vec::new(alloc);
    for part in fields.next_field()?.split('¬') {
        operation(alloc, &mut atoms, part, &mut out)?;
        out.push(b' ')?;
    }
    Ok(out)
}

/// Adds what an operation answers: that the atom of a text after `keep ` is kept alone, or the number of a text's atom.
fn operation(alloc: Global, atoms: &mut PlainAtoms, part: &str, out: &mut Vec<u8>) -> Result<()> {
    match part.strip_prefix("keep ") {
        Some(name) => {
            if let Interned::Is(a) = atoms.intern(&named(alloc, name)?) {
                atoms.keep_only(&[a]);
                out.push(b'k')?;
            }
            Ok(())
        }
        None => put_atom(alloc, atoms, &named(alloc, part)?, out),
    }
}

/// The text that a field stands for.
fn named(alloc: Global, field: &str) -> Result<Text> {
    Ok(Text::from_str(alloc, text_of(alloc, field)?.as_str())?)
}

/// Adds the number of a text's atom, of a fixed one after `f` and of others from those on; or the bytes of a text that is too long.
/// An atom whose text is another one has a `?` before it.
fn put_atom<A: Atoms>(alloc: Global, atoms: &mut A, text: &Text, out: &mut Vec<u8>) -> Result<()> {
    match atoms.intern(text) {
        Interned::Is(a) => {
            let mut buf = TextBuf::new();
            atoms.text(a, &mut buf);
            if !buf.to_text(alloc)?.same(text) || buf.size() != text.size() {
                out.push(b'?')?;
            }
            put_slot(out, a)
        }
        Interned::TooLong { bytes } => {
            out.push(b'>')?;
            put_number(out, bytes as u64)
        }
        _ => Ok(out.push(b'?')?),
    }
}

/// Adds the number of an atom, of a fixed one after `f` and of others from those on.
fn put_slot(out: &mut Vec<u8>, a: Atom) -> Result<()> {
    let slot = a.slot() as u64;
    let count = fixed::COUNT as u64;
    if slot < count {
        out.push(b'f')?;
        return put_number(out, slot);
    }
    put_number(out, slot - count)
}
