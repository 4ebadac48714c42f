//! What the reader answers, as the rows have it.

use crate::output::{put_integer, put_named, put_number, put_text};
use anyhow::Result;
use pl_term::{Flat, Node};
use prolog_reader::{NamedVariable, Read};
use std::alloc::Global;
use std::convert::AsStr;

/// What was read: of a clause its nodes, its named variables and its places, or the fault.
pub fn put_read(alloc: Global, out: &mut Vec<u8>, read: &Read) -> Result<()> {
    match read {
        Read::Clause {
            term,
            names,
            start,
            next,
        } => {
            put_nodes(out, term)?;
            put_names(out, names)?;
            put_number(out, *start as u64)?;
            put_named(out, "-", *next as u64)
        }
        Read::End => put_text(out, "end"),
        Read::Syntax { kind, at } => {
            put_text(out, format!(in alloc; "{kind:?} ")?.as_str())?;
            put_number(out, *at as u64)
        }
        Read::Memory => put_text(out, "memory"),
    }
}

/// Adds the nodes of a term in prefix order.
pub fn put_nodes(out: &mut Vec<u8>, term: &Flat) -> Result<()> {
    for node in term.nodes() {
        put_node(out, node)?;
    }
    Ok(())
}

/// Adds a node with a space after it, a compound term's with its arity.
pub fn put_node(out: &mut Vec<u8>, node: &Node) -> Result<()> {
    match node {
        Node::Var(number) => put_named(out, "_", *number)?,
        Node::Int(value) => put_integer(out, *value)?,
        Node::Atom(name) => put_text(out, name.as_str())?,
        Node::Comp(name, arity) => {
            put_text(out, name.as_str())?;
            put_named(out, "/", *arity)?
        }
    }
    put_text(out, " ")
}

/// Adds the named variables with their numbers, with a space after each.
fn put_names(out: &mut Vec<u8>, names: &[NamedVariable]) -> Result<()> {
    for named in names {
        put_text(out, named.name.as_str())?;
        put_named(out, "=", named.variable)?;
        put_text(out, " ")?;
    }
    Ok(())
}
