//! The text of a term (ISO 7.10.5), written from its nodes, one after the other, with a stack of what is still to come.
ghost use Rattle.std.specs.Prelude.{◌≡◌, ◌++◌, ◌∷◌, [], ◌+◌, ◌<◌, suc, zero, true, false, IfOk, OnOk, codes, if◌then◌else◌, reverse};
ghost use Rattle.std.specs.Str.{encode_utf8_all};
ghost use Rattle.pl_term.specs.Tree.{Tree, Trees, comp, count, join, more, none};
ghost use Rattle.pl_term.specs.Nodes.{nodes, tree};
ghost use Rattle.pl_model.specs.TermWriting.{atom_pieces, pieces, plain, text_of, writeq, write, write_canonical};
ghost use Rattle.pl_model.specs.Writing.{alone};
ghost use Rattle.term_writer.specs.Pages.{Grows, Puts, behind_page, shown};
ghost use Rattle.term_writer.specs.Styles.{lookup_of, manner_of, place_of};
ghost use Rattle.term_writer.specs.Work.{Closes, Fits, Steps, coming, continues_view, reads, tail_node};

use crate::names::is_named;
use crate::operators::{
    Position, Shape, Style, encloses, encloses_atom, left_max, right_max, shape_of,
};
use crate::page::Page;
use crate::pieces::{
    put_functor, put_infix, put_integer, put_name, put_operator, put_postfix, put_variable,
};
use op_table::OpTable;
use pl_term::{Flat, Memory, Node, Text};
use std::alloc::Global;
use std::mem;

/// What is still to be written: a term at a largest priority, an infix operator and its right operand, a postfix
/// operator, further arguments, what follows an element of a list, or a closing bracket.
#[derive(Debug, Drop)]
pub enum Work {
    Term(u16, Position),
    Infix(Text, u16),
    Postfix(Text),
    Arguments(u64),
    Rest,
    Parenthesis,
    Bracket,
    Brace,
}

/// What follows an element of a list: its end, a further element, or a tail that is no list.
#[derive(Debug, Clone, Copy, Drop)]
pub enum Continues {
    Ends,
    GoesOn,
    Partial,
}

fn write_atom(style: Style, position: Position, f: &Text, page: &mut Page) -> Result<(), Memory>
    ensures puts { OnOk result (Puts page.old page.new
        (atom_pieces (manner_of style.entry) (lookup_of style.entry.operators) (place_of position) f.now)) }
    ensures grows { Grows page.old.bytes.items page.new.bytes.items }
{
    if encloses_atom(style, position, f) {
        page.put_mark(b'(')?;
        put_name(style, page, f, None)?;
        page.put_mark(b')')?;
    } else {
        put_name(style, page, f, None)?;
    }
    Ok(())
}

fn continuation(node: &Node) -> Continues
    ensures { result ≡ continues_view (tail_node node.now) }
{
    match node {
        Node::Var(_) => Continues::Partial,
        Node::Int(_) => Continues::Partial,
        Node::Atom(a) => {
            if is_named(a, "[]") {
                return Continues::Ends;
            }
            Continues::Partial
        }
        Node::Comp(f, k) => {
            if *k != 2 {
                return Continues::Partial;
            }
            if is_named(f, ".") {
                return Continues::GoesOn;
            }
            Continues::Partial
        }
    }
}

/// Begins a compound term: puts what stands before its first argument, and what is to come on the stack.
fn open_compound(
    alloc: Global,
    style: Style,
    f: &Text,
    k: u64,
    max: u16,
    position: Position,
    stack: &mut Vec<Work>,
    page: &mut Page,
) -> Result<(), Memory>
    requires { 0 < k }
    ensures reads { OnOk result (reads (reverse stack.new.items) ≡ k + reads (reverse stack.old.items)) }
    ensures shows { OnOk result ((t : Tree) (ts us : Trees) → k ≡ suc (count ts)
        → shown page.new.bytes.items (behind_page page.new)
        (coming (manner_of style.entry) (lookup_of style.entry.operators) (reverse stack.new.items) (more t (join ts us)))
        ≡ shown page.old.bytes.items (behind_page page.old)
        (pieces (manner_of style.entry) (lookup_of style.entry.operators) max (place_of position) (comp f.now t ts)
        ++ coming (manner_of style.entry) (lookup_of style.entry.operators) (reverse stack.old.items) us)) }
    ensures grows { Grows page.old.bytes.items page.new.bytes.items }
{
    match shape_of(style, f, k) {
        Shape::List => {
            page.put_mark(b'[')?;
            stack.push(Work::Rest)?;
            stack.push(Work::Term(999, Position::Alone))?;
        }
        Shape::Curly => {
            page.put_mark(b'{')?;
            stack.push(Work::Brace)?;
            stack.push(Work::Term(1200, Position::Alone))?;
        }
        Shape::Infix(priority, kind) => {
            open_parenthesis(encloses(position, max, priority, kind), stack, page)?;
            let name = f.copy(alloc)?;
            stack.push(Work::Infix(name, right_max(priority, kind)))?;
            stack.push(Work::Term(left_max(priority, kind), Position::LeftOperand(priority)))?;
        }
        Shape::Prefix(priority, kind) => {
            open_parenthesis(encloses(position, max, priority, kind), stack, page)?;
            let name = f.copy(alloc)?;
            put_operator(style, page, f, Some(name))?;
            stack.push(Work::Term(right_max(priority, kind), Position::Operand))?;
        }
        Shape::Postfix(priority, kind) => {
            open_parenthesis(encloses(position, max, priority, kind), stack, page)?;
            let name = f.copy(alloc)?;
            stack.push(Work::Postfix(name))?;
            stack.push(Work::Term(left_max(priority, kind), Position::LeftOperand(priority)))?;
        }
        Shape::Functional => {
            put_functor(style, page, f)?;
            page.put_mark(b'(')?;
            stack.push(Work::Arguments(k - 1))?;
            stack.push(Work::Term(999, Position::Alone))?;
        }
    }
    Ok(())
}

fn open_parenthesis(needed: bool, stack: &mut Vec<Work>, page: &mut Page) -> Result<(), Memory>
    ensures puts { OnOk result (Puts page.old page.new (if needed then plain (codes "(") ∷ [] else [])) }
    ensures pushes { OnOk result (stack.new.items ≡ stack.old.items ++ (if needed then Work.Parenthesis ∷ [] else [])) }
    ensures grows { Grows page.old.bytes.items page.new.bytes.items }
{
    if needed {
        page.put_mark(b'(')?;
        stack.push(Work::Parenthesis)?;
    }
    Ok(())
}

/// Writes the term that begins with a node, up to what its first argument or left operand begins.
fn write_term(
    alloc: Global,
    style: Style,
    node: &Node,
    max: u16,
    position: Position,
    stack: &mut Vec<Work>,
    page: &mut Page,
) -> Result<(), Memory>
    requires { Fits node.now (Work.Term max position ∷ reverse stack.old.items) }
    ensures steps { OnOk result (Steps (manner_of style.entry) (lookup_of style.entry.operators) node.now
        (Work.Term max position ∷ reverse stack.old.items) page.old (reverse stack.new.items) page.new) }
    ensures grows { Grows page.old.bytes.items page.new.bytes.items }
{
    match node {
        Node::Var(n) => put_variable(page, *n)?,
        Node::Int(i) => put_integer(page, *i)?,
        Node::Atom(f) => write_atom(style, position, f, page)?,
        Node::Comp(f, k) => open_compound(alloc, style, f, *k, max, position, stack, page)?,
    }
    Ok(())
}

/// Writes what follows an element of a list whose tail begins with a node.
fn write_rest(
    alloc: Global,
    style: Style,
    node: &Node,
    stack: &mut Vec<Work>,
    page: &mut Page,
) -> Result<(), Memory>
    requires { Fits node.now (Work.Rest ∷ reverse stack.old.items) }
    ensures steps { OnOk result (Steps (manner_of style.entry) (lookup_of style.entry.operators) node.now
        (Work.Rest ∷ reverse stack.old.items) page.old (reverse stack.new.items) page.new) }
    ensures grows { Grows page.old.bytes.items page.new.bytes.items }
{
    match continuation(node) {
        Continues::Ends => page.put_mark(b']')?,
        Continues::GoesOn => {
            page.put_mark(b',')?;
            stack.push(Work::Rest)?;
            stack.push(Work::Term(999, Position::Alone))?;
        }
        Continues::Partial => {
            page.put_mark(b'|')?;
            stack.push(Work::Bracket)?;
            write_term(alloc, style, node, 999, Position::Alone, stack, page)?;
        }
    }
    Ok(())
}

/// Writes the next of `k` arguments, which begins with a node, after a comma.
fn write_argument(
    alloc: Global,
    style: Style,
    node: &Node,
    k: u64,
    stack: &mut Vec<Work>,
    page: &mut Page,
) -> Result<(), Memory>
    requires some { 0 < k }
    requires fits { Fits node.now (Work.Arguments k ∷ reverse stack.old.items) }
    ensures steps { OnOk result (Steps (manner_of style.entry) (lookup_of style.entry.operators) node.now
        (Work.Arguments k ∷ reverse stack.old.items) page.old (reverse stack.new.items) page.new) }
    ensures grows { Grows page.old.bytes.items page.new.bytes.items }
{
    page.put_mark(b',')?;
    stack.push(Work::Arguments(k - 1))?;
    write_term(alloc, style, node, 999, Position::Alone, stack, page)?;
    Ok(())
}

/// Writes an item that reads no node, and says whether it is one.
fn close(style: Style, work: &Work, page: &mut Page) -> Result<bool, Memory>
    ensures closes { IfOk result (λ b. b ≡ true → Closes (manner_of style.entry) (lookup_of style.entry.operators) work.now page.old page.new) }
    ensures open { IfOk result (λ b. b ≡ false → (0 < reads (work.now ∷ [])) × (page.new ≡ page.old)) }
    ensures grows { Grows page.old.bytes.items page.new.bytes.items }
{
    match work {
        Work::Postfix(f) => put_postfix(style, page, f)?,
        Work::Arguments(k) => {
            if *k != 0 {
                return Ok(false);
            }
            page.put_mark(b')')?
        }
        Work::Parenthesis => page.put_mark(b')')?,
        Work::Bracket => page.put_mark(b']')?,
        Work::Brace => page.put_mark(b'}')?,
        Work::Term(_, _) => return Ok(false),
        Work::Infix(_, _) => return Ok(false),
        Work::Rest => return Ok(false),
    }
    Ok(true)
}

/// Does what an item says that reads a node.
fn read(
    alloc: Global,
    style: Style,
    node: &Node,
    work: Work,
    stack: &mut Vec<Work>,
    page: &mut Page,
) -> Result<(), Memory>
    requires reads { 0 < reads (work ∷ []) }
    requires fits { Fits node.now (work ∷ reverse stack.old.items) }
    ensures steps { OnOk result (Steps (manner_of style.entry) (lookup_of style.entry.operators) node.now
        (work ∷ reverse stack.old.items) page.old (reverse stack.new.items) page.new) }
    ensures grows { Grows page.old.bytes.items page.new.bytes.items }
{
    match work {
        Work::Term(max, position) => write_term(alloc, style, node, max, position, stack, page)?,
        Work::Infix(f, max) => {
            put_infix(style, page, &f)?;
            write_term(alloc, style, node, max, Position::Operand, stack, page)?;
        }
        Work::Arguments(k) => write_argument(alloc, style, node, k, stack, page)?,
        Work::Rest => write_rest(alloc, style, node, stack, page)?,
        Work::Postfix(_) => unreachable!(),
        Work::Parenthesis => unreachable!(),
        Work::Bracket => unreachable!(),
        Work::Brace => unreachable!(),
    }
    Ok(())
}

/// Writes what comes with the next node of a term.
pub fn put_node(
    alloc: Global,
    style: Style,
    node: &Node,
    stack: &mut Vec<Work>,
    page: &mut Page,
) -> Result<(), Memory>
    requires { Fits node.now (reverse stack.old.items) }
    ensures steps { OnOk result (Steps (manner_of style.entry) (lookup_of style.entry.operators) node.now
        (reverse stack.old.items) page.old (reverse stack.new.items) page.new) }
    ensures grows { Grows page.old.bytes.items page.new.bytes.items }
{
    while let Some(work) = stack.pop() {
        if !close(style, &work, page)? {
            read(alloc, style, node, work, stack, page)?;
            return Ok(());
        }
    }
    unreachable!()
}

/// Writes what comes after the last node.
pub fn put_end(style: Style, stack: &mut Vec<Work>, page: &mut Page) -> Result<(), Memory>
    requires { reads (reverse stack.old.items) ≡ 0 }
    ensures shows { OnOk result
        (shown page.new.bytes.items (behind_page page.new) []
        ≡ shown page.old.bytes.items (behind_page page.old)
        (coming (manner_of style.entry) (lookup_of style.entry.operators) (reverse stack.old.items) none)) }
    ensures grows { Grows page.old.bytes.items page.new.bytes.items }
{
    while let Some(work) = stack.pop() {
        if !close(style, &work, page)? {
            unreachable!();
        }
    }
    Ok(())
}

fn write_nodes(
    alloc: Global,
    style: Style,
    all: &[Node],
    max: u16,
    page: &mut Page,
) -> Result<(), Memory>
    requires { (t : Tree) × (all.now ≡ nodes t) }
    ensures shows { OnOk result
        (shown page.new.bytes.items (behind_page page.new) []
        ≡ shown page.old.bytes.items (behind_page page.old)
        (pieces (manner_of style.entry) (lookup_of style.entry.operators) max alone (tree all.now))) }
    ensures grows { Grows page.old.bytes.items page.new.bytes.items }
{
    let mut stack = vec![in alloc; Work::Term(max, Position::Alone)]?;
    for i in 0..all.len() {
        put_node(alloc, style, &all[i], &mut stack, page)?;
    }
    put_end(style, &mut stack, page)?;
    Ok(())
}

fn write_text(
    alloc: Global,
    style: Style,
    t: &Flat,
    max: u16,
    out: &mut Vec<u8>,
) -> Result<(), Memory>
    ensures written { OnOk result (out.new.items
        ≡ out.old.items ++ encode_utf8_all (text_of (manner_of style.entry) (lookup_of style.entry.operators) max t.now)) }
    ensures grows { Grows out.old.items out.new.items }
{
    let mut page = Page {
        bytes: mem::replace(out, Vec::new(alloc)),
        last: ' ',
        prefix: None,
    };
    let written = write_nodes(alloc, style, t.nodes(), max, &mut page);
    let Page {
        bytes,
        last: _,
        prefix: _,
    } = page;
    *out = bytes;
    written
}

/// Writes the text of a term as writeq/1 and print/1 do (ISO 8.14.2.3), at the end of `out` in UTF-8: with names in
/// quotes where they would not read back without them, and under the operators of `ops`. `max` is the largest
/// priority of an operator that may stand without parentheses. The only error is out of memory: then `out` holds
/// what it held, and after it may be a part of the text.
pub fn writeq(
    alloc: Global,
    t: &Flat,
    ops: &OpTable,
    max: u16,
    out: &mut Vec<u8>,
) -> Result<(), Memory>
    ensures written { OnOk result (out.new.items ≡ out.old.items ++ encode_utf8_all (writeq ops.now max t.now)) }
    ensures grows { Grows out.old.items out.new.items }
{
    let style = Style {
        quotes: true,
        curly: true,
        operators: Some(ops),
    };
    write_text(alloc, style, t, max, out)
}

/// Writes the text of a term as write/1 does (ISO 8.14.2.3): as `writeq`, but without quotes.
pub fn write(
    alloc: Global,
    t: &Flat,
    ops: &OpTable,
    max: u16,
    out: &mut Vec<u8>,
) -> Result<(), Memory>
    ensures written { OnOk result (out.new.items ≡ out.old.items ++ encode_utf8_all (write ops.now max t.now)) }
    ensures grows { Grows out.old.items out.new.items }
{
    let style = Style {
        quotes: false,
        curly: true,
        operators: Some(ops),
    };
    write_text(alloc, style, t, max, out)
}

/// Writes the text of a term as write_canonical/1 does (ISO 8.14.2.3): with quotes and without operators, in UTF-8 at
/// the end of `out`. Lists stay lists; `{}` is written as any other functor. Neither the table nor the largest
/// priority plays a part: the parameters are those of the other calls. The only error is out of memory: then `out`
/// holds what it held, and after it may be a part of the text.
pub fn write_canonical(
    alloc: Global,
    t: &Flat,
    _ops: &OpTable,
    _max: u16,
    out: &mut Vec<u8>,
) -> Result<(), Memory>
    ensures written { OnOk result (out.new.items ≡ out.old.items ++ encode_utf8_all (write_canonical t.now)) }
    ensures grows { Grows out.old.items out.new.items }
{
    let style = Style {
        quotes: true,
        curly: false,
        operators: None,
    };
    write_text(alloc, style, t, 1200, out)
}
