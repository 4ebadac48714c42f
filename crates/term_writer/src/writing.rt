//! The text of a term whose nodes come one after the other.
ghost use Rattle.std.specs.Prelude.{◌≡◌, IfOk, OnOk};
ghost use Rattle.pl_term.specs.Nodes.{nodes_all};
ghost use Rattle.pl_term.specs.Tree.{Trees, count, none};
ghost use Rattle.pl_model.specs.TermWriting.{text_of, write, write_canonical, writeq};
ghost use Rattle.term_writer.specs.Styles.{lookup_of, manner_of};
ghost use Rattle.term_writer.specs.Writings.{Goes, IsBegun, IsWanted, finished, wants};

use crate::operators::{Position, Style};
use crate::page::Page;
use crate::writer::{Work, put_end, put_node};
use op_table::OpTable;
use pl_term::{Memory, Node};
use std::alloc::Global;

/// A text to which the nodes of a term are written one after the other, each before those of its arguments.
#[derive(Drop)]
pub struct Writing<'a> {
    alloc: Global,
    style: Style<'a>,
    stack: Vec<Work>,
    page: Page,
}

impl<'a> Writing<'a> {
    /// Begins a text after these bytes. The only error is out of memory.
    fn begin(
        alloc: Global,
        style: Style<'a>,
        max: u16,
        bytes: Vec<u8>,
    ) -> Result<Writing<'a>, Memory>
        ensures { IfOk result (IsBegun (text_of (manner_of style.entry) (lookup_of style.entry.operators) max) bytes.items) }
    {
        let stack = vec![in alloc; Work::Term(max, Position::Alone)]?;
        Ok(Writing {
            alloc,
            style,
            stack,
            page: Page {
                bytes,
                last: ' ',
                prefix: None,
            },
        })
    }

    /// Begins, after these bytes, the text that `writeq` writes. The only error is out of memory.
    pub fn quoted(
        alloc: Global,
        ops: &'a OpTable,
        max: u16,
        bytes: Vec<u8>,
    ) -> Result<Writing<'a>, Memory>
        ensures { IfOk result (IsBegun (writeq ops.now max) bytes.items) }
    {
        let style = Style {
            quotes: true,
            curly: true,
            operators: Some(ops),
        };
        Writing::begin(alloc, style, max, bytes)
    }

    /// Begins, after these bytes, the text that `write` writes. The only error is out of memory.
    pub fn bare(
        alloc: Global,
        ops: &'a OpTable,
        max: u16,
        bytes: Vec<u8>,
    ) -> Result<Writing<'a>, Memory>
        ensures { IfOk result (IsBegun (write ops.now max) bytes.items) }
    {
        let style = Style {
            quotes: false,
            curly: true,
            operators: Some(ops),
        };
        Writing::begin(alloc, style, max, bytes)
    }

    /// Begins, after these bytes, the text that `write_canonical` writes. The only error is out of memory.
    pub fn canonical(alloc: Global, bytes: Vec<u8>) -> Result<Writing<'a>, Memory>
        ensures { IfOk result (IsBegun write_canonical bytes.items) }
    {
        let style = Style {
            quotes: true,
            curly: false,
            operators: None,
        };
        Writing::begin(alloc, style, 1200, bytes)
    }

    /// Writes what comes with the next node. The only error is out of memory.
    pub fn put(&mut self, node: &Node) -> Result<(), Memory>
        requires { IsWanted node.now self.old }
        ensures { OnOk result (Goes node.now self.old self.new) }
    {
        put_node(
            self.alloc,
            self.style,
            node,
            &mut self.stack,
            &mut self.page,
        )?;
        Ok(())
    }

    /// Ends the text once all nodes have come: the bytes after which it was begun, and the text behind them. The only error is
    /// out of memory.
    pub fn end(self) -> Result<Vec<u8>, Memory>
        requires { wants self ≡ 0 }
        ensures { IfOk result (λ bytes. bytes.items ≡ finished self.entry none) }
    {
        let Writing {
            alloc: _,
            style,
            mut stack,
            mut page,
        } = self;
        put_end(style, &mut stack, &mut page)?;
        let Page {
            bytes,
            last: _,
            prefix: _,
        } = page;
        Ok(bytes)
    }
}
