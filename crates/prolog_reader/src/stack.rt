//! Reading a term with a stack of its own: what has been begun and waits for a subterm is kept in frames, so that depth
//! takes heap alone.
ghost use Rattle.std.specs.Prelude.{◌≡◌, [], ◌∷◌, ◌+◌, ◌<◌, ◌≤◌, Ok, Err, IfOk, IfErr, OnOk, Some, length};
ghost use Rattle.pl_model.specs.OperatorTable.{operator_at};
ghost use Rattle.pl_model.specs.TermGrammar.{Lookup};
ghost use Rattle.pl_model.specs.LexicalTokens.{token_at};
ghost use Rattle.pl_model.specs.declared.grammar.Quotes.{Quotes as QuotesFlag};
ghost use Rattle.pl_model.specs.declared.lexical.Lexeme.TheVariants.{End as EndOfText};
ghost use Rattle.prolog_reader.specs.Stack.{stack, reading, IsAt, IsBuilt, IsSound, turns_left, TurnsFrom, Takes, Joins, PutsNodes, Pushes, start_at};

use crate::ahead::look;
use crate::lists::cell;
use crate::marks::behind_mark;
use crate::names::Numbered;
use crate::operations::{Joining, Operation, joining_ahead};
use crate::pieces::{put_front, put_leaf, put_nodes};
use crate::read_error::{ReadError, unexpected};
use op_table::OpTable;
use pl_model::lexical::{Lexeme, Mark};
use pl_model::syntax::SyntaxFault;
use pl_term::{Memory, Node, Text};
use std::alloc::Global;

/// What was begun and waits for a subterm. What was read of it already is in the pieces from `start` on; after it a
/// term of at most the priority `max` goes on.
#[derive(Debug, Drop)]
pub enum Frame {
    /// An operator of this priority waits for its last argument.
    Behind {
        max: u16,
        priority: u16,
        start: usize,
    },
    /// Brackets wait for a last term and the closing one.
    Closing {
        max: u16,
        mark: Mark,
        start: usize,
    },
    /// A compound term waits for arguments after the first `count`.
    Arguments {
        max: u16,
        name: Text,
        count: u64,
        start: usize,
    },
    /// A list waits for elements.
    Elements {
        max: u16,
        start: usize,
    },
}

/// What is read next.
#[derive(Debug, Clone, Copy, Drop)]
pub enum Mode {
    /// A term of at most the priority `max`.
    Term {
        max: u16,
    },
    /// What follows a left part of this priority, whose pieces begin at `start`, in a term of at most `max`.
    Part {
        max: u16,
        priority: u16,
        start: usize,
    },
    /// Nothing of a term of this priority, whose pieces begin at `start`: what waits for it takes it.
    Ended {
        priority: u16,
        start: usize,
    },
    /// Nothing: no frame waits any more.
    Whole,
}

/// How far reading of a clause has come.
#[derive(Debug, Drop)]
pub struct Reader {
    /// The place after the last token that was taken.
    pub at: usize,
    /// What stands there.
    pub ahead: Result<Lexeme, SyntaxFault>,
    pub names: Numbered,
    pub frames: Vec<Frame>,
    pub pieces: Vec<Vec<Node>>,
}

impl Reader {
    /// A reader of the clause that begins at the place `at`. The only error is out of memory.
    pub fn new(alloc: Global, text: &[u8], at: usize) -> Result<Reader, Memory>
        requires { at ≤ length text.now }
        ensures sound { IfOk result (λ r. IsSound text.now r (Mode.Term 1200)) }
        ensures reading { IfOk result (λ r. reading r ≡ start_at at) }
        ensures stack { IfOk result (λ r. r.frames.items ≡ []) }
        ensures pieces { IfOk result (λ r. r.pieces.items ≡ []) }
    {
        Ok(Reader {
            at,
            ahead: look(alloc, text, at)?,
            names: Numbered::new(alloc),
            frames: Vec::new(alloc),
            pieces: Vec::new(alloc),
        })
    }

    /// What stands ahead, which is taken away.
    pub fn take(&mut self) -> Result<Lexeme, SyntaxFault>
        ensures result { result ≡ self.old.ahead }
        ensures new { self.new ≡ record self.old { ahead = Ok EndOfText } }
    {
        std::mem::replace(&mut self.ahead, Ok(Lexeme::End))
    }

    /// Goes to the place after a token. The only error is out of memory.
    pub fn advance(&mut self, alloc: Global, text: &[u8], end: usize) -> Result<(), Memory>
        ensures { OnOk result (self.new ≡ record self.old { at = end; ahead = token_at text.now end }) }
    {
        let ahead = look(alloc, text, end)?;
        self.at = end;
        self.ahead = ahead;
        Ok(())
    }

    /// A frame waits from here on, and reading goes to the place after a token.
    pub fn push(
        &mut self,
        alloc: Global,
        text: &[u8],
        frame: Frame,
        end: usize,
    ) -> Result<(), ReadError>
        ensures pushes { OnOk result (Pushes text.now self.old self.new frame end) }
        ensures stop { IfErr result (λ e. e ≡ ReadError.Memory) }
    {
        self.frames.push(frame)?;
        self.advance(alloc, text, end)?;
        Ok(())
    }

    /// A term of one node.
    pub fn leaf(
        &mut self,
        alloc: Global,
        text: &[u8],
        max: u16,
        node: Node,
        end: usize,
    ) -> Result<Mode, ReadError>
        ensures puts { IfOk result (λ _. PutsNodes text.now self.old self.new (node ∷ []) end) }
        ensures mode { IfOk result (λ m. m ≡ Mode.Part max 0 (length self.old.pieces.items)) }
        ensures stop { IfErr result (λ e. e ≡ ReadError.Memory) }
    {
        let start = self.pieces.len();
        put_leaf(alloc, &mut self.pieces, node)?;
        self.advance(alloc, text, end)?;
        Ok(Mode::Part {
            max,
            priority: 0,
            start,
        })
    }

    /// A term of these nodes.
    pub fn term(
        &mut self,
        alloc: Global,
        text: &[u8],
        max: u16,
        nodes: Vec<Node>,
        end: usize,
    ) -> Result<Mode, ReadError>
        ensures puts { IfOk result (λ _. PutsNodes text.now self.old self.new nodes.items end) }
        ensures mode { IfOk result (λ m. m ≡ Mode.Part max 0 (length self.old.pieces.items)) }
        ensures stop { IfErr result (λ e. e ≡ ReadError.Memory) }
    {
        let start = self.pieces.len();
        put_nodes(&mut self.pieces, nodes)?;
        self.advance(alloc, text, end)?;
        Ok(Mode::Part {
            max,
            priority: 0,
            start,
        })
    }

    /// Goes on after a left part: with an operator, if one stands there that fits.
    pub fn go_on(
        &mut self,
        alloc: Global,
        text: &[u8],
        ops: &OpTable,
        max: u16,
        priority: u16,
        start: usize,
    ) -> Result<Mode, ReadError>
        requires { IsSound text.now self.old (Mode.Part max priority start) }
        ensures { (quotes : QuotesFlag) → TurnsFrom text.now (operator_at ops.now) quotes self.old (Mode.Part max priority start) self.new result }
    {
        let joining = match &self.ahead {
            Ok(lexeme) => joining_ahead(alloc, ops, lexeme, max, priority)?,
            Err(fault) => return Err(ReadError::Fault(*fault)),
        };
        match joining {
            Some(joining) => self.join(alloc, text, max, priority, start, joining),
            None => Ok(Mode::Ended { priority, start }),
        }
    }

    /// Joins the operator ahead to a left part of this priority.
    fn join(
        &mut self,
        alloc: Global,
        text: &[u8],
        max: u16,
        priority: u16,
        start: usize,
        joining: Joining,
    ) -> Result<Mode, ReadError>
        requires sound { IsSound text.now self.old (Mode.Part max priority start) }
        requires forward { self.old.at < joining.end }
        requires within { joining.end ≤ length text.now }
        ensures { (ops : Lookup) (quotes : QuotesFlag) → Joins text.now ops quotes self.old max priority start (Some joining) self.new result }
    {
        let Joining {
            name,
            operation,
            end,
        } = joining;
        match operation {
            Operation::Infix {
                priority: own,
                right,
            } => {
                put_front(&mut self.pieces, start, Node::Comp(name, 2))?;
                let frame = Frame::Behind {
                    max,
                    priority: own,
                    start,
                };
                self.push(alloc, text, frame, end)?;
                Ok(Mode::Term { max: right })
            }
            Operation::Postfix { priority: own } => {
                put_front(&mut self.pieces, start, Node::Comp(name, 1))?;
                self.advance(alloc, text, end)?;
                Ok(Mode::Part {
                    max,
                    priority: own,
                    start,
                })
            }
            Operation::Ends => Ok(Mode::Ended { priority, start }),
        }
    }

    /// A term of this priority has ended, whose pieces begin at `start`: what waits for it takes it.
    pub fn ended(
        &mut self,
        alloc: Global,
        text: &[u8],
        priority: u16,
        start: usize,
    ) -> Result<Mode, ReadError>
        requires { IsSound text.now self.old (Mode.Ended priority start) }
        ensures { (ops : Lookup) (quotes : QuotesFlag) → TurnsFrom text.now ops quotes self.old (Mode.Ended priority start) self.new result }
    {
        match self.frames.pop() {
            None => Ok(Mode::Whole),
            Some(
                Frame::Behind {
                    max,
                    priority: own,
                    start: first,
                },
            ) => Ok(Mode::Part {
                max,
                priority: own,
                start: first,
            }),
            Some(
                Frame::Closing {
                    max,
                    mark,
                    start: first,
                },
            ) => self.close(alloc, text, max, mark, first, priority, start),
            Some(
                Frame::Arguments {
                    max,
                    name,
                    count,
                    start: first,
                },
            ) => self.argument(alloc, text, max, name, count, first, priority, start),
            Some(Frame::Elements { max, start: first }) => self.element(
                alloc, text, max, first, priority, start,
            ),
        }
    }

    /// The closing bracket after a term of this priority, whose pieces begin at `last`; those of the whole begin at
    /// `start`.
    fn close(
        &mut self,
        alloc: Global,
        text: &[u8],
        max: u16,
        mark: Mark,
        start: usize,
        priority: u16,
        last: usize,
    ) -> Result<Mode, ReadError>
        requires place { IsAt text.now self.old }
        requires built { IsBuilt (Frame.Closing max mark start ∷ stack self.old) self.old last }
        ensures { (ops : Lookup) (quotes : QuotesFlag) → Takes text.now ops quotes self.old (Frame.Closing max mark start) priority last self.new result }
    {
        let Some(end) = behind_mark(mark, &self.ahead) else {
            return Err(unexpected(text, &self.ahead));
        };
        self.advance(alloc, text, end)?;
        Ok(Mode::Part {
            max,
            priority: 0,
            start,
        })
    }

    /// A comma or a closing parenthesis after an argument of this priority, whose pieces begin at `last`. The `count`
    /// arguments before it begin at `start`.
    fn argument(
        &mut self,
        alloc: Global,
        text: &[u8],
        max: u16,
        name: Text,
        count: u64,
        start: usize,
        priority: u16,
        last: usize,
    ) -> Result<Mode, ReadError>
        requires place { IsAt text.now self.old }
        requires built { IsBuilt (Frame.Arguments max name count start ∷ stack self.old) self.old last }
        ensures { (ops : Lookup) (quotes : QuotesFlag) → Takes text.now ops quotes self.old (Frame.Arguments max name count start) priority last self.new result }
    {
        if let Some(end) = behind_mark(Mark::Comma, &self.ahead) {
            let frame = Frame::Arguments {
                max,
                name,
                count: count + 1,
                start,
            };
            self.push(alloc, text, frame, end)?;
            return Ok(Mode::Term { max: 999 });
        }
        let Some(end) = behind_mark(Mark::Close, &self.ahead) else {
            return Err(unexpected(text, &self.ahead));
        };
        put_front(&mut self.pieces, start, Node::Comp(name, count + 1))?;
        self.advance(alloc, text, end)?;
        Ok(Mode::Part {
            max,
            priority: 0,
            start,
        })
    }

    /// A comma, a bar or a closing bracket after a list element of this priority, whose pieces begin at `last`. The
    /// cells before it begin at `start`.
    fn element(
        &mut self,
        alloc: Global,
        text: &[u8],
        max: u16,
        start: usize,
        priority: u16,
        last: usize,
    ) -> Result<Mode, ReadError>
        requires place { IsAt text.now self.old }
        requires built { IsBuilt (Frame.Elements max start ∷ stack self.old) self.old last }
        ensures { (ops : Lookup) (quotes : QuotesFlag) → Takes text.now ops quotes self.old (Frame.Elements max start) priority last self.new result }
    {
        put_front(&mut self.pieces, last, cell(alloc)?)?;
        if let Some(end) = behind_mark(Mark::Comma, &self.ahead) {
            self.push(alloc, text, Frame::Elements { max, start }, end)?;
            return Ok(Mode::Term { max: 999 });
        }
        if let Some(end) = behind_mark(Mark::Bar, &self.ahead) {
            let frame = Frame::Closing {
                max,
                mark: Mark::CloseList,
                start,
            };
            self.push(alloc, text, frame, end)?;
            return Ok(Mode::Term { max: 999 });
        }
        let Some(end) = behind_mark(Mark::CloseList, &self.ahead) else {
            return Err(unexpected(text, &self.ahead));
        };
        put_leaf(
            alloc,
            &mut self.pieces,
            Node::Atom(Text::from_str(alloc, "[]")?),
        )?;
        self.advance(alloc, text, end)?;
        Ok(Mode::Part {
            max,
            priority: 0,
            start,
        })
    }
}
