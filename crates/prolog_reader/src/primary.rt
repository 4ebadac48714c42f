//! What begins a term: its primary (ISO 6.3.1 to 6.3.7).
ghost use Rattle.std.specs.Prelude.{◌≡◌, ◌+◌, ◌≤◌, ◌^◌, Ok, Some, pos, neg_ℤ};
ghost use Rattle.pl_model.specs.OperatorTable.{operator_at};
ghost use Rattle.pl_model.specs.LexicalTokens.{token_at};
ghost use Rattle.pl_model.specs.Grammar.{moved, variable_named};
ghost use Rattle.pl_model.specs.TermGrammar.{Lookup, atom_or_operator, behind_mark, curly_term, double_quoted, enclosed, functional, integer, list_term, named_term, negative, primary};
ghost use Rattle.pl_model.proofs.TermDepth.{whole, sequence};
ghost use Rattle.pl_model.specs.declared.grammar.Quotes.{Quotes as QuotesFlag};
ghost use Rattle.pl_model.specs.declared.lexical.Mark.TheVariants.{CloseCurly, CloseList};
ghost use Rattle.pl_model.specs.declared.lexical.Lexeme.TheVariants.{Token as TokenLexeme};
ghost use Rattle.pl_model.specs.declared.lexical.TokenKind.TheVariants.{Punctuation as PunctuationToken};
ghost use Rattle.prolog_reader.specs.Stack.{reading, IsSound, Begins, TurnsFrom, TurnsBy, in_parentheses};

use crate::ahead::{is_functor, is_minus};
use crate::lists::{characters, codes};
use crate::marks::{behind_mark, integer_ahead};
use crate::operations::{right_argument, stands_alone};
use crate::pieces::put_leaf;
use crate::read_error::{ReadError, refused, unexpected};
use crate::stack::{Frame, Mode, Reader};
use op_table::{Kind, OpTable};
use pl_model::grammar::Quotes;
use pl_model::lexical::{Lexeme, Mark, TokenKind};
use pl_model::syntax::SyntaxKind;
use pl_term::{Node, Text};
use std::alloc::Global;

/// An atom has at most this number of bytes in UTF-8.
const LONGEST_ATOM: usize = 248;

impl Reader {
    /// Begins a term of at most the priority `max`, and goes after it where it is an atom, a variable or a number.
    pub fn primary(
        &mut self,
        alloc: Global,
        text: &[u8],
        ops: &OpTable,
        quotes: Quotes,
        max: u16,
    ) -> Result<Mode, ReadError>
        requires { IsSound text.now self.old (Mode.Term max) }
        ensures { TurnsFrom text.now (operator_at ops.now) quotes self.old (Mode.Term max) self.new result }
    {
        match self.take() {
            Ok(Lexeme::Token { kind, start, end }) => {
                self.token(alloc, text, ops, quotes, max, kind, start, end)
            }
            Ok(Lexeme::End) => Err(refused(SyntaxKind::UnexpectedEnd, text.len())),
            Err(fault) => Err(ReadError::Fault(fault)),
        }
    }

    /// Begins a term with this token.
    fn token(
        &mut self,
        alloc: Global,
        text: &[u8],
        ops: &OpTable,
        quotes: Quotes,
        max: u16,
        kind: TokenKind,
        start: usize,
        end: usize,
    ) -> Result<Mode, ReadError>
        requires { Begins text.now self.old end }
        ensures { TurnsBy text.now (operator_at ops.now) quotes
            (primary text.now (operator_at ops.now) quotes (whole text.now (operator_at ops.now) quotes) (sequence text.now (operator_at ops.now) quotes)
            max (reading self.old) (Ok (TokenLexeme kind start end))) self.old max self.new result }
    {
        match kind {
            TokenKind::Name(name) => {
                if is_minus(text, &name, end) {
                    self.negative(alloc, text, max, end)
                } else {
                    self.named_term(alloc, text, ops, max, name, start, end)
                }
            }
            TokenKind::Quoted(name) => self.named_term(alloc, text, ops, max, name, start, end),
            TokenKind::Variable(name) => self.variable(alloc, text, max, name, end),
            TokenKind::Integer(value) => self.integer(alloc, text, max, value, start, end),
            TokenKind::DoubleQuoted(t) => self.double_quoted(
                alloc, text, quotes, max, t, start, end,
            ),
            TokenKind::BackQuoted(t) => {
                let nodes = codes(alloc, &t)?;
                self.term(alloc, text, max, nodes, end)
            }
            TokenKind::Punctuation(mark) => self.enclosed(alloc, text, max, mark, start, end),
            TokenKind::EndToken => Err(refused(SyntaxKind::UnexpectedToken, start)),
        }
    }

    /// A negative numeral, whose minus ends at `end`.
    fn negative(
        &mut self,
        alloc: Global,
        text: &[u8],
        max: u16,
        end: usize,
    ) -> Result<Mode, ReadError>
        requires { Begins text.now self.old end }
        ensures { (ops : Lookup) (quotes : QuotesFlag)
            → TurnsBy text.now ops quotes (negative text.now ops quotes (reading self.old) (token_at text.now end)) self.old max self.new result }
    {
        self.advance(alloc, text, end)?;
        let Some((value, behind)) = integer_ahead(&self.ahead) else {
            return Err(unexpected(text, &self.ahead));
        };
        self.leaf(alloc, text, max, Node::Int(negated(value)), behind)
    }

    fn integer(
        &mut self,
        alloc: Global,
        text: &[u8],
        max: u16,
        value: u64,
        start: usize,
        end: usize,
    ) -> Result<Mode, ReadError>
        requires { Begins text.now self.old end }
        ensures { (ops : Lookup) (quotes : QuotesFlag)
            → TurnsBy text.now ops quotes (integer text.now ops quotes (reading self.old) value start end) self.old max self.new result }
    {
        if value > i64::MAX as u64 {
            return Err(refused(SyntaxKind::IntegerTooLarge, start));
        }
        self.leaf(alloc, text, max, Node::Int(value as i64), end)
    }

    fn variable(
        &mut self,
        alloc: Global,
        text: &[u8],
        max: u16,
        name: Text,
        end: usize,
    ) -> Result<Mode, ReadError>
        requires { Begins text.now self.old end }
        ensures { (ops : Lookup) (quotes : QuotesFlag)
            → TurnsBy text.now ops quotes (Ok (variable_named (reading self.old) name end)) self.old max self.new result }
    {
        let number = self.names.number(name)?;
        self.leaf(alloc, text, max, Node::Var(number), end)
    }

    /// A text in double quotes.
    fn double_quoted(
        &mut self,
        alloc: Global,
        text: &[u8],
        quotes: Quotes,
        max: u16,
        spelled: Text,
        start: usize,
        end: usize,
    ) -> Result<Mode, ReadError>
        requires { Begins text.now self.old end }
        ensures { (ops : Lookup)
            → TurnsBy text.now ops quotes (double_quoted text.now ops quotes (reading self.old) spelled start end quotes) self.old max self.new result }
    {
        match quotes {
            Quotes::Codes => {
                let nodes = codes(alloc, &spelled)?;
                self.term(alloc, text, max, nodes, end)
            }
            Quotes::Chars => {
                let nodes = characters(alloc, &spelled)?;
                self.term(alloc, text, max, nodes, end)
            }
            Quotes::Atom => {
                if spelled.size() > LONGEST_ATOM {
                    return Err(refused(SyntaxKind::AtomTooLong, start));
                }
                self.leaf(alloc, text, max, Node::Atom(spelled), end)
            }
        }
    }

    /// An atom, a prefix operator with its operand, or a compound term where an opening parenthesis follows at once.
    fn named_term(
        &mut self,
        alloc: Global,
        text: &[u8],
        ops: &OpTable,
        max: u16,
        name: Text,
        start: usize,
        end: usize,
    ) -> Result<Mode, ReadError>
        requires { Begins text.now self.old end }
        ensures { (quotes : QuotesFlag)
            → TurnsBy text.now (operator_at ops.now) quotes
            (named_term text.now (operator_at ops.now) quotes (whole text.now (operator_at ops.now) quotes) (sequence text.now (operator_at ops.now) quotes)
            max (reading self.old) name start end) self.old max self.new result }
    {
        if name.size() > LONGEST_ATOM {
            return Err(refused(SyntaxKind::AtomTooLong, start));
        }
        if is_functor(text, end) {
            return self.functional(alloc, text, max, name, end + 1);
        }
        match ops.prefix(&name) {
            Some((own, kind)) => { self.prefix(alloc, text, ops, max, name, own, kind, start, end) }
            None => self.leaf(alloc, text, max, Node::Atom(name), end),
        }
    }

    /// A compound term, whose arguments begin at `end`.
    fn functional(
        &mut self,
        alloc: Global,
        text: &[u8],
        max: u16,
        name: Text,
        end: usize,
    ) -> Result<Mode, ReadError>
        requires { Begins text.now self.old end }
        ensures { (ops : Lookup) (quotes : QuotesFlag)
            → TurnsBy text.now ops quotes (functional text.now ops quotes (sequence text.now ops quotes) name (moved (reading self.old) end))
            self.old max self.new result }
    {
        let start = self.pieces.len();
        let frame = Frame::Arguments {
            max,
            name,
            count: 0,
            start,
        };
        self.push(alloc, text, frame, end)?;
        Ok(Mode::Term { max: 999 })
    }

    /// A prefix operator: an atom, or with its operand, by what stands after it.
    fn prefix(
        &mut self,
        alloc: Global,
        text: &[u8],
        ops: &OpTable,
        max: u16,
        name: Text,
        own: u16,
        kind: Kind,
        start: usize,
        end: usize,
    ) -> Result<Mode, ReadError>
        requires { Begins text.now self.old end }
        ensures { (quotes : QuotesFlag)
            → TurnsBy text.now (operator_at ops.now) quotes
            (atom_or_operator text.now (operator_at ops.now) quotes (whole text.now (operator_at ops.now) quotes)
            max (reading self.old) name start end (Some (own, kind)) (token_at text.now end)) self.old max self.new result }
    {
        self.advance(alloc, text, end)?;
        let alone = match &self.ahead {
            Ok(lexeme) => stands_alone(text, ops, lexeme),
            Err(fault) => return Err(ReadError::Fault(*fault)),
        };
        let first = self.pieces.len();
        if alone {
            put_leaf(alloc, &mut self.pieces, Node::Atom(name))?;
            return Ok(Mode::Part {
                max,
                priority: 0,
                start: first,
            });
        }
        if own > max {
            return Err(refused(SyntaxKind::PriorityClash, start));
        }
        put_leaf(alloc, &mut self.pieces, Node::Comp(name, 1))?;
        self.frames.push(Frame::Behind {
            max,
            priority: own,
            start: first,
        })?;
        Ok(Mode::Term {
            max: right_argument(own, kind),
        })
    }

    /// What begins with a punctuation token from `start` to `end`.
    fn enclosed(
        &mut self,
        alloc: Global,
        text: &[u8],
        max: u16,
        mark: Mark,
        start: usize,
        end: usize,
    ) -> Result<Mode, ReadError>
        requires { Begins text.now self.old end }
        ensures { (ops : Lookup) (quotes : QuotesFlag)
            → TurnsBy text.now ops quotes
            (enclosed text.now ops quotes (whole text.now ops quotes) (sequence text.now ops quotes) (reading self.old) mark end
            (Ok (TokenLexeme (PunctuationToken mark) start end))) self.old max self.new result }
    {
        match mark {
            Mark::Open => self.parenthesis(alloc, text, max, end),
            Mark::OpenCt => self.parenthesis(alloc, text, max, end),
            Mark::OpenList => self.list(alloc, text, max, end),
            Mark::OpenCurly => self.curly(alloc, text, max, end),
            _ => Err(refused(SyntaxKind::UnexpectedToken, start)),
        }
    }

    /// A term in parentheses, whose opening one ends at `end`.
    fn parenthesis(
        &mut self,
        alloc: Global,
        text: &[u8],
        max: u16,
        end: usize,
    ) -> Result<Mode, ReadError>
        requires { Begins text.now self.old end }
        ensures { (ops : Lookup) (quotes : QuotesFlag)
            → TurnsBy text.now ops quotes (in_parentheses text.now ops quotes (moved (reading self.old) end)) self.old max self.new result }
    {
        let start = self.pieces.len();
        let frame = Frame::Closing {
            max,
            mark: Mark::Close,
            start,
        };
        self.push(alloc, text, frame, end)?;
        Ok(Mode::Term { max: 1200 })
    }

    /// A list, whose opening bracket ends at `end`.
    fn list(&mut self, alloc: Global, text: &[u8], max: u16, end: usize) -> Result<Mode, ReadError>
        requires { Begins text.now self.old end }
        ensures { (ops : Lookup) (quotes : QuotesFlag)
            → TurnsBy text.now ops quotes
            (list_term text.now ops quotes (whole text.now ops quotes) (sequence text.now ops quotes) (moved (reading self.old) end)
            (behind_mark CloseList (token_at text.now end))) self.old max self.new result }
    {
        self.advance(alloc, text, end)?;
        if let Some(behind) = behind_mark(Mark::CloseList, &self.ahead) {
            let name = Text::from_str(alloc, "[]")?;
            return self.leaf(alloc, text, max, Node::Atom(name), behind);
        }
        let start = self.pieces.len();
        self.frames.push(Frame::Elements { max, start })?;
        Ok(Mode::Term { max: 999 })
    }

    /// A term in curly brackets, whose opening one ends at `end`.
    fn curly(&mut self, alloc: Global, text: &[u8], max: u16, end: usize) -> Result<Mode, ReadError>
        requires { Begins text.now self.old end }
        ensures { (ops : Lookup) (quotes : QuotesFlag)
            → TurnsBy text.now ops quotes
            (curly_term text.now ops quotes (whole text.now ops quotes) (moved (reading self.old) end)
            (behind_mark CloseCurly (token_at text.now end))) self.old max self.new result }
    {
        self.advance(alloc, text, end)?;
        let name = Text::from_str(alloc, "{}")?;
        if let Some(behind) = behind_mark(Mark::CloseCurly, &self.ahead) {
            return self.leaf(alloc, text, max, Node::Atom(name), behind);
        }
        let start = self.pieces.len();
        put_leaf(alloc, &mut self.pieces, Node::Comp(name, 1))?;
        self.frames.push(Frame::Closing {
            max,
            mark: Mark::CloseCurly,
            start,
        })?;
        Ok(Mode::Term { max: 1200 })
    }
}

/// The negative of a numeral. It is at most 2^63.
fn negated(value: u64) -> i64
    requires { value ≤ 2 ^ 63 }
    ensures { result ≡ neg_ℤ (pos value) }
{
    if value > i64::MAX as u64 {
        i64::MIN
    } else {
        -(value as i64)
    }
}
