//! How a compound term is written by its name, and which terms stand in parentheses (ISO 6.3.4, 7.10.5).
ghost use Rattle.std.specs.Prelude.{◌≡◌, ◌&&◌};
ghost use Rattle.pl_model.specs.OperatorTable.{Entry};
ghost use Rattle.pl_model.specs.TermGrammar.{left_argument, right_argument};
ghost use Rattle.pl_model.specs.TermWriting.{form, is_left_associative, is_operator, needs_parentheses};
ghost use Rattle.pl_model.specs.Writing.{is_operand};
ghost use Rattle.pl_model.specs.declared.operators.Place.TheVariants.{Prefix, Infix, Postfix};
ghost use Rattle.term_writer.specs.Styles.{lookup_of, manner_of, place_of, shape_view};

use crate::names::is_named;
use op_table::{Kind, OpTable};
use pl_term::Text;

/// How terms are written: whether names stand in quotes where they would not read back without them, whether a term
/// in curly brackets is written with them, and under which operators.
#[derive(Debug, Clone, Copy, Drop)]
pub struct Style<'a> {
    pub quotes: bool,
    pub curly: bool,
    pub operators: Option<&'a OpTable>,
}

/// How a compound term is written: as a list, between curly brackets, as an operator of this priority and kind with
/// its operands, or as its name and its arguments in parentheses.
#[derive(Debug, Clone, Copy, Drop)]
pub enum Shape {
    List,
    Curly,
    Infix(u16, Kind),
    Prefix(u16, Kind),
    Postfix(u16, Kind),
    Functional,
}

/// Where a term stands: by itself, as an operand, or as the left operand of an operator of this priority.
#[derive(Debug, Clone, Copy, Drop)]
pub enum Position {
    Alone,
    Operand,
    LeftOperand(u16),
}

fn prefix(style: Style, f: &Text) -> Option<(u16, Kind)>
    ensures { result ≡ lookup_of style.entry.operators f.now Prefix }
{
    match style.operators {
        Some(table) => table.prefix(f),
        None => None,
    }
}

fn infix(style: Style, f: &Text) -> Option<(u16, Kind)>
    ensures { result ≡ lookup_of style.entry.operators f.now Infix }
{
    match style.operators {
        Some(table) => table.infix(f),
        None => None,
    }
}

fn postfix(style: Style, f: &Text) -> Option<(u16, Kind)>
    ensures { result ≡ lookup_of style.entry.operators f.now Postfix }
{
    match style.operators {
        Some(table) => table.postfix(f),
        None => None,
    }
}

/// How a compound term with this name and this many arguments is written.
pub fn shape_of(style: Style, f: &Text, arguments: u64) -> Shape
    ensures { result ≡ shape_view (form (manner_of style.entry) (lookup_of style.entry.operators) f.now arguments) }
{
    if arguments == 1 {
        return shape_of_one(style, f);
    }
    if arguments != 2 {
        return Shape::Functional;
    }
    if is_named(f, ".") {
        return Shape::List;
    }
    match infix(style, f) {
        Some((priority, kind)) => Shape::Infix(priority, kind),
        None => Shape::Functional,
    }
}

fn shape_of_one(style: Style, f: &Text) -> Shape
    ensures { result ≡ shape_view (form (manner_of style.entry) (lookup_of style.entry.operators) f.now 1) }
{
    if style.curly && is_named(f, "{}") {
        return Shape::Curly;
    }
    if let Some((priority, kind)) = prefix(style, f) {
        return Shape::Prefix(priority, kind);
    }
    match postfix(style, f) {
        Some((priority, kind)) => Shape::Postfix(priority, kind),
        None => Shape::Functional,
    }
}

/// Whether an atom with this name has to stand in parentheses here: an operand that is an operator does.
pub fn encloses_atom(style: Style, position: Position, f: &Text) -> bool
    ensures { result ≡ (is_operand (place_of position) && is_operator (lookup_of style.entry.operators) f.now) }
{
    match position {
        Position::Alone => false,
        Position::Operand => is_operator(style, f),
        Position::LeftOperand(_) => is_operator(style, f),
    }
}

fn is_operator(style: Style, f: &Text) -> bool
    ensures { result ≡ is_operator (lookup_of style.entry.operators) f.now }
{
    prefix(style, f).is_some() || infix(style, f).is_some() || postfix(style, f).is_some()
}

/// Whether a term of an operator of this priority and kind has to stand in parentheses here, where `max` is the
/// largest priority that needs none.
pub fn encloses(position: Position, max: u16, priority: u16, kind: Kind) -> bool
    ensures { result ≡ needs_parentheses max (place_of position) (priority, kind) }
{
    if priority > max {
        return true;
    }
    match position {
        Position::Alone => false,
        Position::Operand => false,
        Position::LeftOperand(right) => priority == right && !is_left_associative(kind),
    }
}

fn is_left_associative(kind: Kind) -> bool
    ensures { result ≡ is_left_associative kind }
{
    match kind {
        Kind::Yfx => true,
        Kind::Xf => true,
        Kind::Yf => true,
        Kind::Xfx => false,
        Kind::Xfy => false,
        Kind::Fy => false,
        Kind::Fx => false,
    }
}

/// The largest priority of the operand on the left of an operator of this priority and kind.
pub fn left_max(priority: u16, kind: Kind) -> u16
    ensures { result ≡ left_argument (priority, kind) }
{
    match kind {
        Kind::Yfx => priority,
        Kind::Yf => priority,
        Kind::Xfx => priority.saturating_sub(1),
        Kind::Xfy => priority.saturating_sub(1),
        Kind::Fy => priority.saturating_sub(1),
        Kind::Fx => priority.saturating_sub(1),
        Kind::Xf => priority.saturating_sub(1),
    }
}

/// The largest priority of the operand on the right of an operator of this priority and kind.
pub fn right_max(priority: u16, kind: Kind) -> u16
    ensures { result ≡ right_argument (priority, kind) }
{
    match kind {
        Kind::Xfy => priority,
        Kind::Fy => priority,
        Kind::Xfx => priority.saturating_sub(1),
        Kind::Yfx => priority.saturating_sub(1),
        Kind::Fx => priority.saturating_sub(1),
        Kind::Xf => priority.saturating_sub(1),
        Kind::Yf => priority.saturating_sub(1),
    }
}
