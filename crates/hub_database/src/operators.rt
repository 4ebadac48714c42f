//! Operators are put into the table (op/3, ISO 8.14.3).
ghost use Rattle.std.specs.Prelude.{◌≡◌, [], ◌<◌, ℕ, Some, None, IsSome, IfOk, IfSome, bytes_eq, codes, length, map, pos, take, false, is_some};
ghost use Rattle.std.specs.Str.{chars};
ghost use Rattle.std.specs.Option.{MatchOption, option_and_then};
ghost use Rattle.std.specs.List.{All, list_any, slice_get};
ghost use Rattle.pl_term.specs.Tree.{Chars, atom, int};
ghost use Rattle.pl_model.specs.ErrorTerms as terms;
ghost use Rattle.pl_model.specs.History as entries;
ghost use Rattle.pl_model.specs.OperatorTable as definitions;
ghost use Rattle.pl_model.specs.Requests as requests;
ghost use Rattle.pl_model.specs.Service.{operator_error};
ghost use Rattle.atom_api.specs.Fixed as texts;
ghost use Rattle.atom_words.specs.Seats.{seen};
ghost use Rattle.atom_words.specs.declared.view.View.{View};
ghost use Rattle.atom_table.specs.Naming.{names};
ghost use Rattle.op_table.specs.Faults.{fault_of};
ghost use Rattle.clause_db.specs.Operators.{first_fault, shown};
ghost use Rattle.world_api.specs.declared.reply.Reply.TheVariants.{Done};
ghost use Rattle.world_api.specs.Texts.{text_of};
ghost use Rattle.counted_terms.specs.Rows.{row_names, row_refusals};
ghost use Rattle.hub_database.specs.Database.{IsDatabase, IsUpTo, clause_counts};
ghost use Rattle.hub_database.specs.Operators.{fault_in, operators_by, operators_put};
ghost use Rattle.hub_database.specs.Rows.{Decides, IsErrorTerm, IsQuiet, Updates, generation_after, history_after};

use crate::naming::name_text;
use crate::refusals::{refusal, worn_error};
use atom_api::{Atom, fixed};
use atom_table::{NamesTable, TableAtoms};
use clause_db::{Db, Kind, OpFault, OpTable, Operator};
use counted_terms::{CountedTerm, MOST_UPDATES, Row, atom_term, permission_error};
use pl_term::{Memory, Text};
use std::alloc::Global;
use term_store::{AtomNode, Stored};
use world_api::Reply;

// ISO 6.3.4.2.
const HIGHEST_PRIORITY: u16 = 1200;

/// Each of the atoms names an operator of this priority and kind from now on; priority 0 takes the operator away. The first
/// that is refused is the error, and none is changed then.
pub fn put_operators<K: NamesTable>(
    alloc: Global,
    db: &mut Db<CountedTerm>,
    atoms: &mut TableAtoms<K>,
    priority: u16,
    kind: Kind,
    operators: &[Atom],
    generation: u64,
) -> Row
    requires upto { IsUpTo generation db.old }
    requires held { All (λ (a : ℕ). IsSome (names (seen atoms.old.seat) a)) operators.now }
    ensures weighs { (a : ℕ) → clause_counts db.new a ≡ clause_counts db.old a }
    ensures upto { IsUpTo (generation_after result generation) db.new }
    ensures floor { db.new.floor ≡ db.old.floor }
    ensures quiet { IsQuiet (seen atoms.old.seat) (seen atoms.new.seat) }
    ensures named { All (λ a. IsSome (names (seen atoms.new.seat) a)) (row_names result) }
    ensures unrefused { row_refusals result ≡ [] }
    ensures says { (k : View) (goals e : ℕ) (h : entries.History) → length h ≡ generation → IsDatabase k db.old goals h
        → Decides goals e (text_of (names (seen atoms.new.seat))) (requests.put_operators priority kind (map (text_of (names (seen atoms.old.seat))) operators.now)) h (operators_put priority kind (map (text_of (names (seen atoms.old.seat))) operators.now)) k db.new result }
{
    let Ok(rows) = spelled_operators(alloc, atoms, priority, kind, operators) else {
        return Row::Memory;
    };
    match first_refused(db.operators(), rows.as_slice()) {
        Some((i, fault)) => refusal(operator_error(alloc, fault, priority, operators[i])),
        None => set_operators(alloc, db, rows.as_slice(), generation),
    }
}

// The operators, none of which is refused, are put into the table.
fn set_operators(alloc: Global, db: &mut Db<CountedTerm>, rows: &[Operator], generation: u64) -> Row
    requires upto { IsUpTo generation db.old }
    requires granted { first_fault rows.now db.old.operators ≡ None }
    ensures weighs { (a : ℕ) → clause_counts db.new a ≡ clause_counts db.old a }
    ensures upto { IsUpTo (generation_after result generation) db.new }
    ensures floor { db.new.floor ≡ db.old.floor }
    ensures unrefused { row_refusals result ≡ [] }
    ensures says { Updates generation Done result }
    ensures database { (k : View) (goals e : ℕ) (h : entries.History) → length h ≡ generation → IsDatabase k db.old goals h
        → IsDatabase k db.new goals (history_after e result (entries.set_op (map shown rows.now)) h) }
{
    if generation >= MOST_UPDATES {
        return refusal(worn_error(alloc));
    }
    match db.set_op(rows, generation) {
        Ok(()) => Row::Makes(Reply::Done),
        Err(OpFault::Memory) => Row::Memory,
        Err(_) => unreachable!(),
    }
}

// The operators of these names, by what the engine holds. The only error is out of memory.
fn spelled_operators<K: NamesTable>(
    alloc: Global,
    atoms: &mut TableAtoms<K>,
    priority: u16,
    kind: Kind,
    operators: &[Atom],
) -> Result<Vec<Operator>, Memory>
    requires { All (λ (a : ℕ). IsSome (names (seen atoms.old.seat) a)) operators.now }
    ensures spelled { IfOk result (λ v. v.items ≡ operators_by priority kind (map (text_of (names (seen atoms.old.seat))) operators.now)) }
    ensures held { names (seen atoms.new.seat) ≡ names (seen atoms.old.seat) }
    ensures quiet { IsQuiet (seen atoms.old.seat) (seen atoms.new.seat) }
{
    let mut rows = Vec::new(alloc);
    for i in 0..operators.len() {
        let name = name_text(alloc, atoms, operators[i])?;
        rows.push(Operator {
            name,
            priority,
            kind,
        })?;
    }
    Ok(rows)
}

// At which index the first of the operators stands that the table refuses, and why.
fn first_refused(table: &OpTable, rows: &[Operator]) -> Option<(usize, OpFault)>
    ensures within { IfSome result (λ x. x.0 < length rows.now) }
    ensures first { MatchOption result
        (list_any (λ o. is_some (fault_in table.now o)) rows.now ≡ false)
        (λ x. (list_any (λ o. is_some (fault_in table.now o)) (take x.0 rows.now) ≡ false) × (option_and_then (fault_in table.now) (slice_get rows.now x.0) ≡ Some x.1)) }
{
    for i in 0..rows.len() {
        match operator_fault(table, &rows[i]) {
            Some(fault) => return Some((i, fault)),
            None => {}
        }
    }
    None
}

// Why the table refuses the operator, if it does: the first cause in the order of ISO 8.14.3.3.
fn operator_fault(table: &OpTable, operator: &Operator) -> Option<OpFault>
    ensures { result ≡ fault_in table.now operator.now }
{
    if operator.priority > HIGHEST_PRIORITY {
        return Some(OpFault::Priority);
    }
    if is_spelled(&operator.name, ",") {
        return Some(OpFault::Comma);
    }
    if is_reserved(&operator.name) {
        return Some(OpFault::Reserved);
    }
    if operator.priority == 0 {
        return None;
    }
    if stands_beside(table, &operator.name, operator.kind) {
        return Some(OpFault::InfixPostfix);
    }
    None
}

// Whether a name is the text that `s` spells.
fn is_spelled(name: &Text, s: &str) -> bool
    ensures { result ≡ bytes_eq name.now (chars s.now) }
{
    name.is(s)
}

// Whether a name is one of `.`, `|`, `[]` and `{}`.
fn is_reserved(name: &Text) -> bool
    ensures { result ≡ definitions.is_reserved name.now }
{
    if is_spelled(name, ".") {
        return true;
    }
    if is_spelled(name, "|") {
        return true;
    }
    if is_spelled(name, "[]") {
        return true;
    }
    is_spelled(name, "{}")
}

// Whether a name is an infix operator where it is to be a postfix one, or the other way round.
fn stands_beside(table: &OpTable, name: &Text, kind: Kind) -> bool
    ensures { result ≡ definitions.stands_beside table.now name.now (definitions.place_of kind) }
{
    match kind {
        Kind::Fx => false,
        Kind::Fy => false,
        Kind::Xf => table.infix(name).is_some(),
        Kind::Yf => table.infix(name).is_some(),
        Kind::Xfx => table.postfix(name).is_some(),
        Kind::Xfy => table.postfix(name).is_some(),
        Kind::Yfx => table.postfix(name).is_some(),
    }
}

// The error of an operator that is refused (ISO 8.14.3.3). The only error is out of memory.
fn operator_error(
    alloc: Global,
    fault: OpFault,
    priority: u16,
    name: Atom,
) -> Result<Stored, Memory>
    ensures { (r : definitions.Refusal) → fault ≡ fault_of r → IfOk result (IsErrorTerm (Some name) (λ m. operator_error priority (text_of m name) r)) }
{
    match fault {
        OpFault::Priority => priority_error(alloc, priority),
        OpFault::Kind => Err(Memory),
        OpFault::Comma => change_error(alloc, fixed::MODIFY, name),
        OpFault::Reserved => change_error(alloc, fixed::CREATE, name),
        OpFault::InfixPostfix => change_error(alloc, fixed::CREATE, name),
        OpFault::Memory => Err(Memory),
    }
}

// The priority is none (ISO 8.14.3.3 a). The only error is out of memory.
fn priority_error(alloc: Global, priority: u16) -> Result<Stored, Memory>
    ensures { IfOk result (IsErrorTerm None (λ m. terms.domain_error (codes "operator_priority") (int (pos priority)))) }
{
    Stored::from_nodes(
        alloc,
        &[
            AtomNode::Comp(fixed::DOMAIN_ERROR.slot(), 2),
            AtomNode::Atom(fixed::OPERATOR_PRIORITY.slot()),
            AtomNode::Int(i64::from(priority)),
        ],
    )
}

// The operator must not be changed or made (ISO 8.14.3.3 b). The only error is out of memory.
fn change_error(alloc: Global, action: Atom, name: Atom) -> Result<Stored, Memory>
    ensures { (t : Chars) → texts.fixed action ≡ Some t → IfOk result (IsErrorTerm (Some name) (λ m. terms.permission_error t (codes "operator") (atom (text_of m name)))) }
{
    let culprit = atom_term(alloc, name)?;
    permission_error(alloc, action, fixed::OPERATOR, &culprit)
}
