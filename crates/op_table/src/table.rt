//! The table.
ghost use Rattle.std.specs.Prelude.{◌≡◌, Some, None, Ok, Err, IsTrue, IfOk, IfSome, IfNone, OnErr, OnOk};
ghost use Rattle.std.specs.Result.{MatchResult};
ghost use Rattle.std.specs.Option.{option_map};
ghost use Rattle.std.specs.FinMap as finite;
ghost use Rattle.pl_model.specs.OperatorTable.{operator_at, operators, opening_table, place_of, refusal, changed, stands_beside, is_placed};
ghost use Rattle.pl_model.specs.declared.operators.Place.TheVariants.{Prefix, Infix, Postfix};
ghost use Rattle.op_table.specs.Entries.{entries_of};
ghost use Rattle.op_table.specs.Faults.{fault_of};
ghost use Rattle.op_table.specs.declared.fault.OpFault.TheVariants.{Memory as NoMemory};

use crate::fault::OpFault;
use crate::iso::{OPENING, operators_of};
use crate::names::{is_reserved, is_spelled};
use crate::operator::{Operator, copies, place_of};
use crate::search::search;
use pl_model::operators::{Kind, Place};
use pl_term::{Memory, Text};
use std::alloc::Global;
use std::marker::Model;

/// The highest priority of an operator (ISO 6.3.4.2).
const HIGHEST_PRIORITY: u16 = 1200;

/// The table of operators, seen by contracts as the finite map from a name and a place to a priority and a
/// specifier. A look-up compares about as many names as the number of operators has binary digits.
#[derive(Debug, Drop)]
pub struct OpTable {
    alloc: Global,
    operators: Vec<Operator>,
}

impl Model for OpTable {
    ghost use Rattle.pl_model.specs.OperatorTable.{OperatorTable, table_code};
    ghost use Rattle.op_table.specs.Entries.{table_of, InOrder};

    ghost Value = { OperatorTable };

    ghost coded = { table_code };

    ghost view = { λ t. table_of t.operators.items };

    ghost invariant = { λ t. InOrder t.operators.items };
}

impl OpTable {
    /// The operators at the start. The only error is out of memory.
    pub fn iso(alloc: Global) -> Result<OpTable, Memory>
        ensures { IfOk result (λ t. t ≡ opening_table) }
    {
        let operators = operators_of(alloc, &OPENING)?;
        Ok(OpTable { alloc, operators })
    }

    /// A second table with the same operators. The only error is out of memory.
    pub fn copy(&self, alloc: Global) -> Result<OpTable, Memory>
        ensures { IfOk result (λ t. t ≡ self.now) }
    {
        let operators = copies(alloc, self.operators.as_slice())?;
        Ok(OpTable { alloc, operators })
    }

    /// Makes an operator of this priority, kind and name, in the place of the one that this name has before, between
    /// or after arguments; priority 0 takes that one away (op/3, ISO 8.14.3). An error is the first cause in the
    /// order of `OpFault`; after an error the table is as it was. `Memory` comes only where the name is new there.
    pub fn add(&mut self, pri: u16, kind: Kind, name: &Text) -> Result<(), OpFault>
        // A refused change is answered by its first cause.
        ensures refused { IfSome (refusal self.old pri (Some kind) name.now) (λ r. result ≡ Err (fault_of r)) }
        // Any other is made, or there is no memory for it.
        ensures made { IfNone (refusal self.old pri (Some kind) name.now)
            (MatchResult result (λ _. self.new ≡ changed self.old pri kind name.now) (λ f. f ≡ NoMemory)) }
        ensures unchanged { OnErr result (self.new ≡ self.old) }
        // Memory is wanted only for an operator that is new at its place.
        ensures memory { result ≡ Err NoMemory → operator_at self.old name.now (place_of kind) ≡ None }
    {
        if let Some(fault) = self.fault(pri, kind, name) {
            return Err(fault);
        }
        if pri == 0 {
            self.take_away(name, place_of(kind));
        } else {
            self.put(pri, kind, name)?;
        }
        Ok(())
    }

    /// The prefix operator of this name, if there is one: its priority and its kind. It takes no memory.
    pub fn prefix(&self, name: &Text) -> Option<(u16, Kind)>
        ensures entry { result ≡ operator_at self.now name.now Prefix }
        ensures kind { IfSome result (λ o. place_of o.1 ≡ Prefix) }
    {
        self.find(name, Place::Prefix)
    }

    /// The infix operator of this name, if there is one: its priority and its kind. It takes no memory.
    pub fn infix(&self, name: &Text) -> Option<(u16, Kind)>
        ensures entry { result ≡ operator_at self.now name.now Infix }
        ensures kind { IfSome result (λ o. place_of o.1 ≡ Infix) }
    {
        self.find(name, Place::Infix)
    }

    /// The postfix operator of this name, if there is one: its priority and its kind. It takes no memory.
    pub fn postfix(&self, name: &Text) -> Option<(u16, Kind)>
        ensures entry { result ≡ operator_at self.now name.now Postfix }
        ensures kind { IfSome result (λ o. place_of o.1 ≡ Postfix) }
    {
        self.find(name, Place::Postfix)
    }

    /// The operators, each once, in the standard order of their names, and for a name first the prefix, then the
    /// infix, then the postfix operator (current_op/3, ISO 8.14.4).
    pub fn operators(&self) -> &[Operator]
        ensures entries { entries_of result.now ≡ operators self.now }
        ensures placed { IsTrue (is_placed self.now) }
    {
        self.operators.as_slice()
    }

    /// The operator of a name at a place.
    fn find(&self, name: &Text, place: Place) -> Option<(u16, Kind)>
        ensures entry { result ≡ operator_at self.now name.now place }
        ensures kind { IfSome result (λ o. place_of o.1 ≡ place) }
    {
        match search(self.operators.as_slice(), name, place) {
            Ok(i) => {
                let operator = &self.operators[i];
                Some((operator.priority, operator.kind))
            }
            Err(_) => None,
        }
    }

    /// Why a change is refused, if it is.
    fn fault(&self, pri: u16, kind: Kind, name: &Text) -> Option<OpFault>
        ensures { result ≡ option_map fault_of (refusal self.now pri (Some kind) name.now) }
    {
        if pri > HIGHEST_PRIORITY {
            return Some(OpFault::Priority);
        }
        if is_spelled(name, ",") {
            return Some(OpFault::Comma);
        }
        if is_reserved(name) {
            return Some(OpFault::Reserved);
        }
        if pri == 0 {
            return None;
        }
        if self.stands_beside(name, place_of(kind)) {
            return Some(OpFault::InfixPostfix);
        }
        None
    }

    /// Whether a name is an infix operator where it is to be a postfix one, or the other way round.
    fn stands_beside(&self, name: &Text, place: Place) -> bool
        ensures { result ≡ stands_beside self.now name.now place }
    {
        match place {
            Place::Prefix => false,
            Place::Infix => self.find(name, Place::Postfix).is_some(),
            Place::Postfix => self.find(name, Place::Infix).is_some(),
        }
    }

    /// Takes the operator of a name and place away, if there is one.
    fn take_away(&mut self, name: &Text, place: Place)
        ensures { self.new ≡ finite.remove self.old (name.now, place) }
    {
        match search(self.operators.as_slice(), name, place) {
            Ok(i) => {
                self.operators.remove(i);
            }
            Err(_) => {}
        }
    }

    /// Puts an operator in the place of the one that this name has there. The only error is out of memory, and then
    /// nothing has changed.
    fn put(&mut self, pri: u16, kind: Kind, name: &Text) -> Result<(), Memory>
        ensures ok { OnOk result (self.new ≡ finite.insert self.old (name.now, place_of kind) (pri, kind)) }
        ensures err { OnErr result (self.new ≡ self.old) }
        ensures absent { OnErr result (operator_at self.old name.now (place_of kind) ≡ None) }
    {
        match search(self.operators.as_slice(), name, place_of(kind)) {
            Ok(i) => {
                let operator = &mut self.operators[i];
                operator.priority = pri;
                operator.kind = kind;
            }
            Err(i) => {
                let name = name.copy(self.alloc)?;
                self.operators.insert(
                    i,
                    Operator {
                        name,
                        priority: pri,
                        kind,
                    },
                )?;
            }
        }
        Ok(())
    }
}
