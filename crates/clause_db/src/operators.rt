//! Operators that are put into the table.
ghost use Rattle.std.specs.Prelude.{◌≡◌, ◌∷◌, [], ◌⊎◌, Some, None, IfOk, IfErr, OnOk, OnErr, map};
ghost use Rattle.std.specs.Arc.{arc_value};
ghost use Rattle.pl_model.specs.SharedState.{with_operators};
ghost use Rattle.clause_db.specs.Operators.{shown, first_fault};
ghost use Rattle.op_table.specs.declared.fault.OpFault.TheVariants.{Memory as NoMemory};

use op_table::{OpFault, OpTable, Operator};
use std::alloc::Global;
use std::sync::Arc;

/// Puts these operators into the table, one after the other (op/3, ISO 8.14.3). A table on which nothing else has a handle is
/// changed where it stands, if the operator is one alone; else a second table takes its place. An error is the first cause of the
/// first operator that is refused at its turn, or out of memory; after an error the table is as it was.
pub fn put_operators(
    alloc: Global,
    table: &mut Arc<OpTable>,
    operators: &[Operator],
) -> Result<(), OpFault>
    ensures put { OnOk result ((first_fault operators.now (arc_value table.old) ≡ None) × (arc_value table.new ≡ with_operators (map shown operators.now) (arc_value table.old))) }
    ensures err { IfErr result (λ f. (f ≡ NoMemory) ⊎ (first_fault operators.now (arc_value table.old) ≡ Some f)) }
    ensures unchanged { OnErr result (arc_value table.new ≡ arc_value table.old) }
{
    if operators.len() == 1 {
        if let Some(own) = Arc::get_mut(table) {
            return put_operator(own, &operators[0]);
        }
    }
    let changed = table_with(alloc, table, operators)?;
    let Ok(shared) = Arc::new(alloc, changed) else {
        return Err(OpFault::Memory);
    };
    *table = shared;
    Ok(())
}

/// Puts an operator into a table.
fn put_operator(table: &mut OpTable, operator: &Operator) -> Result<(), OpFault>
    ensures put { OnOk result ((first_fault (operator.now ∷ []) table.old ≡ None) × (table.new ≡ with_operators (shown operator.now ∷ []) table.old)) }
    ensures err { IfErr result (λ f. (f ≡ NoMemory) ⊎ (first_fault (operator.now ∷ []) table.old ≡ Some f)) }
    ensures unchanged { OnErr result (table.new ≡ table.old) }
{
    table.add(operator.priority, operator.kind, &operator.name)
}

/// The table with these operators put into it, one after the other (op/3, ISO 8.14.3). An error is the first cause of the
/// first operator that is refused at its turn, or out of memory.
fn table_with(alloc: Global, table: &OpTable, operators: &[Operator]) -> Result<OpTable, OpFault>
    ensures put { IfOk result (λ t. (first_fault operators.now table.now ≡ None) × (t ≡ with_operators (map shown operators.now) table.now)) }
    ensures err { IfErr result (λ f. (f ≡ NoMemory) ⊎ (first_fault operators.now table.now ≡ Some f)) }
{
    let mut changed = table.copy(alloc)?;
    for operator in operators {
        changed.add(operator.priority, operator.kind, &operator.name)?;
    }
    Ok(changed)
}
