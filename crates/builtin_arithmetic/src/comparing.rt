//! is/2 (ISO 8.6.1) and arithmetic comparison (ISO 8.7.1).
ghost use Rattle.std.specs.Prelude.{◌≡◌, ◌<◌, ◌^◌, ℕ, zero, [], ◌∷◌, codes, IfOk, Ok};
ghost use Rattle.pl_term.specs.Tree.{Tree, Trees};
ghost use Rattle.pl_model.specs.BuiltinRows.{one_answer, test};
ghost use Rattle.pl_model.specs.Evaluables.{evaluated};
ghost use Rattle.pl_model.specs.History.{Proc};
ghost use Rattle.pl_model.specs.TermBuiltins.{compares_values, evaluates};
ghost use Rattle.atom_api.specs.Names.{Names};
ghost use Rattle.term_store.specs.Contents.{Holds};
ghost use Rattle.world_builtins.specs.Naming.{IsHeldAt};
ghost use Rattle.world_builtins.specs.Spelling.{reads};
ghost use Rattle.builtin_rows.specs.Given.{answered, given};
ghost use Rattle.builtin_rows.specs.Rows.{IsRow, IsSingle, row_refusals};
ghost use Rattle.builtin_arithmetic.specs.Comparing.{Gives, holds_by, name_of};
ghost use Rattle.builtin_arithmetic.specs.Texts.{AreTexts};

use crate::comparisons::{holds, predicate_name};
use crate::errors::refused;
use crate::evaluation::value_at;
use atom_api::fixed;
use builtin_rows::{Comparison, Places, Row};
use pl_term::Memory;
use std::alloc::Global;
use term_store::{Place, Store, StoreFault};

/// is/2: one answer, with the value of the expression in the place of the first argument, whatever that is. Where the
/// expression has no value it raises the error of the first fault. The only error is out of memory.
pub fn evaluate(alloc: Global, store: &mut Store, expression: Place) -> Result<Row, Memory>
    requires { Holds store.old expression }
    ensures row { IfOk result (λ r. (m : Names) (t : Tree) → AreTexts m → IsHeldAt m store.old expression
        → Gives (codes "is") t (reads m store.old expression) (evaluates t (reads m store.old expression)) m store.old store.new r) }
    ensures refuses { IfOk result (λ r. row_refusals r ≡ []) }
    ensures single { IfOk result IsSingle }
{
    let value = value_at(alloc, store, expression)?;
    match value {
        Ok(x) => {
            let answer = Row::Answer {
                places: Places::Two(Place::integer(x), expression),
                fresh: 0,
            };
            let row = within_budget(store, answer)?;
            Ok(row)
        }
        Err(fault) => {
            let row = refused(store, fault, fixed::IS, 2)?;
            Ok(row)
        }
    }
}

/// Arithmetic comparison: whether the values of both terms compare so. The left one is evaluated first, and where one has no
/// value the error of the first fault is raised. The only error is out of memory.
pub fn compare_values(
    alloc: Global,
    store: &mut Store,
    comparison: Comparison,
    left: Place,
    right: Place,
) -> Result<Row, Memory>
    requires left { Holds store.old left }
    requires right { Holds store.old right }
    ensures row { IfOk result (λ r. (m : Names) → AreTexts m → IsHeldAt m store.old left → IsHeldAt m store.old right
        → Gives (name_of comparison) (reads m store.old left) (reads m store.old right)
        (compares_values (holds_by comparison) (reads m store.old left) (reads m store.old right)) m store.old store.new r) }
    ensures refuses { IfOk result (λ r. row_refusals r ≡ []) }
    ensures single { IfOk result IsSingle }
{
    let first = value_at(alloc, store, left)?;
    match first {
        Ok(x) => {
            let row = compare_with(alloc, store, comparison, x, right)?;
            Ok(row)
        }
        Err(fault) => {
            let row = refused(store, fault, predicate_name(comparison), 2)?;
            Ok(row)
        }
    }
}

/// Whether a number and the value of the term at a place compare so.
fn compare_with(
    alloc: Global,
    store: &mut Store,
    comparison: Comparison,
    x: i64,
    right: Place,
) -> Result<Row, Memory>
    requires { Holds store.old right }
    ensures row { IfOk result (λ r. (m : Names) (t : Tree) → AreTexts m → Ok x ≡ evaluated t → IsHeldAt m store.old right
        → Gives (name_of comparison) t (reads m store.old right) (compares_values (holds_by comparison) t (reads m store.old right)) m store.old store.new r) }
    ensures refuses { IfOk result (λ r. row_refusals r ≡ []) }
    ensures single { IfOk result IsSingle }
{
    let second = value_at(alloc, store, right)?;
    match second {
        Ok(y) => {
            let row = decided(store, holds(comparison, x, y))?;
            Ok(row)
        }
        Err(fault) => {
            let row = refused(store, fault, predicate_name(comparison), 2)?;
            Ok(row)
        }
    }
}

/// The row of a test. The only error is out of memory.
fn decided(store: &mut Store, holds: bool) -> Result<Row, Memory>
    ensures row { IfOk result (λ r. (m : Names) (next : ℕ) (p : Proc) (ts : Trees) → next < 2 ^ 64
        → IsRow store.old next ts (given p ts next store.old.used store.old.budget (test holds ts)) m store.new r) }
    ensures refuses { IfOk result (λ r. row_refusals r ≡ []) }
    ensures single { IfOk result IsSingle }
{
    if holds {
        let row = within_budget(store, Row::Holds)?;
        return Ok(row);
    }
    Ok(Row::Fails)
}

/// The row of one answer that takes no cells, where those that are used fit in the budget, which they do in every store. The
/// only error is out of memory.
fn within_budget(store: &mut Store, row: Row) -> Result<Row, Memory>
    ensures row { IfOk result (λ r. (m : Names) (next : ℕ) (p : Proc) (ts us : Trees) → next < 2 ^ 64
        → IsRow store.old next ts (answered (us ∷ []) zero zero) m store.old row
        → IsRow store.old next ts (given p ts next store.old.used store.old.budget (one_answer us)) m store.new r) }
    ensures refuses { row_refusals row ≡ [] → IfOk result (λ r. row_refusals r ≡ []) }
    ensures single { IsSingle row → IfOk result IsSingle }
{
    match store.charge(0) {
        Ok(()) => Ok(row),
        Err(StoreFault::CellsFull { used, need }) => Ok(Row::CellsFull { used, need }),
        Err(StoreFault::Memory) => Err(Memory),
    }
}
