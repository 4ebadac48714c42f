//! Refusals with an error term (ISO 7.12.2).
ghost use Rattle.std.specs.Prelude.{◌≡◌, [], ℕ, IfOk, Option, None, Some, codes};
ghost use Rattle.pl_term.specs.Tree.{Tree};
ghost use Rattle.pl_model.specs.Errors as errors;
ghost use Rattle.pl_model.specs.ErrorTerms as terms;
ghost use Rattle.atom_api.specs.Names.{Names};
ghost use Rattle.world_api.specs.Texts.{text_of};
ghost use Rattle.world_api.specs.Visits.{proc_named};
ghost use Rattle.counted_terms.specs.Rows.{row_refusals};
ghost use Rattle.hub_database.specs.Rows.{IsErrorTerm, IsReply, Refuses};

use atom_api::fixed;
use counted_terms::{Row, existence_error, indicator_term, permission_error, resource_error};
use pl_term::Memory;
use std::alloc::Global;
use term_store::Stored;
use world_api::{Procedure, Reply};

// The predicate once more.
fn copied(p: &Procedure) -> Procedure
    ensures { result ≡ p.now }
{
    Procedure {
        name: p.name,
        arity: p.arity,
    }
}

/// The refusal with this error, or out of memory.
pub(crate) fn refusal(error: Result<Stored, Memory>) -> Row
    ensures refuses { (a : Option ℕ) (term : Names → Tree) → IfOk error (IsErrorTerm a term) → Refuses a term result }
    ensures replies { IsReply result }
    ensures unrefused { row_refusals result ≡ [] }
{
    match error {
        Ok(error) => Row::Reads(Reply::Refused(error)),
        Err(Memory) => Row::Memory,
    }
}

/// No more updates can be made (ISO 7.12.2 h). The only error is out of memory.
pub(crate) fn worn_error(alloc: Global) -> Result<Stored, Memory>
    ensures { IfOk result (IsErrorTerm None (λ m. terms.resource_error (codes "generations"))) }
{
    resource_error(alloc, fixed::GENERATIONS)
}

/// The stored clauses would take too many cells (ISO 7.12.2 h). The only error is out of memory.
pub(crate) fn cells_error(alloc: Global) -> Result<Stored, Memory>
    ensures { IfOk result (IsErrorTerm None (λ m. terms.resource_error (codes "database"))) }
{
    resource_error(alloc, fixed::DATABASE)
}

/// The procedure is static (ISO 7.12.2 e). The only error is out of memory.
pub(crate) fn static_error(alloc: Global, p: &Procedure) -> Result<Stored, Memory>
    ensures { IfOk result (IsErrorTerm (Some p.now.name) (λ m. errors.static_procedure (proc_named (text_of m) p.now))) }
{
    let culprit = indicator_term(alloc, copied(p))?;
    permission_error(alloc, fixed::MODIFY, fixed::STATIC_PROCEDURE, &culprit)
}

/// The clauses of the procedure are private (ISO 8.8.1.3 c). The only error is out of memory.
pub(crate) fn private_error(alloc: Global, p: &Procedure) -> Result<Stored, Memory>
    ensures { IfOk result (IsErrorTerm (Some p.now.name) (λ m. terms.private_procedure (proc_named (text_of m) p.now))) }
{
    let culprit = indicator_term(alloc, copied(p))?;
    permission_error(alloc, fixed::ACCESS, fixed::PRIVATE_PROCEDURE, &culprit)
}

/// The procedure is not there (ISO 7.12.2 d). The only error is out of memory.
pub(crate) fn unknown_error(alloc: Global, p: &Procedure) -> Result<Stored, Memory>
    ensures { IfOk result (IsErrorTerm (Some p.now.name) (λ m. errors.unknown_procedure (proc_named (text_of m) p.now))) }
{
    let culprit = indicator_term(alloc, copied(p))?;
    existence_error(alloc, fixed::PROCEDURE, &culprit)
}
