//! What is listed of a visit before the lock is taken.
ghost use Rattle.std.specs.Prelude.{◌≡◌, IfOk};

use counted_terms::CountedTerm;
use pl_term::Memory;
use std::alloc::Global;
use term_store::{ArgumentKey, Stored};
use world_api::Visit;

/// The same visit, with the atoms listed that its terms count. The only error is out of memory.
pub fn counted(
    alloc: Global,
    visit: Visit<Stored, ArgumentKey>,
) -> Result<Visit<CountedTerm, ArgumentKey>, Memory>
    ensures { IfOk result (λ v. v ≡ visit) }
{
    match visit {
        Visit::Look => Ok(Visit::Look),
        Visit::ReadOperators => Ok(Visit::ReadOperators),
        Visit::Call { procedure, first } => Ok(Visit::Call { procedure, first }),
        Visit::Inspect { procedure, first } => Ok(Visit::Inspect { procedure, first }),
        Visit::Retract { procedure, first } => Ok(Visit::Retract { procedure, first }),
        Visit::Clear { procedure, first } => Ok(Visit::Clear { procedure, first }),
        Visit::Next {
            procedure,
            first,
            generation,
            place,
        } => Ok(Visit::Next {
            procedure,
            first,
            generation,
            place,
        }),
        Visit::Erase { place } => Ok(Visit::Erase { place }),
        Visit::AssertFirst { clause } => {
            let clause = counted_clause(alloc, &clause)?;
            Ok(Visit::AssertFirst { clause })
        }
        Visit::AssertLast { clause } => {
            let clause = counted_clause(alloc, &clause)?;
            Ok(Visit::AssertLast { clause })
        }
        Visit::Consult { clause } => {
            let clause = counted_clause(alloc, &clause)?;
            Ok(Visit::Consult { clause })
        }
        Visit::Abolish { procedure } => Ok(Visit::Abolish { procedure }),
        Visit::MakeDynamic { procedures } => Ok(Visit::MakeDynamic { procedures }),
        Visit::AllProcedures => Ok(Visit::AllProcedures),
        Visit::PutOperators {
            priority,
            kind,
            names,
        } => Ok(Visit::PutOperators {
            priority,
            kind,
            names,
        }),
        Visit::PutFlag { flag, value } => Ok(Visit::PutFlag { flag, value }),
        Visit::AllFlags => Ok(Visit::AllFlags),
        Visit::AllOperators => Ok(Visit::AllOperators),
        Visit::OwnName => Ok(Visit::OwnName),
        Visit::CreateThread {
            goal,
            aliases,
            error,
        } => {
            let goal = CountedTerm::new(alloc, goal)?;
            let error = counted_if_some(alloc, error)?;
            Ok(Visit::CreateThread {
                goal,
                aliases,
                error,
            })
        }
        Visit::StartGoal { number, goal } => {
            let goal = CountedTerm::new(alloc, goal)?;
            Ok(Visit::StartGoal { number, goal })
        }
        Visit::JoinThread { thread } => {
            let thread = CountedTerm::new(alloc, thread)?;
            Ok(Visit::JoinThread { thread })
        }
        Visit::SendMessage { queue, message } => {
            let queue = CountedTerm::new(alloc, queue)?;
            let message = CountedTerm::new(alloc, message)?;
            Ok(Visit::SendMessage { queue, message })
        }
        Visit::GetMessage { queue, pattern } => {
            let queue = counted_if_some(alloc, queue)?;
            let pattern = CountedTerm::new(alloc, pattern)?;
            Ok(Visit::GetMessage { queue, pattern })
        }
        Visit::PeekMessage { queue, pattern } => {
            let queue = counted_if_some(alloc, queue)?;
            let pattern = CountedTerm::new(alloc, pattern)?;
            Ok(Visit::PeekMessage { queue, pattern })
        }
        Visit::CreateQueue { alias } => Ok(Visit::CreateQueue { alias }),
        Visit::DestroyQueue { queue } => {
            let queue = CountedTerm::new(alloc, queue)?;
            Ok(Visit::DestroyQueue { queue })
        }
        Visit::CollectAtoms => Ok(Visit::CollectAtoms),
        Visit::CollectClauses => Ok(Visit::CollectClauses),
    }
}

// The same clause, in the form in which it is entered at a call.
fn counted_clause(alloc: Global, clause: &Stored) -> Result<CountedTerm, Memory>
    ensures { IfOk result (λ c. c ≡ clause.now) }
{
    let clause = Stored::clause_from_nodes(alloc, clause.nodes())?;
    CountedTerm::new(alloc, clause)
}

// The same term, where there is one.
fn counted_if_some(alloc: Global, term: Option<Stored>) -> Result<Option<CountedTerm>, Memory>
    ensures { IfOk result (λ t. t ≡ term) }
{
    match term {
        None => Ok(None),
        Some(term) => {
            let term = CountedTerm::new(alloc, term)?;
            Ok(Some(term))
        }
    }
}
