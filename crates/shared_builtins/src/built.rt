//! The predicates of the shared state by their names.
ghost use Rattle.std.specs.Prelude.{◌<◌, None, IfNone, IfSome};
ghost use Rattle.builtin_rows.specs.Laws.{TellsShared};
ghost use Rattle.shared_builtins.specs.Goals.{IsOff, IsPredicate, thread_names};

use crate::preds::{StateOne, StatePred, StateThree, StateTwo};
use atom_api::{Atom, fixed};

/// The predicate of the shared state with this name and so many arguments, if there is one. Those without arguments are not among
/// them.
pub fn built_pred(name: Atom, arity: usize) -> Option<StatePred>
    ensures some { IfSome result (IsPredicate name arity) }
    ensures none { IfNone result (0 < arity → TellsShared name arity None) }
{
    match arity {
        1 => one_pred(name),
        2 => two_pred(name),
        3 => three_pred(name),
        _ => None,
    }
}

/// That of one argument.
fn one_pred(name: Atom) -> Option<StatePred>
    ensures some { IfSome result (IsPredicate name 1) }
    ensures none { IfNone result (TellsShared name 1 None) }
{
    if name == fixed::ASSERTA {
        Some(StatePred::One(StateOne::Asserta))
    } else if name == fixed::ASSERTZ {
        Some(StatePred::One(StateOne::Assertz))
    } else if name == fixed::ASSERT {
        Some(StatePred::One(StateOne::Assertz))
    } else if name == fixed::ABOLISH {
        Some(StatePred::One(StateOne::Abolish))
    } else if name == fixed::DYNAMIC {
        Some(StatePred::One(StateOne::Dynamic))
    } else if name == fixed::DISCONTIGUOUS {
        Some(StatePred::One(StateOne::Declares))
    } else if name == fixed::MULTIFILE {
        Some(StatePred::One(StateOne::Declares))
    } else if name == fixed::CURRENT_PREDICATE {
        Some(StatePred::One(StateOne::CurrentPredicate))
    } else {
        thread_pred(name)
    }
}

/// That of one argument on threads and queues.
fn thread_pred(name: Atom) -> Option<StatePred>
    ensures some { IfSome result (IsPredicate name 1) }
    ensures none { IfNone result (IsOff name thread_names) }
{
    if name == fixed::THREAD_SELF {
        Some(StatePred::One(StateOne::ThreadSelf))
    } else if name == fixed::THREAD_GET_MESSAGE {
        Some(StatePred::One(StateOne::GetOwn))
    } else if name == fixed::THREAD_PEEK_MESSAGE {
        Some(StatePred::One(StateOne::PeekOwn))
    } else if name == fixed::MESSAGE_QUEUE_CREATE {
        Some(StatePred::One(StateOne::CreateQueue))
    } else if name == fixed::MESSAGE_QUEUE_DESTROY {
        Some(StatePred::One(StateOne::DestroyQueue))
    } else {
        None
    }
}

/// That of two arguments.
fn two_pred(name: Atom) -> Option<StatePred>
    ensures some { IfSome result (IsPredicate name 2) }
    ensures none { IfNone result (TellsShared name 2 None) }
{
    if name == fixed::SET_PROLOG_FLAG {
        Some(StatePred::Two(StateTwo::SetFlag))
    } else if name == fixed::CURRENT_PROLOG_FLAG {
        Some(StatePred::Two(StateTwo::CurrentFlag))
    } else if name == fixed::THREAD_CREATE {
        Some(StatePred::Two(StateTwo::CreateThread))
    } else if name == fixed::THREAD_JOIN {
        Some(StatePred::Two(StateTwo::JoinThread))
    } else if name == fixed::THREAD_SEND_MESSAGE {
        Some(StatePred::Two(StateTwo::Send))
    } else if name == fixed::THREAD_GET_MESSAGE {
        Some(StatePred::Two(StateTwo::Get))
    } else if name == fixed::THREAD_PEEK_MESSAGE {
        Some(StatePred::Two(StateTwo::Peek))
    } else {
        None
    }
}

/// That of three arguments.
fn three_pred(name: Atom) -> Option<StatePred>
    ensures some { IfSome result (IsPredicate name 3) }
    ensures none { IfNone result (TellsShared name 3 None) }
{
    if name == fixed::OP {
        Some(StatePred::Three(StateThree::Op))
    } else if name == fixed::CURRENT_OP {
        Some(StatePred::Three(StateThree::CurrentOp))
    } else if name == fixed::THREAD_CREATE {
        Some(StatePred::Three(StateThree::CreateThread))
    } else {
        None
    }
}
