//! By which replies the rows of predicates follow.
ghost use Rattle.std.specs.Prelude.{◌≡◌};
ghost use Rattle.shared_builtins.specs.Following.{following_of, following_one, following_three, following_two};

use crate::preds::{StateOne, StatePred, StateThree, StateTwo};

/// How the row of a predicate follows from the reply.
#[derive(Clone, Copy, Drop)]
pub enum Following {
    /// It succeeds when the request is done.
    Succeeds,
    /// It gives the name of a thread or a queue.
    Names,
    /// It gives a message.
    Messages,
    /// It gives how a thread ended.
    Statuses,
    /// It gives the procedures, one after the other.
    Procedures,
    /// It gives the flags, one after the other.
    Flags,
    /// It gives the operators, one after the other.
    Operators,
}

/// How the row of this predicate follows.
pub fn following_of(pred: StatePred) -> Following
    ensures { result ≡ following_of pred }
{
    match pred {
        StatePred::One(pred) => following_one(pred),
        StatePred::Two(pred) => following_two(pred),
        StatePred::Three(pred) => following_three(pred),
    }
}

fn following_one(pred: StateOne) -> Following
    ensures { result ≡ following_one pred }
{
    match pred {
        StateOne::Asserta => Following::Succeeds,
        StateOne::Assertz => Following::Succeeds,
        StateOne::Abolish => Following::Succeeds,
        StateOne::Dynamic => Following::Succeeds,
        StateOne::Declares => Following::Succeeds,
        StateOne::CurrentPredicate => Following::Procedures,
        StateOne::ThreadSelf => Following::Names,
        StateOne::GetOwn => Following::Messages,
        StateOne::PeekOwn => Following::Messages,
        StateOne::CreateQueue => Following::Names,
        StateOne::DestroyQueue => Following::Succeeds,
    }
}

fn following_two(pred: StateTwo) -> Following
    ensures { result ≡ following_two pred }
{
    match pred {
        StateTwo::SetFlag => Following::Succeeds,
        StateTwo::CurrentFlag => Following::Flags,
        StateTwo::CreateThread => Following::Names,
        StateTwo::JoinThread => Following::Statuses,
        StateTwo::Send => Following::Succeeds,
        StateTwo::Get => Following::Messages,
        StateTwo::Peek => Following::Messages,
    }
}

fn following_three(pred: StateThree) -> Following
    ensures { result ≡ following_three pred }
{
    match pred {
        StateThree::Op => Following::Succeeds,
        StateThree::CurrentOp => Following::Operators,
        StateThree::CreateThread => Following::Names,
    }
}
