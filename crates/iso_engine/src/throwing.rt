//! Balls that look for a catch (ISO 7.8.9, 7.8.10).
ghost use Rattle.std.specs.Prelude.{◌≡◌, IfOk, OnOk};
ghost use Rattle.iso_search.specs.Searching.{IsWhole};
ghost use Rattle.iso_engine.specs.declared.doing.Doing.TheVariants.{Throwing};
ghost use Rattle.iso_engine.specs.Following.{StepsTo};

use crate::doing::{Doing, End};
use iso_search::balls::Ball;
use iso_search::search::Search;
use iso_search::thrown::Thrown;
use pl_term::Memory;
use std::alloc::Global;

/// Brings a ball to the innermost active catch, whose exit stands among the tasks of a list. The only error is out of
/// memory.
pub fn throw(alloc: Global, search: &mut Search, ball: Ball, outer: usize) -> Result<Doing, Memory>
    requires { IsWhole search.old }
    ensures whole { OnOk result (IsWhole search.new) }
    ensures step { IfOk result (λ d. StepsTo search.old (Throwing ball outer) search.new d) }
    ensures budgets { OnOk result (search.new.budgets ≡ search.old.budgets) }
{
    let thrown = search.throw_ball(alloc, ball, outer)?;
    match thrown {
        Thrown::Run(list) => Ok(Doing::Running(list)),
        Thrown::Throw(again, rest) => Ok(Doing::Throwing {
            ball: again,
            outer: rest,
        }),
        Thrown::Uncaught(last) => Ok(Doing::Ended(End::Threw(last))),
    }
}
