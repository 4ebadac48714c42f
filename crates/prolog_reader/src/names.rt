//! The variables of a clause: their names and numbers.
ghost use Rattle.std.specs.Prelude.{◌≡◌, [], ◌+◌, ◌<◌, ◌≤◌, ◌^◌, IfOk};
ghost use Rattle.prolog_reader.specs.Names.{pairs, Numbers};

use crate::named::NamedVariables;
use pl_term::{Memory, Text};
use std::alloc::Global;

/// A named variable of a clause, with its number.
#[derive(Debug, Drop)]
pub struct NamedVariable {
    pub name: Text,
    pub variable: u64,
}

/// The variables of a clause so far: the named ones in order of first occurrence, and the next new number.
#[derive(Debug, Drop)]
pub struct Numbered {
    pub list: NamedVariables,
    pub next: u64,
}

impl Numbered {
    /// No variables.
    pub fn new(alloc: Global) -> Numbered
        ensures list { result.list ≡ [] }
        ensures next { result.next ≡ 0 }
    {
        Numbered {
            list: NamedVariables::new(alloc),
            next: 0,
        }
    }

    /// The number of the variable with this name: a new one for `_` and for a name that is new. The only error is
    /// Out of memory.
    pub fn number(&mut self, name: Text) -> Result<u64, Memory>
        requires { self.old.next < 2 ^ 63 }
        ensures numbers { IfOk result (λ n. Numbers self.old self.new name n) }
        ensures next { self.new.next ≤ self.old.next + 1 }
    {
        let next = self.next;
        if name.is("_") {
            self.next = next + 1;
            return Ok(next);
        }
        if let Some(number) = self.list.number_of(&name) {
            return Ok(number);
        }
        self.list.push(NamedVariable {
            name,
            variable: next,
        })?;
        self.next = next + 1;
        Ok(next)
    }
}
