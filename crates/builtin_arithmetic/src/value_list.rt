//! The values of terms that stand one after the other.
ghost use Rattle.std.specs.Prelude.{◌≡◌, [], ◌∷◌, ◌<◌, ◌≤◌, OnOk, drop, length};

use pl_model::evaluables::EvalFault;
use pl_term::Memory;
use std::alloc::Global;
use std::marker::Model;

/// The value of a term, or why it has none.
pub type Value = Result<i64, EvalFault>;

/// The values of terms from the left to the right. The leftmost one is kept last, so that it is put on and taken off at
/// the end of a vector.
#[derive(Drop)]
pub struct Values {
    all: Vec<Value>,
}

impl Model for Values {
    ghost use Rattle.std.specs.Prelude.{List, reverse};
    ghost use Rattle.pl_model.specs.Evaluables.{Evaluated};

    ghost Value = { List Evaluated };

    ghost view = { λ v. reverse v.all.items };
}

impl Values {
    /// No values.
    pub fn new(alloc: Global) -> Values
        ensures { result ≡ [] }
    {
        Values {
            all: Vec::new(alloc),
        }
    }

    /// Puts a value before the others.
    pub fn push(&mut self, value: Value) -> Result<(), Memory>
        ensures { OnOk result (self.new ≡ value ∷ self.old) }
    {
        self.all.push(value)?;
        Ok(())
    }

    /// Takes the first value.
    pub fn pop(&mut self) -> Value
        requires { 0 < length self.old }
        ensures { self.old ≡ result ∷ self.new }
    {
        self.all.pop().unwrap()
    }

    /// Takes away so many values from the first one on.
    pub fn discard(&mut self, count: u64)
        requires { count ≤ length self.old }
        ensures { self.new ≡ drop count self.old }
    {
        self.all.truncate(self.all.len() - count as usize);
    }
}
