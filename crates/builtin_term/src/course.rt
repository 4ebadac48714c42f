//! The compound terms that a walk is within, and those that it has left.
ghost use Rattle.std.specs.Prelude.{◌≡◌, [], IfOk, OnOk};
ghost use Rattle.builtin_term.specs.Courses.{Enters, Leaves, LeavesOne};

use pl_term::Memory;
use std::alloc::Global;
use term_store::{Arguments, KnownPair, KnownPairs};

/// A pair of compound terms whose parts stand on the stack of a walk from a height on.
#[derive(Clone, Copy, Drop)]
pub struct Opened {
    pub pair: KnownPair,
    pub height: usize,
}

/// The pairs of compound terms that a walk is within, the innermost last, and those that it has left. A walk through one
/// term has pairs of the same. Pairs are kept only as soon as the walk is long.
#[derive(Drop)]
pub struct Course {
    pub opened: Vec<Opened>,
    pub left: KnownPairs,
}

impl Course {
    /// The course of a walk that begins.
    pub fn new(alloc: Global) -> Course
        ensures opened { result.opened.items ≡ [] }
        ensures left { result.left ≡ [] }
    {
        Course {
            opened: Vec::new(alloc),
            left: KnownPairs::new(alloc),
        }
    }

    /// Begins a walk.
    pub fn clear(&mut self)
        ensures opened { self.new.opened.items ≡ [] }
        ensures left { self.new.left ≡ [] }
    {
        self.opened.clear();
        self.left.clear();
    }

    /// Enters a pair at this height of the stack. The answer is false where the walk has left it before. The only error is
    /// out of memory.
    pub fn enter(
        &mut self,
        left: Arguments,
        right: Arguments,
        height: usize,
    ) -> Result<bool, Memory>
        ensures enters { IfOk result (λ b. Enters b (record { left = left; right = right }) height self.old.opened.items self.old.left self.new.opened.items) }
        ensures left { OnOk result (self.new.left ≡ self.old.left) }
    {
        if !self.left.is_long(left, right) {
            return Ok(true);
        }
        if self.left.holds(left, right) {
            return Ok(false);
        }
        let pair = KnownPair { left, right };
        self.opened.push(Opened { pair, height })?;
        Ok(true)
    }

    /// Leaves the pairs of whose parts none is on the stack, which has this height. The only error is out of memory.
    pub fn leave(&mut self, height: usize) -> Result<(), Memory>
        ensures { OnOk result (Leaves height self.old.opened.items self.old.left self.new.opened.items self.new.left) }
    {
        for _ in 0..u64::MAX {
            if !self.leave_one(height)? {
                return Ok(());
            }
        }
        Err(Memory)
    }

    /// Leaves the innermost pair if none of its parts is on the stack, which has this height, and says whether it did. The only
    /// error is out of memory.
    fn leave_one(&mut self, height: usize) -> Result<bool, Memory>
        ensures { IfOk result (λ b. LeavesOne b height self.old.opened.items self.old.left self.new.opened.items self.new.left) }
    {
        let Some(last) = self.opened.pop() else {
            return Ok(false);
        };
        if last.height < height {
            self.opened.push(last)?;
            return Ok(false);
        }
        self.left.add(last.pair.left, last.pair.right)?;
        Ok(true)
    }
}
