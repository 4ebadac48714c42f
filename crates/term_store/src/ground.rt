//! Terms without variables (ISO Cor.2 8.3.10).
ghost use Rattle.std.specs.Prelude.{◌≡◌, ℕ, ◌||◌, ◌++◌, ◌∷◌, [], true, false, IfOk, OnOk};
ghost use Rattle.std.specs.List.{All};
ghost use Rattle.pl_term.specs.Variables.{has};
ghost use Rattle.pl_model.specs.Terms as terms;
ghost use Rattle.term_store.specs.Cells.{IsFit, IsFree, heap_of};
ghost use Rattle.term_store.specs.Contents.{Holds, term_at};
ghost use Rattle.term_store.specs.Fit.{IsIn};
ghost use Rattle.term_store.specs.Grounds.{AreClear};
ghost use Rattle.term_store.specs.Heap.{meaning};
ghost use Rattle.term_store.specs.Unifying.{any_has};

use crate::cells::{Cells, deref};
use crate::occurs::come_by;
use crate::pace::Pace;
use crate::store::Store;
use crate::walk::Walk;
use crate::words::{Place, Word};
use pl_term::Memory;

impl Store {
    /// Whether no variable occurs in the term at a place. It comes to each compound term once, as the occurs check does. The
    /// only error is out of memory.
    pub fn is_ground(&mut self, place: Place) -> Result<bool, Memory>
        requires { Holds self.old place }
        ensures same { self.new ≡ self.old }
        ensures ground { IfOk result (λ b. b ≡ terms.is_ground (term_at self.old place)) }
    {
        is_ground(&self.cells, &mut self.walk, place.word)
    }
}

/// Whether no variable occurs in what a word stands for. The only error is out of memory.
fn is_ground(cells: &Cells, walk: &mut Walk, word: Word) -> Result<bool, Memory>
    requires fit { IsFit cells.now }
    requires inside { IsIn (heap_of cells.now) word }
    ensures { IfOk result (λ b. b ≡ terms.is_ground (meaning (heap_of cells.now) word)) }
{
    walk.words.clear();
    walk.seen.clear();
    walk.pace = Pace::new();
    walk.words.push(word)?;
    for _ in 0..u64::MAX {
        let Some(next) = walk.words.pop() else {
            return Ok(true);
        };
        let at = deref(cells, next);
        if is_variable(cells, walk, at)? {
            return Ok(false);
        }
    }
    Err(Memory)
}

/// Whether the word is a variable. If not, the words of which it is made are still to be looked at, unless it is a compound
/// term that was come by before.
fn is_variable(cells: &Cells, walk: &mut Walk, at: Word) -> Result<bool, Memory>
    requires fit { IsFit cells.now }
    requires inside { IsIn (heap_of cells.now) at }
    requires free { IsFree (heap_of cells.now) at }
    requires others { All (IsIn (heap_of cells.now)) walk.old.words.items }
    requires seen { AreClear (heap_of cells.now) (walk.old.words.items ++ at ∷ []) walk.old.seen.list.items }
    ensures others { OnOk result (All (IsIn (heap_of cells.now)) walk.new.words.items) }
    ensures variable { IfOk result (λ b. b ≡ true → (x : ℕ) × (has x (meaning (heap_of cells.now) at) ≡ true)) }
    ensures found { IfOk result (λ b. b ≡ false → (x : ℕ) → any_has x (heap_of cells.now) walk.new.words.items
        ≡ (any_has x (heap_of cells.now) walk.old.words.items || has x (meaning (heap_of cells.now) at))) }
    ensures seen { IfOk result (λ b. b ≡ false → AreClear (heap_of cells.now) walk.new.words.items walk.new.seen.list.items) }
{
    match at {
        Word::Var(_) => Ok(true),
        Word::Int(_) => Ok(false),
        Word::Atom(_) => Ok(false),
        Word::Comp(k) => {
            come_by(cells, walk, k)?;
            Ok(false)
        }
    }
}
