//! Pairs of places whose terms are still to be compared.
ghost use Rattle.std.specs.Prelude.{◌≡◌, [], OnOk};
ghost use Rattle.std.specs.List.{All};
ghost use Rattle.pl_term.specs.Tree.{Tree};
ghost use Rattle.atom_api.specs.Names.{Names};
ghost use Rattle.term_store.specs.Contents.{IsArguments, Views, arguments_at};
ghost use Rattle.world_builtins.specs.Spelling.{text_of};
ghost use Rattle.builtin_rows.specs.Lists.{AreHeld};
ghost use Rattle.builtin_term.specs.Heads.{argument_count, behind, IsHeldBehind, list_order};
ghost use Rattle.builtin_term.specs.Pending.{AreSame, Gains, IsPairAt, Opens};

use crate::course::Course;
use pl_term::Memory;
use smallvec::SmallVec;
use std::alloc::Global;
use term_store::{Arguments, Place, Store, View};

/// Two places whose terms are still to be compared.
#[derive(Clone, Copy, Drop)]
pub struct Pair {
    pub left: Place,
    pub right: Place,
}

impl Default for Pair {
    fn default() -> Pair {
        Pair {
            left: Place::integer(0),
            right: Place::integer(0),
        }
    }
}

/// A stack of pairs, which takes no memory for the first few.
pub type Pairs = SmallVec<Pair, 8>;

/// What a comparison has still to do: the pairs that are to be compared, the first on top, and the compound terms that it is
/// within or has left.
#[derive(Drop)]
pub struct Comparing {
    pub pairs: Pairs,
    pub course: Course,
}

impl Comparing {
    /// Nothing to do.
    pub fn new(alloc: Global) -> Comparing {
        Comparing {
            pairs: SmallVec::new(alloc),
            course: Course::new(alloc),
        }
    }

    /// Lets all go.
    pub fn clear(&mut self)
        ensures pairs { self.new.pairs.items ≡ [] }
        ensures opened { self.new.course.opened.items ≡ [] }
        ensures left { self.new.course.left ≡ [] }
    {
        self.pairs.clear();
        self.course.clear();
    }
}

/// Compares the arguments of two terms where both are compound: puts their pairs on the stack, the first on top, unless the
/// arguments are the same ones or such as the comparison has left. The terms have the same number of arguments. The only error
/// is out of memory.
pub fn push_arguments(
    store: &Store,
    pending: &mut Comparing,
    left: &View,
    right: &View,
) -> Result<(), Memory>
    requires left { (t : Tree) × Views store.now t left.now }
    requires right { (t : Tree) × Views store.now t right.now }
    requires count { argument_count left.now ≡ argument_count right.now }
    ensures opens { OnOk result ((m : Names) → All (AreSame m store.now) pending.old.course.left
        → Opens m store.now (behind (text_of m) store.now left.now right.now) pending.old pending.new) }
    ensures pairs { OnOk result ((m : Names) → IsHeldBehind m store.now left.now → IsHeldBehind m store.now right.now
        → All (IsPairAt m store.now) pending.old.pairs.items → All (IsPairAt m store.now) pending.new.pairs.items) }
{
    match (left, right) {
        (View::Compound(_, these), View::Compound(_, those)) => enter_arguments(
            store, pending, *these, *those,
        ),
        _ => Ok(()),
    }
}

/// Does this for the arguments of two compound terms.
fn enter_arguments(
    store: &Store,
    pending: &mut Comparing,
    left: Arguments,
    right: Arguments,
) -> Result<(), Memory>
    requires left { IsArguments store.now left }
    requires right { IsArguments store.now right }
    requires count { left.count ≡ right.count }
    ensures opens { OnOk result ((m : Names) → All (AreSame m store.now) pending.old.course.left
        → Opens m store.now (list_order (text_of m) (arguments_at store.now left) (arguments_at store.now right)) pending.old pending.new) }
    ensures pairs { OnOk result ((m : Names) → AreHeld m (arguments_at store.now left) → AreHeld m (arguments_at store.now right)
        → All (IsPairAt m store.now) pending.old.pairs.items → All (IsPairAt m store.now) pending.new.pairs.items) }
{
    if left.is_same(right) {
        return Ok(());
    }
    let height = pending.pairs.len();
    if !pending.course.enter(left, right, height)? {
        return Ok(());
    }
    push_pairs(store, &mut pending.pairs, left, right)
}

/// Puts the pairs of arguments on the stack, the last ones first.
fn push_pairs(
    store: &Store,
    pending: &mut Pairs,
    left: Arguments,
    right: Arguments,
) -> Result<(), Memory>
    requires left { IsArguments store.now left }
    requires right { IsArguments store.now right }
    requires count { left.count ≡ right.count }
    ensures gains { OnOk result (Gains store.now (λ m. list_order (text_of m) (arguments_at store.now left) (arguments_at store.now right))
        pending.old.items pending.new.items) }
    ensures pairs { OnOk result ((m : Names) → AreHeld m (arguments_at store.now left) → AreHeld m (arguments_at store.now right)
        → All (IsPairAt m store.now) pending.old.items → All (IsPairAt m store.now) pending.new.items) }
{
    let mut i = left.len();
    while i > 0 {
        i -= 1;
        pending.push(Pair {
            left: store.argument(left, i),
            right: store.argument(right, i),
        })?;
    }
    Ok(())
}
