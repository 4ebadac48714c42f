//! Unification (ISO/IEC 13211-1:1995, 7.3.2).
ghost use Rattle.std.specs.Prelude.{◌≡◌, ◌∷◌, [], ◌+◌, ◌<◌, ◌≤◌, ◌++◌, length, IfOk};
ghost use Rattle.std.specs.List.{All};
ghost use Rattle.term_store.specs.Apart.{IsApart};
ghost use Rattle.term_store.specs.Cells.{IsFit, IsFree, heap_of};
ghost use Rattle.term_store.specs.Fit.{IsIn};
ghost use Rattle.term_store.specs.Rests.{pair_at, rest_after};
ghost use Rattle.term_store.specs.Unifying.{plan_of, Grown, Solves};
ghost use Rattle.term_store.specs.Meeting.{IsMet};
ghost use Rattle.term_store.specs.Waiting.{AreWaiting, Moved, Opened, Parted, Refilled, short_plan, waiting};

use crate::bind::{bind, bind_short};
use crate::cells::{Cells, deref, follow, head_at, word_at};
use crate::heads::put_off;
use crate::occurs::{occurs, raised};
use crate::older::Older;
use crate::pace::Pace;
use crate::shorts::Short;
use crate::walk::{Pending, Walk};
use crate::words::{Pair, Plan, Rest, Word};
use pl_term::Memory;

/// What is left to do for two words as they are kept, of which neither is a bound variable, to become equal: nothing, or nothing
/// that helps, or the variable of the first slot is to be bound to that of the second or to a constant, or the arguments of two
/// compound terms are to become equal, or what can be told of the words alone.
#[derive(Clone, Copy, Debug, Drop)]
pub enum ShortPlan {
    Equal,
    Differ,
    Join(u32, u32),
    Give(u32, Short),
    Part(u32, u32),
    Longer,
}

/// Binds variables until two words stand for the same term. Where no bindings make them the same it answers false, and
/// some bindings may have been made. `pending` and `walk` are room for what is still to be done, and the bounds save walks
/// through what is older. A unification that is not short comes to each pair of compound terms once.
pub fn unify(
    cells: &mut Cells,
    pending: &mut Pending,
    walk: &mut Walk,
    older: Older,
    left: Word,
    right: Word,
) -> Result<bool, Memory>
    requires fit { IsFit cells.old }
    requires apart { IsApart (heap_of cells.old) older }
    requires left { IsIn (heap_of cells.old) left }
    requires right { IsIn (heap_of cells.old) right }
    ensures fit { IsFit cells.new }
    ensures grown { Grown (heap_of cells.old) (heap_of cells.new) }
    ensures solves { IfOk result (λ r. Solves r (heap_of cells.old) left right (heap_of cells.new)) }
{
    let mut older = older;
    pending.rests.clear();
    pending.met.clear();
    pending.left = Pace::new();
    pending.right = Pace::new();
    let a = deref(cells, left);
    let b = deref(cells, right);
    let first = Pair { left: a, right: b };
    let none = Rest {
        left: 0,
        right: 0,
        count: 0,
    };
    let Some(begun) = begin(cells, pending, walk, &mut older, first, none)? else {
        return Ok(false);
    };
    let mut hand = begun;
    for _ in 0..u64::MAX {
        if !refill(&mut pending.rests, &mut hand) {
            return Ok(true);
        }
        let Some(next) = meet_next(cells, pending, walk, &mut older, hand)? else {
            return Ok(false);
        };
        hand = next;
    }
    Err(Memory)
}

/// Takes the last arguments of the stack in hand, if none are. The answer is whether some are in hand then.
#[inline(always)]
fn refill(rests: &mut Vec<Rest>, hand: &mut Rest) -> bool
    ensures { Refilled result rests.old.items hand.old rests.new.items hand.new }
{
    if hand.count > 0 {
        return true;
    }
    let Some(rest) = rests.pop() else {
        return false;
    };
    *hand = rest;
    true
}

/// Does what `make_equal` does, for two compound terms without a call.
#[inline(always)]
fn begin(
    cells: &mut Cells,
    pending: &mut Pending,
    walk: &mut Walk,
    older: &mut Older,
    pair: Pair,
    next: Rest,
) -> Result<Option<Rest>, Memory>
    requires fit { IsFit cells.old }
    requires apart { IsApart (heap_of cells.old) older.old }
    requires left { IsIn (heap_of cells.old) pair.left }
    requires right { IsIn (heap_of cells.old) pair.right }
    requires left_free { IsFree (heap_of cells.old) pair.left }
    requires right_free { IsFree (heap_of cells.old) pair.right }
    requires waiting { AreWaiting (heap_of cells.old) pending.old.rests.items next }
    requires met { All (IsMet (heap_of cells.old) (waiting (heap_of cells.old) pending.old.rests.items next ++ pair ∷ [])) pending.old.met.list.items }
    ensures fit { IsFit cells.new }
    ensures grown { Grown (heap_of cells.old) (heap_of cells.new) }
    ensures moved { IfOk result (λ r. Moved r (heap_of cells.old) pending.old.rests.items next pair (heap_of cells.new) pending.new.rests.items
        pending.new.met.list.items older.new) }
{
    if let Word::Comp(k) = pair.left {
        if let Word::Comp(l) = pair.right {
            if k != l {
                return meet(cells, pending, k, l, next);
            }
        }
    }
    make_equal(cells, pending, walk, older, pair, next)
}

/// Makes the first pair of the arguments in hand equal. The answer is what is in hand then, or none where no bindings make them
/// equal.
#[inline(always)]
fn meet_next(
    cells: &mut Cells,
    pending: &mut Pending,
    walk: &mut Walk,
    older: &mut Older,
    rest: Rest,
) -> Result<Option<Rest>, Memory>
    requires fit { IsFit cells.old }
    requires apart { IsApart (heap_of cells.old) older.old }
    requires some { 0 < rest.count }
    requires waiting { AreWaiting (heap_of cells.old) pending.old.rests.items rest }
    requires met { All (IsMet (heap_of cells.old) (waiting (heap_of cells.old) pending.old.rests.items rest)) pending.old.met.list.items }
    ensures fit { IsFit cells.new }
    ensures grown { Grown (heap_of cells.old) (heap_of cells.new) }
    ensures moved { IfOk result (λ r. Moved r (heap_of cells.old) pending.old.rests.items (rest_after rest)
        (pair_at cells.old.args.items cells.old.args.items rest) (heap_of cells.new) pending.new.rests.items pending.new.met.list.items older.new) }
{
    let next = after_first(cells, rest);
    let left = follow(cells, rest.left);
    let right = follow(cells, rest.right);
    match compare_shorts(left, right) {
        ShortPlan::Equal => Ok(Some(next)),
        ShortPlan::Differ => Ok(None),
        ShortPlan::Join(slot, other) => {
            older.top = raised(cells, older.top, other as usize);
            bind_short(cells, slot, Short::Slot(other))?;
            Ok(Some(next))
        }
        ShortPlan::Give(slot, short) => {
            bind_short(cells, slot, short)?;
            Ok(Some(next))
        }
        ShortPlan::Part(k, l) => {
            let later = Rest {
                left: next.left,
                right: next.right,
                count: next.count,
            };
            meet(cells, pending, k as usize, l as usize, later)
        }
        ShortPlan::Longer => meet_words(
            cells, pending, walk, older, rest.left, rest.right, rest.count,
        ),
    }
}

/// Makes the words with which so many arguments from two places on begin equal, as `make_equal` does.
#[inline(never)]
fn meet_words(
    cells: &mut Cells,
    pending: &mut Pending,
    walk: &mut Walk,
    older: &mut Older,
    left: usize,
    right: usize,
    count: usize,
) -> Result<Option<Rest>, Memory>
    requires fit { IsFit cells.old }
    requires apart { IsApart (heap_of cells.old) older.old }
    requires some { 0 < count }
    requires waiting { AreWaiting (heap_of cells.old) pending.old.rests.items (record { left = left; right = right; count = count }) }
    requires met { All (IsMet (heap_of cells.old) (waiting (heap_of cells.old) pending.old.rests.items (record { left = left; right = right; count = count })))
        pending.old.met.list.items }
    ensures fit { IsFit cells.new }
    ensures grown { Grown (heap_of cells.old) (heap_of cells.new) }
    ensures moved { IfOk result (λ r. Moved r (heap_of cells.old) pending.old.rests.items (rest_after (record { left = left; right = right; count = count }))
        (pair_at cells.old.args.items cells.old.args.items (record { left = left; right = right; count = count })) (heap_of cells.new)
        pending.new.rests.items pending.new.met.list.items older.new) }
{
    let rest = Rest { left, right, count };
    let next = after_first(cells, rest);
    let first = word_at(cells, left);
    let second = word_at(cells, right);
    let a = deref(cells, first);
    let b = deref(cells, second);
    let pair = Pair { left: a, right: b };
    make_equal(cells, pending, walk, older, pair, next)
}

/// The arguments in hand without the first ones.
#[inline(always)]
fn after_first(cells: &Cells, rest: Rest) -> Rest
    requires some { 0 < rest.count }
    requires left { rest.left + rest.count ≤ length cells.now.args.items }
    requires right { rest.right + rest.count ≤ length cells.now.args.items }
    ensures { result ≡ rest_after rest }
{
    let _words = cells.args.len();
    Rest {
        left: rest.left + 1,
        right: rest.right + 1,
        count: rest.count - 1,
    }
}

/// Makes a pair of words equal, of which neither is a bound variable: by a binding, or by making the pairs of their
/// arguments equal, which are taken in hand. The answer is what is in hand then, or none where no bindings make them equal.
fn make_equal(
    cells: &mut Cells,
    pending: &mut Pending,
    walk: &mut Walk,
    older: &mut Older,
    pair: Pair,
    next: Rest,
) -> Result<Option<Rest>, Memory>
    requires fit { IsFit cells.old }
    requires apart { IsApart (heap_of cells.old) older.old }
    requires left { IsIn (heap_of cells.old) pair.left }
    requires right { IsIn (heap_of cells.old) pair.right }
    requires left_free { IsFree (heap_of cells.old) pair.left }
    requires right_free { IsFree (heap_of cells.old) pair.right }
    requires waiting { AreWaiting (heap_of cells.old) pending.old.rests.items next }
    requires met { All (IsMet (heap_of cells.old) (waiting (heap_of cells.old) pending.old.rests.items next ++ pair ∷ [])) pending.old.met.list.items }
    ensures fit { IsFit cells.new }
    ensures grown { Grown (heap_of cells.old) (heap_of cells.new) }
    ensures moved { IfOk result (λ r. Moved r (heap_of cells.old) pending.old.rests.items next pair (heap_of cells.new) pending.new.rests.items
        pending.new.met.list.items older.new) }
{
    match compare_words(pair.left, pair.right) {
        Plan::Same => Ok(Some(next)),
        Plan::Clash => Ok(None),
        Plan::Bind(slot, word) => {
            if occurs(cells, walk, older, slot, word)? {
                return Ok(None);
            }
            bind(cells, slot, word)?;
            Ok(Some(next))
        }
        Plan::Open(k, l) => meet(cells, pending, k, l, next),
    }
}

/// What is left to do for two words to become equal.
pub fn compare_words(left: Word, right: Word) -> Plan
    ensures { result ≡ plan_of left right }
{
    match left {
        Word::Var(i) => match right {
            Word::Var(j) => {
                if i == j {
                    Plan::Same
                } else if i < j {
                    Plan::Bind(j, left)
                } else {
                    Plan::Bind(i, right)
                }
            }
            Word::Int(_) => Plan::Bind(i, right),
            Word::Atom(_) => Plan::Bind(i, right),
            Word::Comp(_) => Plan::Bind(i, right),
        },
        Word::Int(i) => match right {
            Word::Var(j) => Plan::Bind(j, left),
            Word::Int(j) => { if i == j { Plan::Same } else { Plan::Clash } }
            Word::Atom(_) => Plan::Clash,
            Word::Comp(_) => Plan::Clash,
        },
        Word::Atom(a) => match right {
            Word::Var(j) => Plan::Bind(j, left),
            Word::Int(_) => Plan::Clash,
            Word::Atom(b) => { if a == b { Plan::Same } else { Plan::Clash } }
            Word::Comp(_) => Plan::Clash,
        },
        Word::Comp(k) => match right {
            Word::Var(j) => Plan::Bind(j, left),
            Word::Int(_) => Plan::Clash,
            Word::Atom(_) => Plan::Clash,
            Word::Comp(l) => { if k == l { Plan::Same } else { Plan::Open(k, l) } }
        },
    }
}

/// What is left to do for two words as they are kept to become equal.
#[inline(always)]
fn compare_shorts(left: Short, right: Short) -> ShortPlan
    ensures { result ≡ short_plan left right }
{
    match left {
        Short::Free => ShortPlan::Longer,
        Short::Slot(i) => compare_slot(i, right),
        Short::Number(i) => match right {
            Short::Free => ShortPlan::Longer,
            Short::Slot(j) => ShortPlan::Give(j, left),
            Short::Number(j) => {
                if i == j {
                    ShortPlan::Equal
                } else {
                    ShortPlan::Differ
                }
            }
            Short::Name(_) => ShortPlan::Differ,
            Short::Term(_) => ShortPlan::Differ,
            Short::Wide(_) => ShortPlan::Longer,
        },
        Short::Name(a) => match right {
            Short::Free => ShortPlan::Longer,
            Short::Slot(j) => ShortPlan::Give(j, left),
            Short::Number(_) => ShortPlan::Differ,
            Short::Name(b) => {
                if a == b {
                    ShortPlan::Equal
                } else {
                    ShortPlan::Differ
                }
            }
            Short::Term(_) => ShortPlan::Differ,
            Short::Wide(_) => ShortPlan::Longer,
        },
        Short::Term(k) => compare_term(k, right),
        Short::Wide(_) => ShortPlan::Longer,
    }
}

/// The same for an unbound variable and a word.
#[inline(always)]
fn compare_slot(slot: u32, right: Short) -> ShortPlan
    ensures { result ≡ short_plan (Short.Slot slot) right }
{
    match right {
        Short::Free => ShortPlan::Longer,
        Short::Slot(j) => {
            if slot == j {
                ShortPlan::Equal
            } else if slot < j {
                ShortPlan::Join(j, slot)
            } else {
                ShortPlan::Join(slot, j)
            }
        }
        Short::Number(_) => ShortPlan::Give(slot, right),
        Short::Name(_) => ShortPlan::Give(slot, right),
        Short::Term(_) => ShortPlan::Longer,
        Short::Wide(_) => ShortPlan::Longer,
    }
}

/// The same for a compound term and a word.
#[inline(always)]
fn compare_term(k: u32, right: Short) -> ShortPlan
    ensures { result ≡ short_plan (Short.Term k) right }
{
    match right {
        Short::Free => ShortPlan::Longer,
        Short::Slot(_) => ShortPlan::Longer,
        Short::Number(_) => ShortPlan::Differ,
        Short::Name(_) => ShortPlan::Differ,
        Short::Term(l) => {
            if k == l {
                ShortPlan::Equal
            } else {
                ShortPlan::Part(k, l)
            }
        }
        Short::Wide(_) => ShortPlan::Longer,
    }
}

/// Does what `open_pair` does, unless the unification is known to have come by the two compound terms before, which is kept
/// where it is long.
#[inline(always)]
fn meet(
    cells: &Cells,
    pending: &mut Pending,
    k: usize,
    l: usize,
    next: Rest,
) -> Result<Option<Rest>, Memory>
    requires fit { IsFit cells.now }
    requires left { k < length cells.now.heads.items }
    requires right { l < length cells.now.heads.items }
    requires waiting { AreWaiting (heap_of cells.now) pending.old.rests.items next }
    requires met { All (IsMet (heap_of cells.now) (waiting (heap_of cells.now) pending.old.rests.items next
        ++ record { left = Word.Comp k; right = Word.Comp l } ∷ [])) pending.old.met.list.items }
    ensures { IfOk result (λ r. Opened r (heap_of cells.now) k l pending.old.rests.items next pending.new.rests.items pending.new.met.list.items) }
{
    let long_left = pending.left.is_long(k);
    let long = pending.right.is_long(l) && long_left;
    if long && pending.met.holds(k, l) {
        return Ok(Some(next));
    }
    let Some(parts) = open_pair(cells, &mut pending.rests, k, l, next)? else {
        return Ok(None);
    };
    if long {
        pending.met.add(k, l)?;
    }
    Ok(Some(parts))
}

/// Takes the arguments of two compound terms in hand, and puts those that were to come next on the stack. It answers none, and puts
/// none, where the terms differ in their name or their number of arguments.
#[inline(always)]
fn open_pair(
    cells: &Cells,
    rests: &mut Vec<Rest>,
    k: usize,
    l: usize,
    next: Rest,
) -> Result<Option<Rest>, Memory>
    requires fit { IsFit cells.now }
    requires left { k < length cells.now.heads.items }
    requires right { l < length cells.now.heads.items }
    ensures { IfOk result (λ r. Parted r (heap_of cells.now) k l rests.old.items next rests.new.items) }
{
    let left = head_at(cells, k);
    let right = head_at(cells, l);
    if left.name != right.name {
        return Ok(None);
    }
    if left.count != right.count {
        return Ok(None);
    }
    put_off(rests, next)?;
    Ok(Some(Rest {
        left: left.start as usize,
        right: right.start as usize,
        count: left.count as usize,
    }))
}
