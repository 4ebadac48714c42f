//! How threads ended, as terms.
ghost use Rattle.std.specs.Prelude.{◌≡◌, ℕ, ◌≤◌, ◌<◌, ◌+◌, IfOk, IfSome, IsSome};
ghost use Rattle.std.specs.List.{All};
ghost use Rattle.pl_term.specs.Tree.{Tree};
ghost use Rattle.pl_model.specs.declared.threads.Status.TheVariants.{AtomSpace, Halted};
ghost use Rattle.pl_model.specs.Service.{status_term};
ghost use Rattle.pl_model.specs.Threads.{thread_named};
ghost use Rattle.atom_api.specs.Names.{FixedStand, Names};
ghost use Rattle.atom_words.specs.Seats.{seen};
ghost use Rattle.atom_table.specs.Naming.{names, requests};
ghost use Rattle.term_store.specs.NumberedNames.{names_of};
ghost use Rattle.counted_terms.specs.CountedTerms.{IsCounted, naming, said};
ghost use Rattle.counted_terms.specs.Keeping.{HoldsOn, KeeperAt, keeper_view, kept, tally};
ghost use Rattle.hub_threads.specs.Rows.{status_names};
ghost use Rattle.hub_threads.specs.Serving.{status_as};
ghost use Rattle.hub_threads.specs.Weights.{weigh_how};

use crate::held::Status;
use atom_api::fixed;
use atom_table::{Keeper, NamesTable, TableAtoms};
use counted_terms::{
    CountedTerm, atom_term, forget_by, hand_over, int_term, resource_error, store_from, wrapped,
};
use pl_term::Memory;
use std::alloc::Global;
use term_store::Stored;

/// The status as thread_join/2 gives it. The only error is out of memory.
pub fn made_status(alloc: Global, status: &Status<CountedTerm>) -> Result<Stored, Memory>
    ensures says { IfOk result (λ e. (m : Names) → FixedStand m → said m e ≡ status_term (status_as (said m) status.now)) }
    ensures named { IfOk result (λ e. (m : Names) → FixedStand m → All (λ a. IsSome (m a)) (status_names status.now) → All (λ a. IsSome (m a)) (names_of e)) }
{
    match status {
        Status::Succeeded => atom_term(alloc, fixed::TRUE),
        Status::Failed => atom_term(alloc, fixed::FALSE),
        Status::Exception(ball) => wrapped(alloc, fixed::EXCEPTION, ball.term()),
        Status::Exited(term) => wrapped(alloc, fixed::EXITED, term.term()),
        Status::Halted(n) => halted(alloc, *n),
        Status::AtomSpace => out_of_atoms(alloc),
    }
}

// The status of a thread that halt/1 ended.
fn halted(alloc: Global, n: u8) -> Result<Stored, Memory>
    ensures says { IfOk result (λ e. (m : Names) → FixedStand m → said m e ≡ status_term (Halted n)) }
    ensures named { IfOk result (λ e. (m : Names) → FixedStand m → All (λ a. IsSome (m a)) (names_of e)) }
{
    let status = int_term(alloc, u64::from(n))?;
    wrapped(alloc, fixed::HALTED, &status)
}

// The status of a thread that ended for want of atoms.
fn out_of_atoms(alloc: Global) -> Result<Stored, Memory>
    ensures says { IfOk result (λ e. (m : Names) → FixedStand m → said m e ≡ status_term AtomSpace) }
    ensures named { IfOk result (λ e. (m : Names) → FixedStand m → All (λ a. IsSome (m a)) (names_of e)) }
{
    let error = resource_error(alloc, fixed::ATOM_SPACE)?;
    wrapped(alloc, fixed::EXCEPTION, &error)
}

/// Hands over the term of a status that is stored no longer, where it has one.
pub fn hand_over_status<K: NamesTable>(
    atoms: &mut TableAtoms<K>,
    keeper: &mut Option<Keeper>,
    status: Status<CountedTerm>,
)
    requires keeper { KeeperAt K.atoms K.size keeper.old }
    requires counted { (a : ℕ) → 0 < weigh_how (naming a) status → 0 < tally (keeper_view keeper.old) a }
    ensures keeper { KeeperAt K.atoms K.size keeper.new }
    ensures named { All (λ a. IsSome (names (seen atoms.new.seat) a)) (status_names status) }
    ensures says { status_as (said (names (seen atoms.new.seat))) status ≡ status_as (said (kept (keeper_view keeper.old))) status }
    ensures holds { HoldsOn (names (seen atoms.old.seat)) (names (seen atoms.new.seat)) }
    ensures others { (t : Tree) → IsCounted t (keeper_view keeper.new) → said (kept (keeper_view keeper.new)) t ≡ said (kept (keeper_view keeper.old)) t }
    ensures counts { (k : ℕ) → weigh_how (naming k) status + tally (keeper_view keeper.new) k ≡ tally (keeper_view keeper.old) k }
    ensures refusals { (seen atoms.new.seat).refusals ≡ (seen atoms.old.seat).refusals }
    ensures requests { requests (seen atoms.new.seat) ≡ requests (seen atoms.old.seat) }
{
    match status {
        Status::Exception(ball) => {
            hand_over(atoms, keeper, ball);
        }
        Status::Exited(term) => {
            hand_over(atoms, keeper, term);
        }
        Status::Succeeded => {}
        Status::Failed => {}
        Status::Halted(_) => {}
        Status::AtomSpace => {}
    }
}

/// Counts the atoms of the term of a status that is stored, where it has one.
pub fn store_status<K: NamesTable>(
    atoms: &mut TableAtoms<K>,
    keeper: &mut Option<Keeper>,
    status: &Status<CountedTerm>,
)
    requires keeper { KeeperAt K.atoms K.size keeper.old }
    requires held { All (λ a. IsSome (names (seen atoms.old.seat) a)) (status_names status.now) }
    requires room { (k : ℕ) → tally (keeper_view keeper.old) k < 2305843009213693951 }
    ensures keeper { KeeperAt K.atoms K.size keeper.new }
    ensures says { status_as (said (kept (keeper_view keeper.new))) status.now ≡ status_as (said (names (seen atoms.old.seat))) status.now }
    ensures others { (t : Tree) → IsCounted t (keeper_view keeper.old) → said (kept (keeper_view keeper.new)) t ≡ said (kept (keeper_view keeper.old)) t }
    ensures held { names (seen atoms.new.seat) ≡ names (seen atoms.old.seat) }
    ensures counts { (k : ℕ) → tally (keeper_view keeper.new) k ≡ weigh_how (naming k) status.now + tally (keeper_view keeper.old) k }
    ensures refusals { (seen atoms.new.seat).refusals ≡ (seen atoms.old.seat).refusals }
    ensures requests { requests (seen atoms.new.seat) ≡ requests (seen atoms.old.seat) }
{
    match status {
        Status::Exception(ball) => store_from(atoms, keeper, ball),
        Status::Exited(term) => store_from(atoms, keeper, term),
        Status::Succeeded => {}
        Status::Failed => {}
        Status::Halted(_) => {}
        Status::AtomSpace => {}
    }
}

/// Counts the atoms of the term of a status that is stored no longer once less, where it has one.
pub fn forget_status<K: NamesTable>(
    atoms: &mut TableAtoms<K>,
    keeper: &mut Option<Keeper>,
    status: &Status<CountedTerm>,
)
    requires keeper { KeeperAt K.atoms K.size keeper.old }
    requires counted { (k : ℕ) → weigh_how (naming k) status.now ≤ tally (keeper_view keeper.old) k }
    ensures keeper { KeeperAt K.atoms K.size keeper.new }
    ensures others { (t : Tree) → IsCounted t (keeper_view keeper.new) → said (kept (keeper_view keeper.new)) t ≡ said (kept (keeper_view keeper.old)) t }
    ensures held { names (seen atoms.new.seat) ≡ names (seen atoms.old.seat) }
    ensures counts { (k : ℕ) → weigh_how (naming k) status.now + tally (keeper_view keeper.new) k ≡ tally (keeper_view keeper.old) k }
    ensures refusals { (seen atoms.new.seat).refusals ≡ (seen atoms.old.seat).refusals }
    ensures requests { requests (seen atoms.new.seat) ≡ requests (seen atoms.old.seat) }
{
    match status {
        Status::Exception(ball) => forget_by(atoms, keeper, ball),
        Status::Exited(term) => forget_by(atoms, keeper, term),
        Status::Succeeded => {}
        Status::Failed => {}
        Status::Halted(_) => {}
        Status::AtomSpace => {}
    }
}
