//! Laws of the threads and queues of the shared state, and how they are at the start.
ghost use Rattle.std.specs.Prelude.{◌≡◌, ◌≤◌, ◌++◌, [], ℕ, IfOk, Some};
ghost use Rattle.pl_term.specs.Tree.{Tree};
ghost use Rattle.pl_model.specs.History.{History, Kind};
ghost use Rattle.pl_model.specs.Service.{entry_by};
ghost use Rattle.pl_model.specs.Threads.{opening_count};
ghost use Rattle.atom_words.specs.declared.view.View.{View};
ghost use Rattle.counted_terms.specs.CountedTerms.{said};
ghost use Rattle.counted_terms.specs.Keeping.{kept};
ghost use Rattle.counted_terms.specs.Sharing.{IsWithin};
ghost use Rattle.hub_threads.specs.Held.{Held};
ghost use Rattle.hub_threads.specs.Threads.{IsOfDatabase, IsThreads, thread_counts};
ghost use Rattle.hub_threads.specs.Weights.{IsBelow, weigh};

use crate::held::Queues;
use counted_terms::CountedTerm;
use pl_term::Memory;
use std::alloc::Global;

/// The threads and queues at the start, which store nothing: the state after an empty history. The only error is out of
/// memory.
pub fn open_queues(alloc: Global) -> Result<Queues<CountedTerm>, Memory>
    ensures says { IfOk result (λ q. (k : View) (goals : ℕ) → IsThreads k q (opening_count goals) goals []) }
    ensures below { IfOk result (λ q. (count g : ℕ) → 2 ≤ count → IsBelow count g q) }
    ensures none { IfOk result (λ q. (w : Tree → ℕ) → weigh w q ≡ 0) }
{
    Queues::new(alloc)
}

/// An update of the database leaves what is held the threads and queues after the history. It does nothing.
pub fn database_updates_leave_them()
    ensures { (k : View) (q : Held Tree) (count goals e : ℕ) (h : History) (kind : Kind) → IsOfDatabase kind → IsThreads k q count goals h → IsThreads k q count goals (h ++ entry_by e (Some kind)) }
{}

/// Where the texts that are kept change, and each term that the threads and queues count says what it said, what is held
/// stays the threads and queues after the history. It does nothing.
pub fn readings_leave_them(queues: &Queues<CountedTerm>)
    ensures { (k l : View) (count goals : ℕ) (h : History) → ((t : Tree) → IsWithin t (thread_counts queues.now) → said (kept l) t ≡ said (kept k) t) → IsThreads k queues.now count goals h → IsThreads l queues.now count goals h }
{
    queues.is_sound();
}
