//! A thread begins.
ghost use Rattle.std.specs.Prelude.{◌≡◌, ◌<◌, ◌+◌, ◌++◌, ◌^◌, [], ℕ, IfOk, IsSome, OnOk, false, true, length, vec_capacity, vec_len};
ghost use Rattle.std.specs.List.{All};
ghost use Rattle.pl_term.specs.Tree.{Tree};
ghost use Rattle.pl_term.specs.Variables.{is_in};
ghost use Rattle.pl_model.specs.History.{History};
ghost use Rattle.pl_model.specs.Requests.{Request};
ghost use Rattle.pl_model.specs.Requests as requests;
ghost use Rattle.pl_model.specs.Service.{served_now, started as starts};
ghost use Rattle.pl_model.specs.SharedState.{state_at};
ghost use Rattle.pl_model.specs.Threads.{counted, has_engine};
ghost use Rattle.atom_words.specs.Seats.{seen};
ghost use Rattle.atom_table.specs.Naming.{names, requests as asked};
ghost use Rattle.term_store.specs.NumberedNames.{names_of, term_by};
ghost use Rattle.world_api.specs.Replies.{Says, reply_names};
ghost use Rattle.world_api.specs.Texts.{text_of};
ghost use Rattle.counted_terms.specs.CountedTerms.{said};
ghost use Rattle.counted_terms.specs.Keeping.{KeeperAt, keeper_view};
ghost use Rattle.counted_terms.specs.Rows.{row_names, row_refusals};
ghost use Rattle.counted_terms.specs.Sharing.{Counts, Restored};
ghost use Rattle.hub_threads.specs.Goals.{begun_after, called_after};
ghost use Rattle.hub_threads.specs.Held.{IsNew, goal_numbers};
ghost use Rattle.hub_threads.specs.Refusals.{is_taken};
ghost use Rattle.hub_threads.specs.Rows.{Decides, updates_in};
ghost use Rattle.hub_threads.specs.Threads.{IsThreads, thread_counts};
ghost use Rattle.hub_threads.specs.Weights.{IsBelow};

use crate::held::Queues;
use crate::refusing::{used_up, worn_out};
use atom_api::fixed;
use atom_table::{Keeper, NamesTable, TableAtoms};
use counted_terms::{CountedTerm, MOST_UPDATES, Row, forget_by, store_from};
use pl_term::{Memory, Text};
use std::alloc::Global;
use term_store::Stored;
use world_api::Reply;

/// A thread begins with a goal, a number that nothing has or had, and an alias that names nothing, where there is one; the
/// reply is this one. It is refused where 64 engines run.
pub fn start_with<K: NamesTable>(
    alloc: Global,
    queues: &mut Queues<CountedTerm>,
    count: &mut u64,
    begun: &mut Vec<(u64, Option<Text>)>,
    atoms: &mut TableAtoms<K>,
    keeper: &mut Option<Keeper>,
    generation: u64,
    number: u64,
    goal: CountedTerm,
    alias: Option<Text>,
    reply: Reply<Stored>,
) -> Row
    requires keeper { KeeperAt K.atoms K.size keeper.old }
    requires counts { Counts (thread_counts queues.old) (keeper_view keeper.old) generation }
    requires goal { All (λ a. IsSome (names (seen atoms.old.seat) a)) (names_of goal) }
    requires reply { All (λ a. IsSome (names (seen atoms.old.seat) a)) (reply_names names_of reply) }
    requires below { IsBelow count.old generation queues.old }
    requires new { IsNew number queues.old }
    requires unjoined { is_in number queues.old.state.joined ≡ false }
    requires free { is_taken queues.old.state alias ≡ false }
    ensures keeper { KeeperAt K.atoms K.size keeper.new }
    ensures restored { Restored (thread_counts queues.old) (thread_counts queues.new) (keeper_view keeper.old) (keeper_view keeper.new) generation (generation + updates_in result) }
    ensures below { IsBelow count.new (generation + updates_in result) queues.new }
    ensures goals { goal_numbers queues.new.goals ≡ begun_after result number (goal_numbers queues.old.goals) }
    ensures begun { begun.new.items ≡ called_after result number alias begun.old.items }
    ensures says { (e goals : ℕ) (h : History) (v : Request) (r : requests.Reply) → length h ≡ generation → IsThreads (keeper_view keeper.old) queues.old count.old goals h
        → served_now e goals h v ≡ starts (state_at goals h (length h)) (length h) number (said (names (seen atoms.old.seat)) goal) alias r
        → Says term_by (text_of (names (seen atoms.old.seat))) reply r
        → Decides (keeper_view keeper.new) (names (seen atoms.new.seat)) e v queues.new count.new goals h result }
    ensures named { All (λ a. IsSome (names (seen atoms.new.seat) a)) (row_names result) }
    ensures held { names (seen atoms.new.seat) ≡ names (seen atoms.old.seat) }
    ensures refusals { row_refusals result ≡ [] }
    ensures unrefused { (seen atoms.new.seat).refusals ≡ (seen atoms.old.seat).refusals }
    ensures asked { asked (seen atoms.new.seat) ≡ asked (seen atoms.old.seat) }
{
    if !queues.has_engine() {
        return used_up(alloc, fixed::THREADS);
    }
    if generation >= MOST_UPDATES {
        return worn_out(alloc);
    }
    if number == u64::MAX {
        return Row::Memory;
    }
    let Ok(called) = room_for(alloc, begun, &alias) else {
        return Row::Memory;
    };
    let row = begin(
        queues, count, atoms, keeper, generation, number, goal, alias, reply,
    );
    note(begun, &row, number, called);
    row
}

// Room for one engine more, and a copy of its alias, where it has one. The only error is out of memory.
fn room_for(
    alloc: Global,
    begun: &mut Vec<(u64, Option<Text>)>,
    alias: &Option<Text>,
) -> Result<Option<Text>, Memory>
    ensures copy { IfOk result (λ a. a ≡ alias.now) }
    ensures room { OnOk result (vec_len begun.new < vec_capacity begun.new) }
    ensures same { begun.new.items ≡ begun.old.items }
{
    begun.reserve(1)?;
    match alias {
        None => Ok(None),
        Some(text) => Ok(Some(text.copy(alloc)?)),
    }
}

// The engine is noted after the others, where the row begins it.
fn note(begun: &mut Vec<(u64, Option<Text>)>, row: &Row, number: u64, alias: Option<Text>)
    requires room { vec_len begun.old < vec_capacity begun.old }
    ensures { begun.new.items ≡ called_after row.now number alias begun.old.items }
{
    match row {
        Row::Makes(_) => begun.push_reserved((number, alias)),
        _ => {}
    }
}

// A thread begins, where one engine more can run.
fn begin<K: NamesTable>(
    queues: &mut Queues<CountedTerm>,
    count: &mut u64,
    atoms: &mut TableAtoms<K>,
    keeper: &mut Option<Keeper>,
    generation: u64,
    number: u64,
    goal: CountedTerm,
    alias: Option<Text>,
    reply: Reply<Stored>,
) -> Row
    requires keeper { KeeperAt K.atoms K.size keeper.old }
    requires counts { Counts (thread_counts queues.old) (keeper_view keeper.old) generation }
    requires goal { All (λ a. IsSome (names (seen atoms.old.seat) a)) (names_of goal) }
    requires reply { All (λ a. IsSome (names (seen atoms.old.seat) a)) (reply_names names_of reply) }
    requires below { IsBelow count.old generation queues.old }
    requires new { IsNew number queues.old }
    requires unjoined { is_in number queues.old.state.joined ≡ false }
    requires free { is_taken queues.old.state alias ≡ false }
    requires engine { has_engine queues.old.state ≡ true }
    requires room { generation < 2 ^ 47 }
    requires next { number + 1 < 2 ^ 64 }
    ensures keeper { KeeperAt K.atoms K.size keeper.new }
    ensures restored { Restored (thread_counts queues.old) (thread_counts queues.new) (keeper_view keeper.old) (keeper_view keeper.new) generation (generation + updates_in result) }
    ensures below { IsBelow count.new (generation + updates_in result) queues.new }
    ensures goals { goal_numbers queues.new.goals ≡ begun_after result number (goal_numbers queues.old.goals) }
    ensures says { (e goals : ℕ) (h : History) (v : Request) (r : requests.Reply) → length h ≡ generation → IsThreads (keeper_view keeper.old) queues.old count.old goals h
        → served_now e goals h v ≡ starts (state_at goals h (length h)) (length h) number (said (names (seen atoms.old.seat)) goal) alias r
        → Says term_by (text_of (names (seen atoms.old.seat))) reply r
        → Decides (keeper_view keeper.new) (names (seen atoms.new.seat)) e v queues.new count.new goals h result }
    ensures named { All (λ a. IsSome (names (seen atoms.new.seat) a)) (row_names result) }
    ensures held { names (seen atoms.new.seat) ≡ names (seen atoms.old.seat) }
    ensures refusals { row_refusals result ≡ [] }
    ensures unrefused { (seen atoms.new.seat).refusals ≡ (seen atoms.old.seat).refusals }
    ensures asked { asked (seen atoms.new.seat) ≡ asked (seen atoms.old.seat) }
{
    queues.is_sound();
    let _numbered = goal.term().nodes();
    store_from(atoms, keeper, &goal);
    match queues.start(number, goal, alias) {
        Ok(()) => {
            *count = counted_up(*count, number);
            Row::Makes(reply)
        }
        Err((goal, _)) => {
            forget_by(atoms, keeper, &goal);
            Row::Memory
        }
    }
}

// The number that comes next, where this one was given.
fn counted_up(count: u64, number: u64) -> u64
    requires { number + 1 < 2 ^ 64 }
    ensures { result ≡ counted number count }
{
    if number < count { count } else { number + 1 }
}
