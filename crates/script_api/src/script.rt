//! The trait of scripts.
ghost use Rattle.std.specs.Prelude.{◌≡◌, ◌++◌, ◌⊎◌, ℕ, Bool, false, List, [], Option, IsSome, Some};
ghost use Rattle.std.specs.Option.{option_map};
ghost use Rattle.std.specs.List.{All};
ghost use Rattle.pl_term.specs.Tree.{Chars};
ghost use Rattle.run_model.specs.Execution.{Script as ScriptOf, Job, Consulted, Execution};
ghost use Rattle.run_model.specs.Lawful.{IsRunning};
ghost use Rattle.pl_model.specs.Requests.{Request};
ghost use Rattle.world_api.specs.Texts.{text_of, Holds};
ghost use Rattle.world_api.specs.Told.{Told, has_ended};
ghost use Rattle.world_api.specs.Gains.{Gains};
ghost use Rattle.script_api.specs.Parts.{Part, of_goal};
ghost use Rattle.script_api.specs.Scripts.{IsAsked, IsAtHand, IsLast, IsLater, IsReplied, Given, next_refusals, next_names, is_done, texts_at};

use atom_api::{Atoms, Cause, Pass, WornWord};
use named_terms::NamedTerm;
use pl_model::ends::How;
use pl_term::Text;
use world_api::{Named, World};

/// What a script has next.
#[derive(Drop)]
pub enum Next<T> {
    /// A goal that is to be searched for, its variables numbered from 0 in order of first occurrence, and whether it is
    /// that of a directive.
    Item { goal: T, directive: bool },
    /// There is no further item. It is said with which status a directive has halted, if one has.
    Done { halted: Option<u8> },
    /// An atom of the item has no place, as that pass over all slots shows. The item stays at hand.
    NeedsAtoms(Pass),
    /// Others stepped in between: the call is to be made again.
    Retry(Cause),
    /// An atom of the item is one of a bucket that takes no new atom.
    Worn(WornWord),
    /// Out of memory.
    Memory,
}

/// The items that an engine runs one after the other.
pub trait Script {
    /// The terms of its items.
    type Term: Named;

    // The execution of a job that it stands for, where so much is written of the file. Where an item is at hand, its
    // search is put into it.
    ghost execution: { (ℕ → Chars) → Self → Job → List Consulted → Execution };

    // The part of the execution that the item at hand is, if there is one.
    ghost part: { Self → Option Part };

    // What it consults or runs may be this.
    ghost plays: { (ℕ → Chars) → Self → ScriptOf → Type 0 };

    // Whether it has answered that there is no further item.
    ghost over: { Self → Bool };

    // Whether a fault of the file was kept: a line of it is not what a directive wrote.
    ghost kept: { Self → Bool };

    // The name of the file.
    ghost name: { Self → Chars };

    // The atoms that it names.
    ghost names: { Self → List ℕ };

    // The texts that its items name, as long as they are not terms over atoms.
    ghost texts: { Self → Chars → Type 0 };

    // The requests that it makes for its items.
    ghost asks: { Self → Request → Type 0 };

    // The names of the variables of its goal with their numbers, once it is known.
    ghost variables: { Self → List (Chars × ℕ) };

    // The board on which the words of the command's goals are written, and the number of its own goal's word there, if its
    // goal is one of the command's.
    ghost word: { Self → Option (ℕ × ℕ) };

    /// The names of the variables of its goal with their numbers: none before the goal is known.
    fn variable_names(&self) -> &[(Text, u64)]
        ensures { result.now ≡ variables self.now };

    /// The next item. `ended` says how the item at hand has ended, if there is one: its ball has texts of its own, since
    /// its variables need not be numbered from 0. Lines that are written of the file are put after its text, and the moves of
    /// the execution are added to `moves`. Where their number would pass 64 bits, it answers
    /// `Memory`.
    fn next<W: World<Term = Self::Term>>(
        &mut self,
        ended: Option<&How<NamedTerm>>,
        world: &mut W,
        atoms: &mut W::A,
        text: &mut Vec<u8>,
        moves: &mut u64,
    ) -> Next<Self::Term>
        requires runs { has_ended (W.told world.old).engine (W.told world.old).history ≡ false }
        requires asked { IsAsked (part self.old) (option_map (λ b. b.now) ended) }
        requires goes_on { over self.old ≡ false }
        requires held { All (λ a. IsSome (W.A.held atoms.old a)) (names self.old) }
        ensures given { Given execution part Self.Term.term plays kept (name self.old)
            (text_of (W.A.held atoms.old)) (text_of (W.A.held atoms.new)) self.old (option_map (λ b. b.now) ended.entry) (W.told world.old) moves.old text.old.items
            result self.new (W.told world.new) moves.new text.new.items }
        ensures over { over self.new ≡ is_done result }
        ensures at_hand { IsAtHand result (part self.new) }
        ensures last { IsLast (part self.old) result }
        ensures named { name self.new ≡ name self.old }
        ensures held { All (λ a. IsSome (W.A.held atoms.new a)) (names self.new ++ next_names Self.Term.names result) }
        ensures runs { has_ended (W.told world.new).engine (W.told world.new).history ≡ false }
        ensures holds { Holds (W.A.held atoms.old) (W.A.held atoms.new) }
        ensures refusals { W.A.refusals atoms.new ≡ W.A.refusals atoms.old ++ next_refusals result }
        ensures told { IsLater (W.told world.old) (W.told world.new) }
        ensures asked { Gains (λ c. texts self.old c ⊎ IsReplied (asks self.old) (W.told world.old) c) (W.A.asked atoms.old) (W.A.asked atoms.new) }
        ensures texts { (c : Chars) → texts self.new c → texts self.old c }
        ensures asks { (q : Request) → asks self.new q → asks self.old q }
        ensures words { part self.old ≡ Some of_goal → (job : Job) (cs : List Consulted)
            → (execution (text_of (W.A.held atoms.new)) self.new job cs).words ≡ (execution (text_of (W.A.held atoms.old)) self.old job cs).words }
        ensures variables { part self.old ≡ Some of_goal → variables self.new ≡ variables self.old }
        ensures word { word self.new ≡ word self.old };

    // It stands for the same execution under texts that agree on the atoms that it names, and plays the same.
    ghost names_tell: { (s : Self) (text other : ℕ → Chars) → All (λ a. text a ≡ other a) (names s)
        → ((job : Job) (cs : List Consulted) → execution text s job cs ≡ execution other s job cs)
        × ((x : ScriptOf) → plays text s x → plays other s x) };

    // What that execution has consulted is what was given.
    ghost lines: { (text : ℕ → Chars) (s : Self) (job : Job) (cs : List Consulted) → (execution text s job cs).consulted ≡ cs };

    // It has not ended: an end is put into it when there is no further item.
    ghost running: { (text : ℕ → Chars) (s : Self) (job : Job) (cs : List Consulted) → IsRunning (execution text s job cs) };

    // No text of a directive waits there for its report.
    ghost reported: { (text : ℕ → Chars) (s : Self) (job : Job) (cs : List Consulted) → texts_at (execution text s job cs).activity ≡ [] };
}
