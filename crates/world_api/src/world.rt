//! The trait of shared visits.
ghost use Rattle.std.specs.Prelude.{◌≡◌, ◌++◌, IfNone, IfSome, IsSome, Option, false, true, List};
ghost use Rattle.std.specs.List.{All};
ghost use Rattle.pl_model.specs.History.{History};
ghost use Rattle.world_api.specs.Texts.{text_of, Holds};
ghost use Rattle.world_api.specs.Told.{Told, has_ended};
ghost use Rattle.world_api.specs.Visits.{visit_for, visit_names};
ghost use Rattle.world_api.specs.Replies.{found_names};
ghost use Rattle.world_api.specs.declared.answer.Answer.TheVariants.{Served};
ghost use Rattle.world_api.specs.declared.reply.Found.{Found as FoundValue};
ghost use Rattle.world_api.specs.declared.reply.Reply.TheVariants.{Clauses};
ghost use Rattle.world_api.specs.Answers.{CanVisit, Visited, answer_names, refusals_by};
ghost use Rattle.world_api.specs.Asked.{IsInAnswer};
ghost use Rattle.world_api.specs.Gains.{Gains};

use crate::answer::Answer;
use crate::asking::Asked;
use crate::named::Named;
use crate::reply::Found;
use crate::visit::Visit;
use atom_api::Atoms;
use pl_model::kept::Kept;

/// The state that all engines share, as one engine sees it.
pub trait World {
    /// The atoms of the engine.
    type A: Atoms;

    /// The terms that visits and replies carry.
    type Term: Named;

    /// The engine's number, the history and the generations of its visits.
    ghost told: { Self → Told };

    /// What was found last without a look at the shared state, of the atoms with which it was found.
    ghost at_hand: { Self.A → Option (FoundValue Self.Term) };

    /// One event of the shared state.
    fn visit(
        &mut self,
        visit: Visit<Self::Term, <Self::Term as Kept>::Key>,
        atoms: &mut Self::A,
    ) -> Answer<Self::Term>
        requires runs { has_ended (told self.old).engine (told self.old).history ≡ false }
        requires held { All (λ a. IsSome (Self.A.held atoms.old a)) (visit_names Self.Term.names Self.Term.key_names visit) }
        requires next { CanVisit Self.Term.term Self.Term.key_of (text_of (Self.A.held atoms.old)) visit (told self.old) }
        ensures visited { (before : History) × Visited Self.Term.term Self.Term.key_of
            (text_of (Self.A.held atoms.old)) (text_of (Self.A.held atoms.new)) visit result (told self.old) before (told self.new) }
        ensures runs { has_ended (told self.new).engine (told self.new).history ≡ false }
        ensures names { All (λ a. IsSome (Self.A.held atoms.new a)) (answer_names Self.Term.names result) }
        ensures holds { Holds (Self.A.held atoms.old) (Self.A.held atoms.new) }
        ensures refusals { Self.A.refusals atoms.new ≡ Self.A.refusals atoms.old ++ refusals_by result }
        ensures asked { Gains (IsInAnswer Self.Term.term Self.Term.key_of (text_of (Self.A.held atoms.old)) visit (told self.old))
            (Self.A.asked atoms.old) (Self.A.asked atoms.new) };

    /// A visit that asks for this, where its answer is known without a look at the shared state: it is made, and is answered with
    /// what `lent` lends then, at the generation. None: nothing has changed, and the visit is still to be made.
    fn again(
        &mut self,
        asked: &Asked<<Self::Term as Kept>::Key>,
        atoms: &mut Self::A,
    ) -> Option<u64>
        ensures visited { IfSome result (λ g. (before : History) × Visited Self.Term.term Self.Term.key_of
            (text_of (Self.A.held atoms.old)) (text_of (Self.A.held atoms.new)) (visit_for asked.now) (Served (Clauses (at_hand atoms.new)) g) (told self.old) before (told self.new)) }
        ensures none { IfNone result (told self.new ≡ told self.old) }
        ensures runs { IfSome result (λ _. has_ended (told self.new).engine (told self.new).history ≡ false) }
        ensures names { IfSome result (λ _. All (λ a. IsSome (Self.A.held atoms.new a)) (found_names Self.Term.names (at_hand atoms.new))) }
        ensures held { Self.A.held atoms.new ≡ Self.A.held atoms.old }
        ensures refusals { Self.A.refusals atoms.new ≡ Self.A.refusals atoms.old }
        ensures asked { Self.A.asked atoms.new ≡ Self.A.asked atoms.old };

    /// What `again` has found: the first of the clauses, or that there is none.
    fn lent(atoms: &Self::A) -> &Option<Found<Self::Term>>
        ensures { result.now ≡ at_hand atoms.now };
}
