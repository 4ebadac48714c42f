//! One of two scripts.
use crate::living::Living;
use crate::script::{Next, Script};
use named_terms::NamedTerm;
use pl_model::ends::How;
use pl_term::{Memory, Text};
use term_store::AtomSet;
use world_api::World;

/// One of two scripts over the same terms: engines of one type run the file, or a goal that they were started with.
#[derive(Drop)]
pub enum Either<A, B> {
    /// The first.
    First(A),
    /// The second.
    Second(B),
}

impl<A: Script + Drop, B: Script<Term = A::Term> + Drop> Script for Either<A, B> {
    ghost use Rattle.script_api.specs.Eithers.{EitherIs, either, lines_told, names_same, reported_told, running_told};

    type Term = A::Term;

    ghost execution = { λ text s job cs. either (λ a. A.execution text a job cs) (λ b. B.execution text b job cs) s };

    ghost part = { λ s. either A.part B.part s };

    ghost plays = { λ text s x. EitherIs (λ a. A.plays text a x) (λ b. B.plays text b x) s };

    ghost over = { λ s. either A.over B.over s };

    ghost kept = { λ s. either A.kept B.kept s };

    ghost name = { λ s. either A.name B.name s };

    ghost names = { λ s. either A.names B.names s };

    ghost texts = { λ s c. EitherIs (λ a. A.texts a c) (λ b. B.texts b c) s };

    ghost asks = { λ s q. EitherIs (λ a. A.asks a q) (λ b. B.asks b q) s };

    ghost variables = { λ s. either A.variables B.variables s };

    ghost word = { λ s. either A.word B.word s };

    ghost names_tell = { λ s text other same. names_same A.execution B.execution A.plays B.plays A.names B.names A.names_tell B.names_tell s text other same };

    ghost lines = { λ text s job cs. lines_told A.execution B.execution A.lines B.lines text s job cs };

    ghost running = { λ text s job cs. running_told A.execution B.execution A.running B.running text s job cs };

    ghost reported = { λ text s job cs. reported_told A.execution B.execution A.reported B.reported text s job cs };

    fn variable_names(&self) -> &[(Text, u64)] {
        match self {
            Either::First(script) => script.variable_names(),
            Either::Second(script) => script.variable_names(),
        }
    }

    fn next<W: World<Term = A::Term>>(
        &mut self,
        ended: Option<&How<NamedTerm>>,
        world: &mut W,
        atoms: &mut W::A,
        text: &mut Vec<u8>,
        moves: &mut u64,
    ) -> Next<A::Term> {
        match self {
            Either::First(script) => script.next(ended, world, atoms, text, moves),
            Either::Second(script) => script.next(ended, world, atoms, text, moves),
        }
    }
}

impl<A: Living + Drop, B: Living + Script<Term = A::Term> + Drop> Living for Either<A, B> {
    fn live_in(&self, live: &mut AtomSet) -> Result<(), Memory> {
        match self {
            Either::First(script) => script.live_in(live),
            Either::Second(script) => script.live_in(live),
        }
    }
}
