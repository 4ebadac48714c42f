//! How far the script has come.
ghost use Rattle.std.specs.Prelude.{◌≡◌};
ghost use Rattle.pl_consult.specs.declared.consult.Place.{Place};
ghost use Rattle.pl_consult.specs.FileScripts.{is_lost};
ghost use Rattle.pl_consult.specs.Steps.{can_step, directive_place, part_of};

use named_terms::NamedTerm;
use op_table::OpTable;
use pl_model::ends::How;
use pl_term::Flat;
use script_api::Next;
use std::sync::Arc;
use term_store::Stored;

/// What the first engine has to do next.
#[derive(Drop)]
pub enum Stage {
    /// The next item of the file is to be taken up, or after its end the next goal of initialization/1.
    Items,
    /// The clause of the item at this byte, which was read under these operators, is to be added.
    Clause {
        clause: Flat,
        place: usize,
        operators: Arc<OpTable>,
    },
    /// The goal of the directive at this byte is to be given.
    Directive {
        goal: Flat,
        place: usize,
    },
    /// It is searched for.
    AtDirective {
        place: usize,
    },
    /// It has ended so, which is to be reported.
    Report {
        place: usize,
        how: How<NamedTerm>,
    },
    /// The goal words are to be read.
    Words,
    /// These goals are to be started as engines of their own, each with its number, from the place `at` on; the words were
    /// read under these operators. Then the first goal is to be given, if there is one.
    Starts {
        operators: Arc<OpTable>,
        first: Option<Flat>,
        goals: Vec<(u64, Flat)>,
        at: usize,
    },
    /// The first goal of the command is to be given.
    Goal {
        goal: Flat,
    },
    /// It is searched for.
    AtGoal,
    /// Nothing is left to be done.
    Over,
    /// The script is lost because memory ran out.
    Lost,
}

/// Whether a step is to be made at this stage: no goal is searched for, and the script is neither over nor lost.
pub(crate) fn can_step(stage: &Stage) -> bool
    ensures { result ≡ can_step stage.now }
{
    match stage {
        Stage::Items => true,
        Stage::Clause { .. } => true,
        Stage::Directive { .. } => true,
        Stage::AtDirective { .. } => false,
        Stage::Report { .. } => true,
        Stage::Words => true,
        Stage::Starts { .. } => true,
        Stage::Goal { .. } => true,
        Stage::AtGoal => false,
        Stage::Over => false,
        Stage::Lost => false,
    }
}

/// Whether the script is lost.
pub(crate) fn is_lost(stage: &Stage) -> bool
    ensures { result ≡ is_lost stage.now }
{
    match stage {
        Stage::Lost => true,
        _ => false,
    }
}

/// The byte of the directive whose goal is searched for, if one is.
pub(crate) fn directive_at(stage: &Stage) -> Option<usize>
    ensures { (p : Place) → result ≡ directive_place (part_of p stage.now) }
{
    match stage {
        Stage::Items => None,
        Stage::Clause { .. } => None,
        Stage::Directive { .. } => None,
        Stage::AtDirective { place } => Some(*place),
        Stage::Report { .. } => None,
        Stage::Words => None,
        Stage::Starts { .. } => None,
        Stage::Goal { .. } => None,
        Stage::AtGoal => None,
        Stage::Over => None,
        Stage::Lost => None,
    }
}

/// What a step of the script leads to.
#[derive(Drop)]
pub enum Step {
    /// The script goes on.
    Goes,
    /// The script gives this.
    Gives(Next<Stored>),
}
