//! The table that all fronts share: word 0 is the floor, word 1 the generation, and then comes a pin for each engine.
//! What its steps tell, and how views are put together and cut.
use atomic_table::{Join, Play, Seat, Split, Table, TableRule};
use std::alloc::Global;
use std::marker::{Brand, Model, PhantomData};

/// The word that is at most each pin.
pub(crate) const FLOOR: usize = 0;

/// The word that is the length of the history.
pub(crate) const GENERATION: usize = 1;

/// What a seat at the table knows. No value of it is made.
pub struct Known;

impl Model for Known {
    ghost use Rattle.pl_history.specs.Steps.{View, nobody};
    ghost use Rattle.pl_history.specs.Codes.{coded_view};

    ghost Value = { View };

    ghost coded = { coded_view };

    ghost view = { λ _. nobody };
}

/// The words are those of a state that the steps of a history reach. The key is the number of engines.
pub struct Rules;

impl TableRule<(), Known, u32> for Rules {
    ghost use Rattle.pl_history.specs.Steps.{Ruled, hub_alone, at_start};

    ghost holds = { λ engines. Ruled engines };

    ghost first = { λ _. hub_alone at_start };
}

pub(crate) type Words = Table<(), Known, u32, Rules, Global>;

pub(crate) type Place = Seat<(), Known>;

/// The entry that a step appends. The call picks it.
pub trait Adds {
    ghost use Rattle.pl_model.specs.History.{Entry};

    ghost entry: { Entry };
}

impl Adds for Brand {
    ghost use Rattle.pl_model.specs.History.{erase};

    ghost entry = { record { engine = 0; kind = erase 0 } };
}

/// The engine that a step hands over. The call picks it.
pub trait Names {
    ghost use Rattle.std.specs.Prelude.{ℕ};

    ghost engine: { ℕ };
}

impl Names for Brand {
    ghost engine = { 0 };
}

/// A new seat.
pub struct NewSeat;

impl Play<(), Known> for NewSeat {
    ghost use Rattle.std.specs.Prelude.{◌≡◌, []};
    ghost use Rattle.pl_history.specs.Steps.{front_alone, newcomer};

    ghost then = { λ _ _ _ new. new ≡ (front_alone newcomer, []) };
}

/// An entry is appended.
pub struct Appends<N> {
    of: PhantomData<N>,
}

impl<N: Adds> Play<(), Known> for Appends<N> {
    ghost use Rattle.pl_history.specs.Seats.{Tells, after_append};

    ghost then = { λ _. Tells (after_append N.entry) };
}

/// A visit.
pub struct Visits;

impl Play<(), Known> for Visits {
    ghost use Rattle.pl_history.specs.Seats.{Tells, after_visit};

    ghost then = { λ _. Tells after_visit };
}

/// A visit that adds no generation to a list.
pub struct Looks;

impl Play<(), Known> for Looks {
    ghost use Rattle.pl_history.specs.Seats.{Tells, after_look};

    ghost then = { λ _. Tells after_look };
}

/// A load that is a visit of a front alone, where it has seen all.
pub struct Revisits;

impl Play<(), Known> for Revisits {
    ghost use Rattle.pl_history.specs.Seats.{Revisited};

    ghost then = { λ _. Revisited };
}

/// A load at which the first of two fronts tells the second what it has seen.
pub struct Informs;

impl Play<(), Known> for Informs {
    ghost use Rattle.pl_history.specs.Seats.{Informed};

    ghost then = { λ _ old _ new. Informed old new };
}

/// A load that changes nothing.
pub struct Compares;

impl Play<(), Known> for Compares {
    ghost use Rattle.pl_history.specs.Seats.{Compared};

    ghost then = { λ _ old _ new. Compared old new };
}

/// A load that tells how far the front is behind, and changes nothing.
pub struct Behind;

impl Play<(), Known> for Behind {
    ghost use Rattle.pl_history.specs.Seats.{Tells, after_nothing};

    ghost then = { λ _. Tells after_nothing };
}

/// Two views side by side.
pub struct Beside;

impl Join<Known> for Beside {
    ghost use Rattle.pl_history.specs.Steps.{beside, nobody};

    ghost both = { beside };

    ghost spent = { nobody };
}

/// Two fronts made one.
pub struct AsOne;

impl Join<Known> for AsOne {
    ghost use Rattle.pl_history.specs.Steps.{as_one, nobody};

    ghost both = { as_one };

    ghost spent = { nobody };
}

/// The hub's front stays, and the others leave.
pub struct FromHub;

impl Split<Known> for FromHub {
    ghost use Rattle.pl_history.specs.Steps.{kept, cut_off};

    ghost left = { kept 0 };

    ghost right = { cut_off 0 };
}

/// The first front stays, and the others leave.
pub struct FromFirst;

impl Split<Known> for FromFirst {
    ghost use Rattle.pl_history.specs.Steps.{kept, cut_off};

    ghost left = { kept 1 };

    ghost right = { cut_off 1 };
}

/// The hub's front stays, and the other leaves with one of its engines.
pub struct Hands<N> {
    of: PhantomData<N>,
}

impl<N: Names> Split<Known> for Hands<N> {
    ghost use Rattle.pl_history.specs.Steps.{kept_by_hub, handed};

    ghost left = { kept_by_hub N.engine };

    ghost right = { handed N.engine };
}
