//! Goals that leave what runs: by a ball (ISO 7.8.10) or an exit status (ISO 8.17.4).
ghost use Rattle.std.specs.Prelude.{◌≡◌};
ghost use Rattle.pl_term.specs.Tree.{Tree};
ghost use Rattle.pl_model.specs.Predicates.{proc_of};
ghost use Rattle.pl_model.specs.Resolution.{Node};
ghost use Rattle.pl_model.specs.Control.{with_status, with_throw};
ghost use Rattle.term_store.specs.Contents.{Holds};
ghost use Rattle.iso_search.specs.Outcomes.{IsOutcomeIn, Setting, result_in, state_in, status_outcome};
ghost use Rattle.iso_search.specs.Reading.{reads};

use crate::outcome::{Fault, Outcome};
use crate::search::Search;
use term_store::{Place, View as Kind};

/// The greatest exit status of a goal. The status above it is that of out of memory alone.
const MOST: i64 = 254;

impl Search {
    /// `throw/1` of the term at a place.
    pub fn throw(&self, ball: Place) -> Outcome
        requires { Holds self.now.store ball }
        ensures inside { IsOutcomeIn self.now self.now result }
        ensures step { (t : Setting) (n : Node) (g : Tree)
            → result_in t self.now n (proc_of g) result ≡ with_throw (state_in t self.now) n g (reads t.view self.now.store ball) }
    {
        match self.store.look(ball) {
            Kind::Variable(_) => Outcome::Raise(Fault::Instantiation),
            Kind::Integer(_) => Outcome::Throw(ball),
            Kind::Atom(_) => Outcome::Throw(ball),
            Kind::Compound(_, _) => Outcome::Throw(ball),
        }
    }

    /// `halt/1` with the term at a place.
    pub fn halt(&self, status: Place) -> Outcome
        requires { Holds self.now.store status }
        ensures inside { IsOutcomeIn self.now self.now result }
        ensures step { (t : Setting) (n : Node) (g : Tree)
            → result_in t self.now n (proc_of g) result ≡ with_status (state_in t self.now) n g (reads t.view self.now.store status) }
    {
        match self.store.look(status) {
            Kind::Variable(_) => Outcome::Raise(Fault::Instantiation),
            Kind::Integer(i) => exit_with(status, i),
            Kind::Atom(_) => Outcome::Raise(Fault::NotInteger(status)),
            Kind::Compound(_, _) => Outcome::Raise(Fault::NotInteger(status)),
        }
    }
}

/// The exit with a status, or the error where it is none.
fn exit_with(place: Place, status: i64) -> Outcome
    ensures { result ≡ status_outcome place status }
{
    if status < 0 {
        return Outcome::Raise(Fault::NotStatus(place));
    }
    if status > MOST {
        return Outcome::Raise(Fault::NotStatus(place));
    }
    Outcome::Halt(status as u8)
}
