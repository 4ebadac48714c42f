//! What is written of an engine.
use engine_run::Runner;
use script_api::{Living, Roots, Script};
use term_store::Stored;

/// An engine of which something is written, and whose atoms can be listed.
pub trait Writes: Roots {
    ghost use Rattle.pl_sched.specs.Written.{Writing};

    // What is written of its goal, the name of the file that it consults, and the word that its goal is.
    ghost writing: { Self → Writing };
}

impl<S: Living + Script<Term = Stored> + Drop> Writes for Runner<S> {
    ghost writing = { λ r. record { lines = r.lines; file = S.name r.script; word = S.word r.script } };
}
