//! Which command it is.
use pl_hub::Naming;
use std::marker::Brand;

/// Which command a run is of, beside its history and its table of atoms. The call picks it.
pub trait Command: Naming {
    ghost use Rattle.std.specs.Prelude.{ℕ};
    ghost use Rattle.pl_term.specs.Tree.{Chars};
    ghost use Rattle.run_model.specs.Lawful.{Program};

    ghost program: { Program };

    // The name of the file, which what is written of it names.
    ghost file: { Chars };

    // The board on which the words of its goals are written.
    ghost board: { ℕ };
}

impl Command for Brand {
    ghost use Rattle.std.specs.Prelude.{[]};
    ghost use Rattle.pl_sched.specs.Programs.{no_program};

    ghost program = { no_program };

    ghost file = { [] };

    ghost board = { 0 };
}
