//! Which run it is.
use atom_table::NamesTable;
use std::marker::Brand;

/// Which history it is, beside the table of atoms, and for a command with how many goals. The call picks it, so that each
/// type that names it speaks of one run.
pub trait Naming: NamesTable {
    ghost use Rattle.std.specs.Prelude.{ℕ};
    ghost use Rattle.atomic_table.specs.Seated.{TableId};

    ghost history: { TableId };

    ghost goals: { ℕ };
}

impl Naming for Brand {
    ghost use Rattle.atom_table.specs.Tables.{no_table};

    ghost history = { no_table };

    ghost goals = { 0 };
}
