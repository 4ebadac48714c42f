//! Kinds of terms that pass checks.
use builtin_rows::Kinds;

/// What is no variable.
pub const BOUND: Kinds = Kinds {
    variable: false,
    integer: true,
    atom: true,
    compound: true,
};

/// Variables.
pub const VARIABLE: Kinds = Kinds {
    variable: true,
    integer: false,
    atom: false,
    compound: false,
};

/// Atoms.
pub const NAME: Kinds = Kinds {
    variable: false,
    integer: false,
    atom: true,
    compound: false,
};

/// Atoms and variables.
pub const ATOM: Kinds = Kinds {
    variable: true,
    integer: false,
    atom: true,
    compound: false,
};

/// Integers and variables.
pub const INTEGER: Kinds = Kinds {
    variable: true,
    integer: true,
    atom: false,
    compound: false,
};

/// What is callable, and variables.
pub const CALLABLE: Kinds = Kinds {
    variable: true,
    integer: false,
    atom: true,
    compound: true,
};
