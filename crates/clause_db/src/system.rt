//! The predicates of the system.
ghost use Rattle.std.specs.Prelude.{◌≡◌};
ghost use Rattle.pl_model.specs.laws.Shown.{proc_of};
ghost use Rattle.pl_model.specs.Database.{is_system};

use pl_model::shows::Proc;
use pl_model::system;

/// Whether the predicate is one of the system, which no program can change.
pub fn is_system(p: &Proc) -> bool
    ensures { result ≡ is_system (proc_of p.now) }
{
    system::is_system(&p.name, p.arity)
}
