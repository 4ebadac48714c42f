//! Predicates that are none of the system.
ghost use Rattle.std.specs.Prelude.{◌≡◌, IfSome, false};
ghost use Rattle.pl_model.specs.Database.{is_system};
ghost use Rattle.pl_model.specs.laws.Shown.{proc_of};

use pl_model::shows::Proc;
use pl_model::system::is_system;
use std::marker::Model;

/// A predicate in texts that is none of the system, seen by contracts as the predicate.
#[derive(Drop)]
pub(crate) struct OpenPredicate {
    predicate: Proc,
}

impl Model for OpenPredicate {
    ghost use Rattle.std.specs.Prelude.{◌≡◌, false};
    ghost use Rattle.std.specs.Coded.{codes};
    ghost use Rattle.pl_model.specs.History as entries;
    ghost use Rattle.pl_model.specs.Database.{is_system};
    ghost use Rattle.pl_model.specs.laws.Shown.{proc_of};

    ghost Value = { entries.Proc };

    ghost coded = { Prim.hlevel (codes) };

    ghost view = { λ o. proc_of o.predicate };

    ghost invariant = { λ o. is_system (proc_of o.predicate) ≡ false };
}

impl OpenPredicate {
    /// The predicate, where it is none of the system.
    pub(crate) fn of(predicate: Proc) -> Option<OpenPredicate>
        ensures { IfSome result (λ o. o ≡ proc_of predicate) }
    {
        if is_system(&predicate.name, predicate.arity) {
            return None;
        }
        Some(OpenPredicate { predicate })
    }

    /// It is none of the system. It does nothing.
    pub(crate) fn is_open(&self)
        ensures { is_system self.now ≡ false }
    {
        let _arity = self.predicate.arity;
    }

    /// The predicate.
    pub(crate) fn predicate(&self) -> &Proc
        ensures { proc_of result.now ≡ self.now }
    {
        &self.predicate
    }

    /// The predicate by itself.
    pub(crate) fn into_predicate(self) -> Proc
        ensures { proc_of result ≡ self }
    {
        self.predicate
    }
}
