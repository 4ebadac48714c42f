//! What a first argument is found by.
ghost use Rattle.std.specs.Prelude.{◌≡◌};
ghost use Rattle.pl_model.specs.FirstArgumentOrder.{rank, order_of};

use pl_term::Text;
use std::cmp::Ordering;

/// What first-argument indexing finds a clause by (SWI-Prolog manual, section 2.17): the kind of its head's first
/// argument, with a constant's value and a compound term's name and arity.
#[derive(Debug, Drop)]
pub enum FirstArgument {
    /// A variable, or no argument.
    Any,
    Int(i64),
    Atom(Text),
    /// A compound term's name and the number of its arguments.
    Compound(Text, u64),
}

impl FirstArgument {
    /// The place of its kind in the order.
    fn rank(&self) -> u8
        ensures { result ≡ rank self.now }
    {
        match self {
            FirstArgument::Any => 0,
            FirstArgument::Int(_) => 1,
            FirstArgument::Atom(_) => 2,
            FirstArgument::Compound(_, _) => 3,
        }
    }

    /// The order of two: by kind, then by value, or by name and arity.
    fn order(&self, other: &FirstArgument) -> Ordering
        ensures { result ≡ order_of self.now other.now }
    {
        match (self, other) {
            (FirstArgument::Int(i), FirstArgument::Int(j)) => i.cmp(j),
            (FirstArgument::Atom(a), FirstArgument::Atom(b)) => a.compare(b),
            (FirstArgument::Compound(f, k), FirstArgument::Compound(g, l)) => {
                f.compare(g).then(k.cmp(l))
            }
            _ => self.rank().cmp(&other.rank()),
        }
    }
}

impl PartialEq for FirstArgument {
    ghost use Rattle.std.specs.Ordering.{eq_by_cmp};
    ghost use Rattle.std.specs.Cmp.{partial_equiv_from_equiv, eq_by_cmp_equiv};
    ghost use Rattle.pl_model.specs.FirstArgumentOrder.{order_of, order_of_total};

    ghost eq = { eq_by_cmp order_of };

    ghost laws = { partial_equiv_from_equiv (eq_by_cmp_equiv order_of_total) };

    fn eq(&self, other: &FirstArgument) -> bool {
        self.order(other).is_eq()
    }
}

impl Eq for FirstArgument {
    ghost use Rattle.std.specs.Cmp.{eq_by_cmp_equiv};
    ghost use Rattle.pl_model.specs.FirstArgumentOrder.{order_of_total};

    ghost laws = { eq_by_cmp_equiv order_of_total };
}

impl PartialOrd for FirstArgument {
    ghost use Rattle.std.specs.Prelude.{refl};
    ghost use Rattle.std.specs.Ordering.{as_partial_cmp};
    ghost use Rattle.std.specs.Cmp.{po};
    ghost use Rattle.pl_model.specs.FirstArgumentOrder.{order_of, order_of_total};

    ghost partial_cmp = { as_partial_cmp order_of };

    ghost laws = { po order_of_total (λ x y. refl) };

    fn partial_cmp(&self, other: &FirstArgument) -> Option<Ordering> {
        Some(self.order(other))
    }
}

impl Ord for FirstArgument {
    ghost use Rattle.std.specs.Prelude.{refl};
    ghost use Rattle.pl_model.specs.FirstArgumentOrder.{order_of, order_of_total};

    ghost cmp = { order_of };

    ghost total = { order_of_total };

    ghost matches_partial_cmp = { λ x y. refl };

    ghost matches_eq = { λ x y. refl };

    fn cmp(&self, other: &FirstArgument) -> Ordering {
        self.order(other)
    }
}
