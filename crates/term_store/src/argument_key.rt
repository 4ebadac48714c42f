//! What a first argument is found by.
ghost use Rattle.std.specs.Prelude.{◌≡◌};
ghost use Rattle.term_store.specs.ArgumentKeys.{rank, key_order};

use std::cmp::Ordering;

/// What first-argument indexing finds a clause over atoms by (SWI-Prolog manual, section 2.17): the kind of its head's
/// first argument, with an integer's value, an atom's slot, or a compound term's name and arity.
#[derive(Clone, Copy, Debug, Drop)]
pub enum ArgumentKey {
    /// A variable, or no argument.
    Any,
    Int(i64),
    Atom(u32),
    /// A compound term's name and the number of its arguments.
    Compound(u32, usize),
}

impl ArgumentKey {
    /// The place of its kind in the order.
    fn rank(&self) -> u8
        ensures { result ≡ rank self.now }
    {
        match self {
            ArgumentKey::Any => 0,
            ArgumentKey::Int(_) => 1,
            ArgumentKey::Atom(_) => 2,
            ArgumentKey::Compound(_, _) => 3,
        }
    }

    /// The order of two: by kind, then by value, or by name and arity.
    fn order(&self, other: &ArgumentKey) -> Ordering
        ensures { result ≡ key_order self.now other.now }
    {
        match (self, other) {
            (ArgumentKey::Int(i), ArgumentKey::Int(j)) => i.cmp(j),
            (ArgumentKey::Atom(a), ArgumentKey::Atom(b)) => a.cmp(b),
            (ArgumentKey::Compound(f, k), ArgumentKey::Compound(g, l)) => f.cmp(g).then(k.cmp(l)),
            _ => self.rank().cmp(&other.rank()),
        }
    }
}

impl PartialEq for ArgumentKey {
    ghost use Rattle.std.specs.Ordering.{eq_by_cmp};
    ghost use Rattle.std.specs.Cmp.{partial_equiv_from_equiv, eq_by_cmp_equiv};
    ghost use Rattle.term_store.specs.ArgumentKeys.{key_order, key_order_total};

    ghost eq = { eq_by_cmp key_order };

    ghost laws = { partial_equiv_from_equiv (eq_by_cmp_equiv key_order_total) };

    fn eq(&self, other: &ArgumentKey) -> bool {
        self.order(other).is_eq()
    }
}

impl Eq for ArgumentKey {
    ghost use Rattle.std.specs.Cmp.{eq_by_cmp_equiv};
    ghost use Rattle.term_store.specs.ArgumentKeys.{key_order_total};

    ghost laws = { eq_by_cmp_equiv key_order_total };
}

impl PartialOrd for ArgumentKey {
    ghost use Rattle.std.specs.Prelude.{refl};
    ghost use Rattle.std.specs.Ordering.{as_partial_cmp};
    ghost use Rattle.std.specs.Cmp.{po};
    ghost use Rattle.term_store.specs.ArgumentKeys.{key_order, key_order_total};

    ghost partial_cmp = { as_partial_cmp key_order };

    ghost laws = { po key_order_total (λ x y. refl) };

    fn partial_cmp(&self, other: &ArgumentKey) -> Option<Ordering> {
        Some(self.order(other))
    }
}

impl Ord for ArgumentKey {
    ghost use Rattle.std.specs.Prelude.{refl};
    ghost use Rattle.term_store.specs.ArgumentKeys.{key_order, key_order_total};

    ghost cmp = { key_order };

    ghost total = { key_order_total };

    ghost matches_partial_cmp = { λ x y. refl };

    ghost matches_eq = { λ x y. refl };

    fn cmp(&self, other: &ArgumentKey) -> Ordering {
        self.order(other)
    }
}
