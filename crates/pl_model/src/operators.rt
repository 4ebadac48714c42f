//! The kinds and the places of operators, and laws of the operator table.
ghost use Rattle.std.specs.Prelude.{◌≡◌, ℕ, Some, None, IsTrue, codes, length, map};
ghost use Rattle.pl_term.specs.Tree.{Chars};
ghost use Rattle.pl_model.specs.OperatorTable.{Key, Entry, OperatorTable, operator_at, operators, opening_rows, opening_table, refusal, changed, priority, IsSound};
ghost use Rattle.pl_model.specs.declared.operators.Kind.{Kind};
ghost use Rattle.pl_model.specs.declared.operators.Kind.TheVariants.{Xfx};
ghost use Rattle.pl_model.specs.declared.operators.Place.TheVariants.{Infix};

/// The specifier of an operator (ISO 6.3.4, table 4): where it stands and which arguments it takes. An `x` stands for
/// an argument of lower priority than the operator's own, a `y` for one of at most the operator's own.
#[derive(Debug, Clone, Copy, PartialEq, Eq, Drop)]
pub enum Kind {
    Xfx,
    Xfy,
    Yfx,
    Fy,
    Fx,
    Xf,
    Yf,
}

/// Where an operator stands (ISO 6.3.4): before its argument, between its arguments, or after its argument.
#[derive(Debug, Clone, Copy, PartialEq, Eq, Drop)]
pub enum Place {
    Prefix,
    Infix,
    Postfix,
}

/// Each operator at the start is found at its name and place, and there are 45.
pub fn opening_is_read_back()
    ensures rows { map (λ (e : Key × Entry). operator_at opening_table e.0.0 e.0.1) opening_rows ≡ map (λ (e : Key × Entry). Some e.1) opening_rows }
    ensures count { length (operators opening_table) ≡ 45 }
{}

/// A new infix operator is found; a priority above 1200 is refused.
pub fn changes_are_read_back()
    ensures made { refusal opening_table 700 (Some Xfx) (codes "===>") ≡ None }
    ensures found { operator_at (changed opening_table 700 Xfx (codes "===>")) (codes "===>") Infix ≡ Some (700, Xfx) }
    ensures refused { refusal opening_table 1201 (Some Xfx) (codes "a") ≡ Some priority }
{}

/// The table at the start is sound, and so is each table that a change which is not refused makes of a sound one.
pub fn tables_stay_sound()
    ensures opening { IsSound opening_table }
    ensures changed { (t : OperatorTable) (p : ℕ) (k : Kind) (f : Chars) → IsSound t → refusal t p (Some k) f ≡ None → IsSound (changed t p k f) }
{}
