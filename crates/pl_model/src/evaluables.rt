//! Evaluable functors, why a term has no value (ISO 7.9, 9.1, 9.3, 9.4), and worked values.
ghost use Rattle.std.specs.Prelude.{◌≡◌, ◌≢◌, ◌<◌, codes, ℤ, pos, negsuc, ◌+ℤ◌, ◌*ℤ◌, ◌≤ℤ◌, ◌<ℤ◌, unsigned_abs, int_div, int_rem, Ok, Err};
ghost use Rattle.pl_term.specs.declared.node.Node.TheVariants.{Atom, Comp};
ghost use Rattle.pl_term.specs.Tree.{Tree, var, int, atom, comp, none, more};
ghost use Rattle.pl_model.specs.Evaluables.{applied1, applied2, evaluated, floor_div, modulo};

use pl_term::{Memory, Node};

/// An evaluable functor of one argument.
#[derive(Debug, Clone, Copy, PartialEq, Eq, Drop)]
pub enum Op1 {
    /// `-`: the number with the other sign.
    Negate,
    /// `+`: the number itself.
    Plus,
    /// `abs`: the number without its sign.
    Absolute,
    /// `sign`: -1, 0 or 1.
    Sign,
    /// `\`: the bitwise complement.
    Complement,
}

/// An evaluable functor of two arguments.
#[derive(Debug, Clone, Copy, PartialEq, Eq, Drop)]
pub enum Op2 {
    /// `+`
    Add,
    /// `-`
    Subtract,
    /// `*`
    Multiply,
    /// `min`
    Minimum,
    /// `max`
    Maximum,
    /// `//`: the quotient, rounded toward zero.
    Quotient,
    /// `rem`: what `//` leaves, with the dividend's sign.
    Rem,
    /// `div`: the quotient, rounded downward.
    Div,
    /// `mod`: what `div` leaves, with the divisor's sign.
    Mod,
    /// `/\`: bitwise and.
    BitAnd,
    /// `\/`: bitwise or.
    BitOr,
    /// `<<`
    ShiftLeft,
    /// `>>`: the shift that keeps the sign.
    ShiftRight,
    /// `**`: the integer power.
    Power,
    /// `^`: the integer power.
    IntegerPower,
}

/// Why an operation has no value.
#[derive(Debug, Clone, Copy, PartialEq, Eq, Drop)]
pub enum OpFault {
    /// The divisor is zero.
    ZeroDivisor,
    /// The result is no integer of 64 bits.
    IntOverflow,
    /// There is no such number: a shift by less than 0 or more than 63 places, or 0 to a negative power.
    Undefined,
    /// The result of a negative power is no integer: only a base of 1 or -1 has one.
    NeedsFloat { base: i64 },
}

/// Why a term has no value.
#[derive(Debug, Drop)]
pub enum EvalFault {
    /// A variable stands where a number is wanted.
    Inst,
    /// The atom, or the name and number of arguments, of a subterm that is no evaluable.
    NotEvaluable { node: Node },
    /// An operation has no value.
    Operation { fault: OpFault },
    /// Out of memory.
    Memory,
}

impl From<Memory> for EvalFault {
    ghost use Rattle.pl_model.specs.declared.evaluables.EvalFault.{EvalFault};

    ghost from_gives = { λ _ f. f ≡ EvalFault.Memory };

    fn from(_e: Memory) -> EvalFault {
        EvalFault::Memory
    }
}

/// Each of the two quotients and its rest make up the dividend. The rest of the quotient rounded toward zero is smaller
/// than the divisor; that of the quotient rounded downward has the divisor's sign besides, so that the quotient is the
/// greatest integer that is not above the exact one.
pub fn division_leaves_a_rest()
    ensures toward_zero { (x y : ℤ) → int_div x y *ℤ y +ℤ int_rem x y ≡ x }
    ensures smaller { (x y : ℤ) → y ≢ pos 0 → unsigned_abs (int_rem x y) < unsigned_abs y }
    ensures downward { (x y : ℤ) → floor_div x y *ℤ y +ℤ modulo x y ≡ x }
    ensures positive { (x y : ℤ) → pos 0 <ℤ y → (pos 0 ≤ℤ modulo x y) × (modulo x y <ℤ y) }
    ensures negative { (x y : ℤ) → y <ℤ pos 0 → (y <ℤ modulo x y) × (modulo x y ≤ℤ pos 0) }
{}

/// `1 + 2 * 3` is 7.
pub fn sums_a_product()
    ensures { evaluated (comp (codes "+") (int (pos 1))
        (more (comp (codes "*") (int (pos 2)) (more (int (pos 3)) none)) none)) ≡ Ok (pos 7) }
{}

/// `1 // 0` has no value.
pub fn refuses_a_zero_divisor()
    ensures { evaluated (comp (codes "//") (int (pos 1)) (more (int (pos 0)) none))
        ≡ Err (EvalFault.Operation OpFault.ZeroDivisor) }
{}

/// `7 mod -2` is -1, and `-7 // 2` is -3.
pub fn rounds_by_signs()
    ensures modulo { evaluated (comp (codes "mod") (int (pos 7)) (more (int (negsuc 1)) none)) ≡ Ok (negsuc 0) }
    ensures quotient { evaluated (comp (codes "//") (int (negsuc 6)) (more (int (pos 2)) none)) ≡ Ok (negsuc 2) }
    ensures remainder { applied2 Op2.Rem (pos 7) (negsuc 1) ≡ Ok (pos 1) }
    ensures downward { applied2 Op2.Div (pos 7) (negsuc 1) ≡ Ok (negsuc 3) }
{}

/// The least integer divided by -1 is an overflow, and leaves 0.
pub fn divides_the_least_integer()
    ensures quotient { applied2 Op2.Quotient (negsuc 9223372036854775807) (negsuc 0) ≡ Err OpFault.IntOverflow }
    ensures downward { applied2 Op2.Div (negsuc 9223372036854775807) (negsuc 0) ≡ Err OpFault.IntOverflow }
    ensures remainder { applied2 Op2.Rem (negsuc 9223372036854775807) (negsuc 0) ≡ Ok (pos 0) }
    ensures modulo { applied2 Op2.Mod (negsuc 9223372036854775807) (negsuc 0) ≡ Ok (pos 0) }
    ensures negated { applied1 Op1.Negate (negsuc 9223372036854775807) ≡ Err OpFault.IntOverflow }
    ensures absolute { applied1 Op1.Absolute (negsuc 9223372036854775807) ≡ Err OpFault.IntOverflow }
{}

/// Powers: 0 to the power 0 is 1, 2 to the power 63 is an overflow, -2 to the power 63 is the least integer.
pub fn raises_to_powers()
    ensures nothing { applied2 Op2.Power (pos 0) (pos 0) ≡ Ok (pos 1) }
    ensures overflow { applied2 Op2.IntegerPower (pos 2) (pos 63) ≡ Err OpFault.IntOverflow }
    ensures least { applied2 Op2.IntegerPower (negsuc 1) (pos 63) ≡ Ok (negsuc 9223372036854775807) }
    ensures reciprocal { applied2 Op2.IntegerPower (negsuc 0) (negsuc 2) ≡ Ok (negsuc 0) }
    ensures undefined { applied2 Op2.Power (pos 0) (negsuc 0) ≡ Err OpFault.Undefined }
    ensures no_integer { applied2 Op2.Power (pos 2) (negsuc 0) ≡ Err (OpFault.NeedsFloat (pos 2)) }
{}

/// Bits: the operations on the two's complement code, and the shifts.
pub fn works_on_bits()
    ensures both { applied2 Op2.BitAnd (negsuc 5) (pos 12) ≡ Ok (pos 8) }
    ensures either { applied2 Op2.BitOr (negsuc 5) (pos 1) ≡ Ok (negsuc 4) }
    ensures complement { applied1 Op1.Complement (pos 5) ≡ Ok (negsuc 5) }
    ensures left { applied2 Op2.ShiftLeft (negsuc 0) (pos 63) ≡ Ok (negsuc 9223372036854775807) }
    ensures left_overflow { applied2 Op2.ShiftLeft (pos 1) (pos 63) ≡ Err OpFault.IntOverflow }
    ensures right { applied2 Op2.ShiftRight (negsuc 6) (pos 1) ≡ Ok (negsuc 3) }
    ensures too_far { applied2 Op2.ShiftRight (pos 1) (pos 64) ≡ Err OpFault.Undefined }
    ensures backward { applied2 Op2.ShiftLeft (pos 1) (negsuc 0) ≡ Err OpFault.Undefined }
{}

/// Of several faults the first one counts: a functor before its arguments, an argument before those to its right, and
/// the arguments before the operation.
pub fn finds_the_first_fault()
    ensures functor { evaluated (comp (codes "foo") (var 0) none)
        ≡ Err (EvalFault.NotEvaluable (Comp (codes "foo") 1)) }
    ensures left_variable { evaluated (comp (codes "+") (var 0) (more (atom (codes "a")) none)) ≡ Err EvalFault.Inst }
    ensures left_atom { evaluated (comp (codes "+") (atom (codes "a")) (more (var 0) none))
        ≡ Err (EvalFault.NotEvaluable (Atom (codes "a"))) }
    ensures argument { evaluated (comp (codes "//") (var 0) (more (int (pos 0)) none)) ≡ Err EvalFault.Inst }
    ensures arity { evaluated (comp (codes "mod") (int (pos 1)) none)
        ≡ Err (EvalFault.NotEvaluable (Comp (codes "mod") 1)) }
{}
