//! The built-in predicates.

use Comparison::{Different, Greater, GreaterOrEqual, Less, LessOrEqual};
use Meaning::{Asks, Row, Steps};
use OfTwo::{Terms, Values};
use Pred::{One, Three, Two};

/// Where the meaning of a built-in predicate stands that is no control construct.
#[derive(Clone, Copy, Debug, Drop)]
pub enum Meaning {
    /// It is a function of its arguments alone.
    Row(Pred),
    /// It asks something of the shared state, or checks for it.
    Asks,
    /// It is a step of the search.
    Steps,
}

/// A built-in predicate that is a function of its arguments alone, by how many they are.
#[derive(Clone, Copy, Debug, Drop)]
pub enum Pred {
    /// It has one argument.
    One(OfOne),
    /// It has two arguments.
    Two(OfTwo),
    /// It has three arguments.
    Three(OfThree),
    /// `sub_atom/5`, ISO 8.16.3.
    SubAtom,
}

/// The predicates of one argument.
#[derive(Clone, Copy, Debug, Drop)]
pub enum OfOne {
    // Type testing (ISO 8.3)
    /// `var/1`, ISO 8.3.1.
    Var,
    /// `nonvar/1`, ISO 8.3.7.
    Nonvar,
    /// `atom/1`, ISO 8.3.2.
    Atom,
    /// `integer/1`, ISO 8.3.3.
    Integer,
    /// `float/1`, ISO 8.3.4.
    Float,
    /// `number/1`, ISO 8.3.8.
    Number,
    /// `atomic/1`, ISO 8.3.5.
    Atomic,
    /// `compound/1`, ISO 8.3.6.
    Compound,
    /// `callable/1`, ISO Cor.2 8.3.9.
    Callable,
    /// `ground/1`, ISO Cor.2 8.3.10.
    Ground,
}

/// The predicates of two arguments.
#[derive(Clone, Copy, Debug, Drop)]
pub enum OfTwo {
    // Unification and comparison (ISO 8.2, 8.4)
    /// `=/2`, ISO 8.2.1.
    Equal,
    /// `unify_with_occurs_check/2`, ISO 8.2.2.
    UnifyWithOccursCheck,
    /// `\=/2`, ISO 8.2.3.
    NotUnifiable,
    /// `subsumes_term/2`, ISO Cor.2 8.2.4.
    SubsumesTerm,
    /// `==/2`, `\==/2`, `@</2`, `@=</2`, `@>/2` and `@>=/2`, ISO 8.4.1: terms are compared in the standard order.
    Terms(Comparison),
    /// `sort/2`, ISO Cor.2 8.4.3.
    Sort,
    /// `msort/2`, SWI-Prolog manual.
    Msort,
    /// `keysort/2`, ISO Cor.2 8.4.4.
    Keysort,

    // Terms (ISO 8.5)
    /// `=../2`, ISO 8.5.3.
    Univ,
    /// `copy_term/2`, ISO 8.5.4.
    CopyTerm,
    /// `term_variables/2`, ISO Cor.2 8.5.5.
    TermVariables,

    // Arithmetic (ISO 8.6, 8.7)
    /// `is/2`, ISO 8.6.1.
    Is,
    /// `=:=/2`, `=\=/2`, `</2`, `=</2`, `>/2` and `>=/2`, ISO 8.7.1: the values of terms are compared.
    Values(Comparison),

    // Atoms (ISO 8.16)
    /// `atom_length/2`, ISO 8.16.1.
    AtomLength,
    /// `atom_chars/2`, ISO 8.16.4.
    AtomChars,
    /// `atom_codes/2`, ISO 8.16.5.
    AtomCodes,
    /// `char_code/2`, ISO 8.16.6.
    CharCode,
    /// `number_chars/2`, ISO 8.16.7.
    NumberChars,
    /// `number_codes/2`, ISO 8.16.8.
    NumberCodes,
}

/// The predicates of three arguments.
#[derive(Clone, Copy, Debug, Drop)]
pub enum OfThree {
    // Unification and comparison (ISO 8.2, 8.4)
    /// `compare/3`, ISO Cor.2 8.4.2.
    Compare,

    // Terms (ISO 8.5)
    /// `functor/3`, ISO 8.5.1.
    Functor,
    /// `arg/3`, ISO 8.5.2.
    Arg,

    // Atoms (ISO 8.16)
    /// `atom_concat/3`, ISO 8.16.2.
    AtomConcat,
}

/// A comparison, of terms or of their values.
#[derive(Clone, Copy, Debug, Drop)]
pub enum Comparison {
    /// `==`, `=:=`
    Equal,
    /// `\==`, `=\=`
    Different,
    /// `@<`, `<`
    Less,
    /// `@=<`, `=<`
    LessOrEqual,
    /// `@>`, `>`
    Greater,
    /// `@>=`, `>=`
    GreaterOrEqual,
}

/// The predicates by the number of their name, from the first fixed atom to the last one that is a name, each with the
/// number of its arguments.
pub(crate) static PREDICATES: [&[(usize, Meaning)]; 203] = [
    // `!`
    &[],
    // `*`
    &[],
    // `**`
    &[],
    // `+`
    &[],
    // `,`
    &[],
    // `-`
    &[],
    // `-->`
    &[],
    // `->`
    &[],
    // `.`
    &[],
    // `/`
    &[],
    // `//`
    &[],
    // `/\`
    &[],
    // `:-`
    &[],
    // `;`
    &[],
    // `<`
    &[(2, Row(Two(Values(Less))))],
    // `<<`
    &[],
    // `=`
    &[(2, Row(Two(OfTwo::Equal)))],
    // `=..`
    &[(2, Row(Two(OfTwo::Univ)))],
    // `=:=`
    &[(2, Row(Two(Values(Comparison::Equal))))],
    // `=<`
    &[(2, Row(Two(Values(LessOrEqual))))],
    // `==`
    &[(2, Row(Two(Terms(Comparison::Equal))))],
    // `=\=`
    &[(2, Row(Two(Values(Different))))],
    // `>`
    &[(2, Row(Two(Values(Greater))))],
    // `>=`
    &[(2, Row(Two(Values(GreaterOrEqual))))],
    // `>>`
    &[],
    // `?-`
    &[],
    // `@<`
    &[(2, Row(Two(Terms(Less))))],
    // `@=<`
    &[(2, Row(Two(Terms(LessOrEqual))))],
    // `@>`
    &[(2, Row(Two(Terms(Greater))))],
    // `@>=`
    &[(2, Row(Two(Terms(GreaterOrEqual))))],
    // `[]`
    &[],
    // `\`
    &[],
    // `\+`
    &[],
    // `\/`
    &[],
    // `\=`
    &[(2, Row(Two(OfTwo::NotUnifiable)))],
    // `\==`
    &[(2, Row(Two(Terms(Different))))],
    // `^`
    &[],
    // `abolish`
    &[(1, Asks)],
    // `abs`
    &[],
    // `access`
    &[],
    // `alias`
    &[],
    // `arg`
    &[(3, Row(Three(OfThree::Arg)))],
    // `assert`
    &[(1, Asks)],
    // `asserta`
    &[(1, Asks)],
    // `assertz`
    &[(1, Asks)],
    // `atom`
    &[(1, Row(One(OfOne::Atom)))],
    // `atom_chars`
    &[(2, Row(Two(OfTwo::AtomChars)))],
    // `atom_codes`
    &[(2, Row(Two(OfTwo::AtomCodes)))],
    // `atom_concat`
    &[(3, Row(Three(OfThree::AtomConcat)))],
    // `atom_length`
    &[(2, Row(Two(OfTwo::AtomLength)))],
    // `atom_space`
    &[],
    // `atomic`
    &[(1, Row(One(OfOne::Atomic)))],
    // `bounded`
    &[],
    // `call`
    &[],
    // `callable`
    &[(1, Row(One(OfOne::Callable)))],
    // `catch`
    &[],
    // `cells`
    &[],
    // `char_code`
    &[(2, Row(Two(OfTwo::CharCode)))],
    // `character`
    &[],
    // `character_code`
    &[],
    // `chars`
    &[],
    // `choices`
    &[],
    // `clause`
    &[(2, Steps)],
    // `codes`
    &[],
    // `compare`
    &[(3, Row(Three(OfThree::Compare)))],
    // `compound`
    &[(1, Row(One(OfOne::Compound)))],
    // `consult`
    &[],
    // `copy_term`
    &[(2, Row(Two(OfTwo::CopyTerm)))],
    // `create`
    &[],
    // `current_op`
    &[(3, Asks)],
    // `current_predicate`
    &[(1, Asks)],
    // `current_prolog_flag`
    &[(2, Asks)],
    // `database`
    &[],
    // `destroy`
    &[],
    // `detached`
    &[],
    // `discontiguous`
    &[(1, Asks)],
    // `div`
    &[],
    // `domain_error`
    &[],
    // `double_quotes`
    &[],
    // `dynamic`
    &[(1, Asks)],
    // `error`
    &[],
    // `evaluable`
    &[],
    // `evaluation_error`
    &[],
    // `exception`
    &[],
    // `existence_error`
    &[],
    // `exit`
    &[],
    // `exit_status`
    &[],
    // `exited`
    &[],
    // `fail`
    &[],
    // `false`
    &[],
    // `findall`
    &[(3, Steps)],
    // `flag`
    &[],
    // `flag_value`
    &[],
    // `float`
    &[(1, Row(One(OfOne::Float)))],
    // `functor`
    &[(3, Row(Three(OfThree::Functor)))],
    // `fx`
    &[],
    // `fy`
    &[],
    // `garbage_collect_atoms`
    &[(0, Asks)],
    // `garbage_collect_clauses`
    &[(0, Asks)],
    // `generations`
    &[],
    // `ground`
    &[(1, Row(One(OfOne::Ground)))],
    // `halt`
    &[],
    // `halted`
    &[],
    // `illegal_number`
    &[],
    // `inferences`
    &[],
    // `initialization`
    &[],
    // `instantiation_error`
    &[],
    // `int_overflow`
    &[],
    // `integer`
    &[(1, Row(One(OfOne::Integer)))],
    // `integer_rounding_function`
    &[],
    // `integer_too_large`
    &[],
    // `is`
    &[(2, Row(Two(OfTwo::Is)))],
    // `join`
    &[],
    // `keysort`
    &[(2, Row(Two(OfTwo::Keysort)))],
    // `list`
    &[],
    // `main`
    &[],
    // `max`
    &[],
    // `max_atom_length`
    &[],
    // `max_integer`
    &[],
    // `message_queue`
    &[],
    // `message_queue_create`
    &[(1, Asks)],
    // `message_queue_destroy`
    &[(1, Asks)],
    // `min`
    &[],
    // `min_integer`
    &[],
    // `mod`
    &[],
    // `modify`
    &[],
    // `msort`
    &[(2, Row(Two(OfTwo::Msort)))],
    // `multifile`
    &[(1, Asks)],
    // `nl`
    &[(0, Steps)],
    // `non_empty_list`
    &[],
    // `nonvar`
    &[(1, Row(One(OfOne::Nonvar)))],
    // `not_less_than_zero`
    &[],
    // `number`
    &[(1, Row(One(OfOne::Number)))],
    // `number_chars`
    &[(2, Row(Two(OfTwo::NumberChars)))],
    // `number_codes`
    &[(2, Row(Two(OfTwo::NumberCodes)))],
    // `once`
    &[],
    // `op`
    &[(3, Asks)],
    // `operator`
    &[],
    // `operator_priority`
    &[],
    // `operator_specifier`
    &[],
    // `order`
    &[],
    // `pair`
    &[],
    // `permission_error`
    &[],
    // `predicate_indicator`
    &[],
    // `print`
    &[(1, Steps)],
    // `private_procedure`
    &[],
    // `procedure`
    &[],
    // `prolog_flag`
    &[],
    // `put_char`
    &[(1, Steps)],
    // `rem`
    &[],
    // `repeat`
    &[],
    // `representation_error`
    &[],
    // `resource_error`
    &[],
    // `retract`
    &[(1, Steps)],
    // `retractall`
    &[(1, Steps)],
    // `set_prolog_flag`
    &[(2, Asks)],
    // `sign`
    &[],
    // `sort`
    &[(2, Row(Two(OfTwo::Sort)))],
    // `static_procedure`
    &[],
    // `sub_atom`
    &[(5, Row(Pred::SubAtom))],
    // `subsumes_term`
    &[(2, Row(Two(OfTwo::SubsumesTerm)))],
    // `syntax_error`
    &[],
    // `term_variables`
    &[(2, Row(Two(OfTwo::TermVariables)))],
    // `thread`
    &[],
    // `thread_create`
    &[(2, Asks), (3, Asks)],
    // `thread_exit`
    &[(1, Steps)],
    // `thread_get_message`
    &[(1, Asks), (2, Asks)],
    // `thread_join`
    &[(2, Asks)],
    // `thread_local`
    &[],
    // `thread_option`
    &[],
    // `thread_peek_message`
    &[(1, Asks), (2, Asks)],
    // `thread_self`
    &[(1, Asks)],
    // `thread_send_message`
    &[(2, Asks)],
    // `threads`
    &[],
    // `throw`
    &[],
    // `toward_zero`
    &[],
    // `true`
    &[],
    // `type_error`
    &[],
    // `undefined`
    &[],
    // `unify_with_occurs_check`
    &[(2, Row(Two(OfTwo::UnifyWithOccursCheck)))],
    // `uninstantiation_error`
    &[],
    // `unknown`
    &[],
    // `var`
    &[(1, Row(One(OfOne::Var)))],
    // `write`
    &[(1, Steps)],
    // `write_canonical`
    &[(1, Steps)],
    // `writeq`
    &[(1, Steps)],
    // `xf`
    &[],
    // `xfx`
    &[],
    // `xfy`
    &[],
    // `yf`
    &[],
    // `yfx`
    &[],
    // `zero_divisor`
    &[],
    // `{}`
    &[],
    // `mutex_create`
    &[],
    // `with_mutex`
    &[],
    // `transaction`
    &[],
    // `snapshot`
    &[],
    // `engine_create`
    &[],
    // `engine_next`
    &[],
    // `engine_destroy`
    &[],
    // `phrase`
    &[],
    // `bagof`
    &[],
    // `setof`
    &[],
];
