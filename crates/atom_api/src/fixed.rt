//! The fixed atoms by name: the names of built-in predicates, evaluables, operators and their specifiers, flags and their
//! values, and what error terms are made of. Their numbers stay: a new one gets the next number, at the end of the
//! constants and of the table.
use crate::atom::Atom;

/// `!`
pub const CUT: Atom = Atom { slot: 0 };
/// `*`
pub const TIMES: Atom = Atom { slot: 1 };
/// `**`
pub const POWER: Atom = Atom { slot: 2 };
/// `+`
pub const PLUS: Atom = Atom { slot: 3 };
/// `,`
pub const COMMA: Atom = Atom { slot: 4 };
/// `-`
pub const MINUS: Atom = Atom { slot: 5 };
/// `-->`
pub const GRAMMAR_ARROW: Atom = Atom { slot: 6 };
/// `->`
pub const THEN: Atom = Atom { slot: 7 };
/// `.`
pub const LIST_CELL: Atom = Atom { slot: 8 };
/// `/`
pub const SLASH: Atom = Atom { slot: 9 };
/// `//`
pub const INTEGER_DIVISION: Atom = Atom { slot: 10 };
/// `/\`
pub const BIT_AND: Atom = Atom { slot: 11 };
/// `:-`
pub const NECK: Atom = Atom { slot: 12 };
/// `;`
pub const SEMICOLON: Atom = Atom { slot: 13 };
/// `<`
pub const LESS: Atom = Atom { slot: 14 };
/// `<<`
pub const SHIFT_LEFT: Atom = Atom { slot: 15 };
/// `=`
pub const EQUAL: Atom = Atom { slot: 16 };
/// `=..`
pub const UNIV: Atom = Atom { slot: 17 };
/// `=:=`
pub const NUMBERS_EQUAL: Atom = Atom { slot: 18 };
/// `=<`
pub const LESS_OR_EQUAL: Atom = Atom { slot: 19 };
/// `==`
pub const IDENTICAL: Atom = Atom { slot: 20 };
/// `=\=`
pub const NUMBERS_DIFFER: Atom = Atom { slot: 21 };
/// `>`
pub const GREATER: Atom = Atom { slot: 22 };
/// `>=`
pub const GREATER_OR_EQUAL: Atom = Atom { slot: 23 };
/// `>>`
pub const SHIFT_RIGHT: Atom = Atom { slot: 24 };
/// `?-`
pub const QUERY: Atom = Atom { slot: 25 };
/// `@<`
pub const TERM_LESS: Atom = Atom { slot: 26 };
/// `@=<`
pub const TERM_LESS_OR_EQUAL: Atom = Atom { slot: 27 };
/// `@>`
pub const TERM_GREATER: Atom = Atom { slot: 28 };
/// `@>=`
pub const TERM_GREATER_OR_EQUAL: Atom = Atom { slot: 29 };
/// `[]`
pub const NIL: Atom = Atom { slot: 30 };
/// `\`
pub const COMPLEMENT: Atom = Atom { slot: 31 };
/// `\+`
pub const NOT_PROVABLE: Atom = Atom { slot: 32 };
/// `\/`
pub const BIT_OR: Atom = Atom { slot: 33 };
/// `\=`
pub const NOT_UNIFIABLE: Atom = Atom { slot: 34 };
/// `\==`
pub const NOT_IDENTICAL: Atom = Atom { slot: 35 };
/// `^`
pub const CARET: Atom = Atom { slot: 36 };
/// `abolish`
pub const ABOLISH: Atom = Atom { slot: 37 };
/// `abs`
pub const ABS: Atom = Atom { slot: 38 };
/// `access`
pub const ACCESS: Atom = Atom { slot: 39 };
/// `alias`
pub const ALIAS: Atom = Atom { slot: 40 };
/// `arg`
pub const ARG: Atom = Atom { slot: 41 };
/// `assert`
pub const ASSERT: Atom = Atom { slot: 42 };
/// `asserta`
pub const ASSERTA: Atom = Atom { slot: 43 };
/// `assertz`
pub const ASSERTZ: Atom = Atom { slot: 44 };
/// `atom`
pub const ATOM: Atom = Atom { slot: 45 };
/// `atom_chars`
pub const ATOM_CHARS: Atom = Atom { slot: 46 };
/// `atom_codes`
pub const ATOM_CODES: Atom = Atom { slot: 47 };
/// `atom_concat`
pub const ATOM_CONCAT: Atom = Atom { slot: 48 };
/// `atom_length`
pub const ATOM_LENGTH: Atom = Atom { slot: 49 };
/// `atom_space`
pub const ATOM_SPACE: Atom = Atom { slot: 50 };
/// `atomic`
pub const ATOMIC: Atom = Atom { slot: 51 };
/// `bounded`
pub const BOUNDED: Atom = Atom { slot: 52 };
/// `call`
pub const CALL: Atom = Atom { slot: 53 };
/// `callable`
pub const CALLABLE: Atom = Atom { slot: 54 };
/// `catch`
pub const CATCH: Atom = Atom { slot: 55 };
/// `cells`
pub const CELLS: Atom = Atom { slot: 56 };
/// `char_code`
pub const CHAR_CODE: Atom = Atom { slot: 57 };
/// `character`
pub const CHARACTER: Atom = Atom { slot: 58 };
/// `character_code`
pub const CHARACTER_CODE: Atom = Atom { slot: 59 };
/// `chars`
pub const CHARS: Atom = Atom { slot: 60 };
/// `choices`
pub const CHOICES: Atom = Atom { slot: 61 };
/// `clause`
pub const CLAUSE: Atom = Atom { slot: 62 };
/// `codes`
pub const CODES: Atom = Atom { slot: 63 };
/// `compare`
pub const COMPARE: Atom = Atom { slot: 64 };
/// `compound`
pub const COMPOUND: Atom = Atom { slot: 65 };
/// `consult`
pub const CONSULT: Atom = Atom { slot: 66 };
/// `copy_term`
pub const COPY_TERM: Atom = Atom { slot: 67 };
/// `create`
pub const CREATE: Atom = Atom { slot: 68 };
/// `current_op`
pub const CURRENT_OP: Atom = Atom { slot: 69 };
/// `current_predicate`
pub const CURRENT_PREDICATE: Atom = Atom { slot: 70 };
/// `current_prolog_flag`
pub const CURRENT_PROLOG_FLAG: Atom = Atom { slot: 71 };
/// `database`
pub const DATABASE: Atom = Atom { slot: 72 };
/// `destroy`
pub const DESTROY: Atom = Atom { slot: 73 };
/// `detached`
pub const DETACHED: Atom = Atom { slot: 74 };
/// `discontiguous`
pub const DISCONTIGUOUS: Atom = Atom { slot: 75 };
/// `div`
pub const DIV: Atom = Atom { slot: 76 };
/// `domain_error`
pub const DOMAIN_ERROR: Atom = Atom { slot: 77 };
/// `double_quotes`
pub const DOUBLE_QUOTES: Atom = Atom { slot: 78 };
/// `dynamic`
pub const DYNAMIC: Atom = Atom { slot: 79 };
/// `error`
pub const ERROR: Atom = Atom { slot: 80 };
/// `evaluable`
pub const EVALUABLE: Atom = Atom { slot: 81 };
/// `evaluation_error`
pub const EVALUATION_ERROR: Atom = Atom { slot: 82 };
/// `exception`
pub const EXCEPTION: Atom = Atom { slot: 83 };
/// `existence_error`
pub const EXISTENCE_ERROR: Atom = Atom { slot: 84 };
/// `exit`
pub const EXIT: Atom = Atom { slot: 85 };
/// `exit_status`
pub const EXIT_STATUS: Atom = Atom { slot: 86 };
/// `exited`
pub const EXITED: Atom = Atom { slot: 87 };
/// `fail`
pub const FAIL: Atom = Atom { slot: 88 };
/// `false`
pub const FALSE: Atom = Atom { slot: 89 };
/// `findall`
pub const FINDALL: Atom = Atom { slot: 90 };
/// `flag`
pub const FLAG: Atom = Atom { slot: 91 };
/// `flag_value`
pub const FLAG_VALUE: Atom = Atom { slot: 92 };
/// `float`
pub const FLOAT: Atom = Atom { slot: 93 };
/// `functor`
pub const FUNCTOR: Atom = Atom { slot: 94 };
/// `fx`
pub const FX: Atom = Atom { slot: 95 };
/// `fy`
pub const FY: Atom = Atom { slot: 96 };
/// `garbage_collect_atoms`
pub const GARBAGE_COLLECT_ATOMS: Atom = Atom { slot: 97 };
/// `garbage_collect_clauses`
pub const GARBAGE_COLLECT_CLAUSES: Atom = Atom { slot: 98 };
/// `generations`
pub const GENERATIONS: Atom = Atom { slot: 99 };
/// `ground`
pub const GROUND: Atom = Atom { slot: 100 };
/// `halt`
pub const HALT: Atom = Atom { slot: 101 };
/// `halted`
pub const HALTED: Atom = Atom { slot: 102 };
/// `illegal_number`
pub const ILLEGAL_NUMBER: Atom = Atom { slot: 103 };
/// `inferences`
pub const INFERENCES: Atom = Atom { slot: 104 };
/// `initialization`
pub const INITIALIZATION: Atom = Atom { slot: 105 };
/// `instantiation_error`
pub const INSTANTIATION_ERROR: Atom = Atom { slot: 106 };
/// `int_overflow`
pub const INT_OVERFLOW: Atom = Atom { slot: 107 };
/// `integer`
pub const INTEGER: Atom = Atom { slot: 108 };
/// `integer_rounding_function`
pub const INTEGER_ROUNDING_FUNCTION: Atom = Atom { slot: 109 };
/// `integer_too_large`
pub const INTEGER_TOO_LARGE: Atom = Atom { slot: 110 };
/// `is`
pub const IS: Atom = Atom { slot: 111 };
/// `join`
pub const JOIN: Atom = Atom { slot: 112 };
/// `keysort`
pub const KEYSORT: Atom = Atom { slot: 113 };
/// `list`
pub const LIST: Atom = Atom { slot: 114 };
/// `main`
pub const MAIN: Atom = Atom { slot: 115 };
/// `max`
pub const MAX: Atom = Atom { slot: 116 };
/// `max_atom_length`
pub const MAX_ATOM_LENGTH: Atom = Atom { slot: 117 };
/// `max_integer`
pub const MAX_INTEGER: Atom = Atom { slot: 118 };
/// `message_queue`
pub const MESSAGE_QUEUE: Atom = Atom { slot: 119 };
/// `message_queue_create`
pub const MESSAGE_QUEUE_CREATE: Atom = Atom { slot: 120 };
/// `message_queue_destroy`
pub const MESSAGE_QUEUE_DESTROY: Atom = Atom { slot: 121 };
/// `min`
pub const MIN: Atom = Atom { slot: 122 };
/// `min_integer`
pub const MIN_INTEGER: Atom = Atom { slot: 123 };
/// `mod`
pub const MOD: Atom = Atom { slot: 124 };
/// `modify`
pub const MODIFY: Atom = Atom { slot: 125 };
/// `msort`
pub const MSORT: Atom = Atom { slot: 126 };
/// `multifile`
pub const MULTIFILE: Atom = Atom { slot: 127 };
/// `nl`
pub const NL: Atom = Atom { slot: 128 };
/// `non_empty_list`
pub const NON_EMPTY_LIST: Atom = Atom { slot: 129 };
/// `nonvar`
pub const NONVAR: Atom = Atom { slot: 130 };
/// `not_less_than_zero`
pub const NOT_LESS_THAN_ZERO: Atom = Atom { slot: 131 };
/// `number`
pub const NUMBER: Atom = Atom { slot: 132 };
/// `number_chars`
pub const NUMBER_CHARS: Atom = Atom { slot: 133 };
/// `number_codes`
pub const NUMBER_CODES: Atom = Atom { slot: 134 };
/// `once`
pub const ONCE: Atom = Atom { slot: 135 };
/// `op`
pub const OP: Atom = Atom { slot: 136 };
/// `operator`
pub const OPERATOR: Atom = Atom { slot: 137 };
/// `operator_priority`
pub const OPERATOR_PRIORITY: Atom = Atom { slot: 138 };
/// `operator_specifier`
pub const OPERATOR_SPECIFIER: Atom = Atom { slot: 139 };
/// `order`
pub const ORDER: Atom = Atom { slot: 140 };
/// `pair`
pub const PAIR: Atom = Atom { slot: 141 };
/// `permission_error`
pub const PERMISSION_ERROR: Atom = Atom { slot: 142 };
/// `predicate_indicator`
pub const PREDICATE_INDICATOR: Atom = Atom { slot: 143 };
/// `print`
pub const PRINT: Atom = Atom { slot: 144 };
/// `private_procedure`
pub const PRIVATE_PROCEDURE: Atom = Atom { slot: 145 };
/// `procedure`
pub const PROCEDURE: Atom = Atom { slot: 146 };
/// `prolog_flag`
pub const PROLOG_FLAG: Atom = Atom { slot: 147 };
/// `put_char`
pub const PUT_CHAR: Atom = Atom { slot: 148 };
/// `rem`
pub const REM: Atom = Atom { slot: 149 };
/// `repeat`
pub const REPEAT: Atom = Atom { slot: 150 };
/// `representation_error`
pub const REPRESENTATION_ERROR: Atom = Atom { slot: 151 };
/// `resource_error`
pub const RESOURCE_ERROR: Atom = Atom { slot: 152 };
/// `retract`
pub const RETRACT: Atom = Atom { slot: 153 };
/// `retractall`
pub const RETRACTALL: Atom = Atom { slot: 154 };
/// `set_prolog_flag`
pub const SET_PROLOG_FLAG: Atom = Atom { slot: 155 };
/// `sign`
pub const SIGN: Atom = Atom { slot: 156 };
/// `sort`
pub const SORT: Atom = Atom { slot: 157 };
/// `static_procedure`
pub const STATIC_PROCEDURE: Atom = Atom { slot: 158 };
/// `sub_atom`
pub const SUB_ATOM: Atom = Atom { slot: 159 };
/// `subsumes_term`
pub const SUBSUMES_TERM: Atom = Atom { slot: 160 };
/// `syntax_error`
pub const SYNTAX_ERROR: Atom = Atom { slot: 161 };
/// `term_variables`
pub const TERM_VARIABLES: Atom = Atom { slot: 162 };
/// `thread`
pub const THREAD: Atom = Atom { slot: 163 };
/// `thread_create`
pub const THREAD_CREATE: Atom = Atom { slot: 164 };
/// `thread_exit`
pub const THREAD_EXIT: Atom = Atom { slot: 165 };
/// `thread_get_message`
pub const THREAD_GET_MESSAGE: Atom = Atom { slot: 166 };
/// `thread_join`
pub const THREAD_JOIN: Atom = Atom { slot: 167 };
/// `thread_local`
pub const THREAD_LOCAL: Atom = Atom { slot: 168 };
/// `thread_option`
pub const THREAD_OPTION: Atom = Atom { slot: 169 };
/// `thread_peek_message`
pub const THREAD_PEEK_MESSAGE: Atom = Atom { slot: 170 };
/// `thread_self`
pub const THREAD_SELF: Atom = Atom { slot: 171 };
/// `thread_send_message`
pub const THREAD_SEND_MESSAGE: Atom = Atom { slot: 172 };
/// `threads`
pub const THREADS: Atom = Atom { slot: 173 };
/// `throw`
pub const THROW: Atom = Atom { slot: 174 };
/// `toward_zero`
pub const TOWARD_ZERO: Atom = Atom { slot: 175 };
/// `true`
pub const TRUE: Atom = Atom { slot: 176 };
/// `type_error`
pub const TYPE_ERROR: Atom = Atom { slot: 177 };
/// `undefined`
pub const UNDEFINED: Atom = Atom { slot: 178 };
/// `unify_with_occurs_check`
pub const UNIFY_WITH_OCCURS_CHECK: Atom = Atom { slot: 179 };
/// `uninstantiation_error`
pub const UNINSTANTIATION_ERROR: Atom = Atom { slot: 180 };
/// `unknown`
pub const UNKNOWN: Atom = Atom { slot: 181 };
/// `var`
pub const VAR: Atom = Atom { slot: 182 };
/// `write`
pub const WRITE: Atom = Atom { slot: 183 };
/// `write_canonical`
pub const WRITE_CANONICAL: Atom = Atom { slot: 184 };
/// `writeq`
pub const WRITEQ: Atom = Atom { slot: 185 };
/// `xf`
pub const XF: Atom = Atom { slot: 186 };
/// `xfx`
pub const XFX: Atom = Atom { slot: 187 };
/// `xfy`
pub const XFY: Atom = Atom { slot: 188 };
/// `yf`
pub const YF: Atom = Atom { slot: 189 };
/// `yfx`
pub const YFX: Atom = Atom { slot: 190 };
/// `zero_divisor`
pub const ZERO_DIVISOR: Atom = Atom { slot: 191 };
/// `{}`
pub const BRACES: Atom = Atom { slot: 192 };
/// `mutex_create`
pub const MUTEX_CREATE: Atom = Atom { slot: 193 };
/// `with_mutex`
pub const WITH_MUTEX: Atom = Atom { slot: 194 };
/// `transaction`
pub const TRANSACTION: Atom = Atom { slot: 195 };
/// `snapshot`
pub const SNAPSHOT: Atom = Atom { slot: 196 };
/// `engine_create`
pub const ENGINE_CREATE: Atom = Atom { slot: 197 };
/// `engine_next`
pub const ENGINE_NEXT: Atom = Atom { slot: 198 };
/// `engine_destroy`
pub const ENGINE_DESTROY: Atom = Atom { slot: 199 };
/// `phrase`
pub const PHRASE: Atom = Atom { slot: 200 };
/// `bagof`
pub const BAGOF: Atom = Atom { slot: 201 };
/// `setof`
pub const SETOF: Atom = Atom { slot: 202 };

/// How many fixed atoms there are.
pub const COUNT: usize = 203;

/// The fixed atoms in the order of their numbers, which is that of their introduction.
pub(crate) static FIXED: [(u32, &str); COUNT] = [
    (CUT.slot, "!"),
    (TIMES.slot, "*"),
    (POWER.slot, "**"),
    (PLUS.slot, "+"),
    (COMMA.slot, ","),
    (MINUS.slot, "-"),
    (GRAMMAR_ARROW.slot, "-->"),
    (THEN.slot, "->"),
    (LIST_CELL.slot, "."),
    (SLASH.slot, "/"),
    (INTEGER_DIVISION.slot, "//"),
    (BIT_AND.slot, "/\\"),
    (NECK.slot, ":-"),
    (SEMICOLON.slot, ";"),
    (LESS.slot, "<"),
    (SHIFT_LEFT.slot, "<<"),
    (EQUAL.slot, "="),
    (UNIV.slot, "=.."),
    (NUMBERS_EQUAL.slot, "=:="),
    (LESS_OR_EQUAL.slot, "=<"),
    (IDENTICAL.slot, "=="),
    (NUMBERS_DIFFER.slot, "=\\="),
    (GREATER.slot, ">"),
    (GREATER_OR_EQUAL.slot, ">="),
    (SHIFT_RIGHT.slot, ">>"),
    (QUERY.slot, "?-"),
    (TERM_LESS.slot, "@<"),
    (TERM_LESS_OR_EQUAL.slot, "@=<"),
    (TERM_GREATER.slot, "@>"),
    (TERM_GREATER_OR_EQUAL.slot, "@>="),
    (NIL.slot, "[]"),
    (COMPLEMENT.slot, "\\"),
    (NOT_PROVABLE.slot, "\\+"),
    (BIT_OR.slot, "\\/"),
    (NOT_UNIFIABLE.slot, "\\="),
    (NOT_IDENTICAL.slot, "\\=="),
    (CARET.slot, "^"),
    (ABOLISH.slot, "abolish"),
    (ABS.slot, "abs"),
    (ACCESS.slot, "access"),
    (ALIAS.slot, "alias"),
    (ARG.slot, "arg"),
    (ASSERT.slot, "assert"),
    (ASSERTA.slot, "asserta"),
    (ASSERTZ.slot, "assertz"),
    (ATOM.slot, "atom"),
    (ATOM_CHARS.slot, "atom_chars"),
    (ATOM_CODES.slot, "atom_codes"),
    (ATOM_CONCAT.slot, "atom_concat"),
    (ATOM_LENGTH.slot, "atom_length"),
    (ATOM_SPACE.slot, "atom_space"),
    (ATOMIC.slot, "atomic"),
    (BOUNDED.slot, "bounded"),
    (CALL.slot, "call"),
    (CALLABLE.slot, "callable"),
    (CATCH.slot, "catch"),
    (CELLS.slot, "cells"),
    (CHAR_CODE.slot, "char_code"),
    (CHARACTER.slot, "character"),
    (CHARACTER_CODE.slot, "character_code"),
    (CHARS.slot, "chars"),
    (CHOICES.slot, "choices"),
    (CLAUSE.slot, "clause"),
    (CODES.slot, "codes"),
    (COMPARE.slot, "compare"),
    (COMPOUND.slot, "compound"),
    (CONSULT.slot, "consult"),
    (COPY_TERM.slot, "copy_term"),
    (CREATE.slot, "create"),
    (CURRENT_OP.slot, "current_op"),
    (CURRENT_PREDICATE.slot, "current_predicate"),
    (CURRENT_PROLOG_FLAG.slot, "current_prolog_flag"),
    (DATABASE.slot, "database"),
    (DESTROY.slot, "destroy"),
    (DETACHED.slot, "detached"),
    (DISCONTIGUOUS.slot, "discontiguous"),
    (DIV.slot, "div"),
    (DOMAIN_ERROR.slot, "domain_error"),
    (DOUBLE_QUOTES.slot, "double_quotes"),
    (DYNAMIC.slot, "dynamic"),
    (ERROR.slot, "error"),
    (EVALUABLE.slot, "evaluable"),
    (EVALUATION_ERROR.slot, "evaluation_error"),
    (EXCEPTION.slot, "exception"),
    (EXISTENCE_ERROR.slot, "existence_error"),
    (EXIT.slot, "exit"),
    (EXIT_STATUS.slot, "exit_status"),
    (EXITED.slot, "exited"),
    (FAIL.slot, "fail"),
    (FALSE.slot, "false"),
    (FINDALL.slot, "findall"),
    (FLAG.slot, "flag"),
    (FLAG_VALUE.slot, "flag_value"),
    (FLOAT.slot, "float"),
    (FUNCTOR.slot, "functor"),
    (FX.slot, "fx"),
    (FY.slot, "fy"),
    (GARBAGE_COLLECT_ATOMS.slot, "garbage_collect_atoms"),
    (GARBAGE_COLLECT_CLAUSES.slot, "garbage_collect_clauses"),
    (GENERATIONS.slot, "generations"),
    (GROUND.slot, "ground"),
    (HALT.slot, "halt"),
    (HALTED.slot, "halted"),
    (ILLEGAL_NUMBER.slot, "illegal_number"),
    (INFERENCES.slot, "inferences"),
    (INITIALIZATION.slot, "initialization"),
    (INSTANTIATION_ERROR.slot, "instantiation_error"),
    (INT_OVERFLOW.slot, "int_overflow"),
    (INTEGER.slot, "integer"),
    (INTEGER_ROUNDING_FUNCTION.slot, "integer_rounding_function"),
    (INTEGER_TOO_LARGE.slot, "integer_too_large"),
    (IS.slot, "is"),
    (JOIN.slot, "join"),
    (KEYSORT.slot, "keysort"),
    (LIST.slot, "list"),
    (MAIN.slot, "main"),
    (MAX.slot, "max"),
    (MAX_ATOM_LENGTH.slot, "max_atom_length"),
    (MAX_INTEGER.slot, "max_integer"),
    (MESSAGE_QUEUE.slot, "message_queue"),
    (MESSAGE_QUEUE_CREATE.slot, "message_queue_create"),
    (MESSAGE_QUEUE_DESTROY.slot, "message_queue_destroy"),
    (MIN.slot, "min"),
    (MIN_INTEGER.slot, "min_integer"),
    (MOD.slot, "mod"),
    (MODIFY.slot, "modify"),
    (MSORT.slot, "msort"),
    (MULTIFILE.slot, "multifile"),
    (NL.slot, "nl"),
    (NON_EMPTY_LIST.slot, "non_empty_list"),
    (NONVAR.slot, "nonvar"),
    (NOT_LESS_THAN_ZERO.slot, "not_less_than_zero"),
    (NUMBER.slot, "number"),
    (NUMBER_CHARS.slot, "number_chars"),
    (NUMBER_CODES.slot, "number_codes"),
    (ONCE.slot, "once"),
    (OP.slot, "op"),
    (OPERATOR.slot, "operator"),
    (OPERATOR_PRIORITY.slot, "operator_priority"),
    (OPERATOR_SPECIFIER.slot, "operator_specifier"),
    (ORDER.slot, "order"),
    (PAIR.slot, "pair"),
    (PERMISSION_ERROR.slot, "permission_error"),
    (PREDICATE_INDICATOR.slot, "predicate_indicator"),
    (PRINT.slot, "print"),
    (PRIVATE_PROCEDURE.slot, "private_procedure"),
    (PROCEDURE.slot, "procedure"),
    (PROLOG_FLAG.slot, "prolog_flag"),
    (PUT_CHAR.slot, "put_char"),
    (REM.slot, "rem"),
    (REPEAT.slot, "repeat"),
    (REPRESENTATION_ERROR.slot, "representation_error"),
    (RESOURCE_ERROR.slot, "resource_error"),
    (RETRACT.slot, "retract"),
    (RETRACTALL.slot, "retractall"),
    (SET_PROLOG_FLAG.slot, "set_prolog_flag"),
    (SIGN.slot, "sign"),
    (SORT.slot, "sort"),
    (STATIC_PROCEDURE.slot, "static_procedure"),
    (SUB_ATOM.slot, "sub_atom"),
    (SUBSUMES_TERM.slot, "subsumes_term"),
    (SYNTAX_ERROR.slot, "syntax_error"),
    (TERM_VARIABLES.slot, "term_variables"),
    (THREAD.slot, "thread"),
    (THREAD_CREATE.slot, "thread_create"),
    (THREAD_EXIT.slot, "thread_exit"),
    (THREAD_GET_MESSAGE.slot, "thread_get_message"),
    (THREAD_JOIN.slot, "thread_join"),
    (THREAD_LOCAL.slot, "thread_local"),
    (THREAD_OPTION.slot, "thread_option"),
    (THREAD_PEEK_MESSAGE.slot, "thread_peek_message"),
    (THREAD_SELF.slot, "thread_self"),
    (THREAD_SEND_MESSAGE.slot, "thread_send_message"),
    (THREADS.slot, "threads"),
    (THROW.slot, "throw"),
    (TOWARD_ZERO.slot, "toward_zero"),
    (TRUE.slot, "true"),
    (TYPE_ERROR.slot, "type_error"),
    (UNDEFINED.slot, "undefined"),
    (UNIFY_WITH_OCCURS_CHECK.slot, "unify_with_occurs_check"),
    (UNINSTANTIATION_ERROR.slot, "uninstantiation_error"),
    (UNKNOWN.slot, "unknown"),
    (VAR.slot, "var"),
    (WRITE.slot, "write"),
    (WRITE_CANONICAL.slot, "write_canonical"),
    (WRITEQ.slot, "writeq"),
    (XF.slot, "xf"),
    (XFX.slot, "xfx"),
    (XFY.slot, "xfy"),
    (YF.slot, "yf"),
    (YFX.slot, "yfx"),
    (ZERO_DIVISOR.slot, "zero_divisor"),
    (BRACES.slot, "{}"),
    (MUTEX_CREATE.slot, "mutex_create"),
    (WITH_MUTEX.slot, "with_mutex"),
    (TRANSACTION.slot, "transaction"),
    (SNAPSHOT.slot, "snapshot"),
    (ENGINE_CREATE.slot, "engine_create"),
    (ENGINE_NEXT.slot, "engine_next"),
    (ENGINE_DESTROY.slot, "engine_destroy"),
    (PHRASE.slot, "phrase"),
    (BAGOF.slot, "bagof"),
    (SETOF.slot, "setof"),
];
