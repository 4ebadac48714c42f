//! Worked visits to the shared state: requests of engines with the answers and updates that are due. Each contract is
//! computed by the check.
ghost use Rattle.std.specs.Prelude.{not, pos, negsuc, ◌≡◌, ◌-◌, ◌^◌, [], ◌∷◌, Some, None, true, codes};
ghost use Rattle.pl_term.specs.Tree.{var, int, atom, none, more};
ghost use Rattle.pl_model.specs.declared.grammar.Quotes.TheVariants.{Chars as Characters};
ghost use Rattle.pl_model.specs.Operators.{xfx};
ghost use Rattle.pl_model.specs.OperatorTable.{opening_table};
ghost use Rattle.pl_model.specs.declared.operators.Kind.TheVariants.{Xfx};
ghost use Rattle.pl_model.specs.declared.ends.How.TheVariants.{Solved};
ghost use Rattle.pl_model.specs.History.{assert, consult, add_first, add_last, erase, abolish, set_dynamic, set_flag, set_op, make_queue, drop_queue, send, take, start, finish, join};
ghost use Rattle.pl_model.specs.Errors.{unknown_procedure, static_procedure};
ghost use Rattle.pl_model.specs.ErrorTerms.{existence_error, permission_error, resource_error, private_procedure};
ghost use Rattle.pl_model.specs.Predicates.{is_excluded};
ghost use Rattle.pl_model.specs.Database.{seen, choices};
ghost use Rattle.pl_model.specs.SharedState.{opening_state, change};
ghost use Rattle.pl_model.specs.Requests.{call_clauses, inspected_clauses, retracted_clauses, cleared_clauses, erase_clause, assert_first, assert_last, consult_clause, abolish_procedure, make_dynamic, all_procedures, put_operators, put_flag, all_flags, read_operators, own_name, create_thread, start_goal, join_thread, send_message, get_message, peek_message, create_queue, destroy_queue, standing, flags, listed, procedures, named, message, no_message, status, done, gone, refused};
ghost use Rattle.pl_model.specs.Service.{serve, answers, waits, reads, refuses};
ghost use Rattle.model_rows.specs.SharedRows.{played, left_by, named_proc, term_of, fact, number_term, stored_fact, with_engines, changed_database, places};

/// A call of a procedure that is not there, the addition of a clause, a call, the clause's erasure, one more erasure of
/// it, and a call, which finds the procedure without clauses.
#[tactic(auto, unfolding(pl_model::specs::SystemPredicates::system_predicates, pl_model::specs::Service::serve))]
pub fn asserts_and_erases()
    ensures { played 0 (opening_state 1)
        ((1, call_clauses (term_of (codes "p") (var 0)))
        ∷ (1, assert_last (fact (codes "p") (number_term 1)))
        ∷ (1, call_clauses (term_of (codes "p") (var 0)))
        ∷ (1, erase_clause 0)
        ∷ (1, erase_clause 0)
        ∷ (1, call_clauses (term_of (codes "p") (var 0))) ∷ [])
        ≡ refuses (unknown_procedure (named_proc (codes "p") 1))
        ∷ answers done (Some (add_last (named_proc (codes "p") 1) (fact (codes "p") (number_term 1)) assert))
        ∷ reads (listed (stored_fact 0 (codes "p") (number_term 1) ∷ []))
        ∷ answers done (Some (erase 0))
        ∷ reads gone
        ∷ reads (listed []) ∷ [] }
{}

/// Each generation sees its own clauses in database order: those added before it and not erased before it.
pub fn sees_by_generations()
    ensures zeroth { places (seen 0 (named_proc (codes "p") 1) changed_database) ≡ [] }
    ensures first { places (seen 1 (named_proc (codes "p") 1) changed_database) ≡ 0 ∷ [] }
    ensures third { places (seen 3 (named_proc (codes "p") 1) changed_database) ≡ 0 ∷ 1 ∷ 2 ∷ [] }
    ensures fourth { places (seen 4 (named_proc (codes "p") 1) changed_database) ≡ 1 ∷ 2 ∷ [] }
    ensures fifth { places (seen 5 (named_proc (codes "p") 1) changed_database) ≡ 4 ∷ 1 ∷ 2 ∷ [] }
    ensures other { places (seen 5 (named_proc (codes "p") 2) changed_database) ≡ [] }
{}

/// A first argument that is a constant excludes the clauses with another one; a variable excludes none.
pub fn excludes_by_first_arguments()
    ensures constant { places (choices (λ c. is_excluded (term_of (codes "p") (number_term 2)) c.head) 5 (named_proc (codes "p") 1) changed_database) ≡ 2 ∷ [] }
    ensures variable { places (choices (λ c. is_excluded (term_of (codes "p") (var 7)) c.head) 5 (named_proc (codes "p") 1) changed_database) ≡ 4 ∷ 1 ∷ 2 ∷ [] }
    ensures compound { places (choices (λ c. is_excluded (term_of (codes "p") (term_of (codes "f") (var 7))) c.head) 5 (named_proc (codes "p") 1) changed_database) ≡ [] }
{}

/// A change of each kind.
#[tactic(auto, unfolding(pl_model::specs::SystemPredicates::system_predicates, pl_model::specs::Service::serve))]
pub fn changes_the_database()
    ensures { played 0 (opening_state 1)
        ((1, assert_first (fact (codes "p") (number_term 1)))
        ∷ (1, abolish_procedure (named_proc (codes "p") 1))
        ∷ (1, make_dynamic (named_proc (codes "q") 1 ∷ []))
        ∷ (1, put_flag (codes "unknown") (codes "fail"))
        ∷ (1, call_clauses (term_of (codes "p") (var 0))) ∷ [])
        ≡ answers done (Some (add_first (named_proc (codes "p") 1) (fact (codes "p") (number_term 1)) assert))
        ∷ answers done (Some (abolish (named_proc (codes "p") 1)))
        ∷ answers done (Some (set_dynamic (named_proc (codes "q") 1 ∷ [])))
        ∷ answers done (Some (set_flag (codes "unknown") (codes "fail")))
        ∷ reads (listed []) ∷ [] }
{}

/// The procedure of a text that is consulted is static: a goal can neither change it nor look into it, the text can add to
/// it, and it can be called.
#[tactic(auto, unfolding(pl_model::specs::SystemPredicates::system_predicates, pl_model::specs::Service::serve))]
pub fn keeps_static_procedures()
    ensures { played 0 (opening_state 1)
        ((1, consult_clause (fact (codes "p") (number_term 1)))
        ∷ (1, assert_last (fact (codes "p") (number_term 2)))
        ∷ (1, abolish_procedure (named_proc (codes "p") 1))
        ∷ (1, make_dynamic (named_proc (codes "p") 1 ∷ []))
        ∷ (1, retracted_clauses (term_of (codes "p") (var 0)))
        ∷ (1, cleared_clauses (term_of (codes "p") (var 0)))
        ∷ (1, inspected_clauses (term_of (codes "p") (var 0)))
        ∷ (1, consult_clause (fact (codes "call") (number_term 1)))
        ∷ (1, call_clauses (term_of (codes "p") (number_term 1)))
        ∷ (1, all_procedures) ∷ [])
        ≡ answers done (Some (add_last (named_proc (codes "p") 1) (fact (codes "p") (number_term 1)) consult))
        ∷ refuses (static_procedure (named_proc (codes "p") 1))
        ∷ refuses (static_procedure (named_proc (codes "p") 1))
        ∷ refuses (static_procedure (named_proc (codes "p") 1))
        ∷ refuses (static_procedure (named_proc (codes "p") 1))
        ∷ refuses (static_procedure (named_proc (codes "p") 1))
        ∷ refuses (private_procedure (named_proc (codes "p") 1))
        ∷ refuses (static_procedure (named_proc (codes "call") 1))
        ∷ reads (listed (stored_fact 0 (codes "p") (number_term 1) ∷ []))
        ∷ reads (procedures (named_proc (codes "p") 1 ∷ [])) ∷ [] }
{}

/// An unknown procedure has no clauses for clause/2 and retract/1, and becomes dynamic by retractall/1.
#[tactic(auto, unfolding(pl_model::specs::SystemPredicates::system_predicates, pl_model::specs::Service::serve))]
pub fn clears_unknown_procedures()
    ensures { played 0 (opening_state 1)
        ((1, inspected_clauses (term_of (codes "p") (var 0)))
        ∷ (1, retracted_clauses (term_of (codes "p") (var 0)))
        ∷ (1, cleared_clauses (term_of (codes "p") (var 0)))
        ∷ (1, call_clauses (term_of (codes "p") (var 0))) ∷ [])
        ≡ reads (listed [])
        ∷ reads (listed [])
        ∷ answers (listed []) (Some (set_dynamic (named_proc (codes "p") 1 ∷ [])))
        ∷ reads (listed []) ∷ [] }
{}

/// Messages are taken in their order, the first that unifies, and a queue that is destroyed is there no more.
#[tactic(auto, unfolding(pl_model::specs::SystemPredicates::system_predicates, pl_model::specs::Service::serve, pl_model::specs::Unify::unify, pl_model::specs::Unify::solve_all))]
pub fn passes_messages()
    ensures { played 0 (opening_state 1)
        ((1, create_queue None)
        ∷ (1, send_message (number_term 2) (term_of (codes "m") (number_term 1)))
        ∷ (1, send_message (number_term 2) (term_of (codes "m") (number_term 3)))
        ∷ (1, get_message (Some (number_term 2)) (term_of (codes "m") (number_term 2)))
        ∷ (1, peek_message (Some (number_term 2)) (term_of (codes "m") (number_term 2)))
        ∷ (1, peek_message (Some (number_term 2)) (term_of (codes "m") (var 0)))
        ∷ (1, get_message (Some (number_term 2)) (term_of (codes "m") (var 0)))
        ∷ (1, get_message (Some (number_term 2)) (term_of (codes "m") (var 0)))
        ∷ (1, get_message None (var 0))
        ∷ (1, destroy_queue (number_term 2))
        ∷ (1, send_message (number_term 2) (number_term 1))
        ∷ (1, destroy_queue (atom (codes "main"))) ∷ [])
        ≡ answers (named (number_term 2)) (Some (make_queue 2 None))
        ∷ answers done (Some (send 2 (term_of (codes "m") (number_term 1))))
        ∷ answers done (Some (send 2 (term_of (codes "m") (number_term 3))))
        ∷ waits
        ∷ reads no_message
        ∷ reads (message (term_of (codes "m") (number_term 1)))
        ∷ answers (message (term_of (codes "m") (number_term 1))) (Some (take 1))
        ∷ answers (message (term_of (codes "m") (number_term 3))) (Some (take 2))
        ∷ waits
        ∷ answers done (Some (drop_queue 2))
        ∷ refuses (existence_error (codes "message_queue") (number_term 2))
        ∷ refuses (permission_error (codes "destroy") (codes "message_queue") (atom (codes "main"))) ∷ [] }
{}

/// A thread is waited for until it ends, and is joined once. Its alias is another's only after that.
#[tactic(auto, unfolding(pl_model::specs::SystemPredicates::system_predicates, pl_model::specs::Service::serve))]
pub fn joins_threads()
    ensures running { played 0 (opening_state 1)
        ((1, create_thread (atom (codes "g")) (codes "t" ∷ []) None)
        ∷ (1, own_name)
        ∷ (2, own_name)
        ∷ (1, join_thread (atom (codes "t")))
        ∷ (2, join_thread (number_term 2))
        ∷ (1, create_queue (Some (codes "t")))
        ∷ (1, create_thread (atom (codes "g")) (codes "main" ∷ []) (Some (atom (codes "e")))) ∷ [])
        ≡ answers (named (atom (codes "t"))) (Some (start 2 (atom (codes "g")) (Some (codes "t"))))
        ∷ reads (named (atom (codes "main")))
        ∷ reads (named (atom (codes "t")))
        ∷ waits
        ∷ refuses (permission_error (codes "join") (codes "thread") (number_term 2))
        ∷ refuses (permission_error (codes "create") (codes "message_queue") (atom (codes "t")))
        ∷ refuses (permission_error (codes "create") (codes "thread") (atom (codes "main"))) ∷ [] }
    ensures ended { played 2 (change 1 2 (finish Solved 7) (left_by 0 (opening_state 1) ((1, create_thread (atom (codes "g")) (codes "t" ∷ []) None) ∷ [])))
        ((1, send_message (atom (codes "t")) (number_term 1))
        ∷ (1, create_queue (Some (codes "t")))
        ∷ (1, join_thread (number_term 2))
        ∷ (1, join_thread (number_term 2))
        ∷ (1, join_thread (atom (codes "t")))
        ∷ (1, create_queue (Some (codes "t"))) ∷ [])
        ≡ refuses (existence_error (codes "message_queue") (atom (codes "t")))
        ∷ refuses (permission_error (codes "create") (codes "message_queue") (atom (codes "t")))
        ∷ answers (status (atom (codes "true"))) (Some (join 2))
        ∷ refuses (existence_error (codes "thread") (number_term 2))
        ∷ refuses (existence_error (codes "thread") (atom (codes "t")))
        ∷ answers (named (atom (codes "t"))) (Some (make_queue 3 (Some (codes "t")))) ∷ [] }
{}

/// There are at most 64 engines at once, and a creation that is refused draws no number.
#[tactic(auto, unfolding(pl_model::specs::SystemPredicates::system_predicates, pl_model::specs::Service::serve))]
pub fn bounds_engines()
    ensures last { serve 1 (create_thread (atom (codes "g")) [] None) (with_engines 62) 62
        ≡ answers (named (number_term 64)) (Some (start 64 (atom (codes "g")) None)) }
    ensures full { serve 1 (create_thread (atom (codes "g")) [] None) (with_engines 63) 63 ≡ refuses (resource_error (codes "threads")) }
    ensures goal { serve 1 (start_goal 65 (atom (codes "g"))) (with_engines 63) 63 ≡ refuses (resource_error (codes "threads")) }
    ensures queue { serve 1 (create_queue None) (with_engines 63) 63 ≡ answers (named (number_term 65)) (Some (make_queue 65 None)) }
    ensures drawn { played 0 (opening_state 3) ((1, create_queue (Some (codes "main"))) ∷ (1, create_queue None) ∷ [])
        ≡ refuses (permission_error (codes "create") (codes "message_queue") (atom (codes "main")))
        ∷ answers (named (number_term 4)) (Some (make_queue 4 None)) ∷ [] }
{}

/// A history holds fewer than 2^47 updates beside the ends of engines, which is checked last.
#[tactic(auto, unfolding(pl_model::specs::SystemPredicates::system_predicates, pl_model::specs::Service::serve))]
pub fn bounds_updates()
    ensures below { serve 1 (assert_last (fact (codes "p") (number_term 1))) (opening_state 1) (2 ^ 47 - 1)
        ≡ answers done (Some (add_last (named_proc (codes "p") 1) (fact (codes "p") (number_term 1)) assert)) }
    ensures at { serve 1 (assert_last (fact (codes "p") (number_term 1))) (opening_state 1) (2 ^ 47) ≡ refuses (resource_error (codes "generations")) }
    ensures last { serve 1 (assert_last (fact (codes "call") (number_term 1))) (opening_state 1) (2 ^ 47)
        ≡ refuses (static_procedure (named_proc (codes "call") 1)) }
    ensures gone { serve 1 (erase_clause 0) (opening_state 1) (2 ^ 47) ≡ reads gone }
{}

/// The names that op/3 refuses, one after the other (ISO 8.14.3.3).
#[tactic(auto, unfolding(pl_model::specs::SystemPredicates::system_predicates, pl_model::specs::Service::serve))]
pub fn refuses_operators()
    ensures comma { serve 1 (put_operators 700 Xfx (codes "," ∷ codes "|" ∷ [])) (opening_state 1) 0
        ≡ refuses (permission_error (codes "modify") (codes "operator") (atom (codes ","))) }
    ensures reserved { serve 1 (put_operators 0 Xfx (codes "|" ∷ codes "," ∷ [])) (opening_state 1) 0
        ≡ refuses (permission_error (codes "create") (codes "operator") (atom (codes "|"))) }
{}

/// A new infix operator, and a value of each flag that can be changed, which texts are then read by.
#[tactic(auto, unfolding(pl_model::specs::SystemPredicates::system_predicates, pl_model::specs::Service::serve))]
pub fn puts_operators_and_flags()
    ensures operator { serve 1 (put_operators 700 Xfx (codes "===>" ∷ [])) (opening_state 1) 0
        ≡ answers done (Some (set_op (record { name = codes "===>"; priority = 700; specifier = xfx } ∷ []))) }
    ensures flag { played 0 (opening_state 1) ((1, put_flag (codes "double_quotes") (codes "chars")) ∷ (1, read_operators) ∷ (1, all_flags) ∷ [])
        ≡ answers done (Some (set_flag (codes "double_quotes") (codes "chars")))
        ∷ reads (standing opening_table Characters)
        ∷ reads (flags
        ((codes "bounded", atom (codes "true"))
        ∷ (codes "double_quotes", atom (codes "chars"))
        ∷ (codes "integer_rounding_function", atom (codes "toward_zero"))
        ∷ (codes "max_integer", int (pos 9223372036854775807))
        ∷ (codes "min_integer", int (negsuc 9223372036854775807))
        ∷ (codes "unknown", atom (codes "error")) ∷ [])) ∷ [] }
{}
