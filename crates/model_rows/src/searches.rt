//! Worked searches: goals with the replies of the shared state, and the output and the end of their search within a
//! number of steps. Each contract is computed by the check.
ghost use Rattle.std.specs.Prelude.{◌≡◌, ℕ, List, [], ◌∷◌, Some, None, codes, pos};
ghost use Rattle.pl_term.specs.Tree.{Tree, var, int, atom, comp, none, more};
ghost use Rattle.pl_model.specs.OperatorTable.{OperatorTable};
ghost use Rattle.pl_model.specs.declared.grammar.Quotes.{Quotes as QuotesFlag};
ghost use Rattle.pl_model.specs.Balls.{error_ball, instantiation_error, not_callable, indicator, no_inferences, no_cells, no_choices};
ghost use Rattle.pl_model.specs.ErrorTerms.{domain_error, existence_error};
ghost use Rattle.pl_model.specs.Requests.{standing, listed, refused};
ghost use Rattle.pl_model.specs.Resolution.{text, solution, solved, no_more, threw, halted};
ghost use Rattle.pl_model.specs.History.{proc};
ghost use Rattle.pl_model.specs.Control.{consult_proc, catch_proc};
ghost use Rattle.model_rows.specs.Searches.{Finds};
ghost use Rattle.model_rows.specs.SearchRows.{ample, wanting, with_inferences, with_cells, with_choices, one, word, number, both, either, then, equal, catches, list, fact};

/// `true`, and `fail`.
#[tactic(auto, unfolding(pl_model::specs::Control::step, pl_model::specs::Control::start, pl_model::specs::Control::construct, pl_model::specs::Control::take_up, pl_model::specs::Control::gone_back, pl_model::specs::Control::thrown, pl_model::specs::Control::with_row, pl_model::specs::Control::next_clause, pl_model::specs::Builtins::row, pl_model::specs::BuiltinRows::row, pl_model::specs::SharedBuiltins::shared, pl_model::specs::Unify::unify, pl_model::specs::Unify::solve_all))]
pub fn finds_true()
    ensures true_goal { (ops : OperatorTable) (quotes : QuotesFlag) → Finds ample (word (codes "true"))
        (standing ops quotes ∷ []) 4 (solution ops ([]) ∷ []) solved }
    ensures fail { (ops : OperatorTable) (quotes : QuotesFlag) → Finds ample (word (codes "fail"))
        ([]) 4 ([]) no_more }
{}

/// `p(X)` with two facts: both solutions, where more are wanted than there are.
#[tactic(auto, unfolding(pl_model::specs::Control::step, pl_model::specs::Control::start, pl_model::specs::Control::construct, pl_model::specs::Control::take_up, pl_model::specs::Control::gone_back, pl_model::specs::Control::thrown, pl_model::specs::Control::with_row, pl_model::specs::Control::next_clause, pl_model::specs::Builtins::row, pl_model::specs::BuiltinRows::row, pl_model::specs::SharedBuiltins::shared, pl_model::specs::Unify::unify, pl_model::specs::Unify::solve_all))]
pub fn finds_all_solutions()
    ensures two { (ops : OperatorTable) (quotes : QuotesFlag) → Finds (wanting 9) (one (codes "p") (var 0))
        (listed (fact (codes "p") (int (pos 1)) ∷ fact (codes "p") (int (pos 2)) ∷ []) ∷ standing ops quotes ∷ standing ops quotes ∷ []) 12 (solution ops (int (pos 1) ∷ []) ∷ solution ops (int (pos 2) ∷ []) ∷ []) no_more }
{}

/// `call((m(X), !)), write(X), fail`: the cut removes the choice point of `m(X)`.
#[tactic(auto, unfolding(pl_model::specs::Control::step, pl_model::specs::Control::start, pl_model::specs::Control::construct, pl_model::specs::Control::take_up, pl_model::specs::Control::gone_back, pl_model::specs::Control::thrown, pl_model::specs::Control::with_row, pl_model::specs::Control::next_clause, pl_model::specs::Builtins::row, pl_model::specs::BuiltinRows::row, pl_model::specs::SharedBuiltins::shared, pl_model::specs::Unify::unify, pl_model::specs::Unify::solve_all, pl_model::specs::TermWriting::text_of, pl_model::specs::TermWriting::pieces))]
pub fn cuts_within_call()
    ensures first { (ops : OperatorTable) (quotes : QuotesFlag) → Finds ample (both (one (codes "call") (both (one (codes "m") (var 0)) (word (codes "!")))) (both (one (codes "write") (var 0)) (word (codes "fail"))))
        (listed (fact (codes "m") (atom (codes "a")) ∷ fact (codes "m") (atom (codes "b")) ∷ []) ∷ standing ops quotes ∷ []) 15 (text (codes "a") ∷ []) no_more }
{}

/// `(call(!), fail ; write(b))`: the cut is local to `call/1`. In `(m(X), ! ; X = c)` it is not local to `;`.
#[tactic(auto, unfolding(pl_model::specs::Control::step, pl_model::specs::Control::start, pl_model::specs::Control::construct, pl_model::specs::Control::take_up, pl_model::specs::Control::gone_back, pl_model::specs::Control::thrown, pl_model::specs::Control::with_row, pl_model::specs::Control::next_clause, pl_model::specs::Builtins::row, pl_model::specs::BuiltinRows::row, pl_model::specs::SharedBuiltins::shared, pl_model::specs::Unify::unify, pl_model::specs::Unify::solve_all, pl_model::specs::TermWriting::text_of, pl_model::specs::TermWriting::pieces))]
pub fn keeps_choices_behind_call()
    ensures local { (ops : OperatorTable) (quotes : QuotesFlag) → Finds ample (either (both (one (codes "call") (word (codes "!"))) (word (codes "fail"))) (one (codes "write") (word (codes "b"))))
        (standing ops quotes ∷ standing ops quotes ∷ []) 15 (text (codes "b") ∷ solution ops ([]) ∷ []) solved }
    ensures transparent { (ops : OperatorTable) (quotes : QuotesFlag) → Finds (wanting 9) (either (both (one (codes "m") (var 0)) (word (codes "!"))) (equal (var 0) (word (codes "c"))))
        (listed (fact (codes "m") (atom (codes "a")) ∷ fact (codes "m") (atom (codes "b")) ∷ []) ∷ standing ops quotes ∷ []) 15 (solution ops (word (codes "a") ∷ []) ∷ []) no_more }
{}

/// `catch((X = 1, throw(b)), b, true)`: a caught ball undoes the bindings.
#[tactic(auto, unfolding(pl_model::specs::Control::step, pl_model::specs::Control::start, pl_model::specs::Control::construct, pl_model::specs::Control::take_up, pl_model::specs::Control::gone_back, pl_model::specs::Control::thrown, pl_model::specs::Control::with_row, pl_model::specs::Control::next_clause, pl_model::specs::Builtins::row, pl_model::specs::BuiltinRows::row, pl_model::specs::SharedBuiltins::shared, pl_model::specs::Unify::unify, pl_model::specs::Unify::solve_all))]
pub fn undoes_bindings_at_catch()
    ensures unbound { (ops : OperatorTable) (quotes : QuotesFlag) → Finds ample (catches (both (equal (var 0) (number 1)) (one (codes "throw") (word (codes "b")))) (word (codes "b")) (word (codes "true")))
        (standing ops quotes ∷ []) 15 (solution ops (var 0 ∷ []) ∷ []) solved }
{}

/// `catch((catch((true ; true), b, write(inner)), throw(b)), b, write(outer))`: a catch that was left is not active.
#[tactic(auto, unfolding(pl_model::specs::Control::step, pl_model::specs::Control::start, pl_model::specs::Control::construct, pl_model::specs::Control::take_up, pl_model::specs::Control::gone_back, pl_model::specs::Control::thrown, pl_model::specs::Control::with_row, pl_model::specs::Control::next_clause, pl_model::specs::Builtins::row, pl_model::specs::BuiltinRows::row, pl_model::specs::SharedBuiltins::shared, pl_model::specs::Unify::unify, pl_model::specs::Unify::solve_all, pl_model::specs::TermWriting::text_of, pl_model::specs::TermWriting::pieces))]
pub fn leaves_catch()
    ensures outer { (ops : OperatorTable) (quotes : QuotesFlag) → Finds ample (catches (both (catches (either (word (codes "true")) (word (codes "true"))) (word (codes "b")) (one (codes "write") (word (codes "inner")))) (one (codes "throw") (word (codes "b")))) (word (codes "b")) (one (codes "write") (word (codes "outer"))))
        (standing ops quotes ∷ standing ops quotes ∷ []) 20 (text (codes "outer") ∷ solution ops ([]) ∷ []) solved }
{}

/// `X = f(X)`: the occurs check.
#[tactic(auto, unfolding(pl_model::specs::Control::step, pl_model::specs::Control::start, pl_model::specs::Control::construct, pl_model::specs::Control::take_up, pl_model::specs::Control::gone_back, pl_model::specs::Control::thrown, pl_model::specs::Control::with_row, pl_model::specs::Control::next_clause, pl_model::specs::Builtins::row, pl_model::specs::BuiltinRows::row, pl_model::specs::SharedBuiltins::shared, pl_model::specs::Unify::unify, pl_model::specs::Unify::solve_all))]
pub fn checks_occurrence()
    ensures fails { (ops : OperatorTable) (quotes : QuotesFlag) → Finds ample (equal (var 0) (one (codes "f") (var 0)))
        ([]) 5 ([]) no_more }
{}

/// `write(a), halt(7)`, and a status that is none.
#[tactic(auto, unfolding(pl_model::specs::Control::step, pl_model::specs::Control::start, pl_model::specs::Control::construct, pl_model::specs::Control::take_up, pl_model::specs::Control::gone_back, pl_model::specs::Control::thrown, pl_model::specs::Control::with_row, pl_model::specs::Control::next_clause, pl_model::specs::Builtins::row, pl_model::specs::BuiltinRows::row, pl_model::specs::SharedBuiltins::shared, pl_model::specs::Unify::unify, pl_model::specs::Unify::solve_all, pl_model::specs::TermWriting::text_of, pl_model::specs::TermWriting::pieces))]
pub fn halts_search()
    ensures status { (ops : OperatorTable) (quotes : QuotesFlag) → Finds ample (both (one (codes "write") (word (codes "a"))) (one (codes "halt") (number 7)))
        (standing ops quotes ∷ []) 6 (text (codes "a") ∷ []) (halted 7) }
    ensures refused { (ops : OperatorTable) (quotes : QuotesFlag) → Finds ample (one (codes "halt") (number 255))
        ([]) 6 ([]) (threw (error_ball (domain_error (codes "exit_status") (number 255)) (proc (codes "halt") 1))) }
{}

/// `foo(1)`, whose procedure is unknown.
#[tactic(auto, unfolding(pl_model::specs::Control::step, pl_model::specs::Control::start, pl_model::specs::Control::construct, pl_model::specs::Control::take_up, pl_model::specs::Control::gone_back, pl_model::specs::Control::thrown, pl_model::specs::Control::with_row, pl_model::specs::Control::next_clause, pl_model::specs::Builtins::row, pl_model::specs::BuiltinRows::row, pl_model::specs::SharedBuiltins::shared, pl_model::specs::Unify::unify, pl_model::specs::Unify::solve_all))]
pub fn misses_procedure()
    ensures unknown { (ops : OperatorTable) (quotes : QuotesFlag) → Finds ample (one (codes "foo") (number 1))
        (refused (existence_error (codes "procedure") (indicator (proc (codes "foo") 1))) ∷ []) 5 ([]) (threw (error_ball (existence_error (codes "procedure") (indicator (proc (codes "foo") 1))) (proc (codes "foo") 1))) }
{}

/// `X = f(a)` takes six cells.
#[tactic(auto, unfolding(pl_model::specs::Control::step, pl_model::specs::Control::start, pl_model::specs::Control::construct, pl_model::specs::Control::take_up, pl_model::specs::Control::gone_back, pl_model::specs::Control::thrown, pl_model::specs::Control::with_row, pl_model::specs::Control::next_clause, pl_model::specs::Builtins::row, pl_model::specs::BuiltinRows::row, pl_model::specs::SharedBuiltins::shared, pl_model::specs::Unify::unify, pl_model::specs::Unify::solve_all))]
pub fn counts_cells()
    ensures enough { (ops : OperatorTable) (quotes : QuotesFlag) → Finds (with_cells 6) (equal (var 0) (one (codes "f") (word (codes "a"))))
        (standing ops quotes ∷ []) 6 (solution ops (one (codes "f") (word (codes "a")) ∷ []) ∷ []) solved }
    ensures short { (ops : OperatorTable) (quotes : QuotesFlag) → Finds (with_cells 5) (equal (var 0) (one (codes "f") (word (codes "a"))))
        ([]) 6 ([]) (threw (error_ball no_cells (proc (codes "=") 2))) }
{}

/// `p(X), p(Y)` with two facts makes two choice points.
#[tactic(auto, unfolding(pl_model::specs::Control::step, pl_model::specs::Control::start, pl_model::specs::Control::construct, pl_model::specs::Control::take_up, pl_model::specs::Control::gone_back, pl_model::specs::Control::thrown, pl_model::specs::Control::with_row, pl_model::specs::Control::next_clause, pl_model::specs::Builtins::row, pl_model::specs::BuiltinRows::row, pl_model::specs::SharedBuiltins::shared, pl_model::specs::Unify::unify, pl_model::specs::Unify::solve_all))]
pub fn counts_choices()
    ensures enough { (ops : OperatorTable) (quotes : QuotesFlag) → Finds (with_choices 2) (both (one (codes "p") (var 0)) (one (codes "p") (var 1)))
        (listed (fact (codes "p") (int (pos 1)) ∷ fact (codes "p") (int (pos 2)) ∷ []) ∷ listed (fact (codes "p") (int (pos 1)) ∷ fact (codes "p") (int (pos 2)) ∷ []) ∷ standing ops quotes ∷ []) 12 (solution ops (number 1 ∷ number 1 ∷ []) ∷ []) solved }
    ensures short { (ops : OperatorTable) (quotes : QuotesFlag) → Finds (with_choices 1) (both (one (codes "p") (var 0)) (one (codes "p") (var 1)))
        (listed (fact (codes "p") (int (pos 1)) ∷ fact (codes "p") (int (pos 2)) ∷ []) ∷ listed (fact (codes "p") (int (pos 1)) ∷ fact (codes "p") (int (pos 2)) ∷ []) ∷ []) 12 ([]) (threw (error_ball no_choices (proc (codes "p") 1))) }
{}

/// Three unifications take three inferences, and `true` and conjunction none; `repeat` takes one each time.
#[tactic(auto, unfolding(pl_model::specs::Control::step, pl_model::specs::Control::start, pl_model::specs::Control::construct, pl_model::specs::Control::take_up, pl_model::specs::Control::gone_back, pl_model::specs::Control::thrown, pl_model::specs::Control::with_row, pl_model::specs::Control::next_clause, pl_model::specs::Builtins::row, pl_model::specs::BuiltinRows::row, pl_model::specs::SharedBuiltins::shared, pl_model::specs::Unify::unify, pl_model::specs::Unify::solve_all))]
pub fn counts_inferences()
    ensures enough { (ops : OperatorTable) (quotes : QuotesFlag) → Finds (with_inferences 3) (both (equal (var 0) (number 1)) (both (equal (var 1) (number 2)) (equal (var 2) (number 3))))
        (standing ops quotes ∷ []) 12 (solution ops (number 1 ∷ number 2 ∷ number 3 ∷ []) ∷ []) solved }
    ensures short { (ops : OperatorTable) (quotes : QuotesFlag) → Finds (with_inferences 2) (both (equal (var 0) (number 1)) (both (equal (var 1) (number 2)) (equal (var 2) (number 3))))
        ([]) 12 ([]) (threw (error_ball no_inferences (proc (codes "=") 2))) }
    ensures repeat { (ops : OperatorTable) (quotes : QuotesFlag) → Finds (with_inferences 2) (both (word (codes "repeat")) (word (codes "fail")))
        ([]) 12 ([]) (threw (error_ball no_inferences (proc (codes "repeat") 0))) }
{}

/// `findall(X, (X = 1 ; X = Y), L)`: the copy of the second solution has a variable of its own.
#[tactic(auto, unfolding(pl_model::specs::Control::step, pl_model::specs::Control::start, pl_model::specs::Control::construct, pl_model::specs::Control::take_up, pl_model::specs::Control::gone_back, pl_model::specs::Control::thrown, pl_model::specs::Control::with_row, pl_model::specs::Control::next_clause, pl_model::specs::Builtins::row, pl_model::specs::BuiltinRows::row, pl_model::specs::SharedBuiltins::shared, pl_model::specs::Unify::unify, pl_model::specs::Unify::solve_all))]
pub fn collects_copies()
    ensures list { (ops : OperatorTable) (quotes : QuotesFlag) → Finds ample (comp (codes "findall") (var 0) (more (either (equal (var 0) (number 1)) (equal (var 0) (var 1))) (more (var 2) none)))
        (standing ops quotes ∷ []) 15 (solution ops (var 0 ∷ var 1 ∷ list (number 1 ∷ var 3 ∷ []) ∷ []) ∷ []) solved }
{}

/// `\\+`, and the first solution alone by `once/1`.
#[tactic(auto, unfolding(pl_model::specs::Control::step, pl_model::specs::Control::start, pl_model::specs::Control::construct, pl_model::specs::Control::take_up, pl_model::specs::Control::gone_back, pl_model::specs::Control::thrown, pl_model::specs::Control::with_row, pl_model::specs::Control::next_clause, pl_model::specs::Builtins::row, pl_model::specs::BuiltinRows::row, pl_model::specs::SharedBuiltins::shared, pl_model::specs::Unify::unify, pl_model::specs::Unify::solve_all))]
pub fn keeps_one_solution()
    ensures not_failing { (ops : OperatorTable) (quotes : QuotesFlag) → Finds ample (one (codes "\\+") (word (codes "fail")))
        (standing ops quotes ∷ []) 8 (solution ops ([]) ∷ []) solved }
    ensures not_true { (ops : OperatorTable) (quotes : QuotesFlag) → Finds ample (one (codes "\\+") (word (codes "true")))
        ([]) 8 ([]) no_more }
    ensures first_only { (ops : OperatorTable) (quotes : QuotesFlag) → Finds (wanting 9) (one (codes "once") (either (equal (var 0) (number 1)) (equal (var 0) (number 2))))
        (standing ops quotes ∷ []) 12 (solution ops (number 1 ∷ []) ∷ []) no_more }
    ensures each { (ops : OperatorTable) (quotes : QuotesFlag) → Finds (wanting 9) (either (equal (var 0) (number 1)) (equal (var 0) (number 2)))
        (standing ops quotes ∷ standing ops quotes ∷ []) 12 (solution ops (number 1 ∷ []) ∷ solution ops (number 2 ∷ []) ∷ []) no_more }
{}

/// If-then-else takes the branch that the condition says, and if-then without an else fails with it.
#[tactic(auto, unfolding(pl_model::specs::Control::step, pl_model::specs::Control::start, pl_model::specs::Control::construct, pl_model::specs::Control::take_up, pl_model::specs::Control::gone_back, pl_model::specs::Control::thrown, pl_model::specs::Control::with_row, pl_model::specs::Control::next_clause, pl_model::specs::Builtins::row, pl_model::specs::BuiltinRows::row, pl_model::specs::SharedBuiltins::shared, pl_model::specs::Unify::unify, pl_model::specs::Unify::solve_all))]
pub fn branches()
    ensures otherwise { (ops : OperatorTable) (quotes : QuotesFlag) → Finds ample (either (then (word (codes "fail")) (equal (var 0) (number 2))) (equal (var 0) (number 1)))
        (standing ops quotes ∷ []) 10 (solution ops (number 1 ∷ []) ∷ []) solved }
    ensures condition { (ops : OperatorTable) (quotes : QuotesFlag) → Finds (wanting 9) (either (then (word (codes "true")) (equal (var 0) (number 2))) (equal (var 0) (number 1)))
        (standing ops quotes ∷ []) 10 (solution ops (number 2 ∷ []) ∷ []) no_more }
    ensures no_else { (ops : OperatorTable) (quotes : QuotesFlag) → Finds ample (then (word (codes "fail")) (word (codes "true")))
        ([]) 10 ([]) no_more }
{}

/// A variable goal is called, an integer is refused, and a body is checked whole before it is run.
#[tactic(auto, unfolding(pl_model::specs::Control::step, pl_model::specs::Control::start, pl_model::specs::Control::construct, pl_model::specs::Control::take_up, pl_model::specs::Control::gone_back, pl_model::specs::Control::thrown, pl_model::specs::Control::with_row, pl_model::specs::Control::next_clause, pl_model::specs::Builtins::row, pl_model::specs::BuiltinRows::row, pl_model::specs::SharedBuiltins::shared, pl_model::specs::Unify::unify, pl_model::specs::Unify::solve_all))]
pub fn checks_goals()
    ensures variable { (ops : OperatorTable) (quotes : QuotesFlag) → Finds ample (var 0)
        ([]) 5 ([]) (threw (error_ball instantiation_error (proc (codes "call") 1))) }
    ensures integer { (ops : OperatorTable) (quotes : QuotesFlag) → Finds ample (number 1)
        ([]) 5 ([]) (threw (error_ball (not_callable (number 1)) (consult_proc))) }
    ensures conjunct { (ops : OperatorTable) (quotes : QuotesFlag) → Finds ample (both (word (codes "true")) (number 1))
        ([]) 5 ([]) (threw (error_ball (not_callable (both (word (codes "true")) (number 1))) (consult_proc))) }
    ensures called { (ops : OperatorTable) (quotes : QuotesFlag) → Finds ample (one (codes "call") (both (word (codes "fail")) (number 1)))
        ([]) 5 ([]) (threw (error_ball (not_callable (both (word (codes "fail")) (number 1))) (proc (codes "call") 1))) }
    ensures recovery { (ops : OperatorTable) (quotes : QuotesFlag) → Finds ample (catches (one (codes "throw") (word (codes "a"))) (word (codes "a")) (number 1))
        ([]) 6 ([]) (threw (error_ball (not_callable (number 1)) (catch_proc))) }
    ensures extended { (ops : OperatorTable) (quotes : QuotesFlag) → Finds ample (comp (codes "call") (word (codes "=")) (more (number 1) (more (var 0) none)))
        (standing ops quotes ∷ []) 8 (solution ops (number 1 ∷ []) ∷ []) solved }
{}

/// A ball keeps its variables until a catch copies it, and takes its cells there.
#[tactic(auto, unfolding(pl_model::specs::Control::step, pl_model::specs::Control::start, pl_model::specs::Control::construct, pl_model::specs::Control::take_up, pl_model::specs::Control::gone_back, pl_model::specs::Control::thrown, pl_model::specs::Control::with_row, pl_model::specs::Control::next_clause, pl_model::specs::Builtins::row, pl_model::specs::BuiltinRows::row, pl_model::specs::SharedBuiltins::shared, pl_model::specs::Unify::unify, pl_model::specs::Unify::solve_all))]
pub fn copies_balls()
    ensures uncaught { (ops : OperatorTable) (quotes : QuotesFlag) → Finds ample (one (codes "throw") (one (codes "f") (var 0)))
        ([]) 4 ([]) (threw (one (codes "f") (var 0))) }
    ensures caught { (ops : OperatorTable) (quotes : QuotesFlag) → Finds ample (catches (one (codes "throw") (one (codes "f") (var 0))) (var 1) (word (codes "true")))
        (standing ops quotes ∷ []) 8 (solution ops (var 0 ∷ one (codes "f") (var 2) ∷ []) ∷ []) solved }
    ensures enough { (ops : OperatorTable) (quotes : QuotesFlag) → Finds (with_cells 13) (catches (one (codes "throw") (comp (codes "f") (word (codes "a")) (more (word (codes "b")) none))) (var 0) (word (codes "true")))
        (standing ops quotes ∷ []) 8 (solution ops (comp (codes "f") (word (codes "a")) (more (word (codes "b")) none) ∷ []) ∷ []) solved }
    ensures short { (ops : OperatorTable) (quotes : QuotesFlag) → Finds (with_cells 12) (catches (one (codes "throw") (comp (codes "f") (word (codes "a")) (more (word (codes "b")) none))) (var 0) (word (codes "true")))
        (standing ops quotes ∷ []) 8 (solution ops (error_ball no_cells catch_proc ∷ []) ∷ []) solved }
{}
