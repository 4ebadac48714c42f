//! Worked histories: what is told of a run is the whole of it, and the text that follows. Each contract is computed by the
//! check.
ghost use Rattle.std.specs.Prelude.{◌≡◌, [], ◌∷◌, codes};
ghost use Rattle.run_model.specs.Lawful.{IsComplete};
ghost use Rattle.run_model.specs.Report.{AreFinal, transcript};
ghost use Rattle.model_rows.specs.HistoryRows.{with_goals, sends, gets, passing, passing_finals, passing_text, waits_for_x, waiting, waiting_finals, waiting_text, creates, creating, creating_finals, creating_text};
ghost use Rattle.model_rows.specs.RefusalRows.{refusing_program, refusing, refusing_finals, refusing_text};

/// `thread_send_message(goal2,a)` and `thread_get_message(X)`: the second goal's engine takes the message of the first.
#[tactic(auto, using(crate::proofs::Passing::passing_complete, crate::proofs::Passing::passing_final, crate::proofs::Passing::passing_writes))]
pub fn passes_a_message()
    ensures complete { IsComplete (with_goals (sends ∷ gets ∷ [])) passing }
    ensures final_states { AreFinal (with_goals (sends ∷ gets ∷ [])) passing passing_finals }
    ensures text { transcript (codes "f.pl") (with_goals (sends ∷ gets ∷ [])) passing passing_finals ≡ passing_text }
{}

/// `thread_get_message(x)`: nobody sends the message, and the goal waits.
#[tactic(auto, using(crate::proofs::Waiting::waiting_complete, crate::proofs::Waiting::waiting_final, crate::proofs::Waiting::waiting_writes))]
pub fn waits_for_a_message()
    ensures complete { IsComplete (with_goals (waits_for_x ∷ [])) waiting }
    ensures final_states { AreFinal (with_goals (waits_for_x ∷ [])) waiting waiting_finals }
    ensures text { transcript (codes "f.pl") (with_goals (waits_for_x ∷ [])) waiting waiting_finals ≡ waiting_text }
{}

/// `thread_create(write(a),_)`: the thread has a section of its own.
#[tactic(auto, using(crate::proofs::Creating::creating_complete, crate::proofs::Creating::creating_final, crate::proofs::Creating::creating_writes))]
pub fn creates_a_thread()
    ensures complete { IsComplete (with_goals (creates ∷ [])) creating }
    ensures final_states { AreFinal (with_goals (creates ∷ [])) creating creating_finals }
    ensures text { transcript (codes "f.pl") (with_goals (creates ∷ [])) creating creating_finals ≡ creating_text }
{}

/// Two goals `true` after a directive that gives a queue the alias of the second one's engine: its start is refused.
#[tactic(auto, using(crate::proofs::Refusing::refusing_complete, crate::proofs::Refusing::refusing_final, crate::proofs::Refusing::refusing_writes))]
pub fn refuses_a_start()
    ensures complete { IsComplete refusing_program refusing }
    ensures final_states { AreFinal refusing_program refusing refusing_finals }
    ensures text { transcript (codes "f.pl") refusing_program refusing refusing_finals ≡ refusing_text }
{}
