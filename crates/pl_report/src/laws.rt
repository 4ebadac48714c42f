//! Laws: the text of a section that says how an engine stands is the one in the report of a run.
ghost use Rattle.std.specs.Prelude.{◌≡◌, ◌++◌, ℕ, List, [], Bool, false, Option, Some};
ghost use Rattle.pl_term.specs.Tree.{Chars, Tree};
ghost use Rattle.pl_model.specs.OperatorTable.{OperatorTable};
ghost use Rattle.pl_model.specs.declared.syntax.SyntaxKind.{SyntaxKind};
ghost use Rattle.pl_model.specs.declared.ends.How.{How};
ghost use Rattle.run_model.specs.Execution.{Execution, Refusal};
ghost use Rattle.run_model.specs.Lawful.{Beginning, Program, Told};
ghost use Rattle.run_model.specs.Report.{consult_section, consult_text, end_in, place_of_main, with_output, output_of, goal_line, goal_text, refused_text, fault_text, texts, thread_name, of_thread};
ghost use Rattle.pl_model.specs.declared.ends.How.TheVariants.{Threw};
ghost use Rattle.run_model.specs.declared.ends.GoalHow.{GoalHow};
ghost use Rattle.run_model.specs.declared.ends.GoalHow.TheVariants.{Ended, Syntax};
ghost use Rattle.pl_report.specs.declared.parts.SectionKind.TheVariants.{Consult, Goal, Thread};
ghost use Rattle.pl_report.specs.Sections.{section_text};
ghost use Rattle.pl_report.specs.Reported.{Tells, IsEnough};

/// The section of the file.
pub fn files_are_reported()
    ensures { (name : Chars) (p : Program) (told : Told) (x : Execution) (how : Option GoalHow) (ops : OperatorTable)
        → section_text Consult (consult_text name x (place_of_main p told x) (end_in told.history 1)) how ops
        ≡ consult_section name p told x }
{}

/// The section of a goal whose engine ended or waits.
pub fn goals_are_reported()
    ensures { (word : Chars) (enough : Bool) (names : List (Chars × ℕ)) (x : Execution) (how : Option GoalHow) (ops : OperatorTable) (end : Option (How Tree))
        → Tells how end
        → IsEnough enough end
        → section_text (Goal word enough) (with_output names [] (output_of x)) how ops
        ≡ goal_line word ++ goal_text ops names x end }
{}

/// The section of a goal whose word is no term.
pub fn faults_are_reported()
    ensures { (word : Chars) (kind : SyntaxKind) (at : ℕ) (ops : OperatorTable)
        → section_text (Goal word false) [] (Some (Syntax kind at)) ops ≡ goal_line word ++ fault_text kind at }
{}

/// The section of a goal whose engine was refused.
pub fn refusals_are_reported()
    ensures { (word : Chars) (r : Refusal)
        → section_text (Goal word false) [] (Some (Ended (Threw r.ball))) r.operators ≡ goal_line word ++ refused_text r }
{}

/// The section of a thread.
pub fn threads_are_reported()
    ensures { (b : Beginning) (x : Execution) (how : Option GoalHow) (ops : OperatorTable) (end : Option (How Tree))
        → Tells how end
        → section_text (Thread (thread_name b)) (texts [] (output_of x)) how ops ≡ of_thread b end (Some x) }
{}
