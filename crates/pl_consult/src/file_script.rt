//! The script of the first engine: its steps, one after the other, until one of them gives something.
ghost use Rattle.std.specs.Prelude.{◌≡◌, ◌<◌, ◌∷◌, ◌++◌, ◌⊎◌, ℕ, List, [], ◌||◌, length, map, nat_lt, true, false, IsSome, IfOk, Ok, OnOk, Some};
ghost use Rattle.std.specs.Arc.{arc_value};
ghost use Rattle.std.specs.Option.{option_map};
ghost use Rattle.std.specs.List.{All};
ghost use Rattle.pl_term.specs.Tree.{Chars, Tree};
ghost use Rattle.run_model.specs.Execution.{Job, consults, Consulted, Execution, word_read};
ghost use Rattle.run_model.specs.Report.{place_at_hand};
ghost use Rattle.pl_model.specs.SharedState.{SharedState};
ghost use Rattle.pl_model.specs.Requests.{Request};
ghost use Rattle.term_store.specs.NumberedNames.{names_of, term_by};
ghost use Rattle.world_api.specs.Texts.{text_of, Holds};
ghost use Rattle.world_api.specs.Told.{Told, has_ended};
ghost use Rattle.world_api.specs.Gains.{Gains};
ghost use Rattle.script_api.specs.Scripts.{IsLater, next_refusals, next_names};
ghost use Rattle.pl_consult.specs.declared.stage.Stage.TheVariants.{Items, Lost, Starts, Words as AtWords};
ghost use Rattle.pl_consult.specs.declared.stage.Step.TheVariants.{Gives};
ghost use Rattle.pl_consult.specs.Steps.{IsAfter, IsQuiet, Looked, StartedSo, can_step, directive_place, step_names, step_refusals};
ghost use Rattle.pl_consult.specs.ItemTexts.{IsFileRequest, IsItemText, IsOwnRequest, IsOwnText, IsStartRequest, IsWordText, MayIntern, Narrows};
ghost use Rattle.pl_consult.specs.GoalWords.{HasKept, IsAt, read_of, refusals_of, words_of};
ghost use Rattle.pl_consult.specs.Hands.{StandsThere};
ghost use Rattle.pl_consult.specs.FileScripts.{Begins, FileMoved, FileRan, IsFresh, IsGiven, execution_of, is_lost, is_memory, part_in};

use crate::adds::add_clause;
use crate::consult::{Consult, Place};
use crate::counts::{count, counted};
use crate::ends::to_report;
use crate::gives::{give_directive, give_goal, next_initialization};
use crate::goal_words::{RefusedGoal, WordsRead, first_names, read_words, words_under};
use crate::hands::place_at;
use crate::looks::{Standing, look_at};
use crate::reports::report;
use crate::stage::{Stage, Step, can_step, directive_at, is_lost};
use crate::starts::{begun, start_goal, started};
use crate::stops::next_by;
use crate::taking::take_item;
use named_terms::NamedTerm;
use op_table::OpTable;
use pl_model::ends::How;
use pl_model::grammar::Quotes;
use pl_term::{Flat, Memory, Text};
use script_api::{Living, Next, Script};
use std::alloc::Global;
use std::mem;
use std::sync::Arc;
use term_store::{AtomSet, Stored};
use word_board::{Board, GoalWord, Words};
use world_api::World;

/// The script of the first engine: a file that is consulted, and the goals of the command.
#[derive(Drop)]
pub struct FileScript<'a> {
    alloc: Global,
    consult: Consult,
    stage: Stage,
    /// The words of the goals.
    words: Vec<Text>,
    /// Where these words are written as they were read, for all engines to see.
    board: &'a Board,
    /// They, once they are.
    read: Option<Words<'a>>,
    /// The further goals whose engines could not be started.
    refused: Vec<RefusedGoal>,
    /// Whether a fault of the file was written.
    faulty: bool,
}

impl<'a> FileScript<'a> {
    /// The script of a command that consults a file with these bytes and this name, and then runs the goals of these words:
    /// the first one itself, each further one by an engine of its own. It writes the words as they were read on the board. A file of more than 16 MiB has no items, and `out` gets
    /// the line that says so. The only error is out of memory.
    pub fn new(
        alloc: Global,
        bytes: Vec<u8>,
        name: &Text,
        words: Vec<Text>,
        board: &'a Board,
        out: &mut Vec<u8>,
    ) -> Result<FileScript<'a>, Memory>
        requires { out.old.items ≡ [] }
        ensures begins { (job : Job) → job.script ≡ consults bytes.items words.items
            → IfOk result (λ s. Begins s job name.now out.new.items) }
        ensures fresh { IfOk result (λ s. IsFresh s name.now) }
        ensures board { IfOk result (λ s. s.board.now ≡ board.now) }
        ensures texts { IfOk result (λ s. (c : Chars) → IsOwnText s.consult s.words.items s.stage c → IsItemText bytes.items c ⊎ IsWordText words.items c) }
        ensures asks { IfOk result (λ s. (q : Request) → IsOwnRequest s.consult s.words.items s.stage q
            → IsFileRequest bytes.items q ⊎ IsStartRequest words.items q) }
    {
        let consult = Consult::new(alloc, bytes, name, out)?;
        Ok(FileScript {
            alloc,
            consult,
            stage: Stage::Items,
            words,
            board,
            read: None,
            refused: Vec::new(alloc),
            faulty: has_grown(out.as_slice(), 0),
        })
    }

    /// The words of the goals as they were read: none before.
    pub fn read(&self) -> &[GoalWord]
        ensures { (job : Job) (cs : List Consulted) → (execution_of self.now job cs).words ≡ words_of result.now }
    {
        words_in(&self.read)
    }

    /// The words of the goals as they are read under these operators, and with texts in double quotes as `quotes` says. The only
    /// error is out of memory.
    pub fn words_under(&self, operators: &OpTable, quotes: Quotes) -> Result<Vec<GoalWord>, Memory>
        ensures { IfOk result (λ v. words_of v.items ≡ map (word_read operators.now quotes) self.now.words.items) }
    {
        read_words(self.alloc, self.words.as_slice(), operators, quotes)
    }

    /// The further goals whose engines could not be started, each with its error, in the order of their numbers.
    pub fn refused(&self) -> &[RefusedGoal]
        ensures { (job : Job) (cs : List Consulted) → (execution_of self.now job cs).refusals ≡ refusals_of result.now }
    {
        self.refused.as_slice()
    }

    /// The byte of the directive whose goal is searched for, if one is.
    pub fn directive_at(&self) -> Option<usize>
        ensures { result ≡ directive_place (part_in self.now) }
    {
        directive_at(&self.stage)
    }

    /// The byte of the item that was taken up last and is not done, or of the next goal of initialization/1: where the engine
    /// found no place for an atom. None is there where all are done. The item is read under the operators and the flag of the
    /// state in which the engine stands. The only error is out of memory.
    pub fn place_at_hand(
        &self,
        operators: &OpTable,
        quotes: Quotes,
    ) -> Result<Option<usize>, Memory>
        ensures { (job : Job) (cs : List Consulted) (x : Execution) (state : SharedState)
            → state.operators ≡ operators.now
            → state.flags.double_quotes ≡ quotes
            → StandsThere self.now job cs x
            → IfOk result (λ o. o ≡ place_at_hand self.now.consult.text.items state x x.activity) }
    {
        place_at(self.alloc, &self.stage, &self.consult, operators, quotes)
    }

    /// Whether memory has run out in a step of the script.
    pub fn is_lost(&self) -> bool
        ensures { result ≡ is_lost self.now.stage }
    {
        is_lost(&self.stage)
    }

    /// Whether a line of the file is that of a fault, and not what a directive has written.
    pub fn is_faulty(&self) -> bool
        ensures { result ≡ self.now.faulty }
    {
        self.faulty
    }

    /// Makes step after step, the first at this stage, until one gives something. The text has `before` bytes
    /// before them. Their moves are counted by `moves`.
    fn go_on<W: World<Term = Stored>>(
        &mut self,
        stage: Stage,
        before: usize,
        world: &mut W,
        atoms: &mut W::A,
        text: &mut Vec<u8>,
        moves: &mut u64,
    ) -> Next<Stored>
        requires runs { has_ended (W.told world.old).engine (W.told world.old).history ≡ false }
        requires before { before ≡ length text.old.items }
        requires can { can_step stage ≡ true }
        requires lost { self.old.stage ≡ Lost }
        ensures moved { (name : Chars) → FileRan (term_by (text_of (W.A.held atoms.new))) name self.old stage (W.told world.old) moves.old text.old.items
            (Gives result) self.new self.new.stage (W.told world.new) moves.new text.new.items }
        ensures given { IsGiven result self.new.stage }
        ensures faults { is_memory result ≡ false → self.new.faulty ≡ (self.old.faulty || nat_lt (length text.old.items) (length text.new.items)) }
        ensures file { self.new.consult.name ≡ self.old.consult.name }
        ensures runs { has_ended (W.told world.new).engine (W.told world.new).history ≡ false }
        ensures named { All (λ a. IsSome (W.A.held atoms.new a)) (next_names names_of result) }
        ensures holds { Holds (W.A.held atoms.old) (W.A.held atoms.new) }
        ensures refusals { W.A.refusals atoms.new ≡ W.A.refusals atoms.old ++ next_refusals result }
        ensures told { IsLater (W.told world.old) (W.told world.new) }
        ensures asked { Gains (MayIntern self.old.consult self.old.words.items stage (W.told world.old)) (W.A.asked atoms.old) (W.A.asked atoms.new) }
        ensures narrows { Narrows self.old.words.items self.old.consult stage self.new.consult self.new.stage }
        ensures words { self.new.words.items ≡ self.old.words.items }
        ensures board { self.new.board.now ≡ self.old.board.now }
    {
        let mut stage = stage;
        for _ in 0..u64::MAX {
            let (then, step) = self.step(stage, world, atoms, text);
            match counted(step, moves) {
                Step::Goes => stage = then,
                Step::Gives(next) => {
                    return self.hand_out(then, next, has_grown(text.as_slice(), before));
                }
            }
        }
        Next::Memory
    }

    /// The script stands at this stage as it gives this; `grown` says whether faults were written. Where memory runs out it is
    /// lost.
    fn hand_out(&mut self, stage: Stage, next: Next<Stored>, grown: bool) -> Next<Stored>
        ensures next { result ≡ next }
        ensures lost { is_memory next ≡ true → self.new ≡ self.old }
        ensures stage { is_memory next ≡ false → self.new ≡ record self.old { stage = stage; faulty = self.old.faulty || grown } }
        ensures file { self.new.consult.name ≡ self.old.consult.name }
        ensures consult { self.new.consult ≡ self.old.consult }
        ensures words { self.new.words.items ≡ self.old.words.items }
        ensures board { self.new.board.now ≡ self.old.board.now }
        ensures stands { (self.new.stage ≡ self.old.stage) ⊎ (self.new.stage ≡ stage) }
    {
        if is_memory(&next) {
            return next;
        }
        self.stage = stage;
        self.faulty = either(self.faulty, grown);
        next
    }

    /// Makes the step at this stage.
    fn step<W: World<Term = Stored>>(
        &mut self,
        stage: Stage,
        world: &mut W,
        atoms: &mut W::A,
        text: &mut Vec<u8>,
    ) -> (Stage, Step)
        requires runs { has_ended (W.told world.old).engine (W.told world.old).history ≡ false }
        requires can { can_step stage ≡ true }
        ensures moved { (name : Chars) → FileMoved (term_by (text_of (W.A.held atoms.new))) name self.old stage (W.told world.old) text.old.items
            result.1 self.new result.0 (W.told world.new) text.new.items }
        ensures kept { self.new.stage ≡ self.old.stage }
        ensures faults { self.new.faulty ≡ self.old.faulty }
        ensures file { self.new.consult.name ≡ self.old.consult.name }
        ensures stage { IsAfter result.1 result.0 }
        ensures runs { has_ended (W.told world.new).engine (W.told world.new).history ≡ false }
        ensures named { All (λ a. IsSome (W.A.held atoms.new a)) (step_names names_of result.1) }
        ensures holds { Holds (W.A.held atoms.old) (W.A.held atoms.new) }
        ensures refusals { W.A.refusals atoms.new ≡ W.A.refusals atoms.old ++ step_refusals result.1 }
        ensures told { IsLater (W.told world.old) (W.told world.new) }
        ensures asked { Gains (MayIntern self.old.consult self.old.words.items stage (W.told world.old)) (W.A.asked atoms.old) (W.A.asked atoms.new) }
        ensures narrows { Narrows self.old.words.items self.old.consult stage self.new.consult result.0 }
        ensures words { self.new.words.items ≡ self.old.words.items }
        ensures board { self.new.board.now ≡ self.old.board.now }
    {
        let alloc = self.alloc;
        match stage {
            Stage::Items => self.take_next(world, atoms, text),
            Stage::Clause {
                clause,
                place,
                operators,
            } => add_clause(
                alloc,
                &self.consult,
                clause,
                place,
                operators,
                world,
                atoms,
                text,
            ),
            Stage::Directive { goal, place } => give_directive(alloc, goal, place, atoms),
            Stage::Report { place, how } => {
                report(alloc, &self.consult, place, how, world, atoms, text)
            }
            Stage::Words => self.read_words(world, atoms),
            Stage::Starts {
                operators,
                first,
                goals,
                at,
            } => self.start_next(operators, first, goals, at, world, atoms),
            Stage::Goal { goal } => give_goal(alloc, goal, atoms),
            _ => unreachable!(),
        }
    }

    /// Takes up the next item of the file, or after its end the next goal of initialization/1.
    fn take_next<W: World<Term = Stored>>(
        &mut self,
        world: &mut W,
        atoms: &mut W::A,
        text: &mut Vec<u8>,
    ) -> (Stage, Step)
        requires runs { has_ended (W.told world.old).engine (W.told world.old).history ≡ false }
        ensures moved { (name : Chars) → FileMoved (term_by (text_of (W.A.held atoms.new))) name self.old Items (W.told world.old) text.old.items
            result.1 self.new result.0 (W.told world.new) text.new.items }
        ensures kept { self.new.stage ≡ self.old.stage }
        ensures faults { self.new.faulty ≡ self.old.faulty }
        ensures file { self.new.consult.name ≡ self.old.consult.name }
        ensures stage { IsAfter result.1 result.0 }
        ensures runs { has_ended (W.told world.new).engine (W.told world.new).history ≡ false }
        ensures named { All (λ a. IsSome (W.A.held atoms.new a)) (step_names names_of result.1) }
        ensures holds { Holds (W.A.held atoms.old) (W.A.held atoms.new) }
        ensures refusals { W.A.refusals atoms.new ≡ W.A.refusals atoms.old ++ step_refusals result.1 }
        ensures told { IsLater (W.told world.old) (W.told world.new) }
        ensures asked { W.A.asked atoms.new ≡ W.A.asked atoms.old }
        ensures narrows { Narrows self.old.words.items self.old.consult Items self.new.consult result.0 }
        ensures words { self.new.words.items ≡ self.old.words.items }
        ensures board { self.new.board.now ≡ self.old.board.now }
    {
        let alloc = self.alloc;
        match self.consult.place {
            Place::Item(at) => take_item(alloc, &mut self.consult, at, world, atoms, text),
            Place::Initialization => next_initialization(alloc, &mut self.consult),
        }
    }

    /// Reads the words of the goals under the operators and the flag of a look.
    fn read_words<W: World<Term = Stored>>(
        &mut self,
        world: &mut W,
        atoms: &mut W::A,
    ) -> (Stage, Step)
        requires runs { has_ended (W.told world.old).engine (W.told world.old).history ≡ false }
        ensures moved { (name : Chars) (out : List ℕ) → FileMoved (term_by (text_of (W.A.held atoms.new))) name self.old AtWords (W.told world.old) out
            result.1 self.new result.0 (W.told world.new) out }
        ensures kept { self.new.stage ≡ self.old.stage }
        ensures faults { self.new.faulty ≡ self.old.faulty }
        ensures file { self.new.consult.name ≡ self.old.consult.name }
        ensures stage { IsAfter result.1 result.0 }
        ensures runs { has_ended (W.told world.new).engine (W.told world.new).history ≡ false }
        ensures named { All (λ a. IsSome (W.A.held atoms.new a)) (step_names names_of result.1) }
        ensures holds { Holds (W.A.held atoms.old) (W.A.held atoms.new) }
        ensures refusals { W.A.refusals atoms.new ≡ W.A.refusals atoms.old ++ step_refusals result.1 }
        ensures told { IsLater (W.told world.old) (W.told world.new) }
        ensures asked { W.A.asked atoms.new ≡ W.A.asked atoms.old }
        ensures narrows { Narrows self.old.words.items self.old.consult AtWords self.new.consult result.0 }
        ensures words { self.new.words.items ≡ self.old.words.items }
        ensures board { self.new.board.now ≡ self.old.board.now }
    {
        match look_at(world, atoms) {
            Err(unserved) => (Stage::Words, Step::Gives(next_by(unserved))),
            Ok(Standing { operators, quotes }) => self.read_under(operators, quotes),
        }
    }

    /// Reads them under these operators, and with texts in double quotes as `quotes` says.
    fn read_under(&mut self, operators: Arc<OpTable>, quotes: Quotes) -> (Stage, Step)
        ensures moved { (name : Chars) (term : Tree → Tree) (t u : Told) (out : List ℕ) → Looked t u (arc_value operators) quotes
            → FileMoved term name self.old AtWords t out result.1 self.new result.0 u out }
        ensures kept { self.new.stage ≡ self.old.stage }
        ensures faults { self.new.faulty ≡ self.old.faulty }
        ensures file { self.new.consult.name ≡ self.old.consult.name }
        ensures stage { IsAfter result.1 result.0 }
        ensures quiet { IsQuiet result.1 }
        ensures narrows { Narrows self.old.words.items self.old.consult AtWords self.new.consult result.0 }
        ensures words { self.new.words.items ≡ self.old.words.items }
        ensures board { self.new.board.now ≡ self.old.board.now }
    {
        match words_under(self.alloc, self.words.as_slice(), &operators, quotes) {
            Ok(WordsRead { read, first, goals }) => match self.board.put(read) {
                Some(words) => {
                    self.read = Some(words);
                    (
                        Stage::Starts {
                            operators,
                            first,
                            goals,
                            at: 0,
                        },
                        Step::Goes,
                    )
                }
                None => (Stage::Words, Step::Gives(Next::Memory)),
            },
            Err(_) => (Stage::Words, Step::Gives(Next::Memory)),
        }
    }

    /// Starts the goal at the place `at` of these as an engine of its own. Where there is none, the first goal of the command
    /// is to be given, or the script is over. The words were read under these operators.
    fn start_next<W: World<Term = Stored>>(
        &mut self,
        operators: Arc<OpTable>,
        first: Option<Flat>,
        goals: Vec<(u64, Flat)>,
        at: usize,
        world: &mut W,
        atoms: &mut W::A,
    ) -> (Stage, Step)
        requires runs { has_ended (W.told world.old).engine (W.told world.old).history ≡ false }
        ensures moved { (name : Chars) (out : List ℕ)
            → FileMoved (term_by (text_of (W.A.held atoms.new))) name self.old (Starts operators first goals at) (W.told world.old) out
            result.1 self.new result.0 (W.told world.new) out }
        ensures kept { self.new.stage ≡ self.old.stage }
        ensures faults { self.new.faulty ≡ self.old.faulty }
        ensures file { self.new.consult ≡ self.old.consult }
        ensures stage { IsAfter result.1 result.0 }
        ensures runs { has_ended (W.told world.new).engine (W.told world.new).history ≡ false }
        ensures named { All (λ a. IsSome (W.A.held atoms.new a)) (step_names names_of result.1) }
        ensures holds { Holds (W.A.held atoms.old) (W.A.held atoms.new) }
        ensures refusals { W.A.refusals atoms.new ≡ W.A.refusals atoms.old ++ step_refusals result.1 }
        ensures told { IsLater (W.told world.old) (W.told world.new) }
        ensures asked { Gains (MayIntern self.old.consult self.old.words.items (Starts operators first goals at) (W.told world.old))
            (W.A.asked atoms.old) (W.A.asked atoms.new) }
        ensures narrows { Narrows self.old.words.items self.old.consult (Starts operators first goals at) self.new.consult result.0 }
        ensures words { self.new.words.items ≡ self.old.words.items }
        ensures board { self.new.board.now ≡ self.old.board.now }
    {
        if at >= goals.len() {
            return begun(first);
        }
        let (number, goal) = &goals[at];
        let number = *number;
        match start_goal(self.alloc, number, goal, world, atoms) {
            Ok(None) => started(operators, first, goals, at),
            Ok(Some(ball)) => self.refuse(number, ball, operators, first, goals, at),
            Err(next) => (
                Stage::Starts {
                    operators,
                    first,
                    goals,
                    at,
                },
                Step::Gives(next),
            ),
        }
    }

    /// The goal at the place `at` of these, which has this number, is refused with this ball, which is kept.
    fn refuse(
        &mut self,
        number: u64,
        ball: Flat,
        operators: Arc<OpTable>,
        first: Option<Flat>,
        goals: Vec<(u64, Flat)>,
        at: usize,
    ) -> (Stage, Step)
        requires { at < length goals.items }
        ensures moved { (goal : Tree) (name : Chars) (term : Tree → Tree) (t u : Told) (out : List ℕ)
            → IsAt at number goal goals.items
            → StartedSo number goal (Ok (Some ball)) t u
            → FileMoved term name self.old (Starts operators first goals at) t out result.1 self.new result.0 u out }
        ensures kept { self.new.stage ≡ self.old.stage }
        ensures faults { self.new.faulty ≡ self.old.faulty }
        ensures file { self.new.consult ≡ self.old.consult }
        ensures stage { IsAfter result.1 result.0 }
        ensures quiet { IsQuiet result.1 }
        ensures narrows { Narrows self.old.words.items self.old.consult (Starts operators first goals at) self.new.consult result.0 }
        ensures words { self.new.words.items ≡ self.old.words.items }
        ensures board { self.new.board.now ≡ self.old.board.now }
    {
        match self.keep(number, ball, &operators) {
            Ok(()) => started(operators, first, goals, at),
            Err(_) => (
                Stage::Starts {
                    operators,
                    first,
                    goals,
                    at,
                },
                Step::Gives(Next::Memory),
            ),
        }
    }

    /// Keeps the ball with which the goal with this number is refused. The only error is out of memory.
    fn keep(&mut self, number: u64, ball: Flat, operators: &Arc<OpTable>) -> Result<(), Memory>
        ensures refused { OnOk result (HasKept number ball (arc_value operators.now) self.old.refused.items self.new.refused.items) }
        ensures stage { self.new.stage ≡ self.old.stage }
        ensures faults { self.new.faulty ≡ self.old.faulty }
        ensures file { self.new.consult ≡ self.old.consult }
        ensures words { self.new.words.items ≡ self.old.words.items }
        ensures board { self.new.board.now ≡ self.old.board.now }
        ensures read { self.new.read ≡ self.old.read }
    {
        self.refused.push(RefusedGoal {
            number,
            ball,
            operators: operators.clone()?,
        })?;
        Ok(())
    }
}

impl<'a> Script for FileScript<'a> {
    ghost use Rattle.std.specs.Prelude.{[], Some, refl};
    ghost use Rattle.pl_consult.specs.FileScripts.{execution_of, part_in, Plays, is_over};
    ghost use Rattle.pl_consult.specs.ItemTexts.{IsOwnText, IsOwnRequest};
    ghost use Rattle.pl_consult.specs.TextLaws.{running_told, texts_none};
    ghost use Rattle.pl_consult.specs.GoalWords.{names_by, read_of};

    type Term = Stored;

    ghost execution = { λ text s job cs. execution_of s job cs };

    ghost part = { part_in };

    ghost plays = { λ text s x. Plays s x };

    ghost over = { λ s. is_over s.stage };

    ghost kept = { λ s. s.faulty };

    ghost name = { λ s. s.consult.name };

    ghost names = { λ _. [] };

    ghost texts = { λ s c. IsOwnText s.consult s.words.items s.stage c };

    ghost asks = { λ s q. IsOwnRequest s.consult s.words.items s.stage q };

    ghost variables = { λ s. names_by (read_of s.read) };

    ghost word = { λ s. Some (s.board.now, 1) };

    ghost names_tell = { λ s text other same. ((λ job cs. refl), (λ x p. p)) };

    ghost lines = { λ text s job cs. refl };

    ghost running = { λ text s job cs. running_told job s.consult.place s.stage };

    ghost reported = { λ text s job cs. texts_none job s.consult.place s.stage };

    fn variable_names(&self) -> &[(Text, u64)] {
        first_names(words_in(&self.read))
    }

    fn next<W: World<Term = Stored>>(
        &mut self,
        ended: Option<&How<NamedTerm>>,
        world: &mut W,
        atoms: &mut W::A,
        text: &mut Vec<u8>,
        moves: &mut u64,
    ) -> Next<Stored> {
        let stage = mem::replace(&mut self.stage, Stage::Lost);
        if can_step(&stage) {
            return self.go_on(stage, text.len(), world, atoms, text, moves);
        }
        match stage {
            Stage::AtDirective { place } => match to_report(place, ended, moves) {
                Ok(stage) => self.go_on(stage, text.len(), world, atoms, text, moves),
                Err(_) => Next::Memory,
            },
            Stage::AtGoal => match count(moves, 1) {
                Ok(()) => {
                    self.stage = Stage::Over;
                    Next::Done { halted: None }
                }
                Err(_) => Next::Memory,
            },
            _ => Next::Memory,
        }
    }
}

impl<'a> Living for FileScript<'a> {
    /// What it has of the file and of the words has texts of its own, and names no atom.
    fn live_in(&self, _live: &mut AtomSet) -> Result<(), Memory> {
        Ok(())
    }
}

/// The words, if they were read.
fn words_in<'a, 'b>(words: &'b Option<Words<'a>>) -> &'b [GoalWord]
    ensures { result.now ≡ read_of words.now }
{
    match words {
        None => &[],
        Some(words) => words.as_slice(),
    }
}

/// Whether this is out of memory.
fn is_memory(next: &Next<Stored>) -> bool
    ensures { result ≡ is_memory next.now }
{
    match next {
        Next::Memory => true,
        _ => false,
    }
}

/// Whether the text has more bytes than before.
fn has_grown(text: &[u8], before: usize) -> bool
    ensures { result ≡ nat_lt before (length text.now) }
{
    text.len() > before
}

/// Whether one of both holds.
fn either(a: bool, b: bool) -> bool
    ensures { result ≡ (a || b) }
{
    a || b
}
