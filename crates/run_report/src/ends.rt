//! How the program ends.
ghost use Rattle.std.specs.Prelude.{◌≡◌, ◌++◌, ◌&&◌, ◌||◌, not};
ghost use Rattle.run_model.specs.Ends.{all_solved, end_by, halt_by, has_no_end, is_solved, is_solved_how, lacks_atoms, or_else};
ghost use Rattle.run_report.specs.Parts.{halted_in, lacks_in, waits_in};

use crate::parts::Part;
use named_terms::NamedTerm;
use pl_model::ends::How;
use run_model::ends::{End, GoalEnd, GoalHow};

/// How the program ends whose engines and threads these are, whose goals ended so; `faulty` says whether a fault of the file
/// was kept.
pub(crate) fn end_of(engines: &[Part], threads: &[Part], ends: &[GoalEnd], faulty: bool) -> End
    ensures { result ≡ end_by (or_else (halted_in engines.now) (halted_in threads.now)) (waits_in engines.now || waits_in threads.now)
        (all_solved ends.now && (not (lacks_in engines.now || lacks_in threads.now) && not faulty)) }
{
    let waits = either(some_waits(engines), some_waits(threads));
    let lacks = either(some_lacks(engines), some_lacks(threads));
    let done = all_done(all_solved(ends), lacks, faulty);
    end_by(first_halt(engines, threads), waits, done)
}

/// The status of the first of these that has halted.
fn first_halt(engines: &[Part], threads: &[Part]) -> Option<u8>
    ensures { result ≡ or_else (halted_in engines.now) (halted_in threads.now) }
{
    match halted_in(engines) {
        Some(status) => Some(status),
        None => halted_in(threads),
    }
}

fn halted_in(parts: &[Part]) -> Option<u8>
    ensures { result ≡ halted_in parts.now }
{
    for part in parts {
        if let Some(status) = halt_by(&part.end) {
            return Some(status);
        }
    }
    None
}

/// The status of halt/1, where an engine has ended so.
fn halt_by(end: &Option<How<NamedTerm>>) -> Option<u8>
    ensures { result ≡ halt_by end.now }
{
    match end {
        Some(How::Halted(status)) => Some(*status),
        _ => None,
    }
}

/// Whether one of these waits.
fn some_waits(parts: &[Part]) -> bool
    ensures { result ≡ waits_in parts.now }
{
    for part in parts {
        if part.end.is_none() {
            return true;
        }
    }
    false
}

/// Whether one of these found no place for an atom.
fn some_lacks(parts: &[Part]) -> bool
    ensures { result ≡ lacks_in parts.now }
{
    for part in parts {
        if lacks_atoms(&part.end) {
            return true;
        }
    }
    false
}

fn lacks_atoms(end: &Option<How<NamedTerm>>) -> bool
    ensures { result ≡ lacks_atoms end.now }
{
    match end {
        Some(How::AtomSpace(_)) => true,
        _ => false,
    }
}

/// Whether each goal is solved.
fn all_solved(ends: &[GoalEnd]) -> bool
    ensures { result ≡ all_solved ends.now }
{
    for end in ends {
        if !is_solved(&end.how) {
            return false;
        }
    }
    true
}

fn is_solved(how: &GoalHow) -> bool
    ensures { result ≡ is_solved how.now }
{
    match how {
        GoalHow::Ended(how) => is_solved_how(how),
        GoalHow::Waits(_) => false,
        GoalHow::Syntax { .. } => false,
    }
}

fn is_solved_how(how: &How<NamedTerm>) -> bool
    ensures { result ≡ is_solved_how how.now }
{
    match how {
        How::Solved => true,
        How::False => false,
        How::Threw(_) => false,
        How::Exited(_) => false,
        How::Halted(_) => false,
        How::AtomSpace(_) => false,
    }
}

/// Whether one of both holds.
fn either(a: bool, b: bool) -> bool
    ensures { result ≡ (a || b) }
{
    a || b
}

/// Whether each goal is solved, no engine lacked a place for an atom, and no fault of the file was kept.
fn all_done(solved: bool, lacks: bool, faulty: bool) -> bool
    ensures { result ≡ (solved && (not lacks && not faulty)) }
{
    solved && (!lacks && !faulty)
}

/// The first that holds: an engine has halted, an engine waits, all is done or not.
fn end_by(halt: Option<u8>, waits: bool, done: bool) -> End
    ensures { result ≡ end_by halt waits done }
{
    match halt {
        Some(status) => End::Halted(status),
        None => {
            if waits {
                return End::Waiting;
            }
            if done {
                return End::Done;
            }
            End::GoalFailed
        }
    }
}
