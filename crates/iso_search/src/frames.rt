//! What is still to be done, as lists that share their ends.
ghost use Rattle.std.specs.Prelude.{◌≡◌, ◌≤◌, ◌<◌, ℕ, ◌∷◌, [], ◌++◌, length, take, IfOk, OnOk, OnErr, MatchOption};
ghost use Rattle.iso_search.specs.Frames.{AreLinked, tasks};

use pl_term::Memory;
use term_store::Place;

/// What is still to be done at a node of the search. A height is a number of choice points, from the oldest one on.
#[derive(Clone, Copy, Debug, Drop)]
pub enum Task {
    /// A goal is to be run. A cut in it goes back to the height.
    Goal(Place, usize),
    /// A condition, or the goal of `once/1`, has succeeded: its choice points go.
    Commit(usize),
    /// The goal of `\+` has succeeded: its choice points go, and `\+` fails.
    Refute(usize),
    /// The goal of the `catch/3` whose choice point stands at the height has succeeded.
    Leave(usize),
    /// The goal of the `findall/3` whose choice point stands at the height has succeeded: the term is to be copied.
    Collect(Place, usize),
}

/// The first task of a list, and the list of the others. A list is a number: 0 is the empty one, and `k + 1` begins
/// with the frame at place `k`.
#[derive(Clone, Copy, Debug, Drop)]
pub struct Frame {
    pub task: Task,
    pub continuation: usize,
}

/// The list with this task in front. The only error is out of memory.
#[inline(always)]
pub fn push_task(frames: &mut Vec<Frame>, task: Task, next: usize) -> Result<usize, Memory>
    requires linked { AreLinked frames.old.items }
    requires next { next ≤ length frames.old.items }
    ensures linked { AreLinked frames.new.items }
    ensures list { IfOk result (λ k. (tasks frames.new.items k ≡ task ∷ tasks frames.old.items next) × (k ≤ length frames.new.items)) }
    ensures others { (j : ℕ) → j ≤ length frames.old.items → tasks frames.new.items j ≡ tasks frames.old.items j }
    ensures longer { OnOk result (frames.new.items ≡ frames.old.items ++ record { task = task; continuation = next } ∷ []) }
    ensures kept { OnErr result (frames.new.items ≡ frames.old.items) }
{
    put_behind(
        frames,
        Frame {
            task,
            continuation: next,
        },
    )?;
    Ok(frames.len())
}

/// Puts a frame behind the others. The only error is out of memory.
#[inline(always)]
fn put_behind(frames: &mut Vec<Frame>, frame: Frame) -> Result<(), Memory>
    ensures longer { OnOk result (frames.new.items ≡ frames.old.items ++ frame ∷ []) }
    ensures kept { OnErr result (frames.new.items ≡ frames.old.items) }
{
    if frames.len() < frames.capacity() {
        frames.push_reserved(frame);
        Ok(())
    } else {
        make_room(frames, frame)
    }
}

/// Does the same, where more room is to be made for it.
#[cold]
#[inline(never)]
fn make_room(frames: &mut Vec<Frame>, frame: Frame) -> Result<(), Memory>
    ensures longer { OnOk result (frames.new.items ≡ frames.old.items ++ frame ∷ []) }
    ensures kept { OnErr result (frames.new.items ≡ frames.old.items) }
{
    frames.push(frame)?;
    Ok(())
}

/// Puts a frame in the place of all frames from a number on, of which there is one.
#[inline(always)]
pub fn put_frame(frames: &mut Vec<Frame>, keep: usize, frame: Frame)
    requires { keep < length frames.old.items }
    ensures { frames.new.items ≡ take keep frames.old.items ++ frame ∷ [] }
{
    let _count = frames.len();
    frames[keep] = frame;
    frames.truncate(keep + 1);
}

/// The first task of the list, with the list of the others. A goal is read by its parts: where a call has just written them, a copy
/// of the frame as a whole would wait for all of them.
#[inline(always)]
pub fn first_task(frames: &[Frame], list: usize) -> Option<Frame>
    requires { AreLinked frames.now }
    ensures { MatchOption result (tasks frames.now list ≡ []) (λ f. (tasks frames.now list ≡ f.task ∷ tasks frames.now f.continuation) × ((f.continuation ≤ length frames.now) × (f.continuation < list))) }
{
    if list == 0 {
        return None;
    }
    if list > frames.len() {
        return None;
    }
    let continuation = frames[list - 1].continuation;
    match &frames[list - 1].task {
        Task::Goal(goal, cut) => Some(Frame {
            task: Task::Goal(*goal, *cut),
            continuation,
        }),
        other => Some(Frame {
            task: *other,
            continuation,
        }),
    }
}
