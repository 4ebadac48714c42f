//! The atoms that a search has in use.
ghost use Rattle.std.specs.Prelude.{ℕ, List, [], ◌∷◌, ◌++◌, OnOk, flat_map};
ghost use Rattle.term_store.specs.Live.{Gathers, place_atoms};
ghost use Rattle.term_store.specs.NumberedNames.{atoms_in};
ghost use Rattle.iso_search.specs.Live.{AgreeOn, IsLeast, ReadsAlike, alternative_atoms, constant_atoms, generations_of, line_atoms, open_generations, search_atoms, task_atoms};
ghost use Rattle.iso_search.specs.Reading.{View};

use crate::choices::{Alternative, ChoicePoint};
use crate::copies::Copied;
use crate::frames::{Frame, Task};
use crate::search::Search;
use crate::told::{Constant, Line};
use atom_api::Atom;
use pl_term::Memory;
use term_store::{AtomSet, Place};

impl Search {
    /// Puts the atoms that the search names to those of a set: those of the cells of its store, of the goal's variables, of
    /// what is to be done, and of its choice points with the lines and copies that they keep. What the search stands for depends
    /// on their texts alone. The only error is out of memory.
    pub fn live_in(&self, live: &mut AtomSet) -> Result<(), Memory>
        ensures gathers { OnOk result (Gathers (search_atoms self.now) live.old live.new) }
        ensures read { (v w : View) → AgreeOn v w (search_atoms self.now) → ReadsAlike v w self.now }
    {
        self.store.live_in(live)?;
        list_places(&self.answer, live)?;
        list_frames(&self.frames, live)?;
        list_choices(&self.choices, live)?;
        Ok(())
    }

    /// The oldest of the generations of its choice points that have clauses left, or none.
    pub fn oldest_open(&self) -> Option<u64>
        ensures { IsLeast result (open_generations self.now) }
    {
        let mut oldest = None;
        for choice in &self.choices {
            oldest = older(oldest, generation_of(&choice.alternative));
        }
        oldest
    }
}

/// The older one of the oldest generations of two lists.
pub fn older(first: Option<u64>, second: Option<u64>) -> Option<u64>
    ensures { (gs hs : List ℕ) → IsLeast first gs → IsLeast second hs → IsLeast result (gs ++ hs) }
{
    let Some(g) = first else {
        return second;
    };
    let Some(h) = second else {
        return first;
    };
    Some(g.min(h))
}

/// The generation of which clauses are left to be tried, if any are.
fn generation_of(alternative: &Alternative) -> Option<u64>
    ensures { IsLeast result (generations_of alternative.now) }
{
    match alternative {
        Alternative::Clauses { generation, .. } => Some(*generation),
        _ => None,
    }
}

/// Puts the atoms that stand at places to those of a set. The only error is out of memory.
fn list_places(places: &[Place], live: &mut AtomSet) -> Result<(), Memory>
    ensures { OnOk result (Gathers (flat_map place_atoms places.now) live.old live.new) }
{
    for place in places {
        place.live_in(live)?;
    }
    Ok(())
}

/// Puts the atoms that frames name to those of a set. The only error is out of memory.
fn list_frames(frames: &[Frame], live: &mut AtomSet) -> Result<(), Memory>
    ensures { OnOk result (Gathers (flat_map (λ f. task_atoms f.task) frames.now) live.old live.new) }
{
    for frame in frames {
        list_task(frame.task, live)?;
    }
    Ok(())
}

/// Puts the atom that a task names to those of a set, if it names one. The only error is out of memory.
fn list_task(task: Task, live: &mut AtomSet) -> Result<(), Memory>
    ensures { OnOk result (Gathers (task_atoms task) live.old live.new) }
{
    match task {
        Task::Goal(goal, _) => goal.live_in(live),
        Task::Collect(template, _) => template.live_in(live),
        Task::Commit(_) => Ok(()),
        Task::Refute(_) => Ok(()),
        Task::Leave(_) => Ok(()),
    }
}

/// Puts the atoms that choice points name to those of a set. The only error is out of memory.
fn list_choices(choices: &[ChoicePoint], live: &mut AtomSet) -> Result<(), Memory>
    ensures { OnOk result (Gathers (flat_map (λ k. alternative_atoms k.alternative) choices.now) live.old live.new) }
{
    for choice in choices {
        list_alternative(&choice.alternative, live)?;
    }
    Ok(())
}

/// Puts the atoms of what was not tried to those of a set. The only error is out of memory.
fn list_alternative(alternative: &Alternative, live: &mut AtomSet) -> Result<(), Memory>
    ensures { OnOk result (Gathers (alternative_atoms alternative.now) live.old live.new) }
{
    match alternative {
        Alternative::Clauses { goal, .. } => goal.live_in(live),
        Alternative::Answers { goal, .. } => goal.live_in(live),
        Alternative::Told { goal, lines, .. } => list_told(*goal, lines, live),
        Alternative::Branch => Ok(()),
        Alternative::Barrier => Ok(()),
        Alternative::Catch { catcher, recovery } => list_both(*catcher, *recovery, live),
        Alternative::Findall { list, found } => list_found(*list, &found.copies, live),
    }
}

/// Puts the atoms that stand at two places to those of a set. The only error is out of memory.
fn list_both(first: Place, second: Place, live: &mut AtomSet) -> Result<(), Memory>
    ensures { OnOk result (Gathers (place_atoms first ++ place_atoms second) live.old live.new) }
{
    first.live_in(live)?;
    second.live_in(live)?;
    Ok(())
}

/// Puts the atoms of a goal's place and of lines to those of a set. The only error is out of memory.
fn list_told(goal: Place, lines: &[Line], live: &mut AtomSet) -> Result<(), Memory>
    ensures { OnOk result (Gathers (place_atoms goal ++ flat_map line_atoms lines.now) live.old live.new) }
{
    goal.live_in(live)?;
    list_lines(lines, live)?;
    Ok(())
}

/// Puts the atoms of a place and of copies to those of a set. The only error is out of memory.
fn list_found(list: Place, copies: &[Copied], live: &mut AtomSet) -> Result<(), Memory>
    ensures { OnOk result (Gathers (place_atoms list ++ flat_map (λ c. atoms_in c.term) copies.now) live.old live.new) }
{
    list.live_in(live)?;
    list_copies(copies, live)?;
    Ok(())
}

/// Puts the atoms of lines to those of a set. The only error is out of memory.
fn list_lines(lines: &[Line], live: &mut AtomSet) -> Result<(), Memory>
    ensures { OnOk result (Gathers (flat_map line_atoms lines.now) live.old live.new) }
{
    for line in lines {
        list_line(*line, live)?;
    }
    Ok(())
}

/// Puts the atoms of a line to those of a set. The only error is out of memory.
fn list_line(line: Line, live: &mut AtomSet) -> Result<(), Memory>
    ensures { OnOk result (Gathers (line_atoms line) live.old live.new) }
{
    match line {
        Line::Indicator(name, _) => live.insert(name),
        Line::Flag(flag, value) => list_flag(flag, value, live),
        Line::Operator(_, specifier, name) => insert_both(specifier, name, live),
    }
}

/// Puts the name of a flag, and its value if that is an atom, to those of a set. The only error is out of memory.
fn list_flag(flag: Atom, value: Constant, live: &mut AtomSet) -> Result<(), Memory>
    ensures { OnOk result (Gathers (flag ∷ constant_atoms value) live.old live.new) }
{
    live.insert(flag)?;
    list_constant(value, live)?;
    Ok(())
}

/// Puts two atoms to those of a set. The only error is out of memory.
fn insert_both(first: Atom, second: Atom, live: &mut AtomSet) -> Result<(), Memory>
    ensures { OnOk result (Gathers (first ∷ second ∷ []) live.old live.new) }
{
    live.insert(first)?;
    live.insert(second)?;
    Ok(())
}

/// Puts an atom to those of a set, if the constant is one. The only error is out of memory.
fn list_constant(constant: Constant, live: &mut AtomSet) -> Result<(), Memory>
    ensures { OnOk result (Gathers (constant_atoms constant) live.old live.new) }
{
    match constant {
        Constant::Int(_) => Ok(()),
        Constant::Atom(a) => live.insert(a),
    }
}

/// Puts the atoms of copies to those of a set. The only error is out of memory.
fn list_copies(copies: &[Copied], live: &mut AtomSet) -> Result<(), Memory>
    ensures { OnOk result (Gathers (flat_map (λ c. atoms_in c.term) copies.now) live.old live.new) }
{
    for copy in copies {
        copy.term.live_in(live)?;
    }
    Ok(())
}
