//! The sections of threads.
ghost use Rattle.std.specs.Prelude.{◌≡◌, ◌++◌, IfOk, OnOk, List, [], ℕ, encode_utf8_all};
ghost use Rattle.pl_term.specs.Tree.{Chars};
ghost use Rattle.run_model.specs.Execution.{Execution, Word as WordOf};
ghost use Rattle.run_model.specs.Lawful.{Beginning, Program, Told, beginnings, engine_numbers};
ghost use Rattle.run_model.specs.Report.{Finals, of_thread, output_of, texts, thread_sections};
ghost use Rattle.std.specs.Prelude.{Some};
ghost use Rattle.run_report.specs.Parts.{AreThreads, HasWaited};
ghost use Rattle.run_report.specs.Sections.{AreSections, IsSection};

use crate::hows::goal_ended;
use crate::names::thread_name;
use crate::parts::Part;
use pl_report::{Section, SectionKind};
use pl_term::Memory;
use std::alloc::Global;

/// Puts the sections of these threads. The only error is out of memory.
pub(crate) fn put_threads<'a>(
    alloc: Global,
    sections: &mut Vec<Section<'a>>,
    threads: &'a [Part],
) -> Result<(), Memory>
    ensures { (p : Program) (told : Told) (finals : Finals) (t : Chars)
        → AreThreads p told finals (beginnings told.history) threads.now
        → AreSections sections.old.items t
        → OnOk result (AreSections sections.new.items (t ++ thread_sections p told finals (beginnings told.history))) }
{
    for part in threads {
        let section = thread_section(alloc, part)?;
        sections.push(section)?;
    }
    Ok(())
}

/// The section of a thread. One that wrote nothing and has no last line has no text. The only error is out of memory.
fn thread_section<'a>(alloc: Global, part: &'a Part) -> Result<Section<'a>, Memory>
    ensures { (b : Beginning) (x : Execution)
        → (b.engine ≡ part.now.number) × (b.alias ≡ part.now.alias)
        → HasWaited part.now.end part.now.awaits
        → part.now.output.items ≡ encode_utf8_all (texts [] (output_of x))
        → IfOk result (λ s. IsSection s (of_thread b part.now.end (Some x))) }
{
    let name = thread_name(alloc, part.number, &part.alias)?;
    let how = goal_ended(alloc, &part.end, &part.awaits)?;
    Ok(Section {
        kind: SectionKind::Thread { name },
        text: part.output.as_slice(),
        how,
        ops: &part.operators,
    })
}
