//! What is kept of an engine that is done.
ghost use Rattle.std.specs.Prelude.{◌≡◌, length};
ghost use Rattle.pl_model.specs.History.{History as Entries};
ghost use Rattle.toplevel.specs.Opened.{IsOpened};

use crate::beginning::Scripts;
use crate::front::EngineFront;
use engine_run::Runner;
use pl_model::grammar::Quotes;
use pl_sched::{Command as Naming, Done, DoneParts};
use run_report::Part;

/// An engine that is done: its script, what is written of the file, its front, what is kept for the report, and the flag
/// `double_quotes` of the state in which it stands.
#[derive(Drop)]
pub(crate) struct OpenedEngine<'w> {
    pub script: Scripts<'w>,
    pub text: Vec<u8>,
    pub front: EngineFront,
    pub part: Part,
    pub quotes: Quotes,
}

/// Opens an engine that is done. Its part has no alias yet.
pub(crate) fn open<'w, K: Naming>(done: Done<Runner<Scripts<'w>>, K>) -> OpenedEngine<'w>
    requires { K.goals ≡ length K.program.words }
    ensures opened { (h : Entries) → done.entry.seen ≡ h → IsOpened K.program K.file K.board h result }
    ensures front { result.front.front ≡ done.entry }
{
    let DoneParts {
        engine,
        front,
        number,
        end,
        awaits,
        operators,
        quotes,
    } = done.into_parts();
    let (script, text, output) = engine.into_parts();
    OpenedEngine {
        script,
        text,
        front: EngineFront { number, front },
        part: Part {
            number,
            end,
            awaits,
            alias: None,
            operators,
            output,
        },
        quotes,
    }
}
