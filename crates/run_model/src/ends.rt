//! How a goal and the program end.
ghost use Rattle.std.specs.Prelude.{◌≡◌};
ghost use Rattle.run_model.specs.Ends.{status_of};

use named_terms::NamedTerm;
use pl_model::ends::How;
use pl_model::syntax::SyntaxKind;
use pl_model::threads::On;
use pl_term::Text;

/// How a goal of the command ended.
#[derive(Debug, Drop)]
pub enum GoalHow {
    /// Its engine ended so.
    Ended(How<NamedTerm>),
    /// Its engine waits on this, and nothing wakes it.
    Waits(On),
    /// Its word is no term, by the fault of this kind at this byte.
    Syntax { kind: SyntaxKind, at: u64 },
}

/// The end of one goal of the command: its engine's number and name, and how it ended.
#[derive(Debug, Drop)]
pub struct GoalEnd {
    pub engine: u64,
    pub name: Text,
    pub how: GoalHow,
}

/// How the program ended.
#[derive(Debug, Clone, Copy, PartialEq, Eq, Drop)]
pub enum End {
    /// Nothing else holds.
    Done,
    /// A goal did not end solved, or a fault of the file was kept.
    GoalFailed,
    /// The words are no command.
    Usage,
    /// An engine waits, and nothing wakes it.
    Waiting,
    /// Out of memory.
    Memory,
    /// A read of the file failed.
    ReadFault,
    /// A write of the text failed.
    WriteFault,
    /// An engine ended by halt/1 with this status.
    Halted(u8),
}

/// The exit status of an end.
pub fn status_of(end: End) -> u8
    ensures { result ≡ status_of end }
{
    match end {
        End::Done => 0,
        End::GoalFailed => 1,
        End::Usage => 2,
        End::Waiting => 3,
        End::Memory => 255,
        End::ReadFault => 5,
        End::WriteFault => 6,
        End::Halted(status) => status,
    }
}
