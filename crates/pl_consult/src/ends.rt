//! How directives have ended, as it is kept until it is reported.
ghost use Rattle.std.specs.Prelude.{◌≡◌, ◌+◌, IfOk, IsSome, OnOk, Some};
ghost use Rattle.std.specs.Option.{option_map};
ghost use Rattle.pl_consult.specs.declared.stage.Stage.TheVariants.{Report};
ghost use Rattle.pl_consult.specs.FileScripts.{IsReport};

use crate::counts::count;
use crate::stage::Stage;
use named_terms::NamedTerm;
use pl_model::ends::How;
use pl_term::Memory;

/// The stage at which it is to be reported how the directive at this byte has ended, to which a move leads. The only error
/// is out of memory.
pub(crate) fn to_report(
    place: usize,
    ended: Option<&How<NamedTerm>>,
    moves: &mut u64,
) -> Result<Stage, Memory>
    requires { IsSome (option_map (λ b. b.now) ended) }
    ensures report { IfOk result (IsReport place (option_map (λ b. b.now) ended.entry)) }
    ensures counted { OnOk result (1 + moves.old ≡ moves.new) }
{
    count(moves, 1)?;
    match ended {
        Some(how) => Ok(Stage::Report {
            place,
            how: shared(how)?,
        }),
        None => unreachable!(),
    }
}

/// The same end for another holder. The only error is out of memory.
fn shared(how: &How<NamedTerm>) -> Result<How<NamedTerm>, Memory>
    ensures { IfOk result (λ h. h ≡ how.now) }
{
    match how {
        How::Solved => Ok(How::Solved),
        How::False => Ok(How::False),
        How::Threw(ball) => Ok(How::Threw(ball.share()?)),
        How::Exited(term) => Ok(How::Exited(term.share()?)),
        How::Halted(status) => Ok(How::Halted(*status)),
        How::AtomSpace(record) => Ok(How::AtomSpace(*record)),
    }
}
