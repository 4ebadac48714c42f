//! The names of the kinds of syntax faults.
ghost use Rattle.std.specs.Prelude.{◌≡◌, OnOk, IsTrue};
ghost use Rattle.std.specs.Char.{is_ascii};
ghost use Rattle.std.specs.List.{list_all};
ghost use Rattle.run_model.specs.Report.{kind_text};
ghost use Rattle.pl_report.specs.Adds.{Adds};

use crate::lines::put_words;
use pl_model::syntax::SyntaxKind;
use pl_term::Memory;

/// Puts the name of this kind of fault.
pub fn put_kind(out: &mut Vec<u8>, kind: SyntaxKind) -> Result<(), Memory>
    ensures { OnOk result (Adds out.old.items out.new.items (kind_text kind)) }
{
    put_words(out, kind_words(kind))
}

fn kind_words(kind: SyntaxKind) -> &'static str
    ensures words { result.now ≡ kind_text kind }
    ensures ascii { IsTrue (list_all is_ascii result.now) }
{
    match kind {
        SyntaxKind::BadUtf8 => "bad_utf8",
        SyntaxKind::BadEscape => "bad_escape",
        SyntaxKind::OpenQuote => "open_quote",
        SyntaxKind::OpenComment => "open_comment",
        SyntaxKind::IntegerTooLarge => "integer_too_large",
        SyntaxKind::FloatNumeral => "float_numeral",
        SyntaxKind::LoneCharacter => "lone_character",
        SyntaxKind::UnexpectedToken => "unexpected_token",
        SyntaxKind::PriorityClash => "priority_clash",
        SyntaxKind::UnexpectedEnd => "unexpected_end",
        SyntaxKind::AtomTooLong => "atom_too_long",
        SyntaxKind::AfterEnd => "after_end",
    }
}
