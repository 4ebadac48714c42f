//! What an engine waits on, by texts in the place of atoms.
ghost use Rattle.std.specs.Prelude.{◌≡◌, Some, IfOk, IsSome};
ghost use Rattle.std.specs.List.{All};
ghost use Rattle.world_api.specs.Answers.{alias_names, named_by, on_by, on_names};
ghost use Rattle.world_api.specs.Texts.{text_of};

use atom_api::{Atom, Atoms, TextBuf};
use pl_model::threads::{Name as TextName, On as TextOn};
use pl_term::{Memory, Text};
use std::alloc::Global;
use world_api::{Name, On};

/// The text of an atom that is held. The only error is out of memory.
pub(crate) fn atom_text<A: Atoms>(alloc: Global, atom: Atom, atoms: &mut A) -> Result<Text, Memory>
    requires { IsSome (A.held atoms.old atom) }
    ensures text { IfOk result (λ t. A.held atoms.old atom ≡ Some t) }
    ensures same { A.held atoms.new ≡ A.held atoms.old }
{
    let mut text = TextBuf::new();
    atoms.text(atom, &mut text);
    text.to_text(alloc)
}

/// The name of a thread or a queue, whose alias is held. The only error is out of memory.
fn text_name<A: Atoms>(alloc: Global, name: Name, atoms: &mut A) -> Result<TextName, Memory>
    requires { All (λ a. IsSome (A.held atoms.old a)) (alias_names name) }
    ensures { IfOk result (λ n. n ≡ named_by (text_of (A.held atoms.old)) name) }
{
    match name {
        Name::Number(number) => Ok(TextName::Number(number)),
        Name::Alias(atom) => {
            let text = atom_text(alloc, atom, atoms)?;
            Ok(TextName::Alias(text))
        }
    }
}

/// What is waited on, whose alias is held. The only error is out of memory.
pub(crate) fn text_on<A: Atoms>(alloc: Global, on: On, atoms: &mut A) -> Result<TextOn, Memory>
    requires { All (λ a. IsSome (A.held atoms.old a)) (on_names on) }
    ensures { IfOk result (λ x. x ≡ on_by (text_of (A.held atoms.old)) on) }
{
    match on {
        On::Queue(name) => {
            let name = text_name(alloc, name, atoms)?;
            Ok(TextOn::Queue(name))
        }
        On::Thread(name) => {
            let name = text_name(alloc, name, atoms)?;
            Ok(TextOn::Thread(name))
        }
    }
}
