//! Texts that are lists (ISO 6.3.7): the nodes of the list of a text's characters or of their codes.
ghost use Rattle.std.specs.Prelude.{◌≡◌, ◌∷◌, ◌++◌, [], pos, IfOk};
ghost use Rattle.pl_term.specs.Nodes.{nodes};
ghost use Rattle.pl_model.specs.TermGrammar.{codes_of, characters_of};

use pl_term::{Memory, Node, Text};
use std::alloc::Global;
use std::convert::AsStr;

/// The nodes of the list of the codes of a text. The only error is out of memory.
pub fn codes(alloc: Global, text: &Text) -> Result<Vec<Node>, Memory>
    ensures { IfOk result (λ ns. ns.items ≡ nodes (codes_of text.now)) }
{
    let mut all = Vec::new(alloc);
    for c in text.as_str().chars() {
        all.push(cell(alloc)?)?;
        all.push(Node::Int(i64::from(u32::from(c))))?;
    }
    all.push(Node::Atom(Text::from_str(alloc, "[]")?))?;
    Ok(all)
}

/// The nodes of the list of the characters of a text. The only error is out of memory.
pub fn characters(alloc: Global, text: &Text) -> Result<Vec<Node>, Memory>
    ensures { IfOk result (λ ns. ns.items ≡ nodes (characters_of text.now)) }
{
    let mut all = Vec::new(alloc);
    for c in text.as_str().chars() {
        all.push(cell(alloc)?)?;
        all.push(Node::Atom(one_character(alloc, c)?))?;
    }
    all.push(Node::Atom(Text::from_str(alloc, "[]")?))?;
    Ok(all)
}

/// The node of a list cell. The only error is out of memory.
#[tactic(auto, using(crate::proofs::NameTexts::reader_texts))]
pub fn cell(alloc: Global) -> Result<Node, Memory>
    ensures { IfOk result (λ n. n ≡ Node.Comp (46 ∷ []) 2) }
{
    Ok(Node::Comp(Text::from_str(alloc, ".")?, 2))
}

/// The text of one character. The only error is out of memory.
fn one_character(alloc: Global, c: char) -> Result<Text, Memory>
    ensures { IfOk result (λ t. t ≡ c ∷ []) }
{
    let mut s = String::new(alloc);
    s.push(c)?;
    Text::from_str(alloc, s.as_str())
}
