//! Lists of the characters of a text, or of their codes, which are made (ISO 7.1.2.2, 7.1.4.1).
ghost use Rattle.std.specs.Prelude.{◌≡◌, ◌∷◌, ◌++◌, ◌*◌, [], length, map, IfOk};
ghost use Rattle.std.specs.List.{Contains};
ghost use Rattle.pl_term.specs.Tree.{Chars, Trees};
ghost use Rattle.pl_model.specs.History.{Proc};
ghost use Rattle.pl_model.specs.Terms.{list_term};
ghost use Rattle.pl_model.specs.TermBuiltins.{makes, two};
ghost use Rattle.term_store.specs.Contents.{Holds};
ghost use Rattle.world_api.specs.Gains.{Gains};
ghost use Rattle.world_api.specs.Texts.{Holds as Keeps};
ghost use Rattle.world_builtins.specs.Naming.{IsHeldAt};
ghost use Rattle.world_builtins.specs.Spelling.{reads};
ghost use Rattle.builtin_rows.specs.Rows.{IsSingle, refusals_of};
ghost use Rattle.builtin_atom.specs.Answering.{AsksFor, IsRowOf};
ghost use Rattle.builtin_atom.specs.Forms.{to_by};
ghost use Rattle.builtin_atom.specs.Listed.{AreListed, IsElement, element_refusals, element_texts, listed_refusals};

use crate::answers::take_cells;
use crate::codes::code_of;
use crate::forms::Form;
use crate::making::{Made, make_atom};
use crate::texts::one_character;
use atom_api::Atoms;
use builtin_rows::{Places, Row, make_list};
use pl_term::Memory;
use std::alloc::Global;
use term_store::{Place, Store};

/// What becomes of an element that is to be made: it stands at a place, or the predicate is to be called again, as the row says.
#[derive(Drop)]
pub enum Element {
    At(Place),
    Refused(Row),
}

/// What becomes of the elements of a list.
#[derive(Drop)]
pub enum Listed {
    At(Vec<Place>),
    Refused(Row),
}

/// The element for a character. The only error is out of memory.
fn make_element<A: Atoms>(
    form: Form,
    alloc: Global,
    c: char,
    atoms: &mut A,
) -> Result<Element, Memory>
    ensures element { IfOk result (IsElement form (A.held atoms.new) c) }
    ensures holds { Keeps (A.held atoms.old) (A.held atoms.new) }
    ensures refusals { A.refusals atoms.new ≡ A.refusals atoms.old ++ element_refusals result }
    ensures asked { Gains (Contains (element_texts form (c ∷ []))) (A.asked atoms.old) (A.asked atoms.new) }
{
    match form {
        Form::Codes => Ok(Element::At(code_of(c))),
        Form::Characters => {
            let text = one_character(alloc, c)?;
            let made = make_atom(&text, atoms)?;
            match made {
                Made::Is(a) => Ok(Element::At(Place::atom(a))),
                Made::Refused(row) => Ok(Element::Refused(row)),
            }
        }
    }
}

/// The elements for these characters, up to the first that is refused. The only error is out of memory.
fn make_elements<A: Atoms>(
    form: Form,
    alloc: Global,
    text: &[char],
    atoms: &mut A,
) -> Result<Listed, Memory>
    ensures listed { IfOk result (AreListed form (A.held atoms.new) text.now) }
    ensures holds { Keeps (A.held atoms.old) (A.held atoms.new) }
    ensures refusals { A.refusals atoms.new ≡ A.refusals atoms.old ++ listed_refusals result }
    ensures asked { Gains (Contains (element_texts form text.now)) (A.asked atoms.old) (A.asked atoms.new) }
{
    let mut places = Vec::new(alloc);
    for c in text {
        let next = make_element(form, alloc, *c, atoms)?;
        match next {
            Element::At(place) => places.push(place)?,
            Element::Refused(row) => return Ok(Listed::Refused(row)),
        }
    }
    Ok(Listed::At(places))
}

/// The answer with the term at a place and the list of these characters, which is made. Its cells are taken first. The only error
/// is out of memory.
pub fn answer_list<A: Atoms>(
    form: Form,
    alloc: Global,
    store: &mut Store,
    first: Place,
    text: &[char],
    atoms: &mut A,
) -> Result<Row, Memory>
    requires inside { Holds store.old first }
    requires held { IsHeldAt (A.held atoms.old) store.old first }
    ensures row { IfOk result (λ r. (p : Proc) (ts : Trees) → IsRowOf store.old p ts
        (makes (two (reads (A.held atoms.old) store.old first) (list_term (map (to_by form) text.now))) (3 * length text.now)) (A.held atoms.new) store.new r) }
    ensures holds { Keeps (A.held atoms.old) (A.held atoms.new) }
    ensures refusals { A.refusals atoms.new ≡ A.refusals atoms.old ++ refusals_of result }
    ensures single { IfOk result IsSingle }
    ensures asked { (p : Proc) (ts : Trees) → AsksFor store.old p ts
        (makes (two (reads (A.held atoms.old) store.old first) (list_term (map (to_by form) text.now))) (3 * length text.now)) (A.asked atoms.old) (A.asked atoms.new) }
{
    let Some(made) = (text.len() as u64).checked_mul(3) else {
        return Err(Memory);
    };
    let mark = store.mark();
    match take_cells(store, made) {
        Some(row) => Ok(row),
        None => {
            let listed = make_elements(form, alloc, text, atoms)?;
            match listed {
                Listed::Refused(row) => {
                    store.undo_to(mark);
                    Ok(row)
                }
                Listed::At(places) => {
                    let list = make_list(store, &places)?;
                    Ok(Row::Answer {
                        places: Places::Two(first, list),
                        fresh: 0,
                    })
                }
            }
        }
    }
}
