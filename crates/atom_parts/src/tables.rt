//! Answers that are lines of tables.
ghost use Rattle.std.specs.Prelude.{◌≡◌, ◌<◌, ◌++◌, get_or, length, IfOk};
ghost use Rattle.std.specs.List.{All, Contains};
ghost use Rattle.world_api.specs.Asked.{texts_in, texts_in_all};
ghost use Rattle.world_api.specs.Gains.{Gains};
ghost use Rattle.world_api.specs.Texts.{Holds as Keeps};
ghost use Rattle.term_store.specs.declared.words.Place.{Place};
ghost use Rattle.builtin_rows.specs.Rows.{refusals_of};
ghost use Rattle.atom_parts.specs.declared.columns.Column.{Column};
ghost use Rattle.atom_parts.specs.Columns.{value_tree, values_of};
ghost use Rattle.atom_parts.specs.Tables.{ArePlaced, IsLined, IsPlaced, IsShort, column_refusals, columns_refusals};

use crate::columns::{Column, Value, Wanted, part};
use atom_api::Atoms;
use builtin_atom::{Made, make_atom, text_from};
use builtin_rows::Row;
use pl_term::Memory;
use std::alloc::Global;
use term_store::Place;

/// What becomes of a column: its term stands at a place, or the predicate is to be called again, as the row says.
#[derive(Drop)]
enum Placed {
    At(Place),
    Refused(Row),
}

/// What becomes of all columns.
#[derive(Drop)]
enum AllPlaced {
    At(Vec<Place>),
    Refused(Row),
}

/// The place for a column: that of the argument, or of what is made where that is a variable. The only error is out of memory.
fn column_place<A: Atoms>(
    alloc: Global,
    text: &[char],
    column: Column,
    argument: Place,
    atoms: &mut A,
) -> Result<Placed, Memory>
    requires { IsShort text.now column }
    ensures placed { IfOk result (IsPlaced (A.held atoms.old) (A.held atoms.new) text.now column argument) }
    ensures holds { Keeps (A.held atoms.old) (A.held atoms.new) }
    ensures refusals { A.refusals atoms.new ≡ A.refusals atoms.old ++ column_refusals result }
    ensures asked { Gains (Contains (texts_in (value_tree text.now column.value))) (A.asked atoms.old) (A.asked atoms.new) }
{
    match column.wanted {
        Wanted::Is(_) => Ok(Placed::At(argument)),
        Wanted::Any(_) => match column.value {
            Value::Number(n) => Ok(Placed::At(Place::integer(n as i64))),
            Value::Part(at, count) => {
                let made = text_from(alloc, part(text, at, count))?;
                let made = make_atom(&made, atoms)?;
                match made {
                    Made::Is(a) => Ok(Placed::At(Place::atom(a))),
                    Made::Refused(row) => Ok(Placed::Refused(row)),
                }
            }
        },
    }
}

/// The column with this number.
fn column_at(columns: &[Column], i: usize) -> Column
    requires { i < length columns.now }
    ensures { (d : Column) → get_or columns.now i d ≡ result }
{
    columns[i]
}

/// The place with this number.
fn place_at(places: &[Place], i: usize) -> Place
    requires { i < length places.now }
    ensures { (d : Place) → get_or places.now i d ≡ result }
{
    places[i]
}

/// The places for all columns, up to the first that is refused. The only error is out of memory.
fn column_places<A: Atoms>(
    alloc: Global,
    text: &[char],
    columns: &[Column],
    arguments: &[Place],
    atoms: &mut A,
) -> Result<AllPlaced, Memory>
    requires short { All (IsShort text.now) columns.now }
    requires many { length arguments.now ≡ length columns.now }
    ensures placed { IfOk result (ArePlaced (A.held atoms.old) (A.held atoms.new) text.now columns.now arguments.now) }
    ensures holds { Keeps (A.held atoms.old) (A.held atoms.new) }
    ensures refusals { A.refusals atoms.new ≡ A.refusals atoms.old ++ columns_refusals result }
    ensures asked { Gains (Contains (texts_in_all (values_of text.now columns.now))) (A.asked atoms.old) (A.asked atoms.new) }
{
    let mut places = Vec::new(alloc);
    for i in 0..columns.len() {
        let column = column_at(columns, i);
        let argument = place_at(arguments, i);
        let next = column_place(alloc, text, column, argument, atoms)?;
        match next {
            Placed::At(place) => places.push(place)?,
            Placed::Refused(row) => return Ok(AllPlaced::Refused(row)),
        }
    }
    Ok(AllPlaced::At(places))
}

/// The row of a line with these columns, after which that line follows. The only error is out of memory.
pub fn line_row<A: Atoms>(
    alloc: Global,
    text: &[char],
    columns: &[Column],
    arguments: &[Place],
    following: Option<usize>,
    atoms: &mut A,
) -> Result<Row, Memory>
    requires short { All (IsShort text.now) columns.now }
    requires many { length arguments.now ≡ length columns.now }
    ensures lined { IfOk result (IsLined (A.held atoms.old) (A.held atoms.new) text.now columns.now arguments.now following) }
    ensures holds { Keeps (A.held atoms.old) (A.held atoms.new) }
    ensures refusals { A.refusals atoms.new ≡ A.refusals atoms.old ++ refusals_of result }
    ensures asked { Gains (Contains (texts_in_all (values_of text.now columns.now))) (A.asked atoms.old) (A.asked atoms.new) }
{
    let listed = column_places(alloc, text, columns, arguments, atoms)?;
    match listed {
        AllPlaced::Refused(row) => Ok(row),
        AllPlaced::At(places) => Ok(Row::Line { places, following }),
    }
}
