//! Lines of tables, column by column: what an argument of the predicate wants of a line, and what stands there.
ghost use Rattle.std.specs.Prelude.{◌≡◌, ◌≢◌, ◌↔◌, IsTrue, MatchBool, drop, take};
ghost use Rattle.atom_parts.specs.Columns.{Differs, Meets, does_unify, value_tree};

/// What stands in a line: a number, or so many characters of a text from a place on.
#[derive(Clone, Copy, Drop)]
pub enum Value {
    Number(usize),
    Part(usize, usize),
}

/// What an argument wants: anything, as the variable with this number, or this value.
#[derive(Clone, Copy, Drop)]
pub enum Wanted {
    Any(u64),
    Is(Value),
}

/// A column of a line: what the argument wants, and what stands there.
#[derive(Clone, Copy, Drop)]
pub struct Column {
    pub wanted: Wanted,
    pub value: Value,
}

/// So many characters from a place on, or as many as there are.
pub fn part(text: &[char], at: usize, count: usize) -> &[char]
    ensures { result.now ≡ take count (drop at text.now) }
{
    front(behind(text, at), count)
}

/// The characters from a place on.
fn behind(text: &[char], at: usize) -> &[char]
    ensures { result.now ≡ drop at text.now }
{
    if at >= text.len() {
        return &text[text.len()..];
    }
    &text[at..]
}

/// The first so many characters, or all where there are fewer.
fn front(text: &[char], count: usize) -> &[char]
    ensures { result.now ≡ take count text.now }
{
    if count >= text.len() {
        return text;
    }
    &text[..count]
}

/// Whether both are the same characters.
fn is_same(left: &[char], right: &[char]) -> bool
    ensures { IsTrue result ↔ (left.now ≡ right.now) }
{
    left == right
}

/// Whether two values, of one text, are the same.
fn is_equal(text: &[char], left: Value, right: Value) -> bool
    ensures { IsTrue result ↔ (value_tree text.now left ≡ value_tree text.now right) }
{
    match left {
        Value::Number(n) => match right {
            Value::Number(m) => n == m,
            Value::Part(_, _) => false,
        },
        Value::Part(at, count) => match right {
            Value::Number(_) => false,
            Value::Part(from, more) => {
                at == from && count == more
                    || is_same(part(text, at, count), part(text, from, more))
            }
        },
    }
}

/// Whether a value is what the earlier columns have for the same variable.
fn agrees(text: &[char], earlier: &[Column], variable: u64, value: Value) -> bool
    ensures { MatchBool result (Meets text.now earlier.now (record { wanted = Wanted.Any variable; value = value }))
        (Differs text.now earlier.now (record { wanted = Wanted.Any variable; value = value })) }
{
    for column in earlier {
        if !allows(text, *column, variable, value) {
            return false;
        }
    }
    true
}

/// Whether a column wants something else than this variable, or has this value.
fn allows(text: &[char], column: Column, variable: u64, value: Value) -> bool
    ensures { MatchBool result (column.wanted ≡ Wanted.Any variable → value_tree text.now column.value ≡ value_tree text.now value)
        ((column.wanted ≡ Wanted.Any variable) × (value_tree text.now column.value ≢ value_tree text.now value)) }
{
    match column.wanted {
        Wanted::Any(x) => x != variable || is_equal(text, column.value, value),
        Wanted::Is(_) => true,
    }
}

/// Whether a column has what is wanted there, after these.
fn fits(text: &[char], earlier: &[Column], column: Column) -> bool
    ensures { MatchBool result (Meets text.now earlier.now column) (Differs text.now earlier.now column) }
{
    match column.wanted {
        Wanted::Any(x) => agrees(text, earlier, x, column.value),
        Wanted::Is(value) => is_equal(text, value, column.value),
    }
}

/// Whether the line unifies with what is wanted.
pub fn unifies(text: &[char], columns: &[Column]) -> bool
    ensures { result ≡ does_unify text.now columns.now }
{
    for i in 0..columns.len() {
        if !fits(text, &columns[..i], columns[i]) {
            return false;
        }
    }
    true
}
