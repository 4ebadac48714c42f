//! The operators at the start.
ghost use Rattle.std.specs.Prelude.{◌≡◌, IfOk};
ghost use Rattle.op_table.specs.Entries.{entries_of};
ghost use Rattle.op_table.specs.Rows.{row_entries};

use crate::operator::Operator;
use pl_model::operators::Kind;
use pl_term::{Memory, Text};
use std::alloc::Global;

/// The operators at the start, in the order of the table.
pub const OPENING: [(&str, u16, Kind); 45] = [
    ("*", 400, Kind::Yfx),
    ("**", 200, Kind::Xfx),
    ("+", 500, Kind::Yfx),
    (",", 1000, Kind::Xfy),
    ("-", 200, Kind::Fy),
    ("-", 500, Kind::Yfx),
    ("-->", 1200, Kind::Xfx),
    ("->", 1050, Kind::Xfy),
    ("/", 400, Kind::Yfx),
    ("//", 400, Kind::Yfx),
    ("/\\", 500, Kind::Yfx),
    (":-", 1200, Kind::Fx),
    (":-", 1200, Kind::Xfx),
    (";", 1100, Kind::Xfy),
    ("<", 700, Kind::Xfx),
    ("<<", 400, Kind::Yfx),
    ("=", 700, Kind::Xfx),
    ("=..", 700, Kind::Xfx),
    ("=:=", 700, Kind::Xfx),
    ("=<", 700, Kind::Xfx),
    ("==", 700, Kind::Xfx),
    ("=\\=", 700, Kind::Xfx),
    (">", 700, Kind::Xfx),
    (">=", 700, Kind::Xfx),
    (">>", 400, Kind::Yfx),
    ("?-", 1200, Kind::Fx),
    ("@<", 700, Kind::Xfx),
    ("@=<", 700, Kind::Xfx),
    ("@>", 700, Kind::Xfx),
    ("@>=", 700, Kind::Xfx),
    ("\\", 200, Kind::Fy),
    ("\\+", 900, Kind::Fy),
    ("\\/", 500, Kind::Yfx),
    ("\\=", 700, Kind::Xfx),
    ("\\==", 700, Kind::Xfx),
    ("^", 200, Kind::Xfy),
    ("discontiguous", 1150, Kind::Fx),
    ("div", 400, Kind::Yfx),
    ("dynamic", 1150, Kind::Fx),
    ("initialization", 1150, Kind::Fx),
    ("is", 700, Kind::Xfx),
    ("mod", 400, Kind::Yfx),
    ("multifile", 1150, Kind::Fx),
    ("rem", 400, Kind::Yfx),
    ("thread_local", 1150, Kind::Fx),
];

/// The operators of these rows. The only error is out of memory.
pub fn operators_of(alloc: Global, rows: &[(&str, u16, Kind)]) -> Result<Vec<Operator>, Memory>
    ensures { IfOk result (λ os. entries_of os.items ≡ row_entries rows.now) }
{
    let mut operators = Vec::new(alloc);
    for (name, priority, kind) in rows {
        operators.push(Operator {
            name: Text::from_str(alloc, name)?,
            priority: *priority,
            kind: *kind,
        })?;
    }
    Ok(operators)
}
