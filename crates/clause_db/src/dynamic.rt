//! Procedures that are made dynamic.
ghost use Rattle.std.specs.Prelude.{◌≡◌, ◌++◌, ◌∷◌, [], OnOk, OnErr, map, take};
ghost use Rattle.pl_model.specs.laws.Shown.{proc_of};
ghost use Rattle.clause_db.specs.declared.access.Access.TheVariants.{Dynamic};
ghost use Rattle.clause_db.specs.Parts.{piece, blank, opened, changed_in};
ghost use Rattle.clause_db.specs.Dynamic.{with_blank, with_blanks, opened_all};
ghost use Rattle.clause_db.specs.Index.{Indexed};
ghost use Rattle.clause_db.specs.Sound.{Apart, names};

use crate::access::Access;
use crate::index::{Index, hash_of};
use crate::parts::{ProcedureClauses, make, make_room, no_part};
use crate::search::locate;
use pl_model::kept::Kept;
use pl_model::shows::Proc;
use pl_term::Memory;
use std::alloc::Global;

/// Puts the predicate after the others, without clauses. The only error is out of memory; after it all is as it was.
fn push_blank<C: Kept>(
    alloc: Global,
    parts: &mut Vec<ProcedureClauses<C>>,
    index: &mut Index,
    p: &Proc,
) -> Result<(), Memory>
    requires { Indexed index.old (names (map piece parts.old.items)) }
    ensures ok { OnOk result (map piece parts.new.items ≡ map piece parts.old.items ++ blank p.now ∷ []) }
    ensures indexed { Indexed index.new (names (map piece parts.new.items)) }
    ensures err { OnErr result (parts.new.items ≡ parts.old.items) }
{
    let part = no_part(alloc, p)?;
    make_room(parts, index, p)?;
    parts.push_reserved(part);
    Ok(())
}

/// Puts the predicate after the others, without clauses, where it is not among them. The only error is out of memory;
/// after it all is as it was.
fn add_blank<C: Kept>(
    alloc: Global,
    parts: &mut Vec<ProcedureClauses<C>>,
    index: &mut Index,
    p: &Proc,
) -> Result<(), Memory>
    requires apart { Apart (names (map piece parts.old.items)) }
    requires indexed { Indexed index.old (names (map piece parts.old.items)) }
    ensures ok { OnOk result (map piece parts.new.items ≡ with_blank p.now (map piece parts.old.items)) }
    ensures indexed { Indexed index.new (names (map piece parts.new.items)) }
    ensures err { OnErr result (parts.new.items ≡ parts.old.items) }
{
    match locate(parts.as_slice(), index, p) {
        Some(_) => Ok(()),
        None => push_blank(alloc, parts, index, p),
    }
}

/// Takes the procedures off again that stand from the index `stood` on, and lists their places no longer.
fn take_back<C: Kept>(parts: &mut Vec<ProcedureClauses<C>>, index: &mut Index, stood: usize)
    requires { Indexed index.old (names (map piece parts.old.items)) }
    ensures left { map piece parts.new.items ≡ take stood (map piece parts.old.items) }
    ensures indexed { Indexed index.new (names (map piece parts.new.items)) }
{
    while parts.len() > stood {
        if let Some(part) = parts.pop() {
            index.remove(hash_of(&part.name), parts.len());
        }
    }
}

/// Puts those of the predicates after the others that are not among them. The only error is out of memory; after it all
/// is as it was.
pub fn add_blanks<C: Kept>(
    alloc: Global,
    parts: &mut Vec<ProcedureClauses<C>>,
    index: &mut Index,
    ps: &[Proc],
) -> Result<(), Memory>
    requires apart { Apart (names (map piece parts.old.items)) }
    requires indexed { Indexed index.old (names (map piece parts.old.items)) }
    ensures ok { OnOk result (map piece parts.new.items ≡ with_blanks ps.now (map piece parts.old.items)) }
    ensures apart { OnOk result (Apart (names (map piece parts.new.items))) }
    ensures indexed { Indexed index.new (names (map piece parts.new.items)) }
    ensures err { OnErr result (map piece parts.new.items ≡ map piece parts.old.items) }
{
    let stood = parts.as_slice().len();
    for i in 0..ps.len() {
        if let Err(Memory) = add_blank(alloc, parts, index, &ps[i]) {
            take_back(parts, index, stood);
            return Err(Memory);
        }
    }
    Ok(())
}

/// Makes the procedure dynamic by the update at `place`, where it is not there.
fn open_in<C: Kept>(parts: &mut Vec<ProcedureClauses<C>>, index: &Index, p: &Proc, place: u64)
    requires apart { Apart (names (map piece parts.old.items)) }
    requires indexed { Indexed index.now (names (map piece parts.old.items)) }
    ensures { map piece parts.new.items ≡ changed_in (opened place Dynamic) (proc_of p.now) (map piece parts.old.items) }
{
    match locate(parts.as_slice(), index, p) {
        Some(i) => make(&mut parts[i], Access::Dynamic, place),
        None => {}
    }
}

/// Makes the procedures dynamic by the update at `place`, where they are not there. It takes no memory.
pub fn open_all<C: Kept>(
    parts: &mut Vec<ProcedureClauses<C>>,
    index: &Index,
    ps: &[Proc],
    place: u64,
)
    requires apart { Apart (names (map piece parts.old.items)) }
    requires indexed { Indexed index.now (names (map piece parts.old.items)) }
    ensures { map piece parts.new.items ≡ opened_all place ps.now (map piece parts.old.items) }
{
    for i in 0..ps.len() {
        open_in(parts, index, &ps[i], place);
    }
}
