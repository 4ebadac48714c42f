//! Procedures with their clauses.
ghost use Rattle.std.specs.Prelude.{◌≡◌, ℕ, ◌<◌, ◌^◌, ◌++◌, ◌∷◌, [], ◌==◌, ◌&&◌, ◌||◌, All, IfOk, IfErr, OnOk, OnErr, false, true, map, length};
ghost use Rattle.std.specs.List.{slice_get};
ghost use Rattle.std.specs.Option.{option_map_or};
ghost use Rattle.std.specs.Vec.{vec_len, vec_capacity};
ghost use Rattle.pl_model.specs.laws.Shown.{proc_of};
ghost use Rattle.clause_db.specs.Parts.{piece, blank, is_part_of, piece_access, opened, added_to, with_clause, placed, has_live, without_at};
ghost use Rattle.clause_db.specs.Index.{Indexed, hash_of, is_listed};
ghost use Rattle.clause_db.specs.Located.{Locates};
ghost use Rattle.clause_db.specs.Sound.{names};
ghost use Rattle.gen_core.specs.Visible.{fresh};

use crate::access::{Access, Life, access_by, life_at};
use crate::index::{Index, hash_of};
use gen_core::Dated;
use pl_model::kept::Kept;
use pl_model::shows::{Origin, Proc};
use pl_term::Memory;
use std::alloc::Global;

/// A procedure with its clauses. They stay after the procedure is abolished, for the calls that still see them.
#[derive(Drop)]
pub struct ProcedureClauses<C: Kept> {
    pub name: Proc,
    /// `None` where there is no such procedure now.
    pub access: Option<Access>,
    /// The place of the update that made it, where it is there.
    pub since: u64,
    /// What it was before it was abolished, the earliest first.
    pub lives: Vec<Life>,
    pub clauses: Dated<C>,
}

/// An end of a procedure's clauses.
#[derive(Debug, Clone, Copy, Drop)]
pub enum End {
    First,
    Last,
}

/// How a clause is added: by what, by the update at which place, and at which end.
#[derive(Debug, Clone, Copy, Drop)]
pub struct Addition {
    pub origin: Origin,
    pub place: u64,
    pub end: End,
}

/// Puts a clause at an end of the others. A refused clause is handed back, and the others are as they were; the only
/// cause is out of memory.
fn put<C: Kept>(d: &mut Dated<C>, clause: C, place: u64, end: End) -> Result<(), (C, Memory)>
    requires bound { place < 2 ^ 49 }
    requires later { All (λ x. x.place < place) d.old }
    ensures ok { OnOk result (d.new ≡ placed end (fresh place clause) d.old) }
    ensures err { IfErr result (λ e. (e.0 ≡ clause) × (d.new ≡ d.old)) }
{
    match end {
        End::First => d.add_first(clause, place),
        End::Last => d.add_last(clause, place),
    }
}

/// How the procedure may be used at the generation `g`.
pub fn access_in<C: Kept>(part: &ProcedureClauses<C>, g: u64) -> Option<Access>
    ensures { result ≡ piece_access g (piece part.now) }
{
    match part.access {
        Some(access) => {
            if part.since < g {
                Some(access)
            } else {
                life_at(part.lives.as_slice(), g)
            }
        }
        None => life_at(part.lives.as_slice(), g),
    }
}

/// Makes the procedure by the update at `place`, where it is not there.
pub fn make<C: Kept>(part: &mut ProcedureClauses<C>, access: Access, place: u64)
    ensures { piece part.new ≡ opened place access (piece part.old) }
{
    if part.access.is_none() {
        part.access = Some(access);
        part.since = place;
    }
}

/// Adds a clause to a procedure, which is made where it is not there.
fn add_in<C: Kept>(
    part: &mut ProcedureClauses<C>,
    clause: C,
    by: Addition,
) -> Result<(), (C, Memory)>
    requires bound { by.place < 2 ^ 49 }
    requires later { All (λ x. x.place < by.place) part.old.clauses }
    ensures ok { OnOk result (piece part.new ≡ added_to by clause (piece part.old)) }
    ensures err { IfErr result (λ e. (e.0 ≡ clause) × (part.new ≡ part.old)) }
    ensures name { part.new.name ≡ part.old.name }
{
    match put(&mut part.clauses, clause, by.place, by.end) {
        Ok(()) => {
            make(part, access_by(by.origin), by.place);
            Ok(())
        }
        Err(refused) => Err(refused),
    }
}

/// A procedure that is not there, without clauses. The only error is out of memory.
pub fn no_part<C: Kept>(alloc: Global, p: &Proc) -> Result<ProcedureClauses<C>, Memory>
    ensures { IfOk result (λ x. piece x ≡ blank p.now) }
{
    let name = Proc {
        name: p.name.copy(alloc)?,
        arity: p.arity,
    };
    Ok(ProcedureClauses {
        name,
        access: None,
        since: 0,
        lives: Vec::new(alloc),
        clauses: Dated::new(alloc),
    })
}

/// Adds a clause to its procedure, which stands at `found`, or is not there. A refused clause is handed back, and all is as
/// it was; the only cause is that memory runs out.
pub fn add_to<C: Kept>(
    alloc: Global,
    parts: &mut Vec<ProcedureClauses<C>>,
    index: &mut Index,
    found: Option<usize>,
    p: &Proc,
    clause: C,
    by: Addition,
) -> Result<(), (C, Memory)>
    requires bound { by.place < 2 ^ 49 }
    requires later { All (λ x. All (λ d. d.place < by.place) x.clauses) (map piece parts.old.items) }
    requires located { Locates (λ x. is_part_of (proc_of p.now) (piece x)) parts.old.items found }
    requires indexed { Indexed index.old (names (map piece parts.old.items)) }
    ensures ok { OnOk result (map piece parts.new.items ≡ with_clause by p.now clause (map piece parts.old.items)) }
    ensures indexed { Indexed index.new (names (map piece parts.new.items)) }
    ensures err { IfErr result (λ e. (e.0 ≡ clause) × (parts.new.items ≡ parts.old.items)) }
{
    match found {
        Some(i) => add_in(&mut parts[i], clause, by),
        None => add_new(alloc, parts, index, p, clause, by),
    }
}

/// Makes room for the procedure after the others, and lists its place. The only error is out of memory; after it the index
/// is as it was.
pub fn make_room<C: Kept>(
    parts: &mut Vec<ProcedureClauses<C>>,
    index: &mut Index,
    p: &Proc,
) -> Result<(), Memory>
    ensures same { parts.new.items ≡ parts.old.items }
    ensures room { OnOk result (vec_len parts.new < vec_capacity parts.new) }
    ensures ok { OnOk result ((k q : ℕ) → is_listed index.new k q ≡ (((k == hash_of (proc_of p.now)) && (q == length parts.old.items)) || is_listed index.old k q)) }
    ensures err { OnErr result ((k q : ℕ) → is_listed index.new k q ≡ is_listed index.old k q) }
{
    parts.reserve(1)?;
    index.add(hash_of(p), parts.len())?;
    Ok(())
}

/// Adds a clause to a procedure that stands after the others from now on.
fn add_new<C: Kept>(
    alloc: Global,
    parts: &mut Vec<ProcedureClauses<C>>,
    index: &mut Index,
    p: &Proc,
    clause: C,
    by: Addition,
) -> Result<(), (C, Memory)>
    requires bound { by.place < 2 ^ 49 }
    requires indexed { Indexed index.old (names (map piece parts.old.items)) }
    ensures ok { OnOk result (map piece parts.new.items ≡ map piece parts.old.items ++ added_to by clause (blank p.now) ∷ []) }
    ensures indexed { Indexed index.new (names (map piece parts.new.items)) }
    ensures err { IfErr result (λ e. (e.0 ≡ clause) × (parts.new.items ≡ parts.old.items)) }
{
    let Ok(mut part) = no_part(alloc, p) else {
        return Err((clause, Memory));
    };
    if make_room(parts, index, p).is_err() {
        return Err((clause, Memory));
    }
    match add_in(&mut part, clause, by) {
        Ok(()) => {
            parts.push_reserved(part);
            Ok(())
        }
        Err(refused) => {
            index.remove(hash_of(p), parts.len());
            Err(refused)
        }
    }
}

/// Whether the procedure that stands at the index has the clause that was added at a place, not erased.
pub fn has_live_in<C: Kept>(parts: &[ProcedureClauses<C>], i: usize, clause: u64) -> bool
    ensures { result ≡ option_map_or (λ x. has_live clause x.clauses) (slice_get (map piece parts.now) i) false }
{
    if i < parts.len() {
        return parts[i].clauses.has_live(clause);
    }
    false
}

/// Erases a clause in the procedure that stands at the index, and says whether it was there and not erased before. The only
/// error is out of memory; after it all is as it was.
pub fn erase_in<C: Kept>(
    parts: &mut Vec<ProcedureClauses<C>>,
    i: usize,
    clause: u64,
    place: u64,
) -> Result<bool, Memory>
    ensures was { IfOk result (λ b. b ≡ option_map_or (λ x. has_live clause x.clauses) (slice_get (map piece parts.old.items) i) false) }
    ensures ok { OnOk result (map piece parts.new.items ≡ without_at i clause place (map piece parts.old.items)) }
    ensures err { OnErr result (parts.new.items ≡ parts.old.items) }
{
    if i < parts.as_slice().len() {
        return parts[i].clauses.erase(clause, place);
    }
    Ok(false)
}
