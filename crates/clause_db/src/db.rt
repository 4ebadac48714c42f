//! The clause database.
ghost use Rattle.std.specs.Prelude.{◌≡◌, ◌∷◌, [], ℕ, Bool, ◌<◌, ◌≤◌, ◌+◌, ◌^◌, ◌⊎◌, ◌==◌, Err, Some, None, IfOk, IfSome, IfNone, IfErr, OnOk, OnErr, false, true, not, filter, map, max, length, is_some};
ghost use Rattle.std.specs.Result.{MatchResult, IsOkAnd};
ghost use Rattle.std.specs.Option.{MatchOption, option_map, option_map_or};
ghost use Rattle.std.specs.List.{list_any, slice_get, sum_by};
ghost use Rattle.std.specs.List.Sorted.{IsPermutation};
ghost use Rattle.std.specs.Ordering.{nat_cmp};
ghost use Rattle.std.specs.Arc.{arc_value};
ghost use Rattle.std.specs.BTreeMap as tree;
ghost use Rattle.pl_model.specs.laws.Shown.{proc_of, origin_of};
ghost use Rattle.pl_model.specs.History as entries;
ghost use Rattle.pl_model.specs.Database.{Database, access_of, opening_database, is_at, is_there, seen, choices, with_first, with_last, without_clause, without_procedure, with_dynamic_procedures, current_procedures};
ghost use Rattle.pl_model.specs.FirstArguments.{are_apart};
ghost use Rattle.pl_model.specs.Flags.{opening_flags, with_flag};
ghost use Rattle.pl_model.specs.Service.{clause_cells};
ghost use Rattle.pl_model.specs.OperatorTable.{opening_table};
ghost use Rattle.pl_model.specs.SharedState.{with_operators};
ghost use Rattle.gen_core.specs.Hits.{hit_of};
ghost use Rattle.gen_core.specs.Visible.{is_droppable, first_choice, is_choice, behind};
ghost use Rattle.clause_db.specs.Parts.{Held, clauses_at, access_at, held_access, with_added, has_live, erased_held};
ghost use Rattle.clause_db.specs.Access.{access_of as access_as};
ghost use Rattle.clause_db.specs.Stands.{StandsFor, dated, then_at, first_named, after, program_access};
ghost use Rattle.clause_db.specs.Dynamic.{dynamic_held};
ghost use Rattle.clause_db.specs.Abolished.{abolished_held};
ghost use Rattle.clause_db.specs.Reclaimed.{reclaimed_held};
ghost use Rattle.clause_db.specs.Sound.{Apart, names};
ghost use Rattle.clause_db.specs.Faults.{call_fault, addition_fault, change_fault, held_call_fault, held_addition_fault, is_held_closed, is_static_access};
ghost use Rattle.clause_db.specs.Flags.{flags_as, flag_name, value_name};
ghost use Rattle.clause_db.specs.Reading.{Costs, EachHeld, IsHeld, SaysFor, read_hit};
ghost use Rattle.clause_db.specs.Weights.{weight};
ghost use Rattle.clause_db.specs.Operators.{shown, first_fault};
ghost use Rattle.clause_db.specs.declared.access.By.TheVariants.{Goal, Clause};
ghost use Rattle.clause_db.specs.declared.fault.DbFault.TheVariants.{Memory as NoMemory};
ghost use Rattle.op_table.specs.declared.fault.OpFault.TheVariants.{Memory as NoRoom};

use crate::abolish::close_in;
use crate::access::{Access, By};
use crate::dynamic::{add_blanks, open_all};
use crate::fault::DbFault;
use crate::flags::{Flag, FlagValue, Flags, first_flags, flags_with};
use crate::index::Index;
use crate::listing::listed;
use crate::operators::put_operators;
use crate::parts::{Addition, End, ProcedureClauses, access_in, add_to, erase_in, has_live_in};
use crate::reclaim::reclaim_at;
use crate::search::locate;
use crate::system::is_system;
use gen_core::{Drops, Hit};
use op_table::{OpFault, OpTable, Operator};
use pl_model::kept::Kept;
use pl_model::shows::{Origin, Proc};
use pl_term::Memory;
use std::alloc::Global;
use std::collections::BTreeMap;
use std::marker::Model;
use std::sync::Arc;

/// The stored clauses take fewer cells than this.
const CELLS: u64 = 0x100_0000_0000;

/// Where the clause that was added at a place stands, and what it costs.
#[derive(Clone, Copy, Drop)]
pub struct Home {
    pub part: usize,
    pub cells: u64,
}

/// The procedures of the program with their clauses, each with the places of the updates that added and that erased it,
/// and the flags and operators. A clause is named by the place of the update that added it.
#[derive(Drop)]
pub struct Db<C: Kept> {
    alloc: Global,
    parts: Vec<ProcedureClauses<C>>,
    index: Index,
    homes: BTreeMap<u64, Home>,
    used: u64,
    flags: Flags,
    operators: Arc<OpTable>,
    next: u64,
    floor: u64,
}

impl<C: Kept> Model for Db<C> {
    ghost use Rattle.std.specs.Prelude.{map};
    ghost use Rattle.clause_db.specs.Parts.{Held, piece};
    ghost use Rattle.clause_db.specs.Sound.{IsWhole};
    ghost use Rattle.clause_db.specs.Flags.{flags_as};
    ghost use Rattle.std.specs.Coded.{codes};
    ghost use Rattle.pl_model.specs.OperatorTable.{table_code};
    ghost use Rattle.std.specs.Arc.{arc_value};

    ghost Value = { Held C };

    ghost coded = { Prim.hlevel (codes, table_code, C.code) };

    ghost view = { λ d. record { parts = map piece d.parts.items; used = d.used; flags = flags_as d.flags; operators = arc_value d.operators; next = d.next; floor = d.floor } };

    ghost invariant = { λ d. IsWhole C.size (map piece d.parts.items) d.homes d.index d.next d.floor };
}

/// Writes where the clause stands that was added at a place. The only error is out of memory; after it nothing is
/// written.
fn settle(homes: &mut BTreeMap<u64, Home>, place: u64, home: Home) -> Result<(), Memory>
    ensures ok { OnOk result (tree.Updates nat_cmp homes.old homes.new place (Some home)) }
    ensures err { OnErr result (homes.new.entries ≡ homes.old.entries) }
{
    homes.insert(place, home)?;
    Ok(())
}

/// Forgets where the clause stands that was added at a place.
fn unsettle(homes: &mut BTreeMap<u64, Home>, place: u64)
    ensures { tree.Updates nat_cmp homes.old homes.new place None }
{
    homes.remove(&place);
}

/// Forgets where the clauses stand that were added at these places.
fn unsettle_all(homes: &mut BTreeMap<u64, Home>, places: &[u64])
    ensures stay { (k : ℕ) → list_any (λ q. q == k) places.now ≡ false → tree.get nat_cmp homes.new k ≡ tree.get nat_cmp homes.old k }
    ensures gone { (k : ℕ) → list_any (λ q. q == k) places.now ≡ true → tree.get nat_cmp homes.new k ≡ None }
{
    for i in 0..places.len() {
        unsettle(homes, places[i]);
    }
}

impl<C: Kept> Db<C> {
    /// No procedures, with the flags and operators of the start. The only error is out of memory.
    pub fn new(alloc: Global) -> Result<Db<C>, Memory>
        ensures stands { IfOk result (λ h. StandsFor C.size h (λ g. opening_database)) }
        ensures says { IfOk result (λ h. (f : C → entries.Clause) → SaysFor f h (λ g. opening_database)) }
        ensures start { IfOk result (λ d. (d.next ≡ 0) × (d.floor ≡ 0)) }
        ensures settings { IfOk result (λ d. (d.flags ≡ opening_flags) × (d.operators ≡ opening_table)) }
        ensures weighs { IfOk result (λ d. (w : C → ℕ) → weight w d ≡ 0) }
    {
        let operators = Arc::new(alloc, OpTable::iso(alloc)?)?;
        Ok(Db {
            alloc,
            parts: Vec::new(alloc),
            index: Index::new(alloc),
            homes: BTreeMap::new(alloc),
            used: 0,
            flags: first_flags(),
            operators,
            next: 0,
            floor: 0,
        })
    }

    /// The first clause of a call at the generation `g` of the procedure, whose first argument has the key `goal`, with
    /// its place and whether more follow. The errors are `Unknown`, for a goal alone, and `Private`, for clause/2 alone,
    /// where the procedure is not there at `g`, and static there.
    pub fn call(
        &self,
        p: &Proc,
        goal: &C::Key,
        g: u64,
        by: By,
    ) -> Result<Option<Hit<'_, C>>, DbFault>
        requires { self.now.floor ≤ g }
        ensures { (d : ℕ → Database C) → StandsFor C.size self.now d
            → MatchOption (call_fault (d g) (proc_of p.now) by)
            (IsOkAnd result (λ r. hit_of r ≡ first_named (choices (λ c. are_apart C.Key.Ord.cmp C.any goal.now (C.key_of c)) g (proc_of p.now) (d g))))
            (λ f. result ≡ Err f) }
    {
        match self.call_fault(p, g, by) {
            Some(fault) => Err(fault),
            None => Ok(self.first_of(p, goal, g)),
        }
    }

    /// The next clause of a call at the generation `g` of the procedure, whose first argument has the key `goal`, after
    /// the clause that was added at `place`, which `g` sees. It takes no memory, and there is no refusal.
    pub fn retry(&self, place: u64, goal: &C::Key, g: u64) -> Result<Option<Hit<'_, C>>, DbFault>
        requires { self.now.floor ≤ g }
        ensures { (d : ℕ → Database C) (p : entries.Proc) → StandsFor C.size self.now d → list_any (is_at place) (seen g p (d g)) ≡ true
            → IsOkAnd result (λ r. hit_of r ≡ first_named (filter (λ s. not (are_apart C.Key.Ord.cmp C.any goal.now (C.key_of s.clause))) (after place (seen g p (d g))))) }
    {
        match self.homes.get(&place) {
            Some(home) => Ok(self.next_in(home.part, place, goal, g)),
            None => Ok(None),
        }
    }

    /// The next clause of a call in a procedure, after the clause that was added at `place`.
    fn next_in(&self, part: usize, place: u64, goal: &C::Key, g: u64) -> Option<Hit<'_, C>>
        ensures found { IfSome (slice_get self.now.parts part) (λ x. hit_of result ≡ first_choice (filter (is_choice C.Key.Ord.cmp C.any C.key_of g goal.now) (behind (Some place) x.clauses))) }
        ensures past { IfNone (slice_get self.now.parts part) (result ≡ None) }
    {
        if part < self.parts.len() {
            return self.parts[part].clauses.next_after(Some(place), g, goal);
        }
        None
    }

    /// Why a call is refused.
    fn call_fault(&self, p: &Proc, g: u64, by: By) -> Option<DbFault>
        ensures { result ≡ held_call_fault g self.now (proc_of p.now) by }
    {
        match by {
            By::Goal => self.unknown(p, g),
            By::Clause => self.private(p, g),
        }
    }

    /// The refusal where there is no such procedure at the generation `g`.
    fn unknown(&self, p: &Proc, g: u64) -> Option<DbFault>
        ensures { result ≡ held_call_fault g self.now (proc_of p.now) Goal }
    {
        if self.is_there(p, g) || is_system(p) {
            None
        } else {
            Some(DbFault::Unknown)
        }
    }

    /// The refusal where the procedure is static at the generation `g`.
    fn private(&self, p: &Proc, g: u64) -> Option<DbFault>
        ensures { result ≡ held_call_fault g self.now (proc_of p.now) Clause }
    {
        if self.is_static(p, g) {
            Some(DbFault::Private)
        } else {
            None
        }
    }

    /// Whether the program has the procedure at the generation `g`.
    fn is_there(&self, p: &Proc, g: u64) -> bool
        ensures { result ≡ is_some (access_at g self.now.parts (proc_of p.now)) }
    {
        match locate(self.parts.as_slice(), &self.index, p) {
            Some(i) => access_in(&self.parts[i], g).is_some(),
            None => false,
        }
    }

    /// How the procedure may be used at the generation `g`, where there is one then. It takes no memory.
    pub fn access(&self, p: &Proc, g: u64) -> Option<Access>
        requires { self.now.floor ≤ g }
        ensures stands { (d : ℕ → Database C) → StandsFor C.size self.now d → option_map access_as result ≡ access_of (d g) (proc_of p.now) }
        ensures says { (f : C → entries.Clause) (d : ℕ → Database entries.Clause) → SaysFor f self.now d → option_map access_as result ≡ access_of (d g) (proc_of p.now) }
    {
        self.access_of(p, g)
    }

    /// How the procedure may be used at the generation `g`.
    fn access_of(&self, p: &Proc, g: u64) -> Option<Access>
        ensures { result ≡ held_access g self.now (proc_of p.now) }
    {
        if is_system(p) {
            return Some(Access::Static);
        }
        match locate(self.parts.as_slice(), &self.index, p) {
            Some(i) => access_in(&self.parts[i], g),
            None => None,
        }
    }

    /// The first clause that a call of the procedure tries.
    fn first_of(&self, p: &Proc, goal: &C::Key, g: u64) -> Option<Hit<'_, C>>
        ensures { hit_of result ≡ first_choice (filter (is_choice C.Key.Ord.cmp C.any C.key_of g goal.now) (clauses_at self.now.parts (proc_of p.now))) }
    {
        match locate(self.parts.as_slice(), &self.index, p) {
            Some(i) => self.parts[i].clauses.next_after(None, g, goal),
            None => None,
        }
    }

    /// Where the procedure stands among those that have stood in the database. It stays there. `None` where it has not
    /// stood there: then it has no clauses, whatever the generation.
    pub fn index_of(&self, p: &Proc) -> Option<u64>
        ensures there { IfSome result (λ i. option_map (λ x. proc_of x.name) (slice_get self.now.parts i) ≡ Some (proc_of p.now)) }
        ensures none { IfNone result ((f : C → entries.Clause) (d : ℕ → Database entries.Clause) (g : ℕ) → SaysFor f self.now d → self.now.floor ≤ g
            → (program_access (d g) (proc_of p.now) ≡ None) × ((t : entries.Clause → Bool) → choices t g (proc_of p.now) (d g) ≡ [])) }
    {
        match locate(self.parts.as_slice(), &self.index, p) {
            Some(i) => Some(i as u64),
            None => None,
        }
    }

    /// How the procedure at the index may be used at the generation `g`, or `None` where it is not there then.
    pub fn access_at(&self, i: u64, g: u64) -> Option<Access>
        requires there { i < length self.now.parts }
        requires floor { self.now.floor ≤ g }
        ensures { (f : C → entries.Clause) (d : ℕ → Database entries.Clause) → SaysFor f self.now d
            → IfSome (slice_get self.now.parts i) (λ x. option_map access_as result ≡ program_access (d g) (proc_of x.name)) }
    {
        access_in(&self.parts[i as usize], g)
    }

    /// The first clause of a call at the generation `g` of the procedure at the index, whose first argument has the key
    /// `goal`, with its place and whether more follow.
    pub fn first_at(&self, i: u64, goal: &C::Key, g: u64) -> Option<Hit<'_, C>>
        requires there { i < length self.now.parts }
        requires floor { self.now.floor ≤ g }
        ensures held { IfSome result (λ h. IsHeld h.clause.now self.now) }
        ensures says { (f : C → entries.Clause) (d : ℕ → Database entries.Clause) (t : entries.Clause → Bool) → SaysFor f self.now d
            → EachHeld (λ c. are_apart C.Key.Ord.cmp C.any goal.now (C.key_of c) ≡ t (f c)) self.now
            → IfSome (slice_get self.now.parts i) (λ x. read_hit f (hit_of result) ≡ first_named (choices t g (proc_of x.name) (d g))) }
    {
        self.parts[i as usize].clauses.next_after(None, g, goal)
    }

    /// The same, where the clause that was added at `place` is seen to be the only one of the procedure that such a call tries.
    /// `None` says nothing.
    pub fn alone_at(&self, i: u64, place: u64, goal: &C::Key, g: u64) -> Option<Hit<'_, C>>
        requires there { i < length self.now.parts }
        requires floor { self.now.floor ≤ g }
        ensures held { IfSome result (λ h. IsHeld h.clause.now self.now) }
        ensures says { (f : C → entries.Clause) (d : ℕ → Database entries.Clause) (t : entries.Clause → Bool) → SaysFor f self.now d
            → EachHeld (λ c. are_apart C.Key.Ord.cmp C.any goal.now (C.key_of c) ≡ t (f c)) self.now
            → IfSome result (λ _. IfSome (slice_get self.now.parts i) (λ x. read_hit f (hit_of result) ≡ first_named (choices t g (proc_of x.name) (d g)))) }
    {
        match self.parts[i as usize].clauses.alone(place, g, goal) {
            Some(hit) => Some(hit),
            None => None,
        }
    }

    /// The next clause of a call at the generation `g`, whose first argument has the key `goal`, after the clause that was
    /// added at `place`, which `g` sees.
    pub fn next_at(&self, place: u64, goal: &C::Key, g: u64) -> Option<Hit<'_, C>>
        requires { self.now.floor ≤ g }
        ensures held { IfSome result (λ h. IsHeld h.clause.now self.now) }
        ensures says { (f : C → entries.Clause) (d : ℕ → Database entries.Clause) (t : entries.Clause → Bool) (p : entries.Proc) → Costs C.size f → SaysFor f self.now d
            → EachHeld (λ c. are_apart C.Key.Ord.cmp C.any goal.now (C.key_of c) ≡ t (f c)) self.now
            → list_any (is_at place) (seen g p (d g)) ≡ true
            → read_hit f (hit_of result) ≡ first_named (filter (λ s. not (t s.clause)) (after place (seen g p (d g)))) }
    {
        match self.homes.get(&place) {
            Some(home) => self.next_in(home.part, place, goal, g),
            None => None,
        }
    }

    /// Adds a clause as the first one of the procedure, which is made where it is not there (ISO 8.9.1), by the update at
    /// `place`, which is after all updates so far. The errors are `Static`, `CellsFull` and `Memory`; after an error the
    /// database is as it was, and the clause is handed back.
    pub fn add_first(
        &mut self,
        p: &Proc,
        clause: C,
        origin: Origin,
        place: u64,
    ) -> Result<(), (C, DbFault)>
        requires bound { place < 2 ^ 49 }
        requires later { self.old.next ≤ place }
        ensures refused { (d : ℕ → Database C) → StandsFor C.size self.old d
            → IfSome (addition_fault C.size (d place) (proc_of p.now) origin clause) (λ f. result ≡ Err (clause, f)) }
        ensures added { (d : ℕ → Database C) → StandsFor C.size self.old d
            → IfNone (addition_fault C.size (d place) (proc_of p.now) origin clause)
            (MatchResult result
            (λ _. StandsFor C.size self.new (then_at place (with_first place (proc_of p.now) clause (origin_of origin)) d))
            (λ e. e ≡ (clause, NoMemory))) }
        ensures says { (f : C → entries.Clause) (d : ℕ → Database entries.Clause) → C.size clause ≡ clause_cells (f clause) → SaysFor f self.old d
            → MatchOption (addition_fault clause_cells (d place) (proc_of p.now) origin (f clause))
            (MatchResult result
            (λ _. SaysFor f self.new (then_at place (with_first place (proc_of p.now) (f clause) (origin_of origin)) d))
            (λ e. e ≡ (clause, NoMemory)))
            (λ x. result ≡ Err (clause, x)) }
        ensures rest { OnOk result ((self.new.next ≡ place + 1) × (self.new.floor ≡ self.old.floor)) }
        ensures settings { OnOk result ((self.new.flags ≡ self.old.flags) × (self.new.operators ≡ self.old.operators)) }
        ensures unchanged { OnErr result (self.new ≡ self.old) }
        ensures back { IfErr result (λ e. e.0 ≡ clause) }
        ensures weighs { OnOk result ((w : C → ℕ) → weight w self.new ≡ w clause + weight w self.old) }
    {
        let by = Addition {
            origin,
            place,
            end: End::First,
        };
        self.add(p, clause, by)
    }

    /// Adds a clause as the last one of the procedure, which is made where it is not there (ISO 8.9.2), by the update at
    /// `place`, which is after all updates so far. The errors are `Static`, `CellsFull` and `Memory`; after an error the
    /// database is as it was, and the clause is handed back.
    pub fn add_last(
        &mut self,
        p: &Proc,
        clause: C,
        origin: Origin,
        place: u64,
    ) -> Result<(), (C, DbFault)>
        requires bound { place < 2 ^ 49 }
        requires later { self.old.next ≤ place }
        ensures refused { (d : ℕ → Database C) → StandsFor C.size self.old d
            → IfSome (addition_fault C.size (d place) (proc_of p.now) origin clause) (λ f. result ≡ Err (clause, f)) }
        ensures added { (d : ℕ → Database C) → StandsFor C.size self.old d
            → IfNone (addition_fault C.size (d place) (proc_of p.now) origin clause)
            (MatchResult result
            (λ _. StandsFor C.size self.new (then_at place (with_last place (proc_of p.now) clause (origin_of origin)) d))
            (λ e. e ≡ (clause, NoMemory))) }
        ensures says { (f : C → entries.Clause) (d : ℕ → Database entries.Clause) → C.size clause ≡ clause_cells (f clause) → SaysFor f self.old d
            → MatchOption (addition_fault clause_cells (d place) (proc_of p.now) origin (f clause))
            (MatchResult result
            (λ _. SaysFor f self.new (then_at place (with_last place (proc_of p.now) (f clause) (origin_of origin)) d))
            (λ e. e ≡ (clause, NoMemory)))
            (λ x. result ≡ Err (clause, x)) }
        ensures rest { OnOk result ((self.new.next ≡ place + 1) × (self.new.floor ≡ self.old.floor)) }
        ensures settings { OnOk result ((self.new.flags ≡ self.old.flags) × (self.new.operators ≡ self.old.operators)) }
        ensures unchanged { OnErr result (self.new ≡ self.old) }
        ensures back { IfErr result (λ e. e.0 ≡ clause) }
        ensures weighs { OnOk result ((w : C → ℕ) → weight w self.new ≡ w clause + weight w self.old) }
    {
        let by = Addition {
            origin,
            place,
            end: End::Last,
        };
        self.add(p, clause, by)
    }

    /// Adds a clause at an end of its procedure's clauses.
    fn add(&mut self, p: &Proc, clause: C, by: Addition) -> Result<(), (C, DbFault)>
        requires bound { by.place < 2 ^ 49 }
        requires later { self.old.next ≤ by.place }
        ensures refused { IfSome (held_addition_fault by.place self.old (proc_of p.now) by.origin (C.size clause)) (λ f. result ≡ Err (clause, f)) }
        ensures added { IfNone (held_addition_fault by.place self.old (proc_of p.now) by.origin (C.size clause))
            (MatchResult result (λ _. self.new ≡ with_added by p.now clause (C.size clause) self.old) (λ e. e ≡ (clause, NoMemory))) }
        ensures unchanged { OnErr result (self.new ≡ self.old) }
    {
        let need = clause.cells();
        if let Some(fault) = self.addition_fault(p, by, need) {
            return Err((clause, fault));
        }
        let found = locate(self.parts.as_slice(), &self.index, p);
        let part = found.unwrap_or(self.parts.len());
        let home = Home { part, cells: need };
        if let Err(Memory) = settle(&mut self.homes, by.place, home) {
            return Err((clause, DbFault::Memory));
        }
        match add_to(
            self.alloc,
            &mut self.parts,
            &mut self.index,
            found,
            p,
            clause,
            by,
        ) {
            Ok(()) => {
                self.used += need;
                self.next = by.place + 1;
                Ok(())
            }
            Err((clause, _)) => {
                unsettle(&mut self.homes, by.place);
                Err((clause, DbFault::Memory))
            }
        }
    }

    /// Why a clause would be refused that is to be added to the procedure by the update at `place`, which is after all updates
    /// so far: `Static` or `CellsFull`. `None` where it would be added. Nothing is changed.
    pub fn addition_refusal(
        &self,
        p: &Proc,
        clause: &C,
        origin: Origin,
        place: u64,
    ) -> Option<DbFault>
        requires { self.now.next ≤ place }
        ensures { (f : C → entries.Clause) (d : ℕ → Database entries.Clause) → C.size clause.now ≡ clause_cells (f clause.now) → SaysFor f self.now d
            → result ≡ addition_fault clause_cells (d place) (proc_of p.now) origin (f clause.now) }
    {
        let by = Addition {
            origin,
            place,
            end: End::Last,
        };
        self.addition_fault(p, by, clause.cells())
    }

    /// Why an addition is refused.
    fn addition_fault(&self, p: &Proc, by: Addition, need: u64) -> Option<DbFault>
        ensures { result ≡ held_addition_fault by.place self.now (proc_of p.now) by.origin need }
    {
        if self.is_closed(p, by) {
            return Some(DbFault::Static);
        }
        if self.used.saturating_add(need) < CELLS {
            return None;
        }
        Some(DbFault::CellsFull {
            used: self.used,
            need,
        })
    }

    /// Whether what adds a clause may add none to the procedure.
    fn is_closed(&self, p: &Proc, by: Addition) -> bool
        ensures { result ≡ is_held_closed by.place self.now (proc_of p.now) by.origin }
    {
        match by.origin {
            Origin::Consult => is_system(p),
            Origin::Assert => self.is_static(p, by.place),
        }
    }

    /// Whether the procedure is static at the generation `g`.
    fn is_static(&self, p: &Proc, g: u64) -> bool
        ensures { result ≡ is_static_access (held_access g self.now (proc_of p.now)) }
    {
        matches!(self.access_of(p, g), Some(Access::Static))
    }

    /// Whether the clause that was added at this place is there and was not erased. It takes no memory.
    pub fn has_clause(&self, clause: u64) -> bool
        ensures { (f : C → entries.Clause) (d : ℕ → Database entries.Clause) → Costs C.size f → SaysFor f self.now d → result ≡ is_there clause (d self.now.next) }
    {
        match self.homes.get(&clause) {
            Some(home) => has_live_in(self.parts.as_slice(), home.part, clause),
            None => false,
        }
    }

    /// Erases the clause that was added at the place `clause` (ISO 8.9.3), by the update at `place`, which is after all
    /// updates so far. The answer is false where it is not there or erased already; then nothing has changed. The only
    /// error is `Memory`; after it the database is as it was.
    pub fn erase(&mut self, clause: u64, place: u64) -> Result<bool, DbFault>
        requires bound { place < 2 ^ 49 }
        requires later { self.old.next ≤ place }
        ensures was { (d : ℕ → Database C) → StandsFor C.size self.old d → IfOk result (λ b. b ≡ is_there clause (d place)) }
        ensures erased { (d : ℕ → Database C) → StandsFor C.size self.old d
            → IfOk result (λ b. b ≡ true → StandsFor C.size self.new (then_at place (without_clause clause place) d)) }
        ensures says { (f : C → entries.Clause) (d : ℕ → Database entries.Clause) → Costs C.size f → SaysFor f self.old d
            → IfOk result (λ b. (b ≡ is_there clause (d place)) × (b ≡ true → SaysFor f self.new (then_at place (without_clause clause place) d))) }
        ensures rest { IfOk result (λ b. b ≡ true → (self.new.next ≡ place + 1) × (self.new.floor ≡ self.old.floor)) }
        ensures settings { IfOk result (λ b. b ≡ true → (self.new.flags ≡ self.old.flags) × (self.new.operators ≡ self.old.operators)) }
        ensures gone { IfOk result (λ b. b ≡ false → self.new ≡ self.old) }
        ensures err { IfErr result (λ e. (e ≡ NoMemory) × (self.new ≡ self.old)) }
        ensures weighs { IfOk result (λ b. (w : C → ℕ) → weight w self.new ≡ weight w self.old) }
    {
        match self.homes.get(&clause) {
            Some(home) => {
                let home = *home;
                self.erase_at(home, clause, place)
            }
            None => Ok(false),
        }
    }

    /// Erases a clause in the procedure in which it has its home.
    fn erase_at(&mut self, home: Home, clause: u64, place: u64) -> Result<bool, DbFault>
        requires bound { place < 2 ^ 49 }
        requires later { self.old.next ≤ place }
        ensures was { IfOk result (λ b. b ≡ option_map_or (λ x. has_live clause x.clauses) (slice_get self.old.parts home.part) false) }
        ensures erased { IfOk result (λ b. b ≡ true → self.new ≡ erased_held home.part clause place home.cells self.old) }
        ensures gone { IfOk result (λ b. b ≡ false → self.new ≡ self.old) }
        ensures err { IfErr result (λ e. (e ≡ NoMemory) × (self.new ≡ self.old)) }
    {
        match erase_in(&mut self.parts, home.part, clause, place) {
            Ok(true) => {
                self.used = self.used.saturating_sub(home.cells);
                self.next = place + 1;
                Ok(true)
            }
            Ok(false) => Ok(false),
            Err(Memory) => Err(DbFault::Memory),
        }
    }

    /// Makes the procedures that are not there dynamic (ISO 7.4.2.1), by the update at `place`, which is after all updates
    /// so far. The errors are `Static`, where one of them is static, and `Memory`; after an error the database is as it was.
    pub fn set_dynamic(&mut self, ps: &[Proc], place: u64) -> Result<(), DbFault>
        requires bound { place < 2 ^ 49 }
        requires later { self.old.next ≤ place }
        ensures refused { (d : ℕ → Database C) → StandsFor C.size self.old d
            → IfSome (change_fault (d place) (map proc_of ps.now)) (λ f. result ≡ Err f) }
        ensures made { (d : ℕ → Database C) → StandsFor C.size self.old d
            → IfNone (change_fault (d place) (map proc_of ps.now))
            (MatchResult result
            (λ _. StandsFor C.size self.new (then_at place (with_dynamic_procedures (map proc_of ps.now)) d))
            (λ f. f ≡ NoMemory)) }
        ensures says { (f : C → entries.Clause) (d : ℕ → Database entries.Clause) → SaysFor f self.old d
            → MatchOption (change_fault (d place) (map proc_of ps.now))
            (MatchResult result
            (λ _. SaysFor f self.new (then_at place (with_dynamic_procedures (map proc_of ps.now)) d))
            (λ x. x ≡ NoMemory))
            (λ x. result ≡ Err x) }
        ensures rest { OnOk result ((self.new.next ≡ place + 1) × (self.new.floor ≡ self.old.floor)) }
        ensures settings { OnOk result ((self.new.flags ≡ self.old.flags) × (self.new.operators ≡ self.old.operators)) }
        ensures unchanged { OnErr result (self.new ≡ self.old) }
        ensures weighs { OnOk result ((w : C → ℕ) → weight w self.new ≡ weight w self.old) }
    {
        if self.any_static(ps, place) {
            return Err(DbFault::Static);
        }
        match self.make_dynamic(ps, place) {
            Ok(()) => Ok(()),
            Err(Memory) => Err(DbFault::Memory),
        }
    }

    /// Whether one of the procedures is static at the generation `g`.
    fn any_static(&self, ps: &[Proc], g: u64) -> bool
        ensures { result ≡ list_any (λ p. is_static_access (held_access g self.now (proc_of p))) ps.now }
    {
        for i in 0..ps.len() {
            if self.is_static(&ps[i], g) {
                return true;
            }
        }
        false
    }

    /// Makes the procedures that are not there dynamic. The only error is out of memory; after it the database is as it
    /// was.
    fn make_dynamic(&mut self, ps: &[Proc], place: u64) -> Result<(), Memory>
        requires bound { place < 2 ^ 49 }
        requires later { self.old.next ≤ place }
        ensures ok { OnOk result (self.new ≡ dynamic_held place ps.now self.old) }
        ensures err { OnErr result (self.new ≡ self.old) }
    {
        match add_blanks(self.alloc, &mut self.parts, &mut self.index, ps) {
            Ok(()) => {
                open_all(&mut self.parts, &self.index, ps, place);
                self.next = place + 1;
                Ok(())
            }
            Err(Memory) => Err(Memory),
        }
    }

    /// Takes the procedure away with all its clauses (ISO 8.9.4), by the update at `place`, which is after all updates so
    /// far. The errors are `Static` and `Memory`; after an error the database is as it was. Its time grows with the number
    /// of the procedure's clauses.
    pub fn abolish(&mut self, p: &Proc, place: u64) -> Result<(), DbFault>
        requires bound { place < 2 ^ 49 }
        requires later { self.old.next ≤ place }
        ensures refused { (d : ℕ → Database C) → StandsFor C.size self.old d
            → IfSome (change_fault (d place) (proc_of p.now ∷ [])) (λ f. result ≡ Err f) }
        ensures abolished { (d : ℕ → Database C) → StandsFor C.size self.old d
            → IfNone (change_fault (d place) (proc_of p.now ∷ []))
            (MatchResult result
            (λ _. StandsFor C.size self.new (then_at place (without_procedure (proc_of p.now) place) d))
            (λ f. f ≡ NoMemory)) }
        ensures says { (f : C → entries.Clause) (d : ℕ → Database entries.Clause) → Costs C.size f → SaysFor f self.old d
            → MatchOption (change_fault (d place) (proc_of p.now ∷ []))
            (MatchResult result
            (λ _. SaysFor f self.new (then_at place (without_procedure (proc_of p.now) place) d))
            (λ x. x ≡ NoMemory))
            (λ x. result ≡ Err x) }
        ensures rest { OnOk result ((self.new.next ≡ place + 1) × (self.new.floor ≡ self.old.floor)) }
        ensures settings { OnOk result ((self.new.flags ≡ self.old.flags) × (self.new.operators ≡ self.old.operators)) }
        ensures unchanged { OnErr result (self.new ≡ self.old) }
        ensures weighs { OnOk result ((w : C → ℕ) → weight w self.new ≡ weight w self.old) }
    {
        if self.is_static(p, place) {
            return Err(DbFault::Static);
        }
        match self.close(p, place) {
            Ok(()) => Ok(()),
            Err(Memory) => Err(DbFault::Memory),
        }
    }

    /// Takes the procedure away with all its clauses. The only error is out of memory; after it the database is as it was.
    fn close(&mut self, p: &Proc, place: u64) -> Result<(), Memory>
        requires bound { place < 2 ^ 49 }
        requires later { self.old.next ≤ place }
        ensures ok { OnOk result (self.new ≡ abolished_held C.size place (proc_of p.now) self.old) }
        ensures err { OnErr result (self.new ≡ self.old) }
    {
        match close_in(&mut self.parts, &self.index, p, place) {
            Ok(cells) => {
                self.used = self.used.saturating_sub(cells);
                self.next = place + 1;
                Ok(())
            }
            Err(Memory) => Err(Memory),
        }
    }

    /// The flags that can be changed, with their values.
    pub fn flags(&self) -> Flags
        ensures { flags_as result ≡ self.now.flags }
    {
        self.flags
    }

    /// Gives a flag a value (set_prolog_flag/2, ISO 8.17.1), by the update at `place`, which is after all updates so far.
    /// A value that the flag cannot have leaves the flags as they are.
    pub fn set_flag(&mut self, flag: Flag, value: FlagValue, place: u64)
        requires bound { place < 2 ^ 49 }
        requires later { self.old.next ≤ place }
        ensures set { self.new ≡ record self.old { flags = with_flag (flag_name flag) (value_name value) self.old.flags; next = place + 1 } }
        ensures stands { (d : ℕ → Database C) → StandsFor C.size self.old d → StandsFor C.size self.new d }
        ensures says { (f : C → entries.Clause) (d : ℕ → Database entries.Clause) → SaysFor f self.old d → SaysFor f self.new d }
        ensures weighs { (w : C → ℕ) → weight w self.new ≡ weight w self.old }
    {
        self.flags = flags_with(self.flags, flag, value);
        self.next = place + 1;
    }

    /// The table of operators.
    pub fn operators(&self) -> &OpTable
        ensures { result.now ≡ self.now.operators }
    {
        &self.operators
    }

    /// A handle on the table of operators as it stands, which stays as it is when the database's table changes. No table is
    /// copied. The only error is `Memory`, where there can be no more handles.
    pub fn shared_operators(&self) -> Result<Arc<OpTable>, Memory>
        ensures { IfOk result (λ t. arc_value t ≡ self.now.operators) }
    {
        Ok(Arc::try_clone(&self.operators)?)
    }

    /// Puts operators into the table, one after the other (op/3, ISO 8.14.3), by the update at `place`, which is after all
    /// updates so far. An error is the first cause of the first operator that is refused at its turn, or out of memory;
    /// after an error the database is as it was.
    pub fn set_op(&mut self, operators: &[Operator], place: u64) -> Result<(), OpFault>
        requires bound { place < 2 ^ 49 }
        requires later { self.old.next ≤ place }
        ensures granted { OnOk result (first_fault operators.now self.old.operators ≡ None) }
        ensures set { OnOk result (self.new ≡ record self.old { operators = with_operators (map shown operators.now) self.old.operators; next = place + 1 }) }
        ensures stands { OnOk result ((d : ℕ → Database C) → StandsFor C.size self.old d → StandsFor C.size self.new d) }
        ensures says { OnOk result ((f : C → entries.Clause) (d : ℕ → Database entries.Clause) → SaysFor f self.old d → SaysFor f self.new d) }
        ensures err { IfErr result (λ f. (f ≡ NoRoom) ⊎ (first_fault operators.now self.old.operators ≡ Some f)) }
        ensures unchanged { OnErr result (self.new ≡ self.old) }
        ensures weighs { OnOk result ((w : C → ℕ) → weight w self.new ≡ weight w self.old) }
    {
        put_operators(self.alloc, &mut self.operators, operators)?;
        self.next = place + 1;
        Ok(())
    }

    /// How many procedures have stood in the database, those without clauses included.
    pub fn procedures(&self) -> u64
        ensures { result ≡ length self.now.parts }
    {
        self.parts.len() as u64
    }

    /// The procedures of which the generation `g` sees a clause, in the standard order of their indicators
    /// (current_predicate/1, ISO 8.8.2). The only error is out of memory. The time grows with `n log n` for `n` procedures,
    /// and with the number of clauses.
    pub fn current_procedures(&self, g: u64) -> Result<Vec<Proc>, Memory>
        requires { self.now.floor ≤ g }
        ensures stands { (d : ℕ → Database C) → StandsFor C.size self.now d → IfOk result (λ ps. map proc_of ps.items ≡ current_procedures g (d g)) }
        ensures says { (f : C → entries.Clause) (d : ℕ → Database entries.Clause) → SaysFor f self.now d → IfOk result (λ ps. map proc_of ps.items ≡ current_procedures g (d g)) }
    {
        listed(self.alloc, self.parts.as_slice(), g)
    }

    /// Drops the clauses of the procedure that stands at the index `i` which one of the first `floor` updates erased, and
    /// hands each out once. From then on `floor` is the least generation that a call may ask for, and no update comes below
    /// it. The only error is out of memory; after it the database is as it was.
    pub fn reclaim_by<D: Drops>(&mut self, i: u64, d: &D, floor: u64) -> Result<Vec<C>, Memory>
        requires { i < length self.old.parts }
        ensures dropped { IfOk result (λ r. IfSome (slice_get self.old.parts i) (λ x. IsPermutation (map (λ y. y.clause) (filter (is_droppable floor) x.clauses)) r.items)) }
        ensures held { OnOk result (self.new ≡ reclaimed_held i floor self.old) }
        ensures rest { OnOk result ((self.new.next ≡ max self.old.next floor) × (self.new.floor ≡ max self.old.floor floor)) }
        ensures stands { OnOk result ((b : ℕ → Database C) → StandsFor C.size self.old b → StandsFor C.size self.new b) }
        ensures left { OnOk result ((b : ℕ → Database C) → StandsFor C.size self.old b → self.old.next ≤ floor
            → IfSome (slice_get self.new.parts i) (λ x. x.clauses ≡ map dated (seen floor (proc_of x.name) (b floor)))) }
        ensures unchanged { OnErr result (self.new ≡ self.old) }
        ensures weighs { IfOk result (λ r. (w : C → ℕ) → sum_by w r.items + weight w self.new ≡ weight w self.old) }
        ensures says { OnOk result ((f : C → entries.Clause) (b : ℕ → Database entries.Clause) → SaysFor f self.old b → SaysFor f self.new b) }
    {
        self.reclaim_in(i, d, floor)
    }

    /// Drops the clauses of the procedure at the index that one of the first `floor` updates erased.
    fn reclaim_in<D: Drops>(&mut self, i: u64, d: &D, floor: u64) -> Result<Vec<C>, Memory>
        requires { i < length self.old.parts }
        ensures dropped { IfOk result (λ r. IfSome (slice_get self.old.parts i) (λ x. IsPermutation (map (λ y. y.clause) (filter (is_droppable floor) x.clauses)) r.items)) }
        ensures held { OnOk result (self.new ≡ reclaimed_held i floor self.old) }
        ensures apart { Apart (names self.old.parts) }
        ensures unchanged { OnErr result (self.new ≡ self.old) }
    {
        match reclaim_at(self.alloc, &mut self.parts, i as usize, d, floor) {
            Ok(dropped) => {
                unsettle_all(&mut self.homes, dropped.places.as_slice());
                self.next = self.next.max(floor);
                self.floor = self.floor.max(floor);
                Ok(dropped.clauses)
            }
            Err(Memory) => Err(Memory),
        }
    }
}
