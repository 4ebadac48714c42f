//! Looking for a procedure.
ghost use Rattle.std.specs.Prelude.{◌≡◌, ℕ, IfSome, IfNone, false, true, bytes_eq, map};
ghost use Rattle.std.specs.List.{list_any};
ghost use Rattle.pl_model.specs.laws.Shown.{proc_of};
ghost use Rattle.pl_model.specs.Predicates.{same_proc};
ghost use Rattle.clause_db.specs.Parts.{piece, is_part_of};
ghost use Rattle.clause_db.specs.Index.{Indexed, is_in};
ghost use Rattle.clause_db.specs.Located.{Locates, stands_at};
ghost use Rattle.clause_db.specs.Sound.{Apart, names};

use crate::index::{Index, Places, hash_of};
use crate::parts::ProcedureClauses;
use pl_model::kept::Kept;
use pl_model::shows::Proc;
use pl_term::Text;

/// Whether both texts are the same.
fn same_name(left: &Text, right: &Text) -> bool
    ensures { result ≡ bytes_eq left.now right.now }
{
    left.same(right)
}

/// Whether both are the same predicate.
fn is_same(left: &Proc, right: &Proc) -> bool
    ensures { result ≡ same_proc (proc_of left.now) (proc_of right.now) }
{
    same_name(&left.name, &right.name) && left.arity == right.arity
}

/// Whether the procedure stands at the index.
fn is_at<C: Kept>(parts: &[ProcedureClauses<C>], i: usize, p: &Proc) -> bool
    ensures { result ≡ stands_at (λ x. is_part_of (proc_of p.now) (piece x)) parts.now i }
{
    i < parts.len() && is_same(&parts[i].name, p)
}

/// At which of these places the procedure stands.
fn among<C: Kept>(parts: &[ProcedureClauses<C>], places: &[usize], p: &Proc) -> Option<usize>
    ensures some { IfSome result (λ i. stands_at (λ x. is_part_of (proc_of p.now) (piece x)) parts.now i ≡ true) }
    ensures none { IfNone result (list_any (stands_at (λ x. is_part_of (proc_of p.now) (piece x)) parts.now) places.now ≡ false) }
{
    for j in 0..places.len() {
        if is_at(parts, places[j], p) {
            return Some(places[j]);
        }
    }
    None
}

/// At which of the places under a hash the procedure stands.
fn under<C: Kept>(parts: &[ProcedureClauses<C>], places: &Places, p: &Proc) -> Option<usize>
    ensures some { IfSome result (λ i. stands_at (λ x. is_part_of (proc_of p.now) (piece x)) parts.now i ≡ true) }
    ensures none { IfNone result ((q : ℕ) → is_in places.now q ≡ true → stands_at (λ x. is_part_of (proc_of p.now) (piece x)) parts.now q ≡ false) }
{
    if is_at(parts, places.one, p) {
        return Some(places.one);
    }
    among(parts, places.others.as_slice(), p)
}

/// Where the procedure stands, or `None` where it is not there. Its time does not grow with the number of procedures.
pub fn locate<C: Kept>(parts: &[ProcedureClauses<C>], index: &Index, p: &Proc) -> Option<usize>
    requires apart { Apart (names (map piece parts.now)) }
    requires indexed { Indexed index.now (names (map piece parts.now)) }
    ensures { Locates (λ x. is_part_of (proc_of p.now) (piece x)) parts.now result }
{
    let Some(places) = index.places(hash_of(p)) else {
        return None;
    };
    under(parts, places, p)
}
