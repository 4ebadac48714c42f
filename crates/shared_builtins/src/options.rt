//! Options of thread_create/3 (SWI-Prolog manual, section 'Creating and destroying Prolog threads').
ghost use Rattle.std.specs.Prelude.{◌≡◌, ◌==◌, ◌&&◌, IfOk, IfSome, IsSome, Some, false, map};
ghost use Rattle.std.specs.List.{All};
ghost use Rattle.pl_model.specs.SharedBuiltins.{Options as Given, is_false, with_alias, with_option, wrong_option};
ghost use Rattle.atom_api.specs.FixedNames.{detached_name};
ghost use Rattle.atom_api.specs.Names.{Names};
ghost use Rattle.builtin_rows.specs.Lists.{IsNaming};
ghost use Rattle.term_store.specs.Contents.{Holds};
ghost use Rattle.world_api.specs.Texts.{text_of};
ghost use Rattle.world_builtins.specs.Naming.{IsHeldAt};
ghost use Rattle.world_builtins.specs.Spelling.{reads};
ghost use Rattle.shared_builtins.specs.Faults.{IsFaultHeld, IsFaultIn, fault_term};
ghost use Rattle.shared_builtins.specs.Options.{AreOptions, IsOptionHeld, IsOptionIn, IsSingle, IsSingleIn, applied, is_single, taken, with_aliases};

use crate::faults::Fault;
use crate::kinds::VARIABLE;
use atom_api::{Atom, fixed};
use builtin_rows::passes;
use pl_term::Memory;
use std::alloc::Global;
use term_store::{Place, Store, View};

/// The aliases of the options up to the first one that is wrong, and the error of that one.
#[derive(Drop)]
pub struct Options {
    pub aliases: Vec<Atom>,
    pub fault: Option<Fault>,
}

/// What an option is.
#[derive(Clone, Copy, Drop)]
pub enum ThreadOption {
    Alias(Atom),
    /// detached(false), which changes nothing.
    Plain,
    Wrong(Fault),
}

/// The options at these places. The only error is out of memory.
pub fn options_at(alloc: Global, store: &Store, terms: &[Place]) -> Result<Options, Memory>
    requires { All (Holds store.now) terms.now }
    ensures inside { IfOk result (λ o. IfSome o.fault (IsFaultIn store.now)) }
    ensures options { IfOk result (λ o. (m : Names) → IsNaming m → All (IsHeldAt m store.now) terms.now → AreOptions m store.now terms.now o) }
{
    let mut aliases = Vec::new(alloc);
    for place in terms {
        let wrong = take_option(store, *place, &mut aliases)?;
        if let Some(fault) = wrong {
            return Ok(Options {
                aliases,
                fault: Some(fault),
            });
        }
    }
    Ok(Options {
        aliases,
        fault: None,
    })
}

/// Puts the alias after the others, if the option at a place is one, or answers its error. The only error of the call is out of
/// memory.
fn take_option(
    store: &Store,
    place: Place,
    aliases: &mut Vec<Atom>,
) -> Result<Option<Fault>, Memory>
    requires { Holds store.now place }
    ensures inside { IfOk result (λ o. IfSome o (IsFaultIn store.now)) }
    ensures took { IfOk result (λ o. (m : Names) (rest : Given) → IsNaming m → IsHeldAt m store.now place
        → with_aliases (map (text_of m) aliases.old.items) (with_option (reads m store.now place) rest) ≡ taken m store.now (map (text_of m) aliases.new.items) o rest) }
    ensures held { IfOk result (λ o. (m : Names) → IsNaming m → IsHeldAt m store.now place → All (λ a. IsSome (m a)) aliases.old.items
        → All (λ a. IsSome (m a)) aliases.new.items × IfSome o (IsFaultHeld m store.now)) }
{
    match option_at(store, place) {
        ThreadOption::Alias(name) => {
            aliases.push(name)?;
            Ok(None)
        }
        ThreadOption::Plain => Ok(None),
        ThreadOption::Wrong(fault) => Ok(Some(fault)),
    }
}

/// The option at a place.
fn option_at(store: &Store, place: Place) -> ThreadOption
    requires { Holds store.now place }
    ensures inside { IsOptionIn store.now result }
    ensures option { (m : Names) → IsNaming m → IsHeldAt m store.now place → (o : Given) → with_option (reads m store.now place) o ≡ applied m store.now result o }
    ensures held { (m : Names) → IsNaming m → IsHeldAt m store.now place → IsOptionHeld m store.now result }
{
    match single_of(store, place) {
        Some(single) => named_option(store, place, single.0, single.1),
        None => ThreadOption::Wrong(no_option(store, place)),
    }
}

/// The error of a term that is no option.
fn no_option(store: &Store, place: Place) -> Fault
    requires { Holds store.now place }
    ensures inside { IsFaultIn store.now result }
    ensures error { (m : Names) → is_single (reads m store.now place) ≡ false → (o : Given) → with_option (reads m store.now place) o ≡ wrong_option (fault_term m store.now result) }
    ensures held { (m : Names) → IsHeldAt m store.now place → IsFaultHeld m store.now result }
{
    if passes(VARIABLE, store, place) {
        Fault::Unbound
    } else {
        Fault::For(fixed::DOMAIN_ERROR, fixed::THREAD_OPTION, place)
    }
}

/// The name and the argument of the term at a place, if it has one argument.
fn single_of(store: &Store, place: Place) -> Option<(Atom, Place)>
    requires { Holds store.now place }
    ensures inside { IsSingleIn store.now result }
    ensures single { (m : Names) → IsNaming m → IsHeldAt m store.now place → IsSingle m store.now place result }
{
    match store.look(place) {
        View::Variable(_) => None,
        View::Integer(_) => None,
        View::Atom(_) => None,
        View::Compound(name, arguments) => {
            if arguments.len() != 1 {
                return None;
            }
            Some((name, store.argument(arguments, 0)))
        }
    }
}

/// The option with this name and argument, which stands at a place.
fn named_option(store: &Store, place: Place, name: Atom, value: Place) -> ThreadOption
    requires place { Holds store.now place }
    requires value { Holds store.now value }
    ensures inside { IsOptionIn store.now result }
    ensures option { (m : Names) → IsNaming m → IsSingle m store.now place (Some (name, value)) → (o : Given) → with_option (reads m store.now place) o ≡ applied m store.now result o }
    ensures held { (m : Names) → IsNaming m → IsHeldAt m store.now place → IsSingle m store.now place (Some (name, value)) → IsOptionHeld m store.now result }
{
    if name == fixed::ALIAS {
        return alias_at(store, value);
    }
    if is_plain(store, name, value) {
        return ThreadOption::Plain;
    }
    ThreadOption::Wrong(Fault::For(fixed::DOMAIN_ERROR, fixed::THREAD_OPTION, place))
}

/// Whether the option with this name and argument is detached(false).
fn is_plain(store: &Store, name: Atom, value: Place) -> bool
    requires { Holds store.now value }
    ensures { (m : Names) → IsNaming m → IsHeldAt m store.now value → result ≡ ((name == detached_name) && is_false (reads m store.now value)) }
{
    name == fixed::DETACHED && is_false(store, value)
}

/// The option of an alias.
fn alias_at(store: &Store, place: Place) -> ThreadOption
    requires { Holds store.now place }
    ensures inside { IsOptionIn store.now result }
    ensures option { (m : Names) → IsNaming m → (o : Given) → with_alias (reads m store.now place) o ≡ applied m store.now result o }
    ensures held { (m : Names) → IsHeldAt m store.now place → IsOptionHeld m store.now result }
{
    match store.look(place) {
        View::Atom(name) => ThreadOption::Alias(name),
        View::Variable(_) => ThreadOption::Wrong(Fault::Unbound),
        View::Integer(_) => ThreadOption::Wrong(Fault::For(fixed::TYPE_ERROR, fixed::ATOM, place)),
        View::Compound(_, _) => ThreadOption::Wrong(Fault::For(
            fixed::TYPE_ERROR,
            fixed::ATOM,
            place,
        )),
    }
}

/// Whether the atom `false` stands at a place.
fn is_false(store: &Store, place: Place) -> bool
    requires { Holds store.now place }
    ensures { (m : Names) → IsNaming m → IsHeldAt m store.now place → result ≡ is_false (reads m store.now place) }
{
    match store.look(place) {
        View::Variable(_) => false,
        View::Integer(_) => false,
        View::Atom(name) => name == fixed::FALSE,
        View::Compound(_, _) => false,
    }
}
