//! The name of an engine is an atom that it may not have yet. In a table whose buckets take no new atom it is refused, and the
//! engine goes on.
ghost use Rattle.std.specs.Prelude.{◌≡◌, All};
ghost use Rattle.atom_table.specs.Opening.{FreshFrom};
ghost use Rattle.pl_history.specs.Fronts.{new_front};

use crate::asked::Ask;
use crate::parts::{Part, came};
use crate::players::{Player, next_player};
use atom_table::{AtomSeat, AtomTable};
use pl_history::{Front, History};
use pl_hub::{Naming, Shared};
use pl_term::Memory;
use std::alloc::Global;
use std::test::Fail;

/// What the engine of the command's second goal is told of its name, and at its look after that.
pub fn named<'a, K: Naming>(
    alloc: Global,
    table: &'a AtomTable,
    mut seats: Vec<AtomSeat>,
    history: &'a History,
    mut fronts: Vec<Front>,
    mut shared: Shared<K>,
    mut main: Player<'a, K>,
) -> Result<Option<String>, Memory>
    requires named { (table.now.words.table.shared.table_id ≡ K.atoms) × (table.now.words.size ≡ K.size) }
    requires history { history.now ≡ K.history }
    requires seats { FreshFrom table.now.words 1 seats.items }
    requires fronts { All (λ f. f ≡ new_front history.now) fronts.items }
{
    main.say(alloc, &mut shared, Ask::Goal(2))?;
    let (other, _) = next_player(alloc, table, &mut seats, history, &mut fronts, &mut shared)?;
    told_twice(alloc, shared, other)
}

fn told_twice<K: Naming>(
    alloc: Global,
    mut shared: Shared<K>,
    mut other: Player<K>,
) -> Result<Option<String>, Memory> {
    let name = other.say(alloc, &mut shared, Ask::Name)?;
    let after = other.say(alloc, &mut shared, Ask::Look)?;
    Ok(Some(format!(in alloc; "{} | {}", name.as_str(), after.as_str())?))
}

#[test]
fn a_name_in_a_worn_bucket_is_refused(rt: HostRuntime) -> Result<(), Fail> {
    for (changes, wanted) in [
        (0, "1: named goal2 | 1: Codes, zz 0"),
        (4_398_046_511_103, "worn | 1: Codes, zz 0"),
    ] {
        let told = came(&rt, rt.alloc(), 2, changes, 3, Part::Names)?.ok_or("what is told")?;
        assert_eq!(rt; told.as_str(), wanted);
    }
    Ok(())
}
