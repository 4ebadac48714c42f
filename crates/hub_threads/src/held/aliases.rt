//! Changes of the list of aliases.
ghost use Rattle.std.specs.Prelude.{◌≡◌, ◌<◌, vec_len, vec_capacity};
ghost use Rattle.hub_threads.specs.Distinct.{Distinct};
ghost use Rattle.hub_threads.specs.Held.{alias_numbers, with_name, without_names};

use crate::held::searches::named_at;
use pl_term::Text;

/// Puts an alias of the number after the others, where there is one.
pub fn put_alias(aliases: &mut Vec<(Text, u64)>, n: u64, alias: Option<Text>)
    requires { vec_len aliases.old < vec_capacity aliases.old }
    ensures { aliases.new.items ≡ with_name n alias aliases.old.items }
{
    match alias {
        None => {}
        Some(name) => aliases.push_reserved((name, n)),
    }
}

/// Takes the alias of the number away, where it has one.
pub fn take_alias(aliases: &mut Vec<(Text, u64)>, n: u64)
    requires { Distinct (alias_numbers aliases.old.items) }
    ensures { aliases.new.items ≡ without_names n aliases.old.items }
{
    match named_at(aliases.as_slice(), n) {
        None => {}
        Some(i) => {
            aliases.remove(i);
        }
    }
}
