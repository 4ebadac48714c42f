//! Lists that have room for one more most of the time.
ghost use Rattle.std.specs.Prelude.{◌≡◌, ◌++◌, ◌∷◌, [], is_ok, vec_len, ◌+◌, if◌then◌else◌};

use pl_term::Memory;

/// Puts an element behind the others, without a call where there is room. The only error is out of memory.
#[inline(always)]
pub fn push_one<T: Copy>(list: &mut Vec<T>, element: T) -> Result<(), Memory>
    ensures items { list.new.items ≡ (if is_ok result then list.old.items ++ element ∷ [] else list.old.items) }
    ensures len { vec_len list.new ≡ (if is_ok result then vec_len list.old + 1 else vec_len list.old) }
{
    if list.len() < list.capacity() {
        list.push_reserved(element);
        return Ok(());
    }
    push_slow(list, element)
}

/// Does what `push_one` does, where there is no room.
#[cold]
#[inline(never)]
fn push_slow<T: Copy>(list: &mut Vec<T>, element: T) -> Result<(), Memory>
    ensures items { list.new.items ≡ (if is_ok result then list.old.items ++ element ∷ [] else list.old.items) }
    ensures len { vec_len list.new ≡ (if is_ok result then vec_len list.old + 1 else vec_len list.old) }
{
    list.push(element)?;
    Ok(())
}
