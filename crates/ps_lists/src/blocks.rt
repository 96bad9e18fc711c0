//! Room that a list no longer uses.
ghost use Rattle.std.specs.Prelude.{◌≡◌, ◌≤◌, vec_capacity, vec_len};

/// How many items are a block.
const BLOCK: usize = 65_536;

/// Gives back the room that a list doesn't use, where that is a block or more. So while a long list is used up from its end, its room goes
/// block by block, and a short one keeps its own.
pub(super) fn give_back_room<T>(list: &mut Vec<T>)
    ensures items { list.new.items ≡ list.old.items }
    ensures len { vec_len list.new ≡ vec_len list.old }
    ensures room { vec_capacity list.new ≤ vec_capacity list.old }
{
    if list.capacity() - list.len() >= BLOCK {
        list.shrink_to_fit();
    }
}
