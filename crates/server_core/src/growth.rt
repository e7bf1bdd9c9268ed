ghost use Rattle.std.specs.Prelude.{◌≡◌, ◌+◌, ◌≤◌, IfOk, vec_capacity, vec_len};
ghost use Rattle.server_core.specs.Rooms.{HasRoom, HasRoomAhead};

use std::alloc::Global;
use term_core::NoMemory;

/// A bigger block for a list of this length that is to have so many items more, or none where every list of this
/// length has room for them.
///
/// A list that only grows has always room up to the next power of two. Its room is then known from its length
/// alone, so that whoever only reads the list can take the memory.
pub fn room<T>(alloc: Global, len: usize, more: usize) -> Result<Option<Vec<T>>, NoMemory>
    ensures { IfOk result (λ block. HasRoom len more block) }
{
    let wanted = len.checked_add(more).ok_or(NoMemory)?;
    let size = wanted.checked_next_power_of_two().ok_or(NoMemory)?;
    if size / 2 < len {
        return Ok(None);
    }
    Ok(Some(Vec::with_capacity(alloc, size)?))
}

/// Moves the items into the bigger block, where there is one.
pub fn make_room<T: Drop>(items: &mut Vec<T>, more: usize, block: Option<Vec<T>>)
    requires ahead { HasRoomAhead (vec_len items.old) (vec_capacity items.old) }
    requires room { HasRoom (vec_len items.old) more block }
    ensures items { items.new.items ≡ items.old.items }
    ensures room { vec_len items.new + more ≤ vec_capacity items.new }
    ensures ahead { HasRoomAhead (vec_len items.new + more) (vec_capacity items.new) }
{
    match block {
        None => {}
        Some(mut bigger) => {
            bigger.append(items).unwrap();
            *items = bigger;
        }
    }
}
