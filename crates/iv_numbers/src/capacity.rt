//! Lists that give memory back.
ghost use Rattle.std.specs.Prelude.{◌≡◌};

// A list with room for so many items keeps it.
const FEW: usize = 16;

/// Gives memory of a list back if less than a quarter of its room is used, and keeps twice as much as it needs. If a
/// smaller block can't be had, the list keeps the one that it has.
pub fn give_room_back<T>(list: &mut Vec<T>)
    ensures { list.new.items ≡ list.old.items }
{
    let len = list.len();
    if list.capacity() > FEW && len < list.capacity() / 4 {
        list.shrink_to(len * 2);
    }
}
