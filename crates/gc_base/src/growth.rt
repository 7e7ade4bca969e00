ghost use Rattle.std.specs.Prelude.{◌≡◌, ◌≤◌, length, OnOk, OnErr};
ghost use Rattle.std.specs.List.{insert};

use crate::memory::Memory;

/// Inserts an item at a place up to the length. The first item of a vector takes room for one
/// alone, since most sets of an element of a graph have one item.
pub fn insert_at<T: Drop>(items: &mut Vec<T>, place: usize, item: T) -> Result<(), Memory>
    requires { place ≤ length items.old.items }
    ensures ok { OnOk result (items.new.items ≡ insert items.old.items place item) }
    ensures err { OnErr result (items.new.items ≡ items.old.items) }
{
    make_room(items)?;
    items.insert(place, item)?;
    Ok(())
}

// Room for one item in an empty vector.
fn make_room<T>(items: &mut Vec<T>) -> Result<(), Memory>
    ensures { items.new.items ≡ items.old.items }
{
    if items.is_empty() {
        items.reserve_exact(1)?;
    }
    Ok(())
}
