//! What stands at a place of a list.
ghost use Rattle.std.specs.Prelude.{◌≡◌, ◌<◌, [], Some, length, slice_get, slice_index_or};

use sqlite_items::Items;

/// The list at a place: one without numbers where there is none.
pub(crate) fn list_at(lists: &Items<Items<u32>>, place: usize) -> &[u32]
    ensures { result.now ≡ slice_index_or lists.now place [] }
{
    match lists.get(place) {
        Some(numbers) => numbers.as_slice(),
        None => &[],
    }
}

/// The item at a place.
pub(crate) fn item_at<T: Copy>(items: &[T], place: usize) -> T
    requires { place < length items.now }
    ensures { slice_get items.now place ≡ Some result }
{
    items[place]
}
