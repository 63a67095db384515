//! Parts of lists.
ghost use Rattle.std.specs.Prelude.{◌≡◌, ◌+◌, ◌<◌, Some, length, slice_get, take, drop};

/// The items before this place: all of them where the list is shorter.
pub(crate) fn front<T>(items: &[T], place: usize) -> &[T]
    ensures { result.now ≡ take place items.now }
{
    &items[..place.min(items.len())]
}

/// The items behind this place: none where the list is shorter.
pub(crate) fn behind<T>(items: &[T], place: usize) -> &[T]
    ensures { result.now ≡ drop (place + 1) items.now }
{
    if place < items.len() {
        &items[place + 1..]
    } else {
        &items[items.len()..]
    }
}

/// The item at this place.
pub(crate) fn item<T>(items: &[T], place: usize) -> &T
    requires { place < length items.now }
    ensures { slice_get items.now place ≡ Some result.now }
{
    &items[place]
}
