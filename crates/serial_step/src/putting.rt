//! Values put in the places of slots.
ghost use Rattle.std.specs.Prelude.{◌≡◌, ℕ, ◌<◌, ◌≤◌, All, IfOk, Some, length, slice_get, slice_set};
ghost use Rattle.std.specs.List.Sorted.{IsStrictlyIncreasing};
ghost use Rattle.serial_step.specs.Put.{ArePut};

use graph_types::NoMemory;
use std::alloc::Global;

/// A place for each slot. Those of the old slots, which come first, have the old values, and the others have none.
pub(crate) fn with_old<V: Drop>(
    alloc: Global,
    slots: u32,
    old: Vec<V>,
) -> Result<Vec<Option<V>>, NoMemory>
    requires { length old.items ≤ slots }
    ensures many { IfOk result (λ places. length places.items ≡ slots) }
    ensures old { IfOk result (λ places. (slot : ℕ) (value : _) → slice_get old.items slot ≡ Some value
        → slice_get places.items slot ≡ Some (Some value)) }
{
    let mut places: Vec<Option<V>> = old.into_iter().map(Some).collect(alloc)?;
    places.resize_with(slots as usize, || None)?;
    Ok(places)
}

/// Puts the value in the place of a slot.
fn put<V: Drop>(slot: u32, value: V, places: &mut [Option<V>])
    requires { slot < length places.old }
    ensures { places.new ≡ slice_set places.old slot (Some value) }
{
    places[slot as usize] = Some(value);
}

/// Puts the values in the places of these slots, in order.
pub(crate) fn put_all<V: Drop>(slots: &[u32], values: Vec<V>, places: &mut [Option<V>])
    requires ascending { IsStrictlyIncreasing slots.now }
    requires within { All (λ slot. slot < length places.old) slots.now }
    requires many { length values.items ≡ length slots.now }
    ensures { ArePut slots.now values.items places.old places.new }
{
    for (slot, value) in slots.iter().zip(values) {
        put(*slot, value, places);
    }
}
