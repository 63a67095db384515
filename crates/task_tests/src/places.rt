//! What stands in the places of slots.
use field_box::Value;

/// The numbers of the field in a place.
pub(crate) fn numbers(places: &[Option<Value>], slot: usize) -> &[i64] {
    match places.get(slot) {
        Some(Some(Value::Grid(field))) => field.numbers(),
        _ => &[],
    }
}

/// The number in a place.
pub(crate) fn number(places: &[Option<Value>], slot: usize) -> Option<i64> {
    match places.get(slot) {
        Some(Some(Value::Number(n))) => Some(*n),
        _ => None,
    }
}
