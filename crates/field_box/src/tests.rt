//! Fields with their numbers counted by hand.
use crate::{Field, NoMemory, Value, width};
use uts_geom::{Index, Span, contains, volume};

/// Three by two indexes, and four by two beside and below them: two are common.
const WHOLE: Span = Span {
    lo: Index { x: 0, y: 0, z: 0 },
    hi: Index { x: 3, y: 2, z: 1 },
};

const PART: Span = Span {
    lo: Index { x: 1, y: -1, z: 0 },
    hi: Index { x: 5, y: 1, z: 1 },
};

/// Gives an index of the field another number.
fn change(field: &mut Field, i: Index, n: i64) {
    if contains(field.span(), i) {
        field.set(i, n);
    }
}

#[test]
fn parts_are_copied_on_common_indexes(rt: HostRuntime) -> Result<(), NoMemory> {
    assert_eq!(rt; volume(WHOLE), 6);
    assert_eq!(rt; volume(PART), 8);
    let mut field = Field::filled(rt.alloc(), WHOLE, 7)?;
    let mut from = Field::filled(rt.alloc(), PART, 1)?;
    change(&mut from, Index { x: 2, y: 0, z: 0 }, 5);
    field.copy_part(&from);
    assert_eq!(rt; field.numbers(), [7, 1, 5, 7, 7, 7].as_slice());
    Ok(())
}

/// Writes the row at y and z, and says what stands there then.
fn write_row(field: &mut Field, y: i64, z: i64, numbers: &[i64]) -> i64 {
    let s = field.span();
    let first = Index { x: s.lo.x, y, z };
    if !contains(s, first) || numbers.len() != width(s) {
        return 0;
    }
    field.set_row(y, z, numbers);
    if contains(field.span(), first) {
        field.get(first)
    } else {
        0
    }
}

#[test]
fn rows_are_written(rt: HostRuntime) -> Result<(), NoMemory> {
    assert_eq!(rt; volume(WHOLE), 6);
    let mut field = Field::filled(rt.alloc(), WHOLE, 7)?;
    assert_eq!(rt; write_row(&mut field, 1, 0, &[3, 4, 5]), 3);
    assert_eq!(rt; field.numbers(), [7, 7, 7, 3, 4, 5].as_slice());
    match Value::Grid(field) {
        Value::Grid(same) => assert_eq!(rt; same.numbers().len(), 6),
        Value::Number(_) => assert!(rt; false),
    }
    Ok(())
}
